// A row file in words: the count of rows, then a line for each. A line is made on the stack, in a text of a type that
// has room for the longest: a `write!` is not known to succeed where there is room, and `push_str` is.
ghost use Rattle.std.specs.Prelude.{◌≡◌, ℕ, ◌+◌, ◌*◌, ◌≤◌, ◌++◌, List, length, IsOk, OnOk, MatchResult};
ghost use Rattle.isa.specs.Refusals.{number};
ghost use Rattle.rowfile.specs.Listings.{Adds, Room, alignment_name, unit_text, side_text, units_text, tail_text, head_text, row_line, entry_line, number_line, rows_text, Printed};

use crate::entry::read_row;
use crate::file::RowFile;
use arrayvec::ArrayString;
use isa::class::Class;
use isa::refusal::Refusal;
use isa::row::Row;
use isa::unit::{FunctionalUnit, Side, UnitKind, Units};
use itoa::Buffer;
use std::alloc::AllocError;

// Adds the name of a unit that is permitted, behind a space.
fn push_unit(line: &mut ArrayString<96>, units: Units, kind: UnitKind, side: Side)
    requires room { length line.old.bytes + 4 ≤ 96 }
    ensures adds { line.new.bytes ≡ line.old.bytes ++ unit_text units kind side }
    ensures short { length line.new.bytes ≤ length line.old.bytes + 4 }
{
    let unit = FunctionalUnit { kind, side };
    if units.permit(unit) {
        line.push_str(" ");
        line.push_str(unit.name());
    }
}

fn push_side(line: &mut ArrayString<96>, units: Units, side: Side)
    requires room { length line.old.bytes + 16 ≤ 96 }
    ensures adds { line.new.bytes ≡ line.old.bytes ++ side_text units side }
    ensures short { length line.new.bytes ≤ length line.old.bytes + 16 }
{
    for kind in [UnitKind::L, UnitKind::S, UnitKind::M, UnitKind::D] {
        push_unit(line, units, kind, side);
    }
}

fn push_units(line: &mut ArrayString<96>, units: Units)
    requires room { length line.old.bytes + 32 ≤ 96 }
    ensures adds { line.new.bytes ≡ line.old.bytes ++ units_text units }
    ensures short { length line.new.bytes ≤ length line.old.bytes + 32 }
{
    if units.permit_some() {
        push_side(line, units, Side::A);
        push_side(line, units, Side::B);
    } else {
        line.push_str(" none");
    }
}

fn alignment_name(nonaligned: bool) -> &'static str
    ensures text { result.now ≡ alignment_name nonaligned }
    ensures short { length result.now ≤ 20 }
{
    if nonaligned {
        ", nonaligned, widths"
    } else {
        ", aligned, widths"
    }
}

fn push_tail(line: &mut ArrayString<96>, row: Row)
    requires room { length line.old.bytes + 32 ≤ 96 }
    ensures adds { line.new.bytes ≡ line.old.bytes ++ tail_text row }
{
    line.push_str(alignment_name(row.nonaligned));
    for width in [row.s1, row.s2, row.dst] {
        line.push_str(" ");
        line.push_str(width.name());
    }
    line.push_str("\n");
}

// The number and the class, at the head of a line.
fn head(number: u8, class: Class) -> ArrayString<96>
    ensures text { result.bytes ≡ head_text number class }
    ensures short { length result.bytes ≤ 32 }
{
    let mut line = ArrayString::new();
    line.push_str(Buffer::new().format(number));
    line.push_str(": ");
    line.push_str(class.name());
    line.push_str(", units");
    line
}

fn row_line(number: u8, row: Row) -> ArrayString<96>
    ensures { result.bytes ≡ row_line number row }
{
    let mut line = head(number, row.class);
    push_units(&mut line, row.units);
    push_tail(&mut line, row);
    line
}

// The line of an entry; it is empty where the entry has no row.
fn entry_line(entry: &[u8; 8]) -> ArrayString<96>
    ensures { result.bytes ≡ entry_line entry.now }
{
    match read_row(entry) {
        Some(row) => row_line(entry[0], row),
        None => ArrayString::new(),
    }
}

// A text and a number, as a line.
fn number_line(text: &str, number: usize) -> ArrayString<64>
    requires short { length text.now ≤ 40 }
    ensures { result.bytes ≡ number_line text.now number }
{
    let mut line = ArrayString::new();
    line.push_str(text);
    line.push_str(Buffer::new().format(number));
    line.push_str("\n");
    line
}

fn put_rows(out: &mut Vec<u8>, entries: &[[u8; 8]]) -> Result<(), AllocError>
    ensures adds { OnOk result (Adds out.old out.new (rows_text entries.now)) }
    ensures succeeds { Room out.old (96 * (1 + length entries.now)) → IsOk result }
{
    out.extend_from_slice(number_line("rows ", entries.len()).as_bytes())?;
    for entry in entries {
        out.extend_from_slice(entry_line(entry).as_bytes())?;
    }
    Ok(())
}

// The room that every listing fits into: 256 rows and the line before them, 96 bytes each.
pub const LISTING_BYTES: usize = 24_672;

// Adds what a file says in words: its rows, or why it is refused.
pub fn list_rows(bytes: &[u8], out: &mut Vec<u8>) -> Result<(), AllocError>
    ensures text { MatchResult result (λ _. (t : List ℕ) × Printed bytes.now t × Adds out.old out.new t) (λ _. out.new.items ≡ out.old.items) }
    ensures succeeds { Room out.old 24672 → IsOk result }
{
    out.reserve(LISTING_BYTES)?;
    match RowFile::read(bytes) {
        Ok(file) => put_rows(out, file.entries),
        Err(refusal) => {
            let number = usize::from(refusal.number());
            out.extend_from_slice(number_line("file: refused ", number).as_bytes())
        }
    }
}
