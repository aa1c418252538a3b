// One entry of a row file: eight bytes, an operation number and its row.
ghost use Rattle.std.specs.Prelude.{◌≡◌};
ghost use Rattle.rowfile.specs.Entries.{mark_of, spelled_row, row_of};

use isa::class::Class;
use isa::row::Row;
use isa::unit::Units;
use isa::width::Width;

// The nonaligned mark that a byte names. `bool` has no `TryFrom` of a byte.
fn mark_from_byte(byte: u8) -> Option<bool>
    ensures { result ≡ mark_of byte }
{
    match byte {
        0 => Some(false),
        1 => Some(true),
        _ => None,
    }
}

// The row that the bytes spell, or none where one of them is out of range.
fn spelled_row(entry: &[u8; 8]) -> Option<Row>
    ensures { result ≡ spelled_row entry.now }
{
    let [_, class, mask, mark, s1, s2, dst, last] = *entry;
    if last != 0 {
        return None;
    }
    Some(Row {
        class: Class::try_from(class).ok()?,
        units: Units { mask },
        nonaligned: mark_from_byte(mark)?,
        s1: Width::try_from(s1).ok()?,
        s2: Width::try_from(s2).ok()?,
        dst: Width::try_from(dst).ok()?,
    })
}

// The row of an entry, or none where a byte is out of range or the row breaks the rule.
pub fn read_row(entry: &[u8; 8]) -> Option<Row>
    ensures value { result ≡ row_of entry.now }
{
    spelled_row(entry).filter(|row| row.keeps_rule())
}
