// A row file as a repertoire, over the caller's bytes.
ghost use Rattle.std.specs.Prelude.{◌≡◌, ◌↔◌, All, IsTrue, IsSome, IfSome, IfOk, MatchResult};
ghost use Rattle.rowfile.specs.Entries.{row_of};
ghost use Rattle.rowfile.specs.Files.{entries, entries_map, Rising, Sized, LaidOut, WellFormed, RefusedFile, MapOfFile};
ghost use Rattle.rowfile.specs.Lawfulness.{entries_lawful};

use crate::entry::read_row;
use isa::refusal::Refusal;
use isa::repertoire::Repertoire;
use isa::row::Row;

// The entries of a file that is well formed.
#[derive(Clone, Copy)]
pub struct RowFile<'a> {
    pub(crate) entries: &'a [[u8; 8]],
    ghost rising: { Rising entries.now },
}

impl<'a> Repertoire for RowFile<'a> {
    ghost map = { λ f. entries_map f.entries.now };

    fn row(&self, operation: u8) -> Option<Row> {
        match self
            .entries
            .binary_search_by_key(&operation, |entry| entry[0])
        {
            Ok(place) => read_row(&self.entries[place]),
            Err(_) => None,
        }
    }

    ghost lawful = { λ f. entries_lawful f.entries.now };
}

// Whether every entry has a row.
fn all_readable(entries: &[[u8; 8]]) -> bool
    ensures { IsTrue result ↔ All (λ e. IsSome (row_of e)) entries.now }
{
    entries.iter().all(|entry| read_row(entry).is_some())
}

// Whether the numbers rise strictly.
fn all_rising(entries: &[[u8; 8]]) -> bool
    ensures { IsTrue result ↔ Rising entries.now }
{
    entries.is_sorted_by(|earlier, later| earlier[0] < later[0])
}

// The entries of a file whose count and length agree.
fn laid_out(bytes: &[u8]) -> Option<&[[u8; 8]]>
    ensures laid { IsSome result ↔ LaidOut bytes.now }
    ensures entries { IfSome result (λ e. e.now ≡ entries bytes.now) }
{
    let [low, high, body @ ..] = bytes else {
        return None;
    };
    let count = usize::from(u16::from_le_bytes([*low, *high]));
    let (entries, rest) = body.as_chunks::<8>();
    if count == 0 || count > 256 || entries.len() != count || !rest.is_empty() {
        return None;
    }
    Some(entries)
}

impl<'a> RowFile<'a> {
    pub fn read(bytes: &'a [u8]) -> Result<RowFile<'a>, Refusal>
        ensures cases { MatchResult result (λ f. Sized bytes.now × WellFormed bytes.now × (f.entries.now ≡ entries bytes.now)) (RefusedFile bytes.now) }
        ensures map { IfOk result (λ f. MapOfFile bytes.now (entries_map f.entries.now)) }
    {
        if bytes.len() < 2 || bytes.len() > 65536 {
            return Err(Refusal::FileSize);
        }
        let entries = laid_out(bytes).ok_or(Refusal::RowFileLayout)?;
        if !all_readable(entries) || !all_rising(entries) {
            return Err(Refusal::RowFileLayout);
        }
        Ok(RowFile { entries })
    }
}
