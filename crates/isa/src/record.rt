// A record: eight raw bytes, by their names.
ghost use Rattle.std.specs.Prelude.{◌≡◌, ℕ, ◌<◌, List, ◌++◌, length, MatchResult};
ghost use Rattle.isa.specs.declared.refusal.Refusal.TheVariants.{BlockLayout};
ghost use Rattle.isa.specs.declared.record.Record.{Record};
ghost use Rattle.isa.specs.Records.{bytes, flags_of};

use crate::refusal::Refusal;

#[derive(Clone, Copy, Debug, PartialEq, Eq)]
pub struct Record {
    pub operation: u8,
    pub unit: u8,
    pub flags: u8,
    pub condition: u8,
    pub s1: u8,
    pub s2: u8,
    pub dst: u8,
    pub count: u8,
}

// The flags of a record.
#[derive(Clone, Copy, Debug, PartialEq, Eq)]
pub struct Flags {
    // the next record belongs to the same packet
    pub p: bool,
    // s2 comes over the cross path
    pub x: bool,
    // memory is reached over the data path of side B
    pub t: bool,
    // the address register is updated
    pub u: bool,
}

impl From<u8> for Flags {
    ghost from_gives = { λ byte f. f ≡ flags_of byte };

    fn from(byte: u8) -> Flags {
        Flags {
            p: byte % 2 == 1,
            x: (byte >> 1) % 2 == 1,
            t: (byte >> 2) % 2 == 1,
            u: (byte >> 3) % 2 == 1,
        }
    }
}

impl From<[u8; 8]> for Record {
    ghost from_gives = { λ body s. body ≡ bytes s };

    fn from(body: [u8; 8]) -> Record {
        let [operation, unit, flags, condition, s1, s2, dst, count] = body;
        Record {
            operation,
            unit,
            flags,
            condition,
            s1,
            s2,
            dst,
            count,
        }
    }
}

// The bytes that a record is read from.
impl From<Record> for [u8; 8] {
    ghost from_gives = { λ s body. body ≡ bytes s };

    fn from(record: Record) -> [u8; 8] {
        [
            record.operation,
            record.unit,
            record.flags,
            record.condition,
            record.s1,
            record.s2,
            record.dst,
            record.count,
        ]
    }
}

impl Record {
    // The record at the front of a body, and the bytes after it.
    pub fn read(body: &[u8]) -> Result<(Record, &[u8]), Refusal>
        ensures cases { MatchResult result (λ p. bytes p.0 ++ p.1.now ≡ body.now) (λ e. (e ≡ BlockLayout) × (length body.now < 8)) }
        ensures reads_back { (s : Record) (rest : List ℕ) → body.now ≡ bytes s ++ rest → MatchResult result (λ p. (p.0 ≡ s) × (p.1.now ≡ rest)) (λ _. ⊥) }
    {
        let (front, rest) = body.split_first_chunk().ok_or(Refusal::BlockLayout)?;
        Ok((Record::from(*front), rest))
    }
}
