// How many registers an operand covers.
ghost use Rattle.std.specs.Prelude.{◌≡◌, if◌then◌else◌, Ok, Err, nat_le};
ghost use Rattle.isa.specs.Widths.{width_of};

use crate::unknown::UnknownByte;

#[derive(Clone, Copy, Debug, PartialEq, Eq)]
pub enum Width {
    Absent,
    Single,
    Pair,
}

// The width that a byte of a row file names.
impl TryFrom<u8> for Width {
    type Error = UnknownByte;

    ghost try_from_gives = { λ byte r. r ≡ (if nat_le byte 2 then Ok (width_of byte) else Err (record { 0 = byte })) };

    fn try_from(byte: u8) -> Result<Width, UnknownByte> {
        match byte {
            0 => Ok(Width::Absent),
            1 => Ok(Width::Single),
            2 => Ok(Width::Pair),
            _ => Err(UnknownByte(byte)),
        }
    }
}
