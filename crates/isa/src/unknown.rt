// What a byte is that names nothing where something is to be named.
ghost use Rattle.std.specs.Prelude.{Some};
ghost use Rattle.isa.specs.Names.{unknown_text};

use std::error::Error;
use std::fmt;

// A byte that names none of what it should name.
#[derive(Clone, Copy, Debug, PartialEq, Eq)]
pub struct UnknownByte(pub u8);

impl fmt::Display for UnknownByte {
    ghost output = { λ unknown. Some (unknown_text unknown) };

    fn fmt<W: fmt::Write>(&self, f: &mut fmt::Formatter<W>) -> fmt::Result {
        write!(f, "nothing is named by byte {}", self.0)
    }
}

impl Error for UnknownByte {}
