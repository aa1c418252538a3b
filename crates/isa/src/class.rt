// The classes of operations and their latency.
ghost use Rattle.std.specs.Prelude.{◌≡◌, if◌then◌else◌, Ok, Err, nat_le};
ghost use Rattle.isa.specs.Classes.{class_of, delay};

use crate::unknown::UnknownByte;

#[derive(Clone, Copy, Debug, PartialEq, Eq)]
pub enum Class {
    Nop,
    SingleCycle,
    TwoCycle,
    FourCycle,
    Load,
    Store,
}

// The class that a byte of a row file names.
impl TryFrom<u8> for Class {
    type Error = UnknownByte;

    ghost try_from_gives = { λ byte r. r ≡ (if nat_le byte 5 then Ok (class_of byte) else Err (record { 0 = byte })) };

    fn try_from(byte: u8) -> Result<Class, UnknownByte> {
        match byte {
            0 => Ok(Class::Nop),
            1 => Ok(Class::SingleCycle),
            2 => Ok(Class::TwoCycle),
            3 => Ok(Class::FourCycle),
            4 => Ok(Class::Load),
            5 => Ok(Class::Store),
            _ => Err(UnknownByte(byte)),
        }
    }
}

impl Class {
    // How many cycles after its issue an operation writes its destination.
    pub fn delay(self) -> u8
        ensures value { result ≡ delay self }
    {
        match self {
            Class::Nop | Class::SingleCycle | Class::Store => 0,
            Class::TwoCycle => 1,
            Class::FourCycle => 3,
            Class::Load => 4,
        }
    }
}
