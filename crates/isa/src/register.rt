// The sixty-four registers.
ghost use Rattle.std.specs.Prelude.{◌≡◌, ◌≢◌, MatchOption};
ghost use Rattle.std.specs.Option.{ok_or};
ghost use Rattle.isa.specs.declared.condition.ConditionRegister.{ConditionRegister};
ghost use Rattle.isa.specs.Conditions.{register_number};
ghost use Rattle.isa.specs.Registers.{register_of, side_of, odd_of};

use crate::condition::ConditionRegister;
use crate::unit::Side;
use crate::unknown::UnknownByte;

#[derive(Clone, Copy, Debug, PartialEq, Eq)]
pub struct Register {
    pub number: u8,
}

// The register of a number from 0 to 63.
impl TryFrom<u8> for Register {
    type Error = UnknownByte;

    ghost try_from_gives = { λ byte r. r ≡ ok_or (register_of byte) (record { 0 = byte }) };

    fn try_from(byte: u8) -> Result<Register, UnknownByte> {
        if byte < 64 {
            Ok(Register { number: byte })
        } else {
            Err(UnknownByte(byte))
        }
    }
}

impl Register {
    pub fn side(self) -> Side
        ensures value { result ≡ side_of self }
    {
        if self.number < 32 { Side::A } else { Side::B }
    }

    // The odd register of the pair that this one is in.
    pub fn odd_of_pair(self) -> Register
        ensures value { result ≡ odd_of self }
    {
        Register {
            number: 2 * (self.number / 2) + 1,
        }
    }

    // The condition register that it is, if it is one of the six.
    pub fn condition_register(self) -> Option<ConditionRegister>
        ensures cases { MatchOption result ((q : ConditionRegister) → self.number ≢ register_number q) (λ q. self.number ≡ register_number q) }
    {
        match self.number {
            32 => Some(ConditionRegister::B0),
            33 => Some(ConditionRegister::B1),
            34 => Some(ConditionRegister::B2),
            1 => Some(ConditionRegister::A1),
            2 => Some(ConditionRegister::A2),
            0 => Some(ConditionRegister::A0),
            _ => None,
        }
    }
}
