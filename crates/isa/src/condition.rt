// Conditions: which of the six condition registers is tested, and for what.
ghost use Rattle.std.specs.Prelude.{◌≡◌};
ghost use Rattle.std.specs.Option.{ok_or};
ghost use Rattle.isa.specs.Conditions.{creg_of, condition_of};

use crate::unknown::UnknownByte;

#[derive(Clone, Copy, Debug, PartialEq, Eq)]
pub enum ConditionRegister {
    B0,
    B1,
    B2,
    A1,
    A2,
    A0,
}

impl ConditionRegister {
    // Each of them, by its place in valuations.
    pub const ALL: [ConditionRegister; 6] = [
        ConditionRegister::B0,
        ConditionRegister::B1,
        ConditionRegister::B2,
        ConditionRegister::A1,
        ConditionRegister::A2,
        ConditionRegister::A0,
    ];
}

#[derive(Clone, Copy, Debug, PartialEq, Eq)]
pub enum Condition {
    Always,
    Nonzero(ConditionRegister),
    Zero(ConditionRegister),
}

// The condition register of a creg from 1 to 6.
impl TryFrom<u8> for ConditionRegister {
    type Error = UnknownByte;

    ghost try_from_gives = { λ creg r. r ≡ ok_or (creg_of creg) (record { 0 = creg }) };

    fn try_from(creg: u8) -> Result<ConditionRegister, UnknownByte> {
        match creg {
            1 => Ok(ConditionRegister::B0),
            2 => Ok(ConditionRegister::B1),
            3 => Ok(ConditionRegister::B2),
            4 => Ok(ConditionRegister::A1),
            5 => Ok(ConditionRegister::A2),
            6 => Ok(ConditionRegister::A0),
            _ => Err(UnknownByte(creg)),
        }
    }
}

// The condition of a byte, 2 * creg + z.
impl TryFrom<u8> for Condition {
    type Error = UnknownByte;

    ghost try_from_gives = { λ byte r. r ≡ ok_or (condition_of byte) (record { 0 = byte }) };

    fn try_from(byte: u8) -> Result<Condition, UnknownByte> {
        if byte == 0 {
            return Ok(Condition::Always);
        }
        let Ok(register) = ConditionRegister::try_from(byte / 2) else {
            return Err(UnknownByte(byte));
        };
        if byte % 2 == 1 {
            Ok(Condition::Zero(register))
        } else {
            Ok(Condition::Nonzero(register))
        }
    }
}
