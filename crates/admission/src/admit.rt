// Admission of one record.
ghost use Rattle.std.specs.Prelude.{◌≡◌, true, IfOk, Some};
ghost use Rattle.isa.specs.Rows.{keeps_rule};
ghost use Rattle.admission.specs.Instructions.{instruction, Admits};

use crate::instruction::Instruction;
use crate::refusals::Candidate;
use isa::condition::Condition;
use isa::record::{Flags, Record};
use isa::refusal::Refusal;
use isa::register::Register;
use isa::repertoire::Repertoire;
use isa::unit::FunctionalUnit;

// The typed fields of a record on its row.
impl From<Candidate> for Instruction {
    ghost from_gives = { λ c i. i ≡ instruction c.row c.«record» };

    fn from(candidate: Candidate) -> Instruction {
        let Candidate { row, record } = candidate;
        let flags = Flags::from(record.flags);
        Instruction {
            row,
            unit: FunctionalUnit::try_from(record.unit).ok(),
            condition: Condition::try_from(record.condition).unwrap_or(Condition::Always),
            cross: flags.x,
            path: candidate.path(),
            update: flags.u,
            s1: Register::try_from(record.s1).ok(),
            s2: Register::try_from(record.s2).ok(),
            dst: Register::try_from(record.dst).ok(),
            cycles: record.count,
        }
    }
}

// The instruction of a record on its row, or the first of the refusals 4 to 8 that applies.
fn admit_on(candidate: Candidate) -> Result<Instruction, Refusal>
    ensures admits { Admits (Some candidate.row) candidate.«record» result }
{
    if candidate.out_of_range() {
        return Err(Refusal::FieldRange);
    }
    if candidate.condition_forbidden() {
        return Err(Refusal::ConditionForbidden);
    }
    if candidate.unit_forbidden() {
        return Err(Refusal::UnitForbidden);
    }
    if candidate.operand_mismatch() {
        return Err(Refusal::OperandMismatch);
    }
    if candidate.side_or_flag() {
        return Err(Refusal::SideOrFlag);
    }
    Ok(Instruction::from(candidate))
}

// The instruction of a record by a repertoire, or the first of the refusals 3 to 8 that applies.
pub fn admit<R: Repertoire>(repertoire: &R, record: Record) -> Result<Instruction, Refusal>
    ensures admits { Admits (R.Repertoire.map repertoire.now «record».operation) «record» result }
    ensures lawful { IfOk result (λ i. keeps_rule i.row ≡ true) }
{
    let row = repertoire.row(record.operation).ok_or(Refusal::NoRow)?;
    admit_on(Candidate { row, record })
}
