// The write ports of the .M units.
ghost use Rattle.std.specs.Prelude.{◌≡◌, ◌↔◌, IsTrue};
ghost use Rattle.claims.specs.Landings.{port_side, port_result, port_claim, MayShare, SamePort};
ghost use Rattle.claims.specs.Mutual.{same_port_mutual};

use crate::claim::Claim;
use admission::instruction::Instruction;
use isa::class::Class;
use isa::row::Row;
use isa::unit::{FunctionalUnit, Side, UnitKind};
use isa::width::Width;

// What decides whether a result may share its cycle: the class, where the result is one register.
#[derive(Clone, Copy)]
pub enum PortResult {
    OneFourCycle,
    OneTwoCycle,
    Other,
}

// A claim on a write port: the side of the .M unit, if it is one, and the cycle in which the result lands.
#[derive(Clone, Copy)]
pub struct PortClaim {
    pub side: Option<Side>,
    pub landing: u64,
    pub result: PortResult,
}

fn port_side(unit: Option<FunctionalUnit>) -> Option<Side>
    ensures value { result ≡ port_side unit }
{
    unit.filter(|unit| unit.kind == UnitKind::M)
        .map(|unit| unit.side)
}

fn port_result(row: Row) -> PortResult
    ensures value { result ≡ port_result row.class row.dst }
{
    match (row.class, row.dst) {
        (Class::FourCycle, Width::Single) => PortResult::OneFourCycle,
        (Class::TwoCycle, Width::Single) => PortResult::OneTwoCycle,
        _ => PortResult::Other,
    }
}

impl PortClaim {
    // The claim of an instruction that issues in a cycle.
    pub fn new(instruction: &Instruction, issue: u32) -> PortClaim
        ensures value { result ≡ port_claim instruction.now issue }
    {
        PortClaim {
            side: port_side(instruction.unit),
            landing: instruction.result_cycle(issue),
            result: port_result(instruction.row),
        }
    }
}

// Whether two results may land in one cycle.
fn may_share(one: PortResult, other: PortResult) -> bool
    ensures decides { IsTrue result ↔ MayShare one other }
{
    matches!(
        (one, other),
        (PortResult::OneFourCycle, PortResult::OneTwoCycle)
            | (PortResult::OneTwoCycle, PortResult::OneFourCycle)
    )
}

impl Claim for PortClaim {
    ghost clash = { SamePort };

    fn clashes(&self, other: &PortClaim) -> bool {
        self.landing == other.landing
            && self.side.is_some()
            && self.side == other.side
            && !may_share(self.result, other.result)
    }

    ghost mutual = { same_port_mutual };
}
