// Whole schedules: records in, what becomes of them out.
use admission::admit::admit;
use admission::instruction::Instruction;
use bounded::list::Bounded;
use constraints::fault::Fault;
use flight::history::History;
use flight::issued::{Packet, UNUSED};
use isa::built_in::BuiltIn;
use isa::record::Record;
use runs::valuations::Valuations;
use std::process::Abort;
use std::test::Fail;
use verdict::judge::judge;

// The lawful set of all valuations.
pub(crate) const ALL: u64 = u64::MAX;

// A record by packet and slot.
type Place = (usize, usize);

// What becomes of a schedule: packets, cycles and stalls, or the number, the later place and the earlier one.
pub(crate) type Outcome = Result<(usize, u64, usize), (u8, Place, Place)>;

pub(crate) fn accepted(packets: usize, cycles: u64, stalls: usize) -> Outcome {
    Ok((packets, cycles, stalls))
}

pub(crate) fn refused(number: u8, later: Place, earlier: Place) -> Outcome {
    Err((number, later, earlier))
}

// The outcome of a fault.
fn outcome_of(fault: Fault) -> Outcome {
    refused(
        fault.refusal.number(),
        (fault.later.packet, fault.later.slot),
        (fault.earlier.packet, fault.earlier.slot),
    )
}

// The instruction of a record, and whether its packet goes on.
fn admitted(bytes: &[u8; 8]) -> Result<(Instruction, bool), Fail> {
    let (record, _) = Record::read(bytes)?;
    Ok((admit(&BuiltIn, record)?, bytes[2] % 2 == 1))
}

// Takes the records one by one, and ends with them or at the first packet that is refused.
pub(crate) fn schedule(rt: &impl Abort, lawful: u64, records: &[[u8; 8]]) -> Result<Outcome, Fail> {
    let lawful = Valuations { bits: lawful };
    let mut history = History::open(lawful, lawful);
    let mut packet: Packet = Bounded::new(UNUSED.issued.instruction);
    let mut packets = 0usize;
    let mut cycles = 0u64;
    let mut stalls = 0usize;
    for bytes in records {
        let (instruction, goes_on) = admitted(bytes)?;
        assert!(rt; packet.push(instruction).is_ok());
        if goes_on {
            continue;
        }
        let accepted = match judge(&history, &packet) {
            Ok(accepted) => accepted,
            Err(fault) => return Ok(outcome_of(fault)),
        };
        history.accept(&packet)?;
        packet.clear();
        packets = packets.wrapping_add(1);
        cycles = u64::from(accepted.issue) + u64::from(accepted.length);
        stalls = stalls.wrapping_add(usize::from(accepted.stall));
    }
    assert!(rt; packet.is_empty());
    Ok(accepted(packets, cycles, stalls))
}

// Schedules and what is to become of each. A case that fails is told by its place.
pub(crate) fn check_all(
    rt: &impl Abort,
    lawful: u64,
    cases: &[(&[[u8; 8]], Outcome)],
) -> Result<(), Fail> {
    for (place, (records, outcome)) in cases.iter().enumerate() {
        assert_eq!(rt; (place, schedule(rt, lawful, records)?), (place, *outcome));
    }
    Ok(())
}
