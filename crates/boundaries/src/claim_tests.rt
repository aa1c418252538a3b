// Two instructions that clash or do not, kind by kind, and the first clash of a packet.
use crate::records::instruction;
use admission::admit::admit;
use admission::instruction::Instruction;
use claims::claim::{Claim, first_clash};
use claims::kinds::{AlignmentClaim, CrossPathClaim, DataPathClaim, NopClaim, UnitClaim};
use claims::port::PortClaim;
use claims::write::WriteClaim;
use isa::record::Record;
use rowfile::file::RowFile;
use runs::valuations::Valuations;
use std::test::Fail;

const ALL: Valuations = Valuations { bits: u64::MAX };

fn nop(count: u8) -> Result<Instruction, Fail> {
    instruction([0, 0, 0, 0, 255, 255, 255, count])
}

#[test]
fn units_and_nops(rt: HostRuntime) -> Result<(), Fail> {
    let add = UnitClaim::new(instruction([1, 2, 0, 0, 0, 1, 2, 0])?);
    let shift = UnitClaim::new(instruction([6, 2, 0, 0, 255, 3, 4, 0])?);
    let other = UnitClaim::new(instruction([6, 6, 0, 0, 255, 35, 36, 0])?);
    assert!(rt; add.clashes(&shift));
    assert!(rt; !add.clashes(&other));
    assert!(rt; !UnitClaim::new(nop(1)?).clashes(&UnitClaim::new(nop(1)?)));
    assert!(rt; NopClaim::new(nop(2)?).clashes(&NopClaim::new(nop(2)?)));
    assert!(rt; NopClaim::new(nop(2)?).clashes(&NopClaim::new(nop(9)?)));
    assert!(rt; !NopClaim::new(nop(1)?).clashes(&NopClaim::new(nop(9)?)));
    Ok(())
}

#[test]
fn memory(rt: HostRuntime) -> Result<(), Fail> {
    let load = instruction([11, 4, 0, 0, 255, 0, 1, 0])?;
    let same = instruction([15, 8, 0, 0, 255, 32, 1, 0])?;
    let apart = instruction([15, 8, 4, 0, 255, 32, 33, 0])?;
    let nonaligned = instruction([17, 8, 4, 0, 255, 32, 33, 0])?;
    let add = instruction([1, 8, 0, 0, 32, 33, 34, 0])?;
    assert!(rt; DataPathClaim::new(load).clashes(&DataPathClaim::new(same)));
    assert!(rt; !DataPathClaim::new(load).clashes(&DataPathClaim::new(apart)));
    assert!(rt; !DataPathClaim::new(load).clashes(&DataPathClaim::new(add)));
    assert!(rt; AlignmentClaim::new(load).clashes(&AlignmentClaim::new(nonaligned)));
    assert!(rt; !AlignmentClaim::new(load).clashes(&AlignmentClaim::new(apart)));
    assert!(rt; !AlignmentClaim::new(add).clashes(&AlignmentClaim::new(nonaligned)));
    Ok(())
}

#[test]
fn cross_paths(rt: HostRuntime) -> Result<(), Fail> {
    let first = CrossPathClaim::new(instruction([4, 2, 2, 0, 255, 32, 0, 0])?);
    let other = CrossPathClaim::new(instruction([4, 1, 2, 0, 255, 33, 1, 0])?);
    let same = CrossPathClaim::new(instruction([4, 1, 2, 0, 255, 32, 1, 0])?);
    let opposite = CrossPathClaim::new(instruction([4, 5, 2, 0, 255, 1, 33, 0])?);
    let plain = CrossPathClaim::new(instruction([4, 1, 0, 0, 255, 3, 1, 0])?);
    assert!(rt; first.clashes(&other));
    assert!(rt; !first.clashes(&same));
    assert!(rt; !first.clashes(&opposite));
    assert!(rt; !first.clashes(&plain));
    Ok(())
}

// Of one .M unit: DOTP2 and MPY of one register share a cycle, in either order; nothing else does.
#[test]
fn ports(rt: HostRuntime) -> Result<(), Fail> {
    let four = instruction([9, 3, 0, 0, 0, 1, 2, 0])?;
    let pair = instruction([8, 3, 0, 0, 5, 6, 8, 0])?;
    let two = instruction([7, 3, 0, 0, 1, 2, 3, 0])?;
    let far = instruction([7, 7, 0, 0, 33, 34, 35, 0])?;
    assert!(rt; !PortClaim::new(&four, 0).clashes(&PortClaim::new(&two, 2)));
    assert!(rt; !PortClaim::new(&two, 2).clashes(&PortClaim::new(&four, 0)));
    assert!(rt; PortClaim::new(&pair, 0).clashes(&PortClaim::new(&two, 2)));
    assert!(rt; PortClaim::new(&four, 0).clashes(&PortClaim::new(&pair, 0)));
    assert!(rt; PortClaim::new(&two, 2).clashes(&PortClaim::new(&two, 2)));
    assert!(rt; !PortClaim::new(&pair, 0).clashes(&PortClaim::new(&two, 1)));
    assert!(rt; !PortClaim::new(&pair, 0).clashes(&PortClaim::new(&far, 2)));
    Ok(())
}

// A single cycle operation of a row file on .M lands at once, and shares its cycle with nothing.
#[test]
fn ports_of_a_row_file(rt: HostRuntime) -> Result<(), Fail> {
    let file = [1, 0, 40, 1, 0x44, 0, 1, 1, 1, 0];
    let (record, _) = Record::read(&[40, 3, 0, 0, 0, 1, 2, 0])?;
    let one = admit(&RowFile::read(&file)?, record)?;
    let two = instruction([7, 3, 0, 0, 1, 2, 3, 0])?;
    let four = instruction([9, 3, 0, 0, 0, 1, 2, 0])?;
    assert!(rt; PortClaim::new(&one, 0).clashes(&PortClaim::new(&one, 0)));
    assert!(rt; PortClaim::new(&two, 0).clashes(&PortClaim::new(&one, 1)));
    assert!(rt; PortClaim::new(&one, 1).clashes(&PortClaim::new(&two, 0)));
    assert!(rt; PortClaim::new(&four, 0).clashes(&PortClaim::new(&one, 3)));
    assert!(rt; PortClaim::new(&one, 3).clashes(&PortClaim::new(&four, 0)));
    assert!(rt; !PortClaim::new(&two, 0).clashes(&PortClaim::new(&one, 0)));
    assert!(rt; !PortClaim::new(&four, 0).clashes(&PortClaim::new(&one, 2)));
    assert!(rt; !PortClaim::new(&four, 0).clashes(&PortClaim::new(&one, 4)));
    Ok(())
}

// MPY lands one cycle after its issue, load data four, an update at once, a pair at both registers.
#[test]
fn writes(rt: HostRuntime) -> Result<(), Fail> {
    let mpy = instruction([7, 3, 0, 0, 0, 1, 2, 0])?;
    let add = instruction([1, 1, 0, 0, 4, 5, 2, 0])?;
    let load = instruction([11, 4, 8, 0, 255, 2, 9, 0])?;
    let pair = instruction([8, 3, 0, 0, 5, 6, 8, 0])?;
    let odd = instruction([1, 1, 0, 0, 4, 5, 9, 0])?;
    let none = Valuations { bits: 0 };
    assert!(rt; WriteClaim::new(mpy, 0, ALL).clashes(&WriteClaim::new(add, 1, ALL)));
    assert!(rt; !WriteClaim::new(mpy, 0, ALL).clashes(&WriteClaim::new(add, 0, ALL)));
    assert!(rt; !WriteClaim::new(mpy, 0, ALL).clashes(&WriteClaim::new(add, 1, none)));
    assert!(rt; WriteClaim::new(load, 1, ALL).clashes(&WriteClaim::new(mpy, 0, ALL)));
    assert!(rt; WriteClaim::new(load, 0, ALL).clashes(&WriteClaim::new(odd, 4, ALL)));
    assert!(rt; WriteClaim::new(pair, 0, ALL).clashes(&WriteClaim::new(odd, 3, ALL)));
    Ok(())
}

// The later place is the least that clashes, its partner the first; places before `from` are no later places.
#[test]
fn first_of_many(rt: HostRuntime) -> Result<(), Fail> {
    let s1 = UnitClaim::new(instruction([1, 2, 0, 0, 0, 1, 2, 0])?);
    let l1 = UnitClaim::new(instruction([1, 1, 0, 0, 0, 1, 2, 0])?);
    let packet = [l1, s1, s1, s1, l1];
    let Some(first) = first_clash(&packet, 0) else {
        return Err(Fail::new("no clash"));
    };
    assert_eq!(rt; (first.earlier, first.later), (1, 2));
    let Some(second) = first_clash(&packet, 3) else {
        return Err(Fail::new("no clash from place 3"));
    };
    assert_eq!(rt; (second.earlier, second.later), (1, 3));
    assert!(rt; first_clash(&packet, 5).is_none());
    assert!(rt; first_clash(&packet[0..2], 0).is_none());
    Ok(())
}
