// The two counts of a packet at their limits, and its length.
use crate::records::instruction;
use admission::instruction::Instruction;
use hazards::counts::{CrossPathUses, RegisterReads};
use hazards::fault::first_slot;
use hazards::length::packet_length;
use std::test::Fail;

// MV of A0 over the cross path to .L2, .S2 and .D2: two are allowed, the third is not.
#[test]
fn cross_path_uses(rt: HostRuntime) -> Result<(), Fail> {
    let l2 = instruction([4, 5, 2, 0, 255, 0, 32, 0])?;
    let s2 = instruction([4, 6, 2, 0, 255, 0, 33, 0])?;
    let d2 = instruction([4, 8, 2, 0, 255, 0, 34, 0])?;
    let l1 = instruction([4, 1, 2, 0, 255, 32, 0, 0])?;
    let plain = instruction([4, 8, 0, 0, 255, 35, 34, 0])?;
    assert_eq!(rt; first_slot(&CrossPathUses, &[l2, s2, d2]), Some(2));
    assert_eq!(rt;
        first_slot(&CrossPathUses, &[l2, l1, s2, plain, d2]),
        Some(4)
    );
    assert_eq!(rt; first_slot(&CrossPathUses, &[l2, s2, l1, plain]), None);
    assert_eq!(rt; first_slot(&CrossPathUses, &[]), None);
    Ok(())
}

// Four reads of A1 are allowed, five are not; a store reads its dst, a pair counts for both its registers.
#[test]
fn register_reads(rt: HostRuntime) -> Result<(), Fail> {
    let mpy = instruction([7, 3, 0, 0, 1, 1, 4, 0])?;
    let add = instruction([1, 1, 0, 0, 1, 1, 5, 0])?;
    let sub = instruction([2, 4, 0, 0, 1, 2, 3, 0])?;
    let conditional = instruction([1, 1, 0, 8, 0, 1, 5, 0])?;
    let store = instruction([15, 4, 0, 0, 255, 2, 1, 0])?;
    let pair = instruction([18, 4, 0, 0, 255, 2, 0, 0])?;
    assert_eq!(rt; first_slot(&RegisterReads, &[mpy, add, sub]), Some(2));
    assert_eq!(rt; first_slot(&RegisterReads, &[mpy, add]), None);
    assert_eq!(rt; first_slot(&RegisterReads, &[mpy, conditional, sub]), None);
    assert_eq!(rt; first_slot(&RegisterReads, &[mpy, add, store]), Some(2));
    assert_eq!(rt; first_slot(&RegisterReads, &[mpy, add, pair]), Some(2));
    assert_eq!(rt; first_slot(&RegisterReads, &[sub, mpy, sub, add]), Some(3));
    Ok(())
}

#[test]
fn lengths(rt: HostRuntime) -> Result<(), Fail> {
    let add = instruction([1, 1, 0, 0, 0, 1, 2, 0])?;
    let one = instruction([0, 0, 0, 0, 255, 255, 255, 1])?;
    let nine = instruction([0, 0, 0, 0, 255, 255, 255, 9])?;
    assert_eq!(rt; packet_length(&[add]), 1);
    assert_eq!(rt; packet_length(&[add, one]), 1);
    assert_eq!(rt; packet_length(&[one, nine, add]), 9);
    Ok(())
}
