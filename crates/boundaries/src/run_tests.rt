// Sets of valuations carried from packet to packet: when some run performs two writes.
use isa::condition::Condition;
use runs::valuations::{Changes, Valuations};
use std::test::Fail;

const ALL: Valuations = Valuations { bits: u64::MAX };

// Whether some run performs a write of packet 0 under the first condition byte, and one of the last packet under the second.
fn both(
    lawful: Valuations,
    start: Valuations,
    changes: &[u8],
    first: u8,
    last: u8,
) -> Result<bool, Fail> {
    let mut reach = Valuations::at_start(lawful, start);
    let mut performed = reach.performing(Condition::try_from(first)?);
    for mask in changes {
        // given as a mask, from outside the type's own calls
        let changes = Changes { mask: *mask };
        reach = reach.step(lawful, changes);
        performed = performed.step(lawful, changes);
    }
    Ok(performed.meets(reach.performing(Condition::try_from(last)?)))
}

// [!B1] with [B0], then [!B0] with [B0]; the first with v mod 4 = 1 unlawful.
#[test]
fn one_packet(rt: HostRuntime) -> Result<(), Fail> {
    assert!(rt; both(ALL, ALL, &[], 5, 2)?);
    assert!(rt; !both(ALL, ALL, &[], 3, 2)?);
    let cut = Valuations {
        bits: 0xdddd_dddd_dddd_dddd,
    };
    assert!(rt; !both(cut, ALL, &[], 5, 2)?);
    Ok(())
}

// [B0] and later [!B0]: exclusive exactly while B0 cannot have changed.
#[test]
fn changes_between(rt: HostRuntime) -> Result<(), Fail> {
    assert!(rt; !both(ALL, ALL, &[0], 2, 3)?);
    assert!(rt; !both(ALL, ALL, &[0x3e], 2, 3)?);
    assert!(rt; both(ALL, ALL, &[1], 2, 3)?);
    assert!(rt; both(ALL, ALL, &[0, 0, 1, 0], 2, 3)?);
    assert!(rt; both(ALL, ALL, &[0x20], 12, 13)?);
    assert!(rt; !both(ALL, ALL, &[0x1f], 12, 13)?);
    Ok(())
}

// B0 may change first and B1 later; the valuation between has to be lawful.
#[test]
fn lawful_path(rt: HostRuntime) -> Result<(), Fail> {
    let exclusive = Valuations {
        bits: 0x6666_6666_6666_6666,
    };
    let idle_too = Valuations {
        bits: 0x7777_7777_7777_7777,
    };
    assert!(rt; !both(exclusive, ALL, &[1, 2], 2, 3)?);
    assert!(rt; both(exclusive, ALL, &[3, 0], 2, 3)?);
    assert!(rt; both(idle_too, ALL, &[1, 2], 2, 3)?);
    Ok(())
}

// A run begins with a valuation of the start, also where more are lawful.
#[test]
fn start_of_runs(rt: HostRuntime) -> Result<(), Fail> {
    let only_zero = Valuations { bits: 1 };
    assert!(rt; !both(ALL, only_zero, &[], 2, 0)?);
    assert!(rt; both(ALL, only_zero, &[], 3, 0)?);
    assert!(rt; !both(ALL, only_zero, &[2], 0, 2)?);
    assert!(rt; both(ALL, only_zero, &[1], 0, 2)?);
    Ok(())
}
