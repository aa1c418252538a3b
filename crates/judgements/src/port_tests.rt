// Results of one .M unit that land together: 18. DOTP2 and SMPY2 land after three cycles, SMPY2 as a pair; MPY and AVG2 after one.
use crate::records::*;
use crate::schedule::{ALL, accepted, check_all, refused};
use std::test::Fail;

// Two cycles apart they land together. A pair shares the cycle with nothing, DOTP2 with a two cycle result.
#[test]
fn landing_together(rt: HostRuntime) -> Result<(), Fail> {
    let single = [DOTP2, M1, 0, 0, A0, A1, A2, 0];
    let pair = [SMPY2, M1, 0, 0, A0, A1, A8, 0];
    let mpy = [MPY, M1, 0, 0, A0, A1, A3, 0];
    let average = [AVG2, M1, 0, 0, A0, A1, A3, 0];
    let far = [MPY, M2, 0, 0, B0, B1, B3, 0];
    check_all(
        &rt,
        ALL,
        &[
            (&[single, nop(1), mpy], accepted(3, 3, 0)),
            (&[single, nop(1), average], accepted(3, 3, 0)),
            (&[pair, nop(1), mpy], refused(18, (2, 0), (0, 0))),
            (&[pair, nop(1), average], refused(18, (2, 0), (0, 0))),
            (&[pair, nop(1), far], accepted(3, 3, 0)),
            (&[pair, mpy], accepted(2, 2, 0)),
            (&[pair, nop(1), nop(1), mpy], accepted(4, 4, 0)),
            (&[p(pair), far], accepted(1, 1, 0)),
        ],
    )
}

// In the other order the later one always lands later, and two of one delay never land together.
#[test]
fn never_together(rt: HostRuntime) -> Result<(), Fail> {
    let single = [DOTP2, M2, 0, 0, B0, B1, B2, 0];
    let pair = [SMPY2, M2, 0, 0, B0, B1, B8, 0];
    let mpy = [MPY, M2, 0, 0, B0, B1, B3, 0];
    check_all(
        &rt,
        ALL,
        &[
            (&[mpy, pair], accepted(2, 2, 0)),
            (&[mpy, nop(1), pair], accepted(3, 3, 0)),
            (&[mpy, nop(1), single], accepted(3, 3, 0)),
            (&[single, pair], accepted(2, 2, 0)),
            (&[pair, single], accepted(2, 2, 0)),
            (&[pair, pair], accepted(2, 2, 0)),
            (&[mpy, mpy], accepted(2, 2, 0)),
            (&[p(single), pair], refused(11, (0, 1), (0, 0))),
        ],
    )
}

// Of several results in flight, the one that lands with the judged one.
#[test]
fn several_in_flight(rt: HostRuntime) -> Result<(), Fail> {
    let single = [DOTP2, M1, 0, 0, A0, A1, A2, 0];
    let pair = [SMPY2, M1, 0, 0, A0, A1, A8, 0];
    let mpy = [MPY, M1, 0, 0, A0, A1, A3, 0];
    let average = [AVG2, M1, 0, 0, A0, A1, A4, 0];
    let add = [ADD, L1, 0, 0, A0, A1, A5, 0];
    let sub = [SUB, L2, 0, 0, B0, B1, B5, 0];
    check_all(
        &rt,
        ALL,
        &[
            (&[pair, single, mpy], refused(18, (2, 0), (0, 0))),
            (&[single, pair, mpy], accepted(3, 3, 0)),
            (&[single, pair, mpy, average], refused(18, (3, 0), (1, 0))),
            (&[pair, single, add, average], accepted(4, 4, 0)),
            (
                &[p(add), pair, sub, p(sub), p(add), mpy],
                refused(18, (2, 2), (0, 1)),
            ),
        ],
    )
}

// What counts is the cycle: a NOP beside or between moves the later issue.
#[test]
fn across_long_nops(rt: HostRuntime) -> Result<(), Fail> {
    let single = [DOTP2, M1, 0, 0, A0, A1, A2, 0];
    let pair = [SMPY2, M1, 0, 0, A0, A1, A8, 0];
    let mpy = [MPY, M1, 0, 0, A0, A1, A3, 0];
    check_all(
        &rt,
        ALL,
        &[
            (&[p(pair), nop(1), mpy], accepted(2, 2, 0)),
            (&[p(pair), nop(2), mpy], refused(18, (1, 0), (0, 0))),
            (&[p(pair), nop(3), mpy], accepted(2, 4, 0)),
            (&[p(single), nop(2), mpy], accepted(2, 3, 0)),
            (&[pair, nop(2), mpy], accepted(3, 4, 0)),
            (&[pair, nop(3), mpy], accepted(3, 5, 0)),
        ],
    )
}

// Conditions do not matter. One register: 18 comes before 19, and where the cycle is shared 19 is left.
#[test]
fn beside_the_writes(rt: HostRuntime) -> Result<(), Fail> {
    let single = [DOTP2, M1, 0, IF_B0, A0, A1, A9, 0];
    let pair = [SMPY2, M1, 0, IF_B0, A0, A1, A8, 0];
    let mpy = [MPY, M1, 0, IF_B0, A0, A1, A9, 0];
    let other = when(UNLESS_B0, mpy);
    check_all(
        &rt,
        ALL,
        &[
            (&[pair, nop(1), other], refused(18, (2, 0), (0, 0))),
            (&[pair, nop(1), mpy], refused(18, (2, 0), (0, 0))),
            (&[single, nop(1), mpy], refused(19, (2, 0), (0, 0))),
            (&[single, nop(1), other], accepted(3, 3, 0)),
        ],
    )
}
