// Two writes of a register that land in one cycle: 19.
use crate::records::*;
use crate::schedule::{ALL, accepted, check_all, refused};
use std::test::Fail;

// MPY lands one cycle after its issue, ADD and SUB in it: what counts is the landing, never the issue.
#[test]
fn landing_not_issue(rt: HostRuntime) -> Result<(), Fail> {
    let mpy = [MPY, M1, 0, 0, A0, A1, A2, 0];
    let add = [ADD, L1, 0, 0, A4, A5, A2, 0];
    let sub = [SUB, S1, 0, 0, A3, A4, A2, 0];
    let far = [ADD, L2, 0, 0, B4, B5, B2, 0];
    check_all(
        &rt,
        ALL,
        &[
            (&[mpy, add], refused(19, (1, 0), (0, 0))),
            (&[p(mpy), add], accepted(1, 1, 0)),
            (&[add, mpy], accepted(2, 2, 0)),
            (&[mpy, nop(1), add], accepted(3, 3, 0)),
            (&[p(mpy), nop(2), add], accepted(2, 3, 0)),
            (&[p(add), sub], refused(19, (0, 1), (0, 0))),
            (&[add, sub], accepted(2, 2, 0)),
            (&[p(far), mpy, p(far), add], refused(19, (1, 1), (0, 1))),
        ],
    )
}

// DOTP2 lands after three cycles: with an ADD that issues then, with an MPY that issues one cycle before.
#[test]
fn after_three_cycles(rt: HostRuntime) -> Result<(), Fail> {
    let product = [DOTP2, M1, 0, 0, A0, A1, A2, 0];
    let mpy = [MPY, M1, 0, 0, A0, A1, A2, 0];
    let add = [ADD, L1, 0, 0, A4, A5, A2, 0];
    check_all(
        &rt,
        ALL,
        &[
            (&[product, nop(1), add], accepted(3, 3, 0)),
            (&[product, nop(2), add], refused(19, (2, 0), (0, 0))),
            (&[product, nop(3), add], accepted(3, 5, 0)),
            (&[p(product), nop(3), add], refused(19, (1, 0), (0, 0))),
            (&[product, mpy], accepted(2, 2, 0)),
            (&[product, nop(1), mpy], refused(19, (2, 0), (0, 0))),
            (&[product, nop(2), mpy], accepted(3, 4, 0)),
        ],
    )
}

// Load data lands after four cycles.
#[test]
fn after_four_cycles(rt: HostRuntime) -> Result<(), Fail> {
    let load = [LDW, D1, 0, 0, NONE, A4, A2, 0];
    let product = [DOTP2, M1, 0, 0, A0, A1, A2, 0];
    let mpy = [MPY, M1, 0, 0, A0, A1, A2, 0];
    let add = [ADD, L1, 0, 0, A4, A5, A2, 0];
    check_all(
        &rt,
        ALL,
        &[
            (&[load, nop(2), add], accepted(3, 4, 0)),
            (&[load, nop(3), add], refused(19, (2, 0), (0, 0))),
            (&[load, nop(4), add], accepted(3, 6, 0)),
            (&[p(load), nop(4), add], refused(19, (1, 0), (0, 0))),
            (&[p(load), nop(5), add], accepted(2, 6, 0)),
            (&[load, product], refused(19, (1, 0), (0, 0))),
            (&[p(load), product], accepted(1, 1, 0)),
            (&[load, nop(2), mpy], refused(19, (2, 0), (0, 0))),
            (&[load, load], accepted(2, 2, 0)),
        ],
    )
}

// A pair is a write of each of its registers, and of no other. What a store names it does not write.
#[test]
fn halves_of_a_pair(rt: HostRuntime) -> Result<(), Fail> {
    let load = [LDDW, D1, 0, 0, NONE, A4, A8, 0];
    let store = [STDW, D1, 0, 0, NONE, A4, A8, 0];
    let below = [MV, L1, 0, 0, NONE, A0, A7, 0];
    let even = [MV, L1, 0, 0, NONE, A0, A8, 0];
    let odd = [MV, L1, 0, 0, NONE, A0, A9, 0];
    let above = [MV, L1, 0, 0, NONE, A0, A10, 0];
    check_all(
        &rt,
        ALL,
        &[
            (&[load, nop(3), below], accepted(3, 5, 0)),
            (&[load, nop(3), even], refused(19, (2, 0), (0, 0))),
            (&[load, nop(3), odd], refused(19, (2, 0), (0, 0))),
            (&[load, nop(3), above], accepted(3, 5, 0)),
            (&[load, nop(2), odd], accepted(3, 4, 0)),
            (&[p(store), odd], accepted(1, 1, 0)),
        ],
    )
}

// The later of the two may be the pair, or both.
#[test]
fn a_pair_after_a_load(rt: HostRuntime) -> Result<(), Fail> {
    let even = [LDW, D1, 0, 0, NONE, A4, A8, 0];
    let odd = [LDW, D1, 0, 0, NONE, A4, A9, 0];
    let above = [LDW, D1, 0, 0, NONE, A4, A10, 0];
    let both = [LDDW, D1, 0, 0, NONE, A4, A8, 0];
    let pair = [SMPY2, M1, 0, 0, A0, A1, A8, 0];
    let moved = [MV, L1, 0, 0, NONE, A0, A9, 0];
    check_all(
        &rt,
        ALL,
        &[
            (&[even, pair], refused(19, (1, 0), (0, 0))),
            (&[odd, pair], refused(19, (1, 0), (0, 0))),
            (&[above, pair], accepted(2, 2, 0)),
            (&[both, pair], refused(19, (1, 0), (0, 0))),
            (&[both, nop(1), pair], accepted(3, 3, 0)),
            (&[pair, nop(2), moved], refused(19, (2, 0), (0, 0))),
            (&[pair, nop(3), moved], accepted(3, 5, 0)),
        ],
    )
}

// An update of the base lands in the issue cycle, of loads and of stores; without it the base is only read.
#[test]
fn updates(rt: HostRuntime) -> Result<(), Fail> {
    let load = [LDW, D1, U, 0, NONE, A4, A5, 0];
    let store = [STW, D1, U, 0, NONE, A4, A5, 0];
    let still = [LDW, D1, 0, 0, NONE, A4, A5, 0];
    let add = [ADD, L1, 0, 0, A0, A1, A4, 0];
    let mpy = [MPY, M1, 0, 0, A0, A1, A4, 0];
    check_all(
        &rt,
        ALL,
        &[
            (&[p(load), add], refused(19, (0, 1), (0, 0))),
            (&[p(add), store], refused(19, (0, 1), (0, 0))),
            (&[p(still), add], accepted(1, 1, 0)),
            (&[load, add], accepted(2, 2, 0)),
            (&[mpy, load], refused(19, (1, 0), (0, 0))),
            (&[mpy, store], refused(19, (1, 0), (0, 0))),
            (&[mpy, still], accepted(2, 2, 0)),
            (&[p(mpy), load], accepted(1, 1, 0)),
        ],
    )
}

// Data and update of one load land apart, also where both are writes of A4.
#[test]
fn data_and_update(rt: HostRuntime) -> Result<(), Fail> {
    let load = [LDW, D1, U, 0, NONE, A4, A5, 0];
    let own = [LDW, D1, U, 0, NONE, A4, A4, 0];
    let base = [LDW, D1, 0, 0, NONE, A8, A4, 0];
    let add = [ADD, L1, 0, 0, A0, A1, A4, 0];
    let data = [ADD, S1, 0, 0, A0, A1, A5, 0];
    check_all(
        &rt,
        ALL,
        &[
            (&[p(data), load], accepted(1, 1, 0)),
            (&[load, nop(3), data], refused(19, (2, 0), (0, 0))),
            (&[load, nop(3), add], accepted(3, 5, 0)),
            (&[own], accepted(1, 1, 0)),
            (&[p(own), add], refused(19, (0, 1), (0, 0))),
            (&[own, nop(3), add], refused(19, (2, 0), (0, 0))),
            (&[base, nop(3), load], refused(19, (2, 0), (0, 0))),
        ],
    )
}
