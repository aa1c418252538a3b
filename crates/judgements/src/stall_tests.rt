// Which packets stall: they read over the cross path what landed in the cycle before.
use crate::records::*;
use crate::schedule::{ALL, accepted, check_all};
use std::test::Fail;

// ADD lands in its issue cycle: the next packet stalls if it issues just then, and reads A1 as the s2 of an instruction with X.
#[test]
fn after_a_result(rt: HostRuntime) -> Result<(), Fail> {
    let add = [ADD, S1, 0, 0, A0, A0, A1, 0];
    let read = [ADD, S2, X, 0, B0, A1, B1, 0];
    let other = [ADD, S2, X, 0, B0, A2, B1, 0];
    let own_side = [ADD, L1, 0, 0, A1, A1, A2, 0];
    let s1 = [ADD, L2, 0, 0, B5, B5, B0, 0];
    check_all(
        &rt,
        ALL,
        &[
            (&[read], accepted(1, 1, 0)),
            (&[p(add), read], accepted(1, 1, 0)),
            (&[add, read], accepted(2, 2, 1)),
            (&[add, other], accepted(2, 2, 0)),
            (&[add, own_side], accepted(2, 2, 0)),
            (&[s1, read], accepted(2, 2, 0)),
            (&[add, nop(1), read], accepted(3, 3, 0)),
            (&[p(add), nop(1), read], accepted(2, 2, 1)),
            (&[p(add), nop(4), read], accepted(2, 5, 0)),
            (&[add, p(read), nop(4)], accepted(2, 5, 1)),
        ],
    )
}

// One stall for a packet, however many cause it; the next packet may have its own.
#[test]
fn one_for_a_packet(rt: HostRuntime) -> Result<(), Fail> {
    let a1 = [ADD, S1, 0, 0, A0, A0, A1, 0];
    let b1 = [ADD, S2, 0, 0, B0, B0, B1, 0];
    let read = [ADD, S2, X, 0, B0, A1, B1, 0];
    let twin = [ADD, L2, X, 0, B0, A1, B2, 0];
    let back = [ADD, L1, X, 0, A0, B1, A2, 0];
    check_all(
        &rt,
        ALL,
        &[
            (&[a1, p(read), twin], accepted(2, 2, 1)),
            (&[p(a1), b1, p(twin), back], accepted(2, 2, 1)),
            (&[a1, read, back], accepted(3, 3, 2)),
            (&[a1, read, twin], accepted(3, 3, 1)),
        ],
    )
}

// MPY lands after one cycle, SMPY2 after three, with both halves of its pair.
#[test]
fn after_later_landings(rt: HostRuntime) -> Result<(), Fail> {
    let mpy = [MPY, M1, 0, 0, A0, A0, A1, 0];
    let pair = [SMPY2, M1, 0, 0, A2, A3, A0, 0];
    let odd = [ADD, S2, X, 0, B0, A1, B1, 0];
    let even = [ADD, S2, X, 0, B0, A0, B1, 0];
    check_all(
        &rt,
        ALL,
        &[
            (&[mpy, odd], accepted(2, 2, 0)),
            (&[mpy, nop(1), odd], accepted(3, 3, 1)),
            (&[p(mpy), nop(2), odd], accepted(2, 3, 1)),
            (&[mpy, nop(2), odd], accepted(3, 4, 0)),
            (&[pair, nop(2), odd], accepted(3, 4, 0)),
            (&[pair, nop(3), odd], accepted(3, 5, 1)),
            (&[pair, nop(3), even], accepted(3, 5, 1)),
            (&[pair, nop(4), odd], accepted(3, 6, 0)),
        ],
    )
}

// The update of a base gives a stall, load data gives none, and a store writes no data.
#[test]
fn after_loads_and_stores(rt: HostRuntime) -> Result<(), Fail> {
    let load = [LDW, D1, U, 0, NONE, A0, A1, 0];
    let still = [LDW, D1, 0, 0, NONE, A0, A1, 0];
    let store = [STW, D1, U, 0, NONE, A0, A1, 0];
    let data = [ADD, S2, X, 0, B0, A1, B1, 0];
    let base = [ADD, S2, X, 0, B0, A0, B1, 0];
    check_all(
        &rt,
        ALL,
        &[
            (&[load, nop(4), data], accepted(3, 6, 0)),
            (&[p(load), nop(5), data], accepted(2, 6, 0)),
            (&[load, base], accepted(2, 2, 1)),
            (&[load, nop(1), base], accepted(3, 3, 0)),
            (&[still, base], accepted(2, 2, 0)),
            (&[store, base], accepted(2, 2, 1)),
            (&[store, data], accepted(2, 2, 0)),
        ],
    )
}

// Conditions do not matter, nor the lawful set: here [B0] never holds. Beside load data another write gives its stall.
#[test]
fn under_conditions(rt: HostRuntime) -> Result<(), Fail> {
    let add = [ADD, S1, 0, IF_B0, A0, A0, A1, 0];
    let load = [LDW, D1, 0, UNLESS_B0, NONE, A4, A1, 0];
    let read = [ADD, S2, X, 0, B0, A1, B1, 0];
    check_all(
        &rt,
        0x5555_5555_5555_5555,
        &[
            (&[add, read], accepted(2, 2, 1)),
            (&[add, when(UNLESS_B0, read)], accepted(2, 2, 1)),
            (&[load, nop(4), read], accepted(3, 6, 0)),
            (&[load, nop(3), add, read], accepted(4, 6, 1)),
        ],
    )
}
