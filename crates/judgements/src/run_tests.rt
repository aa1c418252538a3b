// Writes under conditions: 19 is told exactly where some run performs both.
use crate::records::*;
use crate::schedule::{ALL, accepted, check_all, refused};
use std::test::Fail;

// Lawful sets by B0, bit 0 of a valuation, and B1, bit 1.
const B0_SET: u64 = 0xaaaa_aaaa_aaaa_aaaa;

const B0_CLEAR: u64 = 0x5555_5555_5555_5555;

const NOT_1_MOD_4: u64 = 0xdddd_dddd_dddd_dddd;

const JUST_ONE: u64 = 0x6666_6666_6666_6666;

const NOT_BOTH: u64 = 0x7777_7777_7777_7777;

const AT_LEAST_ONE: u64 = 0xeeee_eeee_eeee_eeee;

// [B0] and then [!B0]: exclusive unless a write of B0 lands in between, performed or not.
#[test]
fn a_flag_between(rt: HostRuntime) -> Result<(), Fail> {
    let mpy = [MPY, M2, 0, IF_B0, B3, B4, B7, 0];
    let add = [ADD, L2, 0, UNLESS_B0, B5, B6, B7, 0];
    let flag = [ADD, D2, 0, 0, B8, B9, B0, 0];
    let other = [ADD, D2, 0, 0, B8, B9, B1, 0];
    check_all(
        &rt,
        ALL,
        &[
            (&[mpy, add], accepted(2, 2, 0)),
            (&[mpy, when(IF_B0, add)], refused(19, (1, 0), (0, 0))),
            (&[mpy, when(UNLESS_B1, add)], refused(19, (1, 0), (0, 0))),
            (&[p(mpy), flag, add], refused(19, (1, 0), (0, 0))),
            (&[p(flag), mpy, add], refused(19, (1, 0), (0, 1))),
            (
                &[p(mpy), when(UNLESS_B0, flag), add],
                refused(19, (1, 0), (0, 0)),
            ),
            (&[p(mpy), other, add], accepted(2, 2, 0)),
            (&[flag, mpy, add], accepted(3, 3, 0)),
            (&[mpy, p(add), flag], accepted(2, 2, 0)),
        ],
    )
}

// B0 by an MPY, one cycle after its issue: it counts from the first packet's issue to just before the last one's.
#[test]
fn a_flag_that_lands_later(rt: HostRuntime) -> Result<(), Fail> {
    let first = [DOTP2, M1, 0, IF_B0, A3, A4, A7, 0];
    let last = [ADD, L1, 0, UNLESS_B0, A5, A6, A7, 0];
    let flag = [MPY, M2, 0, 0, B3, B4, B0, 0];
    check_all(
        &rt,
        ALL,
        &[
            (&[first, nop(2), last], accepted(3, 4, 0)),
            (&[p(first), flag, nop(2), last], refused(19, (2, 0), (0, 0))),
            (&[first, flag, nop(1), last], refused(19, (3, 0), (0, 0))),
            (&[first, nop(1), flag, last], accepted(4, 4, 0)),
            (&[flag, first, nop(2), last], refused(19, (3, 0), (1, 0))),
            (&[flag, nop(1), first, nop(2), last], accepted(5, 6, 0)),
        ],
    )
}

// B0 by load data of four cycles earlier: it lands before the MPY's packet, in it, or in the ADD's.
#[test]
fn a_flag_loaded(rt: HostRuntime) -> Result<(), Fail> {
    let load = [LDW, D2, T2, 0, NONE, B8, B0, 0];
    let mpy = [MPY, M2, 0, IF_B0, B3, B4, B7, 0];
    let add = [ADD, L2, 0, UNLESS_B0, B5, B6, B7, 0];
    check_all(
        &rt,
        ALL,
        &[
            (&[load, nop(2), mpy, add], accepted(4, 5, 0)),
            (&[load, nop(3), mpy, add], refused(19, (3, 0), (2, 0))),
            (&[load, nop(4), mpy, add], accepted(4, 7, 0)),
            (&[p(load), nop(3), mpy, add], accepted(3, 5, 0)),
            (&[p(load), nop(4), mpy, add], refused(19, (2, 0), (1, 0))),
        ],
    )
}

// A1 by the update of a base.
#[test]
fn a_flag_updated(rt: HostRuntime) -> Result<(), Fail> {
    let mpy = [MPY, M1, 0, IF_A1, A3, A4, A7, 0];
    let add = [ADD, L1, 0, UNLESS_A1, A5, A6, A7, 0];
    let load = [LDW, D1, U, 0, NONE, A1, A9, 0];
    let store = [STW, D1, U, 0, NONE, A1, A9, 0];
    let still = [LDW, D1, 0, 0, NONE, A1, A9, 0];
    let other = [LDW, D1, U, 0, NONE, A2, A9, 0];
    check_all(
        &rt,
        ALL,
        &[
            (&[p(mpy), load, add], refused(19, (1, 0), (0, 0))),
            (&[p(mpy), store, add], refused(19, (1, 0), (0, 0))),
            (&[p(mpy), still, add], accepted(2, 2, 0)),
            (&[p(mpy), other, add], accepted(2, 2, 0)),
            (&[mpy, p(add), load], accepted(2, 2, 0)),
        ],
    )
}

// A1:A0 by a load of a pair: the odd half frees A1, the even one A0, neither A2.
#[test]
fn a_flag_in_a_pair(rt: HostRuntime) -> Result<(), Fail> {
    let load = [LDDW, D1, 0, 0, NONE, A8, A0, 0];
    let mpy = [MPY, M1, 0, IF_A1, A3, A4, A7, 0];
    let add = [ADD, L1, 0, UNLESS_A1, A5, A6, A7, 0];
    let mpy_a0 = when(IF_A0, mpy);
    let add_a0 = when(UNLESS_A0, add);
    let mpy_a2 = when(IF_A2, mpy);
    let add_a2 = when(UNLESS_A2, add);
    check_all(
        &rt,
        ALL,
        &[
            (&[load, nop(3), mpy, add], refused(19, (3, 0), (2, 0))),
            (&[load, nop(3), mpy_a0, add_a0], refused(19, (3, 0), (2, 0))),
            (&[load, nop(3), mpy_a2, add_a2], accepted(4, 6, 0)),
            (&[load, nop(2), mpy, add], accepted(4, 5, 0)),
        ],
    )
}

// Where B0 is always set no run performs [!B0], where it is never set no run performs [B0].
#[test]
fn a_flag_that_is_fixed(rt: HostRuntime) -> Result<(), Fail> {
    let mpy = [MPY, M2, 0, IF_B0, B3, B4, B7, 0];
    let add = [ADD, L2, 0, UNLESS_B0, B5, B6, B7, 0];
    let always = when(ALWAYS, add);
    let flag = [ADD, D2, 0, 0, B8, B9, B0, 0];
    check_all(
        &rt,
        B0_SET,
        &[
            (&[p(mpy), flag, add], accepted(2, 2, 0)),
            (&[mpy, always], refused(19, (1, 0), (0, 0))),
        ],
    )?;
    check_all(
        &rt,
        B0_CLEAR,
        &[
            (&[p(mpy), flag, add], accepted(2, 2, 0)),
            (&[mpy, always], accepted(2, 2, 0)),
        ],
    )
}

// [!B1] beside [B0]: both hold in the valuations that are 1 modulo 4, and one of these is enough.
#[test]
fn two_flags_in_a_packet(rt: HostRuntime) -> Result<(), Fail> {
    let add = [ADD, L2, 0, UNLESS_B1, B5, B6, B7, 0];
    let sub = [SUB, S2, 0, IF_B0, B8, B9, B7, 0];
    let met = refused(19, (0, 1), (0, 0));
    check_all(&rt, ALL, &[(&[p(add), sub], met)])?;
    check_all(&rt, NOT_1_MOD_4, &[(&[p(add), sub], accepted(1, 1, 0))])?;
    check_all(&rt, NOT_1_MOD_4 | 1 << 61, &[(&[p(add), sub], met)])?;
    check_all(&rt, 1 << 1, &[(&[p(add), sub], met)])?;
    check_all(&rt, 1 << 0, &[(&[p(add), sub], accepted(1, 1, 0))])
}

// The same in two packets: from neither set to both, where B0 alone is not lawful.
#[test]
fn two_flags_in_two_packets(rt: HostRuntime) -> Result<(), Fail> {
    let mpy = [MPY, M2, 0, UNLESS_B1, B3, B4, B7, 0];
    let add = [ADD, L2, 0, IF_B0, B5, B6, B7, 0];
    let b0 = [ADD, D2, 0, 0, B8, B9, B0, 0];
    let b1 = [ADD, S2, 0, 0, B8, B9, B1, 0];
    check_all(
        &rt,
        NOT_1_MOD_4,
        &[
            (&[mpy, add], accepted(2, 2, 0)),
            (&[p(mpy), b0, add], accepted(2, 2, 0)),
            (&[p(mpy), b1, add], accepted(2, 2, 0)),
            (&[p(mpy), p(b0), b1, add], refused(19, (1, 0), (0, 0))),
        ],
    )
}

// From B0 to !B0, where one of B0 and B1 is set and never both: only if both change at once. With neither set lawful too, B0 may go first.
#[test]
fn a_path_of_one_step(rt: HostRuntime) -> Result<(), Fail> {
    let mpy = [MPY, M2, 0, IF_B0, B3, B4, B7, 0];
    let product = [DOTP2, M2, 0, IF_B0, B3, B4, B7, 0];
    let add = [ADD, L2, 0, UNLESS_B0, B5, B6, B7, 0];
    let b0 = [ADD, D2, 0, 0, B8, B9, B0, 0];
    let b1 = [ADD, S2, 0, 0, B8, B9, B1, 0];
    check_all(
        &rt,
        JUST_ONE,
        &[
            (&[p(mpy), b0, add], accepted(2, 2, 0)),
            (&[p(mpy), p(b0), b1, add], refused(19, (1, 0), (0, 0))),
            (&[p(product), b0, b1, nop(1), add], accepted(4, 4, 0)),
            (&[p(product), b1, b0, nop(1), add], accepted(4, 4, 0)),
        ],
    )?;
    check_all(
        &rt,
        NOT_BOTH,
        &[
            (&[p(mpy), b0, add], refused(19, (1, 0), (0, 0))),
            (&[p(mpy), b1, add], accepted(2, 2, 0)),
            (
                &[p(product), b0, b1, nop(1), add],
                refused(19, (3, 0), (0, 0)),
            ),
        ],
    )
}

// From !B1 to !B0 where at least one is set: B1 has to be set before B0 goes.
#[test]
fn a_path_of_two_steps(rt: HostRuntime) -> Result<(), Fail> {
    let product = [DOTP2, M2, 0, UNLESS_B1, B3, B4, B7, 0];
    let add = [ADD, L2, 0, UNLESS_B0, B5, B6, B7, 0];
    let b0 = [ADD, D2, 0, 0, B8, B9, B0, 0];
    let b1 = [ADD, S2, 0, 0, B8, B9, B1, 0];
    check_all(
        &rt,
        AT_LEAST_ONE,
        &[
            (&[p(product), b0, b1, nop(1), add], accepted(4, 4, 0)),
            (
                &[p(product), b1, b0, nop(1), add],
                refused(19, (3, 0), (0, 0)),
            ),
            (
                &[p(product), b1, nop(1), b0, add],
                refused(19, (3, 0), (0, 0)),
            ),
            (&[p(product), b1, nop(2), p(add), b0], accepted(3, 4, 0)),
        ],
    )
}
