// Which number is told of a packet that breaks several, and which partner of an instruction that has several.
use crate::records::*;
use crate::schedule::{ALL, accepted, check_all, refused};
use std::test::Fail;

// Slot 3 brings the reads of A1 to five, slot 5 repeats a unit: the least number counts, with its own places.
#[test]
fn units_before_reads(rt: HostRuntime) -> Result<(), Fail> {
    let mpy = [MPY, M1, 0, 0, A1, A1, A4, 0];
    let add = [ADD, L1, 0, 0, A1, A2, A5, 0];
    let sub = [SUB, S1, 0, 0, A1, A1, A6, 0];
    let l2 = [ADD, L2, 0, 0, B1, B2, B5, 0];
    let d2 = [ADD, D2, 0, 0, B6, B7, B8, 0];
    check_all(
        &rt,
        ALL,
        &[
            (
                &[p(mpy), p(add), p(l2), p(sub), d2],
                refused(17, (0, 3), (0, 3)),
            ),
            (
                &[p(mpy), p(add), p(l2), p(sub), p(d2), l2],
                refused(11, (0, 5), (0, 2)),
            ),
        ],
    )
}

// 12 before 13, and 14 before 15, where slot 1 completes the greater number and slot 3 the less.
#[test]
fn later_slot_less_number(rt: HostRuntime) -> Result<(), Fail> {
    let load = [LDW, D1, 0, 0, NONE, A8, A9, 0];
    let nonaligned = [LDNW, D1, 0, 0, NONE, A8, A9, 0];
    let store = [STW, D2, 0, 0, NONE, B9, A7, 0];
    let store_t2 = [STW, D2, T2, 0, NONE, B9, B7, 0];
    let add = [ADD, L1, X, 0, A0, B1, A2, 0];
    let sub = [SUB, S1, X, 0, A3, B2, A4, 0];
    check_all(
        &rt,
        ALL,
        &[
            (
                &[p(load), p(store), p(nop(2)), nop(1)],
                refused(13, (0, 1), (0, 0)),
            ),
            (
                &[p(load), p(store), p(nop(2)), nop(3)],
                refused(12, (0, 3), (0, 2)),
            ),
            (
                &[p(add), p(sub), p(load), store_t2],
                refused(15, (0, 1), (0, 0)),
            ),
            (
                &[p(add), p(sub), p(nonaligned), store_t2],
                refused(14, (0, 3), (0, 2)),
            ),
        ],
    )
}

// 16 before 17: slot 2 brings the fifth read of A1, slot 4 the third use of the cross path.
#[test]
fn uses_before_reads(rt: HostRuntime) -> Result<(), Fail> {
    let add = [ADD, L1, 0, 0, A1, A1, A2, 0];
    let sub = [SUB, S1, 0, 0, A1, A1, A3, 0];
    let l2 = [MV, L2, X, 0, NONE, A1, B0, 0];
    let s2 = [MV, S2, X, 0, NONE, A1, B1, 0];
    let d2 = [MV, D2, X, 0, NONE, A1, B2, 0];
    check_all(
        &rt,
        ALL,
        &[
            (&[p(add), p(sub), p(l2), s2], refused(17, (0, 2), (0, 2))),
            (
                &[p(add), p(sub), p(l2), p(s2), d2],
                refused(16, (0, 4), (0, 4)),
            ),
        ],
    )
}

// 17 before 18, and 18 before 19.
#[test]
fn reads_before_ports_before_writes(rt: HostRuntime) -> Result<(), Fail> {
    let pair = [SMPY2, M1, 0, 0, A5, A6, A8, 0];
    let mpy = [MPY, M1, 0, 0, A1, A1, A3, 0];
    let reads = [ADD, L1, 0, 0, A1, A1, A4, 0];
    let sub = [SUB, S1, 0, 0, A1, A2, A7, 0];
    let first = [ADD, L1, 0, 0, A0, A2, A4, 0];
    let second = [SUB, S1, 0, 0, A0, A2, A4, 0];
    check_all(
        &rt,
        ALL,
        &[
            (&[pair, nop(1), p(mpy), reads], refused(18, (2, 0), (0, 0))),
            (
                &[pair, nop(1), p(mpy), p(reads), sub],
                refused(17, (2, 2), (2, 2)),
            ),
            (
                &[pair, nop(1), p(first), second],
                refused(19, (2, 1), (2, 0)),
            ),
            (
                &[pair, nop(1), p(first), p(second), mpy],
                refused(18, (2, 2), (0, 0)),
            ),
        ],
    )
}

// The update of A4 meets the MPY of packet 0 and the ADD beside it: of those that it clashes with, the first by packet counts.
#[test]
fn first_partner_of_an_update(rt: HostRuntime) -> Result<(), Fail> {
    let mpy = [MPY, M1, 0, IF_B0, A0, A1, A4, 0];
    let add = [ADD, L1, 0, UNLESS_B0, A2, A3, A4, 0];
    let load = [LDW, D1, U, 0, NONE, A4, A5, 0];
    let data = [ADD, S1, 0, 0, A0, A1, A5, 0];
    check_all(
        &rt,
        ALL,
        &[
            (&[mpy, add], accepted(2, 2, 0)),
            (&[mpy, p(add), load], refused(19, (1, 1), (0, 0))),
            (&[mpy, p(load), add], refused(19, (1, 0), (0, 0))),
            (
                &[mpy, p(add), when(IF_B0, load)],
                refused(19, (1, 1), (0, 0)),
            ),
            (
                &[mpy, p(add), when(UNLESS_B0, load)],
                refused(19, (1, 1), (1, 0)),
            ),
            (&[p(data), p(load), add], refused(19, (0, 2), (0, 1))),
            (&[p(add), p(data), load], refused(19, (0, 2), (0, 0))),
        ],
    )
}

// Load data and a product land in cycle 4, under opposite conditions; an ADD of cycle 4 meets both or one.
#[test]
fn first_partner_by_packet(rt: HostRuntime) -> Result<(), Fail> {
    let load = [LDW, D1, 0, IF_B0, NONE, A8, A4, 0];
    let mpy = [MPY, M1, 0, UNLESS_B0, A0, A1, A4, 0];
    let add = [ADD, L1, 0, 0, A2, A3, A4, 0];
    let given = when(IF_B0, add);
    let other = when(UNLESS_B0, add);
    check_all(
        &rt,
        ALL,
        &[
            (&[p(load), nop(3), mpy, nop(1), add], accepted(4, 6, 0)),
            (&[p(load), nop(3), mpy, add], refused(19, (2, 0), (0, 0))),
            (&[p(load), nop(3), mpy, given], refused(19, (2, 0), (0, 0))),
            (&[p(load), nop(3), mpy, other], refused(19, (2, 0), (1, 0))),
        ],
    )
}
