// The two counts of a packet at their limits: 16 and 17. Both places are the slot that passes the limit.
use crate::records::*;
use crate::schedule::{ALL, accepted, check_all, refused};
use std::test::Fail;

// Two uses of a side's cross path are allowed, the third is not. The sides count apart.
#[test]
fn cross_path_uses(rt: HostRuntime) -> Result<(), Fail> {
    let l2 = [MV, L2, X, 0, NONE, A0, B0, 0];
    let s2 = [MV, S2, X, 0, NONE, A0, B1, 0];
    let d2 = [MV, D2, X, 0, NONE, A0, B2, 0];
    let plain = [MV, D2, 0, 0, NONE, B5, B2, 0];
    let l1 = [MV, L1, X, 0, NONE, B4, A4, 0];
    let s1 = [MV, S1, X, 0, NONE, B4, A5, 0];
    let m1 = [MPY, M1, X, 0, A6, B4, A7, 0];
    check_all(
        &rt,
        ALL,
        &[
            (&[p(l2), s2], accepted(1, 1, 0)),
            (&[p(l2), p(s2), d2], refused(16, (0, 2), (0, 2))),
            (&[p(l2), p(s2), plain], accepted(1, 1, 0)),
            (&[p(l2), p(plain), p(s2), l1], accepted(1, 1, 0)),
            (&[p(l2), p(l1), p(s2), s1], accepted(1, 1, 0)),
            (
                &[p(l2), p(l1), p(s2), p(s1), m1],
                refused(16, (0, 4), (0, 4)),
            ),
            (&[p(l1), p(s1), p(m1), plain], refused(16, (0, 2), (0, 2))),
            (&[p(l2), s2, d2], accepted(2, 2, 0)),
        ],
    )
}

// Four reads of A1 are allowed, five are not. Each mention is a read, over the cross path too; a condition and a constant are none.
#[test]
fn reads(rt: HostRuntime) -> Result<(), Fail> {
    let mpy = [MPY, M1, 0, 0, A1, A1, A4, 0];
    let add = [ADD, L1, 0, 0, A1, A1, A5, 0];
    let once = [ADD, L1, 0, IF_A1, A0, A1, A5, 0];
    let constant = [ADD, L1, 0, 0, NONE, A1, A5, 0];
    let sub = [SUB, D1, 0, 0, A1, A2, A3, 0];
    let cross = [MV, L2, X, 0, NONE, A1, B1, 0];
    check_all(
        &rt,
        ALL,
        &[
            (&[p(mpy), add], accepted(1, 1, 0)),
            (&[p(mpy), p(add), sub], refused(17, (0, 2), (0, 2))),
            (&[p(mpy), p(once), sub], accepted(1, 1, 0)),
            (&[p(mpy), p(constant), sub], accepted(1, 1, 0)),
            (
                &[p(sub), p(cross), p(mpy), constant],
                refused(17, (0, 3), (0, 3)),
            ),
            (&[p(mpy), p(add), cross], refused(17, (0, 2), (0, 2))),
            (&[mpy, p(add), sub], accepted(2, 2, 0)),
        ],
    )
}

// A store reads its dst, both halves of a pair; a load does not. An updated base is read once.
#[test]
fn reads_of_memory(rt: HostRuntime) -> Result<(), Fail> {
    let add = [ADD, L1, 0, 0, A1, A1, A2, 0];
    let sub = [SUB, S1, 0, 0, A1, A1, A3, 0];
    let once = [SUB, S1, 0, 0, A1, A6, A3, 0];
    let store = [STW, D1, 0, 0, NONE, A4, A1, 0];
    let load = [LDW, D1, 0, 0, NONE, A4, A1, 0];
    let odd = [STDW, D1, 0, 0, NONE, A4, A0, 0];
    let next = [STDW, D1, 0, 0, NONE, A4, A2, 0];
    let base = [STW, D1, U, 0, NONE, A1, A5, 0];
    let offset = [STW, D1, 0, 0, A1, A1, A5, 0];
    check_all(
        &rt,
        ALL,
        &[
            (&[p(add), p(sub), store], refused(17, (0, 2), (0, 2))),
            (&[p(add), p(once), store], accepted(1, 1, 0)),
            (&[p(add), p(sub), load], accepted(1, 1, 0)),
            (&[p(add), p(sub), odd], refused(17, (0, 2), (0, 2))),
            (&[p(add), p(once), odd], accepted(1, 1, 0)),
            (&[p(add), p(sub), next], accepted(1, 1, 0)),
            (&[p(add), p(once), base], accepted(1, 1, 0)),
            (&[p(add), p(once), offset], refused(17, (0, 2), (0, 2))),
        ],
    )
}

// The even half of a pair counts as the odd one does.
#[test]
fn reads_of_the_even_half(rt: HostRuntime) -> Result<(), Fail> {
    let add = [ADD, L1, 0, 0, A0, A0, A2, 0];
    let sub = [SUB, S1, 0, 0, A0, A0, A3, 0];
    let once = [SUB, S1, 0, 0, A0, A6, A3, 0];
    let even = [STDW, D1, 0, 0, NONE, A4, A0, 0];
    check_all(
        &rt,
        ALL,
        &[
            (&[p(add), p(sub), even], refused(17, (0, 2), (0, 2))),
            (&[p(even), p(add), sub], refused(17, (0, 2), (0, 2))),
            (&[p(add), p(once), even], accepted(1, 1, 0)),
        ],
    )
}
