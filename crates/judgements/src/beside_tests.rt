// Two instructions of a packet that clash, and the nearest two that do not: 11 to 15.
use crate::records::*;
use crate::schedule::{ALL, accepted, check_all, refused};
use std::test::Fail;

// One unit twice. A NOP has none, and the other side's unit is another.
#[test]
fn units(rt: HostRuntime) -> Result<(), Fail> {
    let add = [ADD, S1, 0, 0, A0, A1, A2, 0];
    let sub = [SUB, S1, 0, 0, A3, A4, A5, 0];
    let other = [SUB, S2, 0, 0, B3, B4, B5, 0];
    let left = [ADD, L1, 0, 0, A6, A7, A8, 0];
    let mpy = [MPY, M1, 0, 0, A0, A1, A2, 0];
    let average = [AVG2, M1, 0, 0, A3, A4, A5, 0];
    check_all(
        &rt,
        ALL,
        &[
            (&[p(add), sub], refused(11, (0, 1), (0, 0))),
            (&[add, sub], accepted(2, 2, 0)),
            (&[p(add), other], accepted(1, 1, 0)),
            (&[p(nop(1)), nop(1)], accepted(1, 1, 0)),
            (
                &[p(left), p(add), p(sub), left],
                refused(11, (0, 2), (0, 1)),
            ),
            (
                &[p(add), p(left), p(other), sub],
                refused(11, (0, 3), (0, 0)),
            ),
            (
                &[add, nop(3), p(left), p(add), sub],
                refused(11, (2, 2), (2, 1)),
            ),
            (&[p(mpy), average], refused(11, (0, 1), (0, 0))),
        ],
    )
}

// Two NOPs of a count above 1, equal or not. The greatest count is the packet's length.
#[test]
fn long_nops(rt: HostRuntime) -> Result<(), Fail> {
    let add = [ADD, S1, 0, 0, A0, A1, A2, 0];
    check_all(
        &rt,
        ALL,
        &[
            (&[p(nop(2)), nop(3)], refused(12, (0, 1), (0, 0))),
            (&[p(nop(4)), nop(4)], refused(12, (0, 1), (0, 0))),
            (&[p(nop(1)), nop(3)], accepted(1, 3, 0)),
            (&[p(nop(9)), nop(1)], accepted(1, 9, 0)),
            (&[nop(2), nop(3)], accepted(2, 5, 0)),
            (
                &[p(add), p(nop(2)), p(nop(1)), nop(2)],
                refused(12, (0, 3), (0, 1)),
            ),
        ],
    )
}

// Two loads or stores on one data path, whatever their units.
#[test]
fn data_paths(rt: HostRuntime) -> Result<(), Fail> {
    let load = [LDW, D1, 0, 0, NONE, A0, A1, 0];
    let load_t2 = [LDW, D1, T2, 0, NONE, A0, B1, 0];
    let store = [STW, D2, 0, 0, NONE, B0, A2, 0];
    let store_t2 = [STW, D2, T2, 0, NONE, B0, B2, 0];
    let add = [ADD, D2, 0, 0, B3, B4, B5, 0];
    let left = [ADD, L1, 0, 0, A6, A7, A8, 0];
    check_all(
        &rt,
        ALL,
        &[
            (&[p(load), store], refused(13, (0, 1), (0, 0))),
            (&[p(load), store_t2], accepted(1, 1, 0)),
            (&[p(load_t2), store_t2], refused(13, (0, 1), (0, 0))),
            (&[p(load_t2), store], accepted(1, 1, 0)),
            (&[p(load), add], accepted(1, 1, 0)),
            (
                &[p(left), p(store_t2), load_t2],
                refused(13, (0, 2), (0, 1)),
            ),
        ],
    )
}

// A nonaligned load or store beside another one. On one data path they break 13 first.
#[test]
fn alignment(rt: HostRuntime) -> Result<(), Fail> {
    let load = [LDB, D1, 0, 0, NONE, A2, A9, 0];
    let aligned = [LDW, D2, T2, 0, NONE, B2, B3, 0];
    let nonaligned = [LDNW, D2, T2, 0, B4, B2, B3, 0];
    let one_path = [STNW, D2, 0, 0, NONE, B2, A3, 0];
    let store = [STNDW, D1, 0, 0, NONE, A4, A6, 0];
    let add = [ADD, D1, 0, 0, A5, A6, A7, 0];
    check_all(
        &rt,
        ALL,
        &[
            (&[p(nonaligned), load], refused(14, (0, 1), (0, 0))),
            (&[p(load), nonaligned], refused(14, (0, 1), (0, 0))),
            (&[p(store), nonaligned], refused(14, (0, 1), (0, 0))),
            (&[p(store), p(nop(1)), aligned], refused(14, (0, 2), (0, 0))),
            (&[p(load), aligned], accepted(1, 1, 0)),
            (&[p(add), nonaligned], accepted(1, 1, 0)),
            (&[p(load), one_path], refused(13, (0, 1), (0, 0))),
        ],
    )
}

// Two cross path operands on one side. Three uses of them break 16 too, but 15 is less.
#[test]
fn cross_path_operands(rt: HostRuntime) -> Result<(), Fail> {
    let add = [ADD, L1, X, 0, A0, B1, A2, 0];
    let sub = [SUB, S1, X, 0, A3, B2, A4, 0];
    let same = [SUB, S1, X, 0, A3, B1, A4, 0];
    let plain = [SUB, S1, 0, 0, A3, A5, A4, 0];
    let opposite = [SUB, S2, X, 0, B3, A5, B4, 0];
    let mpy = [MPY, M1, X, 0, A5, B2, A6, 0];
    check_all(
        &rt,
        ALL,
        &[
            (&[p(add), sub], refused(15, (0, 1), (0, 0))),
            (&[add, sub], accepted(2, 2, 0)),
            (&[p(add), same], accepted(1, 1, 0)),
            (&[p(add), plain], accepted(1, 1, 0)),
            (&[p(add), opposite], accepted(1, 1, 0)),
            (&[p(opposite), p(add), sub], refused(15, (0, 2), (0, 1))),
            (&[p(add), p(same), mpy], refused(15, (0, 2), (0, 0))),
        ],
    )
}
