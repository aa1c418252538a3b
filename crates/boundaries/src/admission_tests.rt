// Records at the boundaries of the refusals 3 to 8, and of 23.
use admission::admit::admit;
use isa::built_in::BuiltIn;
use isa::record::Record;
use isa::refusal::Refusal;
use isa::repertoire::Repertoire;
use rowfile::file::RowFile;
use std::process::Abort;
use std::test::Fail;

// The number by which a record of these bytes is refused, if it is.
fn refusal<R: Repertoire>(repertoire: &R, bytes: [u8; 8]) -> Result<Option<u8>, Fail> {
    let (record, _) = Record::read(&bytes)?;
    Ok(admit(repertoire, record).err().map(Refusal::number))
}

// operation, unit, flags, condition, s1, s2, dst, count; then the refusal
fn check_all(rt: &impl Abort, cases: &[([u8; 8], Option<u8>)]) -> Result<(), Fail> {
    for (bytes, number) in cases {
        assert_eq!(rt; (*bytes, refusal(&BuiltIn, *bytes)?), (*bytes, *number));
    }
    Ok(())
}

#[test]
fn no_row(rt: HostRuntime) -> Result<(), Fail> {
    check_all(
        &rt,
        &[
            ([21, 3, 0, 0, 0, 1, 2, 0], None),
            ([22, 3, 0, 0, 0, 1, 2, 0], Some(3)),
            ([255, 9, 16, 16, 64, 64, 64, 10], Some(3)),
        ],
    )
}

#[test]
fn field_range(rt: HostRuntime) -> Result<(), Fail> {
    check_all(
        &rt,
        &[
            ([1, 8, 0, 0, 32, 33, 34, 0], None),
            ([1, 9, 0, 0, 32, 33, 34, 0], Some(4)),
            ([1, 1, 15, 0, 0, 1, 2, 0], Some(8)),
            ([1, 1, 16, 0, 0, 1, 2, 0], Some(4)),
            ([1, 1, 0, 13, 0, 1, 2, 0], None),
            ([1, 1, 0, 16, 0, 1, 2, 0], Some(4)),
            ([1, 5, 0, 0, 63, 63, 63, 0], None),
            ([1, 5, 0, 0, 64, 63, 63, 0], Some(4)),
            ([1, 5, 0, 0, 63, 64, 63, 0], Some(4)),
            ([1, 5, 0, 0, 63, 63, 64, 0], Some(4)),
            ([1, 5, 0, 0, 254, 63, 63, 0], Some(4)),
            ([1, 5, 0, 0, 255, 63, 63, 0], None),
            ([1, 1, 0, 0, 0, 1, 2, 1], Some(4)),
            ([0, 0, 0, 0, 64, 255, 255, 1], Some(4)),
            ([0, 9, 0, 0, 255, 255, 255, 1], Some(4)),
            ([0, 0, 0, 0, 255, 255, 255, 0], Some(4)),
            ([0, 0, 0, 0, 255, 255, 255, 1], None),
            ([0, 0, 1, 0, 255, 255, 255, 9], None),
            ([0, 0, 0, 0, 255, 255, 255, 10], Some(4)),
        ],
    )
}

#[test]
fn condition_and_unit(rt: HostRuntime) -> Result<(), Fail> {
    check_all(
        &rt,
        &[
            ([1, 1, 0, 1, 0, 1, 2, 0], Some(5)),
            ([1, 1, 0, 2, 0, 1, 2, 0], None),
            ([1, 1, 0, 14, 0, 1, 2, 0], Some(5)),
            ([1, 0, 0, 15, 0, 1, 2, 0], Some(5)),
            ([0, 0, 0, 2, 255, 255, 255, 1], Some(5)),
            ([0, 1, 0, 1, 255, 255, 255, 1], Some(5)),
            ([0, 1, 0, 0, 255, 255, 255, 1], Some(6)),
            ([1, 0, 0, 0, 0, 1, 2, 0], Some(6)),
            ([1, 3, 0, 0, 0, 1, 2, 0], Some(6)),
            ([1, 4, 0, 0, 0, 1, 2, 0], None),
            ([15, 1, 0, 0, 0, 1, 2, 0], Some(6)),
            ([15, 4, 0, 0, 0, 1, 2, 0], None),
        ],
    )
}

#[test]
fn operands(rt: HostRuntime) -> Result<(), Fail> {
    check_all(
        &rt,
        &[
            ([1, 1, 0, 0, 0, 255, 2, 0], Some(7)),
            ([1, 1, 0, 0, 0, 1, 255, 0], Some(7)),
            ([4, 1, 0, 0, 0, 1, 2, 0], Some(7)),
            ([4, 1, 0, 0, 255, 1, 2, 0], None),
            ([8, 3, 0, 0, 0, 1, 8, 0], None),
            ([8, 3, 0, 0, 0, 1, 9, 0], Some(7)),
            ([8, 3, 0, 0, 0, 1, 255, 0], Some(7)),
            ([14, 4, 0, 0, 255, 1, 5, 0], Some(7)),
            ([0, 0, 0, 0, 0, 255, 255, 1], Some(7)),
        ],
    )
}

#[test]
fn sides_and_flags(rt: HostRuntime) -> Result<(), Fail> {
    check_all(
        &rt,
        &[
            ([1, 1, 0, 0, 31, 31, 31, 0], None),
            ([1, 1, 0, 0, 32, 31, 31, 0], Some(8)),
            ([1, 1, 0, 0, 31, 32, 31, 0], Some(8)),
            ([1, 1, 0, 0, 31, 31, 32, 0], Some(8)),
            ([1, 1, 2, 0, 31, 32, 31, 0], None),
            ([1, 1, 2, 0, 31, 31, 31, 0], Some(8)),
            ([1, 5, 2, 0, 32, 31, 32, 0], None),
            ([1, 1, 4, 0, 0, 1, 2, 0], Some(8)),
            ([1, 1, 8, 0, 0, 1, 2, 0], Some(8)),
            ([0, 0, 2, 0, 255, 255, 255, 1], Some(8)),
            ([0, 0, 8, 0, 255, 255, 255, 1], Some(8)),
            ([11, 4, 0, 0, 255, 0, 1, 0], None),
            ([11, 4, 4, 0, 255, 0, 1, 0], Some(8)),
            ([11, 4, 4, 0, 255, 0, 33, 0], None),
            ([11, 4, 12, 0, 1, 0, 33, 0], None),
            ([11, 4, 2, 0, 255, 32, 1, 0], Some(8)),
            ([15, 8, 0, 0, 255, 32, 1, 0], None),
            ([15, 8, 4, 0, 255, 32, 1, 0], Some(8)),
        ],
    )
}

// A pair for s2 takes no X, and an absent pair for s1 is a constant.
#[test]
fn pairs_of_a_row_file(rt: HostRuntime) -> Result<(), Fail> {
    let file = [1, 0, 40, 1, 0x11, 0, 2, 2, 1, 0];
    let rows = RowFile::read(&file)?;
    assert_eq!(rt; refusal(&rows, [40, 1, 0, 0, 0, 2, 5, 0])?, None);
    assert_eq!(rt; refusal(&rows, [40, 1, 0, 0, 255, 2, 5, 0])?, None);
    assert_eq!(rt; refusal(&rows, [40, 1, 0, 0, 1, 2, 5, 0])?, Some(7));
    assert_eq!(rt; refusal(&rows, [40, 1, 0, 0, 0, 3, 5, 0])?, Some(7));
    assert_eq!(rt; refusal(&rows, [40, 1, 2, 0, 0, 34, 5, 0])?, Some(8));
    assert_eq!(rt; refusal(&rows, [39, 1, 0, 0, 0, 2, 5, 0])?, Some(3));
    Ok(())
}

#[test]
fn record_bytes(rt: HostRuntime) -> Result<(), Fail> {
    let body = [1, 2, 3, 4, 5, 6, 7, 8, 9];
    let short = Record::read(&body[0..7]);
    assert_eq!(rt; short.err().map(Refusal::number), Some(23));
    let (record, rest) = Record::read(&body)?;
    assert_eq!(rt; rest.len(), 1);
    assert_eq!(rt; <[u8; 8]>::from(record), [1, 2, 3, 4, 5, 6, 7, 8]);
    Ok(())
}
