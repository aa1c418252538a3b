// Row files at the boundaries of the refusals 21 and 24.
use isa::refusal::Refusal;
use isa::repertoire::Repertoire;
use rowfile::file::RowFile;
use std::test::Fail;

// The number by which a file is refused, if it is.
fn refusal(bytes: &[u8]) -> Option<u8> {
    RowFile::read(bytes).err().map(Refusal::number)
}

#[test]
fn sizes(rt: HostRuntime) -> Result<(), Fail> {
    let zeros = vec![in rt.alloc(); 0u8; 65537]?;
    assert!(rt; zeros.len() == 65537);
    assert_eq!(rt; refusal(&zeros[0..0]), Some(21));
    assert_eq!(rt; refusal(&zeros[0..1]), Some(21));
    assert_eq!(rt; refusal(&zeros[0..2]), Some(24));
    assert_eq!(rt; refusal(&zeros[0..65536]), Some(24));
    assert_eq!(rt; refusal(&zeros[0..65537]), Some(21));
    Ok(())
}

// A file of so many NOP rows, numbered from 0.
fn nops(rt: &HostRuntime, low: u8, high: u8, rows: usize) -> Result<Vec<u8>, Fail> {
    let mut file = vec![in rt.alloc(); low, high]?;
    for number in (0..=u8::MAX).cycle().take(rows) {
        file.extend_from_slice(&[number, 0, 0, 0, 0, 0, 0, 0])?;
    }
    Ok(file)
}

#[test]
fn counts(rt: HostRuntime) -> Result<(), Fail> {
    assert_eq!(rt; refusal(&nops(&rt, 0, 0, 0)?), Some(24));
    assert_eq!(rt; refusal(&nops(&rt, 1, 0, 1)?), None);
    assert_eq!(rt; refusal(&nops(&rt, 1, 0, 0)?), Some(24));
    assert_eq!(rt; refusal(&nops(&rt, 1, 0, 2)?), Some(24));
    assert_eq!(rt; refusal(&nops(&rt, 0, 1, 256)?), None);
    assert_eq!(rt; refusal(&nops(&rt, 1, 1, 257)?), Some(24));
    Ok(())
}

#[test]
fn trailing_byte(rt: HostRuntime) {
    assert_eq!(rt; refusal(&[1, 0, 0, 0, 0, 0, 0, 0, 0, 0]), None);
    assert_eq!(rt; refusal(&[1, 0, 0, 0, 0, 0, 0, 0, 0]), Some(24));
    assert_eq!(rt; refusal(&[1, 0, 0, 0, 0, 0, 0, 0, 0, 0, 0]), Some(24));
}

// One row: class, mask, mark, widths and the last byte; then the refusal.
#[test]
fn rows(rt: HostRuntime) {
    let cases = [
        ([1, 0x11, 0, 0, 1, 1, 0], None),
        ([1, 0x11, 0, 2, 2, 2, 0], None),
        ([6, 0x11, 0, 1, 1, 1, 0], Some(24)),
        ([1, 0x11, 1, 1, 1, 1, 0], Some(24)),
        ([4, 0x88, 1, 1, 1, 1, 0], None),
        ([4, 0x88, 2, 1, 1, 1, 0], Some(24)),
        ([1, 0x11, 0, 3, 1, 1, 0], Some(24)),
        ([1, 0x11, 0, 1, 3, 1, 0], Some(24)),
        ([1, 0x11, 0, 1, 1, 3, 0], Some(24)),
        ([1, 0x11, 0, 1, 1, 1, 1], Some(24)),
        ([1, 0, 0, 1, 1, 1, 0], Some(24)),
        ([1, 0x11, 0, 1, 0, 1, 0], Some(24)),
        ([1, 0x11, 0, 1, 1, 0, 0], Some(24)),
        ([0, 0, 0, 0, 0, 0, 0], None),
        ([0, 1, 0, 0, 0, 0, 0], Some(24)),
        ([0, 0, 1, 0, 0, 0, 0], Some(24)),
        ([0, 0, 0, 1, 0, 0, 0], Some(24)),
        ([5, 0x80, 1, 1, 1, 2, 0], None),
        ([5, 0x81, 0, 1, 1, 1, 0], Some(24)),
        ([5, 0x88, 0, 0, 1, 1, 0], Some(24)),
        ([5, 0x88, 0, 1, 2, 1, 0], Some(24)),
        ([5, 0x88, 0, 1, 1, 0, 0], Some(24)),
    ];
    for ([class, mask, mark, s1, s2, dst, last], number) in cases {
        let file = [1, 0, 7, class, mask, mark, s1, s2, dst, last];
        assert_eq!(rt; (file, refusal(&file)), (file, number));
    }
}

// The numbers rise strictly, and a lookup finds just those that are listed.
#[test]
fn order_and_lookup(rt: HostRuntime) -> Result<(), Fail> {
    let mut file = [2, 0, 3, 0, 0, 0, 0, 0, 0, 0, 5, 1, 1, 0, 1, 1, 1, 0];
    let rows = RowFile::read(&file)?;
    assert!(rt; rows.row(3).is_some());
    assert!(rt; rows.row(5).is_some());
    assert!(rt; rows.row(0).is_none());
    assert!(rt; rows.row(4).is_none());
    assert!(rt; rows.row(255).is_none());
    file[10] = 3;
    assert_eq!(rt; refusal(&file), Some(24));
    file[10] = 2;
    assert_eq!(rt; refusal(&file), Some(24));
    Ok(())
}
