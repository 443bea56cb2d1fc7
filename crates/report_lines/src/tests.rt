//! Texts of reports: of two reads the length and both ends, of the others the whole.

use super::*;

// The report of a read of one block, with an empty sense.
fn report(
    alloc: Global,
    status: u8,
    residual: u32,
    first: u8,
    step: u8,
) -> Result<Report, AllocError> {
    let mut bytes = Vec::new(alloc);
    let mut byte = first;
    for _ in 0..512 {
        bytes.push(byte)?;
        byte = byte.wrapping_add(step);
    }
    Ok(Report {
        ticket: 0,
        unit: 0,
        outcome: Outcome::Done,
        status,
        residual,
        tries: 1,
        bytes: Bytes::of(bytes),
        sense: Bytes::of(Vec::new(alloc)),
    })
}

#[test]
fn reports_print_their_lines(rt: HostRuntime) -> Result<(), AllocError> {
    let alloc = rt.alloc();
    let read = report(alloc, 0, 0, 3, 1)?;
    let text = report_lines(alloc, 0, 0, Direction::In, &read)?;
    let text = text.as_slice();
    let first =
        b"report 0 unit 0.0 done status 00 residual 0 tries 1\ndata 000000 030405060708090a0b0c0d0e0f101112131415161718191a1b1c1d1e1f202122\n";
    let last = b"data 0001e0 e3e4e5e6e7e8e9eaebecedeeeff0f1f2f3f4f5f6f7f8f9fafbfcfdfeff000102\n";
    assert_eq!(rt; text.len(), 52 + 16 * 77);
    assert!(rt; text.starts_with(first.as_slice()));
    assert!(rt; text.ends_with(last.as_slice()));

    let refused = report(alloc, 2, 512, 0, 0)?;
    let text = report_lines(alloc, 0, 0, Direction::In, &refused)?;
    let text = text.as_slice();
    let first =
        b"report 0 unit 0.0 done status 02 residual 512 tries 1\ndata 000000 0000000000000000000000000000000000000000000000000000000000000000\n";
    let last = b"data 0001e0 0000000000000000000000000000000000000000000000000000000000000000\n";
    assert_eq!(rt; text.len(), 54 + 16 * 77);
    assert!(rt; text.starts_with(first.as_slice()));
    assert!(rt; text.ends_with(last.as_slice()));

    let cut = Report {
        ticket: 7,
        unit: 2,
        outcome: Outcome::NoTarget,
        status: 0xff,
        residual: 4,
        tries: 3,
        bytes: Bytes::of(b"abcd".to_vec(alloc)?),
        sense: Bytes::of(b"\x70\x00\x06".to_vec(alloc)?),
    };
    let text = report_lines(alloc, 1, 5, Direction::Out, &cut)?;
    let want = b"report 7 unit 1.5 notarget status -- residual 4 tries 3\nsense 700006\n";
    assert_eq!(rt; text.as_slice(), want.as_slice());
    let text = data_lines(alloc, b"@")?;
    assert_eq!(rt; text.as_slice(), b"data 000000 40\n".as_slice());
    Ok(())
}
