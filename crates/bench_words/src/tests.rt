//! The order of bytes in a word, and that memory can be had.
use super::Words;
use std::test::Fail;

#[test]
fn little_endian_in_each_word(rt: HostRuntime) -> Result<(), Fail> {
    let mut words = Words::new(rt.alloc(), 4)?;
    assert_eq!(rt; words.len(), 16);
    words.set(4, 0x4433_2211);
    assert_eq!(rt; words.len(), 16);
    let mut all = [0xff; 16];
    words.copy_out(0, &mut all);
    assert_eq!(rt;
        all,
        [0, 0, 0, 0, 0x11, 0x22, 0x33, 0x44, 0, 0, 0, 0, 0, 0, 0, 0]
    );

    words.copy_in(6, &[0xaa, 0xbb, 0xcc]);
    words.set_byte(9, 0xdd);
    assert_eq!(rt; words.len(), 16);
    assert_eq!(rt; words.get(4), 0xbbaa_2211);
    assert_eq!(rt; words.word(7), 0x0000_ddccbb);
    assert_eq!(rt; words.byte(8), 0xcc);
    Ok(())
}
