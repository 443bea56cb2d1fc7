//! Each call once with ample memory.
ghost use Rattle.std.specs.Prelude.{◌<◌, length};

use crate::{assemble_source, image_bytes, list_file, words_line};
use std::test::Fail;

#[test]
fn a_source_and_its_image(rt: HostRuntime) -> Result<(), Fail> {
    let alloc = rt.alloc();
    let Ok(image) = assemble_source(alloc, b"CLEAR ACK ; \xff\n") else {
        return Err(Fail::from("refused"));
    };
    let bytes = image_bytes(alloc, image.words.as_slice())?;
    assert_eq!(rt; bytes.as_slice(), [0x40, 0, 0, 0x60, 0, 0, 0, 0].as_slice());
    assert_eq!(rt; words_line(alloc, 2)?.as_slice(), b"words 2\n".as_slice());
    let refused = assemble_source(alloc, b"CLEAR ACK\n\xff");
    let Err(fault) = refused else {
        return Err(Fail::from("taken"));
    };
    assert_eq!(rt; fault.line(), Some(2));
    assert_eq!(rt; fault.number(), Some(1));
    Ok(())
}

#[test]
fn words_and_last_bytes_are_listed(rt: HostRuntime) -> Result<(), Fail> {
    let text = list_file(rt.alloc(), &[0x40, 0, 0, 0x60, 7])?;
    let wanted = b"00000000  60000040  .word 0x60000040\n00000004  07  .byte 0x7\n";
    assert_eq!(rt; text.as_slice(), wanted.as_slice());
    Ok(())
}
