//! Known texts, their words and faults, and listings of known words.
ghost use Rattle.std.specs.Prelude.{◌<◌, length};

use crate::list;
use scripts_asm::{AsmFault, assemble};
use std::alloc::{AllocError, Global};
use std::test::Fail;

/// Instructions of all forms but MOVE MEMORY, MOVE value TO register, CALL and NOP, and a comment.
const FORMS: &str = "start: MOVE CTEST2 | 0x00 TO SFBR
LOAD DSA, 4, 0x1000
LOAD TEMP, 4, FROM 0x00
RETURN
WAIT RESELECT start
reselected: MOVE SSID & 0x07 TO SFBR
JUMP 0x8000
SELECT ATN FROM 0x18, reselected
STORE SCRATCHB, 4, 0x1004
STORE SCRATCHA, 4, FROM 0x1C
MOVE FROM 0x20, WHEN MSG_OUT
MOVE FROM 0x28, WHEN COMMAND ; by the table
JUMP 0xD8, WHEN MSG_IN
JUMP 0xC8, IF STATUS
JUMP 0xB8, IF DATA_IN
INT 1
MOVE 1, 0x1010, WHEN MSG_IN
JUMP 0x1C8, IF 0x00
CLEAR ACK
WAIT DISCONNECT
INT 3, IF NOT 0x20
MOVE SFBR & 0xFC TO SFBR
MOVE SFBR | 0x00 TO DSA0
INTFLY
SET ATN
MOVE 1, 0x1014, WHEN MSG_OUT
INT 8, IF NOT 0x80 AND MASK 0x7F
";

const FORM_WORDS: [u32; 54] = [
    0x721A_0000,
    0,
    0xE110_0004,
    0x1000,
    0xF11C_0004,
    0,
    0x9008_0000,
    0,
    0x5000_0000,
    0,
    0x740A_0700,
    0,
    0x8008_0000,
    0x8000,
    0x4300_0018,
    0x28,
    0xE05C_0004,
    0x1004,
    0xF034_0004,
    0x1C,
    0x1E00_0000,
    0x20,
    0x1A00_0000,
    0x28,
    0x870B_0000,
    0xD8,
    0x830A_0000,
    0xC8,
    0x810A_0000,
    0xB8,
    0x9808_0000,
    1,
    0x0F00_0001,
    0x1010,
    0x800C_0000,
    0x1C8,
    0x6000_0040,
    0,
    0x4800_0000,
    0,
    0x9804_0020,
    3,
    0x7408_FC00,
    0,
    0x6A10_0000,
    0,
    0x9818_0000,
    0,
    0x5800_0008,
    0,
    0x0E00_0001,
    0x1014,
    0x9804_7F80,
    8,
];

const SPELLINGS: &str = "CLEAR ACK
MOVE FROM 0x18, WHEN DATA_IN
JUMP 0x100, WHEN NOT MSG_IN
INT 5, IF NOT 0x02
LOAD DSA, 4, 0x200
STORE SCRATCHA, 4, FROM 0x08
MOVE CTEST2 | 0 TO SFBR";

const SPELLING_WORDS: [u32; 14] = [
    0x6000_0040,
    0,
    0x1900_0000,
    0x18,
    0x8703_0000,
    0x100,
    0x9804_0002,
    5,
    0xE110_0004,
    0x200,
    0xF034_0004,
    8,
    0x721A_0000,
    0,
];

fn makes(alloc: Global, text: &str, words: &[u32]) -> bool
    requires { length text.now < 10000 }
{
    match assemble(alloc, text) {
        Ok(image) => image.words.as_slice() == words,
        Err(_) => false,
    }
}

/// The number of the fault and its line. Want of memory is an error here, since it would else pass for a text without
/// a fault.
fn fault(alloc: Global, text: &str) -> Result<(Option<u8>, Option<u32>), AllocError>
    requires { length text.now < 10000 }
{
    match assemble(alloc, text) {
        Ok(_) => Ok((None, None)),
        Err(AsmFault::OutOfMemory) => Err(AllocError),
        Err(fault) => Ok((fault.number(), fault.line())),
    }
}

#[test]
fn texts_make_the_words_of_their_instructions(rt: HostRuntime) {
    assert!(&rt; makes(rt.alloc(), FORMS, &FORM_WORDS));
    assert!(&rt; makes(rt.alloc(), SPELLINGS, &SPELLING_WORDS));
    let image = assemble(rt.alloc(), "\n a :\tJUMP\tb,IF NOT 0x02 AND MASK 16;x\nb:");
    let labels = match &image {
        Ok(image) => image.labels.as_slice(),
        Err(_) => &[],
    };
    assert!(&rt; labels.len() == 2);
    assert_eq!(&rt; labels[0].name.as_str(), "a");
    assert_eq!(&rt; labels[1].address, 8);
}

#[test]
fn the_first_fault_counts(rt: HostRuntime) -> Result<(), Fail> {
    let alloc = rt.alloc();
    assert_eq!(&rt; fault(alloc, "a:\na:")?, (Some(4), Some(2)));
    assert_eq!(&rt; fault(alloc, "JUMP b\nNOP $")?, (Some(3), Some(1)));
    assert_eq!(&rt; fault(alloc, "NOP\nNOP $")?, (Some(1), Some(2)));
    assert_eq!(&rt; fault(alloc, "NOP 5")?, (Some(2), Some(1)));
    assert_eq!(&rt; fault(alloc, "MOVE 0, x, WHEN STATUS")?, (Some(2), Some(1)));
    assert_eq!(&rt;
        fault(alloc, "MOVE 0x1000000, 0, WHEN STATUS")?,
        (Some(5), Some(1))
    );
    assert_eq!(&rt; fault(alloc, "JUMP 4294967296")?, (Some(5), Some(1)));
    assert_eq!(&rt; fault(alloc, "JUMP x\nABSOLUTE x = 7")?, (None, None));
    let mut long = String::new(alloc);
    for _ in 0..1024 {
        long.push_str("NOP\n")?;
    }
    assert!(&rt; long.as_str().len() < 10000);
    assert_eq!(&rt; fault(alloc, long.as_str())?, (None, None));
    long.push_str("; more\nNOP\nNOP $\n")?;
    assert!(&rt; long.as_str().len() < 10000);
    assert_eq!(&rt; fault(alloc, long.as_str())?, (Some(6), Some(1026)));
    Ok(())
}

#[test]
fn listings_show_what_begins_at_each_word(rt: HostRuntime) -> Result<(), Fail> {
    let text = list(rt.alloc(), &[0x1800_0001, 0])?;
    assert_eq!(&rt;
        text.as_str(),
        "00000000  18000001  .word 0x18000001\n00000004  00000000  .word 0x0\n"
    );
    let text = list(rt.alloc(), &[0xE110_0004, 0x200, 0xC000_0001, 2, 3])?;
    assert_eq!(&rt;
        text.as_str(),
        "00000000  e1100004 00000200  LOAD DSA, 0x4, 0x200\n00000008  c0000001 00000002 00000003  MOVE MEMORY 0x1, 0x2, 0x3\n"
    );
    let text = list(rt.alloc(), &[0x9804_0020, 3, 0x9804_7F80])?;
    assert_eq!(&rt;
        text.as_str(),
        "00000000  98040020 00000003  INT 0x3, IF NOT 0x20\n00000008  98047f80  .word 0x98047f80\n"
    );
    // a line for each of the 27 instructions
    let text = list(rt.alloc(), &FORM_WORDS)?;
    let lines = text.as_str().bytes().filter(|byte| *byte == b'\n').count();
    assert_eq!(&rt; lines, 27);
    assert!(&rt;
        text.as_str()
            .ends_with("  INT 0x8, IF NOT 0x80 AND MASK 0x7f\n")
    );
    Ok(())
}
