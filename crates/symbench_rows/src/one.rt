//! The command `one`, and words that are no command.

use crate::world::{Sinking, WHOLE, run};
use std::test::Fail;
use sym_top::Exit;

const ZEROS: &str = "0000000000000000000000000000000000000000000000000000000000000000";

#[test]
fn a_read_past_the_end_is_a_check_condition(rt: HostRuntime) -> Result<(), Fail> {
    let left = run(rt.alloc(), &["one", "64"], WHOLE, WHOLE)?;
    assert_eq!(rt; left.exit, Exit::Ok);
    let mut lines = String::from_str(
        rt.alloc(),
        "report 0 unit 0.0 done status 02 residual 512 tries 1\n",
    )?;
    for row in 0..16u32 {
        lines.push_str(format!(in rt.alloc(); "data {:06x} {ZEROS}\n", 32 * row)?.as_str())?;
    }
    assert_eq!(rt; left.out.bytes(), lines.as_bytes());
    assert_eq!(rt; left.err.bytes(), b"".as_slice());
    Ok(())
}

#[test]
fn words_that_are_no_command_are_usage(rt: HostRuntime) -> Result<(), Fail> {
    let rows: [&[&str]; 4] = [&[], &["one", "03"], &["one", "4294967296"], &["asm", "a"]];
    for words in rows {
        let left = run(rt.alloc(), words, WHOLE, WHOLE)?;
        assert_eq!(rt; left.exit, Exit::Usage);
        assert_eq!(rt; left.out.bytes(), b"".as_slice());
        assert_eq!(rt; left.err.bytes(), b"usage\n".as_slice());
    }
    let left = run(rt.alloc(), &["one", "4294967295"], WHOLE, WHOLE)?;
    assert_eq!(rt; left.exit, Exit::Ok);
    Ok(())
}

#[test]
fn a_failing_sink_is_a_write_fault(rt: HostRuntime) -> Result<(), Fail> {
    let whole = run(rt.alloc(), &["one", "3"], WHOLE, WHOLE)?;
    // one byte at a time gives the whole text
    let slow = Sinking {
        most: 1,
        failing: None,
    };
    let left = run(rt.alloc(), &["one", "3"], slow, WHOLE)?;
    assert_eq!(rt; left.exit, Exit::Ok);
    assert_eq!(rt; left.out.bytes(), whole.out.bytes());
    // the k-th write fails: the text before it is there
    for k in [1u32, 2, 100, 1000] {
        let failing = Sinking {
            most: 1,
            failing: Some(k),
        };
        let left = run(rt.alloc(), &["one", "3"], failing, WHOLE)?;
        assert_eq!(rt; left.exit, Exit::WriteFault);
        let count = (k - 1) as usize;
        assert!(rt; count <= whole.out.bytes().len());
        assert_eq!(rt; left.out.bytes(), &whole.out.bytes()[..count]);
        assert_eq!(rt; left.err.bytes(), b"write fault\n".as_slice());
    }
    Ok(())
}
