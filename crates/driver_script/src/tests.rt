//! Words of the script where its versions differ, the labels, and the script in memory.
use super::{Name, image, instruction, label, load};
use bench_words::Words;
use scripts_ops::decode;
use std::test::Fail;

#[test]
fn words_of_both_versions(rt: HostRuntime) {
    // The versions differ at 188 alone.
    let rows = [
        (0x00, 0x721a_0000, 0x721a_0000),
        (0x62, 0x7408_fc00, 0x8008_0000),
        (0x63, 0, 0x460),
        (0x12d, 0x190, 0x190),
    ];
    for (n, first, second) in rows {
        assert!(rt; n < 302);
        assert_eq!(rt; [image(n, 1), image(n, 2)], [first, second], "word {n:x}");
    }
    let op = instruction(0x31, 1);
    assert_eq!(rt; decode(0x7408_fc00, 0, 0), Some(op));
}

#[test]
fn labels(rt: HostRuntime) {
    let rows = [
        (Name::Start, 0x000),
        (Name::Ring, 0x020),
        (Name::Waitr, 0x048),
        (Name::Reselect, 0x050),
        (Name::Select, 0x060),
        (Name::Dispatch, 0x090),
        (Name::Data, 0x0b8),
        (Name::Status, 0x0c8),
        (Name::Msg, 0x0d8),
        (Name::Save, 0x108),
        (Name::Restore, 0x128),
        (Name::Leave, 0x148),
        (Name::Tag, 0x160),
        (Name::Open, 0x1b0),
        (Name::Badtask, 0x1c0),
        (Name::Complete, 0x1c8),
        (Name::Tail, 0x1d0),
        (Name::Aborted, 0x1e8),
        (Name::Cancel, 0x1f8),
        (Name::Cut, 0x200),
        (Name::Notarget, 0x210),
        (Name::Put, 0x220),
        (Name::Abort, 0x278),
        (Name::Dropped, 0x290),
        (Name::Resetjob, 0x298),
        (Name::Over, 0x2b8),
        (Name::Datain, 0x2c0),
        (Name::Indone, 0x340),
        (Name::Dataout, 0x348),
        (Name::Allmoved, 0x3c8),
        (Name::Pmin0, 0x3e0),
        (Name::Pmin1, 0x3f8),
        (Name::Pmout0, 0x410),
        (Name::Pmout1, 0x428),
        (Name::Sense, 0x440),
    ];
    for (name, address) in rows {
        assert_eq!(rt; label(name), address);
    }
}

#[test]
fn loaded_at_0(rt: HostRuntime) -> Result<(), Fail> {
    let mut words = Words::new(rt.alloc(), 0x10_0000)?;
    words.set(0x4b8, 7);
    load(&mut words, 2);
    assert_eq!(rt; words.get(0), 0x721a_0000);
    assert_eq!(rt; words.get(0x188), 0x8008_0000);
    assert_eq!(rt; words.get(0x4b4), 0x190);
    assert_eq!(rt; words.get(0x4b8), 7);
    Ok(())
}
