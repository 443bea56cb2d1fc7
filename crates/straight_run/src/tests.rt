//! The straight script over a bus that goes through the phases of a read.

ghost use Rattle.std.specs.Prelude.{false, None};
ghost use Rattle.chip_step.specs.Laws.{IsLawful};

use super::straight;
use chip_regs::Cause;
use chip_step::{Bus, Settled};
use scsi_words::Phase;
use std::test::Fail;

/// A target that goes through a read, or frees the bus after COMMAND. Its contracts say no more than the laws.
#[derive(Drop)]
struct Reader {
    free: bool,
    shown: Phase,
    left: u32,
    leaves_early: bool,
}

impl Reader {
    fn new(leaves_early: bool) -> Self {
        Reader {
            free: true,
            shown: Phase::MsgOut,
            left: 0,
            leaves_early,
        }
    }

    // The next phase, once the bytes of one have moved.
    fn turn(&mut self) {
        if self.left > 0 {
            return;
        }
        match self.shown {
            Phase::MsgOut => {
                self.shown = Phase::Command;
                self.left = 10;
            }
            Phase::Command => {
                self.free = self.leaves_early;
                self.shown = Phase::DataIn;
                self.left = 512;
            }
            Phase::DataIn => {
                self.shown = Phase::Status;
                self.left = 1;
            }
            Phase::Status => {
                self.shown = Phase::MsgIn;
                self.left = 1;
            }
            Phase::MsgIn | Phase::DataOut => {}
        }
    }
}

impl Bus for Reader {
    ghost moves = { IsLawful (λ r. record { free = r.free; atn = false; ack = false; shown = None }) };

    ghost signals = { λ r. record { free = r.free; atn = false; ack = false; shown = None } };

    ghost lawful = { λ old event new m. m };

    fn phase(&mut self, _word: u32) -> Option<Phase> {
        if self.free {
            return None;
        }
        Some(self.shown)
    }

    fn shown(&self) -> Option<Phase> {
        None
    }

    fn byte_in(&mut self) -> Option<u8> {
        if self.left == 0 {
            return None;
        }
        self.left -= 1;
        let b = match self.shown {
            Phase::DataIn => 0xa5,
            Phase::Status => 0x08,
            _ => 0x00,
        };
        self.turn();
        Some(b)
    }

    fn byte_out(&mut self, _b: u8) -> bool {
        if self.left == 0 {
            return false;
        }
        self.left -= 1;
        self.turn();
        true
    }

    fn select(&mut self, _target: u8, _word: u32) -> Settled {
        self.free = false;
        self.shown = Phase::MsgOut;
        self.left = 3;
        Settled::Selected
    }

    fn reselect(&mut self, _word: u32) -> Option<u8> {
        None
    }

    fn set_atn(&mut self, _on: bool) {}

    fn clear_ack(&mut self) {}

    fn leave(&mut self, _word: u32) -> bool {
        if self.free {
            return true;
        }
        self.free = true;
        true
    }
}

#[test]
fn a_read_goes_through_its_phases(rt: HostRuntime) -> Result<(), Fail> {
    let mut bus = Reader::new(false);
    let end = straight(rt.alloc(), &mut bus, 3)?;
    assert_eq!(rt; end.regs.stop_cause(), Some(Cause::Sir(7)));
    assert_eq!(rt; end.words.len(), 0x40_0000);
    for i in 0..512u32 {
        assert_eq!(rt; end.words.byte(0x20_0000 + i), 0xa5);
    }
    assert_eq!(rt; end.words.byte(0x20_0200), 0);
    assert_eq!(rt; end.words.byte(0x1_0014), 0x08);
    Ok(())
}

#[test]
fn a_bus_that_goes_free_after_the_command_is_an_unexpected_disconnect(
    rt: HostRuntime,
) -> Result<(), Fail> {
    let mut bus = Reader::new(true);
    let end = straight(rt.alloc(), &mut bus, 3)?;
    assert_eq!(rt; end.regs.stop_cause(), Some(Cause::Udc));
    assert_eq!(rt; end.regs.dsp, 0x20);
    Ok(())
}
