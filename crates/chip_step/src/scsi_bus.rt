//! The bus as the chip sees it.

ghost use Rattle.std.specs.Prelude.{◌≡◌, ℕ};
ghost use Rattle.chip_step.specs.Event.{Event, Phase as AskPhase, Shown, ByteIn, ByteOut, Select, Reselect, SetAtn, ClearAck, Leave};
ghost use Rattle.chip_step.specs.Laws.{Signals, IsLawful};

use scsi_words::Phase;

/// How a selection settles.
#[derive(Clone, Copy, Debug, PartialEq, Eq)]
pub enum Settled {
    /// The target answered.
    Selected,
    /// This target, below 8, reselected the chip first.
    Reselected(u8),
    /// No target answered.
    TimedOut,
}

/// A SCSI bus with its targets. It keeps ATN and ACK. Each call may do what the relation `moves` says of it; a word
/// is that by which the target chooses.
pub trait Bus {
    /// From one state a call with its arguments and its answer may lead to another.
    ghost moves: { Self → Event → Self → Type 0 };

    /// What stands on the bus, as far as the laws speak of it.
    ghost signals: { Self → Signals };

    /// The phase after the target's choice, and `None` exactly where the bus is free after it.
    fn phase(&mut self, word: u32) -> Option<Phase>
        ensures { moves self.old (AskPhase word result) self.new };

    /// The phase that the target shows, `None` where none is settled.
    fn shown(&self) -> Option<Phase>
        ensures { moves self.now (Shown result) self.now };

    /// The next byte from the target. With `None` it gives none in this phase any more, and nothing changes.
    /// In MSG_IN a byte asserts ACK.
    fn byte_in(&mut self) -> Option<u8>
        ensures { moves self.old (ByteIn result) self.new };

    /// Hands a byte to the target. With false it takes none in this phase any more, and nothing changes.
    fn byte_out(&mut self, b: u8) -> bool
        ensures { moves self.old (ByteOut b result) self.new };

    /// Selects a target.
    fn select(&mut self, target: u8, word: u32) -> Settled
        ensures { moves self.old (Select target word result) self.new };

    /// The target, below 8, that reselects the chip. `None` changes nothing.
    fn reselect(&mut self, word: u32) -> Option<u8>
        ensures { moves self.old (Reselect word result) self.new };

    /// Asserts or releases ATN. To assert it where it is asserted changes nothing.
    fn set_atn(&mut self, on: bool)
        ensures { moves self.old (SetAtn on) self.new };

    /// Releases ACK, by which the target acts on a message byte. It changes nothing where ACK isn't asserted.
    fn clear_ack(&mut self)
        ensures { moves self.old ClearAck self.new };

    /// Whether the bus is free after the target's choice. A free bus stays as it is.
    fn leave(&mut self, word: u32) -> bool
        ensures { moves self.old (Leave word result) self.new };

    /// Each move keeps the laws of a bus.
    ghost lawful: { (old : Self) → (event : Event) → (new : Self) → moves old event new → IsLawful signals old event new };
}
