//! How a task's data and its position move.

ghost use Rattle.std.specs.Prelude.{◌≡◌, ◌-◌, ◌<◌, ◌≤◌, true, false, length, None};
ghost use Rattle.scsi_words.specs.declared.phases.kinds.Direction.TheVariants.{Out};
ghost use Rattle.cdb_codec.specs.Forms.{need_of};
ghost use Rattle.plain_lun.specs.Unit.{UnitState};
ghost use Rattle.plain_lun.specs.Performing.{wants_now};
ghost use Rattle.unit_law.specs.Report.{data_of};
ghost use Rattle.target_law.specs.Bytes.{data_at, advanced, put, away};
ghost use Rattle.target_law.specs.Sound.{IsSoundTask, IsWaiting};

use crate::task::Task;

impl Task {
    /// The byte at its position of the data that it sends, if there is one.
    pub fn byte(&self) -> Option<u8>
        ensures { result ≡ data_at self.now.kept self.now.position }
    {
        let answer = self.kept?;
        if self.position < answer.sent {
            Some(self.buffer[self.position as usize])
        } else {
            None
        }
    }

    /// The byte at its position was sent.
    ///
    /// Condition: there is one.
    pub fn advance(&mut self)
        requires { self.old.position < length (data_of self.old.kept) }
        ensures task { self.new ≡ advanced self.old self.old.received }
        ensures sound { (u : UnitState) → IsSoundTask u self.old → IsSoundTask u self.new }
    {
        self.position += 1;
        self.high = self.high.max(self.position);
    }

    /// A byte of the data that a write takes was received, at its position.
    ///
    /// Condition: no data to send are kept, and the position is below 65,536 and not behind what was received.
    pub fn receive(&mut self, b: u8)
        requires nothing_kept { self.old.kept ≡ None }
        requires within { self.old.position < 65536 }
        requires no_gap { self.old.position ≤ length self.old.received }
        ensures task { self.new ≡ advanced self.old (put self.old.received self.old.position b) }
        ensures sound { (u : UnitState) → (need_of self.old.cdb).direction ≡ Out →
            self.old.position < (wants_now u self.old.cdb).bytes → IsSoundTask u self.old →
            IsSoundTask u self.new }
    {
        self.buffer[self.position as usize] = b;
        self.position += 1;
        self.got = self.got.max(self.position);
        self.high = self.high.max(self.position);
    }

    /// SAVE DATA POINTER: the position is saved.
    pub fn save(&mut self)
        ensures task { self.new ≡ record self.old { saved = self.old.position } }
        ensures sound { (u : UnitState) → IsSoundTask u self.old → IsSoundTask u self.new }
    {
        self.saved = self.position;
    }

    /// RESTORE POINTERS: the position is the saved one again.
    pub fn restore(&mut self)
        ensures task { self.new ≡ record self.old { position = self.old.saved } }
        ensures sound { (u : UnitState) → IsSoundTask u self.old → IsSoundTask u self.new }
    {
        self.position = self.saved;
    }

    /// It leaves the bus, and goes back to its saved position.
    pub fn leave(&mut self)
        ensures task { self.new ≡ away self.old }
        ensures waits { (u : UnitState) → IsSoundTask u self.old → IsWaiting u self.new }
    {
        self.restore();
        self.just_moved = false;
    }

    /// It begins a data phase.
    pub fn move_data(&mut self)
        ensures task { self.new ≡ record self.old { fresh = false; just_moved = true } }
        ensures sound { (u : UnitState) → IsSoundTask u self.old → IsSoundTask u self.new }
    {
        self.fresh = false;
        self.just_moved = true;
    }

    /// It makes a move that is no data phase.
    pub fn turn(&mut self)
        ensures task { self.new ≡ record self.old { fresh = false; just_moved = false } }
        ensures sound { (u : UnitState) → IsSoundTask u self.old → IsSoundTask u self.new }
    {
        self.fresh = false;
        self.just_moved = false;
    }

    /// It makes a move that is no data phase and spends one of its budget.
    ///
    /// Condition: the budget isn't spent.
    pub fn spend(&mut self)
        requires { 0 < self.old.budget }
        ensures task { self.new ≡
            record self.old { budget = self.old.budget - 1; fresh = false; just_moved = false } }
        ensures sound { (u : UnitState) → IsSoundTask u self.old → IsSoundTask u self.new }
    {
        self.budget -= 1;
        self.turn();
    }
}
