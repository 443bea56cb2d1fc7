//! What a connected task that is to choose may do.

ghost use Rattle.std.specs.Prelude.{◌≡◌, ◌+◌, ◌%◌, ◌<◌, ◌≤◌, ◌⊎◌, true, length, slice_get, Some, if◌then◌else◌};
ghost use Rattle.unit_law.specs.Log.{tally};
ghost use Rattle.target_law.specs.declared.task_phase.TaskPhase.TheVariants.{ToChoose};
ghost use Rattle.target_law.specs.Session.{Can, acted, remaining};
ghost use Rattle.target_law.specs.Choice.{Names, offers, can_go, can_refuse, can_spend, go_bytes};
ghost use Rattle.target_law.specs.Sound.{IsSound};
ghost use Rattle.target_session.specs.Sessions.{session_of};
ghost use Rattle.target_session.specs.Words.{place_of, low_of};

use crate::connection::Connection;
use scsi_words::Direction;
use target_law::Move;
use unit_core::Core;

/// The low bits of a word say how many bytes, the others which move.
const LOW: u32 = 16_777_216;

impl Connection {
    /// The lawful move that a word names. `limit` is how often the unit refuses one ticket.
    ///
    /// Condition: it is to choose.
    pub fn choose(&self, core: &Core, limit: u8, word: u32) -> Move
        requires sound { IsSound (session_of core.now self.now) }
        requires choosing { self.now.shows ≡ ToChoose }
        ensures named { Names (session_of core.now self.now) limit
            (tally self.now.task.ticket core.now.log.entries).refusals word result }
        ensures lawful { Can result (session_of core.now self.now) limit
            (tally self.now.task.ticket core.now.log.entries).refusals }
    {
        self.choose_named(core, limit, word)
    }

    fn choose_named(&self, core: &Core, limit: u8, word: u32) -> Move
        requires { (can_go (session_of core.now self.now) ≡ true) ⊎ (can_spend (session_of core.now self.now) ≡ true) }
        ensures { Names (session_of core.now self.now) limit
            (tally self.now.task.ticket core.now.log.entries).refusals word result }
    {
        let bytes = self.go_bytes(core, word);
        let refuse = self.can_refuse(core, limit);
        let spend = self.task.budget() > 0;
        named(self.can_go(core), refuse, spend, bytes, word / LOW % 128)
    }

    /// A word that names a lawful move.
    ///
    /// Condition: the move is lawful.
    pub fn word_for(&self, core: &Core, limit: u8, m: &Move) -> u32
        requires sound { IsSound (session_of core.now self.now) }
        requires lawful { Can m.now (session_of core.now self.now) limit
            (tally self.now.task.ticket core.now.log.entries).refusals }
        ensures { Names (session_of core.now self.now) limit
            (tally self.now.task.ticket core.now.log.entries).refusals result m.now }
    {
        LOW * place(m, self.can_go(core), self.can_refuse(core, limit)) + low(m)
    }

    /// Whether the move adds an entry to the unit's log.
    #[tactic(auto, unfolding(target_law::specs::Session::acted))]
    pub fn logs(&self, core: &Core, m: &Move) -> bool
        ensures { length (acted m.now (session_of core.now self.now)).log ≡
            length core.now.log.entries + (if result then 1 else 0) }
    {
        let goes = matches!(*m, Move::Go { .. });
        goes && self.task.remaining(&core.lun) > 0
            && self.task.direction() == Direction::In
            && !self.task.has_answer()
            && !self.task.senses()
    }

    fn can_go(&self, core: &Core) -> bool
        ensures { result ≡ can_go (session_of core.now self.now) }
    {
        !(self.task.has_just_moved() && self.task.remaining(&core.lun) > 0)
    }

    fn can_refuse(&self, core: &Core, limit: u8) -> bool
        ensures { result ≡ can_refuse (session_of core.now self.now) limit
            (tally self.now.task.ticket core.now.log.entries).refusals }
    {
        self.task.is_fresh()
            && !self.task.senses()
            && core.log.refusals(self.task.ticket()) < limit as usize
    }

    fn go_bytes(&self, core: &Core, word: u32) -> u32
        ensures { result ≡ go_bytes (session_of core.now self.now) word }
    {
        let remaining = self.task.remaining(&core.lun);
        if self.task.budget() == 0 {
            remaining
        } else if remaining == 0 {
            0
        } else {
            1 + word % LOW % remaining
        }
    }
}

/// The move at an index, counted round.
fn named(go: bool, refuse: bool, spend: bool, bytes: u32, index: u32) -> Move
    requires { (go ≡ true) ⊎ (spend ≡ true) }
    ensures { slice_get (offers go refuse spend bytes) (index % length (offers go refuse spend bytes)) ≡ Some result }
{
    let first = if go { 1 } else { 0 };
    let second = if refuse { 2 } else { 0 };
    let third = if spend { 4 } else { 0 };
    let at = index % (first + second + third);
    if at < first {
        return Move::Go { bytes };
    }
    let at = at - first;
    if at < second {
        return if at == 0 { Move::Busy } else { Move::QueueFull };
    }
    match at - second {
        0 => Move::Leave,
        1 => Move::SaveLeave,
        2 => Move::Save,
        _ => Move::Restore,
    }
}

/// The place of a move among those that are lawful.
fn place(m: &Move, go: bool, refuse: bool) -> u32
    ensures place { result ≡ place_of m.now go refuse }
    ensures few { result ≤ 6 }
{
    let first = if go { 1 } else { 0 };
    let second = if refuse { 2 } else { 0 };
    match *m {
        Move::Go { .. } | Move::Rogue { .. } => 0,
        Move::Busy => first,
        Move::QueueFull => first + 1,
        Move::Leave => first + second,
        Move::SaveLeave => first + second + 1,
        Move::Save => first + second + 2,
        Move::Restore => first + second + 3,
    }
}

/// The low bits of the word of a move: one less than the bytes of a data phase.
fn low(m: &Move) -> u32
    ensures { result ≡ low_of m.now }
{
    match *m {
        Move::Go { bytes } => bytes.saturating_sub(1),
        _ => 0,
    }
}
