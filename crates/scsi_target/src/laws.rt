//! A law of choices. The function does nothing; its contract is the law.

ghost use Rattle.scsi_target.specs.Laws.{OneMoveAWord};

/// A word names at most one move of a target. So `choose` gives back a lawful move for the word that `word_for` gives.
pub fn one_move_a_word()
    ensures { OneMoveAWord }
{}
