//! Laws of tickets that have their outcome. Each function does nothing; its contract is the law.

ghost use Rattle.block_words.specs.EndedReports.{AgreementsStay, EndedTicketsStay};
ghost use Rattle.block_words.specs.EndedWords.{BuffersStay, EndedBlocksStay};

/// In every world of every run no step changes a word of the block of a ticket that has its outcome and isn't freed yet, its sense
/// area with it.
pub fn ended_blocks_stay()
    ensures { EndedBlocksStay }
{}

/// In every world of every run no step changes the bytes of the buffer of a live ticket that isn't Queued.
pub fn buffers_stay()
    ensures { BuffersStay }
{}

/// No move of tickets and targets changes the outcome of a ticket or what its report says, once it has one; a freed ticket stays so.
pub fn ended_tickets_stay()
    ensures { EndedTicketsStay }
{}

/// Where the block, the sense area and the buffer of a ticket with an outcome agree with it (`ReportAgrees`) in a joined world, they
/// agree after each step that is joined, up to the ticket's Free.
pub fn agreements_stay()
    ensures { AgreementsStay }
{}
