//! Laws of the words of blocks. Each function does nothing; its contract is the law.

ghost use Rattle.block_words.specs.Commands.{CommandsAreTold};
ghost use Rattle.block_words.specs.KeptWords.{WordsStay};
ghost use Rattle.block_words.specs.LiveWords.{LivesOfRules, MarksAgree, StateAndStatusTell};
ghost use Rattle.block_words.specs.Marks.{MarksAreTold};

/// In every world of every run no step changes START, RESTART, SEL, the entries, the message or the command of a live ticket's block,
/// but an abort of the ticket, which changes START and RESTART, and its Sense.
pub fn words_stay()
    ensures { WordsStay }
{}

/// In every world of every run RESTART of a live ticket's block is ABORT exactly where an abort of the ticket answered Marked.
pub fn marks_are_told()
    ensures { MarksAreTold }
{}

/// In every world of every run the block of a live ticket has the message that names its unit and its tag, and the command of its
/// request, or REQUEST SENSE from its Sense on, with the command's length.
pub fn commands_are_told()
    ensures { CommandsAreTold }
{}

/// In a joined run RESTART of a live ticket's block is ABORT exactly where the ticket is marked.
pub fn marks_agree()
    ensures { MarksAgree }
{}

/// After every list of moves only a ticket of a unit that keeps the rules has been selected, has a task, was refused or answered, or is
/// asked for its sense.
pub fn lives_of_rules()
    ensures { LivesOfRules }
{}

/// In a joined run TakeDone finds what the life of a ticket says, where STATE and STATUS of its block agree with it.
pub fn state_and_status_tell()
    ensures { StateAndStatusTell }
{}
