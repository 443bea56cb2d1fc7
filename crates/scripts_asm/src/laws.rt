//! What holds of every text. Each function does nothing; its contract is the law.
ghost use Rattle.scripts_forms.specs.Lines.{OneReading};
ghost use Rattle.scripts_asm.specs.Laws.{SomeReading, SomeAnswer};

/// A text is read in exactly one way: so "there is a reading with this fault" says that the reading has it.
pub fn one_reading()
    ensures one { OneReading }
    ensures some { SomeReading }
{}

/// A text has an image or a first fault: so only want of memory keeps the assembler from saying which.
pub fn some_answer()
    ensures { SomeAnswer }
{}
