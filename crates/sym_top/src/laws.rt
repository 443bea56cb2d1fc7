//! What holds of every command and its files. The function does nothing; its contract is the law.
ghost use Rattle.sym_top.specs.Causes.{OneCause};

/// Where the shelf tells its files, a command has one end, but for want of memory: a job or a refusal, and one refusal.
pub fn one_cause()
    ensures { OneCause }
{}
