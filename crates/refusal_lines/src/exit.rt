//! How the program ends.
ghost use Rattle.std.specs.Prelude.{◌≡◌};
ghost use Rattle.std.specs.Process.{exit_status};
ghost use Rattle.refusal_lines.specs.Exits.{number_of};

use std::process::ExitCode;

/// How a command ended. Its number is the status of the process.
#[derive(Clone, Copy, Debug, PartialEq, Eq)]
pub enum Exit {
    /// 0: the work was done and all was written.
    Ok = 0,
    /// 2: the words are no command with its count of words, or a number is out of range.
    Usage = 2,
    /// 3: a file could not be loaded.
    ReadFault = 3,
    /// 4: a file could not be stored, or the output not be written.
    WriteFault = 4,
    /// 5: want of memory.
    OutOfMemory = 5,
    /// 6: the rig is refused.
    BadRig = 6,
    /// 7: the work is refused.
    BadWork = 7,
    /// 8: the source is refused.
    BadSource = 8,
    /// 9: the trace is refused.
    BadTrace = 9,
    /// 10: the list of steps is at its limit, and isn't drained.
    StepLimit = 10,
    /// 11: a file is longer than its limit.
    TooLong = 11,
}

impl Exit {
    /// The status of the process, 0 to 11.
    pub fn status(self) -> ExitCode
        ensures { exit_status result ≡ number_of self }
    {
        ExitCode::from(self as u8)
    }
}
