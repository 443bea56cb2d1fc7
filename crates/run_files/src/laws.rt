//! What holds of every file. The function does nothing; its contract is the law.
ghost use Rattle.run_files.specs.Laws.{OneRig, OneTrace, OneWork};

/// A file that is told is read in one way: as one rig, or with one fault, and so a work and a trace.
pub fn one_reading()
    ensures rig { OneRig }
    ensures work { OneWork }
    ensures trace { OneTrace }
{}
