//! What the lock holds.
ghost use Rattle.std.specs.Prelude.{◌≡◌, ℕ, Bool, List, length};
ghost use Rattle.bench_lock.specs.Log.{entry, added};

/// A value that changes in steps, each made for a caller, and keeps the list of the steps that it records.
///
/// It can be dropped, since `Shared::open` drops it where memory is wanting.
pub trait Machine: Drop {
    type Step: Copy;

    type Reply;

    type Opening;

    /// What the machine was opened with. No step changes it.
    ghost opening: { Self → Self.Opening };

    /// The recorded steps, in order, each as its entry: the caller's number and the step.
    ghost list: { Self → List (ℕ × Self.Step) };

    /// Which replies an opening and a list allow to a caller's step.
    ghost allows: { Self.Opening → List (ℕ × Self.Step) → ℕ → Self.Step → Self.Reply → Type 0 };

    /// Which steps are recorded: those that have such a reply under such an opening.
    ghost records: { Self.Opening → Self.Step → Self.Reply → Bool };

    /// Makes the step for the caller. The reply is allowed by the list before it, and exactly a recorded step
    /// lengthens the list, by its own entry.
    fn step(&mut self, caller: u32, step: Self::Step) -> Self::Reply
        ensures opening { opening self.new ≡ opening self.old }
        ensures reply { allows (opening self.old) (list self.old) caller step result }
        ensures list { list self.new ≡ added (list self.old) (records (opening self.old) step result) (entry caller step) };

    /// The length of the list.
    fn length(&self) -> u32
        ensures { result ≡ length (list self.now) };
}
