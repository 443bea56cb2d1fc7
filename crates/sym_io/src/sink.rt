//! A sink takes bytes.

ghost use Rattle.std.specs.Io.KnownBytes.{Appends, WriteAppends};
ghost use Rattle.std.specs.Io.{WritesAtMost};
ghost use Rattle.std.specs.Prelude.{◌≡◌, ◌<◌, ◌≤◌, ◌⊎◌, IfOk, List, OnErr, OnOk, length, take, ℕ, Option};
ghost use Rattle.sym_io.specs.Causes.{Rose};

/// A write has failed.
#[derive(Clone, Copy, Debug, PartialEq, Eq)]
pub struct Failed;

/// Something that takes bytes, a piece at a time.
pub trait Sink {
    /// The bytes written, where the sink tells them.
    ghost written: { Self → Option (List ℕ) };

    /// How many writes have failed. It never falls, and stands still at 2^64 - 1.
    ghost faults: { Self → ℕ };

    /// Takes the first n bytes of the piece, at `Ok(n)`. `Failed`, and `Ok(0)` for a piece that isn't empty, come
    /// only where the count of faults rose, and with every other answer it stays; after `Failed` the bytes are as
    /// before.
    fn write(&mut self, piece: &[u8]) -> Result<usize, Failed>
        ensures bound { WritesAtMost result piece.now }
        ensures bytes { WriteAppends (written self.old) (written self.new) result piece.now }
        ensures later { faults self.old ≤ faults self.new }
        ensures failed { OnErr result (Rose (faults self.old) (faults self.new)) }
        ensures none_taken { IfOk result (λ n. n ≡ 0 → 0 < length piece.now → Rose (faults self.old) (faults self.new)) }
        ensures steady { IfOk result (λ n. 0 < n ⊎ (length piece.now ≡ 0) → faults self.new ≡ faults self.old) };
}

/// Writes all the bytes, in as many pieces as the sink wants, and the count of faults stays. After `Failed`, which
/// comes only where that count rose, the sink has taken some of the first bytes.
pub fn write_all<S: Sink>(sink: &mut S, bytes: &[u8]) -> Result<(), Failed>
    ensures whole { OnOk result (Appends (S.written sink.old) (S.written sink.new) bytes.now) }
    ensures part { OnErr result ((n : ℕ) × Appends (S.written sink.old) (S.written sink.new) (take n bytes.now)) }
    ensures later { S.faults sink.old ≤ S.faults sink.new }
    ensures failed { OnErr result (Rose (S.faults sink.old) (S.faults sink.new)) }
    ensures steady { OnOk result (S.faults sink.new ≡ S.faults sink.old) }
{
    let mut done = 0;
    while done < bytes.len() {
        let count = sink.write(&bytes[done..])?;
        if count == 0 {
            return Err(Failed);
        }
        done += count;
    }
    Ok(())
}
