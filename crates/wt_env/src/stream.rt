//! Where bytes come from and go to. Contracts see what a source has left and what a sink has taken,
//! where that is told, and a count of faults that never falls.

ghost use Rattle.std.specs.Prelude.{◌≡◌, ℕ, ◌<◌, ◌≤◌, List, [], Option, Ok, length, take, IfOk, IfSome, OnErr};
ghost use Rattle.wt_env.specs.Stream.{IsTaken, IsAtEnd, IsAdded, Rose};

/// A read or a write failed; the fault count of the object rose.
#[derive(Clone, Copy, Debug, PartialEq, Eq)]
pub struct Failed;

/// What bytes are read from.
pub trait Source {
    /// The bytes that are left, where it is told.
    ghost left: { Self → Option (List ℕ) };

    /// How often a read failed so far.
    ghost faults: { Self → ℕ };

    /// Reads the next bytes into the front of the buffer, and answers how many. Zero for a buffer
    /// that isn't empty is the end. `Failed` leaves what is left as it was.
    fn read(&mut self, buffer: &mut [u8]) -> Result<usize, Failed>
        ensures within { IfOk result (λ n. n ≤ length buffer.old) }
        ensures taken { IfOk result (λ n. IsTaken (take n buffer.new) (left self.old) (left self.new)) }
        ensures end { result ≡ Ok 0 → 0 < length buffer.old → IsAtEnd (left self.old) }
        ensures failed { OnErr result (Rose (faults self.old) (faults self.new)) }
        ensures unread { OnErr result (left self.new ≡ left self.old) }
        ensures count { faults self.old ≤ faults self.new };
}

/// What bytes are written to.
pub trait Sink {
    /// The bytes that were taken so far, where it is told.
    ghost taken: { Self → Option (List ℕ) };

    /// How often a write failed so far.
    ghost faults: { Self → ℕ };

    /// Takes the first bytes of the piece, and answers how many: at least one of a piece that isn't
    /// empty. `Failed` takes none.
    fn write(&mut self, piece: &[u8]) -> Result<usize, Failed>
        ensures within { IfOk result (λ n. n ≤ length piece.now) }
        ensures some { IfOk result (λ n. 0 < length piece.now → 0 < n) }
        ensures added { IfOk result (λ n. IsAdded (take n piece.now) (taken self.old) (taken self.new)) }
        ensures failed { OnErr result (Rose (faults self.old) (faults self.new)) }
        ensures unwritten { OnErr result (taken self.new ≡ taken self.old) }
        ensures count { faults self.old ≤ faults self.new };
}
