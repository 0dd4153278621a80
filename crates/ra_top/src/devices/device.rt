//! Where bytes come from, and where they go.

ghost use Rattle.std.specs.Prelude.{◌≡◌, ℕ, ◌<◌, ◌≤◌, List, Option, length, take, IfOk, OnErr, IfSome, Some, ◌++◌};
ghost use Rattle.ra_top.specs.Devices.Device.{HasCause, Takes};

/// A call of a device failed.
#[derive(Clone, Copy, Debug, PartialEq, Eq)]
pub struct Failed;

/// Files by their names, of which one at a time is read. What a file holds, where it is told, is
/// changed by no call. A call fails only where the count of faults rises in it.
pub trait Files {
    /// The bytes of the file of a name, where they are told.
    ghost contents: { Self → List ℕ → Option (List ℕ) };

    /// The bytes of the file that is read which are not yet read, where they are told.
    ghost left: { Self → Option (List ℕ) };

    /// How often a call failed.
    ghost faults: { Self → ℕ };

    /// Begins to read the file of a name. Afterwards, also where this failed, all its bytes are
    /// left. A name that isn't there is a fault.
    fn start(&mut self, name: &str) -> Result<(), Failed>
        ensures contents { (n : List ℕ) → contents self.new n ≡ contents self.old n }
        ensures left { IfSome (contents self.old name.now) (λ bytes. left self.new ≡ Some bytes) }
        ensures cause { HasCause (faults self.old) (faults self.new) result };

    /// Reads the first bytes that are left into the front of a piece and answers their number. It
    /// is 0 for a piece that isn't empty only at the end. A failed read takes none.
    fn read(&mut self, piece: &mut [u8]) -> Result<usize, Failed>
        ensures contents { (n : List ℕ) → contents self.new n ≡ contents self.old n }
        ensures within { IfOk result (λ n. n ≤ length piece.old) }
        ensures takes { IfOk result (λ n. IfSome (left self.old) (λ bytes. Takes bytes (left self.new) piece.new n)) }
        ensures err { OnErr result (left self.new ≡ left self.old) }
        ensures cause { HasCause (faults self.old) (faults self.new) result };
}

/// A place for bytes. A call fails only where the count of faults rises in it.
pub trait Sink {
    /// The bytes that were written, where they are told.
    ghost written: { Self → Option (List ℕ) };

    /// How often a call failed.
    ghost faults: { Self → ℕ };

    /// Writes the first bytes of a piece and answers their number, at least 1 for a piece that
    /// isn't empty. A failed write takes none.
    fn write(&mut self, piece: &[u8]) -> Result<usize, Failed>
        ensures within { IfOk result (λ n. n ≤ length piece.now) }
        ensures some { IfOk result (λ n. 0 < length piece.now → 0 < n) }
        ensures takes { IfOk result (λ n. IfSome (written self.old) (λ w. written self.new ≡ Some (w ++ take n piece.now))) }
        ensures err { OnErr result (written self.new ≡ written self.old) }
        ensures cause { HasCause (faults self.old) (faults self.new) result };
}
