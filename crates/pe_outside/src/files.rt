//! Files that are read by name and place.

ghost use Rattle.std.specs.Prelude.{◌≡◌, ◌≤◌, ℕ, List, Option, length, IfOk, OnErr, IfSome};
ghost use Rattle.pe_outside.specs.Outside.{HasRisen, IsPlaced, EndsOnly};

use thiserror::Error;

/// A read or a write failed, and a count of faults rose. It says no more.
#[derive(Clone, Copy, Debug, PartialEq, Eq, Error)]
#[error("a read or a write failed")]
pub struct Failed;

/// Reads of files by name. A thing that tells has a list of bytes for each name, which no read changes, and counts
/// the faults of each name. The count never falls, and one that is kept in 64 bits stands still at its last value.
pub trait Files {
    /// The bytes of each name, or `None` where the thing does not tell.
    ghost told: { Self → List ℕ → Option (List ℕ) };

    /// How many faults were met at each name.
    ghost faults: { Self → List ℕ → ℕ };

    /// Places bytes of the file `name`, counted in bytes from `at` on, at the front of `into`, and answers how many.
    /// It answers 0 only for an empty slice or at the end, and `Failed` only where the count of that name rose, as
    /// where no file has that name.
    fn read_at(&mut self, name: &str, at: u64, into: &mut [u8]) -> Result<usize, Failed>
        ensures told { (other : List ℕ) → told self.new other ≡ told self.old other }
        ensures counted { (other : List ℕ) → faults self.old other ≤ faults self.new other }
        ensures within { IfOk result (λ placed. placed ≤ length into.old) }
        ensures length { length into.new ≡ length into.old }
        ensures bytes { IfOk result (λ placed. IfSome (told self.old name.now)
            (λ bytes. IsPlaced bytes at placed into.new)) }
        ensures end { IfOk result (λ placed. IfSome (told self.old name.now)
            (λ bytes. EndsOnly bytes at placed (length into.old))) }
        ensures fault { OnErr result (HasRisen (faults self.old name.now) (faults self.new name.now)) };
}
