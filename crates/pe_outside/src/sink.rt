//! An output that takes bytes in pieces.

ghost use Rattle.std.specs.Prelude.{◌≡◌, ◌<◌, ◌≤◌, ℕ, List, [], Option, length, take, IfOk, OnOk, OnErr, IsOk};
ghost use Rattle.pe_outside.specs.Outside.{HasRisen, grown, GrowsByPrefix};

use crate::files::Failed;

/// An output. A thing that tells has the bytes that were written, and counts the faults. The count never falls, and
/// one that is kept in 64 bits stands still at its last value.
pub trait Sink {
    /// The bytes that were written so far, or `None` where the thing does not tell.
    ghost written: { Self → Option (List ℕ) };

    /// How many faults were met.
    ghost faults: { Self → ℕ };

    /// Takes at least one byte from the front of `bytes`, appends what it takes, and answers how many that are. It
    /// answers `Failed` only where the count rose, and has then appended nothing.
    fn write(&mut self, bytes: &[u8]) -> Result<usize, Failed>
        requires { 0 < length bytes.now }
        ensures some { IfOk result (λ taken. 0 < taken) }
        ensures within { IfOk result (λ taken. taken ≤ length bytes.now) }
        ensures appended { IfOk result (λ taken.
            written self.new ≡ grown (written self.old) (take taken bytes.now)) }
        ensures unchanged { OnErr result (written self.new ≡ written self.old) }
        ensures counted { faults self.old ≤ faults self.new }
        ensures fault { OnErr result (HasRisen (faults self.old) (faults self.new)) };
}

/// Writes all of `bytes`, each time offering all that is left. At `Failed`, a write failed and the count rose: then a
/// part of the front of `bytes` was written. No bytes are always written, without a call.
pub fn write_all<S: Sink>(sink: &mut S, bytes: &[u8]) -> Result<(), Failed>
    ensures whole { OnOk result (S.written sink.new ≡ grown (S.written sink.old) bytes.now) }
    ensures part { OnErr result (GrowsByPrefix (S.written sink.old) (S.written sink.new) bytes.now) }
    ensures fault { OnErr result (HasRisen (S.faults sink.old) (S.faults sink.new)) }
    ensures counted { S.faults sink.old ≤ S.faults sink.new }
    ensures empty { bytes.now ≡ [] → IsOk result }
    ensures untouched { bytes.now ≡ [] → sink.new ≡ sink.old }
{
    let mut at = 0;
    while at < bytes.len() {
        at += sink.write(&bytes[at..])?;
    }
    Ok(())
}
