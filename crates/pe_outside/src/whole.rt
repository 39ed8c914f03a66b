//! A file as a whole.

ghost use Rattle.std.specs.Prelude.{◌≡◌, ◌≢◌, ◌≤◌, ◌⊎◌, ℕ, ◌+◌, List, length, IfOk, OnOk, IfSome, IsErrOf, vec_len};
ghost use Rattle.pe_outside.specs.Outside.{HasRisen, EndsOnly, IsFront};
ghost use Rattle.pe_outside.specs.declared.whole.WholeFault.TheVariants.{Memory, Failed as HasFailed};

use crate::files::{Failed, Files};
use sqlite_items::Items;
use std::alloc::{AllocError, Global};
use thiserror::Error;

/// The most bytes of a file that is read: 16 MiB.
const MOST: usize = 16_777_216;

/// The most bytes that one read asks for.
const PIECE: usize = 65_536;

/// Why a file was not read as a whole.
#[derive(Clone, Copy, Debug, PartialEq, Eq, Error)]
pub enum WholeFault {
    /// Memory could not be had.
    #[error("out of memory")]
    Memory,
    /// A read failed, or no file has that name.
    #[error("a read failed")]
    Failed,
    /// More than 16,777,216 bytes were given.
    #[error("the file is longer than 16777216 bytes")]
    TooLong,
}

impl From<AllocError> for WholeFault {
    ghost from_gives = { λ _ fault. fault ≡ Memory };

    fn from(_error: AllocError) -> WholeFault {
        WholeFault::Memory
    }
}

impl From<Failed> for WholeFault {
    ghost from_gives = { λ _ fault. fault ≡ HasFailed };

    fn from(_error: Failed) -> WholeFault {
        WholeFault::Failed
    }
}

/// A buffer of so many bytes.
fn buffer_of(alloc: Global, length: usize) -> Result<Vec<u8>, AllocError>
    ensures { IfOk result (λ buffer. vec_len buffer ≡ length) }
{
    vec![in alloc; 0; length]
}

/// Reads one piece of the file, from the end of `bytes` on, and appends it. It answers how many bytes that are.
fn read_piece<F: Files>(
    files: &mut F,
    name: &str,
    piece: &mut [u8],
    bytes: &mut Vec<u8>,
) -> Result<usize, WholeFault>
    ensures told { (other : List ℕ) → F.told files.new other ≡ F.told files.old other }
    ensures counted { (other : List ℕ) → F.faults files.old other ≤ F.faults files.new other }
    ensures within { IfOk result (λ read. read ≤ length piece.old) }
    ensures grows { IfOk result (λ read. vec_len bytes.new ≡ vec_len bytes.old + read) }
    ensures front { OnOk result (IfSome (F.told files.old name.now)
        (λ whole. IsFront bytes.old.items whole → IsFront bytes.new.items whole)) }
    ensures end { IfOk result (λ read. IfSome (F.told files.old name.now)
        (λ whole. EndsOnly whole (vec_len bytes.old) read (length piece.old))) }
    ensures failed { IsErrOf result WholeFault.Failed
        → HasRisen (F.faults files.old name.now) (F.faults files.new name.now) }
    ensures not_too_long { result ≢ Err WholeFault.TooLong }
{
    let read = files.read_at(name, bytes.len() as u64, piece)?;
    bytes.extend_from_slice(&piece[..read])?;
    Ok(read)
}

/// Reads the file `name` as a whole, if it has at most 16,777,216 bytes. It answers `Memory` where memory could not
/// be had, `Failed` where a read failed and the count of that name rose, and `TooLong` where 16,777,217 bytes were
/// given. It asks for no byte behind those.
pub fn read_whole<F: Files>(
    alloc: Global,
    files: &mut F,
    name: &str,
) -> Result<Items<u8>, WholeFault>
    ensures told { (other : List ℕ) → F.told files.new other ≡ F.told files.old other }
    ensures counted { (other : List ℕ) → F.faults files.old other ≤ F.faults files.new other }

    ensures whole { IfOk result (λ all. IfSome (F.told files.old name.now) (λ bytes. all ≡ bytes)) }
    ensures within { IfOk result (λ all. length all ≤ 16777216) }

    ensures failed { IsErrOf result WholeFault.Failed
        → HasRisen (F.faults files.old name.now) (F.faults files.new name.now) }
    ensures too_long { IsErrOf result WholeFault.TooLong
        → IfSome (F.told files.old name.now) (λ bytes. 16777217 ≤ length bytes) }

    // A file over the limit is refused as such, but where a read failed or memory could not be had.
    ensures over { IfSome (F.told files.old name.now) (λ bytes. 16777217 ≤ length bytes
        → ¬ (HasRisen (F.faults files.old name.now) (F.faults files.new name.now))
        → IsErrOf result WholeFault.TooLong ⊎ IsErrOf result WholeFault.Memory) }
{
    let mut piece = buffer_of(alloc, PIECE)?;
    let mut bytes = Vec::new(alloc);
    while bytes.len() <= MOST {
        let room = PIECE.min(MOST + 1 - bytes.len());
        if read_piece(files, name, &mut piece[..room], &mut bytes)? == 0 {
            return Ok(Items::from_vec(bytes));
        }
    }
    Err(WholeFault::TooLong)
}
