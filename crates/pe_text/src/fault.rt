//! Why a text is not cut, and why it is not read.

ghost use Rattle.std.specs.Prelude.{◌≡◌};
ghost use Rattle.pe_text.specs.declared.fault.LexFault.TheVariants as lex;
ghost use Rattle.pe_text.specs.declared.fault.ReadFault.TheVariants as read;
ghost use Rattle.pe_text.specs.Faults.{read_fault_of};

use pe_base::{Name, Want};
use std::alloc::{AllocError, AllocFailed};
use thiserror::Error;

/// Why a text is not cut into tokens.
#[derive(Clone, Copy, Debug, PartialEq, Eq, Error)]
pub enum LexFault {
    /// Memory could not be had.
    #[error("out of memory")]
    Memory,
    /// No token of the language starts at this byte, or one that does is not closed. Bytes are counted from 0.
    #[error("no token at byte {at}")]
    Bad { at: u32 },
}

impl From<Want> for LexFault {
    ghost from_gives = { λ _ e. e ≡ lex.Memory };

    fn from(_want: Want) -> LexFault {
        LexFault::Memory
    }
}

impl From<AllocError> for LexFault {
    ghost from_gives = { λ _ e. e ≡ lex.Memory };

    fn from(_error: AllocError) -> LexFault {
        LexFault::Memory
    }
}

impl<T: Drop> From<AllocFailed<T>> for LexFault {
    ghost from_gives = { λ _ e. e ≡ lex.Memory };

    fn from(_error: AllocFailed<T>) -> LexFault {
        LexFault::Memory
    }
}

/// What a text has too much of.
#[derive(Clone, Copy, Debug, PartialEq, Eq)]
pub enum Which {
    /// Bytes.
    File,
    /// Things that are open at once.
    Nesting,
    /// Bits of a number or of a range.
    Width,
    /// Names of a boolean function.
    Inputs,
}

/// Why a text is not read. Each `at` is a byte of the text, counted from 0.
#[derive(Debug, Drop, Error)]
pub enum ReadFault {
    /// Memory could not be had.
    #[error("out of memory")]
    Memory,
    /// The text up to there can be gone on with, and with what stands there it can't.
    #[error("wrong at byte {at}")]
    Syntax { at: u32 },
    /// A word of the whole language that no text which is accepted has.
    #[error("left out at byte {at}")]
    Unsupported { at: u32, word: Name },
    /// The text has more of something than is read.
    #[error("too much at byte {at}")]
    Limit { at: u32, which: Which },
}

impl From<Want> for ReadFault {
    ghost from_gives = { λ _ e. e ≡ read.Memory };

    fn from(_want: Want) -> ReadFault {
        ReadFault::Memory
    }
}

impl From<AllocError> for ReadFault {
    ghost from_gives = { λ _ e. e ≡ read.Memory };

    fn from(_error: AllocError) -> ReadFault {
        ReadFault::Memory
    }
}

impl<T: Drop> From<AllocFailed<T>> for ReadFault {
    ghost from_gives = { λ _ e. e ≡ read.Memory };

    fn from(_error: AllocFailed<T>) -> ReadFault {
        ReadFault::Memory
    }
}

/// A bad token is wrong where it starts.
impl From<LexFault> for ReadFault {
    ghost from_gives = { λ fault e. e ≡ read_fault_of fault };

    fn from(fault: LexFault) -> ReadFault {
        match fault {
            LexFault::Memory => ReadFault::Memory,
            LexFault::Bad { at } => ReadFault::Syntax { at },
        }
    }
}
