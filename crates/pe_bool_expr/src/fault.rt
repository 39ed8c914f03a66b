//! Why a text is no boolean function.

ghost use Rattle.std.specs.Prelude.{◌≡◌};
ghost use Rattle.pe_bool_expr.specs.declared.fault.ExprFault.TheVariants as fault;

use pe_base::Want;
use std::alloc::{AllocError, AllocFailed};
use thiserror::Error;

/// Why a text is not read as a boolean function. Each `at` is a byte of the text, counted from 0.
#[derive(Clone, Copy, Debug, PartialEq, Eq, Error)]
pub enum ExprFault {
    /// Memory could not be had.
    #[error("out of memory")]
    Memory,
    /// The text up to there can be gone on with, and with what stands there it can't.
    #[error("wrong at byte {at}")]
    Syntax { at: u32 },
    /// The name that starts there is not among the names.
    #[error("no such name at byte {at}")]
    NoName { at: u32 },
    /// With what starts there more than 64 parentheses and leading marks are open.
    #[error("nested over 64 at byte {at}")]
    Deep { at: u32 },
    /// The function has more than 10 different names, so many.
    #[error("{count} different names")]
    Inputs { count: u32 },
}

impl From<Want> for ExprFault {
    ghost from_gives = { λ _ e. e ≡ fault.Memory };

    fn from(_want: Want) -> ExprFault {
        ExprFault::Memory
    }
}

impl From<AllocError> for ExprFault {
    ghost from_gives = { λ _ e. e ≡ fault.Memory };

    fn from(_error: AllocError) -> ExprFault {
        ExprFault::Memory
    }
}

impl<T: Drop> From<AllocFailed<T>> for ExprFault {
    ghost from_gives = { λ _ e. e ≡ fault.Memory };

    fn from(_error: AllocFailed<T>) -> ExprFault {
        ExprFault::Memory
    }
}
