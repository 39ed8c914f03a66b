//! Why a text is not read.

ghost use Rattle.std.specs.Prelude.{◌≡◌};

use std::alloc::AllocError;
use thiserror::Error;

/// Why tokens are not read.
#[derive(Clone, Copy, Debug, PartialEq, Eq, Error)]
pub enum Failure {
    /// Memory could not be had.
    #[error("out of memory")]
    Memory,
    /// The number of the first token at which the text can't go on, or the number of tokens where more have to follow.
    #[error("no text goes on so at token {0}")]
    Syntax(usize),
}

/// Where a form can't be read: this many tokens before the end.
#[derive(Clone, Copy)]
pub(crate) enum Stop {
    Memory,
    Left(usize),
}

impl From<AllocError> for Stop {
    ghost use Rattle.pe_grammar.specs.declared.failure.Stop.TheVariants.{Memory};

    ghost from_gives = { λ _ e. e ≡ Memory };

    fn from(_error: AllocError) -> Stop {
        Stop::Memory
    }
}

impl From<AllocError> for Failure {
    ghost use Rattle.pe_grammar.specs.declared.failure.Failure.TheVariants.{Memory};

    ghost from_gives = { λ _ e. e ≡ Memory };

    fn from(_error: AllocError) -> Failure {
        Failure::Memory
    }
}
