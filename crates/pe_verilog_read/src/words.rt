//! Words of tokens.

ghost use Rattle.std.specs.Prelude.{◌≡◌, IfOk};
ghost use Rattle.pe_verilog_read.specs.Words.{word_at};

use pe_base::Name;
use pe_text::Token;
use std::alloc::{AllocError, Global};

/// The word of the token of a number.
#[tactic(auto, unfolding(crate::specs::Words::word_at))]
pub(crate) fn word<'a>(text: &'a [u8], tokens: &[Token], number: u32) -> &'a [u8]
    ensures { result.now ≡ word_at text.now tokens.now number }
{
    pe_reader::word(text, tokens, number)
}

/// The word of the token of a number, as a name.
#[tactic(auto, unfolding(crate::specs::Words::word_at))]
pub(crate) fn name(
    alloc: Global,
    text: &[u8],
    tokens: &[Token],
    number: u32,
) -> Result<Name, AllocError>
    ensures { IfOk result (λ n. n ≡ word_at text.now tokens.now number) }
{
    match pe_reader::name(alloc, text, tokens, number) {
        Ok(name) => Ok(name),
        Err(_) => Err(AllocError),
    }
}
