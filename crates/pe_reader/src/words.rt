//! The words that the tokens of a text are.

ghost use Rattle.std.specs.Prelude.{◌≡◌, ◌-◌, drop, length, slice_range, IfOk};
ghost use Rattle.pe_reader.specs.Words.{word_at, word_of};

use pe_base::{Name, Want};
use pe_text::{Kind, Token};
use std::alloc::Global;

/// The bytes of a text from one place up to another, as far as they are there: none where the second is not behind the first.
pub fn between(text: &[u8], from: u32, to: u32) -> &[u8]
    ensures { result.now ≡ slice_range text.now from to }
{
    let from = from as usize;
    let to = (to as usize).min(text.len());
    if from < to { &text[from..to] } else { &[] }
}

/// What stands between the quotes of a quoted text.
fn unquoted(bytes: &[u8]) -> &[u8]
    ensures { result.now ≡ slice_range bytes.now 1 (length bytes.now - 1) }
{
    if bytes.len() < 2 {
        &[]
    } else {
        &bytes[1..bytes.len() - 1]
    }
}

/// What stands behind the first byte.
fn behind_first(bytes: &[u8]) -> &[u8]
    ensures { result.now ≡ drop 1 bytes.now }
{
    match bytes.split_first() {
        Some((_, rest)) => rest,
        None => &[],
    }
}

/// The word of a token.
fn word_of(text: &[u8], token: Token) -> &[u8]
    ensures { result.now ≡ word_of text.now token }
{
    let bytes = between(text, token.span.from, token.span.to);
    match token.kind {
        Kind::Text => unquoted(bytes),
        Kind::Escaped => behind_first(bytes),
        _ => bytes,
    }
}

/// The word of the token of this number: of a quoted text what stands between its quotes, of an escaped name what stands
/// behind its backslash, else all its bytes. There is none where there is no such token.
pub fn word<'a>(text: &'a [u8], tokens: &[Token], number: u32) -> &'a [u8]
    ensures { result.now ≡ word_at text.now tokens.now number }
{
    match tokens.get(number as usize) {
        Some(token) => word_of(text, *token),
        None => &[],
    }
}

/// The word of the token of this number, as a name.
pub fn name(alloc: Global, text: &[u8], tokens: &[Token], number: u32) -> Result<Name, Want>
    ensures { IfOk result (λ n. n ≡ word_at text.now tokens.now number) }
{
    Name::new(alloc, word(text, tokens, number))
}
