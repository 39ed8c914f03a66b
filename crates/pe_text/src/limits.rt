//! The first number of a text that is over its limit.

ghost use Rattle.std.specs.Prelude.{◌≡◌, ◌≤◌, length, IfOk};
ghost use Rattle.std.specs.List.{All};
ghost use Rattle.pe_text.specs.Lexemes.{IsPartOf, lexemes_of};
ghost use Rattle.pe_text.specs.Limits.{first_too_large, other_number, first_over, number_over};

use crate::fault::Which;
use crate::inputs::first_too_many;
use crate::language::Lang;
use crate::nesting::first_too_deep;
use crate::token::Token;
use crate::width::first_too_wide;
use pe_base::Want;
use std::alloc::Global;

/// Which token is the first of which a number other than what is open is over its limit.
fn first_too_large(alloc: Global, lang: Lang, text: &[u8], tokens: &[Token]) -> Result<usize, Want>
    requires parts { All (IsPartOf (length text.now)) tokens.now }
    ensures { IfOk result (λ i. i ≡ first_too_large lang (lexemes_of text.now tokens.now)) }
{
    match lang {
        Lang::Rtl | Lang::Netlist => Ok(first_too_wide(text, tokens)),
        Lang::Upf => first_too_many(alloc, text, tokens),
        Lang::Liberty | Lang::Map => Ok(tokens.len()),
    }
}

fn other_number(lang: Lang) -> Which
    ensures { result ≡ other_number lang }
{
    match lang {
        Lang::Rtl | Lang::Netlist => Which::Width,
        Lang::Upf | Lang::Liberty | Lang::Map => Which::Inputs,
    }
}

/// Which token is the first of which any number is over its limit, or how many tokens there are where none is, and which
/// number is told there.
pub fn first_over(
    alloc: Global,
    lang: Lang,
    text: &[u8],
    tokens: &[Token],
) -> Result<(usize, Which), Want>
    requires parts { All (IsPartOf (length text.now)) tokens.now }
    ensures place { IfOk result (λ r. r.0 ≡ first_over lang (lexemes_of text.now tokens.now)) }
    ensures within { IfOk result (λ r. r.0 ≤ length tokens.now) }
    ensures number { IfOk result (λ r. r.1 ≡ number_over lang (lexemes_of text.now tokens.now)) }
{
    let deep = first_too_deep(lang, text, tokens);
    let large = first_too_large(alloc, lang, text, tokens)?;
    if deep <= large {
        Ok((deep, Which::Nesting))
    } else {
        Ok((large, other_number(lang)))
    }
}
