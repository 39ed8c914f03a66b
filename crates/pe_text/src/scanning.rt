//! What a text shows before its grammar is tried.

ghost use Rattle.std.specs.Prelude.{◌≡◌, ◌≤◌, List, length, OnOk, IfOk, IfErr};
ghost use Rattle.std.specs.List.{All};
ghost use Rattle.pe_text.specs.Language.{class_of};
ghost use Rattle.pe_text.specs.Cut.{IsCut};
ghost use Rattle.pe_text.specs.Lexemes.{IsPartOf, lexemes_of};
ghost use Rattle.pe_text.specs.LeftOut.{first_left_out};
ghost use Rattle.pe_text.specs.Limits.{first_over};
ghost use Rattle.pe_text.specs.Scan.{IsScanned, IsScanFault, IsScanAnswer, IsBadFault, IsLeftOutFault, IsOverFault};

use crate::fault::{LexFault, ReadFault, Which};
use crate::language::Lang;
use crate::laws::{cut_order, one_cut};
use crate::left_out::first_left_out;
use crate::lexing::lex;
use crate::limits::first_over;
use crate::token::{Token, bytes_of};
use pe_base::Name;
use sqlite_items::Items;
use std::alloc::Global;

/// How many bytes a text may have.
const MOST_BYTES: usize = 16_777_216;

/// The tokens of a text of the language, if nothing but its grammar can refuse it.
///
/// A text is refused, in this order, where it has more than 16,777,216 bytes (`Limit` at that byte), where a token is bad
/// (`Syntax` there), at its first word that is left out (`Unsupported`), and at the first token of which a number is over
/// its limit (`Limit`).
pub fn scan(alloc: Global, lang: Lang, text: &[u8]) -> Result<Items<Token>, ReadFault>
    ensures found { IfOk result (λ tokens. IsScanned lang text.now tokens) }
    ensures parts { IfOk result (λ tokens. All (IsPartOf (length text.now)) tokens) }
    ensures only { (tokens : List Token) → IsScanned lang text.now tokens → IsScanAnswer tokens result }
    ensures fault { IfErr result (IsScanFault lang text.now) }
{
    if text.len() > MOST_BYTES {
        return Err(ReadFault::Limit {
            at: 16_777_216,
            which: Which::File,
        });
    }
    one_cut();
    let tokens = match tokens_of(alloc, lang, text) {
        Ok(tokens) => tokens,
        Err(bad) => return Err(bad),
    };
    if let Err(left_out) = allow(alloc, lang, text, tokens.as_slice()) {
        return Err(left_out);
    }
    if let Err(over) = limit(alloc, lang, text, tokens.as_slice()) {
        return Err(over);
    }
    Ok(tokens)
}

/// The tokens of a text of the language.
fn tokens_of(alloc: Global, lang: Lang, text: &[u8]) -> Result<Items<Token>, ReadFault>
    requires short { length text.now ≤ 16777216 }
    ensures found { IfOk result (λ tokens. IsCut (class_of lang) text.now tokens) }
    ensures parts { IfOk result (λ tokens. All (IsPartOf (length text.now)) tokens) }
    ensures bad { IfErr result (IsBadFault lang text.now) }
{
    cut_order();
    match lex(alloc, lang, text) {
        Ok(tokens) => Ok(tokens),
        Err(LexFault::Memory) => Err(ReadFault::Memory),
        Err(LexFault::Bad { at }) => Err(ReadFault::Syntax { at }),
    }
}

/// Refuses the first word that is left out.
fn allow(alloc: Global, lang: Lang, text: &[u8], tokens: &[Token]) -> Result<(), ReadFault>
    requires parts { All (IsPartOf (length text.now)) tokens.now }
    ensures allowed { OnOk result (first_left_out lang (lexemes_of text.now tokens.now) ≡ length tokens.now) }
    ensures fault { IfErr result (IsLeftOutFault lang text.now tokens.now) }
{
    let first = first_left_out(lang, text, tokens);
    if first < tokens.len() {
        let token = tokens[first];
        let word = Name::new(alloc, bytes_of(text, token))?;
        return Err(ReadFault::Unsupported {
            at: token.span.from,
            word,
        });
    }
    Ok(())
}

/// Refuses the first number that is over its limit.
fn limit(alloc: Global, lang: Lang, text: &[u8], tokens: &[Token]) -> Result<(), ReadFault>
    requires parts { All (IsPartOf (length text.now)) tokens.now }
    ensures within { OnOk result (first_over lang (lexemes_of text.now tokens.now) ≡ length tokens.now) }
    ensures fault { IfErr result (IsOverFault lang text.now tokens.now) }
{
    let (first, which) = first_over(alloc, lang, text, tokens)?;
    if first < tokens.len() {
        return Err(ReadFault::Limit {
            at: tokens[first].span.from,
            which,
        });
    }
    Ok(())
}
