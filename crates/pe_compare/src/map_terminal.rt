//! From tokens of a map file to the terminals of its grammar.

ghost use Rattle.std.specs.Prelude.{◌≡◌, ◌≤◌, length, IfOk};
ghost use Rattle.pe_compare.specs.MapTerminals.{first_word_of, next_word_of, terminal_of, terminals_of};

use crate::map_table::{
    CLOCK, DROP, INV, LINE, ONE, PORT, REG, START, STEP, SUPPLY, TIE, TOP, WORD, ZERO,
};
use pe_grammar::Token as Terminal;
use pe_reader::between;
use pe_text::{Kind, Token};
use sqlite_items::Items;
use std::alloc::{AllocError, Global};

/// The first word of a line.
fn first_word(bytes: &[u8]) -> u16
    ensures { result ≡ first_word_of bytes.now }
{
    match bytes {
        _ if bytes == b"top".as_slice() => TOP,
        _ if bytes == b"clock".as_slice() => CLOCK,
        _ if bytes == b"supply".as_slice() => SUPPLY,
        _ if bytes == b"port".as_slice() => PORT,
        _ if bytes == b"tie".as_slice() => TIE,
        _ if bytes == b"reg".as_slice() => REG,
        _ if bytes == b"drop".as_slice() => DROP,
        _ if bytes == b"start".as_slice() => START,
        _ if bytes == b"step".as_slice() => STEP,
        _ => WORD,
    }
}

/// A word behind the first.
fn next_word(bytes: &[u8]) -> u16
    ensures { result ≡ next_word_of bytes.now }
{
    match bytes {
        _ if bytes == b"inv".as_slice() => INV,
        _ if bytes == b"0".as_slice() => ZERO,
        _ if bytes == b"1".as_slice() => ONE,
        _ => WORD,
    }
}

/// The terminal of a token of these bytes.
fn terminal(is_first: bool, kind: Kind, bytes: &[u8]) -> u16
    ensures { result ≡ terminal_of is_first kind bytes.now }
{
    match kind {
        Kind::End => LINE,
        _ if is_first => first_word(bytes),
        _ => next_word(bytes),
    }
}

/// The tokens of a text as terminals, each with its number, and one more end of a line.
pub(crate) fn terminals(
    alloc: Global,
    text: &[u8],
    tokens: &[Token],
) -> Result<Items<Terminal>, AllocError>
    requires { length tokens.now ≤ 16777216 }
    ensures { IfOk result (λ ts. ts ≡ terminals_of text.now tokens.now) }
{
    let mut all = Items::new(alloc);
    let mut is_first = true;
    let mut place: u32 = 0;
    for token in tokens {
        let kind = terminal(
            is_first,
            token.kind,
            between(text, token.span.from, token.span.to),
        );
        all.push(Terminal { kind, place })?;
        is_first = kind == LINE;
        place += 1;
    }
    all.push(Terminal { kind: LINE, place })?;
    Ok(all)
}
