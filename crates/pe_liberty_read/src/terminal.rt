//! From tokens to the terminals of the grammar.

ghost use Rattle.std.specs.Prelude.{◌≡◌, ◌≤◌, length, IfOk};
ghost use Rattle.pe_liberty_read.specs.Terminals.{mark_of, terminal_of, terminals_of};

use crate::liberty_table::{
    BEGIN, CLOSE, COLON, COMMA, END, LIBRARY, LINE, OPEN, SEMI, TEXT, VALUE, WORD,
};
use pe_grammar::Token as Terminal;
use pe_reader::between;
use pe_text::{Kind, Token};
use sqlite_items::Items;
use std::alloc::{AllocError, Global};

/// The mark that is this byte.
fn mark(byte: u8) -> u16
    ensures { result ≡ mark_of byte }
{
    match byte {
        b'(' => OPEN,
        b')' => CLOSE,
        b'{' => BEGIN,
        b'}' => END,
        b':' => COLON,
        b';' => SEMI,
        _ => COMMA,
    }
}

/// The terminal of a token of these bytes.
fn terminal(in_values: bool, kind: Kind, bytes: &[u8]) -> u16
    ensures { result ≡ terminal_of in_values kind bytes.now }
{
    match kind {
        Kind::Mark => mark(bytes.first().copied().unwrap_or(0)),
        Kind::End => LINE,
        _ if in_values => VALUE,
        Kind::Text => TEXT,
        _ if bytes == b"library".as_slice() => LIBRARY,
        _ => WORD,
    }
}

/// The tokens of a text as terminals, each with its number.
pub(crate) fn terminals(
    alloc: Global,
    text: &[u8],
    tokens: &[Token],
) -> Result<Items<Terminal>, AllocError>
    requires { length tokens.now ≤ 16777216 }
    ensures { IfOk result (λ ts. ts ≡ terminals_of text.now tokens.now) }
{
    let mut all = Items::new(alloc);
    let mut in_values = false;
    let mut place: u32 = 0;
    for token in tokens {
        let kind = terminal(
            in_values,
            token.kind,
            between(text, token.span.from, token.span.to),
        );
        all.push(Terminal { kind, place })?;
        in_values = kind == COLON || kind == VALUE;
        place += 1;
    }
    Ok(all)
}
