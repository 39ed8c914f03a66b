//! From tokens to the terminals of the grammars.

ghost use Rattle.std.specs.Prelude.{◌≡◌, ◌≤◌, length, slice_index, IfOk};
ghost use Rattle.pe_text.specs.Cut.{AreInOrder};
ghost use Rattle.pe_bool_expr.specs.Terminals.{terminal_of, terminals_from, role_of, liberty_mark as liberty_mark_of, upf_mark as upf_mark_of, is_zero as zero_is};

use crate::style::Style;
use crate::{liberty_table as liberty, upf_table as upf};
use pe_grammar::Token;
use pe_text::{Kind, Token as Piece, part};
use sqlite_items::Items;
use std::alloc::{AllocError, Global};

/// What a terminal does.
#[derive(Clone, Copy, Debug, PartialEq, Eq)]
pub(crate) enum Role {
    /// A mark before an operand.
    Leading,
    /// An opening parenthesis.
    Opening,
    /// A closing one.
    Closing,
    /// A name, 0 or 1.
    Operand,
    /// A mark behind an operand.
    Trailing,
    /// An operator between two operands.
    Joining,
}

/// What a terminal of a style does.
pub(crate) fn role_in(style: Style, kind: u16) -> Role
    ensures { result ≡ role_of style kind }
{
    match style {
        Style::Liberty => match kind {
            liberty::BANG => Role::Leading,
            liberty::PRIME => Role::Trailing,
            liberty::OPEN => Role::Opening,
            liberty::CLOSE => Role::Closing,
            _ if liberty::NAME <= kind => Role::Operand,
            _ => Role::Joining,
        },
        Style::Upf => match kind {
            upf::BANG | upf::TILDE => Role::Leading,
            upf::OPEN => Role::Opening,
            upf::CLOSE => Role::Closing,
            _ if upf::NAME <= kind => Role::Operand,
            _ => Role::Joining,
        },
    }
}

/// The byte at a place, or 0 past the end.
fn byte_at(bytes: &[u8], at: usize) -> u8
    ensures { result ≡ slice_index bytes.now at }
{
    bytes.get(at).copied().unwrap_or(0)
}

fn is_zero(bytes: &[u8]) -> bool
    ensures { result ≡ zero_is bytes.now }
{
    byte_at(bytes, 0) == b'0' || byte_at(bytes, 3) == b'0'
}

fn liberty_mark(byte: u8) -> u16
    ensures { result ≡ liberty_mark_of byte }
{
    match byte {
        b'+' => liberty::PLUS,
        b'|' => liberty::BAR,
        b'*' => liberty::STAR,
        b'&' => liberty::AND,
        b'^' => liberty::CARET,
        b'!' => liberty::BANG,
        b'\'' => liberty::PRIME,
        b'(' => liberty::OPEN,
        _ => liberty::CLOSE,
    }
}

fn upf_mark(first: u8, second: u8) -> u16
    ensures { result ≡ upf_mark_of first second }
{
    match first {
        b'!' => upf::BANG,
        b'~' => upf::TILDE,
        b'&' => {
            if second == b'&' {
                upf::AND_AND
            } else {
                upf::AND
            }
        }
        b'^' => upf::CARET,
        b'|' => {
            if second == b'|' {
                upf::BAR_BAR
            } else {
                upf::BAR
            }
        }
        b'(' => upf::OPEN,
        _ => upf::CLOSE,
    }
}

/// The terminal of a token.
fn terminal(style: Style, kind: Kind, bytes: &[u8]) -> u16
    ensures { result ≡ terminal_of style kind bytes.now }
{
    match style {
        Style::Liberty => match kind {
            Kind::Word => liberty::NAME,
            Kind::Number if is_zero(bytes) => liberty::ZERO,
            Kind::Number => liberty::ONE,
            _ => liberty_mark(byte_at(bytes, 0)),
        },
        Style::Upf => match kind {
            Kind::Word => upf::NAME,
            Kind::Number if is_zero(bytes) => upf::ZERO,
            Kind::Number => upf::ONE,
            _ => upf_mark(byte_at(bytes, 0), byte_at(bytes, 1)),
        },
    }
}

/// The tokens of a text as terminals, each with its number in the list.
pub(crate) fn terminals(
    alloc: Global,
    style: Style,
    text: &[u8],
    pieces: &[Piece],
) -> Result<Items<Token>, AllocError>
    requires order { AreInOrder 0 (length text.now) pieces.now }
    requires short { length text.now ≤ 16777216 }
    ensures { IfOk result (λ ts. ts ≡ terminals_from style text.now 0 pieces.now) }
{
    let mut all = Items::new(alloc);
    let mut place: u32 = 0;
    for piece in pieces {
        let kind = terminal(style, piece.kind, part(text, piece.span));
        all.push(Token { kind, place })?;
        place += 1;
    }
    Ok(all)
}
