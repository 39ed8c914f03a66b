//! The names and words that a derivation has.

ghost use Rattle.std.specs.Prelude.{◌≡◌, ◌≤◌, length, IfOk};
ghost use Rattle.pe_grammar.specs.Derivation.{derivation};
ghost use Rattle.pe_reader.specs.Places.{start_of};
ghost use Rattle.pe_upf_read.specs.Names.{is_brace, names_in, name_in, names_of, name_of, terminal_at, end_of, piece_of, piece_from};

use crate::parts::gather;
use crate::table::{CLOSE, OPEN, OTHER};
use pe_base::{Name, Want};
use pe_grammar::{Token as Terminal, Tree};
use pe_reader::{between, name, start_of};
use pe_text::Token;
use sqlite_items::Items;
use std::alloc::Global;

fn is_brace(kind: u16) -> bool
    ensures { result ≡ is_brace kind }
{
    kind == OPEN || kind == CLOSE
}

/// The words of terminals without the braces, in order.
fn names_in(
    alloc: Global,
    text: &[u8],
    tokens: &[Token],
    terminals: &[Terminal],
) -> Result<Items<Name>, Want>
    ensures { IfOk result (λ names. names ≡ names_in text.now tokens.now terminals.now) }
{
    let mut names = Items::new(alloc);
    for terminal in terminals {
        if !is_brace(terminal.kind) {
            names.push(name(alloc, text, tokens, terminal.place)?)?;
        }
    }
    Ok(names)
}

/// The first of them.
fn name_in(
    alloc: Global,
    text: &[u8],
    tokens: &[Token],
    terminals: &[Terminal],
) -> Result<Name, Want>
    ensures { IfOk result (λ n. n ≡ name_in text.now tokens.now terminals.now) }
{
    for terminal in terminals {
        if !is_brace(terminal.kind) {
            return name(alloc, text, tokens, terminal.place);
        }
    }
    Name::new(alloc, b"")
}

/// The words of a tree without the braces, in order.
#[tactic(auto, unfolding(crate::specs::Names::names_of))]
pub(crate) fn make_names(
    alloc: Global,
    text: &[u8],
    tokens: &[Token],
    tree: &Tree,
) -> Result<Items<Name>, Want>
    ensures { IfOk result (λ names. names ≡ names_of text.now tokens.now (derivation tree.now)) }
{
    let mut terminals = Items::new(alloc);
    gather(tree, &mut terminals)?;
    names_in(alloc, text, tokens, terminals.as_slice())
}

/// The first of them.
#[tactic(auto, unfolding(crate::specs::Names::name_of))]
pub(crate) fn make_name(
    alloc: Global,
    text: &[u8],
    tokens: &[Token],
    tree: &Tree,
) -> Result<Name, Want>
    ensures { IfOk result (λ n. n ≡ name_of text.now tokens.now (derivation tree.now)) }
{
    let mut terminals = Items::new(alloc);
    gather(tree, &mut terminals)?;
    name_in(alloc, text, tokens, terminals.as_slice())
}

/// The terminal at a place of a list, or `OTHER`.
fn terminal_at(terminals: &[Terminal], at: usize) -> Terminal
    ensures { result ≡ terminal_at terminals.now at }
{
    match terminals.get(at) {
        Some(terminal) => *terminal,
        None => Terminal {
            kind: OTHER,
            place: 0,
        },
    }
}

/// The byte behind the token of this number.
fn end(text: &[u8], tokens: &[Token], number: usize) -> u32
    requires { length text.now ≤ 16777216 }
    ensures { result ≡ end_of text.now tokens.now number }
{
    match tokens.get(number) {
        Some(token) => token.span.to,
        None => text.len() as u32,
    }
}

/// From a brace to the brace that closes it what stands between the two, or else the word.
fn piece_from(
    alloc: Global,
    text: &[u8],
    tokens: &[Token],
    first: Terminal,
    last: Terminal,
) -> Result<Name, Want>
    requires { length text.now ≤ 16777216 }
    ensures { IfOk result (λ n. n ≡ piece_from text.now tokens.now first last) }
{
    if first.kind == OPEN {
        let from = end(text, tokens, first.place as usize);
        let to = start_of(text, tokens, last.place as usize);
        Name::new(alloc, between(text, from, to))
    } else {
        name(alloc, text, tokens, first.place)
    }
}

/// A word, or what stands between braces.
#[tactic(auto, unfolding(crate::specs::Names::piece_of))]
pub(crate) fn make_piece(
    alloc: Global,
    text: &[u8],
    tokens: &[Token],
    tree: &Tree,
) -> Result<Name, Want>
    requires { length text.now ≤ 16777216 }
    ensures { IfOk result (λ n. n ≡ piece_of text.now tokens.now (derivation tree.now)) }
{
    let mut terminals = Items::new(alloc);
    gather(tree, &mut terminals)?;
    let first = terminal_at(terminals.as_slice(), 0);
    let last = terminal_at(terminals.as_slice(), terminals.len().saturating_sub(1));
    piece_from(alloc, text, tokens, first, last)
}
