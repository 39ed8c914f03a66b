//! From derivations to the events of blocks.

ghost use Rattle.std.specs.Prelude.{◌≡◌, IfOk};
ghost use Rattle.pe_grammar.specs.Derivation.{derivation};
ghost use Rattle.pe_grammar.specs.Grammar.{Derives};
ghost use Rattle.pe_verilog_read.specs.Lists.{list_by};
ghost use Rattle.pe_verilog_read.specs.Statements.{edge_at, edge_of, event_of, events_of, listened_of};
ghost use Rattle.pe_verilog_read.specs.Words.{word_at};

use crate::leaf::leaf;
use crate::verilog_table::{
    AT_EVENT, AT_EVENT_LIST, AT_EVENT_LIST_PART_2_EACH, AT_EVENT_PART_1, AT_EVENTS,
    AT_EVENTS_PART_2, AT_EVENTS_PART_2_2, AT_LISTENED, POSEDGE, VERILOG,
};
use crate::words::name;
use pe_grammar::{Tree, listed, parts, side};
use pe_text::Token;
use pe_verilog_ast::{Edge, Event};
use sqlite_items::Items;
use std::alloc::{AllocError, Global};

fn edge(kind: u16) -> Edge
    ensures { result ≡ edge_at kind }
{
    if kind == POSEDGE {
        Edge::Rising
    } else {
        Edge::Falling
    }
}

/// The edge of an event, if it has one.
fn make_edge(tree: &Tree) -> Option<Edge>
    requires { Derives VERILOG AT_EVENT_PART_1 (derivation tree.now) }
    ensures { result ≡ edge_of (derivation tree.now) }
{
    match side(&VERILOG, AT_EVENT_PART_1, tree) {
        Ok(word) => Some(edge(leaf(word).kind)),
        Err(_) => None,
    }
}

fn make_event(
    alloc: Global,
    text: &[u8],
    tokens: &[Token],
    tree: &Tree,
) -> Result<Event, AllocError>
    requires { Derives VERILOG AT_EVENT (derivation tree.now) }
    ensures { IfOk result (λ e. e ≡ event_of (word_at text.now tokens.now) (derivation tree.now)) }
{
    let (edge, net) = parts(&VERILOG, AT_EVENT, tree);
    let edge = make_edge(edge);
    let name = name(alloc, text, tokens, leaf(net).place)?;
    Ok(Event { edge, name })
}

/// Events with `or` or commas between them.
fn make_event_list(
    alloc: Global,
    text: &[u8],
    tokens: &[Token],
    tree: &Tree,
) -> Result<Items<Event>, AllocError>
    requires { Derives VERILOG AT_EVENT_LIST (derivation tree.now) }
    ensures { IfOk result (λ es. es ≡ list_by (event_of (word_at text.now tokens.now)) (derivation tree.now)) }
{
    let (first, rest) = listed(&VERILOG, AT_EVENT_LIST, tree);
    let mut all = Items::new(alloc);
    all.push(make_event(alloc, text, tokens, first)?)?;
    for next in rest {
        let (_, event) = parts(&VERILOG, AT_EVENT_LIST_PART_2_EACH, next);
        all.push(make_event(alloc, text, tokens, event)?)?;
    }
    Ok(all)
}

/// What stands in parentheses behind `@`.
fn make_listened(
    alloc: Global,
    text: &[u8],
    tokens: &[Token],
    tree: &Tree,
) -> Result<Items<Event>, AllocError>
    requires { Derives VERILOG AT_LISTENED (derivation tree.now) }
    ensures { IfOk result (λ es. es ≡ listened_of (word_at text.now tokens.now) (derivation tree.now)) }
{
    match side(&VERILOG, AT_LISTENED, tree) {
        Ok(_) => Ok(Items::new(alloc)),
        Err(list) => make_event_list(alloc, text, tokens, list),
    }
}

/// What stands behind `@`.
pub(crate) fn make_events(
    alloc: Global,
    text: &[u8],
    tokens: &[Token],
    tree: &Tree,
) -> Result<Items<Event>, AllocError>
    requires { Derives VERILOG AT_EVENTS (derivation tree.now) }
    ensures { IfOk result (λ es. es ≡ events_of (word_at text.now tokens.now) (derivation tree.now)) }
{
    match side(&VERILOG, AT_EVENTS, tree) {
        Ok(_) => Ok(Items::new(alloc)),
        Err(list) => {
            let (_, rest) = parts(&VERILOG, AT_EVENTS_PART_2, list);
            let (listened, _) = parts(&VERILOG, AT_EVENTS_PART_2_2, rest);
            make_listened(alloc, text, tokens, listened)
        }
    }
}
