//! From derivations to ports.

ghost use Rattle.std.specs.Prelude.{◌≡◌, IfOk};
ghost use Rattle.pe_grammar.specs.Derivation.{derivation};
ghost use Rattle.pe_grammar.specs.Grammar.{Derives};
ghost use Rattle.pe_verilog_read.specs.Items.{direction_at, kind_at, kind_of, port_of, more_names_of, port_item_of};
ghost use Rattle.pe_verilog_read.specs.Words.{word_at};

use crate::leaf::leaf;
use crate::verilog_table::{
    AT_PORT, AT_PORT_2, AT_PORT_3, AT_PORT_ITEM, AT_PORT_ITEM_2, AT_PORT_ITEM_PART_2,
    AT_PORT_ITEM_PART_2_EACH, AT_PORT_PART_2, INPUT, OUTPUT, VERILOG, WIRE,
};
use crate::whole::optional_range;
use crate::words::name;
use pe_base::Name;
use pe_grammar::{Tree, items, parts, side};
use pe_text::Token;
use pe_verilog_ast::{Dir, Item, NetKind, Port};
use sqlite_items::Items;
use std::alloc::{AllocError, Global};

fn direction(kind: u16) -> Dir
    ensures { result ≡ direction_at kind }
{
    match kind {
        INPUT => Dir::Input,
        OUTPUT => Dir::Output,
        _ => Dir::Inout,
    }
}

fn net_kind(kind: u16) -> NetKind
    ensures { result ≡ kind_at kind }
{
    if kind == WIRE {
        NetKind::Wire
    } else {
        NetKind::Reg
    }
}

/// What a port is declared as, if it says so.
fn make_kind(tree: &Tree) -> Option<NetKind>
    requires { Derives VERILOG AT_PORT_PART_2 (derivation tree.now) }
    ensures { result ≡ kind_of (derivation tree.now) }
{
    match side(&VERILOG, AT_PORT_PART_2, tree) {
        Ok(word) => Some(net_kind(leaf(word).kind)),
        Err(_) => None,
    }
}

/// A declaration of a port.
pub(crate) fn make_port(
    alloc: Global,
    text: &[u8],
    tokens: &[Token],
    tree: &Tree,
) -> Result<Port, AllocError>
    requires { Derives VERILOG AT_PORT (derivation tree.now) }
    ensures { IfOk result (λ r. r ≡ port_of (word_at text.now tokens.now) (derivation tree.now)) }
{
    let (dir, rest) = parts(&VERILOG, AT_PORT, tree);
    let (kind, rest) = parts(&VERILOG, AT_PORT_2, rest);
    let (range, port) = parts(&VERILOG, AT_PORT_3, rest);
    let dir = direction(leaf(dir).kind);
    let kind = make_kind(kind);
    let range = optional_range(alloc, text, tokens, range)?;
    let name = name(alloc, text, tokens, leaf(port).place)?;
    Ok(Port {
        dir,
        kind,
        range,
        name,
    })
}

/// Further names behind commas.
fn make_more_names(
    alloc: Global,
    text: &[u8],
    tokens: &[Token],
    tree: &Tree,
) -> Result<Items<Name>, AllocError>
    requires { Derives VERILOG AT_PORT_ITEM_PART_2 (derivation tree.now) }
    ensures { IfOk result (λ r. r ≡ more_names_of (word_at text.now tokens.now) (derivation tree.now)) }
{
    let mut all = Items::new(alloc);
    for next in items(&VERILOG, AT_PORT_ITEM_PART_2, tree) {
        let (_, port) = parts(&VERILOG, AT_PORT_ITEM_PART_2_EACH, next);
        all.push(name(alloc, text, tokens, leaf(port).place)?)?;
    }
    Ok(all)
}

/// Ports of one direction, kind and range.
pub(crate) fn make_port_item(
    alloc: Global,
    text: &[u8],
    tokens: &[Token],
    tree: &Tree,
) -> Result<Item, AllocError>
    requires { Derives VERILOG AT_PORT_ITEM (derivation tree.now) }
    ensures { IfOk result (λ r. r ≡ port_item_of (word_at text.now tokens.now) (derivation tree.now)) }
{
    let (port, rest) = parts(&VERILOG, AT_PORT_ITEM, tree);
    let (names, _) = parts(&VERILOG, AT_PORT_ITEM_2, rest);
    let first = make_port(alloc, text, tokens, port)?;
    let more = make_more_names(alloc, text, tokens, names)?;
    Ok(Item::Port { first, more })
}
