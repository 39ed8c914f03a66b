//! From derivations to modules.

ghost use Rattle.std.specs.Prelude.{◌≡◌, IfOk};
ghost use Rattle.pe_grammar.specs.Derivation.{derivation};
ghost use Rattle.pe_grammar.specs.Grammar.{Derives};
ghost use Rattle.pe_verilog_read.specs.Modules.{module_with, item_by, items_of, module_of, source_of};
ghost use Rattle.pe_verilog_read.specs.Plain.{IsPlain};
ghost use Rattle.pe_verilog_read.specs.Words.{word_at};

use crate::head::{make_parameter_head, make_port_head};
use crate::item::make_item;
use crate::leaf::leaf;
use crate::plain::Plain;
use crate::plain_item::make_plain;
use crate::verilog_table::{AT_HEADING, AT_HEADING_2, AT_HEADING_3, VERILOG};
use crate::words::name;
use pe_grammar::{Tree, items, parts};
use pe_text::Token;
use pe_verilog_ast::{Item, Module, Source};
use sqlite_items::Items;
use std::alloc::{AllocError, Global};

/// A module of these items.
fn make_heading(
    alloc: Global,
    text: &[u8],
    tokens: &[Token],
    items: Items<Item>,
    tree: &Tree,
) -> Result<Module, AllocError>
    requires { Derives VERILOG AT_HEADING (derivation tree.now) }
    ensures { IfOk result (λ r. r ≡ module_with (word_at text.now tokens.now) (derivation tree.now) items) }
{
    let (module, rest) = parts(&VERILOG, AT_HEADING, tree);
    let (params, rest) = parts(&VERILOG, AT_HEADING_2, rest);
    let (ports, _) = parts(&VERILOG, AT_HEADING_3, rest);
    let name = name(alloc, text, tokens, leaf(module).place)?;
    let params = make_parameter_head(alloc, text, tokens, params)?;
    let ports = make_port_head(alloc, text, tokens, ports)?;
    Ok(Module {
        name,
        params,
        ports,
        items,
    })
}

/// An item.
fn make_any_item(
    alloc: Global,
    text: &[u8],
    tokens: &[Token],
    places: &Plain,
    tree: &Tree,
) -> Result<Item, AllocError>
    requires plain { IsPlain VERILOG places.now }
    requires derives { Derives VERILOG places.now.item (derivation tree.now) }
    ensures { IfOk result (λ r. r ≡ item_by (word_at text.now tokens.now) places.now.net (derivation tree.now)) }
{
    if places.net {
        make_plain(alloc, text, tokens, places, tree)
    } else {
        make_item(alloc, text, tokens, tree)
    }
}

/// The items of a module.
fn make_items(
    alloc: Global,
    text: &[u8],
    tokens: &[Token],
    places: &Plain,
    tree: &Tree,
) -> Result<Items<Item>, AllocError>
    requires plain { IsPlain VERILOG places.now }
    requires derives { Derives VERILOG places.now.items (derivation tree.now) }
    ensures { IfOk result (λ r. r ≡ items_of (word_at text.now tokens.now) places.now.net (derivation tree.now)) }
{
    let mut all = Items::new(alloc);
    for next in items(&VERILOG, places.items, tree) {
        all.push(make_any_item(alloc, text, tokens, places, next)?)?;
    }
    Ok(all)
}

/// A module.
fn make_module(
    alloc: Global,
    text: &[u8],
    tokens: &[Token],
    places: &Plain,
    tree: &Tree,
) -> Result<Module, AllocError>
    requires plain { IsPlain VERILOG places.now }
    requires derives { Derives VERILOG places.now.module_1 (derivation tree.now) }
    ensures { IfOk result (λ r. r ≡ module_of (word_at text.now tokens.now) places.now.net (derivation tree.now)) }
{
    let (_, rest) = parts(&VERILOG, places.module_1, tree);
    let (heading, rest) = parts(&VERILOG, places.module_2, rest);
    let (list, _) = parts(&VERILOG, places.module_3, rest);
    let all = make_items(alloc, text, tokens, places, list)?;
    let module = make_heading(alloc, text, tokens, all, heading)?;
    Ok(module)
}

/// The modules of a text.
pub(crate) fn make_source(
    alloc: Global,
    text: &[u8],
    tokens: &[Token],
    places: &Plain,
    tree: &Tree,
) -> Result<Source, AllocError>
    requires plain { IsPlain VERILOG places.now }
    requires derives { Derives VERILOG places.now.text (derivation tree.now) }
    ensures { IfOk result (λ r. r ≡ source_of (word_at text.now tokens.now) places.now.net (derivation tree.now)) }
{
    let mut modules = Items::new(alloc);
    for next in items(&VERILOG, places.text, tree) {
        modules.push(make_module(alloc, text, tokens, places, next)?)?;
    }
    Ok(Source { modules })
}
