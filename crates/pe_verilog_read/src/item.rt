//! From derivations to items of RTL, rule by rule.

ghost use Rattle.std.specs.Prelude.{◌≡◌, false, IfOk};
ghost use Rattle.pe_grammar.specs.Derivation.{derivation};
ghost use Rattle.pe_grammar.specs.Grammar.{Derives};
ghost use Rattle.pe_verilog_read.specs.Items.{setting_of, parameters_of, reg_of, regs_of, always_of, plain_of, item_of};
ghost use Rattle.pe_verilog_read.specs.Lists.{list_by};
ghost use Rattle.pe_verilog_read.specs.Words.{word_at};

use crate::event::make_events;
use crate::leaf::leaf;
use crate::plain::rtl;
use crate::plain_item::make_plain;
use crate::statement::make_statement;
use crate::verilog_table::{
    AT_ALWAYS, AT_ALWAYS_2, AT_ALWAYS_3, AT_ITEM, AT_ITEM_2, AT_ITEM_3, AT_NAMES,
    AT_NAMES_PART_2_EACH, AT_PARAMETERS, AT_PARAMETERS_2, AT_PARAMETERS_3, AT_PLAIN, AT_REGS,
    AT_REGS_2, AT_REGS_3, AT_SETTING, AT_SETTING_2, AT_SETTINGS, AT_SETTINGS_PART_2_EACH,
    AT_TOKEN_NAME, LOCALPARAM, VERILOG,
};
use crate::whole::{expression, optional_range};
use crate::words::name;
use pe_base::Name;
use pe_grammar::{Tree, listed, parts, side};
use pe_text::Token;
use pe_verilog_ast::{Ex, Item, NetKind};
use sqlite_items::Items;
use std::alloc::{AllocError, Global};

/// A parameter and its value.
pub(crate) fn make_setting(
    alloc: Global,
    text: &[u8],
    tokens: &[Token],
    tree: &Tree,
) -> Result<(Name, Ex), AllocError>
    requires { Derives VERILOG AT_SETTING (derivation tree.now) }
    ensures { IfOk result (λ r. r ≡ setting_of (word_at text.now tokens.now) (derivation tree.now)) }
{
    let (parameter, rest) = parts(&VERILOG, AT_SETTING, tree);
    let (_, value) = parts(&VERILOG, AT_SETTING_2, rest);
    let name = name(alloc, text, tokens, leaf(parameter).place)?;
    let value = expression(alloc, text, tokens, value)?;
    Ok((name, value))
}

/// Parameters with commas between them.
fn make_settings(
    alloc: Global,
    text: &[u8],
    tokens: &[Token],
    tree: &Tree,
) -> Result<Items<(Name, Ex)>, AllocError>
    requires { Derives VERILOG AT_SETTINGS (derivation tree.now) }
    ensures { IfOk result (λ r. r ≡ list_by (setting_of (word_at text.now tokens.now)) (derivation tree.now)) }
{
    let (first, rest) = listed(&VERILOG, AT_SETTINGS, tree);
    let mut all = Items::new(alloc);
    all.push(make_setting(alloc, text, tokens, first)?)?;
    for next in rest {
        let (_, setting) = parts(&VERILOG, AT_SETTINGS_PART_2_EACH, next);
        all.push(make_setting(alloc, text, tokens, setting)?)?;
    }
    Ok(all)
}

/// A declaration of parameters.
fn make_parameter_item(
    alloc: Global,
    text: &[u8],
    tokens: &[Token],
    tree: &Tree,
) -> Result<Item, AllocError>
    requires { Derives VERILOG AT_PARAMETERS (derivation tree.now) }
    ensures { IfOk result (λ r. r ≡ parameters_of (word_at text.now tokens.now) (derivation tree.now)) }
{
    let (word, rest) = parts(&VERILOG, AT_PARAMETERS, tree);
    let (range, rest) = parts(&VERILOG, AT_PARAMETERS_2, rest);
    let (list, _) = parts(&VERILOG, AT_PARAMETERS_3, rest);
    let local = leaf(word).kind == LOCALPARAM;
    let range = optional_range(alloc, text, tokens, range)?;
    let values = make_settings(alloc, text, tokens, list)?;
    Ok(Item::Param {
        local,
        range,
        values,
    })
}

/// A register of a declaration.
fn make_reg(
    alloc: Global,
    text: &[u8],
    tokens: &[Token],
    tree: &Tree,
) -> Result<(Name, Option<Ex>), AllocError>
    requires { Derives VERILOG AT_TOKEN_NAME (derivation tree.now) }
    ensures { IfOk result (λ r. r ≡ reg_of (word_at text.now tokens.now) (derivation tree.now)) }
{
    let name = name(alloc, text, tokens, leaf(tree).place)?;
    Ok((name, None))
}

/// Registers with commas between them.
fn make_reg_list(
    alloc: Global,
    text: &[u8],
    tokens: &[Token],
    tree: &Tree,
) -> Result<Items<(Name, Option<Ex>)>, AllocError>
    requires { Derives VERILOG AT_NAMES (derivation tree.now) }
    ensures { IfOk result (λ r. r ≡ list_by (reg_of (word_at text.now tokens.now)) (derivation tree.now)) }
{
    let (first, rest) = listed(&VERILOG, AT_NAMES, tree);
    let mut all = Items::new(alloc);
    all.push(make_reg(alloc, text, tokens, first)?)?;
    for next in rest {
        let (_, reg) = parts(&VERILOG, AT_NAMES_PART_2_EACH, next);
        all.push(make_reg(alloc, text, tokens, reg)?)?;
    }
    Ok(all)
}

/// A declaration of registers.
fn make_regs(alloc: Global, text: &[u8], tokens: &[Token], tree: &Tree) -> Result<Item, AllocError>
    requires { Derives VERILOG AT_REGS (derivation tree.now) }
    ensures { IfOk result (λ r. r ≡ regs_of (word_at text.now tokens.now) (derivation tree.now)) }
{
    let (_, rest) = parts(&VERILOG, AT_REGS, tree);
    let (range, rest) = parts(&VERILOG, AT_REGS_2, rest);
    let (list, _) = parts(&VERILOG, AT_REGS_3, rest);
    let range = optional_range(alloc, text, tokens, range)?;
    let nets = make_reg_list(alloc, text, tokens, list)?;
    Ok(Item::Net {
        kind: NetKind::Reg,
        range,
        nets,
    })
}

/// `always`
fn make_always(
    alloc: Global,
    text: &[u8],
    tokens: &[Token],
    tree: &Tree,
) -> Result<Item, AllocError>
    requires { Derives VERILOG AT_ALWAYS (derivation tree.now) }
    ensures { IfOk result (λ r. r ≡ always_of (word_at text.now tokens.now) (derivation tree.now)) }
{
    let (_, rest) = parts(&VERILOG, AT_ALWAYS, tree);
    let (_, rest) = parts(&VERILOG, AT_ALWAYS_2, rest);
    let (events, body) = parts(&VERILOG, AT_ALWAYS_3, rest);
    let events = make_events(alloc, text, tokens, events)?;
    let body = make_statement(alloc, text, tokens, body)?;
    Ok(Item::Always { events, body })
}

/// An item of RTL that a netlist has too.
fn make_common(
    alloc: Global,
    text: &[u8],
    tokens: &[Token],
    tree: &Tree,
) -> Result<Item, AllocError>
    requires { Derives VERILOG AT_PLAIN (derivation tree.now) }
    ensures { IfOk result (λ r. r ≡ plain_of (word_at text.now tokens.now) false (derivation tree.now)) }
{
    make_plain(alloc, text, tokens, &rtl(), tree)
}

/// An item of RTL.
pub(crate) fn make_item(
    alloc: Global,
    text: &[u8],
    tokens: &[Token],
    tree: &Tree,
) -> Result<Item, AllocError>
    requires { Derives VERILOG AT_ITEM (derivation tree.now) }
    ensures { IfOk result (λ r. r ≡ item_of (word_at text.now tokens.now) (derivation tree.now)) }
{
    match side(&VERILOG, AT_ITEM, tree) {
        Ok(plain) => make_common(alloc, text, tokens, plain),
        Err(other) => match side(&VERILOG, AT_ITEM_2, other) {
            Ok(regs) => make_regs(alloc, text, tokens, regs),
            Err(other) => match side(&VERILOG, AT_ITEM_3, other) {
                Ok(parameters) => make_parameter_item(alloc, text, tokens, parameters),
                Err(always) => make_always(alloc, text, tokens, always),
            },
        },
    }
}
