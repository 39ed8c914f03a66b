//! From derivations to targets, and to what a netlist connects.

ghost use Rattle.std.specs.Prelude.{◌≡◌, IfOk};
ghost use Rattle.pe_grammar.specs.Derivation.{derivation};
ghost use Rattle.pe_grammar.specs.Grammar.{Derives};
ghost use Rattle.pe_verilog_read.specs.Expressions.{simple_of};
ghost use Rattle.pe_verilog_read.specs.Targets.{target_of, targets_of, connected_of, connected_list_of};
ghost use Rattle.pe_verilog_read.specs.Words.{word_at};

use crate::expression::make_number;
use crate::leaf::leaf;
use crate::verilog_table::{
    AT_NAMED_TARGET, AT_SIMPLE, AT_SIMPLE_JOIN, AT_SIMPLE_JOIN_2, AT_SIMPLE_LIST,
    AT_SIMPLE_LIST_PART_2_EACH, AT_SIMPLE_OPERAND, AT_TARGET, AT_TARGET_JOIN, AT_TARGET_JOIN_2,
    AT_TARGETS, AT_TARGETS_PART_2_EACH, AT_TOKEN_NUMBER, VERILOG,
};
use crate::whole::{constant_named, selection};
use crate::words::name;
use pe_grammar::{Tree, listed, parts, side, token};
use pe_text::Token;
use pe_verilog_ast::{Ex, Target};
use sqlite_items::Items;
use std::alloc::{AllocError, Global};

/// What an assignment drives.
#[cycle(targets)]
pub(crate) fn make_target(
    alloc: Global,
    text: &[u8],
    tokens: &[Token],
    tree: &Tree,
) -> Result<Target, AllocError>
    requires { Derives VERILOG AT_TARGET (derivation tree.now) }
    ensures { IfOk result (λ t. t ≡ target_of (word_at text.now tokens.now) (derivation tree.now)) }
{
    match side(&VERILOG, AT_TARGET, tree) {
        Ok(join) => {
            let (_, rest) = parts(&VERILOG, AT_TARGET_JOIN, join);
            let (list, _) = parts(&VERILOG, AT_TARGET_JOIN_2, rest);
            let all = make_targets(alloc, text, tokens, list)?;
            Ok(Target::Join(all))
        }
        Err(named) => {
            let (net, rest) = parts(&VERILOG, AT_NAMED_TARGET, named);
            let name = name(alloc, text, tokens, leaf(net).place)?;
            let select = selection(alloc, text, tokens, rest)?;
            Ok(Target::Net { name, select })
        }
    }
}

/// Targets with commas between them.
#[cycle(targets)]
fn make_targets(
    alloc: Global,
    text: &[u8],
    tokens: &[Token],
    tree: &Tree,
) -> Result<Items<Target>, AllocError>
    requires { Derives VERILOG AT_TARGETS (derivation tree.now) }
    ensures { IfOk result (λ ts. ts ≡ targets_of (word_at text.now tokens.now) (derivation tree.now)) }
{
    let (first, rest) = listed(&VERILOG, AT_TARGETS, tree);
    let mut all = Items::new(alloc);
    all.push(make_target(alloc, text, tokens, first)?)?;
    for next in rest {
        let (_, target) = parts(&VERILOG, AT_TARGETS_PART_2_EACH, next);
        all.push(make_target(alloc, text, tokens, target)?)?;
    }
    Ok(all)
}

/// What a netlist connects: a concatenation, a number, or a name with an index or without.
#[cycle(simple)]
pub(crate) fn make_simple(
    alloc: Global,
    text: &[u8],
    tokens: &[Token],
    tree: &Tree,
) -> Result<Ex, AllocError>
    requires { Derives VERILOG AT_SIMPLE (derivation tree.now) }
    ensures { IfOk result (λ e. e ≡ connected_of (word_at text.now tokens.now) (derivation tree.now)) }
{
    match side(&VERILOG, AT_SIMPLE, tree) {
        Ok(join) => {
            let (_, rest) = parts(&VERILOG, AT_SIMPLE_JOIN, join);
            let (list, _) = parts(&VERILOG, AT_SIMPLE_JOIN_2, rest);
            let all = make_simples(alloc, text, tokens, list)?;
            Ok(Ex::Join(all))
        }
        Err(operand) => make_simple_operand(alloc, text, tokens, operand),
    }
}

/// Such expressions with commas between them.
#[cycle(simple)]
pub(crate) fn make_simples(
    alloc: Global,
    text: &[u8],
    tokens: &[Token],
    tree: &Tree,
) -> Result<Items<Ex>, AllocError>
    requires { Derives VERILOG AT_SIMPLE_LIST (derivation tree.now) }
    ensures { IfOk result (λ es. es ≡ connected_list_of (word_at text.now tokens.now) (derivation tree.now)) }
{
    let (first, rest) = listed(&VERILOG, AT_SIMPLE_LIST, tree);
    let mut all = Items::new(alloc);
    all.push(make_simple(alloc, text, tokens, first)?)?;
    for next in rest {
        let (_, value) = parts(&VERILOG, AT_SIMPLE_LIST_PART_2_EACH, next);
        all.push(make_simple(alloc, text, tokens, value)?)?;
    }
    Ok(all)
}

/// A number, or a name with an index or without.
fn make_simple_operand(
    alloc: Global,
    text: &[u8],
    tokens: &[Token],
    tree: &Tree,
) -> Result<Ex, AllocError>
    requires { Derives VERILOG AT_SIMPLE_OPERAND (derivation tree.now) }
    ensures { IfOk result (λ e. e ≡ simple_of (word_at text.now tokens.now) (derivation tree.now)) }
{
    match side(&VERILOG, AT_SIMPLE_OPERAND, tree) {
        Ok(number) => {
            let number = token(&VERILOG, AT_TOKEN_NUMBER, number);
            make_number(alloc, text, tokens, number.place)
        }
        Err(named) => constant_named(alloc, text, tokens, named),
    }
}
