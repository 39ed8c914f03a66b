//! Expressions where they stand in other rules.

ghost use Rattle.std.specs.Prelude.{◌≡◌, IfOk};
ghost use Rattle.pe_grammar.specs.Derivation.{derivation};
ghost use Rattle.pe_grammar.specs.Grammar.{Derives};
ghost use Rattle.pe_verilog_read.specs.Expressions.{ex_of, list_of, named_of, group_of, selection_of};
ghost use Rattle.pe_verilog_read.specs.Words.{word_at};
ghost use Rattle.pe_verilog_read.specs.Targets.{range_of, optional_range_of};

use crate::expression::{make_ex, make_list, make_named, make_select, make_sides};
use crate::rules::{constant, label, whole};
use crate::verilog_table::{
    AT_EX, AT_GROUP, AT_GROUP_2, AT_LABEL_LIST, AT_LIST, AT_OPERAND_PART_2_PART_2, AT_PORT_PART_3,
    AT_RANGE, AT_RANGE_2, AT_SIMPLE_OPERAND_PART_2, VERILOG,
};
use pe_grammar::{Tree, parts, side};
use pe_text::Token;
use pe_verilog_ast::{Ex, Range, Select};
use sqlite_items::Items;
use std::alloc::{AllocError, Global};

/// An expression.
pub(crate) fn expression(
    alloc: Global,
    text: &[u8],
    tokens: &[Token],
    tree: &Tree,
) -> Result<Ex, AllocError>
    requires { Derives VERILOG AT_EX (derivation tree.now) }
    ensures { IfOk result (λ e. e ≡ ex_of (word_at text.now tokens.now) (derivation tree.now)) }
{
    make_ex(alloc, text, tokens, &VERILOG, &whole(), tree)
}

/// Expressions with commas between them.
pub(crate) fn expressions(
    alloc: Global,
    text: &[u8],
    tokens: &[Token],
    tree: &Tree,
) -> Result<Items<Ex>, AllocError>
    requires { Derives VERILOG AT_LIST (derivation tree.now) }
    ensures { IfOk result (λ es. es ≡ list_of (word_at text.now tokens.now) (derivation tree.now)) }
{
    make_list(alloc, text, tokens, &VERILOG, &whole(), tree)
}

/// Labels of `casez`.
pub(crate) fn labels(
    alloc: Global,
    text: &[u8],
    tokens: &[Token],
    tree: &Tree,
) -> Result<Items<Ex>, AllocError>
    requires { Derives VERILOG AT_LABEL_LIST (derivation tree.now) }
    ensures { IfOk result (λ es. es ≡ list_of (word_at text.now tokens.now) (derivation tree.now)) }
{
    make_list(alloc, text, tokens, &VERILOG, &label(), tree)
}

/// A name of a netlist, with an index or without.
pub(crate) fn constant_named(
    alloc: Global,
    text: &[u8],
    tokens: &[Token],
    tree: &Tree,
) -> Result<Ex, AllocError>
    requires { Derives VERILOG AT_SIMPLE_OPERAND_PART_2 (derivation tree.now) }
    ensures { IfOk result (λ e. e ≡ named_of (word_at text.now tokens.now) (derivation tree.now)) }
{
    make_named(alloc, text, tokens, &VERILOG, &constant(), tree)
}

/// An expression in parentheses.
pub(crate) fn group(
    alloc: Global,
    text: &[u8],
    tokens: &[Token],
    tree: &Tree,
) -> Result<Ex, AllocError>
    requires { Derives VERILOG AT_GROUP (derivation tree.now) }
    ensures { IfOk result (λ e. e ≡ group_of (word_at text.now tokens.now) (derivation tree.now)) }
{
    let (_, rest) = parts(&VERILOG, AT_GROUP, tree);
    let (inner, _) = parts(&VERILOG, AT_GROUP_2, rest);
    let whole = expression(alloc, text, tokens, inner)?;
    Ok(whole)
}

/// The index behind a name, if there is one.
pub(crate) fn selection(
    alloc: Global,
    text: &[u8],
    tokens: &[Token],
    tree: &Tree,
) -> Result<Select, AllocError>
    requires { Derives VERILOG AT_OPERAND_PART_2_PART_2 (derivation tree.now) }
    ensures { IfOk result (λ s. s ≡ selection_of (word_at text.now tokens.now) (derivation tree.now)) }
{
    match side(&VERILOG, AT_OPERAND_PART_2_PART_2, tree) {
        Ok(selected) => make_select(alloc, text, tokens, &VERILOG, &whole(), selected),
        Err(_) => Ok(Select::Whole),
    }
}

/// `[left:right]`
pub(crate) fn range(
    alloc: Global,
    text: &[u8],
    tokens: &[Token],
    tree: &Tree,
) -> Result<Range, AllocError>
    requires { Derives VERILOG AT_RANGE (derivation tree.now) }
    ensures { IfOk result (λ r. r ≡ range_of (word_at text.now tokens.now) (derivation tree.now)) }
{
    let (_, rest) = parts(&VERILOG, AT_RANGE, tree);
    let (sides, _) = parts(&VERILOG, AT_RANGE_2, rest);
    let (left, right) = make_sides(alloc, text, tokens, &VERILOG, &whole(), sides)?;
    Ok(Range { left, right })
}

/// A range, if there is one.
pub(crate) fn optional_range(
    alloc: Global,
    text: &[u8],
    tokens: &[Token],
    tree: &Tree,
) -> Result<Option<Range>, AllocError>
    requires { Derives VERILOG AT_PORT_PART_3 (derivation tree.now) }
    ensures { IfOk result (λ r. r ≡ optional_range_of (word_at text.now tokens.now) (derivation tree.now)) }
{
    match side(&VERILOG, AT_PORT_PART_3, tree) {
        Ok(inner) => {
            let range = range(alloc, text, tokens, inner)?;
            Ok(Some(range))
        }
        Err(_) => Ok(None),
    }
}
