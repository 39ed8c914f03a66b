//! From derivations to expressions, rule by rule.

ghost use Rattle.std.specs.Prelude.{◌≡◌, ◌≤◌, ◌+◌, ◌<◌, ◌∷◌, length, IfOk};
ghost use Rattle.pe_grammar.specs.Derivation.{derivation};
ghost use Rattle.pe_grammar.specs.Grammar.{Derives};
ghost use Rattle.pe_grammar.specs.Places.{first_at, second_at, IsSequenceAt};
ghost use Rattle.pe_verilog_ast.specs.declared.expression.Ex.TheVariants.{Number, Unary, Choose, Repeat};
ghost use Rattle.pe_verilog_read.specs.Copies.{IsCopy, IsRung};
ghost use Rattle.pe_verilog_read.specs.Expressions.{ex_of, left_of, right_of, level_of, chained, primary_of, braces_of, inner_of, list_of, others_of, simple_of, named_of, select_of, upto_of, selected};
ghost use Rattle.pe_verilog_read.specs.Numbers.{digits_of};
ghost use Rattle.pe_verilog_read.specs.Words.{word_at};

use crate::leaf::{leaf, operator, sign};
use crate::number::number;
use crate::rules::{Rules, Scope};
use crate::words::{name, word};
use pe_grammar::{Entry, Form, Tree, items, listed, parts, second_of, side, token};
use pe_text::Token;
use pe_verilog_ast::{Ex, Operand, Select, UnOp};
use sqlite_items::{Boxed, Items};
use std::alloc::{AllocError, Global};

/// The first form of a form, by its place.
fn first_of(grammar: &[Entry], form: u16) -> u16
    requires { form < length grammar.now }
    ensures { result ≡ first_at grammar.now form }
{
    match grammar[form as usize].form {
        Form::Terminal(_) | Form::Empty => 0,
        Form::Sequence(first, _) => first,
        Form::Choice(first, _) => first,
        Form::Repeat(first) => first,
        Form::Clause(_, first) => first,
        Form::Once(first, _) => first,
    }
}

/// The place of an operator with the operand behind it, in a level of operators.
fn each_of(grammar: &[Entry], level: u16) -> u16
    requires { IsRung grammar.now level }
    ensures sequence { IsSequenceAt grammar.now result }
    ensures is { first_at grammar.now (second_at grammar.now level) ≡ result }
    ensures operand { second_at grammar.now result ≡ level + 1 }
{
    first_of(grammar, second_of(grammar, level))
}

/// A place from which so many levels lead to the operands is a level.
fn has_rung(_grammar: &[Entry], _rules: &Rules, _place: u16, _levels: u16)
    requires copy { IsCopy _grammar.now _rules.now }
    requires some { 0 < _levels }
    requires few { _levels ≤ 9 }
    requires place { _place + _levels ≡ _rules.now.unary }
    ensures { IsRung _grammar.now _place }
{}

/// One operand, or a chain of more.
fn chain(alloc: Global, first: Ex, more: Items<Operand>) -> Result<Ex, AllocError>
    ensures { IfOk result (λ e. e ≡ chained first more) }
{
    if more.is_empty() {
        Ok(first)
    } else {
        Ok(Ex::Chain {
            first: Boxed::new(alloc, first)?,
            more,
        })
    }
}

/// A number.
pub(crate) fn make_number(
    alloc: Global,
    text: &[u8],
    tokens: &[Token],
    place: u32,
) -> Result<Ex, AllocError>
    ensures { IfOk result (λ e. e ≡ Number (digits_of (word_at text.now tokens.now place))) }
{
    let digits = number(alloc, word(text, tokens, place))?;
    Ok(Ex::Number { digits })
}

/// An operator before an operand.
fn unary(alloc: Global, op: UnOp, value: Ex) -> Result<Ex, AllocError>
    ensures { IfOk result (λ e. e ≡ Unary op value) }
{
    let value = Boxed::new(alloc, value)?;
    Ok(Ex::Unary(op, value))
}

/// `?:`
fn choose(alloc: Global, cond: Ex, yes: Ex, no: Ex) -> Result<Ex, AllocError>
    ensures { IfOk result (λ e. e ≡ Choose cond yes no) }
{
    let cond = Boxed::new(alloc, cond)?;
    let yes = Boxed::new(alloc, yes)?;
    let no = Boxed::new(alloc, no)?;
    Ok(Ex::Choose(cond, yes, no))
}

/// A repetition.
fn repeat(alloc: Global, count: Ex, parts: Items<Ex>) -> Result<Ex, AllocError>
    ensures { IfOk result (λ e. e ≡ Repeat count parts) }
{
    let count = Boxed::new(alloc, count)?;
    Ok(Ex::Repeat { count, parts })
}

/// A bit, or a part where a second bound stands.
fn select(alloc: Global, first: Ex, second: Option<Ex>) -> Result<Select, AllocError>
    ensures { IfOk result (λ s. s ≡ selected first second) }
{
    let first = Boxed::new(alloc, first)?;
    match second {
        None => Ok(Select::Bit(first)),
        Some(second) => Ok(Select::Part(first, Boxed::new(alloc, second)?)),
    }
}

/// An expression.
#[cycle(expressions)]
pub(crate) fn make_ex(
    alloc: Global,
    text: &[u8],
    tokens: &[Token],
    grammar: &[Entry],
    rules: &Rules,
    tree: &Tree,
) -> Result<Ex, AllocError>
    requires copy { IsCopy grammar.now rules.now }
    requires derives { Derives grammar.now rules.now.ex (derivation tree.now) }
    ensures { IfOk result (λ e. e ≡ ex_of (word_at text.now tokens.now) (derivation tree.now)) }
{
    let (first, rest) = parts(grammar, rules.ex, tree);
    let first = make_level(alloc, text, tokens, grammar, rules, rules.any, 9, first)?;
    match side(grammar, rules.choice, rest) {
        Ok(chosen) => {
            let (_, sides) = parts(grammar, rules.chosen, chosen);
            let (yes, no) = make_sides(alloc, text, tokens, grammar, rules, sides)?;
            choose(alloc, first, yes, no)
        }
        Err(_) => Ok(first),
    }
}

/// Two expressions with a colon between them.
#[cycle(expressions)]
pub(crate) fn make_sides(
    alloc: Global,
    text: &[u8],
    tokens: &[Token],
    grammar: &[Entry],
    rules: &Rules,
    tree: &Tree,
) -> Result<(Ex, Ex), AllocError>
    requires copy { IsCopy grammar.now rules.now }
    requires derives { Derives grammar.now rules.now.sides (derivation tree.now) }
    ensures { IfOk result (λ e. (e.0 ≡ left_of (word_at text.now tokens.now) (derivation tree.now)) × (e.1 ≡ right_of (word_at text.now tokens.now) (derivation tree.now))) }
{
    let (left, rest) = parts(grammar, rules.sides, tree);
    let (_, right) = parts(grammar, rules.colon, rest);
    let left = make_ex(alloc, text, tokens, grammar, rules, left)?;
    let right = make_ex(alloc, text, tokens, grammar, rules, right)?;
    Ok((left, right))
}

/// An expression of so many levels of operators between two operands, the weakest at this place, or of none with operators
/// before an operand.
#[cycle(expressions)]
fn make_level(
    alloc: Global,
    text: &[u8],
    tokens: &[Token],
    grammar: &[Entry],
    rules: &Rules,
    place: u16,
    levels: u16,
    tree: &Tree,
) -> Result<Ex, AllocError>
    requires copy { IsCopy grammar.now rules.now }
    requires few { levels ≤ 9 }
    requires place { place + levels ≡ rules.now.unary }
    requires derives { Derives grammar.now place (derivation tree.now) }
    ensures { IfOk result (λ e. e ≡ level_of (word_at text.now tokens.now) levels (derivation tree.now)) }
{
    if levels == 0 {
        make_unary(alloc, text, tokens, grammar, rules, tree)
    } else {
        has_rung(grammar, rules, place, levels);
        let (first, more) = make_operands(
            alloc,
            text,
            tokens,
            grammar,
            rules,
            place,
            levels - 1,
            tree,
        )?;
        chain(alloc, first, more)
    }
}

/// The first operand of a level, and the further ones with their operators.
#[cycle(expressions)]
fn make_operands(
    alloc: Global,
    text: &[u8],
    tokens: &[Token],
    grammar: &[Entry],
    rules: &Rules,
    place: u16,
    levels: u16,
    tree: &Tree,
) -> Result<(Ex, Items<Operand>), AllocError>
    requires copy { IsCopy grammar.now rules.now }
    requires rung { IsRung grammar.now place }
    requires few { levels < 9 }
    requires place { place + 1 + levels ≡ rules.now.unary }
    requires derives { Derives grammar.now place (derivation tree.now) }
    ensures { IfOk result (λ e. chained e.0 e.1 ≡ level_of (word_at text.now tokens.now) (levels + 1) (derivation tree.now)) }
{
    let (first, rest) = listed(grammar, place, tree);
    let each = each_of(grammar, place);
    let _last = rules.unary;
    let below = place + 1;
    let mut more = Items::new(alloc);
    for next in rest {
        let (mark, operand) = parts(grammar, each, next);
        let value = make_level(alloc, text, tokens, grammar, rules, below, levels, operand)?;
        more.push(Operand {
            op: operator(leaf(mark).kind),
            value,
        })?;
    }
    let first = make_level(alloc, text, tokens, grammar, rules, below, levels, first)?;
    Ok((first, more))
}

/// An operand with operators before it.
#[cycle(expressions)]
fn make_unary(
    alloc: Global,
    text: &[u8],
    tokens: &[Token],
    grammar: &[Entry],
    rules: &Rules,
    tree: &Tree,
) -> Result<Ex, AllocError>
    requires copy { IsCopy grammar.now rules.now }
    requires derives { Derives grammar.now rules.now.unary (derivation tree.now) }
    ensures { IfOk result (λ e. e ≡ level_of (word_at text.now tokens.now) 0 (derivation tree.now)) }
{
    match side(grammar, rules.unary, tree) {
        Ok(signed) => {
            let (mark, operand) = parts(grammar, rules.signed, signed);
            let value = make_unary(alloc, text, tokens, grammar, rules, operand)?;
            unary(alloc, sign(leaf(mark).kind), value)
        }
        Err(primary) => make_primary(alloc, text, tokens, grammar, rules, primary),
    }
}

/// What stands in parentheses or braces, a number, or a name with an index or without.
#[cycle(expressions)]
fn make_primary(
    alloc: Global,
    text: &[u8],
    tokens: &[Token],
    grammar: &[Entry],
    rules: &Rules,
    tree: &Tree,
) -> Result<Ex, AllocError>
    requires copy { IsCopy grammar.now rules.now }
    requires derives { Derives grammar.now rules.now.primary (derivation tree.now) }
    ensures { IfOk result (λ e. e ≡ primary_of (word_at text.now tokens.now) (derivation tree.now)) }
{
    match side(grammar, rules.primary, tree) {
        Ok(group) => {
            let (_, rest) = parts(grammar, rules.group, group);
            let (inner, _) = parts(grammar, rules.group_2, rest);
            let whole = make_ex(alloc, text, tokens, grammar, rules, inner)?;
            Ok(whole)
        }
        Err(other) => match side(grammar, rules.primary_2, other) {
            Ok(braces) => make_braces(alloc, text, tokens, grammar, rules, braces),
            Err(operand) => make_operand(alloc, text, tokens, grammar, rules, operand),
        },
    }
}

/// A concatenation or a repetition.
#[cycle(expressions)]
fn make_braces(
    alloc: Global,
    text: &[u8],
    tokens: &[Token],
    grammar: &[Entry],
    rules: &Rules,
    tree: &Tree,
) -> Result<Ex, AllocError>
    requires copy { IsCopy grammar.now rules.now }
    requires derives { Derives grammar.now rules.now.braces (derivation tree.now) }
    ensures { IfOk result (λ e. e ≡ braces_of (word_at text.now tokens.now) (derivation tree.now)) }
{
    let (_, rest) = parts(grammar, rules.braces, tree);
    let (first, rest) = parts(grammar, rules.braces_2, rest);
    let (joined, _) = parts(grammar, rules.braces_3, rest);
    let first = make_ex(alloc, text, tokens, grammar, rules, first)?;
    match side(grammar, rules.joined, joined) {
        Ok(others) => {
            let all = make_others(alloc, text, tokens, grammar, rules, first, others)?;
            Ok(Ex::Join(all))
        }
        Err(inner) => {
            let parts = make_inner(alloc, text, tokens, grammar, rules, inner)?;
            repeat(alloc, first, parts)
        }
    }
}

/// What a repetition repeats.
#[cycle(expressions)]
fn make_inner(
    alloc: Global,
    text: &[u8],
    tokens: &[Token],
    grammar: &[Entry],
    rules: &Rules,
    tree: &Tree,
) -> Result<Items<Ex>, AllocError>
    requires copy { IsCopy grammar.now rules.now }
    requires derives { Derives grammar.now rules.now.inner (derivation tree.now) }
    ensures { IfOk result (λ es. es ≡ inner_of (word_at text.now tokens.now) (derivation tree.now)) }
{
    let (_, rest) = parts(grammar, rules.inner, tree);
    let (list, _) = parts(grammar, rules.inner_2, rest);
    make_list(alloc, text, tokens, grammar, rules, list)
}

/// Expressions with commas between them.
#[cycle(expressions)]
pub(crate) fn make_list(
    alloc: Global,
    text: &[u8],
    tokens: &[Token],
    grammar: &[Entry],
    rules: &Rules,
    tree: &Tree,
) -> Result<Items<Ex>, AllocError>
    requires copy { IsCopy grammar.now rules.now }
    requires derives { Derives grammar.now rules.now.list (derivation tree.now) }
    ensures { IfOk result (λ es. es ≡ list_of (word_at text.now tokens.now) (derivation tree.now)) }
{
    let (first, others) = parts(grammar, rules.list, tree);
    let first = make_ex(alloc, text, tokens, grammar, rules, first)?;
    make_others(alloc, text, tokens, grammar, rules, first, others)
}

/// A first expression, and others behind commas.
#[cycle(expressions)]
fn make_others(
    alloc: Global,
    text: &[u8],
    tokens: &[Token],
    grammar: &[Entry],
    rules: &Rules,
    first: Ex,
    tree: &Tree,
) -> Result<Items<Ex>, AllocError>
    requires copy { IsCopy grammar.now rules.now }
    requires derives { Derives grammar.now rules.now.others (derivation tree.now) }
    ensures { IfOk result (λ es. es ≡ first ∷ others_of (word_at text.now tokens.now) (derivation tree.now)) }
{
    let mut all = Items::new(alloc);
    all.push(first)?;
    for next in items(grammar, rules.others, tree) {
        let (_, value) = parts(grammar, rules.each, next);
        all.push(make_ex(alloc, text, tokens, grammar, rules, value)?)?;
    }
    Ok(all)
}

/// A number, or where names may stand a number or a name.
#[cycle(expressions)]
fn make_operand(
    alloc: Global,
    text: &[u8],
    tokens: &[Token],
    grammar: &[Entry],
    rules: &Rules,
    tree: &Tree,
) -> Result<Ex, AllocError>
    requires copy { IsCopy grammar.now rules.now }
    requires derives { Derives grammar.now rules.now.operand (derivation tree.now) }
    ensures { IfOk result (λ e. e ≡ simple_of (word_at text.now tokens.now) (derivation tree.now)) }
{
    match rules.scope {
        Scope::Constant => {
            let number = token(grammar, rules.operand, tree);
            make_number(alloc, text, tokens, number.place)
        }
        Scope::Whole | Scope::Label => match side(grammar, rules.operand, tree) {
            Ok(number) => make_number(alloc, text, tokens, leaf(number).place),
            Err(named) => make_named(alloc, text, tokens, grammar, rules, named),
        },
    }
}

/// A name with an index or without.
#[cycle(expressions)]
pub(crate) fn make_named(
    alloc: Global,
    text: &[u8],
    tokens: &[Token],
    grammar: &[Entry],
    rules: &Rules,
    tree: &Tree,
) -> Result<Ex, AllocError>
    requires copy { IsCopy grammar.now rules.now }
    requires derives { Derives grammar.now rules.now.named (derivation tree.now) }
    ensures { IfOk result (λ e. e ≡ named_of (word_at text.now tokens.now) (derivation tree.now)) }
{
    let (net, selection) = parts(grammar, rules.named, tree);
    let name = name(alloc, text, tokens, leaf(net).place)?;
    match side(grammar, rules.selection, selection) {
        Ok(selected) => {
            let select = make_select(alloc, text, tokens, grammar, rules, selected)?;
            Ok(Ex::Net { name, select })
        }
        Err(_) => Ok(Ex::Net {
            name,
            select: Select::Whole,
        }),
    }
}

/// An index, or two bounds.
#[cycle(expressions)]
pub(crate) fn make_select(
    alloc: Global,
    text: &[u8],
    tokens: &[Token],
    grammar: &[Entry],
    rules: &Rules,
    tree: &Tree,
) -> Result<Select, AllocError>
    requires copy { IsCopy grammar.now rules.now }
    requires derives { Derives grammar.now rules.now.select (derivation tree.now) }
    ensures { IfOk result (λ s. s ≡ select_of (word_at text.now tokens.now) (derivation tree.now)) }
{
    let (_, rest) = parts(grammar, rules.select, tree);
    let (first, rest) = parts(grammar, rules.select_2, rest);
    let (upto, _) = parts(grammar, rules.select_3, rest);
    let first = make_ex(alloc, text, tokens, grammar, rules, first)?;
    let second = make_upto(alloc, text, tokens, grammar, rules, upto)?;
    select(alloc, first, second)
}

/// A second bound, if there is one.
#[cycle(expressions)]
fn make_upto(
    alloc: Global,
    text: &[u8],
    tokens: &[Token],
    grammar: &[Entry],
    rules: &Rules,
    tree: &Tree,
) -> Result<Option<Ex>, AllocError>
    requires copy { IsCopy grammar.now rules.now }
    requires derives { Derives grammar.now rules.now.upto (derivation tree.now) }
    ensures { IfOk result (λ e. e ≡ upto_of (word_at text.now tokens.now) (derivation tree.now)) }
{
    match side(grammar, rules.upto, tree) {
        Ok(bound) => {
            let (_, second) = parts(grammar, rules.colon, bound);
            Ok(Some(make_ex(alloc, text, tokens, grammar, rules, second)?))
        }
        Err(_) => Ok(None),
    }
}
