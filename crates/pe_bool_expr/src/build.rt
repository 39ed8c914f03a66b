//! From derivations to trees, rule by rule.

ghost use Rattle.std.specs.Prelude.{◌≡◌, ◌<◌, ◌≤◌, ◌+◌, [], length, drop, slice_index, IfOk};
ghost use Rattle.pe_grammar.specs.Derivation.{derivation};
ghost use Rattle.pe_grammar.specs.Grammar.{Derives};
ghost use Rattle.pe_bool_expr.specs.declared.expr.Expr.TheVariants.{Pin};
ghost use Rattle.pe_bool_expr.specs.declared.liberty_table.TheConstants as liberty;
ghost use Rattle.pe_bool_expr.specs.declared.style.Style.TheVariants.{Liberty, Upf};
ghost use Rattle.pe_bool_expr.specs.declared.upf_table.TheConstants as upf;
ghost use Rattle.pe_bool_expr.specs.Meaning.{level_of, operand_of, operands_in, negated};
ghost use Rattle.pe_bool_expr.specs.Styles.{table_of, operators, IsRung};

use crate::expr::Expr;
use crate::join::join;
use crate::liberty_table::LIBERTY;
use crate::style::{Style, rung_of, table};
use crate::upf_table::UPF;
use crate::{liberty_table as liberty, upf_table as upf};
use pe_grammar::{Tree, items, listed, parts, side, token};
use sqlite_items::{Boxed, Items};
use std::alloc::{AllocError, Global};

/// A level of operators, or behind the strongest an operand with its marks.
#[cycle(building)]
pub(crate) fn make_level(
    alloc: Global,
    style: Style,
    pins: &[u32],
    level: u16,
    tree: &Tree,
) -> Result<Expr, AllocError>
    requires level { level ≤ length (operators style) }
    requires derives { Derives (table_of style) level (derivation tree.now) }
    ensures { IfOk result (λ e. e ≡ level_of (operators style) pins.now (drop level (operators style)) (derivation tree.now)) }
{
    match rung_of(style, level) {
        Some(rung) => {
            let operands = make_operands(alloc, style, pins, level, rung.each, tree)?;
            let whole = join(alloc, rung.operator, operands)?;
            Ok(whole)
        }
        None => match style {
            Style::Liberty => make_liberty_marked(alloc, pins, tree),
            Style::Upf => make_upf_marked(alloc, pins, tree),
        },
    }
}

/// The operands of a level.
#[cycle(building)]
fn make_operands(
    alloc: Global,
    style: Style,
    pins: &[u32],
    level: u16,
    each: u16,
    tree: &Tree,
) -> Result<Items<Expr>, AllocError>
    requires rung { IsRung (table_of style) level each }
    requires low { level < 5 }
    requires within { level < length (operators style) }
    requires derives { Derives (table_of style) level (derivation tree.now) }
    ensures { IfOk result (λ es. es ≡ operands_in (operators style) pins.now (drop (level + 1) (operators style)) (derivation tree.now)) }
{
    let grammar = table(style);
    let (first, rest) = listed(grammar, level, tree);
    let mut all = Items::new(alloc);
    all.push(make_level(alloc, style, pins, level + 1, first)?)?;
    for next in rest {
        let (_, operand) = parts(grammar, each, next);
        all.push(make_level(alloc, style, pins, level + 1, operand)?)?;
    }
    Ok(all)
}

/// So many marks before an operand.
fn negate(alloc: Global, operand: Expr, times: usize) -> Result<Expr, AllocError>
    ensures { IfOk result (λ e. e ≡ negated times operand) }
{
    let mut whole = operand;
    for _ in 0..times {
        whole = Expr::Not(Boxed::new(alloc, whole)?);
    }
    Ok(whole)
}

#[cycle(building)]
fn make_liberty_marked(alloc: Global, pins: &[u32], tree: &Tree) -> Result<Expr, AllocError>
    requires { Derives LIBERTY liberty.AT_MARKED (derivation tree.now) }
    ensures { IfOk result (λ e. e ≡ level_of (operators Liberty) pins.now [] (derivation tree.now)) }
{
    let (marks, primed) = parts(&LIBERTY, liberty::AT_MARKED, tree);
    let count = items(&LIBERTY, liberty::AT_MARKED_PART_1, marks).len();
    let operand = make_liberty_primed(alloc, pins, primed)?;
    let whole = negate(alloc, operand, count)?;
    Ok(whole)
}

#[cycle(building)]
fn make_liberty_primed(alloc: Global, pins: &[u32], tree: &Tree) -> Result<Expr, AllocError>
    requires { Derives LIBERTY liberty.AT_PRIMED (derivation tree.now) }
    ensures { IfOk result (λ e. e ≡ operand_of (operators Liberty) pins.now (derivation tree.now)) }
{
    let (primary, marks) = parts(&LIBERTY, liberty::AT_PRIMED, tree);
    let count = items(&LIBERTY, liberty::AT_PRIMED_PART_2, marks).len();
    let operand = make_liberty_primary(alloc, pins, primary)?;
    let whole = negate(alloc, operand, count % 2)?;
    Ok(whole)
}

#[cycle(building)]
fn make_liberty_primary(alloc: Global, pins: &[u32], tree: &Tree) -> Result<Expr, AllocError>
    requires { Derives LIBERTY liberty.AT_PRIMARY (derivation tree.now) }
    ensures { IfOk result (λ e. e ≡ operand_of (operators Liberty) pins.now (derivation tree.now)) }
{
    match side(&LIBERTY, liberty::AT_PRIMARY, tree) {
        Ok(name) => Ok(pin(pins, token(&LIBERTY, liberty::AT_TOKEN_NAME, name).place)),
        Err(other) => match side(&LIBERTY, liberty::AT_PRIMARY_2, other) {
            Ok(_) => Ok(Expr::Const(false)),
            Err(other) => match side(&LIBERTY, liberty::AT_PRIMARY_3, other) {
                Ok(_) => Ok(Expr::Const(true)),
                Err(bracketed) => {
                    let (_, rest) = parts(&LIBERTY, liberty::AT_PRIMARY_PART_4, bracketed);
                    let (inner, _) = parts(&LIBERTY, liberty::AT_PRIMARY_PART_4_2, rest);
                    let whole = make_level(alloc, Style::Liberty, pins, 0, inner)?;
                    Ok(whole)
                }
            },
        },
    }
}

#[cycle(building)]
fn make_upf_marked(alloc: Global, pins: &[u32], tree: &Tree) -> Result<Expr, AllocError>
    requires { Derives UPF upf.AT_MARKED (derivation tree.now) }
    ensures { IfOk result (λ e. e ≡ level_of (operators Upf) pins.now [] (derivation tree.now)) }
{
    let (marks, primary) = parts(&UPF, upf::AT_MARKED, tree);
    let count = items(&UPF, upf::AT_MARKED_PART_1, marks).len();
    let operand = make_upf_primary(alloc, pins, primary)?;
    let whole = negate(alloc, operand, count)?;
    Ok(whole)
}

#[cycle(building)]
fn make_upf_primary(alloc: Global, pins: &[u32], tree: &Tree) -> Result<Expr, AllocError>
    requires { Derives UPF upf.AT_PRIMARY (derivation tree.now) }
    ensures { IfOk result (λ e. e ≡ operand_of (operators Upf) pins.now (derivation tree.now)) }
{
    match side(&UPF, upf::AT_PRIMARY, tree) {
        Ok(name) => Ok(pin(pins, token(&UPF, upf::AT_TOKEN_NAME, name).place)),
        Err(other) => match side(&UPF, upf::AT_PRIMARY_2, other) {
            Ok(_) => Ok(Expr::Const(false)),
            Err(other) => match side(&UPF, upf::AT_PRIMARY_3, other) {
                Ok(_) => Ok(Expr::Const(true)),
                Err(bracketed) => {
                    let (_, rest) = parts(&UPF, upf::AT_PRIMARY_PART_4, bracketed);
                    let (inner, _) = parts(&UPF, upf::AT_PRIMARY_PART_4_2, rest);
                    let whole = make_level(alloc, Style::Upf, pins, 0, inner)?;
                    Ok(whole)
                }
            },
        },
    }
}

/// The pin of a token's place.
fn pin(pins: &[u32], place: u32) -> Expr
    ensures { result ≡ Pin (slice_index pins.now place) }
{
    Expr::Pin(pins.get(place as usize).copied().unwrap_or(0))
}
