//! The two styles: their grammars, and the operators of their levels.

ghost use Rattle.std.specs.Prelude.{◌≡◌, ◌≤◌, ◌<◌, Some, OnSome, length, slice_get, MatchOption};
ghost use Rattle.pe_bool_expr.specs.Styles.{table_of, operators, IsRung, class_of};

use crate::liberty_table::{
    AT_DIFFERENCE_PART_2_EACH as LIBERTY_XOR, AT_PRODUCT_PART_2_EACH as LIBERTY_AND,
    AT_SUM_PART_2_EACH as LIBERTY_OR, LIBERTY,
};
use crate::upf_table::{
    AT_ALL_PART_2_EACH as UPF_AND_AND, AT_ANY_PART_2_EACH as UPF_BAR_BAR,
    AT_DIFFERENCE_PART_2_EACH as UPF_CARET, AT_PRODUCT_PART_2_EACH as UPF_AND,
    AT_UNION_PART_2_EACH as UPF_BAR, UPF,
};
use pe_grammar::Entry;
use pe_text::Class;

/// How a boolean function is written.
#[derive(Clone, Copy, Debug, PartialEq, Eq)]
pub enum Style {
    /// As in a cell library: `!` before and `'` behind an operand, `^`, `*` or `&` or nothing between two operands, `+` or
    /// `|`, each weaker than the one before.
    Liberty,
    /// As in IEEE 1801: `!` and `~` before an operand, `&`, `^`, `|`, `&&`, `||`, each weaker than the one before.
    Upf,
}

/// An operator on two operands.
#[derive(Clone, Copy, Debug, PartialEq, Eq)]
pub(crate) enum Operator {
    And,
    Or,
    Xor,
}

/// A level of a grammar: what joins its operands, and the place of an operator with the operand behind it.
#[derive(Clone, Copy)]
pub(crate) struct Rung {
    pub(crate) operator: Operator,
    pub(crate) each: u16,
}

/// The tokens of a style.
pub(crate) fn class(style: Style) -> Class
    ensures { result ≡ class_of style }
{
    match style {
        Style::Liberty => Class::LibertyFunction,
        Style::Upf => Class::UpfFunction,
    }
}

/// The grammar of a style.
pub(crate) fn table(style: Style) -> &'static [Entry]
    ensures { result.now ≡ table_of style }
{
    match style {
        Style::Liberty => &LIBERTY,
        Style::Upf => &UPF,
    }
}

/// The level of a style by its number, the weakest first, or `None` behind the strongest.
pub(crate) fn rung_of(style: Style, level: u16) -> Option<Rung>
    ensures operator { MatchOption result (length (operators style) ≤ level) (λ r. slice_get (operators style) level ≡ Some r.operator) }
    ensures place { MatchOption result (length (operators style) ≤ level) (λ r. IsRung (table_of style) level r.each) }
    ensures low { OnSome result (level < 5) }
{
    let (operator, each) = match (style, level) {
        (Style::Liberty, 0) => (Operator::Or, LIBERTY_OR),
        (Style::Liberty, 1) => (Operator::And, LIBERTY_AND),
        (Style::Liberty, 2) => (Operator::Xor, LIBERTY_XOR),
        (Style::Upf, 0) => (Operator::Or, UPF_BAR_BAR),
        (Style::Upf, 1) => (Operator::And, UPF_AND_AND),
        (Style::Upf, 2) => (Operator::Or, UPF_BAR),
        (Style::Upf, 3) => (Operator::Xor, UPF_CARET),
        (Style::Upf, 4) => (Operator::And, UPF_AND),
        _ => return None,
    };
    Some(Rung { operator, each })
}
