//! Whether a text is one of the grammar of its style, told without recursion, however deep it is nested.

ghost use Rattle.std.specs.Prelude.{◌≡◌, ◌≢◌, ◌<◌, ◌^◌, true, false, MatchOption, All};
ghost use Rattle.pe_grammar.specs.Derivation.{Derivation};
ghost use Rattle.pe_grammar.specs.Grammar.{IsFault, Spells};
ghost use Rattle.pe_bool_expr.specs.Scan.{begun, gone_on, behind, behind_operand};
ghost use Rattle.pe_bool_expr.specs.Styles.{table_of};

use crate::style::Style;
use crate::terminal::{Role, role_in};
use pe_grammar::Token;

/// What a text may go on with.
#[derive(Clone, Copy)]
pub(crate) enum Expected {
    /// An operand, or a mark before it.
    Operand,
    /// What stands behind an operand.
    Operator,
}

/// What is known of a text behind some of its tokens.
#[derive(Clone, Copy)]
pub(crate) struct State {
    pub(crate) expected: Expected,
    /// How many parentheses are open.
    pub(crate) depth: usize,
}

/// Goes over a token with which an operand is to begin.
fn begin(role: Role, depth: usize) -> Option<State>
    requires { depth < 2 ^ 63 }
    ensures { result ≡ begun role depth }
{
    match role {
        Role::Leading => Some(State {
            expected: Expected::Operand,
            depth,
        }),
        Role::Opening => Some(State {
            expected: Expected::Operand,
            depth: depth + 1,
        }),
        Role::Operand => Some(State {
            expected: Expected::Operator,
            depth,
        }),
        Role::Closing | Role::Trailing | Role::Joining => None,
    }
}

/// Goes over a token behind an operand. In the style of Liberty a further operand may begin there.
fn go_on(style: Style, role: Role, depth: usize) -> Option<State>
    requires { depth < 2 ^ 63 }
    ensures { result ≡ gone_on style role depth }
{
    match role {
        Role::Joining => Some(State {
            expected: Expected::Operand,
            depth,
        }),
        Role::Trailing => Some(State {
            expected: Expected::Operator,
            depth,
        }),
        Role::Closing if depth == 0 => None,
        Role::Closing => Some(State {
            expected: Expected::Operator,
            depth: depth - 1,
        }),
        Role::Leading | Role::Opening | Role::Operand => match style {
            Style::Liberty => begin(role, depth),
            Style::Upf => None,
        },
    }
}

/// Goes over a token, or gives `None` where it can't stand there.
fn step(style: Style, role: Role, state: State) -> Option<State>
    requires { state.depth < 2 ^ 63 }
    ensures { result ≡ behind style role state }
{
    match state.expected {
        Expected::Operand => begin(role, state.depth),
        Expected::Operator => go_on(style, role, state.depth),
    }
}

/// Whether a text may end there.
fn may_end(state: State) -> bool
    ensures yes { result ≡ true → state ≡ behind_operand 0 }
    ensures no { result ≡ false → state ≢ behind_operand 0 }
{
    match state.expected {
        Expected::Operand => false,
        Expected::Operator => state.depth == 0,
    }
}

/// The number of the first token with which no text of the grammar goes on, or how many tokens there are where they end too
/// early; `None` where they are a text of the grammar.
pub(crate) fn first_wrong(style: Style, tokens: &[Token]) -> Option<usize>
    requires { All (λ t. t.kind < 12) tokens.now }
    ensures { MatchOption result
        ((d : Derivation) × Spells (table_of style) 0 tokens.now d)
        (λ number. IsFault (table_of style) 0 tokens.now number) }
{
    let mut state = State {
        expected: Expected::Operand,
        depth: 0,
    };
    for (number, token) in tokens.iter().enumerate() {
        match step(style, role_in(style, token.kind), state) {
            Some(next) => state = next,
            None => return Some(number),
        }
    }
    if may_end(state) {
        None
    } else {
        Some(tokens.len())
    }
}
