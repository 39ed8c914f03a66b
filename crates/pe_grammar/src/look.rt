//! What a reader asks of the next token.

ghost use Rattle.std.specs.Prelude.{◌≡◌, ◌∷◌, true, false, ◌<◌, ℕ, Some, length, MatchOption, IsTrue, ◌↔◌};
ghost use Rattle.pe_grammar.specs.Derivation.{HasEach, taken, front, has};
ghost use Rattle.pe_grammar.specs.Grammar.{form_at};
ghost use Rattle.pe_grammar.specs.Reading.{starts_at, goes_left as is_left};

use crate::form::{Entry, Form};
use crate::terminal::Token;

/// The form at a place.
pub(crate) fn form_of(grammar: &[Entry], form: u16) -> Form
    requires { form < length grammar.now }
    ensures { form_at grammar.now form ≡ Some result }
{
    grammar[form as usize].form
}

/// Whether the terminal is in the set.
#[tactic(auto, using(std::proofs::lemmas::Nat::Bits::shr_and_one))]
pub(crate) fn contains(set: u128, kind: u16) -> bool
    ensures { result ≡ has set kind }
{
    kind < 128 && (set >> kind) & 1 == 1
}

/// Whether the tokens begin as the form may.
pub(crate) fn starts(grammar: &[Entry], form: u16, tokens: &[Token]) -> bool
    requires { form < length grammar.now }
    ensures { result ≡ starts_at grammar.now form tokens.now }
{
    match tokens {
        [] => false,
        [next, ..] => contains(grammar[form as usize].first, next.kind),
    }
}

/// Whether a choice takes its first side: where the next token begins it, or where it may be empty and the next token does
/// not begin the second.
pub(crate) fn goes_left(grammar: &[Entry], left: u16, right: u16, tokens: &[Token]) -> bool
    requires left { left < length grammar.now }
    requires right { right < length grammar.now }
    ensures { result ≡ is_left grammar.now left right tokens.now }
{
    starts(grammar, left, tokens)
        || grammar[left as usize].nullable && !starts(grammar, right, tokens)
}

/// The next token and the rest, if it is of the kind.
pub(crate) fn next_is(kind: u16, tokens: &[Token]) -> Option<(Token, &[Token])>
    ensures { MatchOption result (front tokens.now ≡ Some kind → ⊥) (λ r. (r.0.kind ≡ kind) × (tokens.now ≡ r.0 ∷ r.1.now)) }
{
    match tokens.split_first() {
        Some((token, rest)) if token.kind == kind => Some((*token, rest)),
        _ => None,
    }
}

/// The next token and the rest, if it is of the set.
pub(crate) fn next_in(set: u128, tokens: &[Token]) -> Option<(Token, &[Token])>
    ensures { MatchOption result ((k : ℕ) → front tokens.now ≡ Some k → has set k ≡ true → ⊥) (λ r. (has set r.0.kind ≡ true) × (tokens.now ≡ r.0 ∷ r.1.now)) }
{
    match tokens.split_first() {
        Some((token, rest)) if contains(set, token.kind) => Some((*token, rest)),
        _ => None,
    }
}

/// The next terminal, if the form may begin with it.
pub(crate) fn next_start(grammar: &[Entry], form: u16, tokens: &[Token]) -> Option<u16>
    requires { form < length grammar.now }
    ensures { MatchOption result (starts_at grammar.now form tokens.now ≡ false)
        (λ k. (front tokens.now ≡ Some k) × (starts_at grammar.now form tokens.now ≡ true)) }
{
    match tokens.split_first() {
        Some((token, _)) if contains(grammar[form as usize].first, token.kind) => Some(token.kind),
        _ => None,
    }
}

/// Whether the terminal is of the set and was used.
pub(crate) fn is_taken(set: u128, used: &[u16], kind: u16) -> bool
    ensures { result ≡ taken set used.now kind }
{
    contains(set, kind) && used.contains(&kind)
}

/// Whether each terminal of the set was used.
pub(crate) fn has_each(needed: u128, used: &[u16]) -> bool
    ensures { IsTrue result ↔ HasEach needed used.now }
{
    let mut kind: u16 = 0;
    while kind < 128 {
        if contains(needed, kind) && !used.contains(&kind) {
            return false;
        }
        kind += 1;
    }
    true
}
