//! Takes derivations apart, with no arm for a wrong shape.
//!
//! Each call takes the grammar, a place in it and a tree of the form there. What it says of the parts is what the next
//! call on them requires. Their sizes fall, which ends a recursion along a tree. Only `listed` looks at the grammar; the
//! others have it for what they require, which the checker computes where the grammar is a static table.

ghost use Rattle.std.specs.Prelude.{◌≡◌, ◌<◌, MatchOption, MatchResult, map, ℕ, slice_get, Some, length};
ghost use Rattle.pe_grammar.specs.Derivation.{derivation, pair, left, right, leaf, repeated, done, present, absent, once};
ghost use Rattle.pe_grammar.specs.Grammar.{Derives};
ghost use Rattle.pe_grammar.specs.Places.{first_at, second_at, IsSequenceAt, IsChoiceAt, IsRepeatAt, IsClauseAt, IsTerminalAt, IsOnceAt};
ghost use Rattle.pe_grammar.specs.declared.tree.Tree.{Tree, size-Tree};

use crate::form::{Entry, Form};
use crate::look::form_of;
use crate::terminal::Token;
use crate::tree::Tree;

/// The two parts of a sequence.
pub fn parts<'a>(_grammar: &[Entry], _form: u16, tree: &'a Tree) -> (&'a Tree, &'a Tree)
    requires sequence { IsSequenceAt _grammar.now _form }
    requires derives { Derives _grammar.now _form (derivation tree.now) }
    ensures is { derivation tree.now ≡ pair (derivation result.0.now) (derivation result.1.now) }
    ensures first { Derives _grammar.now (first_at _grammar.now _form) (derivation result.0.now) }
    ensures second { Derives _grammar.now (second_at _grammar.now _form) (derivation result.1.now) }
    ensures first_smaller { size-Tree result.0.now < size-Tree tree.now }
    ensures second_smaller { size-Tree result.1.now < size-Tree tree.now }
{
    match tree {
        Tree::Pair(both) => {
            let (first, second) = both.get();
            (first, second)
        }
        _ => unreachable!(),
    }
}

/// The side of a choice: `Ok` is the first form, and `Err` the second.
pub fn side<'a>(_grammar: &[Entry], _form: u16, tree: &'a Tree) -> Result<&'a Tree, &'a Tree>
    requires choice { IsChoiceAt _grammar.now _form }
    requires derives { Derives _grammar.now _form (derivation tree.now) }
    ensures is { MatchResult result (λ t. derivation tree.now ≡ left (derivation t.now)) (λ t. derivation tree.now ≡ right (derivation t.now)) }
    ensures derives { MatchResult result (λ t. Derives _grammar.now (first_at _grammar.now _form) (derivation t.now)) (λ t. Derives _grammar.now (second_at _grammar.now _form) (derivation t.now)) }
    ensures smaller { MatchResult result (λ t. size-Tree t.now < size-Tree tree.now) (λ t. size-Tree t.now < size-Tree tree.now) }
{
    match tree {
        Tree::Left(inner) => Ok(inner.get()),
        Tree::Right(inner) => Err(inner.get()),
        _ => unreachable!(),
    }
}

/// The terminal of a clause and what follows it, if the clause is not left out.
pub fn clause<'a>(_grammar: &[Entry], _form: u16, tree: &'a Tree) -> Option<(Token, &'a Tree)>
    requires clause { IsClauseAt _grammar.now _form }
    requires derives { Derives _grammar.now _form (derivation tree.now) }
    ensures is { MatchOption result (derivation tree.now ≡ absent (second_at _grammar.now _form)) (λ r. derivation tree.now ≡ present r.0 (derivation r.1.now)) }
    ensures derives { MatchOption result (Derives _grammar.now _form (derivation tree.now)) (λ r. Derives _grammar.now (first_at _grammar.now _form) (derivation r.1.now)) }
    ensures smaller { MatchOption result (Derives _grammar.now _form (derivation tree.now)) (λ r. size-Tree r.1.now < size-Tree tree.now) }
{
    match tree {
        Tree::Present(both) => {
            let (token, inner) = both.get();
            Some((*token, inner))
        }
        Tree::Absent(_) => None,
        _ => unreachable!(),
    }
}

/// The token of a terminal.
pub fn token(_grammar: &[Entry], _form: u16, tree: &Tree) -> Token
    requires terminal { IsTerminalAt _grammar.now _form (second_at _grammar.now _form) }
    requires derives { Derives _grammar.now _form (derivation tree.now) }
    ensures { derivation tree.now ≡ leaf result }
{
    match tree {
        Tree::Leaf(token) => *token,
        _ => unreachable!(),
    }
}

/// What a repetition repeats.
pub fn items<'a>(_grammar: &[Entry], _form: u16, tree: &'a Tree) -> &'a [Tree]
    requires repeat { IsRepeatAt _grammar.now _form }
    requires derives { Derives _grammar.now _form (derivation tree.now) }
    ensures is { derivation tree.now ≡ repeated (map derivation result.now) done }
    ensures each { (i : ℕ) (t : Tree) → slice_get result.now i ≡ Some t → Derives _grammar.now (first_at _grammar.now _form) (derivation t) }
    ensures smaller { (i : ℕ) (t : Tree) → slice_get result.now i ≡ Some t → size-Tree t < size-Tree tree.now }
{
    match tree {
        Tree::Repeat(items) => items.get().as_slice(),
        _ => unreachable!(),
    }
}

/// The options of a list of options, in their order.
pub fn options<'a>(_grammar: &[Entry], _form: u16, tree: &'a Tree) -> &'a [Tree]
    requires once { IsOnceAt _grammar.now _form }
    requires repeat { IsRepeatAt _grammar.now (first_at _grammar.now _form) }
    requires derives { Derives _grammar.now _form (derivation tree.now) }
    ensures is { derivation tree.now ≡ once (repeated (map derivation result.now) done) }
    ensures each { (i : ℕ) (t : Tree) → slice_get result.now i ≡ Some t → Derives _grammar.now (first_at _grammar.now (first_at _grammar.now _form)) (derivation t) }
    ensures smaller { (i : ℕ) (t : Tree) → slice_get result.now i ≡ Some t → size-Tree t < size-Tree tree.now }
{
    match tree {
        Tree::Once(items) => items.get().as_slice(),
        _ => unreachable!(),
    }
}

/// The second form of a sequence, by its place.
pub fn second_of(grammar: &[Entry], form: u16) -> u16
    requires bound { form < length grammar.now }
    requires sequence { IsSequenceAt grammar.now form }
    ensures { result ≡ second_at grammar.now form }
{
    match form_of(grammar, form) {
        Form::Sequence(_, second) => second,
        _ => unreachable!(),
    }
}

/// A list: its first part, and then pairs of a separator and a next part.
pub fn listed<'a>(grammar: &[Entry], form: u16, tree: &'a Tree) -> (&'a Tree, &'a [Tree])
    requires bound { form < length grammar.now }
    requires sequence { IsSequenceAt grammar.now form }
    requires repeat { IsRepeatAt grammar.now (second_at grammar.now form) }
    requires derives { Derives grammar.now form (derivation tree.now) }
    ensures is { derivation tree.now ≡ pair (derivation result.0.now) (repeated (map derivation result.1.now) done) }
    ensures first { Derives grammar.now (first_at grammar.now form) (derivation result.0.now) }
    ensures each { (i : ℕ) (t : Tree) → slice_get result.1.now i ≡ Some t → Derives grammar.now (first_at grammar.now (second_at grammar.now form)) (derivation t) }
    ensures first_smaller { size-Tree result.0.now < size-Tree tree.now }
    ensures smaller { (i : ℕ) (t : Tree) → slice_get result.1.now i ≡ Some t → size-Tree t < size-Tree tree.now }
{
    let (first, rest) = parts(grammar, form, tree);
    (first, items(grammar, second_of(grammar, form), rest))
}
