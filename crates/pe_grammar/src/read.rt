//! Reads tokens by a grammar.

ghost use Rattle.std.specs.Prelude.{◌≡◌, ◌∷◌, [], ◌<◌, ℕ, Some, Err, length, List, MatchResult, IfOk, IsTrue, map};
ghost use Rattle.pe_grammar.specs.Derivation.{Derivation, derivation, leaf, heads, repeated, done, front};
ghost use Rattle.pe_grammar.specs.declared.failure.Stop.TheVariants.{Left};
ghost use Rattle.pe_grammar.specs.declared.failure.Failure.TheVariants.{Syntax};
ghost use Rattle.pe_grammar.specs.declared.form.Form.TheVariants.{Repeat, Once};
ghost use Rattle.pe_grammar.specs.Grammar.{Spells, form_at, IsRead, IsFault};
ghost use Rattle.pe_grammar.specs.Table.{IsDeterministic};
ghost use Rattle.pe_grammar.specs.Test.{passes};
ghost use Rattle.pe_grammar.specs.Reading.{Reads, IsStop, ReadsOnce, IsStopOnce};

use crate::failure::{Failure, Stop};
use crate::form::{Bounds, Entry, Form};
use crate::look::{form_of, goes_left, has_each, is_taken, next_in, next_is, next_start, starts};
use crate::terminal::Token;
use crate::tree::{
    Tree, make_absent, make_empty, make_leaf, make_left, make_once, make_pair, make_present,
    make_repeat, make_right,
};
use sqlite_items::Items;
use std::alloc::Global;

/// Reads one token of the kind.
fn terminal(kind: u16, tokens: &[Token]) -> Result<(Tree, &[Token]), Stop>
    ensures { MatchResult result
        (λ r. (t : Token) × (t.kind ≡ kind) × (derivation r.0 ≡ leaf t) × (tokens.now ≡ t ∷ r.1.now))
        (λ e. (e ≡ Left (length tokens.now)) × (front tokens.now ≡ Some kind → ⊥)) }
{
    match next_is(kind, tokens) {
        Some((token, rest)) => Ok((make_leaf(token), rest)),
        None => Err(Stop::Left(tokens.len())),
    }
}

/// Reads the form at the front of the tokens, as far as it goes. It ends since each call has fewer tokens left, or a form of
/// lower rank.
#[cycle(reading)]
fn read<'a>(
    alloc: Global,
    grammar: &[Entry],
    form: u16,
    tokens: &'a [Token],
) -> Result<(Tree, &'a [Token]), Stop>
    requires grammar { IsDeterministic grammar.now }
    requires form { form < length grammar.now }
    ensures { MatchResult result
        (λ r. Reads grammar.now form tokens.now (derivation r.0) r.1.now)
        (λ e. IsStop grammar.now form tokens.now e) }
{
    match form_of(grammar, form) {
        Form::Terminal(kind) => terminal(kind, tokens),
        Form::Empty => Ok((make_empty(), tokens)),
        Form::Sequence(first, second) => {
            let (left, middle) = read(alloc, grammar, first, tokens)?;
            let (right, rest) = read(alloc, grammar, second, middle)?;
            Ok((make_pair(alloc, left, right)?, rest))
        }
        Form::Choice(left, right) => {
            if goes_left(grammar, left, right, tokens) {
                let (tree, rest) = read(alloc, grammar, left, tokens)?;
                Ok((make_left(alloc, tree)?, rest))
            } else {
                let (tree, rest) = read(alloc, grammar, right, tokens)?;
                Ok((make_right(alloc, tree)?, rest))
            }
        }
        Form::Repeat(each) => repeat(alloc, grammar, form, each, tokens),
        Form::Once(part, bounds) => match form_of(grammar, part) {
            Form::Repeat(each) => { read_options(alloc, grammar, form, part, each, bounds, tokens) }
            _ => unreachable!(),
        },
        Form::Clause(set, part) => match next_in(set, tokens) {
            Some((token, after)) => {
                let (tree, rest) = read(alloc, grammar, part, after)?;
                Ok((make_present(alloc, token, tree)?, rest))
            }
            None => Ok((make_absent(alloc, set)?, tokens)),
        },
    }
}

/// Reads a repetition: one part after the other, while the next token begins one.
#[cycle(reading)]
fn repeat<'a>(
    alloc: Global,
    grammar: &[Entry],
    form: u16,
    each: u16,
    tokens: &'a [Token],
) -> Result<(Tree, &'a [Token]), Stop>
    requires grammar { IsDeterministic grammar.now }
    requires repeat { form_at grammar.now form ≡ Some (Repeat each) }
    ensures { MatchResult result
        (λ r. Reads grammar.now form tokens.now (derivation r.0) r.1.now)
        (λ e. IsStop grammar.now form tokens.now e) }
{
    let mut items = Items::new(alloc);
    let mut left = tokens;
    'items: while starts(grammar, each, left) {
        let (tree, rest) = read(alloc, grammar, each, left)?;
        items.push(tree)?;
        left = rest;
    }
    Ok((make_repeat(alloc, items)?, left))
}

/// Reads a list of options: a repetition within the bounds.
#[cycle(reading)]
fn read_options<'a>(
    alloc: Global,
    grammar: &[Entry],
    form: u16,
    part: u16,
    each: u16,
    bounds: Bounds,
    tokens: &'a [Token],
) -> Result<(Tree, &'a [Token]), Stop>
    requires grammar { IsDeterministic grammar.now }
    requires once { form_at grammar.now form ≡ Some (Once part bounds) }
    requires repeat { form_at grammar.now part ≡ Some (Repeat each) }
    ensures { MatchResult result
        (λ r. Reads grammar.now form tokens.now (derivation r.0) r.1.now)
        (λ e. IsStop grammar.now form tokens.now e) }
{
    let (items, used, rest) = read_once(alloc, grammar, part, each, bounds.once, tokens)?;
    if has_each(bounds.needed, used.as_slice()) {
        Ok((make_once(alloc, items)?, rest))
    } else {
        Err(Stop::Left(rest.len()))
    }
}

/// Reads a repetition in which no two parts begin with the same terminal of the set. The parts, the terminals that begin
/// them, and the rest.
#[cycle(reading)]
fn read_once<'a>(
    alloc: Global,
    grammar: &[Entry],
    form: u16,
    each: u16,
    set: u128,
    tokens: &'a [Token],
) -> Result<(Items<Tree>, Items<u16>, &'a [Token]), Stop>
    requires grammar { IsDeterministic grammar.now }
    requires repeat { form_at grammar.now form ≡ Some (Repeat each) }
    ensures { MatchResult result
        (λ r. (heads (repeated (map derivation r.0) done) ≡ r.1) × ReadsOnce grammar.now form set [] tokens.now (repeated (map derivation r.0) done) r.2.now)
        (λ e. IsStopOnce grammar.now form set [] tokens.now e) }
{
    let mut items = Items::new(alloc);
    let mut used = Items::new(alloc);
    let mut left = tokens;
    'items: while let Some(kind) = next_start(grammar, each, left) {
        if is_taken(set, used.as_slice(), kind) {
            return Err(Stop::Left(left.len()));
        }
        let (tree, rest) = read(alloc, grammar, each, left)?;
        items.push(tree)?;
        used.push(kind)?;
        left = rest;
    }
    Ok((items, used, left))
}

/// The tree of the form `start` that the tokens spell, all of them.
///
/// The reader goes into itself as deep as the text is nested, and so does the drop of a tree: bound the nesting of the
/// tokens before the call (a few hundred levels are safe on a stack of 8 MiB). Repetitions and lists of options are loops,
/// of any length. For one grammar, time is linear in the tokens.
pub fn parse(
    alloc: Global,
    grammar: &[Entry],
    start: u16,
    tokens: &[Token],
) -> Result<Tree, Failure>
    requires grammar { IsTrue (passes grammar.now) }
    requires start { start < length grammar.now }
    // What is read is spelled so.
    ensures found { IfOk result (λ t. Spells grammar.now start tokens.now (derivation t)) }
    // What is spelled so is read, unless memory runs out.
    ensures only { (d : Derivation) → Spells grammar.now start tokens.now d → IsRead d result }
    // A fault stands at the first token with which no text begins.
    ensures fault { (at : ℕ) → result ≡ Err (Syntax at) → IsFault grammar.now start tokens.now at }
{
    match read(alloc, grammar, start, tokens) {
        Ok((tree, [])) => Ok(tree),
        Ok((_, rest)) => Err(Failure::Syntax(tokens.len() - rest.len())),
        Err(Stop::Memory) => Err(Failure::Memory),
        Err(Stop::Left(left)) => Err(Failure::Syntax(tokens.len() - left)),
    }
}

/// No tokens are spelled by two derivations.
pub fn one_tree()
    ensures { (g : List Entry) (n : ℕ) (tokens : List Token) (d e : Derivation) → IsDeterministic g → Spells g n tokens d → Spells g n tokens e → d ≡ e }
{}
