//! Parts of derivations.

ghost use Rattle.std.specs.Prelude.{◌≡◌, ℕ, ◌<◌, ◌++◌, map, slice_get, Some, None, MatchOption, OnOk};
ghost use Rattle.pe_grammar.specs.Derivation.{derivation, text};
ghost use Rattle.pe_grammar.specs.declared.tree.Tree.{Tree, size-Tree};
ghost use Rattle.pe_upf_read.specs.Parts.{bare, first_of, rest_of, behind, part, head_of, each, find};

use crate::table::OTHER;
use pe_grammar::{Token, Tree};
use sqlite_items::Items;
use std::alloc::AllocError;

/// What is taken of choices, one in another.
#[tactic(auto, using(pe_grammar::proofs::Trees::layers), unfolding(crate::specs::Parts::bare))]
pub(crate) fn bare(tree: &Tree) -> &Tree
    ensures { derivation result.now ≡ bare (derivation tree.now) }
{
    match tree {
        Tree::Left(inner) => bare(inner.get()),
        Tree::Right(inner) => bare(inner.get()),
        _ => tree,
    }
}

/// The first part of a sequence.
#[tactic(auto, using(pe_grammar::proofs::Trees::layers), unfolding(crate::specs::Parts::first_of))]
fn first_of(tree: &Tree) -> &Tree
    ensures { derivation result.now ≡ first_of (derivation tree.now) }
{
    match tree {
        Tree::Pair(both) => {
            let (first, _) = both.get();
            first
        }
        _ => tree,
    }
}

/// The sequence behind its first part.
#[tactic(auto, using(pe_grammar::proofs::Trees::layers), unfolding(crate::specs::Parts::rest_of))]
fn rest_of(tree: &Tree) -> &Tree
    ensures { derivation result.now ≡ rest_of (derivation tree.now) }
{
    match tree {
        Tree::Pair(both) => {
            let (_, rest) = both.get();
            rest
        }
        _ => tree,
    }
}

/// The sequence behind so many of its first parts.
#[tactic(auto, unfolding(crate::specs::Parts::behind))]
pub(crate) fn behind(tree: &Tree, count: usize) -> &Tree
    ensures { derivation result.now ≡ behind count (derivation tree.now) }
{
    if count == 0 {
        tree
    } else {
        behind(rest_of(tree), count - 1)
    }
}

/// The part of a sequence with this number, from 0, if it is not the last.
#[tactic(auto, unfolding(crate::specs::Parts::part))]
pub(crate) fn part(tree: &Tree, number: usize) -> &Tree
    ensures { derivation result.now ≡ part number (derivation tree.now) }
{
    first_of(behind(tree, number))
}

/// The terminal that begins a sequence, or `OTHER`.
#[tactic(auto, using(pe_grammar::proofs::Trees::layers), unfolding(crate::specs::Parts::head_of))]
pub(crate) fn head(tree: &Tree) -> u16
    ensures { result ≡ head_of (derivation tree.now) }
{
    match tree {
        Tree::Leaf(token) => token.kind,
        Tree::Pair(both) => {
            let (first, _) = both.get();
            head(first)
        }
        Tree::Left(inner) => head(inner.get()),
        Tree::Right(inner) => head(inner.get()),
        _ => OTHER,
    }
}

/// What is repeated, one after the other.
pub(crate) fn each(tree: &Tree) -> &[Tree]
    ensures is { map derivation result.now ≡ each (derivation tree.now) }
    ensures smaller { (i : ℕ) (t : Tree) → slice_get result.now i ≡ Some t → size-Tree t < size-Tree tree.now }
{
    match tree {
        Tree::Repeat(items) => items.get().as_slice(),
        Tree::Once(items) => items.get().as_slice(),
        _ => &[],
    }
}

/// What stands behind its first word, for the first of these options that the word begins.
#[tactic(auto, unfolding(crate::specs::Parts::find))]
pub(crate) fn find(options: &[Tree], word: u16) -> Option<&Tree>
    ensures { MatchOption result (find word (map derivation options.now) ≡ None) (λ t. find word (map derivation options.now) ≡ Some (derivation t.now)) }
{
    for option in options {
        if head(option) == word {
            return Some(behind(bare(option), 1));
        }
    }
    None
}

/// Adds the terminals of a tree to a list.
#[tactic(auto, using(pe_grammar::proofs::Trees::layers))]
pub(crate) fn gather(tree: &Tree, all: &mut Items<Token>) -> Result<(), AllocError>
    ensures { OnOk result (all.new ≡ all.old ++ text (derivation tree.now)) }
{
    match tree {
        Tree::Leaf(token) => all.push(*token)?,
        Tree::Pair(both) => {
            let (first, rest) = both.get();
            gather(first, all)?;
            gather(rest, all)?;
        }
        Tree::Left(inner) => gather(inner.get(), all)?,
        Tree::Right(inner) => gather(inner.get(), all)?,
        Tree::Present(both) => {
            let (token, inner) = both.get();
            all.push(*token)?;
            gather(inner, all)?;
        }
        _ => {
            for item in each(tree) {
                gather(item, all)?;
            }
        }
    }
    Ok(())
}
