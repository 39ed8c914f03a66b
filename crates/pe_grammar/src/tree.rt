ghost use Rattle.std.specs.Prelude.{◌≡◌, map, IfOk};
ghost use Rattle.pe_grammar.specs.Derivation.{derivation, leaf, nothing, pair, left as at_left, right as at_right, repeated, done, present, absent, once};

use crate::terminal::Token;
use sqlite_items::{Boxed, Items};
use std::alloc::{AllocError, Global};

/// How a form has a text.
///
/// A node is two words, and what is larger lies behind it in one piece, so that the tree of a long text stays small.
#[derive(Drop)]
pub enum Tree {
    Leaf(Token),
    Empty,
    Pair(Boxed<(Tree, Tree)>),
    Left(Boxed<Tree>),
    Right(Boxed<Tree>),
    Repeat(Boxed<Items<Tree>>),
    Present(Boxed<(Token, Tree)>),
    Absent(Boxed<u128>),
    Once(Boxed<Items<Tree>>),
}

const _: () = prove!(size_of::<Tree>() == 16);

#[tactic(auto, using(crate::proofs::Trees::layers))]
pub(crate) fn make_leaf(token: Token) -> Tree
    ensures { derivation result ≡ leaf token }
{
    Tree::Leaf(token)
}

#[tactic(auto, using(crate::proofs::Trees::layers))]
pub(crate) fn make_empty() -> Tree
    ensures { derivation result ≡ nothing }
{
    Tree::Empty
}

#[tactic(auto, using(crate::proofs::Trees::layers))]
pub(crate) fn make_pair(alloc: Global, first: Tree, second: Tree) -> Result<Tree, AllocError>
    ensures { IfOk result (λ t. derivation t ≡ pair (derivation first) (derivation second)) }
{
    Ok(Tree::Pair(Boxed::new(alloc, (first, second))?))
}

#[tactic(auto, using(crate::proofs::Trees::layers))]
pub(crate) fn make_left(alloc: Global, tree: Tree) -> Result<Tree, AllocError>
    ensures { IfOk result (λ t. derivation t ≡ at_left (derivation tree)) }
{
    Ok(Tree::Left(Boxed::new(alloc, tree)?))
}

#[tactic(auto, using(crate::proofs::Trees::layers))]
pub(crate) fn make_right(alloc: Global, tree: Tree) -> Result<Tree, AllocError>
    ensures { IfOk result (λ t. derivation t ≡ at_right (derivation tree)) }
{
    Ok(Tree::Right(Boxed::new(alloc, tree)?))
}

#[tactic(auto, using(crate::proofs::Trees::layers))]
pub(crate) fn make_repeat(alloc: Global, items: Items<Tree>) -> Result<Tree, AllocError>
    ensures { IfOk result (λ t. derivation t ≡ repeated (map derivation items) done) }
{
    Ok(Tree::Repeat(Boxed::new(alloc, items)?))
}

#[tactic(auto, using(crate::proofs::Trees::layers))]
pub(crate) fn make_present(alloc: Global, token: Token, tree: Tree) -> Result<Tree, AllocError>
    ensures { IfOk result (λ t. derivation t ≡ present token (derivation tree)) }
{
    Ok(Tree::Present(Boxed::new(alloc, (token, tree))?))
}

#[tactic(auto, using(crate::proofs::Trees::layers))]
pub(crate) fn make_absent(alloc: Global, set: u128) -> Result<Tree, AllocError>
    ensures { IfOk result (λ t. derivation t ≡ absent set) }
{
    Ok(Tree::Absent(Boxed::new(alloc, set)?))
}

#[tactic(auto, using(crate::proofs::Trees::layers))]
pub(crate) fn make_once(alloc: Global, items: Items<Tree>) -> Result<Tree, AllocError>
    ensures { IfOk result (λ t. derivation t ≡ once (repeated (map derivation items) done)) }
{
    Ok(Tree::Once(Boxed::new(alloc, items)?))
}
