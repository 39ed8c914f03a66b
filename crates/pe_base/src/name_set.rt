//! Sets of names, in which a look-up among a million takes no longer than some twenty comparisons.

ghost use Rattle.std.specs.Prelude.{◌≡◌, ◌∷◌, [], not, IfOk, OnOk, OnErr, List, ℕ};
ghost use Rattle.pe_base.specs.Names.{has_name, are_distinct, all_among, HasSameNames};

use crate::name::Name;
use crate::text::Want;
use std::alloc::Global;
use std::collections::BTreeSet;
use std::marker::Model;

/// A set of names, which contracts see as a list of them. Nothing is said of their order.
#[derive(Drop)]
pub struct NameSet<'a> {
    names: BTreeSet<&'a [u8]>,
}

impl<'a> Model for NameSet<'a> {
    ghost use Rattle.std.specs.Prelude.{List, ℕ, map};

    ghost Value = { List (List ℕ) };

    ghost view = { λ s. map (λ name. name.now) s.names.keys };
}

impl<'a> NameSet<'a> {
    /// The set of no name.
    pub fn new(alloc: Global) -> NameSet<'a>
        ensures { result ≡ [] }
    {
        NameSet {
            names: BTreeSet::new(alloc),
        }
    }

    /// The set of these names.
    pub fn of(alloc: Global, names: &'a [Name]) -> Result<NameSet<'a>, Want>
        ensures { IfOk result (λ set. HasSameNames set names.now) }
    {
        let mut set = NameSet::new(alloc);
        for name in names {
            set.insert(name.bytes())?;
        }
        Ok(set)
    }

    /// Whether the set has the name.
    pub fn contains(&self, name: &[u8]) -> bool
        ensures { result ≡ has_name self.now name.now }
    {
        self.names.contains(name)
    }

    /// Adds a name, and says whether it was new.
    pub fn insert(&mut self, name: &'a [u8]) -> Result<bool, Want>
        ensures new { IfOk result (λ new. new ≡ not (has_name self.old name.now)) }
        ensures added { OnOk result (HasSameNames self.new (name.now ∷ self.old)) }
        ensures err { OnErr result (self.new ≡ self.old) }
    {
        let new = self.names.insert(name)?;
        Ok(new)
    }

    /// Whether the set has each of some names.
    pub fn has_all(&self, some: &[Name]) -> bool
        ensures { result ≡ all_among self.now some.now }
    {
        some.iter().all(|name| self.contains(name.bytes()))
    }
}

/// Whether no two of the names are the same.
pub fn are_distinct(alloc: Global, names: &[Name]) -> Result<bool, Want>
    ensures { IfOk result (λ distinct. distinct ≡ are_distinct names.now) }
{
    let mut behind = NameSet::new(alloc);
    for i in (0..names.len()).rev() {
        if !behind.insert(names[i].bytes())? {
            return Ok(false);
        }
    }
    Ok(true)
}

/// Whether each of some names is one of these.
pub fn all_among(alloc: Global, names: &[Name], some: &[Name]) -> Result<bool, Want>
    ensures { IfOk result (λ among. among ≡ all_among names.now some.now) }
{
    let set = NameSet::of(alloc, names)?;
    Ok(set.has_all(some))
}
