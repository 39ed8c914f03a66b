//! The places of different names.

ghost use Rattle.std.specs.Prelude.{◌≡◌, ◌++◌, ◌∷◌, [], not, true, false, IfOk, OnErr, MatchOption};
ghost use Rattle.pe_base.specs.Names.{has_name, are_distinct, place_of};

use indexmap::IndexSet;
use pe_base::{Name, Want};
use std::alloc::Global;
use std::marker::Model;

/// Different names, which contracts see as their list, in the order in which they came.
#[derive(Drop)]
pub struct NameIndex<'a> {
    names: IndexSet<&'a [u8]>,
}

impl<'a> Model for NameIndex<'a> {
    ghost use Rattle.std.specs.Prelude.{List, ℕ, map};

    ghost Value = { List (List ℕ) };

    ghost view = { λ s. map (λ name. name.now) s.names.keys };
}

impl<'a> NameIndex<'a> {
    /// The index of no name.
    pub fn new(alloc: Global) -> NameIndex<'a>
        ensures { result ≡ [] }
    {
        NameIndex {
            names: IndexSet::new(alloc),
        }
    }

    /// Adds a name at the end, if it is new, and says whether it was.
    pub fn insert(&mut self, name: &'a [u8]) -> Result<bool, Want>
        ensures new { IfOk result (λ new. new ≡ not (has_name self.old name.now)) }
        ensures added { IfOk result (λ new. new ≡ true → self.new ≡ self.old ++ name.now ∷ []) }
        ensures there { IfOk result (λ new. new ≡ false → self.new ≡ self.old) }
        ensures err { OnErr result (self.new ≡ self.old) }
    {
        let (_, new) = self.names.insert_full(name)?;
        Ok(new)
    }

    /// The place of a name, counted from 0, or how many names there are, if it is none of them.
    pub fn place(&self, name: &[u8]) -> usize
        ensures { result ≡ place_of self.now name.now }
    {
        match self.names.get_index_of(name) {
            Some(place) => place,
            None => self.names.len(),
        }
    }

    /// The index of these names, which are different from one another; or none, where two are the same.
    pub fn of(alloc: Global, names: &'a [Name]) -> Result<Option<NameIndex<'a>>, Want>
        ensures { IfOk result (λ found. MatchOption found (are_distinct names.now ≡ false) (λ index. (are_distinct names.now ≡ true) × (index ≡ names.now))) }
    {
        let mut index = NameIndex::new(alloc);
        for name in names {
            if !index.insert(name.bytes())? {
                return Ok(None);
            }
        }
        Ok(Some(index))
    }
}
