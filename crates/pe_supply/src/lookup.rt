//! The supplies of names, which are looked up by an index.

ghost use Rattle.std.specs.Prelude.{◌≡◌, IfOk};
ghost use Rattle.pe_supply.specs.Numbers.{number_of};

use pe_base::{Name, Want};
use pe_nets::NameIndex;
use sqlite_items::{Items, at};
use std::alloc::Global;
use std::marker::Model;

/// Names with the numbers of their supplies, which contracts see as their list. Of a name that stands there twice, the
/// first counts.
#[derive(Drop)]
pub(crate) struct Lookup<'a> {
    names: &'a [(Name, u32)],
    /// The different names, and the number of each at its place.
    index: NameIndex<'a>,
    numbers: Items<u32>,
}

impl<'a> Model for Lookup<'a> {
    ghost use Rattle.std.specs.Prelude.{List, ℕ};
    ghost use Rattle.pe_supply.specs.Lookups.{AreFirsts};

    ghost Value = { List (List ℕ × ℕ) };

    ghost view = { λ l. l.names.now };

    ghost invariant = { λ l. AreFirsts l.names.now l.index l.numbers };
}

impl<'a> Lookup<'a> {
    /// The look-up in these names.
    pub(crate) fn of(alloc: Global, names: &'a [(Name, u32)]) -> Result<Lookup<'a>, Want>
        ensures { IfOk result (λ lookup. lookup ≡ names.now) }
    {
        let mut index = NameIndex::new(alloc);
        let mut numbers = Items::new(alloc);
        for pair in names {
            if index.insert(pair.0.bytes())? {
                numbers.push(pair.1)?;
            }
        }
        Ok(Lookup {
            names,
            index,
            numbers,
        })
    }

    /// The names, each with the number of its supply.
    pub(crate) fn names(&self) -> &[(Name, u32)]
        ensures { result.now ≡ self.now }
    {
        self.names
    }

    /// The supply of a name.
    pub(crate) fn number(&self, name: &[u8]) -> u32
        ensures { result ≡ number_of self.now name.now }
    {
        match at(self.numbers.as_slice(), self.index.place(name)) {
            Some(number) => *number,
            None => 0,
        }
    }
}
