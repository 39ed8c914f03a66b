//! Names, compared as bytes and never as text.

ghost use Rattle.std.specs.Prelude.{◌≡◌, ◌↔◌, IsTrue, IfOk};
ghost use Rattle.std.specs.Str.{bytes_eq};
ghost use Rattle.pe_base.specs.Names.{has_name, place_of};

use crate::text::Want;
use std::alloc::Global;
use std::marker::Model;

/// A name of a text, which contracts see as its bytes.
#[derive(Debug, Drop)]
pub struct Name {
    bytes: Vec<u8>,
}

impl Model for Name {
    ghost use Rattle.std.specs.Prelude.{List, ℕ};
    ghost use Rattle.std.specs.Coded.{coded_list, coded_ℕ};

    ghost Value = { List ℕ };

    ghost coded = { coded_list coded_ℕ };

    ghost view = { λ n. n.bytes.items };
}

impl Name {
    /// The name of these bytes.
    pub fn new(alloc: Global, bytes: &[u8]) -> Result<Name, Want>
        ensures { IfOk result (λ n. n ≡ bytes.now) }
    {
        let bytes = Vec::from_slice(alloc, bytes)?;
        Ok(Name { bytes })
    }

    /// Its bytes.
    pub fn bytes(&self) -> &[u8]
        ensures { result.now ≡ self.now }
    {
        self.bytes.as_slice()
    }

    /// A second name of the same bytes.
    pub fn copy(&self, alloc: Global) -> Result<Name, Want>
        ensures { IfOk result (λ n. n ≡ self.now) }
    {
        Name::new(alloc, self.bytes())
    }

    /// Whether it has these bytes.
    pub fn is(&self, bytes: &[u8]) -> bool
        ensures same { IsTrue result ↔ (self.now ≡ bytes.now) }
        ensures test { result ≡ bytes_eq self.now bytes.now }
    {
        self.bytes.as_slice() == bytes
    }
}

/// Whether the name is one of these few. It is compared with each: among many names look it up in a `NameSet`.
pub fn has_name(names: &[Name], name: &[u8]) -> bool
    ensures { result ≡ has_name names.now name.now }
{
    names.iter().any(|other| other.is(name))
}

/// The first place of the name among these few, counted from 0, or how many names there are.
pub fn place_of(names: &[Name], name: &[u8]) -> usize
    ensures { result ≡ place_of names.now name.now }
{
    for (i, other) in names.iter().enumerate() {
        if other.is(name) {
            return i;
        }
    }
    names.len()
}
