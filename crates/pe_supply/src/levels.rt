//! What the states of supplies say, which are looked up by an index.

ghost use Rattle.std.specs.Prelude.{◌≡◌, map, find, IfOk};
ghost use Rattle.pe_supply.specs.Keys.{key_of, said_by, state_key};
ghost use Rattle.pe_supply.specs.Tables.{is_state, level_in};

use crate::lookup::Lookup;
use crate::plan::PortState;
use crate::supplies::Level;
use pe_base::{Name, Want};
use pe_nets::NameIndex;
use sqlite_items::{Items, at};
use std::alloc::Global;
use std::marker::Model;

/// What a state is looked up by: the number of its supply as four bytes, the lowest first, and behind them its name.
fn key_of(alloc: Global, supply: u32, name: &[u8]) -> Result<Name, Want>
    ensures { IfOk result (λ key. key ≡ key_of supply name.now) }
{
    let mut bytes = Vec::from_slice(alloc, &supply.to_le_bytes())?;
    bytes.extend_from_slice(name)?;
    let key = Name::new(alloc, bytes.as_slice())?;
    Ok(key)
}

/// The keys of states.
pub(crate) fn state_keys(
    alloc: Global,
    names: &Lookup,
    states: &[PortState],
) -> Result<Items<Name>, Want>
    ensures { IfOk result (λ keys. keys ≡ map (state_key names.now) states.now) }
{
    let mut keys = Items::new(alloc);
    for state in states {
        let supply = names.number(state.port.bytes());
        let key = key_of(alloc, supply, state.name.bytes())?;
        keys.push(key)?;
    }
    Ok(keys)
}

/// What a state says of its supply.
fn said_by(state: &PortState) -> Level
    ensures { result ≡ said_by state.now }
{
    if state.on { Level::On } else { Level::Off }
}

/// States of ports, which contracts see beside the names that tell the ports' supplies. Of two states of one supply and one
/// name, the first counts.
#[derive(Drop)]
pub(crate) struct StateIndex<'a> {
    names: &'a [(Name, u32)],
    states: &'a [PortState],
    /// The different keys of the states, and what the first state of each says at its place.
    index: NameIndex<'a>,
    levels: Items<Level>,
}

impl<'a> Model for StateIndex<'a> {
    ghost use Rattle.std.specs.Prelude.{map};
    ghost use Rattle.pe_supply.specs.Keys.{NamedStates, keyed};
    ghost use Rattle.pe_supply.specs.Lookups.{AreFirsts};

    ghost Value = { NamedStates };

    ghost view = { λ s. record { names = s.names.now; states = s.states.now } };

    ghost invariant = { λ s. AreFirsts (map (keyed s.names.now) s.states.now) s.index s.levels };
}

impl<'a> StateIndex<'a> {
    /// The index of states by their keys.
    pub(crate) fn of(
        alloc: Global,
        names: &'a [(Name, u32)],
        states: &'a [PortState],
        keys: &'a [Name],
    ) -> Result<StateIndex<'a>, Want>
        requires { keys.now ≡ map (state_key names.now) states.now }
        ensures names { IfOk result (λ all. all.names ≡ names.now) }
        ensures states { IfOk result (λ all. all.states ≡ states.now) }
    {
        let mut index = NameIndex::new(alloc);
        let mut levels = Items::new(alloc);
        for (i, state) in states.iter().enumerate() {
            if index.insert(keys[i].bytes())? {
                levels.push(said_by(state))?;
            }
        }
        Ok(StateIndex {
            names,
            states,
            index,
            levels,
        })
    }

    /// What the first state of a supply and a name says of the supply.
    pub(crate) fn level(
        &self,
        alloc: Global,
        supply: u32,
        name: &[u8],
    ) -> Result<Option<Level>, Want>
        ensures { IfOk result (λ level. level ≡ level_in (find (is_state self.now.names supply name.now) self.now.states)) }
    {
        let key = key_of(alloc, supply, name)?;
        match at(self.levels.as_slice(), self.index.place(key.bytes())) {
            Some(level) => Ok(Some(*level)),
            None => Ok(None),
        }
    }
}
