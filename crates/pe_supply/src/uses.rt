//! Whether what commands speak of is made.

ghost use Rattle.std.specs.Prelude.{◌≡◌, map, find, IfOk};
ghost use Rattle.std.specs.Option.{option_copied};
ghost use Rattle.pe_supply.specs.Uses.{set_names, table_names, is_missing_among, name_used, first_missing};

use crate::plan::{Plan, SetText, TableText, Use};
use pe_base::{Name, NameSet, Want};
use sqlite_items::Items;
use std::alloc::Global;

/// The names of supply sets.
fn set_names(alloc: Global, sets: &[SetText]) -> Result<Items<Name>, Want>
    ensures { IfOk result (λ names. names ≡ map (λ s. s.name) sets.now) }
{
    let mut names = Items::new(alloc);
    for set in sets {
        names.push(set.name.copy(alloc)?)?;
    }
    Ok(names)
}

/// The names of power state tables.
fn table_names(alloc: Global, tables: &[TableText]) -> Result<Items<Name>, Want>
    ensures { IfOk result (λ names. names ≡ map (λ t. t.name) tables.now) }
{
    let mut names = Items::new(alloc);
    for table in tables {
        names.push(table.name.copy(alloc)?)?;
    }
    Ok(names)
}

/// Whether it is not among the names that are made.
fn is_missing(
    names: &NameSet,
    ports: &NameSet,
    sets: &NameSet,
    tables: &NameSet,
    used: &Use,
) -> bool
    ensures { result ≡ is_missing_among names.now ports.now sets.now tables.now used.now }
{
    match used {
        Use::Supply(name) => !names.contains(name.bytes()),
        Use::Port(name) => !ports.contains(name.bytes()),
        Use::Set(name) => !sets.contains(name.bytes()),
        Use::Table(name) => !tables.contains(name.bytes()),
        Use::Input(name, own) => !name.is(own.bytes()),
    }
}

/// The first that is missing.
fn first_missing_of<'a>(
    names: &NameSet,
    ports: &NameSet,
    sets: &NameSet,
    tables: &NameSet,
    uses: &'a [Use],
) -> Option<&'a Use>
    ensures { option_copied result ≡ find (is_missing_among names.now ports.now sets.now tables.now) uses.now }
{
    for used in uses {
        if is_missing(names, ports, sets, tables, used) {
            return Some(used);
        }
    }
    None
}

/// The name that is used.
fn name_used(used: &Use) -> &Name
    ensures { result.now ≡ name_used used.now }
{
    match used {
        Use::Supply(name) => name,
        Use::Port(name) => name,
        Use::Set(name) => name,
        Use::Table(name) => name,
        Use::Input(name, _) => name,
    }
}

/// The first name that a command speaks of and no command makes.
pub(crate) fn first_missing(alloc: Global, plan: &Plan) -> Result<Option<Name>, Want>
    ensures { IfOk result (λ name. name ≡ first_missing plan.now) }
{
    let sets = set_names(alloc, plan.sets.as_slice())?;
    let tables = table_names(alloc, plan.tables.as_slice())?;
    let names = NameSet::of(alloc, plan.names.as_slice())?;
    let ports = NameSet::of(alloc, plan.ports.as_slice())?;
    let sets = NameSet::of(alloc, sets.as_slice())?;
    let tables = NameSet::of(alloc, tables.as_slice())?;
    match first_missing_of(&names, &ports, &sets, &tables, plan.uses.as_slice()) {
        Some(used) => {
            let name = name_used(used).copy(alloc)?;
            Ok(Some(name))
        }
        None => Ok(None),
    }
}
