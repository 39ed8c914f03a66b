//! The names that the functions of a cell may have.

ghost use Rattle.std.specs.Prelude.{◌≡◌, ◌++◌, OnOk, IfOk};
ghost use Rattle.pe_cells.specs.Naming.{signal_names, pg_word, pg_words, pin_names, state_names, all_names};
ghost use Rattle.pe_cells.specs.Kinds.{pgs_of};

use crate::cell::Pg;
use crate::form::first_ff;
use crate::kinds::{is_open, is_pin, is_well};
use pe_base::{Name, Want};
use pe_liberty_read::Group;
use sqlite_items::Items;
use std::alloc::Global;

/// Adds copies of some names.
fn add_copies(alloc: Global, names: &mut Items<Name>, more: &[Name]) -> Result<(), Want>
    ensures { OnOk result (names.new ≡ names.old ++ more.now) }
{
    for name in more {
        names.push(name.copy(alloc)?)?;
    }
    Ok(())
}

/// The names of the signal pins.
fn make_signal_names(alloc: Global, groups: &[Group]) -> Result<Items<Name>, Want>
    ensures { IfOk result (λ names. names ≡ signal_names groups.now) }
{
    let mut names = Items::new(alloc);
    for group in groups {
        if is_pin(group) {
            add_copies(alloc, &mut names, group.args.as_slice())?;
        }
    }
    Ok(names)
}

/// What stands for a power or ground pin among the names of a function: its name, and where that means a well, the empty
/// text, which no function names.
fn pg_text<'a>(pgs: &[Pg], pg: &'a Pg) -> &'a [u8]
    ensures { result.now ≡ pg_word pgs.now pg.now }
{
    if !is_well(pg.kind) && is_open(pgs, pg.name.bytes()) {
        pg.name.bytes()
    } else {
        b"".as_slice()
    }
}

/// The names that a function over the pins alone may have.
pub(crate) fn make_pin_names(
    alloc: Global,
    groups: &[Group],
    pgs: &[Pg],
) -> Result<Items<Name>, Want>
    requires { pgs.now ≡ pgs_of groups.now }
    ensures { IfOk result (λ names. names ≡ pin_names groups.now) }
{
    let mut names = make_signal_names(alloc, groups)?;
    add_pgs(alloc, &mut names, pgs)?;
    Ok(names)
}

/// Adds what stands for the power and ground pins.
fn add_pgs(alloc: Global, names: &mut Items<Name>, pgs: &[Pg]) -> Result<(), Want>
    ensures { OnOk result (names.new ≡ names.old ++ pg_words pgs.now) }
{
    for pg in pgs {
        names.push(Name::new(alloc, pg_text(pgs, pg))?)?;
    }
    Ok(())
}

/// The names of IQ and IQN.
fn states(ff: &Group) -> &[Name]
    ensures { result.now ≡ state_names (Some ff.now) }
{
    let args = ff.args.as_slice();
    let end = args.len().min(2);
    &args[..end]
}

/// The names that a function may have.
pub(crate) fn make_all_names(
    alloc: Global,
    groups: &[Group],
    pgs: &[Pg],
) -> Result<Items<Name>, Want>
    requires { pgs.now ≡ pgs_of groups.now }
    ensures { IfOk result (λ names. names ≡ all_names groups.now) }
{
    let mut names = make_pin_names(alloc, groups, pgs)?;
    if let Some(ff) = first_ff(groups) {
        add_copies(alloc, &mut names, states(ff))?;
    }
    Ok(names)
}
