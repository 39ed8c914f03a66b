//! Reads the functions of a cell.

ghost use Rattle.std.specs.Prelude.{◌≡◌, ◌≤◌, true, [], ◌∷◌, OnOk, IfOk, length};
ghost use Rattle.pe_cells.specs.Functions.{is_short_group, is_short_text, is_short_attr, is_short_cell, are_short_cells, Reads, Judges, IsUsed, use_of, use_if};

use crate::form::{Found, add_if};
use crate::looking::{place, text};
use pe_base::{Name, Want};
use pe_bool_expr::{Expr, ExprFault, Style, parse};
use pe_liberty_read::{Attr, Group};
use sqlite_items::Items;
use std::alloc::Global;

/// How long a function's text may be.
const MOST: usize = 16_777_216;

fn is_short(text: &Name) -> bool
    ensures { result ≡ is_short_text text.now }
{
    text.bytes().len() <= MOST
}

fn has_short_values(attr: &Attr) -> bool
    ensures { result ≡ is_short_attr attr.now }
{
    attr.values.as_slice().iter().all(|value| is_short(value))
}

fn has_short_attrs(group: &Group) -> bool
    ensures { result ≡ is_short_group group.now }
{
    group
        .attrs
        .as_slice()
        .iter()
        .all(|attr| has_short_values(attr))
}

fn has_short_groups(cell: &Group) -> bool
    ensures { result ≡ is_short_cell cell.now }
{
    cell.groups
        .as_slice()
        .iter()
        .all(|group| has_short_attrs(group))
}

/// Whether no value in the groups of the library's groups is longer than 16,777,216 bytes, the longest text that may be read
/// as a function.
pub fn has_short_functions(library: &Group) -> bool
    ensures { result ≡ are_short_cells library.now }
{
    library
        .groups
        .as_slice()
        .iter()
        .all(|cell| has_short_groups(cell))
}

/// The function that a text is, and none where it is no function.
fn function_of(alloc: Global, names: &[Name], text: &[u8]) -> Result<Option<Expr>, Want>
    requires { length text.now ≤ 16777216 }
    ensures { IfOk result (Reads names.now text.now) }
{
    match parse(alloc, text, Style::Liberty, names) {
        Ok(function) => Ok(Some(function)),
        Err(ExprFault::Memory) => Err(Want),
        Err(ExprFault::Syntax { at: _ }) => Ok(None),
        Err(ExprFault::NoName { at: _ }) => Ok(None),
        Err(ExprFault::Deep { at: _ }) => Ok(None),
        Err(ExprFault::Inputs { count: _ }) => Ok(None),
    }
}

/// The function that an attribute says. Where it says none, that is added to the faults.
pub(crate) fn read(
    alloc: Global,
    names: &[Name],
    faults: &mut Items<Found>,
    group: &Group,
    attribute: &[u8],
) -> Result<Option<Expr>, Want>
    requires { is_short_group group.now ≡ true }
    ensures judged { OnOk result (Judges (use_of names.now group.now attribute.now ∷ []) faults.old faults.new) }
    ensures function { IfOk result (λ o. faults.new ≡ [] → IsUsed (use_of names.now group.now attribute.now) true o) }
{
    let function = function_of(alloc, names, text(group, attribute))?;
    let wrong = function.is_none();
    let place = place(group, attribute);
    add_if(alloc, faults, wrong, place, attribute)?;
    Ok(function)
}

/// The function that an attribute says, where it is used.
pub(crate) fn read_if(
    alloc: Global,
    names: &[Name],
    faults: &mut Items<Found>,
    group: &Group,
    attribute: &[u8],
    used: bool,
) -> Result<Option<Expr>, Want>
    requires { is_short_group group.now ≡ true }
    ensures judged { OnOk result (Judges (use_if used (use_of names.now group.now attribute.now)) faults.old faults.new) }
    ensures function { IfOk result (λ o. faults.new ≡ [] → IsUsed (use_of names.now group.now attribute.now) used o) }
{
    if used {
        let function = read(alloc, names, faults, group, attribute)?;
        Ok(function)
    } else {
        Ok(None)
    }
}
