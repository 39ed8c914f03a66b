//! Whether a tree is of the form.

ghost use Rattle.std.specs.Prelude.{◌≡◌, ◌++◌, ◌&&◌, List, ℕ, IfOk};
ghost use Rattle.pe_verilog_ast.specs.declared.expression.Ex.{Ex as Expression};
ghost use Rattle.std.specs.List.{list_all};
ghost use Rattle.pe_assigns.specs.Form.{is_plain_port as is_plain_port_of, is_plain_item as is_plain_item_of, input_names as input_names_of, assigns, assigns_in, are_ordered, is_driven_once, is_form, is_rtl_form};

use crate::assign::{assign_of, is_plain_item, is_plain_port};
use crate::logic::is_read;
use crate::names::{driven_names, input_names, nets, targets};
use pe_base::{NameSet, Want, all_among, are_distinct};
use pe_verilog_ast::{Item, Module, Source};
use std::alloc::Global;

// Whether an item's assignment, if it is one, is of known nets alone; its target is known then.
fn admit<'a>(known: &mut NameSet<'a>, item: &'a Item) -> Result<bool, Want>
    ensures { IfOk result (λ b. (more : List (List ℕ × Expression)) → are_ordered known.old (assigns_in item.now ++ more) ≡ (b && are_ordered known.new more)) }
{
    match assign_of(item) {
        None => Ok(true),
        Some((name, value)) => {
            if !is_read(value, known) {
                return Ok(false);
            }
            known.insert(name.bytes())?;
            Ok(true)
        }
    }
}

// Whether each assignment is of inputs and of targets before it.
fn are_ordered(alloc: Global, m: &Module) -> Result<bool, Want>
    ensures { IfOk result (λ b. b ≡ are_ordered (input_names_of m.now) (assigns m.now)) }
{
    let inputs = input_names(alloc, m)?;
    let mut known = NameSet::of(alloc, inputs.as_slice())?;
    for item in m.items.as_slice() {
        if !admit(&mut known, item)? {
            return Ok(false);
        }
    }
    Ok(true)
}

// Whether each output and wire is assigned once, and nothing else is.
fn is_driven(alloc: Global, m: &Module) -> Result<bool, Want>
    ensures { IfOk result (λ b. b ≡ is_driven_once m.now) }
{
    let targets = targets(alloc, m)?;
    let driven = driven_names(alloc, m)?;
    Ok(
        are_distinct(alloc, targets.as_slice())?
            && all_among(alloc, targets.as_slice(), driven.as_slice())?
            && all_among(alloc, driven.as_slice(), targets.as_slice())?,
    )
}

// Whether each port of the head is declared there, with one bit and a direction.
fn are_plain_ports(m: &Module) -> bool
    ensures { result ≡ list_all is_plain_port_of m.now.ports }
{
    m.ports.as_slice().iter().all(|port| is_plain_port(port))
}

// Whether each item is a wire or an assignment.
fn are_plain_items(m: &Module) -> bool
    ensures { result ≡ list_all is_plain_item_of m.now.items }
{
    m.items.as_slice().iter().all(|item| is_plain_item(item))
}

// Whether the module is of the form.
fn is_form(alloc: Global, m: &Module) -> Result<bool, Want>
    ensures { IfOk result (λ b. b ≡ is_form m.now) }
{
    if !m.params.is_empty() {
        return Ok(false);
    }
    if !are_plain_ports(m) {
        return Ok(false);
    }
    if !are_plain_items(m) {
        return Ok(false);
    }
    let names = nets(alloc, m)?;
    if !are_distinct(alloc, names.as_slice())? {
        return Ok(false);
    }
    if !is_driven(alloc, m)? {
        return Ok(false);
    }
    let ordered = are_ordered(alloc, m)?;
    Ok(ordered)
}

/// Whether a text of RTL has one module, and it is of one-bit assignments: ports and wires of one bit, of different names;
/// each output and wire is assigned once, and nothing else is; the expressions are of whole nets by `~`, `&` and `|`, and
/// read inputs and what was assigned before them.
pub fn is_rtl_form(alloc: Global, source: &Source) -> Result<bool, Want>
    ensures { IfOk result (λ b. b ≡ is_rtl_form source.now) }
{
    match source.modules.as_slice() {
        [m] => is_form(alloc, m),
        _ => Ok(false),
    }
}
