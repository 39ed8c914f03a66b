//! Ports, wires and assignments.

ghost use Rattle.std.specs.Prelude.{◌≡◌, ◌∷◌, MatchOption, [], None, Some};
ghost use Rattle.std.specs.Option.{option_copied};
ghost use Rattle.pe_assigns.specs.Form.{is_input as is_input_dir, is_output as is_output_dir, is_plain, is_plain_port as is_plain_port_of, is_plain_item as is_plain_item_of, port_name as name_of_port, is_input_port as is_input_port_of, is_output_port as is_output_port_of, target_of, wires_in, assigns_in};

use crate::logic::is_whole;
use pe_base::Name;
use pe_verilog_ast::{Dir, Ex, HeadPort, Item, NetKind, Port, Target};

fn is_input(dir: Dir) -> bool
    ensures { result ≡ is_input_dir dir }
{
    matches!(dir, Dir::Input)
}

fn is_output(dir: Dir) -> bool
    ensures { result ≡ is_output_dir dir }
{
    matches!(dir, Dir::Output)
}

// Whether a port has one bit and a direction, and no kind.
fn is_plain(port: &Port) -> bool
    ensures { result ≡ is_plain port.now }
{
    (is_input(port.dir) || is_output(port.dir)) && port.kind.is_none() && port.range.is_none()
}

/// Whether a port of the head is declared there, with one bit, as an input or an output, and with no kind.
pub fn is_plain_port(port: &HeadPort) -> bool
    ensures { result ≡ is_plain_port_of port.now }
{
    match port {
        HeadPort::Named(_) => false,
        HeadPort::Declared(port) => is_plain(port),
    }
}

pub(crate) fn port_name(port: &HeadPort) -> &Name
    ensures { result.now ≡ name_of_port port.now }
{
    match port {
        HeadPort::Named(name) => name,
        HeadPort::Declared(port) => &port.name,
    }
}

pub(crate) fn is_input_port(port: &HeadPort) -> bool
    ensures { result ≡ is_input_port_of port.now }
{
    match port {
        HeadPort::Named(_) => false,
        HeadPort::Declared(port) => is_input(port.dir),
    }
}

pub(crate) fn is_output_port(port: &HeadPort) -> bool
    ensures { result ≡ is_output_port_of port.now }
{
    match port {
        HeadPort::Named(_) => false,
        HeadPort::Declared(port) => is_output(port.dir),
    }
}

// The net that a target is, if it is a whole one.
#[tactic(auto, using(crate::proofs::Targets::targets))]
pub(crate) fn target_of(target: &Target) -> Option<&Name>
    ensures { option_copied result ≡ target_of target.now }
{
    match target {
        Target::Net { name, select } => { if is_whole(select) { Some(name) } else { None } }
        Target::Join(_) => None,
    }
}

/// The net that an item declares: `wire NAME;`.
pub fn wire_of(item: &Item) -> Option<&Name>
    ensures { MatchOption result (wires_in item.now ≡ []) (λ name. wires_in item.now ≡ name.now ∷ []) }
{
    match item {
        Item::Net {
            kind: NetKind::Wire,
            range: None,
            nets,
        } => match nets.as_slice() {
            [(name, None)] => Some(name),
            _ => None,
        },
        _ => None,
    }
}

// The assignment that an item is: `assign NAME = EX;`.
pub(crate) fn assign_of(item: &Item) -> Option<(&Name, &Ex)>
    ensures { MatchOption result (assigns_in item.now ≡ []) (λ a. assigns_in item.now ≡ (a.0.now, a.1.now) ∷ []) }
{
    match item {
        Item::Assign(list) => match list.as_slice() {
            [(target, value)] => match target_of(target) {
                Some(name) => Some((name, value)),
                None => None,
            },
            _ => None,
        },
        _ => None,
    }
}

// Whether an item is a wire or an assignment.
pub(crate) fn is_plain_item(item: &Item) -> bool
    ensures { result ≡ is_plain_item_of item.now }
{
    wire_of(item).is_some() || assign_of(item).is_some()
}
