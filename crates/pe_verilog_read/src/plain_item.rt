//! From derivations to the items that netlists have too, rule by rule.

ghost use Rattle.std.specs.Prelude.{◌≡◌, IfOk};
ghost use Rattle.pe_grammar.specs.Derivation.{derivation};
ghost use Rattle.pe_grammar.specs.Grammar.{Derives};
ghost use Rattle.pe_verilog_read.specs.Items.{value_of, values_of, initial_of, wire_of, wires_of, assign_of, assigns_of, connection_of, pin_of, pins_of, optional_pins_of, instance_of, instances_of, parameter_pins_of, optional_parameter_pins_of, plain_of};
ghost use Rattle.pe_verilog_read.specs.Lists.{list_by};
ghost use Rattle.pe_verilog_read.specs.Plain.{IsPlain, value_at, values_at};
ghost use Rattle.pe_verilog_read.specs.Words.{word_at};

use crate::leaf::leaf;
use crate::plain::{Plain, rtl};
use crate::port::make_port_item;
use crate::target::{make_simple, make_simples, make_target};
use crate::verilog_table::{
    AT_INSTANCES_PART_2, AT_PARAMETER_PINS, AT_PARAMETER_PINS_2, AT_PARAMETER_PINS_3, VERILOG,
};
use crate::whole::{expression, expressions, optional_range};
use crate::words::name;
use pe_base::Name;
use pe_grammar::{Tree, listed, parts, side};
use pe_text::Token;
use pe_verilog_ast::{Ex, Item, NetKind, Pins, Target};
use sqlite_items::Items;
use std::alloc::{AllocError, Global};

/// What is assigned or connected: in a netlist a name, bits of one, a number, or a concatenation of these.
fn make_value(
    alloc: Global,
    text: &[u8],
    tokens: &[Token],
    net: bool,
    tree: &Tree,
) -> Result<Ex, AllocError>
    requires { Derives VERILOG (value_at net) (derivation tree.now) }
    ensures { IfOk result (λ e. e ≡ value_of (word_at text.now tokens.now) net (derivation tree.now)) }
{
    if net {
        make_simple(alloc, text, tokens, tree)
    } else {
        expression(alloc, text, tokens, tree)
    }
}

/// Such expressions with commas between them.
fn make_values(
    alloc: Global,
    text: &[u8],
    tokens: &[Token],
    net: bool,
    tree: &Tree,
) -> Result<Items<Ex>, AllocError>
    requires { Derives VERILOG (values_at net) (derivation tree.now) }
    ensures { IfOk result (λ es. es ≡ values_of (word_at text.now tokens.now) net (derivation tree.now)) }
{
    if net {
        make_simples(alloc, text, tokens, tree)
    } else {
        expressions(alloc, text, tokens, tree)
    }
}

/// What drives a wire from its declaration on, if there is such.
fn make_initial(
    alloc: Global,
    text: &[u8],
    tokens: &[Token],
    places: &Plain,
    tree: &Tree,
) -> Result<Option<Ex>, AllocError>
    requires plain { IsPlain VERILOG places.now }
    requires derives { Derives VERILOG places.now.initial (derivation tree.now) }
    ensures { IfOk result (λ r. r ≡ initial_of (word_at text.now tokens.now) places.now.net (derivation tree.now)) }
{
    match side(&VERILOG, places.initial, tree) {
        Ok(driven) => {
            let (_, value) = parts(&VERILOG, places.driven, driven);
            let value = make_value(alloc, text, tokens, places.net, value)?;
            Ok(Some(value))
        }
        Err(_) => Ok(None),
    }
}

/// A wire of a declaration.
fn make_wire(
    alloc: Global,
    text: &[u8],
    tokens: &[Token],
    places: &Plain,
    tree: &Tree,
) -> Result<(Name, Option<Ex>), AllocError>
    requires plain { IsPlain VERILOG places.now }
    requires derives { Derives VERILOG places.now.wire (derivation tree.now) }
    ensures { IfOk result (λ r. r ≡ wire_of (word_at text.now tokens.now) places.now.net (derivation tree.now)) }
{
    let (net, initial) = parts(&VERILOG, places.wire, tree);
    let name = name(alloc, text, tokens, leaf(net).place)?;
    let value = make_initial(alloc, text, tokens, places, initial)?;
    Ok((name, value))
}

/// Wires with commas between them.
fn make_wire_list(
    alloc: Global,
    text: &[u8],
    tokens: &[Token],
    places: &Plain,
    tree: &Tree,
) -> Result<Items<(Name, Option<Ex>)>, AllocError>
    requires plain { IsPlain VERILOG places.now }
    requires derives { Derives VERILOG places.now.wire_list (derivation tree.now) }
    ensures { IfOk result (λ r. r ≡ list_by (wire_of (word_at text.now tokens.now) places.now.net) (derivation tree.now)) }
{
    let (first, rest) = listed(&VERILOG, places.wire_list, tree);
    let mut all = Items::new(alloc);
    all.push(make_wire(alloc, text, tokens, places, first)?)?;
    for next in rest {
        let (_, wire) = parts(&VERILOG, places.wire_each, next);
        all.push(make_wire(alloc, text, tokens, places, wire)?)?;
    }
    Ok(all)
}

/// A declaration of wires.
fn make_wires(
    alloc: Global,
    text: &[u8],
    tokens: &[Token],
    places: &Plain,
    tree: &Tree,
) -> Result<Item, AllocError>
    requires plain { IsPlain VERILOG places.now }
    requires derives { Derives VERILOG places.now.wires (derivation tree.now) }
    ensures { IfOk result (λ r. r ≡ wires_of (word_at text.now tokens.now) places.now.net (derivation tree.now)) }
{
    let (_, rest) = parts(&VERILOG, places.wires, tree);
    let (range, rest) = parts(&VERILOG, places.wires_2, rest);
    let (list, _) = parts(&VERILOG, places.wires_3, rest);
    let range = optional_range(alloc, text, tokens, range)?;
    let nets = make_wire_list(alloc, text, tokens, places, list)?;
    Ok(Item::Net {
        kind: NetKind::Wire,
        range,
        nets,
    })
}

/// A target, and what drives it.
fn make_assign(
    alloc: Global,
    text: &[u8],
    tokens: &[Token],
    places: &Plain,
    tree: &Tree,
) -> Result<(Target, Ex), AllocError>
    requires plain { IsPlain VERILOG places.now }
    requires derives { Derives VERILOG places.now.assign (derivation tree.now) }
    ensures { IfOk result (λ r. r ≡ assign_of (word_at text.now tokens.now) places.now.net (derivation tree.now)) }
{
    let (target, driven) = parts(&VERILOG, places.assign, tree);
    let (_, value) = parts(&VERILOG, places.driven, driven);
    let target = make_target(alloc, text, tokens, target)?;
    let value = make_value(alloc, text, tokens, places.net, value)?;
    Ok((target, value))
}

/// Such assignments with commas between them.
fn make_assign_list(
    alloc: Global,
    text: &[u8],
    tokens: &[Token],
    places: &Plain,
    tree: &Tree,
) -> Result<Items<(Target, Ex)>, AllocError>
    requires plain { IsPlain VERILOG places.now }
    requires derives { Derives VERILOG places.now.assign_list (derivation tree.now) }
    ensures { IfOk result (λ r. r ≡ list_by (assign_of (word_at text.now tokens.now) places.now.net) (derivation tree.now)) }
{
    let (first, rest) = listed(&VERILOG, places.assign_list, tree);
    let mut all = Items::new(alloc);
    all.push(make_assign(alloc, text, tokens, places, first)?)?;
    for next in rest {
        let (_, assign) = parts(&VERILOG, places.assign_each, next);
        all.push(make_assign(alloc, text, tokens, places, assign)?)?;
    }
    Ok(all)
}

/// `assign`
fn make_assigns(
    alloc: Global,
    text: &[u8],
    tokens: &[Token],
    places: &Plain,
    tree: &Tree,
) -> Result<Item, AllocError>
    requires plain { IsPlain VERILOG places.now }
    requires derives { Derives VERILOG places.now.assigns (derivation tree.now) }
    ensures { IfOk result (λ r. r ≡ assigns_of (word_at text.now tokens.now) places.now.net (derivation tree.now)) }
{
    let (_, rest) = parts(&VERILOG, places.assigns, tree);
    let (list, _) = parts(&VERILOG, places.assigns_2, rest);
    let assigns = make_assign_list(alloc, text, tokens, places, list)?;
    Ok(Item::Assign(assigns))
}

/// What a pin is connected to, if to anything.
fn make_connection(
    alloc: Global,
    text: &[u8],
    tokens: &[Token],
    places: &Plain,
    tree: &Tree,
) -> Result<Option<Ex>, AllocError>
    requires plain { IsPlain VERILOG places.now }
    requires derives { Derives VERILOG places.now.connection (derivation tree.now) }
    ensures { IfOk result (λ r. r ≡ connection_of (word_at text.now tokens.now) places.now.net (derivation tree.now)) }
{
    match side(&VERILOG, places.connection, tree) {
        Ok(value) => {
            let value = make_value(alloc, text, tokens, places.net, value)?;
            Ok(Some(value))
        }
        Err(_) => Ok(None),
    }
}

/// A connection by name.
fn make_pin(
    alloc: Global,
    text: &[u8],
    tokens: &[Token],
    places: &Plain,
    tree: &Tree,
) -> Result<(Name, Option<Ex>), AllocError>
    requires plain { IsPlain VERILOG places.now }
    requires derives { Derives VERILOG places.now.named (derivation tree.now) }
    ensures { IfOk result (λ r. r ≡ pin_of (word_at text.now tokens.now) places.now.net (derivation tree.now)) }
{
    let (_, rest) = parts(&VERILOG, places.named, tree);
    let (pin, rest) = parts(&VERILOG, places.named_2, rest);
    let (_, rest) = parts(&VERILOG, places.named_3, rest);
    let (connection, _) = parts(&VERILOG, places.named_4, rest);
    let name = name(alloc, text, tokens, leaf(pin).place)?;
    let value = make_connection(alloc, text, tokens, places, connection)?;
    Ok((name, value))
}

/// Connections by name.
fn make_named_list(
    alloc: Global,
    text: &[u8],
    tokens: &[Token],
    places: &Plain,
    tree: &Tree,
) -> Result<Items<(Name, Option<Ex>)>, AllocError>
    requires plain { IsPlain VERILOG places.now }
    requires derives { Derives VERILOG places.now.named_list (derivation tree.now) }
    ensures { IfOk result (λ r. r ≡ list_by (pin_of (word_at text.now tokens.now) places.now.net) (derivation tree.now)) }
{
    let (first, rest) = listed(&VERILOG, places.named_list, tree);
    let mut all = Items::new(alloc);
    all.push(make_pin(alloc, text, tokens, places, first)?)?;
    for next in rest {
        let (_, pin) = parts(&VERILOG, places.named_each, next);
        all.push(make_pin(alloc, text, tokens, places, pin)?)?;
    }
    Ok(all)
}

/// Connections, by name or by position.
fn make_pins(
    alloc: Global,
    text: &[u8],
    tokens: &[Token],
    places: &Plain,
    tree: &Tree,
) -> Result<Pins, AllocError>
    requires plain { IsPlain VERILOG places.now }
    requires derives { Derives VERILOG places.now.pins (derivation tree.now) }
    ensures { IfOk result (λ r. r ≡ pins_of (word_at text.now tokens.now) places.now.net (derivation tree.now)) }
{
    match side(&VERILOG, places.pins, tree) {
        Ok(named) => {
            let pins = make_named_list(alloc, text, tokens, places, named)?;
            Ok(Pins::Named(pins))
        }
        Err(placed) => {
            let pins = make_values(alloc, text, tokens, places.net, placed)?;
            Ok(Pins::Placed(pins))
        }
    }
}

/// The connections of an instance, if it has any.
fn make_instance_pins(
    alloc: Global,
    text: &[u8],
    tokens: &[Token],
    places: &Plain,
    tree: &Tree,
) -> Result<Option<Pins>, AllocError>
    requires plain { IsPlain VERILOG places.now }
    requires derives { Derives VERILOG places.now.instance_pins (derivation tree.now) }
    ensures { IfOk result (λ r. r ≡ optional_pins_of (word_at text.now tokens.now) places.now.net (derivation tree.now)) }
{
    match side(&VERILOG, places.instance_pins, tree) {
        Ok(pins) => {
            let pins = make_pins(alloc, text, tokens, places, pins)?;
            Ok(Some(pins))
        }
        Err(_) => Ok(None),
    }
}

/// An instance.
fn make_instance(
    alloc: Global,
    text: &[u8],
    tokens: &[Token],
    places: &Plain,
    tree: &Tree,
) -> Result<(Name, Option<Pins>), AllocError>
    requires plain { IsPlain VERILOG places.now }
    requires derives { Derives VERILOG places.now.instance (derivation tree.now) }
    ensures { IfOk result (λ r. r ≡ instance_of (word_at text.now tokens.now) places.now.net (derivation tree.now)) }
{
    let (instance, rest) = parts(&VERILOG, places.instance, tree);
    let (_, rest) = parts(&VERILOG, places.instance_2, rest);
    let (pins, _) = parts(&VERILOG, places.instance_3, rest);
    let name = name(alloc, text, tokens, leaf(instance).place)?;
    let pins = make_instance_pins(alloc, text, tokens, places, pins)?;
    Ok((name, pins))
}

/// Instances with commas between them.
fn make_instance_list(
    alloc: Global,
    text: &[u8],
    tokens: &[Token],
    places: &Plain,
    tree: &Tree,
) -> Result<Items<(Name, Option<Pins>)>, AllocError>
    requires plain { IsPlain VERILOG places.now }
    requires derives { Derives VERILOG places.now.instance_list (derivation tree.now) }
    ensures { IfOk result (λ r. r ≡ list_by (instance_of (word_at text.now tokens.now) places.now.net) (derivation tree.now)) }
{
    let (first, rest) = listed(&VERILOG, places.instance_list, tree);
    let mut all = Items::new(alloc);
    all.push(make_instance(alloc, text, tokens, places, first)?)?;
    for next in rest {
        let (_, instance) = parts(&VERILOG, places.instance_each, next);
        all.push(make_instance(alloc, text, tokens, places, instance)?)?;
    }
    Ok(all)
}

/// Values of parameters.
fn make_parameter_pins(
    alloc: Global,
    text: &[u8],
    tokens: &[Token],
    tree: &Tree,
) -> Result<Pins, AllocError>
    requires { Derives VERILOG AT_PARAMETER_PINS (derivation tree.now) }
    ensures { IfOk result (λ r. r ≡ parameter_pins_of (word_at text.now tokens.now) (derivation tree.now)) }
{
    let (_, rest) = parts(&VERILOG, AT_PARAMETER_PINS, tree);
    let (_, rest) = parts(&VERILOG, AT_PARAMETER_PINS_2, rest);
    let (pins, _) = parts(&VERILOG, AT_PARAMETER_PINS_3, rest);
    let pins = make_pins(alloc, text, tokens, &rtl(), pins)?;
    Ok(pins)
}

/// Values of parameters, if there are any.
fn make_parameters(
    alloc: Global,
    text: &[u8],
    tokens: &[Token],
    tree: &Tree,
) -> Result<Option<Pins>, AllocError>
    requires { Derives VERILOG AT_INSTANCES_PART_2 (derivation tree.now) }
    ensures { IfOk result (λ r. r ≡ optional_parameter_pins_of (word_at text.now tokens.now) (derivation tree.now)) }
{
    match side(&VERILOG, AT_INSTANCES_PART_2, tree) {
        Ok(pins) => {
            let pins = make_parameter_pins(alloc, text, tokens, pins)?;
            Ok(Some(pins))
        }
        Err(_) => Ok(None),
    }
}

/// Instances of one module or cell.
fn make_instances(
    alloc: Global,
    text: &[u8],
    tokens: &[Token],
    places: &Plain,
    tree: &Tree,
) -> Result<Item, AllocError>
    requires plain { IsPlain VERILOG places.now }
    requires derives { Derives VERILOG places.now.instances (derivation tree.now) }
    ensures { IfOk result (λ r. r ≡ instances_of (word_at text.now tokens.now) places.now.net (derivation tree.now)) }
{
    let (module, rest) = parts(&VERILOG, places.instances, tree);
    let (params, rest) = parts(&VERILOG, places.instances_2, rest);
    let (list, _) = parts(&VERILOG, places.instances_3, rest);
    let module = name(alloc, text, tokens, leaf(module).place)?;
    let params = make_parameters(alloc, text, tokens, params)?;
    let instances = make_instance_list(alloc, text, tokens, places, list)?;
    Ok(Item::Instances {
        module,
        params,
        instances,
    })
}

/// An item that netlists have too.
pub(crate) fn make_plain(
    alloc: Global,
    text: &[u8],
    tokens: &[Token],
    places: &Plain,
    tree: &Tree,
) -> Result<Item, AllocError>
    requires plain { IsPlain VERILOG places.now }
    requires derives { Derives VERILOG places.now.plain (derivation tree.now) }
    ensures { IfOk result (λ r. r ≡ plain_of (word_at text.now tokens.now) places.now.net (derivation tree.now)) }
{
    match side(&VERILOG, places.plain, tree) {
        Ok(port) => make_port_item(alloc, text, tokens, port),
        Err(other) => match side(&VERILOG, places.plain_2, other) {
            Ok(wires) => make_wires(alloc, text, tokens, places, wires),
            Err(other) => match side(&VERILOG, places.plain_3, other) {
                Ok(assigns) => make_assigns(alloc, text, tokens, places, assigns),
                Err(instances) => make_instances(alloc, text, tokens, places, instances),
            },
        },
    }
}
