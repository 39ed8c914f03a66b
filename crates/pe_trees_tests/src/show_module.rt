//! Writes modules of Verilog in few words.
//!
//! A test stands in parentheses with its branches, and so does each arm of a case. A module is its name, its head, and each
//! of its items behind a `;`.

use crate::show_expression::{show, show_list, show_name, show_select};
use pe_base::Name;
use pe_text::Lang;
use pe_verilog_ast::{
    Arm, Dir, Edge, Event, Ex, HeadPort, Item, Module, NetKind, Param, Pins, Port, Range, Stmt,
    Target,
};
use pe_verilog_read::read_verilog;
use std::alloc::{AllocError, Global};
use std::process::Abort;
use std::test::Fail;

fn show_target(alloc: Global, out: &mut String, target: &Target) -> Result<(), AllocError> {
    match target {
        Target::Net { name, select } => {
            show_name(out, name)?;
            show_select(alloc, out, select)
        }
        Target::Join(parts) => {
            for (i, part) in parts.as_slice().iter().enumerate() {
                out.push_str(if i == 0 { "{" } else { ", " })?;
                show_target(alloc, out, part)?;
            }
            out.push_str("}")
        }
    }
}

fn show_labels(alloc: Global, out: &mut String, labels: &[Ex]) -> Result<(), AllocError> {
    if labels.is_empty() {
        out.push_str("default")
    } else {
        show_list(alloc, out, labels)
    }
}

#[cycle(statements)]
fn show_arms(alloc: Global, out: &mut String, arms: &[Arm]) -> Result<(), AllocError> {
    for arm in arms {
        out.push_str(" (")?;
        show_labels(alloc, out, arm.labels.as_slice())?;
        out.push_str(": ")?;
        show_statement(alloc, out, &arm.body)?;
        out.push_str(")")?;
    }
    Ok(())
}

#[cycle(statements)]
fn show_body(alloc: Global, out: &mut String, body: &[Stmt]) -> Result<(), AllocError> {
    for statement in body {
        out.push_str(" ")?;
        show_statement(alloc, out, statement)?;
    }
    Ok(())
}

fn show_block_name(out: &mut String, name: &Option<Name>) -> Result<(), AllocError> {
    match name {
        Some(name) => {
            out.push_str(" : ")?;
            show_name(out, name)
        }
        None => Ok(()),
    }
}

fn show_subject(
    alloc: Global,
    out: &mut String,
    wild: bool,
    subject: &Ex,
) -> Result<(), AllocError> {
    out.push_str(if wild { "casez " } else { "case " })?;
    show(alloc, out, subject)
}

fn show_assignment(
    alloc: Global,
    out: &mut String,
    target: &Target,
    blocking: bool,
    value: &Ex,
) -> Result<(), AllocError> {
    show_target(alloc, out, target)?;
    out.push_str(if blocking { " = " } else { " <= " })?;
    show(alloc, out, value)?;
    out.push_str(";")
}

#[cycle(statements)]
fn show_statement(alloc: Global, out: &mut String, statement: &Stmt) -> Result<(), AllocError> {
    match statement {
        Stmt::Block { name, body } => {
            out.push_str("begin")?;
            show_block_name(out, name)?;
            show_body(alloc, out, body.as_slice())?;
            out.push_str(" end")
        }
        Stmt::If { cond, yes, no } => {
            out.push_str("(if ")?;
            show(alloc, out, cond)?;
            out.push_str(" ")?;
            show_statement(alloc, out, yes.get())?;
            match no {
                Some(no) => {
                    out.push_str(" else ")?;
                    show_statement(alloc, out, no.get())?;
                    out.push_str(")")
                }
                None => out.push_str(")"),
            }
        }
        Stmt::Case {
            wild,
            subject,
            arms,
        } => {
            show_subject(alloc, out, *wild, subject)?;
            show_arms(alloc, out, arms.as_slice())?;
            out.push_str(" end")
        }
        Stmt::Assign {
            target,
            blocking,
            value,
        } => show_assignment(alloc, out, target, *blocking, value),
        Stmt::Empty => out.push_str(";"),
    }
}

fn edge_mark(edge: Option<Edge>) -> &'static str {
    match edge {
        Some(Edge::Rising) => "posedge ",
        Some(Edge::Falling) => "negedge ",
        None => "",
    }
}

fn show_events(out: &mut String, events: &[Event]) -> Result<(), AllocError> {
    for (i, event) in events.iter().enumerate() {
        out.push_str(if i == 0 { "(" } else { ", " })?;
        out.push_str(edge_mark(event.edge))?;
        show_name(out, &event.name)?;
    }
    out.push_str(if events.is_empty() { "*" } else { ")" })
}

fn show_range(alloc: Global, out: &mut String, range: &Option<Range>) -> Result<(), AllocError> {
    match range {
        Some(Range { left, right }) => {
            out.push_str("[")?;
            show(alloc, out, left)?;
            out.push_str(":")?;
            show(alloc, out, right)?;
            out.push_str("] ")
        }
        None => Ok(()),
    }
}

fn kind_mark(kind: Option<NetKind>) -> &'static str {
    match kind {
        Some(NetKind::Wire) => "wire ",
        Some(NetKind::Reg) => "reg ",
        None => "",
    }
}

fn direction_mark(direction: Dir) -> &'static str {
    match direction {
        Dir::Input => "input ",
        Dir::Output => "output ",
        Dir::Inout => "inout ",
    }
}

fn show_port(alloc: Global, out: &mut String, port: &Port) -> Result<(), AllocError> {
    out.push_str(direction_mark(port.dir))?;
    out.push_str(kind_mark(port.kind))?;
    show_range(alloc, out, &port.range)?;
    show_name(out, &port.name)
}

fn show_others(out: &mut String, names: &[Name]) -> Result<(), AllocError> {
    for name in names {
        out.push_str(", ")?;
        show_name(out, name)?;
    }
    Ok(())
}

fn show_driver(alloc: Global, out: &mut String, driver: &Option<Ex>) -> Result<(), AllocError> {
    match driver {
        Some(driver) => {
            out.push_str(" = ")?;
            show(alloc, out, driver)
        }
        None => Ok(()),
    }
}

fn show_nets(
    alloc: Global,
    out: &mut String,
    nets: &[(Name, Option<Ex>)],
) -> Result<(), AllocError> {
    for (i, net) in nets.iter().enumerate() {
        out.push_str(if i == 0 { "" } else { ", " })?;
        show_name(out, &net.0)?;
        show_driver(alloc, out, &net.1)?;
    }
    Ok(())
}

fn show_settings(
    alloc: Global,
    out: &mut String,
    settings: &[(Name, Ex)],
) -> Result<(), AllocError> {
    for (i, setting) in settings.iter().enumerate() {
        out.push_str(if i == 0 { "" } else { ", " })?;
        show_name(out, &setting.0)?;
        out.push_str(" = ")?;
        show(alloc, out, &setting.1)?;
    }
    Ok(())
}

fn show_assigns(
    alloc: Global,
    out: &mut String,
    assigns: &[(Target, Ex)],
) -> Result<(), AllocError> {
    for (i, assign) in assigns.iter().enumerate() {
        out.push_str(if i == 0 { "" } else { ", " })?;
        show_target(alloc, out, &assign.0)?;
        out.push_str(" = ")?;
        show(alloc, out, &assign.1)?;
    }
    Ok(())
}

fn show_pin(alloc: Global, out: &mut String, value: &Option<Ex>) -> Result<(), AllocError> {
    match value {
        Some(value) => show(alloc, out, value),
        None => Ok(()),
    }
}

fn show_pins(alloc: Global, out: &mut String, pins: &Pins) -> Result<(), AllocError> {
    match pins {
        Pins::Placed(values) => show_list(alloc, out, values.as_slice()),
        Pins::Named(pins) => {
            for (i, pin) in pins.as_slice().iter().enumerate() {
                out.push_str(if i == 0 { "." } else { ", ." })?;
                show_name(out, &pin.0)?;
                out.push_str("(")?;
                show_pin(alloc, out, &pin.1)?;
                out.push_str(")")?;
            }
            Ok(())
        }
    }
}

/// Writes values of parameters, if there are any.
fn show_params(alloc: Global, out: &mut String, params: &Option<Pins>) -> Result<(), AllocError> {
    match params {
        Some(pins) => {
            out.push_str(" #(")?;
            show_pins(alloc, out, pins)?;
            out.push_str(")")
        }
        None => Ok(()),
    }
}

/// Writes connections, which stand in parentheses also where there are none.
fn show_connections(
    alloc: Global,
    out: &mut String,
    pins: &Option<Pins>,
) -> Result<(), AllocError> {
    out.push_str(" (")?;
    match pins {
        Some(pins) => {
            show_pins(alloc, out, pins)?;
            out.push_str(")")
        }
        None => out.push_str(")"),
    }
}

fn show_instances(
    alloc: Global,
    out: &mut String,
    instances: &[(Name, Option<Pins>)],
) -> Result<(), AllocError> {
    for (i, instance) in instances.iter().enumerate() {
        out.push_str(if i == 0 { " " } else { ", " })?;
        show_name(out, &instance.0)?;
        show_connections(alloc, out, &instance.1)?;
    }
    Ok(())
}

fn show_item(alloc: Global, out: &mut String, item: &Item) -> Result<(), AllocError> {
    match item {
        Item::Port { first, more } => {
            show_port(alloc, out, first)?;
            show_others(out, more.as_slice())
        }
        Item::Net { kind, range, nets } => {
            out.push_str(kind_mark(Some(*kind)))?;
            show_range(alloc, out, range)?;
            show_nets(alloc, out, nets.as_slice())
        }
        Item::Param {
            local,
            range,
            values,
        } => {
            out.push_str(if *local { "localparam " } else { "parameter " })?;
            show_range(alloc, out, range)?;
            show_settings(alloc, out, values.as_slice())
        }
        Item::Assign(assigns) => {
            out.push_str("assign ")?;
            show_assigns(alloc, out, assigns.as_slice())
        }
        Item::Always { events, body } => {
            out.push_str("always ")?;
            show_events(out, events.as_slice())?;
            out.push_str(" ")?;
            show_statement(alloc, out, body)
        }
        Item::Instances {
            module,
            params,
            instances,
        } => {
            show_name(out, module)?;
            show_params(alloc, out, params)?;
            show_instances(alloc, out, instances.as_slice())
        }
    }
}

fn show_head_params(alloc: Global, out: &mut String, params: &[Param]) -> Result<(), AllocError> {
    for (i, param) in params.iter().enumerate() {
        out.push_str(if i == 0 { " #(" } else { ", " })?;
        show_range(alloc, out, &param.range)?;
        show_name(out, &param.name)?;
        out.push_str(" = ")?;
        show(alloc, out, &param.value)?;
    }
    out.push_str(if params.is_empty() { "" } else { ")" })
}

fn show_head_port(alloc: Global, out: &mut String, port: &HeadPort) -> Result<(), AllocError> {
    match port {
        HeadPort::Named(name) => show_name(out, name),
        HeadPort::Declared(port) => show_port(alloc, out, port),
    }
}

fn show_head_ports(alloc: Global, out: &mut String, ports: &[HeadPort]) -> Result<(), AllocError> {
    for (i, port) in ports.iter().enumerate() {
        out.push_str(if i == 0 { " (" } else { ", " })?;
        show_head_port(alloc, out, port)?;
    }
    out.push_str(if ports.is_empty() { "" } else { ")" })
}

fn show_module(alloc: Global, out: &mut String, module: &Module) -> Result<(), AllocError> {
    show_name(out, &module.name)?;
    show_head_params(alloc, out, module.params.as_slice())?;
    show_head_ports(alloc, out, module.ports.as_slice())?;
    for item in module.items.as_slice() {
        out.push_str("; ")?;
        show_item(alloc, out, item)?;
    }
    Ok(())
}

/// The modules of a text of RTL or of a netlist, each in a line of its own.
fn shown(alloc: Global, net: bool, text: &[u8]) -> Result<String, Fail> {
    let source = if net {
        read_verilog(alloc, Lang::Netlist, text)?
    } else {
        read_verilog(alloc, Lang::Rtl, text)?
    };
    let mut out = String::new(alloc);
    for (i, module) in source.modules.as_slice().iter().enumerate() {
        out.push_str(if i == 0 { "" } else { "\n" })?;
        show_module(alloc, &mut out, module)?;
    }
    Ok(out)
}

/// Whether a text of RTL or of a netlist has the tree that is wanted.
pub(crate) fn expect(
    rt: &impl Abort,
    alloc: Global,
    net: bool,
    text: &str,
    wanted: &str,
) -> Result<(), Fail> {
    let lines = shown(alloc, net, text.as_bytes())?;
    assert_eq!(rt; lines.as_str(), wanted, "{text}");
    Ok(())
}
