//! From derivations to the heads of modules.

ghost use Rattle.std.specs.Prelude.{◌≡◌, IfOk};
ghost use Rattle.pe_grammar.specs.Derivation.{derivation};
ghost use Rattle.pe_grammar.specs.Grammar.{Derives};
ghost use Rattle.pe_verilog_read.specs.Lists.{list_by};
ghost use Rattle.pe_verilog_read.specs.Modules.{head_parameter_of, head_parameters_of, named_port_of, declared_by, head_port_of, renamed, head_ports_of, ports_of, optional_ports_of, port_head_of};
ghost use Rattle.pe_verilog_read.specs.Words.{word_at};

use crate::item::make_setting;
use crate::leaf::leaf;
use crate::port::make_port;
use crate::verilog_table::{
    AT_HEAD_PARAMETER, AT_HEAD_PARAMETER_2, AT_HEAD_PARAMETERS, AT_HEAD_PARAMETERS_PART_2_EACH,
    AT_HEAD_PORT, AT_HEAD_PORTS, AT_HEAD_PORTS_PART_2_EACH, AT_HEADING_PART_2, AT_HEADING_PART_3,
    AT_NAMES, AT_NAMES_PART_2_EACH, AT_PARAMETER_HEAD, AT_PARAMETER_HEAD_2, AT_PARAMETER_HEAD_3,
    AT_PORT, AT_PORT_HEAD, AT_PORT_HEAD_2, AT_PORT_HEAD_PART_2, AT_PORTS, AT_TOKEN_NAME, VERILOG,
};
use crate::whole::optional_range;
use crate::words::name;
use pe_base::Name;
use pe_grammar::{Tree, listed, parts, side};
use pe_text::Token;
use pe_verilog_ast::{HeadPort, Param, Port};
use sqlite_items::Items;
use std::alloc::{AllocError, Global};

/// A parameter of a head.
fn make_head_parameter(
    alloc: Global,
    text: &[u8],
    tokens: &[Token],
    tree: &Tree,
) -> Result<Param, AllocError>
    requires { Derives VERILOG AT_HEAD_PARAMETER (derivation tree.now) }
    ensures { IfOk result (λ r. r ≡ head_parameter_of (word_at text.now tokens.now) (derivation tree.now)) }
{
    let (_, rest) = parts(&VERILOG, AT_HEAD_PARAMETER, tree);
    let (range, setting) = parts(&VERILOG, AT_HEAD_PARAMETER_2, rest);
    let range = optional_range(alloc, text, tokens, range)?;
    let (name, value) = make_setting(alloc, text, tokens, setting)?;
    Ok(Param { range, name, value })
}

/// Parameters of a head with commas between them.
fn make_head_parameters(
    alloc: Global,
    text: &[u8],
    tokens: &[Token],
    tree: &Tree,
) -> Result<Items<Param>, AllocError>
    requires { Derives VERILOG AT_HEAD_PARAMETERS (derivation tree.now) }
    ensures { IfOk result (λ r. r ≡ list_by (head_parameter_of (word_at text.now tokens.now)) (derivation tree.now)) }
{
    let (first, rest) = listed(&VERILOG, AT_HEAD_PARAMETERS, tree);
    let mut all = Items::new(alloc);
    all.push(make_head_parameter(alloc, text, tokens, first)?)?;
    for next in rest {
        let (_, parameter) = parts(&VERILOG, AT_HEAD_PARAMETERS_PART_2_EACH, next);
        all.push(make_head_parameter(alloc, text, tokens, parameter)?)?;
    }
    Ok(all)
}

/// The parameters of a head, if it has any.
pub(crate) fn make_parameter_head(
    alloc: Global,
    text: &[u8],
    tokens: &[Token],
    tree: &Tree,
) -> Result<Items<Param>, AllocError>
    requires { Derives VERILOG AT_HEADING_PART_2 (derivation tree.now) }
    ensures { IfOk result (λ r. r ≡ head_parameters_of (word_at text.now tokens.now) (derivation tree.now)) }
{
    match side(&VERILOG, AT_HEADING_PART_2, tree) {
        Ok(head) => {
            let (_, rest) = parts(&VERILOG, AT_PARAMETER_HEAD, head);
            let (_, rest) = parts(&VERILOG, AT_PARAMETER_HEAD_2, rest);
            let (list, _) = parts(&VERILOG, AT_PARAMETER_HEAD_3, rest);
            make_head_parameters(alloc, text, tokens, list)
        }
        Err(_) => Ok(Items::new(alloc)),
    }
}

/// A port of a head that is a name alone.
fn make_named_port(
    alloc: Global,
    text: &[u8],
    tokens: &[Token],
    tree: &Tree,
) -> Result<HeadPort, AllocError>
    requires { Derives VERILOG AT_TOKEN_NAME (derivation tree.now) }
    ensures { IfOk result (λ r. r ≡ named_port_of (word_at text.now tokens.now) (derivation tree.now)) }
{
    let name = name(alloc, text, tokens, leaf(tree).place)?;
    Ok(HeadPort::Named(name))
}

/// Names with commas between them.
fn make_named_ports(
    alloc: Global,
    text: &[u8],
    tokens: &[Token],
    tree: &Tree,
) -> Result<Items<HeadPort>, AllocError>
    requires { Derives VERILOG AT_NAMES (derivation tree.now) }
    ensures { IfOk result (λ r. r ≡ list_by (named_port_of (word_at text.now tokens.now)) (derivation tree.now)) }
{
    let (first, rest) = listed(&VERILOG, AT_NAMES, tree);
    let mut all = Items::new(alloc);
    all.push(make_named_port(alloc, text, tokens, first)?)?;
    for next in rest {
        let (_, port) = parts(&VERILOG, AT_NAMES_PART_2_EACH, next);
        all.push(make_named_port(alloc, text, tokens, port)?)?;
    }
    Ok(all)
}

/// The declaration that a further name takes direction, kind and range of.
fn last_port<'a>(last: &'a Tree, tree: &'a Tree) -> &'a Tree
    requires last { Derives VERILOG AT_PORT (derivation last.now) }
    requires derives { Derives VERILOG AT_HEAD_PORT (derivation tree.now) }
    ensures port { Derives VERILOG AT_PORT (derivation result.now) }
    ensures is { derivation result.now ≡ declared_by (derivation last.now) (derivation tree.now) }
{
    match side(&VERILOG, AT_HEAD_PORT, tree) {
        Ok(port) => port,
        Err(_) => last,
    }
}

/// A port behind a declared one.
fn make_head_port(
    alloc: Global,
    text: &[u8],
    tokens: &[Token],
    last: &Tree,
    tree: &Tree,
) -> Result<HeadPort, AllocError>
    requires last { Derives VERILOG AT_PORT (derivation last.now) }
    requires derives { Derives VERILOG AT_HEAD_PORT (derivation tree.now) }
    ensures { IfOk result (λ r. r ≡ head_port_of (word_at text.now tokens.now) (derivation last.now) (derivation tree.now)) }
{
    match side(&VERILOG, AT_HEAD_PORT, tree) {
        Ok(port) => {
            let port = make_port(alloc, text, tokens, port)?;
            Ok(HeadPort::Declared(port))
        }
        Err(named) => {
            let port = make_port(alloc, text, tokens, last)?;
            let name = name(alloc, text, tokens, leaf(named).place)?;
            let port = rename(port, name);
            Ok(HeadPort::Declared(port))
        }
    }
}

/// The port of another name.
fn rename(port: Port, name: Name) -> Port
    ensures { result ≡ renamed port name }
{
    let Port {
        dir,
        kind,
        range,
        name: _name,
    } = port;
    Port {
        dir,
        kind,
        range,
        name,
    }
}

/// Ports of a head, the first of which is declared.
fn make_head_ports(
    alloc: Global,
    text: &[u8],
    tokens: &[Token],
    tree: &Tree,
) -> Result<Items<HeadPort>, AllocError>
    requires { Derives VERILOG AT_HEAD_PORTS (derivation tree.now) }
    ensures { IfOk result (λ r. r ≡ head_ports_of (word_at text.now tokens.now) (derivation tree.now)) }
{
    let (first, rest) = listed(&VERILOG, AT_HEAD_PORTS, tree);
    let mut all = Items::new(alloc);
    let port = make_port(alloc, text, tokens, first)?;
    all.push(HeadPort::Declared(port))?;
    let mut last = first;
    for next in rest {
        let (_, port) = parts(&VERILOG, AT_HEAD_PORTS_PART_2_EACH, next);
        all.push(make_head_port(alloc, text, tokens, last, port)?)?;
        last = last_port(last, port);
    }
    Ok(all)
}

/// The ports of a head.
fn make_ports(
    alloc: Global,
    text: &[u8],
    tokens: &[Token],
    tree: &Tree,
) -> Result<Items<HeadPort>, AllocError>
    requires { Derives VERILOG AT_PORTS (derivation tree.now) }
    ensures { IfOk result (λ r. r ≡ ports_of (word_at text.now tokens.now) (derivation tree.now)) }
{
    match side(&VERILOG, AT_PORTS, tree) {
        Ok(names) => make_named_ports(alloc, text, tokens, names),
        Err(ports) => make_head_ports(alloc, text, tokens, ports),
    }
}

/// The ports between parentheses, if there are any.
fn make_optional_ports(
    alloc: Global,
    text: &[u8],
    tokens: &[Token],
    tree: &Tree,
) -> Result<Items<HeadPort>, AllocError>
    requires { Derives VERILOG AT_PORT_HEAD_PART_2 (derivation tree.now) }
    ensures { IfOk result (λ r. r ≡ optional_ports_of (word_at text.now tokens.now) (derivation tree.now)) }
{
    match side(&VERILOG, AT_PORT_HEAD_PART_2, tree) {
        Ok(ports) => make_ports(alloc, text, tokens, ports),
        Err(_) => Ok(Items::new(alloc)),
    }
}

/// The ports of a head, if it has any.
pub(crate) fn make_port_head(
    alloc: Global,
    text: &[u8],
    tokens: &[Token],
    tree: &Tree,
) -> Result<Items<HeadPort>, AllocError>
    requires { Derives VERILOG AT_HEADING_PART_3 (derivation tree.now) }
    ensures { IfOk result (λ r. r ≡ port_head_of (word_at text.now tokens.now) (derivation tree.now)) }
{
    match side(&VERILOG, AT_HEADING_PART_3, tree) {
        Ok(head) => {
            let (_, rest) = parts(&VERILOG, AT_PORT_HEAD, head);
            let (ports, _) = parts(&VERILOG, AT_PORT_HEAD_2, rest);
            make_optional_ports(alloc, text, tokens, ports)
        }
        Err(_) => Ok(Items::new(alloc)),
    }
}
