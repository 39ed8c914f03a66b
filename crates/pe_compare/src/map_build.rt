//! From derivations of the map file's grammar to its lines, rule by rule.

ghost use Rattle.std.specs.Prelude.{◌≡◌, ◌++◌, [], IfOk, OnOk};
ghost use Rattle.std.specs.List.{cons_option};
ghost use Rattle.pe_grammar.specs.Derivation.{derivation, left, right, pair, nothing};
ghost use Rattle.pe_grammar.specs.Grammar.{Derives};
ghost use Rattle.pe_compare.specs.MapMeaning.{name_of, first_of, second_of, is_one, design_of, port_of, register_of, row_of, line_of, map_of};

use crate::map::{MapFile, MapLine};
use crate::map_table::{
    AT_BIT, AT_DESIGN, AT_DESIGN_PART_1, AT_DESIGN_PART_2, AT_INVERTED, AT_LINE, AT_LINE_2,
    AT_LINE_3, AT_LINE_4, AT_MAP, AT_NAME, AT_NAME_2, AT_NAME_3, AT_ONE, AT_PORT, AT_PORT_2,
    AT_PORT_PART_1, AT_PORT_PART_2, AT_PORT_PART_3, AT_PORT_PART_3_2, AT_PORT_PART_3_3,
    AT_REGISTER, AT_REGISTER_PART_1, AT_REGISTER_PART_1_2, AT_REGISTER_PART_1_3,
    AT_REGISTER_PART_1_4, AT_REGISTER_PART_2, AT_ROW, AT_ROW_PART_1, AT_ROW_PART_2, AT_TOKEN_INV,
    AT_TOKEN_ONE, AT_TOKEN_WORD, AT_TOKEN_ZERO, AT_TWO, AT_TWO_2, MAP,
};
use pe_base::{Name, Want};
use pe_grammar::{Tree, options, parts, side, token};
use pe_reader::name;
use pe_text::Token;
use sqlite_items::Items;
use std::alloc::Global;

/// A name.
fn make_name(alloc: Global, text: &[u8], tokens: &[Token], tree: &Tree) -> Result<Name, Want>
    requires { Derives MAP AT_NAME (derivation tree.now) }
    ensures { IfOk result (λ n. n ≡ name_of text.now tokens.now (derivation tree.now)) }
{
    let word = match side(&MAP, AT_NAME, tree) {
        Ok(word) => token(&MAP, AT_TOKEN_WORD, word),
        Err(other) => match side(&MAP, AT_NAME_2, other) {
            Ok(inv) => token(&MAP, AT_TOKEN_INV, inv),
            Err(other) => match side(&MAP, AT_NAME_3, other) {
                Ok(zero) => token(&MAP, AT_TOKEN_ZERO, zero),
                Err(one) => token(&MAP, AT_TOKEN_ONE, one),
            },
        },
    };
    name(alloc, text, tokens, word.place)
}

/// The name of a line that has one.
fn make_one(alloc: Global, text: &[u8], tokens: &[Token], tree: &Tree) -> Result<Name, Want>
    requires { Derives MAP AT_ONE (derivation tree.now) }
    ensures { IfOk result (λ n. n ≡ first_of text.now tokens.now (derivation tree.now)) }
{
    let (only, _) = parts(&MAP, AT_ONE, tree);
    make_name(alloc, text, tokens, only)
}

/// The names of a line that has two.
fn make_two(alloc: Global, text: &[u8], tokens: &[Token], tree: &Tree) -> Result<(Name, Name), Want>
    requires { Derives MAP AT_TWO (derivation tree.now) }
    ensures first { IfOk result (λ ns. ns.0 ≡ first_of text.now tokens.now (derivation tree.now)) }
    ensures second { IfOk result (λ ns. ns.1 ≡ second_of text.now tokens.now (derivation tree.now)) }
{
    let (first, rest) = parts(&MAP, AT_TWO, tree);
    let (second, _) = parts(&MAP, AT_TWO_2, rest);
    let first = make_name(alloc, text, tokens, first)?;
    let second = make_name(alloc, text, tokens, second)?;
    Ok((first, second))
}

/// A line on the whole design.
fn make_design(
    alloc: Global,
    text: &[u8],
    tokens: &[Token],
    tree: &Tree,
) -> Result<Option<MapLine>, Want>
    requires { Derives MAP AT_DESIGN (derivation tree.now) }
    ensures { IfOk result (λ l. l ≡ design_of text.now tokens.now (derivation tree.now)) }
{
    match side(&MAP, AT_DESIGN, tree) {
        Ok(top) => {
            let (_, names) = parts(&MAP, AT_DESIGN_PART_1, top);
            let (rtl, net) = make_two(alloc, text, tokens, names)?;
            Ok(Some(MapLine::Top(rtl, net)))
        }
        Err(clock) => {
            let (_, port) = parts(&MAP, AT_DESIGN_PART_2, clock);
            let port = make_one(alloc, text, tokens, port)?;
            Ok(Some(MapLine::Clock(port)))
        }
    }
}

/// A line on a port.
fn make_port(
    alloc: Global,
    text: &[u8],
    tokens: &[Token],
    tree: &Tree,
) -> Result<Option<MapLine>, Want>
    requires { Derives MAP AT_PORT (derivation tree.now) }
    ensures { IfOk result (λ l. l ≡ port_of text.now tokens.now (derivation tree.now)) }
{
    match side(&MAP, AT_PORT, tree) {
        Ok(supply) => {
            let (_, names) = parts(&MAP, AT_PORT_PART_1, supply);
            let (net, root) = make_two(alloc, text, tokens, names)?;
            Ok(Some(MapLine::Supply(net, root)))
        }
        Err(other) => match side(&MAP, AT_PORT_2, other) {
            Ok(port) => {
                let (_, names) = parts(&MAP, AT_PORT_PART_2, port);
                let (rtl, net) = make_two(alloc, text, tokens, names)?;
                Ok(Some(MapLine::Port(rtl, net)))
            }
            Err(tie) => {
                let (_, tied) = parts(&MAP, AT_PORT_PART_3, tie);
                make_tie(alloc, text, tokens, tied)
            }
        },
    }
}

/// A line on an input that has a value, behind its first word.
fn make_tie(
    alloc: Global,
    text: &[u8],
    tokens: &[Token],
    tree: &Tree,
) -> Result<Option<MapLine>, Want>
    requires { Derives MAP AT_PORT_PART_3_2 (derivation tree.now) }
    ensures { IfOk result (λ l. l ≡ port_of text.now tokens.now (right (right (pair nothing (derivation tree.now))))) }
{
    let (input, rest) = parts(&MAP, AT_PORT_PART_3_2, tree);
    let (bit, _) = parts(&MAP, AT_PORT_PART_3_3, rest);
    let input = make_name(alloc, text, tokens, input)?;
    let is_one = side(&MAP, AT_BIT, bit).is_err();
    Ok(Some(MapLine::Tie(input, is_one)))
}

/// A line on a register.
fn make_register(
    alloc: Global,
    text: &[u8],
    tokens: &[Token],
    tree: &Tree,
) -> Result<Option<MapLine>, Want>
    requires { Derives MAP AT_REGISTER (derivation tree.now) }
    ensures { IfOk result (λ l. l ≡ register_of text.now tokens.now (derivation tree.now)) }
{
    match side(&MAP, AT_REGISTER, tree) {
        Ok(reg) => {
            let (_, names) = parts(&MAP, AT_REGISTER_PART_1, reg);
            make_pair(alloc, text, tokens, names)
        }
        Err(drop) => {
            let (_, register) = parts(&MAP, AT_REGISTER_PART_2, drop);
            let register = make_one(alloc, text, tokens, register)?;
            Ok(Some(MapLine::Drop(register)))
        }
    }
}

/// A line on registers that belong together, behind its first word.
fn make_pair(
    alloc: Global,
    text: &[u8],
    tokens: &[Token],
    tree: &Tree,
) -> Result<Option<MapLine>, Want>
    requires { Derives MAP AT_REGISTER_PART_1_2 (derivation tree.now) }
    ensures { IfOk result (λ l. l ≡ register_of text.now tokens.now (left (pair nothing (derivation tree.now)))) }
{
    let (rtl, rest) = parts(&MAP, AT_REGISTER_PART_1_2, tree);
    let (net, rest) = parts(&MAP, AT_REGISTER_PART_1_3, rest);
    let (inverted, _) = parts(&MAP, AT_REGISTER_PART_1_4, rest);
    let rtl = make_name(alloc, text, tokens, rtl)?;
    let net = make_name(alloc, text, tokens, net)?;
    let inv = side(&MAP, AT_INVERTED, inverted).is_ok();
    Ok(Some(MapLine::Reg { rtl, net, inv }))
}

/// A line on rows.
fn make_row(
    alloc: Global,
    text: &[u8],
    tokens: &[Token],
    tree: &Tree,
) -> Result<Option<MapLine>, Want>
    requires { Derives MAP AT_ROW (derivation tree.now) }
    ensures { IfOk result (λ l. l ≡ row_of text.now tokens.now (derivation tree.now)) }
{
    match side(&MAP, AT_ROW, tree) {
        Ok(start) => {
            let (_, row) = parts(&MAP, AT_ROW_PART_1, start);
            let row = make_one(alloc, text, tokens, row)?;
            Ok(Some(MapLine::Start(row)))
        }
        Err(step) => {
            let (_, rows) = parts(&MAP, AT_ROW_PART_2, step);
            let (from, to) = make_two(alloc, text, tokens, rows)?;
            Ok(Some(MapLine::Step(from, to)))
        }
    }
}

/// What a line says, if it is not empty.
fn make_line(
    alloc: Global,
    text: &[u8],
    tokens: &[Token],
    tree: &Tree,
) -> Result<Option<MapLine>, Want>
    requires { Derives MAP AT_LINE (derivation tree.now) }
    ensures { IfOk result (λ l. l ≡ line_of text.now tokens.now (derivation tree.now)) }
{
    match side(&MAP, AT_LINE, tree) {
        Ok(design) => make_design(alloc, text, tokens, design),
        Err(other) => match side(&MAP, AT_LINE_2, other) {
            Ok(port) => make_port(alloc, text, tokens, port),
            Err(other) => match side(&MAP, AT_LINE_3, other) {
                Ok(register) => make_register(alloc, text, tokens, register),
                Err(other) => match side(&MAP, AT_LINE_4, other) {
                    Ok(row) => make_row(alloc, text, tokens, row),
                    Err(_) => Ok(None),
                },
            },
        },
    }
}

/// Adds a line, if it says something.
fn add(lines: &mut Items<MapLine>, line: Option<MapLine>) -> Result<(), Want>
    ensures { OnOk result (lines.new ≡ lines.old ++ cons_option line []) }
{
    match line {
        Some(line) => lines.push(line)?,
        None => {}
    }
    Ok(())
}

/// The lines of the whole grammar.
pub(crate) fn make_map(
    alloc: Global,
    text: &[u8],
    tokens: &[Token],
    tree: &Tree,
) -> Result<MapFile, Want>
    requires { Derives MAP AT_MAP (derivation tree.now) }
    ensures { IfOk result (λ m. m ≡ map_of text.now tokens.now (derivation tree.now)) }
{
    let mut lines = Items::new(alloc);
    for line in options(&MAP, AT_MAP, tree) {
        let said = make_line(alloc, text, tokens, line)?;
        add(&mut lines, said)?;
    }
    Ok(MapFile { lines })
}
