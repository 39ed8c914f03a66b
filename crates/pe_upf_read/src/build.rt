//! From derivations to trees, command by command.

ghost use Rattle.std.specs.Prelude.{◌≡◌, ◌≤◌, length, map, IfOk};
ghost use Rattle.pe_grammar.specs.Derivation.{derivation};
ghost use Rattle.pe_upf_read.specs.Meaning.{domain_of, port_of, net_of, set_command_of, primary_of, switch_of, port_states_of, row_of, isolation_of, retention_of, named_command, is_ignored, ignored_of, command_of, line_of, intent_of};
ghost use Rattle.pe_upf_read.specs.Options.{roles};
ghost use Rattle.pe_upf_read.specs.Names.{piece_of};

use crate::intent::{Command, Intent};
use crate::names::{make_name, make_names, make_piece};
use crate::options::{
    all_off, all_states, all_twos, control_under, flow_under, has, name_under, names_under,
    needed_name, needed_names, on_under, role_under, sense_under, set_under, side_under, two_under,
};
use crate::parts::{bare, behind, each, head, part};
use crate::table::{
    ADD_PORT_STATE, ADD_PST_STATE, APPLIES_TO, CLAMP_VALUE, CONNECT_SUPPLY_NET, CONTROL_PORT,
    CREATE_POWER_DOMAIN, CREATE_POWER_SWITCH, CREATE_PST, CREATE_SUPPLY_NET, CREATE_SUPPLY_PORT,
    CREATE_SUPPLY_SET, DIRECTION, DOMAIN, ELEMENTS, GROUND, INCLUDE_SCOPE, INPUT_SUPPLY_PORT,
    ISOLATION_SENSE, ISOLATION_SIGNAL, ISOLATION_SUPPLY, LOCATION, MAP_POWER_SWITCH,
    MAP_RETENTION_CELL, NO_ISOLATION, OFF_STATE, ON_STATE, OUTPUT_SUPPLY_PORT, POWER,
    PRIMARY_GROUND_NET, PRIMARY_POWER_NET, PST, RESTORE_SIGNAL, RETENTION_SUPPLY, REUSE,
    SAVE_SIGNAL, SET_DESIGN_TOP, SET_DOMAIN_SUPPLY_NET, SET_ISOLATION, SET_LEVEL_SHIFTER, STATE,
    SUPPLY, UPF_VERSION,
};
use pe_base::{Name, Want};
use pe_grammar::Tree;
use pe_text::Token;
use sqlite_items::Items;
use std::alloc::Global;

fn make_domain(
    alloc: Global,
    text: &[u8],
    tokens: &[Token],
    name: Name,
    options: &[Tree],
) -> Result<Command, Want>
    ensures { IfOk result (λ c. c ≡ domain_of text.now tokens.now name (map derivation options.now)) }
{
    Ok(Command::CreatePowerDomain {
        name,
        elements: names_under(alloc, text, tokens, ELEMENTS, options)?,
        include_scope: has(options, INCLUDE_SCOPE),
        primary: set_under(alloc, text, tokens, SUPPLY, options)?,
    })
}

fn make_port(
    alloc: Global,
    text: &[u8],
    tokens: &[Token],
    name: Name,
    options: &[Tree],
) -> Result<Command, Want>
    ensures { IfOk result (λ c. c ≡ port_of text.now tokens.now name (map derivation options.now)) }
{
    Ok(Command::CreateSupplyPort {
        name,
        direction: flow_under(options, DIRECTION),
        domain: name_under(alloc, text, tokens, DOMAIN, options)?,
    })
}

fn make_net(
    alloc: Global,
    text: &[u8],
    tokens: &[Token],
    name: Name,
    options: &[Tree],
) -> Result<Command, Want>
    ensures { IfOk result (λ c. c ≡ net_of text.now tokens.now name (map derivation options.now)) }
{
    Ok(Command::CreateSupplyNet {
        name,
        domain: name_under(alloc, text, tokens, DOMAIN, options)?,
        reuse: has(options, REUSE),
    })
}

fn make_set(
    alloc: Global,
    text: &[u8],
    tokens: &[Token],
    name: Name,
    functions: &Tree,
) -> Result<Command, Want>
    ensures { IfOk result (λ c. c ≡ set_command_of text.now tokens.now name (roles (derivation functions.now))) }
{
    Ok(Command::CreateSupplySet {
        name,
        power: role_under(alloc, text, tokens, POWER, functions)?,
        ground: role_under(alloc, text, tokens, GROUND, functions)?,
    })
}

fn make_primary(
    alloc: Global,
    text: &[u8],
    tokens: &[Token],
    name: Name,
    options: &[Tree],
) -> Result<Command, Want>
    ensures { IfOk result (λ c. c ≡ primary_of text.now tokens.now name (map derivation options.now)) }
{
    Ok(Command::SetDomainSupplyNet {
        name,
        power: name_under(alloc, text, tokens, PRIMARY_POWER_NET, options)?,
        ground: name_under(alloc, text, tokens, PRIMARY_GROUND_NET, options)?,
    })
}

fn make_switch(
    alloc: Global,
    text: &[u8],
    tokens: &[Token],
    name: Name,
    options: &[Tree],
) -> Result<Command, Want>
    requires { length text.now ≤ 16777216 }
    ensures { IfOk result (λ c. c ≡ switch_of text.now tokens.now name (map derivation options.now)) }
{
    Ok(Command::CreatePowerSwitch {
        name,
        domain: name_under(alloc, text, tokens, DOMAIN, options)?,
        output: two_under(alloc, text, tokens, OUTPUT_SUPPLY_PORT, options)?,
        input: two_under(alloc, text, tokens, INPUT_SUPPLY_PORT, options)?,
        controls: all_twos(alloc, text, tokens, CONTROL_PORT, options)?,
        on: on_under(alloc, text, tokens, ON_STATE, options)?,
        off: all_off(alloc, text, tokens, OFF_STATE, options)?,
    })
}

fn make_port_states(
    alloc: Global,
    text: &[u8],
    tokens: &[Token],
    port: Name,
    options: &[Tree],
) -> Result<Command, Want>
    ensures { IfOk result (λ c. c ≡ port_states_of text.now tokens.now port (map derivation options.now)) }
{
    Ok(Command::AddPortState {
        port,
        states: all_states(alloc, text, tokens, STATE, options)?,
    })
}

fn make_row(
    alloc: Global,
    text: &[u8],
    tokens: &[Token],
    name: Name,
    options: &[Tree],
) -> Result<Command, Want>
    ensures { IfOk result (λ c. c ≡ row_of text.now tokens.now name (map derivation options.now)) }
{
    Ok(Command::AddPstState {
        name,
        table: needed_name(alloc, text, tokens, PST, options)?,
        states: needed_names(alloc, text, tokens, STATE, options)?,
    })
}

fn make_isolation(
    alloc: Global,
    text: &[u8],
    tokens: &[Token],
    name: Name,
    options: &[Tree],
) -> Result<Command, Want>
    ensures { IfOk result (λ c. c ≡ isolation_of text.now tokens.now name (map derivation options.now)) }
{
    Ok(Command::SetIsolation {
        name,
        domain: needed_name(alloc, text, tokens, DOMAIN, options)?,
        applies_to: side_under(options, APPLIES_TO),
        elements: names_under(alloc, text, tokens, ELEMENTS, options)?,
        clamp: name_under(alloc, text, tokens, CLAMP_VALUE, options)?,
        signal: name_under(alloc, text, tokens, ISOLATION_SIGNAL, options)?,
        sense: sense_under(options, ISOLATION_SENSE),
        supply: name_under(alloc, text, tokens, ISOLATION_SUPPLY, options)?,
        location: name_under(alloc, text, tokens, LOCATION, options)?,
        no_isolation: has(options, NO_ISOLATION),
    })
}

fn make_retention(
    alloc: Global,
    text: &[u8],
    tokens: &[Token],
    name: Name,
    options: &[Tree],
) -> Result<Command, Want>
    ensures { IfOk result (λ c. c ≡ retention_of text.now tokens.now name (map derivation options.now)) }
{
    Ok(Command::SetRetention {
        name,
        domain: needed_name(alloc, text, tokens, DOMAIN, options)?,
        elements: names_under(alloc, text, tokens, ELEMENTS, options)?,
        supply: name_under(alloc, text, tokens, RETENTION_SUPPLY, options)?,
        save: control_under(alloc, text, tokens, SAVE_SIGNAL, options)?,
        restore: control_under(alloc, text, tokens, RESTORE_SIGNAL, options)?,
    })
}

/// A command that begins with this word, by its name and what stands behind the name.
#[tactic(auto, unfolding(crate::specs::Meaning::named_command))]
fn make_named(
    alloc: Global,
    text: &[u8],
    tokens: &[Token],
    word: u16,
    name: Name,
    rest: &Tree,
) -> Result<Command, Want>
    requires { length text.now ≤ 16777216 }
    ensures { IfOk result (λ c. c ≡ named_command text.now tokens.now word name (derivation rest.now)) }
{
    match word {
        UPF_VERSION => Ok(Command::UpfVersion(name)),
        SET_DESIGN_TOP => Ok(Command::SetDesignTop(name)),
        CREATE_POWER_DOMAIN => make_domain(alloc, text, tokens, name, each(rest)),
        CREATE_SUPPLY_PORT => make_port(alloc, text, tokens, name, each(rest)),
        CREATE_SUPPLY_NET => make_net(alloc, text, tokens, name, each(rest)),
        CONNECT_SUPPLY_NET => {
            let ports = make_names(alloc, text, tokens, behind(rest, 1))?;
            Ok(Command::ConnectSupplyNet { name, ports })
        }
        CREATE_SUPPLY_SET => make_set(alloc, text, tokens, name, rest),
        SET_DOMAIN_SUPPLY_NET => make_primary(alloc, text, tokens, name, each(rest)),
        CREATE_POWER_SWITCH => make_switch(alloc, text, tokens, name, each(rest)),
        ADD_PORT_STATE => make_port_states(alloc, text, tokens, name, each(rest)),
        CREATE_PST => {
            let supplies = make_names(alloc, text, tokens, behind(rest, 1))?;
            Ok(Command::CreatePst { name, supplies })
        }
        ADD_PST_STATE => make_row(alloc, text, tokens, name, each(rest)),
        SET_ISOLATION => make_isolation(alloc, text, tokens, name, each(rest)),
        _ => make_retention(alloc, text, tokens, name, each(rest)),
    }
}

fn is_ignored(word: u16) -> bool
    ensures { result ≡ is_ignored word }
{
    word == SET_LEVEL_SHIFTER || word == MAP_RETENTION_CELL || word == MAP_POWER_SWITCH
}

/// Words, or what stands between their braces.
fn make_pieces(
    alloc: Global,
    text: &[u8],
    tokens: &[Token],
    trees: &[Tree],
) -> Result<Items<Name>, Want>
    requires { length text.now ≤ 16777216 }
    ensures { IfOk result (λ words. words ≡ map (piece_of text.now tokens.now) (map derivation trees.now)) }
{
    let mut words = Items::new(alloc);
    for tree in trees {
        words.push(make_piece(alloc, text, tokens, tree)?)?;
    }
    Ok(words)
}

/// A command whose words have no effect.
fn make_ignored(alloc: Global, text: &[u8], tokens: &[Token], tree: &Tree) -> Result<Command, Want>
    requires { length text.now ≤ 16777216 }
    ensures { IfOk result (λ c. c ≡ ignored_of text.now tokens.now (derivation tree.now)) }
{
    Ok(Command::Ignored {
        command: make_name(alloc, text, tokens, part(tree, 0))?,
        words: make_pieces(alloc, text, tokens, each(behind(tree, 1)))?,
    })
}

#[tactic(auto, unfolding(crate::specs::Meaning::command_of))]
fn make_command(alloc: Global, text: &[u8], tokens: &[Token], tree: &Tree) -> Result<Command, Want>
    requires { length text.now ≤ 16777216 }
    ensures { IfOk result (λ c. c ≡ command_of text.now tokens.now (derivation tree.now)) }
{
    let command = bare(tree);
    let word = head(command);
    if is_ignored(word) {
        make_ignored(alloc, text, tokens, command)
    } else {
        let name = make_name(alloc, text, tokens, part(command, 1))?;
        make_named(alloc, text, tokens, word, name, behind(command, 2))
    }
}

/// The tree of a derivation.
#[tactic(auto, unfolding(crate::specs::Meaning::intent_of))]
pub(crate) fn make_intent(
    alloc: Global,
    text: &[u8],
    tokens: &[Token],
    tree: &Tree,
) -> Result<Intent, Want>
    requires { length text.now ≤ 16777216 }
    ensures { IfOk result (λ i. i ≡ intent_of text.now tokens.now (derivation tree.now)) }
{
    let commands = make_lines(alloc, text, tokens, each(behind(tree, 1)))?;
    Ok(Intent { commands })
}

/// The commands of lines.
fn make_lines(
    alloc: Global,
    text: &[u8],
    tokens: &[Token],
    lines: &[Tree],
) -> Result<Items<Command>, Want>
    requires { length text.now ≤ 16777216 }
    ensures { IfOk result (λ commands. commands ≡ map (line_of text.now tokens.now) (map derivation lines.now)) }
{
    let mut commands = Items::new(alloc);
    for line in lines {
        commands.push(make_command(alloc, text, tokens, part(line, 0))?)?;
    }
    Ok(commands)
}
