//! The supplies of an intent.

ghost use Rattle.std.specs.Prelude.{◌≡◌, ◌⊎◌, IfOk, IfErr, MatchResult, Result, Err};
ghost use Rattle.std.specs.List.{AllZip};
ghost use Rattle.pe_supply.specs.declared.fault.SupplyFault.{SupplyFault};
ghost use Rattle.pe_supply.specs.declared.fault.SupplyFault.TheVariants as fault;
ghost use Rattle.pe_supply.specs.declared.plan.Plan.{Plan};
ghost use Rattle.pe_supply.specs.declared.supplies.Supplies.{Supplies};
ghost use Rattle.pe_supply.specs.Building.{AreNamed, AreDriven, AreOnNets, AreFed, HaveFunctions, HaveRows, HaveTable, AreLong, HaveStates, AreFew, AreSupplies, IsBuilt, IsRefusal, IsRefused, IsOutcome, IsSwitchOf};
ghost use Rattle.pe_supply.specs.Drivers.{edges_of};
ghost use Rattle.pe_supply.specs.Parts.{with_names};
ghost use Rattle.pe_supply.specs.Steps.{told};
ghost use Rattle.pe_supply.specs.Tables.{table_in};
ghost use Rattle.pe_supply.specs.Plans.{plan_of};
ghost use Rattle.pe_supply.specs.Whole.{IsWhole};
ghost use Rattle.pe_supply.specs.WellFormed.{IsWellFormed};
ghost use Rattle.pe_upf_read.specs.declared.intent.Intent.{Intent};

use crate::drivers::{edges_of, first_driven_twice, first_elsewhere, first_looped, roots};
use crate::fault::SupplyFault;
use crate::levels::{StateIndex, state_keys};
use crate::lookup::Lookup;
use crate::numbers::{first_name, number_names, supply_count};
use crate::plan::Plan;
use crate::planning::plan_of;
use crate::supplies::{Row, Supplies, Switch};
use crate::switches::make_switches;
use crate::tables::{
    columns, first_unknown, first_unlike, rows_in, second_table, sets_in, table_in,
};
use crate::uses::first_missing;
use pe_base::{Name, Want};
use pe_upf_read::Intent;
use sqlite_items::Items;
use std::alloc::Global;

/// How many rows, and how many supplies, there may be.
const ROWS: usize = 64;

const SUPPLIES: u64 = 64;

/// What supplies have besides their names.
#[derive(Drop)]
struct Parts {
    roots: Items<u32>,
    switches: Items<Switch>,
    sets: Items<(Name, Option<u32>, Option<u32>)>,
    table: Items<u32>,
    rows: Items<Row>,
}

/// A number, or the greatest where it is larger.
fn told(count: u64) -> u32
    ensures { result ≡ told count }
{
    match u32::try_from(count) {
        Ok(count) => count,
        Err(_) => u32::MAX,
    }
}

/// The names that are made, numbered, where everything that is used is made.
fn name_all(alloc: Global, plan: &Plan) -> Result<Items<(Name, u32)>, SupplyFault>
    requires { IsWhole plan.now }
    ensures { MatchResult result (AreNamed plan.now) (IsRefusal plan.now) }
{
    match first_missing(alloc, plan)? {
        Some(name) => Err(SupplyFault::NoSupply { name }),
        None => {
            let names = number_names(alloc, plan.names.as_slice(), plan.ties.as_slice())?;
            Ok(names)
        }
    }
}

/// Whether no two outputs of switches are names of one supply.
fn check_once(
    alloc: Global,
    plan: &Plan,
    names: &[(Name, u32)],
    edges: &[(u32, u32)],
) -> Result<(), SupplyFault>
    requires named { AreNamed plan.now names.now }
    requires edges { edges.now ≡ edges_of names.now plan.now.switches }
    ensures { MatchResult result (λ _. AreDriven plan.now names.now) (IsRefusal plan.now) }
{
    match first_driven_twice(alloc, edges, supply_count(names))? {
        Some(supply) => {
            let name = Name::new(alloc, first_name(names, supply))?;
            Err(SupplyFault::TwoDrivers { name })
        }
        None => Ok(()),
    }
}

/// Whether no port is on two nets.
fn check_nets(alloc: Global, plan: &Plan, names: &[(Name, u32)]) -> Result<(), SupplyFault>
    requires { AreDriven plan.now names.now }
    ensures { MatchResult result (λ _. AreOnNets plan.now names.now) (IsRefusal plan.now) }
{
    match first_elsewhere(alloc, plan.nets.as_slice(), plan.ties.as_slice())? {
        Some(port) => Err(SupplyFault::TwoNets { port }),
        None => Ok(()),
    }
}

/// Whether no supply reaches itself.
fn check_loops(
    alloc: Global,
    plan: &Plan,
    names: &[(Name, u32)],
    edges: &[(u32, u32)],
) -> Result<(), SupplyFault>
    requires whole { IsWhole plan.now }
    requires on_nets { AreOnNets plan.now names.now }
    requires edges { edges.now ≡ edges_of names.now plan.now.switches }
    ensures { MatchResult result (λ _. AreFed plan.now names.now) (IsRefusal plan.now) }
{
    match first_looped(edges, supply_count(names)) {
        Some(supply) => {
            let name = Name::new(alloc, first_name(names, supply))?;
            Err(SupplyFault::SupplyLoop { name })
        }
        None => Ok(()),
    }
}

/// Whether there are rows.
fn check_some(plan: &Plan, names: &[(Name, u32)]) -> Result<(), SupplyFault>
    requires { HaveFunctions plan.now names.now }
    ensures { MatchResult result (λ _. HaveRows plan.now names.now) (IsRefusal plan.now) }
{
    let _names = names;
    if plan.rows.is_empty() {
        Err(SupplyFault::NoRows)
    } else {
        Ok(())
    }
}

/// Whether there is no second table.
fn check_table(alloc: Global, plan: &Plan, names: &[(Name, u32)]) -> Result<(), SupplyFault>
    requires { HaveRows plan.now names.now }
    ensures { MatchResult result (λ _. HaveTable plan.now names.now) (IsRefusal plan.now) }
{
    let _names = names;
    match second_table(plan.tables.as_slice()) {
        Some(name) => {
            let name = name.copy(alloc)?;
            Err(SupplyFault::TwoTables { name })
        }
        None => Ok(()),
    }
}

/// Whether the rows are as long as the table.
fn check_lengths(alloc: Global, plan: &Plan, names: &[(Name, u32)]) -> Result<(), SupplyFault>
    requires { HaveTable plan.now names.now }
    ensures { MatchResult result (λ _. AreLong plan.now names.now) (IsRefusal plan.now) }
{
    let _names = names;
    let width = columns(plan.tables.as_slice()).len();
    match first_unlike(width, plan.rows.as_slice()) {
        Some(name) => {
            let name = name.copy(alloc)?;
            Err(SupplyFault::RowLength { name })
        }
        None => Ok(()),
    }
}

/// Whether the words of the rows are states.
fn check_words(
    alloc: Global,
    plan: &Plan,
    names: &[(Name, u32)],
    states: &StateIndex,
    table: &[u32],
) -> Result<(), SupplyFault>
    requires long { AreLong plan.now names.now }
    requires names { states.now.names ≡ names.now }
    requires states { states.now.states ≡ plan.now.states }
    requires table { table.now ≡ table_in names.now plan.now.tables }
    ensures { MatchResult result (λ _. HaveStates plan.now names.now) (IsRefusal plan.now) }
{
    let _names = names;
    match first_unknown(alloc, states, table, plan.rows.as_slice())? {
        Some(name) => {
            let name = name.copy(alloc)?;
            Err(SupplyFault::NoState { name })
        }
        None => Ok(()),
    }
}

/// Whether there is one table, with rows of its length and of its supplies' states.
fn check_rows(
    alloc: Global,
    plan: &Plan,
    names: &[(Name, u32)],
    states: &StateIndex,
    table: &[u32],
) -> Result<(), SupplyFault>
    requires functions { HaveFunctions plan.now names.now }
    requires names { states.now.names ≡ names.now }
    requires states { states.now.states ≡ plan.now.states }
    requires table { table.now ≡ table_in names.now plan.now.tables }
    ensures { MatchResult result (λ _. HaveStates plan.now names.now) (IsRefusal plan.now) }
{
    check_some(plan, names)?;
    check_table(alloc, plan, names)?;
    check_lengths(alloc, plan, names)?;
    check_words(alloc, plan, names, states, table)?;
    Ok(())
}

/// Whether the supplies are driven once, from roots, and the ports are on one net each.
fn check_drivers(
    alloc: Global,
    plan: &Plan,
    names: &[(Name, u32)],
    edges: &[(u32, u32)],
) -> Result<(), SupplyFault>
    requires whole { IsWhole plan.now }
    requires named { AreNamed plan.now names.now }
    requires edges { edges.now ≡ edges_of names.now plan.now.switches }
    ensures { MatchResult result (λ _. AreFed plan.now names.now) (IsRefusal plan.now) }
{
    check_once(alloc, plan, names, edges)?;
    check_nets(alloc, plan, names)?;
    check_loops(alloc, plan, names, edges)?;
    Ok(())
}

/// Whether the rows and the supplies are few.
fn check_sizes(plan: &Plan, names: &[(Name, u32)]) -> Result<(), SupplyFault>
    requires { HaveStates plan.now names.now }
    ensures { MatchResult result (λ _. AreFew plan.now names.now) (IsRefusal plan.now) }
{
    let rows = plan.rows.len();
    if rows > ROWS {
        let count = told(rows as u64);
        return Err(SupplyFault::TooManyRows { count });
    }
    let supplies = supply_count(names);
    if supplies > SUPPLIES {
        let count = told(supplies);
        return Err(SupplyFault::TooManySupplies { count });
    }
    Ok(())
}

/// What the supplies of a plan of which no refusal holds have besides their names.
fn make_parts(
    alloc: Global,
    plan: &Plan,
    names: &Lookup,
    states: &StateIndex,
    edges: &[(u32, u32)],
    table: Items<u32>,
    switches: Items<Switch>,
) -> Result<Parts, Want>
    requires few { AreFew plan.now names.now }
    requires names { states.now.names ≡ names.now }
    requires states { states.now.states ≡ plan.now.states }
    requires edges { edges.now ≡ edges_of names.now plan.now.switches }
    requires table { table ≡ table_in names.now plan.now.tables }
    requires switches { AllZip (IsSwitchOf names.now) plan.now.switches switches }
    ensures { IfOk result (λ parts. AreSupplies plan.now (with_names names.now parts)) }
{
    let count = supply_count(names.names());
    let roots = roots(alloc, edges, count as u32)?;
    let sets = sets_in(alloc, names, plan.sets.as_slice())?;
    let rows = rows_in(alloc, states, table.as_slice(), plan.rows.as_slice())?;
    Ok(Parts {
        roots,
        switches,
        sets,
        table,
        rows,
    })
}

/// What the supplies of a plan with these names and switches have besides, or why it has none.
fn finish(
    alloc: Global,
    plan: &Plan,
    names: &Lookup,
    edges: &[(u32, u32)],
    switches: Items<Switch>,
) -> Result<Parts, SupplyFault>
    requires functions { HaveFunctions plan.now names.now }
    requires edges { edges.now ≡ edges_of names.now plan.now.switches }
    requires switches { AllZip (IsSwitchOf names.now) plan.now.switches switches }
    ensures { MatchResult result (λ parts. AreSupplies plan.now (with_names names.now parts)) (IsRefusal plan.now) }
{
    let columns = columns(plan.tables.as_slice());
    let table = table_in(alloc, names, columns)?;
    let keys = state_keys(alloc, names, plan.states.as_slice())?;
    let states = StateIndex::of(
        alloc,
        names.names(),
        plan.states.as_slice(),
        keys.as_slice(),
    )?;
    check_rows(alloc, plan, names.names(), &states, table.as_slice())?;
    check_sizes(plan, names.names())?;
    let parts = make_parts(alloc, plan, names, &states, edges, table, switches)?;
    Ok(parts)
}

/// What the supplies of a plan with these names have besides, or why it has none.
fn parts_of(alloc: Global, plan: &Plan, names: &[(Name, u32)]) -> Result<Parts, SupplyFault>
    requires whole { IsWhole plan.now }
    requires named { AreNamed plan.now names.now }
    ensures { MatchResult result (λ parts. AreSupplies plan.now (with_names names.now parts)) (IsRefusal plan.now) }
{
    let lookup = Lookup::of(alloc, names)?;
    let edges = edges_of(alloc, &lookup, plan.switches.as_slice())?;
    check_drivers(alloc, plan, names, edges.as_slice())?;
    match make_switches(alloc, &lookup, plan.switches.as_slice())? {
        Ok(switches) => {
            let parts = finish(alloc, plan, &lookup, edges.as_slice(), switches)?;
            Ok(parts)
        }
        Err(name) => Err(SupplyFault::Expression { name }),
    }
}

/// The supplies of a plan, or why it has none.
fn build_plan(alloc: Global, plan: &Plan) -> Result<Supplies, SupplyFault>
    requires { IsWhole plan.now }
    ensures { MatchResult result (AreSupplies plan.now) (IsRefusal plan.now) }
{
    let names = name_all(alloc, plan)?;
    let Parts {
        roots,
        switches,
        sets,
        table,
        rows,
    } = parts_of(alloc, plan, names.as_slice())?;
    Ok(Supplies {
        names,
        roots,
        switches,
        sets,
        table,
        rows,
    })
}

/// The supplies of an intent.
///
/// Names are made by `create_supply_port`, `create_supply_net` and `create_power_switch`, whose output port it makes as
/// `switch/port`. Ties make names one supply: `connect_supply_net` ties each of its ports to its net, and a switch its
/// output port to its net. Supplies are numbered from 0 by the first name of each.
///
/// An intent is refused for the first of these that holds: a command names something that no command makes (`NoSupply`,
/// the first by commands and by the fields of each); the outputs of two switches are names of one supply (`TwoDrivers`);
/// a port is on two nets, one of its own name among them (`TwoNets`); a supply reaches itself through inputs of switches
/// (`SupplyLoop`); an expression of a switch is no boolean function of its control ports (`Expression`); there is no row
/// (`NoRows`), or a second table (`TwoTables`); a row is not as long as the table (`RowLength`), or has a word that is
/// neither `*` nor a state of its supply (`NoState`); there are more than 64 rows (`TooManyRows`), or more than 64
/// supplies (`TooManySupplies`).
pub fn build(alloc: Global, intent: &Intent) -> Result<Supplies, SupplyFault>
    // What is answered are the supplies of the intent, of which no refusal holds.
    ensures found { IfOk result (IsBuilt intent.now) }
    // They may be asked for their states.
    ensures well_formed { IfOk result IsWellFormed }
    // A refusal holds, and none before it.
    ensures refused { IfErr result (IsRefused intent.now) }
    // And what is so of the intent is answered, unless memory runs out.
    ensures exact { (outcome : Result Supplies SupplyFault) → IsOutcome intent.now outcome → (result ≡ outcome) ⊎ (result ≡ Err fault.Memory) }
{
    match plan_of(alloc, intent.commands.as_slice()) {
        Ok(plan) => {
            let answer = build_plan(alloc, &plan);
            answer
        }
        Err(_want) => Err(SupplyFault::Memory),
    }
}

/// An intent has one list of supplies, or it has none for one reason.
pub fn one_supplies()
    ensures outcome { (intent : Intent) (a b : Result Supplies SupplyFault) → IsOutcome intent a → IsOutcome intent b → a ≡ b }
    ensures one { (intent : Intent) (s t : Supplies) → IsBuilt intent s → IsBuilt intent t → s ≡ t }
{}
