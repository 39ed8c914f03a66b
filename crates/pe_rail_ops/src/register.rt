//! The law of a register and of isolation on rails (IEEE 1801).

ghost use Rattle.std.specs.Prelude.{◌&&◌, cond, IfOk, OnErr};
ghost use Rattle.pe_base.specs.Registers.{main_of, shadow_of, chosen_of, visible_of, edge_of, next_main_of, next_shadow_of, isolated_of};
ghost use Rattle.pe_base.specs.declared.value.Val.TheVariants.{One, Corrupt};
ghost use Rattle.pe_base.specs.Words.{is_known};
ghost use Rattle.pe_base.specs.Values.{known_of, pick_of, merge_of};
ghost use Rattle.pe_graph.specs.Nodes.{IsIn, value_in, Gives, Grows};
ghost use Rattle.pe_rail_ops.specs.Rails.{IsRail, GivesRail, rail_in};
ghost use Rattle.pe_rail_ops.specs.Registers.{inputs_in, AreInputs};

use crate::bit::{self, Rail};
use pe_base::{Val, Want};
use pe_graph::{Graph, Lit};

/// What the law of a register reads in a cycle, as `pe_base::RegisterInputs` has it.
#[derive(Clone, Copy, Debug, PartialEq, Eq)]
pub struct RegisterRails {
    pub powered: Lit,
    pub retained: Lit,
    pub clear: Rail,
    pub preset: Rail,
    pub restore: Rail,
    pub save: Rail,
    pub both: Rail,
    pub d: Rail,
    pub before: Rail,
    pub after: Rail,
    pub main: Rail,
    pub shadow: Rail,
}

/// The visible value.
pub fn visible(graph: &mut Graph, inputs: &RegisterRails) -> Result<Rail, Want>
    requires { AreInputs graph.old inputs.now }
    ensures gives { IfOk result (GivesRail graph.old graph.new (λ v. visible_of (inputs_in v graph.old inputs.now))) }
    ensures want { OnErr result (Grows graph.old graph.new) }
{
    let held = bit::kept(graph, inputs.powered, &inputs.main)?;
    let chosen = chosen(graph, inputs, &held)?;
    let seen = bit::kept(graph, inputs.powered, &chosen)?;
    Ok(seen)
}

/// The next main state.
pub fn next_main(graph: &mut Graph, inputs: &RegisterRails) -> Result<Rail, Want>
    requires { AreInputs graph.old inputs.now }
    ensures gives { IfOk result (GivesRail graph.old graph.new (λ v. next_main_of (inputs_in v graph.old inputs.now))) }
    ensures want { OnErr result (Grows graph.old graph.new) }
{
    let clocked = clocked(graph, inputs)?;
    let chosen = chosen(graph, inputs, &clocked)?;
    let next = bit::kept(graph, inputs.powered, &chosen)?;
    Ok(next)
}

/// The next state of the shadow.
pub fn next_shadow(graph: &mut Graph, inputs: &RegisterRails) -> Result<Rail, Want>
    requires { AreInputs graph.old inputs.now }
    ensures gives { IfOk result (GivesRail graph.old graph.new (λ v. next_shadow_of (inputs_in v graph.old inputs.now))) }
    ensures want { OnErr result (Grows graph.old graph.new) }
{
    let seen = visible(graph, inputs)?;
    let saved = saved(graph, inputs, &seen)?;
    let next = bit::kept(graph, inputs.retained, &saved)?;
    Ok(next)
}

/// What isolation passes on: corrupt without its supply and under a corrupt enable, the clamp value where the enable
/// has the value of the active sense, else the data.
pub fn isolated(
    graph: &mut Graph,
    on: Lit,
    enable: &Rail,
    sense: bool,
    clamp: bool,
    x: &Rail,
) -> Result<Rail, Want>
    requires on_in { IsIn graph.old on }
    requires enable_in { IsRail graph.old enable.now }
    requires x_in { IsRail graph.old x.now }
    ensures gives { IfOk result (GivesRail graph.old graph.new (λ v. isolated_of (value_in v graph.old on) (rail_in v graph.old enable.now) sense clamp (rail_in v graph.old x.now))) }
    ensures want { OnErr result (Grows graph.old graph.new) }
{
    let passed = passed(graph, enable, sense, clamp, x)?;
    let unlocked = is_open(graph, on, enable)?;
    let kept = bit::kept(graph, unlocked, &passed)?;
    Ok(kept)
}

// The clamp value or the data, by an enable that is known.
fn passed(
    graph: &mut Graph,
    enable: &Rail,
    sense: bool,
    clamp: bool,
    x: &Rail,
) -> Result<Rail, Want>
    requires enable_in { IsRail graph.old enable.now }
    requires x_in { IsRail graph.old x.now }
    ensures gives { IfOk result (GivesRail graph.old graph.new (λ v. pick_of (rail_in v graph.old enable.now) (cond sense (rail_in v graph.old x.now) (known_of clamp)) (cond sense (known_of clamp) (rail_in v graph.old x.now)))) }
    ensures want { OnErr result (Grows graph.old graph.new) }
{
    graph.graph_law();
    let clamped = bit::constant(pe_base::known(clamp));
    if sense {
        let active_high = bit::pick(graph, enable, x, &clamped)?;
        Ok(active_high)
    } else {
        let active_low = bit::pick(graph, enable, &clamped, x)?;
        Ok(active_low)
    }
}

// Whether the supply is on and the enable is known.
fn is_open(graph: &mut Graph, on: Lit, enable: &Rail) -> Result<Lit, Want>
    requires on_in { IsIn graph.old on }
    requires enable_in { IsRail graph.old enable.now }
    ensures gives { IfOk result (Gives graph.old graph.new (λ v. value_in v graph.old on && is_known (rail_in v graph.old enable.now))) }
    ensures want { OnErr result (Grows graph.old graph.new) }
{
    let known = graph.or(enable.one, enable.zero)?;
    let both = graph.and(on, known)?;
    Ok(both)
}

// What clear, preset and restore choose, and `otherwise` where none is active.
fn chosen(graph: &mut Graph, inputs: &RegisterRails, otherwise: &Rail) -> Result<Rail, Want>
    requires inputs_in { AreInputs graph.old inputs.now }
    requires otherwise_in { IsRail graph.old otherwise.now }
    ensures gives { IfOk result (GivesRail graph.old graph.new (λ v. chosen_of (inputs_in v graph.old inputs.now) (rail_in v graph.old otherwise.now))) }
    ensures want { OnErr result (Grows graph.old graph.new) }
{
    graph.graph_law();
    let zero = bit::constant(Val::Zero);
    let not_cleared = not_cleared(graph, inputs, otherwise)?;
    let cleared = bit::pick(graph, &inputs.preset, &zero, &inputs.both)?;
    let chosen = bit::pick(graph, &inputs.clear, &not_cleared, &cleared)?;
    Ok(chosen)
}

// What preset and restore choose.
fn not_cleared(graph: &mut Graph, inputs: &RegisterRails, otherwise: &Rail) -> Result<Rail, Want>
    requires inputs_in { AreInputs graph.old inputs.now }
    requires otherwise_in { IsRail graph.old otherwise.now }
    ensures gives { IfOk result (GivesRail graph.old graph.new (λ v. pick_of (rail_in v graph.old inputs.now.preset) (pick_of (rail_in v graph.old inputs.now.restore) (rail_in v graph.old otherwise.now) (shadow_of (inputs_in v graph.old inputs.now))) One)) }
    ensures want { OnErr result (Grows graph.old graph.new) }
{
    graph.graph_law();
    let one = bit::constant(Val::One);
    let shadow = bit::kept(graph, inputs.retained, &inputs.shadow)?;
    let restored = bit::pick(graph, &inputs.restore, otherwise, &shadow)?;
    let not_cleared = bit::pick(graph, &inputs.preset, &restored, &one)?;
    Ok(not_cleared)
}

// What the clock's edge makes of the data and of what is held.
fn clocked(graph: &mut Graph, inputs: &RegisterRails) -> Result<Rail, Want>
    requires { AreInputs graph.old inputs.now }
    ensures gives { IfOk result (GivesRail graph.old graph.new (λ v. edge_of (rail_in v graph.old inputs.now.d) (main_of (inputs_in v graph.old inputs.now)) (rail_in v graph.old inputs.now.before) (rail_in v graph.old inputs.now.after))) }
    ensures want { OnErr result (Grows graph.old graph.new) }
{
    let held = bit::kept(graph, inputs.powered, &inputs.main)?;
    let clocked = edge(graph, &inputs.d, &held, &inputs.before, &inputs.after)?;
    Ok(clocked)
}

// The data where the clock rises, what is held where it stands, corrupt where it falls, and the merge of both where the
// clock is not known.
fn edge(graph: &mut Graph, d: &Rail, held: &Rail, before: &Rail, after: &Rail) -> Result<Rail, Want>
    requires d_in { IsRail graph.old d.now }
    requires held_in { IsRail graph.old held.now }
    requires before_in { IsRail graph.old before.now }
    requires after_in { IsRail graph.old after.now }
    ensures gives { IfOk result (GivesRail graph.old graph.new (λ v. edge_of (rail_in v graph.old d.now) (rail_in v graph.old held.now) (rail_in v graph.old before.now) (rail_in v graph.old after.now))) }
    ensures want { OnErr result (Grows graph.old graph.new) }
{
    let seen = clock_known(graph, before, after)?;
    let merged = merged(graph, d, held)?;
    let stepped = stepped(graph, d, held, before, after)?;
    let edge = bit::pick(graph, &bit::known(seen), &merged, &stepped)?;
    Ok(edge)
}

// Whether both pins of the clock are known.
fn clock_known(graph: &mut Graph, before: &Rail, after: &Rail) -> Result<Lit, Want>
    requires before_in { IsRail graph.old before.now }
    requires after_in { IsRail graph.old after.now }
    ensures gives { IfOk result (Gives graph.old graph.new (λ v. is_known (rail_in v graph.old before.now) && is_known (rail_in v graph.old after.now))) }
    ensures want { OnErr result (Grows graph.old graph.new) }
{
    let x = graph.or(before.one, before.zero)?;
    let y = graph.or(after.one, after.zero)?;
    let both = graph.and(x, y)?;
    Ok(both)
}

// The common value, if it is known.
fn merged(graph: &mut Graph, x: &Rail, y: &Rail) -> Result<Rail, Want>
    requires x_in { IsRail graph.old x.now }
    requires y_in { IsRail graph.old y.now }
    ensures gives { IfOk result (GivesRail graph.old graph.new (λ v. merge_of (rail_in v graph.old x.now) (rail_in v graph.old y.now))) }
    ensures want { OnErr result (Grows graph.old graph.new) }
{
    graph.graph_law();
    let corrupt = bit::constant(Val::Corrupt);
    let merged = bit::pick(graph, &corrupt, x, y)?;
    Ok(merged)
}

// The edge of a clock that is known.
fn stepped(
    graph: &mut Graph,
    d: &Rail,
    held: &Rail,
    before: &Rail,
    after: &Rail,
) -> Result<Rail, Want>
    requires d_in { IsRail graph.old d.now }
    requires held_in { IsRail graph.old held.now }
    requires before_in { IsRail graph.old before.now }
    requires after_in { IsRail graph.old after.now }
    ensures gives { IfOk result (GivesRail graph.old graph.new (λ v. pick_of (rail_in v graph.old before.now) (pick_of (rail_in v graph.old after.now) (rail_in v graph.old held.now) (rail_in v graph.old d.now)) (pick_of (rail_in v graph.old after.now) Corrupt (rail_in v graph.old held.now)))) }
    ensures want { OnErr result (Grows graph.old graph.new) }
{
    graph.graph_law();
    let corrupt = bit::constant(Val::Corrupt);
    let from_zero = bit::pick(graph, after, held, d)?;
    let from_one = bit::pick(graph, after, &corrupt, held)?;
    let stepped = bit::pick(graph, before, &from_zero, &from_one)?;
    Ok(stepped)
}

// The shadow, or what is saved in it.
fn saved(graph: &mut Graph, inputs: &RegisterRails, seen: &Rail) -> Result<Rail, Want>
    requires inputs_in { AreInputs graph.old inputs.now }
    requires seen_in { IsRail graph.old seen.now }
    ensures gives { IfOk result (GivesRail graph.old graph.new (λ v. pick_of (rail_in v graph.old inputs.now.save) (shadow_of (inputs_in v graph.old inputs.now)) (rail_in v graph.old seen.now))) }
    ensures want { OnErr result (Grows graph.old graph.new) }
{
    let shadow = bit::kept(graph, inputs.retained, &inputs.shadow)?;
    let saved = bit::pick(graph, &inputs.save, &shadow, seen)?;
    Ok(saved)
}
