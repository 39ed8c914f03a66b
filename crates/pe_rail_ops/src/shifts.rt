//! Shifts, and a bit by its index.

ghost use Rattle.std.specs.Prelude.{◌≡◌, ◌≤◌, ◌*◌, min, ℕ, Bool, List, cond, IfOk, OnErr, All, length, slice_index_or};
ghost use Rattle.pe_base.specs.declared.value.Val.TheVariants.{Corrupt};
ghost use Rattle.pe_base.specs.Words.{shift_left_of, shift_right_of, picked_bit, all_known, value_number};
ghost use Rattle.pe_graph.specs.declared.graph.Node.{Node};
ghost use Rattle.pe_graph.specs.Nodes.{IsIn, IsGraph, value_in, Grows};
ghost use Rattle.pe_rail_ops.specs.Rails.{IsRail, GivesRail, GivesRails, rail_in, rails_in};
ghost use Rattle.pe_rail_ops.specs.Stages.{shifted_in, shift_word, moved_rails};

use crate::bit::{self, Rail};
use crate::gate::Gate;
use crate::numbers::{all_known, kept_each};
use pe_base::{Val, Want};
use pe_graph::{Graph, Lit};
use sqlite_items::Items;
use std::alloc::Global;

/// Which way a word is shifted: left is towards the highest bit.
#[derive(Clone, Copy)]
pub enum Direction {
    Left,
    Right,
}

/// `a << amount`, filled with 0, and corrupt in every bit where a bit of the amount is.
pub fn shift_left(
    alloc: Global,
    graph: &mut Graph,
    a: &[Rail],
    amount: &[Rail],
) -> Result<Items<Rail>, Want>
    requires a_in { All (IsRail graph.old) a.now }
    requires amount_in { All (IsRail graph.old) amount.now }
    ensures gives { IfOk result (GivesRails graph.old graph.new (λ v. shift_left_of (rails_in v graph.old a.now) (rails_in v graph.old amount.now))) }
    ensures want { OnErr result (Grows graph.old graph.new) }
{
    let bits = shift(alloc, graph, Direction::Left, a, amount)?;
    Ok(bits)
}

/// `a >> amount`, filled with 0, and corrupt in every bit where a bit of the amount is.
pub fn shift_right(
    alloc: Global,
    graph: &mut Graph,
    a: &[Rail],
    amount: &[Rail],
) -> Result<Items<Rail>, Want>
    requires a_in { All (IsRail graph.old) a.now }
    requires amount_in { All (IsRail graph.old) amount.now }
    ensures gives { IfOk result (GivesRails graph.old graph.new (λ v. shift_right_of (rails_in v graph.old a.now) (rails_in v graph.old amount.now))) }
    ensures want { OnErr result (Grows graph.old graph.new) }
{
    let bits = shift(alloc, graph, Direction::Right, a, amount)?;
    Ok(bits)
}

/// `a[index]`, of one bit: corrupt where a bit of the index is, and where it is out of range.
pub fn pick(
    alloc: Global,
    graph: &mut Graph,
    a: &[Rail],
    index: &[Rail],
) -> Result<Items<Rail>, Want>
    requires a_in { All (IsRail graph.old) a.now }
    requires index_in { All (IsRail graph.old) index.now }
    ensures gives { IfOk result (GivesRails graph.old graph.new (λ v. picked_bit (rails_in v graph.old a.now) (rails_in v graph.old index.now))) }
    ensures want { OnErr result (Grows graph.old graph.new) }
{
    let bit = picked(alloc, graph, a, index)?;
    let bits = Items::from_slice(alloc, &[bit])?;
    Ok(bits)
}

// The bit at the index, if the index is known.
fn picked(alloc: Global, graph: &mut Graph, a: &[Rail], index: &[Rail]) -> Result<Rail, Want>
    requires a_in { All (IsRail graph.old) a.now }
    requires index_in { All (IsRail graph.old) index.now }
    ensures gives { IfOk result (GivesRail graph.old graph.new (λ v. cond (all_known (rails_in v graph.old index.now)) (slice_index_or (rails_in v graph.old a.now) (value_number (rails_in v graph.old index.now)) Corrupt) Corrupt)) }
    ensures want { OnErr result (Grows graph.old graph.new) }
{
    let known = all_known(graph, index)?;
    let word = staged(alloc, graph, Direction::Right, Val::Corrupt, a, index)?;
    graph.graph_law();
    let found = lowest(word.as_slice());
    let bit = bit::kept(graph, known, &found)?;
    Ok(bit)
}

// The lowest bit, and corrupt where there is none.
fn lowest(word: &[Rail]) -> Rail
    ensures is_rail { (nodes : List Node) → IsGraph nodes → All (IsRail nodes) word.now → IsRail nodes result }
    ensures value { (nodes : List Node) (v : ℕ → Bool) → IsGraph nodes → rail_in v nodes result ≡ slice_index_or (rails_in v nodes word.now) 0 Corrupt }
{
    if word.len() == 0 {
        bit::constant(Val::Corrupt)
    } else {
        word[0]
    }
}

fn shift(
    alloc: Global,
    graph: &mut Graph,
    direction: Direction,
    a: &[Rail],
    amount: &[Rail],
) -> Result<Items<Rail>, Want>
    requires a_in { All (IsRail graph.old) a.now }
    requires amount_in { All (IsRail graph.old) amount.now }
    ensures gives { IfOk result (GivesRails graph.old graph.new (λ v. shift_word direction (rails_in v graph.old a.now) (rails_in v graph.old amount.now))) }
    ensures want { OnErr result (Grows graph.old graph.new) }
{
    let known = all_known(graph, amount)?;
    let word = staged(alloc, graph, direction, Val::Zero, a, amount)?;
    let kept = kept_each(alloc, graph, known, word.as_slice())?;
    Ok(kept)
}

// The shift by one bit of the amount after the other, the lowest first, by the literals that say that a bit is 1.
fn staged(
    alloc: Global,
    graph: &mut Graph,
    direction: Direction,
    fill: Val,
    a: &[Rail],
    amount: &[Rail],
) -> Result<Items<Rail>, Want>
    requires a_in { All (IsRail graph.old) a.now }
    requires amount_in { All (IsRail graph.old) amount.now }
    ensures gives { IfOk result (GivesRails graph.old graph.new (λ v. shifted_in direction fill (rails_in v graph.old a.now) (value_number (rails_in v graph.old amount.now)))) }
    ensures want { OnErr result (Grows graph.old graph.new) }
{
    let mut word = Items::from_slice(alloc, a)?;
    let mut step = a.len().min(1);
    for i in 0..amount.len() {
        let bit = amount[i];
        let next = stage(
            alloc,
            graph,
            direction,
            fill,
            bit.one,
            step,
            word.as_slice(),
        )?;
        word = next;
        step = doubled(step, a.len());
    }
    Ok(word)
}

// The word shifted by the step where the literal is 1, and the word where it is 0.
fn stage(
    alloc: Global,
    graph: &mut Graph,
    direction: Direction,
    fill: Val,
    control: Lit,
    step: usize,
    word: &[Rail],
) -> Result<Items<Rail>, Want>
    requires control_in { IsIn graph.old control }
    requires word_in { All (IsRail graph.old) word.now }
    requires within { step ≤ length word.now }
    ensures gives { IfOk result (GivesRails graph.old graph.new (λ v. cond (value_in v graph.old control) (shifted_in direction fill (rails_in v graph.old word.now) step) (rails_in v graph.old word.now))) }
    ensures width { IfOk result (λ r. length r ≡ length word.now) }
    ensures want { OnErr result (Grows graph.old graph.new) }
{
    graph.graph_law();
    let filled = bit::constant(fill);
    let moved = moved(alloc, direction, &filled, step, word)?;
    let next = Gate::Pick(bit::known(control)).of_each(alloc, graph, word, moved.as_slice())?;
    Ok(next)
}

fn moved(
    alloc: Global,
    direction: Direction,
    fill: &Rail,
    step: usize,
    word: &[Rail],
) -> Result<Items<Rail>, Want>
    requires { step ≤ length word.now }
    ensures { IfOk result (λ r. r ≡ moved_rails direction fill.now step word.now) }
{
    match direction {
        Direction::Left => moved_left(alloc, fill, step, word),
        Direction::Right => moved_right(alloc, fill, step, word),
    }
}

fn moved_left(alloc: Global, fill: &Rail, step: usize, word: &[Rail]) -> Result<Items<Rail>, Want>
    requires { step ≤ length word.now }
    ensures { IfOk result (λ r. r ≡ moved_rails Direction.Left fill.now step word.now) }
{
    let mut bits = vec![in alloc; *fill; step]?;
    bits.extend_from_slice(&word[..word.len() - step])?;
    Ok(Items::from_vec(bits))
}

fn moved_right(alloc: Global, fill: &Rail, step: usize, word: &[Rail]) -> Result<Items<Rail>, Want>
    requires { step ≤ length word.now }
    ensures { IfOk result (λ r. r ≡ moved_rails Direction.Right fill.now step word.now) }
{
    let mut bits = Vec::from_slice(alloc, &word[step..])?;
    bits.resize(word.len(), *fill)?;
    Ok(Items::from_vec(bits))
}

// Twice the step, and at most the width.
fn doubled(step: usize, width: usize) -> usize
    ensures { result ≡ min width (step * 2) }
{
    if step <= width / 2 { 2 * step } else { width }
}
