//! Makes graphs, for `bench/graph` to time and to measure.
//!
//! The words are `nodes` and how many pairs of literals are put together by `and`, or `operators` and the width of words
//! whose bits may be corrupt. What it prints is how many nodes there are, or how many each operator adds.
#![tactic(auto)]

ghost use Rattle.std.specs.Prelude.{◌≡◌, IfOk, IfSome, All, length};
ghost use Rattle.pe_graph.specs.Nodes.{IsIn, Grows};
ghost use Rattle.pe_rail_ops.specs.Rails.{IsRail};

use pe_base::Want;
use pe_graph::{Graph, Lit};
use pe_rail_ops::{Rail, add, bit, less, shift_right};
use sqlite_items::Items;
use std::alloc::Global;
use std::process::ExitCode;
use std::{env, io};

// How many leaves the pairs begin with.
const LEAVES: u32 = 64;

// How many bits the amount of a shift has.
const AMOUNT: u32 = 6;

#[derive(Clone, Copy)]
enum Operator {
    Adder,
    Comparer,
    Shifter,
}

// The next state of a generator of numbers (a linear congruence of 64 bits).
fn next(state: u64) -> u64 {
    state
        .wrapping_mul(6_364_136_223_846_793_005)
        .wrapping_add(1_442_695_040_888_963_407)
}

// A literal of the graph, by the upper half of a state.
fn literal(graph: &Graph, state: u64) -> Option<Lit>
    ensures { IfSome result (λ lit. IsIn graph.now lit) }
{
    graph.lit(state / 0x1_0000_0000 % (2 * graph.nodes()).max(1))
}

// A graph of so many pairs, chosen as by chance among all literals.
fn pairs(alloc: Global, count: u32) -> Result<Graph, Want> {
    let mut graph = Graph::new(alloc)?;
    for number in 0..LEAVES {
        graph.leaf(number)?;
    }
    let mut state = 1;
    for _ in 0..count {
        let first = next(state);
        let second = next(first);
        state = second;
        pair(&mut graph, first, second)?;
    }
    Ok(graph)
}

fn pair(graph: &mut Graph, first: u64, second: u64) -> Result<(), Want> {
    if let (Some(a), Some(b)) = (literal(graph, first), literal(graph, second)) {
        graph.and(a, b)?;
    }
    Ok(())
}

// A bit that may be corrupt: what one leaf says, where another says that it is known.
fn free_bit(graph: &mut Graph, number: u32) -> Result<Rail, Want>
    ensures rail { IfOk result (λ rail. IsRail graph.new rail) }
    ensures grows { IfOk result (λ _. Grows graph.old graph.new) }
{
    let value = graph.leaf(number.wrapping_mul(2))?;
    let known = graph.leaf(number.wrapping_mul(2).wrapping_add(1))?;
    let rail = bit::kept(graph, known, &bit::known(value))?;
    Ok(rail)
}

// A word of such bits, by the numbers from the first one on.
fn free_word(alloc: Global, graph: &mut Graph, first: u32, width: u32) -> Result<Items<Rail>, Want>
    ensures width { IfOk result (λ word. length word ≡ width) }
    ensures rails { IfOk result (λ word. All (IsRail graph.new) word) }
    ensures grows { IfOk result (λ _. Grows graph.old graph.new) }
{
    let mut word = Items::new(alloc);
    for i in 0..width {
        let bit = free_bit(graph, first.wrapping_add(i))?;
        word.push(bit)?;
    }
    Ok(word)
}

// How many nodes the operator adds to those of its operands.
fn added(alloc: Global, operator: Operator, width: u32) -> Result<u64, Want> {
    let mut graph = Graph::new(alloc)?;
    let a = free_word(alloc, &mut graph, 0, width)?;
    let count = match operator {
        Operator::Adder | Operator::Comparer => width,
        Operator::Shifter => AMOUNT,
    };
    let b = free_word(alloc, &mut graph, width, count)?;
    let before = graph.nodes();
    operate(alloc, &mut graph, operator, a.as_slice(), b.as_slice())?;
    Ok(graph.nodes().saturating_sub(before))
}

fn operate(
    alloc: Global,
    graph: &mut Graph,
    operator: Operator,
    a: &[Rail],
    b: &[Rail],
) -> Result<(), Want>
    requires a_in { All (IsRail graph.old) a.now }
    requires b_in { All (IsRail graph.old) b.now }
{
    match operator {
        Operator::Adder if a.len() == b.len() => add(alloc, graph, a, b)?,
        Operator::Comparer if a.len() == b.len() => less(alloc, graph, a, b)?,
        _ => shift_right(alloc, graph, a, b)?,
    };
    Ok(())
}

// What is printed for two words.
fn answer(alloc: Global, kind: &str, count: u32) -> Result<Option<String>, Want> {
    match kind {
        "nodes" => {
            let graph = pairs(alloc, count)?;
            Ok(Some(format!(in alloc; "nodes {}", graph.nodes())?))
        }
        "operators" => {
            let adder = added(alloc, Operator::Adder, count)?;
            let comparer = added(alloc, Operator::Comparer, count)?;
            let shifter = added(alloc, Operator::Shifter, count)?;
            Ok(Some(format!(in alloc; "adder {adder}\ncomparer {comparer}\nshifter {shifter}")?))
        }
        _ => Ok(None),
    }
}

// The two words behind the program's name.
fn words(rt: &HostRuntime) -> io::Result<Option<(String, u32)>> {
    let mut words = env::args(rt)?.skip(1);
    let (Some(kind), Some(count)) = (words.next(), words.next()) else {
        return Ok(None);
    };
    Ok(count.parse().ok().map(|count| (kind, count)))
}

fn main(rt: HostRuntime) -> ExitCode {
    let Ok(Some((kind, count))) = words(&rt) else {
        return ExitCode::from(6);
    };
    match answer(rt.alloc(), kind.as_str(), count) {
        Ok(Some(text)) => match println!(rt; "{text}") {
            Ok(()) => ExitCode::from(0),
            Err(_) => ExitCode::from(7),
        },
        Ok(None) => ExitCode::from(6),
        Err(_) => ExitCode::from(7),
    }
}
