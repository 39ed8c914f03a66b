//! Makes clauses and checks chains, for `bench/check` to time and to measure.
//!
//! The words are a kind and a count. `made` makes a chain of so many clauses, of 30 literals and 40 hints each, that name
//! clauses of as many literals, and `chain` checks it too: what it prints is how many follow. `graph` makes the graph of a
//! sum of so many leaves, each of 64 in turn, and `cone` the clauses of the sum's cone too.
#![tactic(auto)]

ghost use Rattle.std.specs.Prelude.{◌<◌};

use pe_base::Want;
use pe_cnf::{Clauses, Goal, cone, is_askable, plain_job};
use pe_graph::{Graph, Job, Leaf, Lit};
use pe_refute::{Derived, Evidence, Scratch, first_fault, vars_of};
use smallvec::SmallVec;
use sqlite_items::Items;
use std::alloc::Global;
use std::process::ExitCode;
use std::{env, io};

// How many literals and hints a derived clause has.
const LITERALS: u64 = 30;

const HINTS: u64 = 40;

// How many blocks of given clauses there are, each of as many clauses as a derived one has hints, and how many variables
// a block has.
const BLOCKS: u64 = 500;

const BLOCK_VARS: u64 = 70;

// How many leaves the graph has.
const LEAVES: u32 = 64;

// A given clause of a block, with about as many literals as a derived one. Where the literals of the block's derived clause
// are false, the clauses give a unit each, one after another, and the last is false.
fn given_clause(alloc: Global, block: u64, place: u64) -> Result<Items<Lit>, Want>
    requires block { block < 500 }
    requires place { place < 40 }
{
    let base = block * BLOCK_VARS;
    let mut clause = Items::new(alloc);
    for i in 0..LITERALS - 2 {
        clause.push(Lit::of(base + i, false))?;
    }
    if place > 0 {
        clause.push(Lit::of(base + LITERALS + place - 1, true))?;
    }
    if place + 1 < HINTS {
        clause.push(Lit::of(base + LITERALS + place, false))?;
    }
    Ok(clause)
}

// The given clauses.
fn given(alloc: Global) -> Result<Clauses, Want> {
    let mut lists = Vec::new(alloc);
    for block in 0..BLOCKS {
        for place in 0..HINTS {
            lists.push(given_clause(alloc, block, place)?)?;
        }
    }
    Clauses::from_lists(alloc, &lists)
}

// A derived clause, which follows along the clauses of its block.
fn derived(alloc: Global, block: u64) -> Result<Derived, Want>
    requires { block < 500 }
{
    let mut clause = SmallVec::new(alloc);
    for i in 0..LITERALS {
        clause.push(Lit::of(block * BLOCK_VARS + i, false))?;
    }
    let mut hints = SmallVec::new(alloc);
    for place in 0..HINTS {
        hints.push(block * HINTS + place)?;
    }
    Ok(Derived { clause, hints })
}

// A chain of so many derived clauses.
fn chain(alloc: Global, count: u32) -> Result<Evidence, Want> {
    let mut chain = Vec::new(alloc);
    for i in 0..count {
        chain.push(derived(alloc, u64::from(i) % BLOCKS)?)?;
    }
    Ok(Evidence::Chain(chain))
}

// How many clauses of the chain follow from those before them.
fn followed(alloc: Global, count: u32) -> Result<u64, Want> {
    let given = given(alloc)?;
    let chain = chain(alloc, count)?;
    let vars = given.vars().max(vars_of(&chain));
    let mut scratch = Scratch::new(alloc, vars)?;
    Ok(first_fault(&given, &chain, &mut scratch).unwrap_or(0))
}

// `a & b`, of literals of the graph.
fn both(graph: &mut Graph, a: Lit, b: Lit) -> Result<Lit, Want> {
    if a.var() < graph.nodes() && b.var() < graph.nodes() {
        graph.and(a, b)
    } else {
        Err(Want)
    }
}

// The literal that is 1 where one of the two is, but not both.
fn one_of(graph: &mut Graph, a: Lit, b: Lit) -> Result<Lit, Want> {
    let all = both(graph, a, b)?;
    let none = both(graph, a.complement(), b.complement())?;
    both(graph, all.complement(), none.complement())
}

// The job of a sum of so many leaves, with the sum.
fn sum_of(alloc: Global, count: u32) -> Result<Option<(Job, Lit)>, Want> {
    let mut graph = Graph::new(alloc)?;
    let mut leaves = Items::new(alloc);
    for input in 0..LEAVES {
        graph.leaf(input)?;
        leaves.push(Leaf::Input { cycle: 1, input })?;
    }
    let mut sum = Lit::truth(false);
    for i in 0..count {
        let leaf = graph.leaf(i % LEAVES)?;
        sum = one_of(&mut graph, sum, leaf)?;
    }
    Ok(plain_job(alloc, graph, leaves).map(|job| (job, sum)))
}

// How many clauses the cone of the sum has.
fn cone_clauses(alloc: Global, job: &Job, sum: Lit) -> Result<u64, Want> {
    let goal = Goal {
        ctx: Lit::truth(true),
        a: sum,
        b: Lit::truth(true),
        leaves: LEAVES,
    };
    if !is_askable(job, &goal, &[]) {
        return Ok(0);
    }
    let set = cone(alloc, job, goal, &[])?;
    Ok(set.count())
}

// What is printed of a graph: how many nodes it has, and how many clauses its cone, where it is asked for.
fn graph_answer(alloc: Global, count: u32, with_cone: bool) -> Result<Option<String>, Want> {
    match sum_of(alloc, count)? {
        None => Ok(None),
        Some((job, sum)) => {
            let clauses = if with_cone {
                cone_clauses(alloc, &job, sum)?
            } else {
                0
            };
            Ok(Some(format!(in alloc; "nodes {}\nclauses {clauses}", job.graph.nodes())?))
        }
    }
}

// What is printed for two words.
fn answer(alloc: Global, kind: &str, count: u32) -> Result<Option<String>, Want> {
    match kind {
        "made" => {
            let _given = given(alloc)?;
            let _chain = chain(alloc, count)?;
            Ok(Some(format!(in alloc; "followed 0")?))
        }
        "chain" => Ok(Some(format!(in alloc; "followed {}", followed(alloc, count)?)?)),
        "graph" => graph_answer(alloc, count, false),
        "cone" => graph_answer(alloc, count, true),
        _ => Ok(None),
    }
}

// The two words behind the program's name.
fn words(rt: &HostRuntime) -> io::Result<Option<(String, u32)>> {
    let mut words = env::args(rt)?.skip(1);
    let (Some(kind), Some(count)) = (words.next(), words.next()) else {
        return Ok(None);
    };
    Ok(count.parse().ok().map(|count| (kind, count)))
}

fn main(rt: HostRuntime) -> ExitCode {
    let Ok(Some((kind, count))) = words(&rt) else {
        return ExitCode::from(6);
    };
    match answer(rt.alloc(), kind.as_str(), count) {
        Ok(Some(text)) => match println!(rt; "{text}") {
            Ok(()) => ExitCode::from(0),
            Err(_) => ExitCode::from(7),
        },
        Ok(None) => ExitCode::from(6),
        Err(_) => ExitCode::from(7),
    }
}
