//! Decides questions about circuits, for `bench/search` to time.
//!
//! The words are what to do, the kind of a circuit, its size, and a budget. `decide` prints what is decided, and how many
//! clauses were kept; `clauses` prints the clauses in the form that other solvers read (DIMACS).
#![tactic(auto)]

ghost use Rattle.pe_solver.specs.Answer.{IsMade};

mod circuits;

use circuits::{Circuit, circuit_of};
use pe_base::Want;
use pe_cnf::{Clauses, Goal, is_askable, plain_job};
use pe_graph::{Leaf, Lit};
use pe_refute::Evidence;
use pe_solver::{Decision, decide, question};
use sqlite_items::Items;
use std::alloc::Global;
use std::process::ExitCode;
use std::{env, io};

// What is printed of a circuit.
fn answer(alloc: Global, what: &str, c: Circuit, budget: u64) -> Result<Option<String>, Want> {
    let mut leaves = Items::new(alloc);
    for input in 0..c.leaves {
        leaves.push(Leaf::Input { cycle: 1, input })?;
    }
    let goal = Goal {
        ctx: Lit::truth(true),
        a: c.a,
        b: c.b,
        leaves: c.leaves,
    };
    let Some(job) = plain_job(alloc, c.graph, leaves) else {
        return Ok(None);
    };
    if !is_askable(&job, &goal, &[]) {
        return Ok(None);
    }
    let set = question(alloc, &job, goal, &[])?;
    match what {
        "clauses" => Ok(Some(dimacs(alloc, &set)?)),
        "decide" => decided(alloc, &set, c.leaves, budget),
        _ => Ok(None),
    }
}

// What is decided, and how many clauses were kept.
fn decided(alloc: Global, set: &Clauses, leaves: u32, budget: u64) -> Result<Option<String>, Want>
    requires { IsMade set.now }
{
    if set.leaves().len() > leaves as usize {
        return Ok(None);
    }
    let decision = decide(alloc, set, leaves, budget)?;
    let (word, kept) = told(&decision);
    Ok(Some(format!(in alloc; "{word} {kept}")?))
}

fn told(decision: &Decision) -> (&'static str, u64) {
    match decision {
        Decision::Refuted(evidence) => refuted(evidence),
        Decision::Sample(_) => ("sample", 0),
        Decision::Spent(chain) => ("spent", chain.len() as u64),
    }
}

fn refuted(evidence: &Evidence) -> (&'static str, u64) {
    match evidence {
        Evidence::Table => ("table", 0),
        Evidence::Chain(chain) => ("refuted", chain.len() as u64),
    }
}

// The clauses as DIMACS text, the constant among them.
fn dimacs(alloc: Global, set: &Clauses) -> Result<String, Want> {
    let mut text = format!(in alloc; "p cnf {} {}", set.vars(), set.count())?;
    for id in 0..set.count() {
        text.push('\n')?;
        for l in set.clause(id) {
            let sign = if l.negated() { "-" } else { "" };
            let name = l.var().wrapping_add(1);
            let word = format!(in alloc; "{sign}{name} ")?;
            text.push_str(&word)?;
        }
        text.push('0')?;
    }
    Ok(text)
}

// The words behind the program's name.
fn words(rt: &HostRuntime) -> io::Result<Option<(String, String, u32, u64)>> {
    let mut words = env::args(rt)?.skip(1);
    let (Some(what), Some(kind), Some(size), Some(budget)) = (
        words.next(),
        words.next(),
        words.next(),
        words.next(),
    ) else {
        return Ok(None);
    };
    match (size.parse(), budget.parse()) {
        (Ok(size), Ok(budget)) => Ok(Some((what, kind, size, budget))),
        _ => Ok(None),
    }
}

fn main(rt: HostRuntime) -> ExitCode {
    let Ok(Some((what, kind, size, budget))) = words(&rt) else {
        return ExitCode::from(6);
    };
    let alloc = rt.alloc();
    let Ok(Some(c)) = circuit_of(alloc, kind.as_str(), size) else {
        return ExitCode::from(6);
    };
    match answer(alloc, what.as_str(), c, budget) {
        Ok(Some(text)) => match println!(rt; "{text}") {
            Ok(()) => ExitCode::from(0),
            Err(_) => ExitCode::from(7),
        },
        Ok(None) => ExitCode::from(6),
        Err(_) => ExitCode::from(7),
    }
}
