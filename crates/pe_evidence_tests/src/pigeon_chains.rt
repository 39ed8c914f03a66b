//! Chains that were made by hand, for more pigeons than holes. The clauses are those of no cone, so that only their
//! check can be asked for.

use pe_base::Want;
use pe_cnf::Clauses;
use pe_graph::Lit;
use pe_refute::{Derived, Evidence, Scratch, check, vars_of};
use smallvec::SmallVec;
use sqlite_items::Items;
use std::alloc::Global;
use std::process::Abort;
use std::test::Fail;

// A clause by the codes of its literals, and its hints.
type Step<'a> = (&'a [u64], &'a [u64]);

// That the pigeon sits in the hole, or that it does not.
fn sits(holes: u64, pigeon: u64, hole: u64, negated: bool) -> Lit {
    Lit::of(pigeon.wrapping_mul(holes).wrapping_add(hole) % 64, negated)
}

// The clauses that each pigeon sits in some hole, by pigeons, and that no two sit in one, by holes.
fn clauses(alloc: Global, pigeons: u64, holes: u64) -> Result<Clauses, Want> {
    let mut lists = Vec::new(alloc);
    for pigeon in 0..pigeons {
        let mut some = Items::new(alloc);
        for hole in 0..holes {
            some.push(sits(holes, pigeon, hole, false))?;
        }
        lists.push(some)?;
    }
    for hole in 0..holes {
        for second in 0..pigeons {
            for first in 0..second {
                let a = sits(holes, first, hole, true);
                let b = sits(holes, second, hole, true);
                let not_both = Items::from_slice(alloc, &[a, b])?;
                lists.push(not_both)?;
            }
        }
    }
    Clauses::from_lists(alloc, &lists)
}

// The clause of these codes, with its hints but for the one at this place.
fn derived(alloc: Global, step: Step<'_>, left_out: usize) -> Result<Derived, Want> {
    let (codes, numbers) = step;
    let mut clause = SmallVec::new(alloc);
    for code in codes {
        clause.push(Lit::of(*code / 2 % 64, *code % 2 == 1))?;
    }
    let mut hints = SmallVec::new(alloc);
    for (i, number) in numbers.iter().enumerate() {
        if i != left_out {
            hints.push(*number)?;
        }
    }
    Ok(Derived { clause, hints })
}

// The chain of these steps, but for one hint of one step.
fn chain(
    alloc: Global,
    steps: &[Step<'_>],
    changed: usize,
    left_out: usize,
) -> Result<Evidence, Want> {
    let mut chain = Vec::new(alloc);
    for (k, step) in steps.iter().enumerate() {
        let left_out = if k == changed { left_out } else { usize::MAX };
        let next = derived(alloc, *step, left_out)?;
        chain.push(next)?;
    }
    Ok(Evidence::Chain(chain))
}

// Whether the evidence is good over the clauses.
fn is_good(alloc: Global, set: &Clauses, evidence: &Evidence) -> Result<bool, Want> {
    let vars = set.vars().max(vars_of(evidence));
    let mut scratch = Scratch::new(alloc, vars)?;
    Ok(check(set, evidence, &mut scratch))
}

// The chain is good, and not without any one of its hints.
fn needs_each_hint(
    rt: &impl Abort,
    alloc: Global,
    set: &Clauses,
    steps: &[Step<'_>],
) -> Result<(), Want> {
    let whole = chain(alloc, steps, usize::MAX, 0)?;
    assert!(rt; is_good(alloc, set, &whole)?);
    for (k, step) in steps.iter().enumerate() {
        for i in 0..step.1.len() {
            let less = chain(alloc, steps, k, i)?;
            assert!(rt; !is_good(alloc, set, &less)?, "step {k}, hint {i}");
        }
    }
    Ok(())
}

// The third pigeon isn't in the second hole; nor in the first.
#[test]
fn three_pigeons_in_two_holes(rt: HostRuntime) -> Result<(), Fail> {
    let alloc = rt.alloc();
    let set = clauses(alloc, 3, 2)?;
    assert_eq!(rt; set.count(), 9);
    let steps: [Step<'_>; 2] = [(&[11], &[8, 1, 7, 0, 3]), (&[], &[9, 2, 5, 1, 4, 0, 6])];
    needs_each_hint(&rt, alloc, &set, &steps)?;
    Ok(())
}

// The last two pigeons aren't in these two holes; the last one isn't in this hole; nor in any.
#[test]
fn four_pigeons_in_three_holes(rt: HostRuntime) -> Result<(), Fail> {
    let alloc = rt.alloc();
    let set = clauses(alloc, 4, 3)?;
    assert_eq!(rt; set.count(), 22);
    let steps: [Step<'_>; 10] = [
        (&[19, 15], &[8, 12, 1, 7, 11, 0, 16]),
        (&[19, 17], &[8, 18, 1, 7, 17, 0, 10]),
        (&[21, 13], &[14, 6, 1, 13, 5, 0, 16]),
        (&[21, 17], &[14, 18, 1, 13, 17, 0, 4]),
        (&[23, 13], &[20, 6, 1, 19, 5, 0, 10]),
        (&[23, 15], &[20, 12, 1, 19, 11, 0, 4]),
        (&[19], &[9, 22, 23, 2]),
        (&[21], &[15, 24, 25, 2]),
        (&[23], &[21, 26, 27, 2]),
        (&[], &[28, 29, 30, 3]),
    ];
    needs_each_hint(&rt, alloc, &set, &steps)?;
    Ok(())
}
