//! The search for a sample or for clauses that follow.
//!
//! It promises nothing: what it learns is checked before it is kept, and a sample before it is answered. Its clauses have
//! the numbers of those that are kept.

use crate::analysis::{Analysis, Lesson};
use crate::arena::Arena;
use crate::choice::{Choice, go_back};
use crate::luby::luby;
use crate::safe::{read, small, write};
use crate::trail::{Trail, Value};
use crate::watches::Watches;
use pe_base::Want;
use pe_graph::Lit;
use std::alloc::Global;

// After so many conflicts, times the Luby sequence, the search begins anew.
const ROUND: u64 = 100;

// After so many conflicts, and a few more each time, clauses are put to sleep.
const FIRST_SLEEP: u64 = 1000;

const MORE_SLEEP: u64 = 300;

// A clause over so many levels, or fewer, stays awake.
const FEW_LEVELS: u32 = 2;

// Clauses over more levels count as of this many.
const MANY_LEVELS: u32 = 63;

// A literal of level 0 that takes more hints than this gets a clause of its own.
const MOST_HINTS: u32 = 8;

/// The most variables that a search may have.
pub const MOST_VARS: u64 = 0x1fff_ffff;

/// What the search comes to next.
#[derive(Drop)]
pub enum Found {
    Lesson(Lesson),
    /// Each variable has a value, and there is no conflict.
    Values,
}

/// A search over clauses.
#[derive(Drop)]
pub struct Search {
    alloc: Global,
    arena: Arena,
    watches: Watches,
    trail: Trail,
    choice: Choice,
    analysis: Analysis,
    // over how many levels each clause went when it was learnt, 0 for a given one
    levels: Vec<u32>,
    asleep: Vec<bool>,
    // a clause that is false at level 0
    clash: Option<u32>,
    // so many conflicts are left of the round, and before clauses are put to sleep
    left: u64,
    round: u64,
    awake_for: u64,
    sleeps: u64,
    // how many hints each variable of level 0 takes, and how many literals of level 0 were gone through: for that, and for
    // the clauses that they make true
    hints: Vec<u32>,
    counted: usize,
    applied: usize,
}

impl Search {
    pub fn new(alloc: Global, vars: u32) -> Result<Search, Want> {
        let watches = Watches::new(alloc, vars)?;
        let trail = Trail::new(alloc, vars)?;
        let choice = Choice::new(alloc, vars)?;
        let analysis = Analysis::new(alloc, vars)?;
        let hints = vec![in alloc; 1u32; vars as usize]?;
        Ok(Search {
            alloc,
            arena: Arena::new(alloc),
            watches,
            trail,
            choice,
            analysis,
            levels: Vec::new(alloc),
            asleep: Vec::new(alloc),
            clash: None,
            left: ROUND,
            round: 1,
            awake_for: FIRST_SLEEP,
            sleeps: 0,
            hints,
            counted: 0,
            applied: 0,
        })
    }

    /// Takes up a given clause.
    pub fn add(&mut self, clause: &[Lit]) -> Result<(), Want> {
        let id = self.store(clause, 0)?;
        self.attach(id)
    }

    /// Takes up a clause that was kept, after going back as far as it allows.
    pub fn learn(&mut self, clause: &[Lit]) -> Result<(), Want> {
        let levels = self.levels_of(clause)?;
        let id = self.store(clause, levels)?;
        self.take_up(id)
    }

    /// Takes up once more a clause that was put to sleep.
    pub fn learn_again(&mut self, id: u64) -> Result<(), Want> {
        if id < self.arena.count() as u64 {
            let id = (id & 0xffff_ffff) as u32;
            write(&mut self.asleep, id as usize, false);
            self.take_up(id)?;
        }
        Ok(())
    }

    // Goes back, or begins anew, and watches the clause.
    fn take_up(&mut self, id: u32) -> Result<(), Want> {
        let level = self.level_before(id);
        go_back(&mut self.trail, &mut self.choice, level)?;
        self.awake_for = self.awake_for.saturating_sub(1);
        if self.left == 0 {
            self.begin_anew()?;
        }
        self.left = self.left.wrapping_sub(1);
        self.attach(id)
    }

    // Begins anew, with some clauses asleep if it is time.
    fn begin_anew(&mut self) -> Result<(), Want> {
        go_back(&mut self.trail, &mut self.choice, 0)?;
        self.round = self.round.wrapping_add(1);
        self.left = luby(self.round).wrapping_mul(ROUND);
        if self.applied < self.trail.len() {
            self.applied = self.trail.len();
            self.drop_true();
        }
        if self.awake_for == 0 {
            self.sleeps = self.sleeps.wrapping_add(1);
            self.awake_for = FIRST_SLEEP.wrapping_add(self.sleeps.wrapping_mul(MORE_SLEEP));
            self.put_to_sleep();
        }
        Ok(())
    }

    // Puts to sleep the clauses that are true at level 0: they give nothing any more.
    fn drop_true(&mut self) {
        for id in 0..self.arena.count() {
            if self.is_true(small(id)) {
                write(&mut self.asleep, id, true);
            }
        }
        self.watches.drop_asleep(&self.asleep);
    }

    // Whether a literal of the clause is true.
    fn is_true(&self, id: u32) -> bool {
        for i in self.arena.start(id)..self.arena.end(id) {
            if self.trail.is_true(self.arena.literal(i)) {
                return true;
            }
        }
        false
    }

    // Puts to sleep about half of the clauses that are awake: those over the most levels, which help least (Audemard and
    // Simon, 2009).
    fn put_to_sleep(&mut self) {
        let limit = self.middle();
        for id in 0..self.levels.len() {
            let levels = read(&self.levels, id, 0);
            if levels > FEW_LEVELS && levels > limit {
                write(&mut self.asleep, id, true);
            }
        }
        self.watches.drop_asleep(&self.asleep);
    }

    // A number of levels: about half of the clauses that are awake go over more.
    fn middle(&self) -> u32 {
        let mut counts = [0u64; 64];
        let mut all: u64 = 0;
        for (id, levels) in self.levels.iter().enumerate() {
            if *levels > 0 && !read(&self.asleep, id, false) {
                let i = (*levels).min(MANY_LEVELS) as usize;
                let more = read(&counts, i, 0).wrapping_add(1);
                write(&mut counts, i, more);
                all = all.wrapping_add(1);
            }
        }
        let mut below: u64 = 0;
        for (i, count) in counts.iter().enumerate() {
            below = below.wrapping_add(*count);
            if below >= all / 2 {
                return (i & 63) as u32;
            }
        }
        MANY_LEVELS
    }

    // Copies a clause.
    fn store(&mut self, clause: &[Lit], levels: u32) -> Result<u32, Want> {
        for l in clause {
            self.arena.push((l.code() & 0xffff_ffff) as u32)?;
        }
        self.levels.push(levels)?;
        self.asleep.push(false)?;
        self.arena.end_clause()
    }

    // On how many levels the clause's literals have their values.
    fn levels_of(&mut self, clause: &[Lit]) -> Result<u32, Want> {
        let mut levels = Vec::new(self.alloc);
        for l in clause {
            levels.push(self.trail.level_of((l.code() & 0xffff_ffff) as u32))?;
        }
        levels.sort()?;
        let mut count: u32 = 1;
        for i in 1..levels.len() {
            if read(&levels, i, 0) != read(&levels, i.wrapping_sub(1), 0) {
                count = count.wrapping_add(1);
            }
        }
        Ok(count)
    }

    // The second highest level of the clause's literals, where the clause has one literal that isn't false.
    fn level_before(&self, id: u32) -> usize {
        let mut first: u32 = 0;
        let mut second: u32 = 0;
        for i in self.arena.start(id)..self.arena.end(id) {
            let level = self.trail.level_of(self.arena.literal(i));
            if level > first {
                second = first;
                first = level;
            } else if level > second {
                second = level;
            }
        }
        if second < first {
            second as usize
        } else {
            first.saturating_sub(1) as usize
        }
    }

    // Watches the clause, by two literals that aren't false or became so last; and makes its literal true, if just one is
    // left.
    fn attach(&mut self, id: u32) -> Result<(), Want> {
        let start = self.arena.start(id);
        let end = self.arena.end(id);
        if start >= end {
            self.clash = Some(id);
            return Ok(());
        }
        self.bring_best(start, end);
        let first = self.arena.literal(start);
        let next = start.wrapping_add(1);
        let mut is_single = true;
        if next < end {
            self.bring_best(next, end);
            let second = self.arena.literal(next);
            self.watches.push(first, id, second)?;
            self.watches.push(second, id, first)?;
            is_single = self.trail.is_false(second);
        } else if self.trail.is_true(first) && self.trail.level_of(first) == 0 {
            self.trail.justify(first, id);
        }
        if is_single && self.trail.value(first) == Value::Unset {
            self.trail.assign(first, id)?;
        }
        if self.trail.is_false(first) && self.trail.level() == 0 {
            self.clash = Some(id);
        }
        Ok(())
    }

    // Brings the best literal for a watch to the front.
    fn bring_best(&mut self, from: usize, to: usize) {
        let mut best = from;
        let mut rank: u32 = 0;
        for i in from..to {
            let r = self.rank(self.arena.literal(i));
            if r > rank {
                rank = r;
                best = i;
            }
        }
        self.arena.swap(from, best);
    }

    // How good a literal is for a watch: best one that isn't false, else one of a high level.
    fn rank(&self, l: u32) -> u32 {
        if self.trail.is_false(l) {
            self.trail.level_of(l).wrapping_add(1)
        } else {
            0xffff_ffff
        }
    }

    /// Decides until there is a conflict, or a literal of level 0 that gets a clause of its own.
    pub fn next(&mut self) -> Result<Found, Want> {
        if let Some(id) = self.clash {
            return Ok(Found::Lesson(self.lesson(id)?));
        }
        for _ in 0..u64::MAX {
            if let Some(id) = self.watches.propagate(&mut self.arena, &mut self.trail)? {
                return Ok(Found::Lesson(self.lesson(id)?));
            }
            if let Some(l) = self.next_settled() {
                return Ok(Found::Lesson(self.analysis.settled(&self.arena, &self.trail, l)?));
            }
            match self.choice.next(&self.trail) {
                None => return Ok(Found::Values),
                Some(l) => self.trail.decide(l)?,
            }
        }
        Ok(Found::Values)
    }

    // The next literal of level 0 that takes many hints. Each lesson that needs it would have all of them; with a clause
    // of its own it takes one.
    fn next_settled(&mut self) -> Option<u32> {
        if self.trail.level() > 0 {
            return None;
        }
        for spot in self.counted..self.trail.len() {
            self.counted = spot.wrapping_add(1);
            let l = self.trail.literal_at(spot);
            let hints = self.hints_of(l);
            if hints > MOST_HINTS {
                write(&mut self.hints, (l / 2) as usize, 1);
                return Some(l);
            }
            write(&mut self.hints, (l / 2) as usize, hints);
        }
        None
    }

    // How many hints the literal takes: its reason, and those of the reason's others.
    fn hints_of(&self, l: u32) -> u32 {
        let reason = self.trail.reason_of(l / 2);
        let mut hints: u32 = 1;
        for i in self.arena.start(reason)..self.arena.end(reason) {
            let v = self.arena.literal(i) / 2;
            if v != l / 2 {
                hints = hints.saturating_add(read(&self.hints, v as usize, 1));
            }
        }
        hints
    }

    fn lesson(&mut self, conflict: u32) -> Result<Lesson, Want> {
        self.analysis
            .learn(&self.arena, &self.trail, &mut self.choice, conflict)
    }

    /// Whether the variable is 1.
    pub fn is_one(&self, var: u64) -> bool {
        var <= MOST_VARS && self.trail.is_true((var * 2) as u32)
    }
}
