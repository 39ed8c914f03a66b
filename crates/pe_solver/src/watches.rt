//! Which clauses are visited when a literal becomes false.
//!
//! Of each clause two literals are watched: as long as neither is false, the clause gives nothing new (Moskewicz and
//! others, Chaff, 2001). Beside each watch stands another literal of the clause: while that is true, the clause isn't
//! looked at (Een and Sorensson, MiniSat, 2.1).

use crate::arena::Arena;
use crate::safe::{read, write};
use crate::trail::{Trail, Value};
use pe_base::Want;
use std::alloc::Global;
use std::mem;

/// A clause, and another of its literals.
#[derive(Clone, Copy)]
pub struct Watch {
    pub clause: u32,
    pub blocker: u32,
}

const NO_WATCH: Watch = Watch {
    clause: 0xffff_ffff,
    blocker: 0,
};

// What a clause gives when one of its watched literals has become false.
#[derive(Clone, Copy)]
enum Visit {
    Stays(u32),
    Moved,
    Conflict(u32),
}

/// The watches of each literal.
#[derive(Drop)]
pub struct Watches {
    alloc: Global,
    lists: Vec<Vec<Watch>>,
}

impl Watches {
    pub fn new(alloc: Global, vars: u32) -> Result<Watches, Want> {
        let mut lists: Vec<Vec<Watch>> = Vec::new(alloc);
        for _ in 0..2 * vars as u64 {
            lists.push(Vec::new(alloc))?;
        }
        Ok(Watches { alloc, lists })
    }

    /// The clause watches the literal.
    pub fn push(&mut self, l: u32, clause: u32, blocker: u32) -> Result<(), Want> {
        let i = l as usize;
        if i < self.lists.len() {
            let list = &mut self.lists[i];
            list.push(Watch { clause, blocker })?;
        }
        Ok(())
    }

    /// Draws the consequences of the literals on the trail; the clause of a conflict, if there is one.
    pub fn propagate(&mut self, arena: &mut Arena, trail: &mut Trail) -> Result<Option<u32>, Want> {
        for _ in 0..u64::MAX {
            match trail.next() {
                None => return Ok(None),
                Some(l) => {
                    let conflict = self.visit_all(l ^ 1, arena, trail)?;
                    if conflict.is_some() {
                        return Ok(conflict);
                    }
                }
            }
        }
        Ok(None)
    }

    // Visits the clauses that watch the false literal.
    #[inline(never)]
    fn visit_all(
        &mut self,
        gone: u32,
        arena: &mut Arena,
        trail: &mut Trail,
    ) -> Result<Option<u32>, Want> {
        let mut list = self.take(gone);
        let mut kept: usize = 0;
        let mut conflict = None;
        for k in 0..list.len() {
            let watch = read(&list, k, NO_WATCH);
            let mut blocker = watch.blocker;
            let mut stays = true;
            if conflict.is_none() && !trail.is_true(blocker) {
                match self.visit(watch.clause, gone, arena, trail)? {
                    Visit::Moved => stays = false,
                    Visit::Stays(first) => blocker = first,
                    Visit::Conflict(first) => {
                        blocker = first;
                        conflict = Some(watch.clause);
                    }
                }
            }
            if stays {
                let clause = watch.clause;
                write(&mut list, kept, Watch { clause, blocker });
                kept = kept.wrapping_add(1);
            }
        }
        list.truncate(kept);
        self.give_back(gone, list);
        Ok(conflict)
    }

    fn take(&mut self, l: u32) -> Vec<Watch> {
        let i = l as usize;
        if i < self.lists.len() {
            mem::replace(&mut self.lists[i], Vec::new(self.alloc))
        } else {
            Vec::new(self.alloc)
        }
    }

    fn give_back(&mut self, l: u32, list: Vec<Watch>) {
        let i = l as usize;
        if i < self.lists.len() {
            self.lists[i] = list;
        }
    }

    // Visits a clause of which the watched literal `gone` is false: another one is watched in its place, or the first
    // one has to be true.
    #[inline(always)]
    fn visit(
        &mut self,
        clause: u32,
        gone: u32,
        arena: &mut Arena,
        trail: &mut Trail,
    ) -> Result<Visit, Want> {
        let start = arena.start(clause);
        let second = start.wrapping_add(1);
        if arena.literal(start) == gone {
            arena.swap(start, second);
        }
        let first = arena.literal(start);
        if trail.is_true(first) {
            return Ok(Visit::Stays(first));
        }
        if let Some(i) = other_watch(arena, trail, start.wrapping_add(2), arena.end(clause)) {
            let l = arena.literal(i);
            arena.put(second, l);
            arena.put(i, gone);
            self.push(l, clause, first)?;
            return Ok(Visit::Moved);
        }
        if trail.value(first) == Value::False {
            return Ok(Visit::Conflict(first));
        }
        trail.assign(first, clause)?;
        Ok(Visit::Stays(first))
    }

    /// Drops the watches of the clauses that are asleep.
    pub fn drop_asleep(&mut self, asleep: &[bool]) {
        for list in self.lists.iter_mut() {
            drop_from(list, asleep);
        }
    }
}

// The place of a literal that isn't false, between these places.
#[inline(always)]
fn other_watch(arena: &Arena, trail: &Trail, from: usize, to: usize) -> Option<usize> {
    for i in from..to {
        if !trail.is_false(arena.literal(i)) {
            return Some(i);
        }
    }
    None
}

// Drops those of the watches whose clauses are asleep.
fn drop_from(list: &mut Vec<Watch>, asleep: &[bool]) {
    let mut kept: usize = 0;
    for k in 0..list.len() {
        let watch = read(list, k, NO_WATCH);
        if !read(asleep, watch.clause as usize, false) {
            write(list, kept, watch);
            kept = kept.wrapping_add(1);
        }
    }
    list.truncate(kept);
}
