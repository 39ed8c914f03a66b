//! What is to be learnt from a conflict.
//!
//! The clause is the one of the first unique implication point (Marques-Silva and Sakallah, GRASP, 1996; Zhang and
//! others, 2001), without the literals that follow from its others by reasons (Sorensson and Biere, 2009). Its hints
//! are the reasons that lead from its negation to the conflict, in the order of the trail.

use crate::arena::Arena;
use crate::choice::Choice;
use crate::safe::{read, write};
use crate::trail::{NO_REASON, Trail};
use pe_base::Want;
use std::alloc::Global;

/// A clause to be learnt, and the numbers of the clauses along which it should follow.
#[derive(Drop)]
pub struct Lesson {
    pub clause: Vec<u32>,
    pub hints: Vec<u32>,
}

/// Which variables were met, while a conflict is analysed.
#[derive(Drop)]
pub struct Analysis {
    alloc: Global,
    met: Vec<bool>,
    to_clear: Vec<u32>,
    stack: Vec<u32>,
}

impl Analysis {
    pub fn new(alloc: Global, vars: u32) -> Result<Analysis, Want> {
        let met = vec![in alloc; false; vars as usize]?;
        Ok(Analysis {
            alloc,
            met,
            to_clear: Vec::new(alloc),
            stack: Vec::new(alloc),
        })
    }

    /// What is learnt from the clause of a conflict. The literal that was true at the highest level stands last.
    #[inline(never)]
    pub fn learn(
        &mut self,
        arena: &Arena,
        trail: &Trail,
        choice: &mut Choice,
        conflict: u32,
    ) -> Result<Lesson, Want> {
        let found = self.implication_point(arena, trail, choice, conflict)?;
        let clause = self.shortened(arena, trail, &found)?;
        self.clear();
        let hints = self.hints(arena, trail, &clause, conflict)?;
        self.clear();
        choice.end_conflict();
        Ok(Lesson { clause, hints })
    }

    /// What is learnt of a literal of level 0: that it is true.
    pub fn settled(&mut self, arena: &Arena, trail: &Trail, l: u32) -> Result<Lesson, Want> {
        let mut clause = Vec::new(self.alloc);
        clause.push(l)?;
        let hints = self.hints(arena, trail, &clause, trail.reason_of(l / 2))?;
        self.clear();
        Ok(Lesson { clause, hints })
    }

    fn has_met(&self, v: u32) -> bool {
        read(&self.met, v as usize, false)
    }

    fn meet(&mut self, v: u32) -> Result<(), Want> {
        write(&mut self.met, v as usize, true);
        self.to_clear.push(v)?;
        Ok(())
    }

    fn clear(&mut self) {
        for v in &self.to_clear {
            write(&mut self.met, *v as usize, false);
        }
        self.to_clear.clear();
    }

    // The literals of lower levels that lead to the conflict, and the last literal of its level through which all its
    // ways lead.
    fn implication_point(
        &mut self,
        arena: &Arena,
        trail: &Trail,
        choice: &mut Choice,
        conflict: u32,
    ) -> Result<Vec<u32>, Want> {
        let mut clause = Vec::new(self.alloc);
        let mut open: usize = 0;
        let mut from = conflict;
        let mut top = trail.len();
        for _ in 0..trail.len() {
            let more = self.meet_all(arena, trail, choice, from, &mut clause)?;
            open = open.wrapping_add(more);
            match self.last_met(trail, top) {
                None => break,
                Some(spot) => {
                    let l = trail.literal_at(spot);
                    if open <= 1 {
                        clause.push(l ^ 1)?;
                        break;
                    }
                    open = open.wrapping_sub(1);
                    top = spot;
                    from = trail.reason_of(l / 2);
                }
            }
        }
        Ok(clause)
    }

    // Meets the variables of the clause: those of lower levels go into the clause that is learnt, and those of the last
    // level are counted.
    fn meet_all(
        &mut self,
        arena: &Arena,
        trail: &Trail,
        choice: &mut Choice,
        from: u32,
        clause: &mut Vec<u32>,
    ) -> Result<usize, Want> {
        let now = trail.level();
        let mut open: usize = 0;
        for i in arena.start(from)..arena.end(from) {
            let l = arena.literal(i);
            let level = trail.level_of(l);
            if level > 0 && trail.is_false(l) && !self.has_met(l / 2) {
                self.meet(l / 2)?;
                choice.bump(l / 2);
                if level as usize >= now {
                    open = open.wrapping_add(1);
                } else {
                    clause.push(l)?;
                }
            }
        }
        Ok(open)
    }

    // The last spot before `top` whose variable was met.
    fn last_met(&self, trail: &Trail, top: usize) -> Option<usize> {
        for spot in (0..top).rev() {
            if self.has_met(trail.literal_at(spot) / 2) {
                return Some(spot);
            }
        }
        None
    }

    // The clause without those of its literals, but the last, that follow from its others.
    fn shortened(
        &mut self,
        arena: &Arena,
        trail: &Trail,
        clause: &[u32],
    ) -> Result<Vec<u32>, Want> {
        self.clear();
        for l in clause {
            self.meet(*l / 2)?;
        }
        let levels = level_bits(trail, clause);
        let mut short = Vec::new(self.alloc);
        for (i, l) in clause.iter().enumerate() {
            let is_last = i.wrapping_add(1) == clause.len();
            if is_last || !self.is_redundant(arena, trail, *l, levels)? {
                short.push(*l)?;
            }
        }
        Ok(short)
    }

    // Whether the literal follows from those that were met: all ways back from it along reasons come to one of these, or
    // to level 0. Then what lies between counts as met too.
    fn is_redundant(
        &mut self,
        arena: &Arena,
        trail: &Trail,
        l: u32,
        levels: u64,
    ) -> Result<bool, Want> {
        let before = self.to_clear.len();
        self.stack.clear();
        self.stack.push(l)?;
        for _ in 0..u64::MAX {
            match self.stack.pop() {
                None => break,
                Some(m) => {
                    if !self.goes_back(arena, trail, m, levels)? {
                        self.forget(before);
                        return Ok(false);
                    }
                }
            }
        }
        Ok(true)
    }

    // Goes back from the literal to those of its reason that were not met, and meets them. False where it has no reason,
    // or one of them can't lead back to literals of the levels whose bits are given.
    fn goes_back(
        &mut self,
        arena: &Arena,
        trail: &Trail,
        l: u32,
        levels: u64,
    ) -> Result<bool, Want> {
        let reason = trail.reason_of(l / 2);
        if reason == NO_REASON {
            return Ok(false);
        }
        for i in arena.start(reason)..arena.end(reason) {
            let m = arena.literal(i);
            let level = trail.level_of(m);
            if level > 0 && !self.has_met(m / 2) {
                if levels & level_bit(level) == 0 {
                    return Ok(false);
                }
                self.meet(m / 2)?;
                self.stack.push(m)?;
            }
        }
        Ok(true)
    }

    // The variables that were met behind the first `count` ones count as not met.
    fn forget(&mut self, count: usize) {
        for i in count..self.to_clear.len() {
            let v = read(&self.to_clear, i, 0);
            write(&mut self.met, v as usize, false);
        }
        self.to_clear.truncate(count);
    }

    // The reasons between the clause's literals and the conflict, in the order of the trail, and the conflict.
    fn hints(
        &mut self,
        arena: &Arena,
        trail: &Trail,
        clause: &[u32],
        conflict: u32,
    ) -> Result<Vec<u32>, Want> {
        for l in clause {
            self.meet(*l / 2)?;
        }
        let mut spots = self.spots_before(arena, trail, conflict)?;
        spots.sort()?;
        let mut hints = Vec::new(self.alloc);
        for spot in &spots {
            hints.push(trail.reason_of(trail.literal_at(*spot as usize) / 2))?;
        }
        hints.push(conflict)?;
        Ok(hints)
    }

    // The spots of the literals that lead to the conflict and were not met before.
    fn spots_before(
        &mut self,
        arena: &Arena,
        trail: &Trail,
        conflict: u32,
    ) -> Result<Vec<u32>, Want> {
        let mut spots = Vec::new(self.alloc);
        self.stack.clear();
        self.push_literals(arena, conflict)?;
        for _ in 0..u64::MAX {
            match self.stack.pop() {
                None => break,
                Some(l) => {
                    let reason = trail.reason_of(l / 2);
                    if !self.has_met(l / 2) && reason != NO_REASON {
                        self.meet(l / 2)?;
                        spots.push(trail.spot_of(l / 2))?;
                        self.push_literals(arena, reason)?;
                    }
                }
            }
        }
        Ok(spots)
    }

    // The literals of the clause that were not met go onto the stack.
    fn push_literals(&mut self, arena: &Arena, id: u32) -> Result<(), Want> {
        for i in arena.start(id)..arena.end(id) {
            let l = arena.literal(i);
            if !self.has_met(l / 2) {
                self.stack.push(l)?;
            }
        }
        Ok(())
    }
}

// A bit for each level of the clause's literals; levels share bits.
fn level_bits(trail: &Trail, clause: &[u32]) -> u64 {
    let mut bits: u64 = 0;
    for l in clause {
        bits |= level_bit(trail.level_of(*l));
    }
    bits
}

fn level_bit(level: u32) -> u64 {
    1u64 << (level % 64)
}
