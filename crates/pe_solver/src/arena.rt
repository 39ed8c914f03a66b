//! The search's own copies of the clauses, whose literals it puts in its own order.

use crate::safe::{read, small, write};
use pe_base::Want;
use std::alloc::Global;

/// Literals of all clauses, one clause behind the other. The first two of a clause are those that are watched.
#[derive(Drop)]
pub struct Arena {
    literals: Vec<u32>,
    ends: Vec<usize>,
}

impl Arena {
    pub fn new(alloc: Global) -> Arena {
        Arena {
            literals: Vec::new(alloc),
            ends: Vec::new(alloc),
        }
    }

    /// How many clauses there are.
    pub fn count(&self) -> usize {
        self.ends.len()
    }

    /// Where the clause begins.
    #[inline(always)]
    pub fn start(&self, id: u32) -> usize {
        if id == 0 {
            0
        } else {
            read(&self.ends, (id - 1) as usize, 0)
        }
    }

    /// Where it ends.
    #[inline(always)]
    pub fn end(&self, id: u32) -> usize {
        read(&self.ends, id as usize, 0)
    }

    #[inline(always)]
    pub fn literal(&self, i: usize) -> u32 {
        read(&self.literals, i, 0)
    }

    #[inline(always)]
    pub fn put(&mut self, i: usize, l: u32) {
        write(&mut self.literals, i, l);
    }

    pub fn swap(&mut self, i: usize, j: usize) {
        let first = self.literal(i);
        let second = self.literal(j);
        self.put(i, second);
        self.put(j, first);
    }

    /// One more literal of the clause that will be next.
    pub fn push(&mut self, l: u32) -> Result<(), Want> {
        self.literals.push(l)?;
        Ok(())
    }

    /// Ends the clause, and gives its number.
    pub fn end_clause(&mut self) -> Result<u32, Want> {
        let id = small(self.ends.len());
        let end = self.literals.len();
        self.ends.push(end)?;
        Ok(id)
    }
}
