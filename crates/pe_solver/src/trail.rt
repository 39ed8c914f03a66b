//! The literals that are true, in the order in which they became so.

use crate::safe::{read, small, write};
use pe_base::Want;
use std::alloc::Global;

/// A literal that was decided has no reason.
pub const NO_REASON: u32 = 0xffff_ffff;

/// What is known of a literal.
#[derive(Clone, Copy, PartialEq, Eq)]
pub enum Value {
    Unset,
    True,
    False,
}

/// The true literals in order, cut into levels by the decisions. Of each variable its level, the clause that is the
/// reason of its value, and its spot in the order.
#[derive(Drop)]
pub struct Trail {
    values: Vec<Value>,
    levels: Vec<u32>,
    reasons: Vec<u32>,
    spots: Vec<u32>,
    order: Vec<u32>,
    limits: Vec<usize>,
    head: usize,
}

impl Trail {
    /// No literal is true.
    pub fn new(alloc: Global, vars: u32) -> Result<Trail, Want> {
        let count = vars as usize;
        let values = vec![in alloc; Value::Unset; 2 * count]?;
        let levels = vec![in alloc; 0u32; count]?;
        let reasons = vec![in alloc; NO_REASON; count]?;
        let spots = vec![in alloc; 0u32; count]?;
        Ok(Trail {
            values,
            levels,
            reasons,
            spots,
            order: Vec::new(alloc),
            limits: Vec::new(alloc),
            head: 0,
        })
    }

    #[inline(always)]
    pub fn value(&self, l: u32) -> Value {
        read(&self.values, l as usize, Value::Unset)
    }

    #[inline(always)]
    pub fn is_false(&self, l: u32) -> bool {
        self.value(l) == Value::False
    }

    #[inline(always)]
    pub fn is_true(&self, l: u32) -> bool {
        self.value(l) == Value::True
    }

    /// The level of the literal's variable.
    #[inline(always)]
    pub fn level_of(&self, l: u32) -> u32 {
        read(&self.levels, (l / 2) as usize, 0)
    }

    /// The number of the clause that is the reason of the variable's value.
    #[inline(always)]
    pub fn reason_of(&self, v: u32) -> u32 {
        read(&self.reasons, v as usize, NO_REASON)
    }

    pub fn spot_of(&self, v: u32) -> u32 {
        read(&self.spots, v as usize, 0)
    }

    /// How many decisions there are.
    pub fn level(&self) -> usize {
        self.limits.len()
    }

    /// How many literals are true.
    pub fn len(&self) -> usize {
        self.order.len()
    }

    #[inline(always)]
    pub fn literal_at(&self, spot: usize) -> u32 {
        read(&self.order, spot, 0)
    }

    /// Makes the literal true.
    pub fn assign(&mut self, l: u32, reason: u32) -> Result<(), Want> {
        let v = (l / 2) as usize;
        let level = small(self.limits.len());
        let spot = small(self.order.len());
        write(&mut self.values, l as usize, Value::True);
        write(&mut self.values, (l ^ 1) as usize, Value::False);
        write(&mut self.levels, v, level);
        write(&mut self.reasons, v, reason);
        write(&mut self.spots, v, spot);
        self.order.push(l)?;
        Ok(())
    }

    /// The clause is the reason of the literal, which is true, from now on.
    pub fn justify(&mut self, l: u32, reason: u32) {
        write(&mut self.reasons, (l / 2) as usize, reason);
    }

    /// Begins the next level with the literal.
    pub fn decide(&mut self, l: u32) -> Result<(), Want> {
        let count = self.order.len();
        self.limits.push(count)?;
        self.assign(l, NO_REASON)
    }

    /// The next literal whose consequences haven't been drawn.
    pub fn next(&mut self) -> Option<u32> {
        if self.head >= self.order.len() {
            return None;
        }
        let l = self.literal_at(self.head);
        self.head = self.head.wrapping_add(1);
        Some(l)
    }

    /// Where the part of the order above this level begins.
    pub fn limit(&self, level: usize) -> usize {
        read(&self.limits, level, self.order.len())
    }

    /// Takes back the last literal.
    pub fn take_back(&mut self) -> Option<u32> {
        match self.order.pop() {
            None => None,
            Some(l) => {
                write(&mut self.values, l as usize, Value::Unset);
                write(&mut self.values, (l ^ 1) as usize, Value::Unset);
                Some(l)
            }
        }
    }

    /// Ends the levels above this one, whose literals have been taken back.
    pub fn end_levels(&mut self, level: usize) {
        self.limits.truncate(level);
        self.head = self.order.len();
    }
}
