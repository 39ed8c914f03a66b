//! A binary heap of variables, the most active first, with the place of each.

use crate::safe::{read, small, write};
use pe_base::Want;
use std::alloc::Global;

const NOWHERE: u32 = 0xffff_ffff;

/// Variables, each at most once. No variable is less active than those below it.
#[derive(Drop)]
pub struct Heap {
    vars: Vec<u32>,
    places: Vec<u32>,
}

impl Heap {
    /// All variables, of the same activity.
    pub fn new(alloc: Global, count: u32) -> Result<Heap, Want> {
        let mut vars = Vec::new(alloc);
        let mut places = Vec::new(alloc);
        for v in 0..count {
            vars.push(v)?;
            places.push(v)?;
        }
        Ok(Heap { vars, places })
    }

    fn set(&mut self, i: usize, v: u32) {
        write(&mut self.vars, i, v);
        write(&mut self.places, v as usize, small(i));
    }

    fn var_at(&self, i: usize) -> u32 {
        read(&self.vars, i, 0)
    }

    // Moves the variable at this place up, past those that are less active.
    fn rise(&mut self, start: usize, activity: &[f64]) {
        let v = self.var_at(start);
        let own = read(activity, v as usize, 0.0);
        let mut i = start;
        for _ in 0..64 {
            if i == 0 {
                break;
            }
            let parent = (i - 1) / 2;
            let above = self.var_at(parent);
            if read(activity, above as usize, 0.0) >= own {
                break;
            }
            self.set(i, above);
            i = parent;
        }
        self.set(i, v);
    }

    // The more active one of the two places below, if there is one.
    fn child(&self, i: usize, activity: &[f64]) -> Option<usize> {
        let left = i.wrapping_mul(2).wrapping_add(1);
        if left >= self.vars.len() {
            return None;
        }
        let right = left.wrapping_add(1);
        if right >= self.vars.len() {
            return Some(left);
        }
        let first = read(activity, self.var_at(left) as usize, 0.0);
        let second = read(activity, self.var_at(right) as usize, 0.0);
        Some(if second > first { right } else { left })
    }

    // Moves the variable at the top down, past those that are more active.
    fn sink(&mut self, activity: &[f64]) {
        let v = self.var_at(0);
        let own = read(activity, v as usize, 0.0);
        let mut i: usize = 0;
        for _ in 0..64 {
            match self.child(i, activity) {
                None => break,
                Some(child) => {
                    let below = self.var_at(child);
                    if own >= read(activity, below as usize, 0.0) {
                        break;
                    }
                    self.set(i, below);
                    i = child;
                }
            }
        }
        self.set(i, v);
    }

    /// The variable has become more active.
    pub fn grown(&mut self, v: u32, activity: &[f64]) {
        let i = read(&self.places, v as usize, NOWHERE);
        if i != NOWHERE {
            self.rise(i as usize, activity);
        }
    }

    /// Puts the variable in, if it isn't there.
    pub fn insert(&mut self, v: u32, activity: &[f64]) -> Result<(), Want> {
        if read(&self.places, v as usize, 0) == NOWHERE {
            let i = self.vars.len();
            self.vars.push(v)?;
            write(&mut self.places, v as usize, small(i));
            self.rise(i, activity);
        }
        Ok(())
    }

    /// Takes out the most active variable.
    pub fn pop(&mut self, activity: &[f64]) -> Option<u32> {
        let first = self.var_at(0);
        match self.vars.pop() {
            None => None,
            Some(last) => {
                write(&mut self.places, first as usize, NOWHERE);
                if self.vars.len() > 0 {
                    self.set(0, last);
                    self.sink(activity);
                }
                Some(first)
            }
        }
    }
}
