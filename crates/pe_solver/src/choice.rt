//! The choice of the next decision: a variable of recent conflicts, with the value that it had last.
//!
//! Variables gain activity by conflicts, and what is gained later counts more (Moskewicz and others, Chaff, 2001; Een
//! and Sorensson, MiniSat, 2003). A variable takes again the value that it had (Pipatsrisawat and Darwiche, 2007).

use crate::heap::Heap;
use crate::safe::{read, write};
use crate::trail::{Trail, Value};
use pe_base::Want;
use std::alloc::Global;

// By how much a conflict's gain exceeds that of the one before it.
const GROWTH: f64 = 1.0526315789;

// Above it activities are scaled down.
const MOST: f64 = 1e100;

/// The activities of the variables, and which of their literals was true last.
#[derive(Drop)]
pub struct Choice {
    activity: Vec<f64>,
    gain: f64,
    heap: Heap,
    signs: Vec<u32>,
}

impl Choice {
    pub fn new(alloc: Global, vars: u32) -> Result<Choice, Want> {
        let activity = vec![in alloc; 0.0f64; vars as usize]?;
        let heap = Heap::new(alloc, vars)?;
        let signs = vec![in alloc; 1u32; vars as usize]?;
        Ok(Choice {
            activity,
            gain: 1.0,
            heap,
            signs,
        })
    }

    /// The variable took part in a conflict.
    pub fn bump(&mut self, v: u32) {
        let grown = read(&self.activity, v as usize, 0.0) + self.gain;
        write(&mut self.activity, v as usize, grown);
        if grown > MOST {
            self.scale_down();
        }
        self.heap.grown(v, &self.activity);
    }

    fn scale_down(&mut self) {
        for x in self.activity.iter_mut() {
            *x = *x / MOST;
        }
        self.gain = self.gain / MOST;
    }

    /// A conflict is over: the next ones count more.
    pub fn end_conflict(&mut self) {
        self.gain = self.gain * GROWTH;
    }

    /// The literal was taken back.
    pub fn released(&mut self, l: u32) -> Result<(), Want> {
        write(&mut self.signs, (l / 2) as usize, l & 1);
        self.heap.insert(l / 2, &self.activity)
    }

    /// The literal to be decided next; none where each variable has a value.
    pub fn next(&mut self, trail: &Trail) -> Option<u32> {
        for _ in 0..u64::MAX {
            match self.heap.pop(&self.activity) {
                None => return None,
                Some(v) => {
                    let l = (v & 0x7fff_ffff) * 2;
                    if trail.value(l) == Value::Unset {
                        return Some(l ^ (read(&self.signs, v as usize, 1) & 1));
                    }
                }
            }
        }
        None
    }
}

/// Goes back to the level: what became true above it has no value.
pub fn go_back(trail: &mut Trail, choice: &mut Choice, level: usize) -> Result<(), Want> {
    if level < trail.level() {
        let kept = trail.limit(level);
        for _ in kept..trail.len() {
            if let Some(l) = trail.take_back() {
                choice.released(l)?;
            }
        }
        trail.end_levels(level);
    }
    Ok(())
}
