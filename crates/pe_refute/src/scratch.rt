//! Which literals are known while a clause is checked.

ghost use Rattle.std.specs.Prelude.{◌≡◌, ℕ, ◌<◌, ◌≤◌, ◌*◌, length, IfOk, slice_index, EachIndex, false};
ghost use Rattle.std.specs.List.{All};
ghost use Rattle.pe_graph.specs.Literals.{var_of};
ghost use Rattle.pe_refute.specs.Follow.{learned};

use pe_base::Want;
use pe_graph::Lit;
use std::alloc::Global;

/// Room for checking: a literal is known to be true where its mark is the stamp.
#[derive(Drop)]
pub struct Scratch {
    pub vars: u64,
    marks: Vec<u64>,
    stamp: u64,
    ghost room: { length marks.items ≡ 2 * vars },
    ghost older: { All (λ m. m ≤ stamp) marks.items },
    ghost begun: { 0 < stamp },
}

impl Scratch {
    ghost use Rattle.pe_refute.specs.Known.{knows_of};

    /// Room for the literals of so many variables.
    pub fn new(alloc: Global, vars: u64) -> Result<Scratch, Want>
        ensures { IfOk result (λ s. s.vars ≡ vars) }
    {
        if vars > MOST {
            return Err(Want);
        }
        let marks = vec![in alloc; 0u64; 2 * vars as usize]?;
        Ok(Scratch {
            vars,
            marks,
            stamp: 1,
        })
    }

    /// No literal is known.
    pub fn begin(&mut self)
        ensures none { (l : ℕ) → knows_of self.new l ≡ false }
        ensures room { self.new.vars ≡ self.old.vars }
    {
        if self.stamp == u64::MAX {
            clear(&mut self.marks);
            self.stamp = 1;
        } else {
            self.stamp += 1;
        }
    }

    /// One more literal is known.
    pub fn mark(&mut self, l: Lit)
        requires { var_of l < self.old.vars }
        ensures known { (m : ℕ) → knows_of self.new m ≡ learned l (knows_of self.old) m }
        ensures room { self.new.vars ≡ self.old.vars }
    {
        self.marks[l.code() as usize] = self.stamp;
    }

    /// Whether the literal is known to be true.
    pub fn knows(&self, l: Lit) -> bool
        requires { var_of l < self.now.vars }
        ensures { result ≡ knows_of self.now l }
    {
        self.marks[l.code() as usize] == self.stamp
    }
}

// The marks of more variables would not fit memory.
const MOST: u64 = 0x0fff_ffff_ffff_ffff;

// Each mark is 0.
fn clear(marks: &mut [u64])
    ensures { EachIndex marks.new (λ k. slice_index marks.new k ≡ 0) }
{
    for x in marks.iter_mut() {
        *x = 0;
    }
}
