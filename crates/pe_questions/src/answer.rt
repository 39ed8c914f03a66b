//! What a question is answered.

ghost use Rattle.std.specs.Prelude.{◌≡◌, ◌≤◌, length};
ghost use Rattle.pe_questions.specs.Answers.{is_mismatch, mismatched as mismatched_of};

use pe_base::Val;
use sqlite_items::Items;

/// What a question is answered. An assignment has the states of the roots and then the bits of the RTL's inputs.
#[derive(Debug, Drop)]
pub enum Answer {
    /// No assignment refutes that the output refines.
    Holds,
    /// The first assignment, in counting order, that refutes it, and the values of both sides there.
    Mismatch {
        bits: Items<bool>,
        rtl: Val,
        net: Val,
    },
    /// The first assignment that gives a cycle.
    Sample {
        bits: Items<bool>,
    },
    /// No assignment gives a cycle.
    Empty,
}

impl Answer {
    fn is_mismatch(&self) -> bool
        ensures { result ≡ is_mismatch self.now }
    {
        match self {
            Answer::Mismatch { .. } => true,
            Answer::Holds | Answer::Sample { .. } | Answer::Empty => false,
        }
    }
}

/// How many answers are mismatches.
pub fn mismatched(answers: &[Answer]) -> usize
    ensures count { result ≡ mismatched_of answers.now }
    ensures bounded { result ≤ length answers.now }
{
    answers.iter().filter(|answer| answer.is_mismatch()).count()
}
