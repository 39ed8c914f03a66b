//! What is decided of a question.

use pe_refute::{Derived, Evidence};

/// The answer to the question whether the sides of a goal are equal wherever its context is 1.
#[derive(Drop)]
pub enum Decision {
    /// They are, by this evidence.
    Refuted(Evidence),
    /// They are not: a value for each leaf of the job, under which the context is 1 and the sides differ.
    Sample(Vec<bool>),
    /// The budget was spent on these clauses.
    Spent(Vec<Derived>),
}
