//! The entries of a grammar's table.

/// What the texts of a form are. Other forms are named by their places in the table, and a set of terminals is a number:
/// the terminal `k`, which is below 128, is in it where bit `k` is 1.
#[derive(Clone, Copy)]
pub enum Form {
    /// One token of the kind.
    Terminal(u16),
    /// No token.
    Empty,
    /// A text of the first form, and then one of the second.
    Sequence(u16, u16),
    /// A text of the one form or of the other.
    Choice(u16, u16),
    /// Texts of the form one after the other, or none.
    Repeat(u16),
    /// A terminal of the set and then a text of the form, or nothing where no terminal of the set follows. So an `else`
    /// belongs to the nearest `if`, and a list goes on as long as it can.
    Clause(u128, u16),
    /// A list of options: the texts of a `Repeat`, named by its place, within the bounds.
    Once(u16, Bounds),
}

/// Which options a list of them may and must have, by the terminals that begin them.
#[derive(Clone, Copy)]
pub struct Bounds {
    /// No two options begin with the same terminal of this set.
    pub once: u128,
    /// An option begins with each terminal of this set.
    pub needed: u128,
}

/// A form, and what the test of the grammar goes by.
///
/// Which texts a form has is said by `form` alone. The other fields are hints that a tool computes and the test checks:
/// a wrong hint makes the test fail, and can't make a reader wrong.
#[derive(Clone, Copy)]
pub struct Entry {
    pub form: Form,
    /// Whether the empty text is one of its texts.
    pub nullable: bool,
    /// The terminals that begin one of its texts.
    pub first: u128,
    /// The terminals that may go on a text of it which could end there.
    pub goes_on: u128,
    /// The terminals of clauses that may be left out at the end of one of its texts.
    pub opened: u128,
    /// Above the rank of each form that is read at the same token, so that reading ends.
    pub rank: u16,
    /// Above the heights of the forms of one of its texts, so that it has a text.
    pub height: u16,
}
