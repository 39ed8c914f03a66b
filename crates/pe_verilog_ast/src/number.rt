//! Bits of numbers.

/// One bit of a number as it is written.
#[derive(Clone, Copy, Debug, PartialEq, Eq)]
pub enum Digit {
    Zero,
    One,
    /// Corrupt.
    X,
    /// `z` and `?`, which a label of `casez` does not compare.
    Skip,
}
