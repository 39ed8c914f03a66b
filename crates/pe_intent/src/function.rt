//! What a supply of a domain is for.

/// Which of the two primary supplies of a domain is meant.
#[derive(Clone, Copy, Debug, PartialEq, Eq)]
pub enum Function {
    Power,
    Ground,
}
