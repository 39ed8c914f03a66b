//! What all readers share that read a text by a grammar over its tokens: the words of tokens, their places, and what it is to
//! be read or refused.
#![tactic(auto)]

mod laws;
mod places;
mod words;

pub use laws::{few_tokens, one_reading};
pub use places::{byte_of, start_of};
pub use words::{between, name, word};

#[cfg(test)]
mod tests;
