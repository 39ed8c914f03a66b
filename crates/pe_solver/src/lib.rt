//! The answer to a question: evidence, a sample, or a spent budget.
#![tactic(auto)]

mod analysis;
mod arena;
mod choice;
mod decision;
mod finding;
mod heap;
mod lean;
mod lessons;
mod links;
mod luby;
mod outcome;
mod prefixes;
mod questions;
mod safe;
mod same;
mod sample;
mod search;
mod store;
mod trail;
mod watches;

pub use decision::Decision;
pub use outcome::decide;
pub use questions::question;
