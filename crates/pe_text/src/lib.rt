//! Tokens: how the text of each language is cut into them, and what a text shows before its grammar is tried.
//!
//! One walk serves all languages: from the text's start to its end, what starts at a place is passed over or is the next
//! token. A language says what starts at a place, in a file of its own under `specs/`. `scan` besides refuses what no
//! grammar is asked about: words that are left out, and numbers over their limits.
#![tactic(auto)]

mod among;
mod bytes;
mod command;
mod fault;
mod functions;
mod inputs;
mod language;
mod laws;
mod left_out;
mod lexing;
mod liberty;
mod limits;
mod map_file;
mod mode;
mod nesting;
mod opening;
mod run;
mod scanning;
mod token;
mod upf;
mod verilog;
mod verilog_left_out;
mod width;

pub use fault::{LexFault, ReadFault, Which};
pub use language::{Class, Lang};
pub use laws::{cut_order, longest, one_cut};
pub use lexing::{cut, lex, part};
pub use mode::Mode;
pub use run::{Base, Run};
pub use scanning::scan;
pub use token::{Kind, Token};
