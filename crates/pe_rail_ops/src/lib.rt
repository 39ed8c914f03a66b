//! Operators of Verilog, the law of registers and isolation on rails, which are two literals of a graph for a value.
//!
//! Each call has the values of its operands' values under every assignment of the leaves. After want of memory the
//! graph has only grown.
#![tactic(auto)]

mod adder;
pub mod bit;
mod bits;
mod extension;
mod gate;
mod numbers;
mod register;
mod shifts;

pub use bit::Rail;
pub use bits::{
    and, choose, equal, logic_and, logic_not, logic_or, not, not_equal, or, reduce_and,
    reduce_nand, reduce_nor, reduce_or, reduce_xnor, reduce_xor, xnor, xor,
};
pub use extension::exact;
pub use numbers::{add, greater, greater_equal, less, less_equal, subtract};
pub use register::{RegisterRails, isolated, next_main, next_shadow, visible};
pub use shifts::{pick, shift_left, shift_right};
