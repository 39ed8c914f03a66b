//! Operators of Verilog on vectors of values (IEEE 1364), the lowest bit first.

mod bits;
mod numbers;
mod shifts;

pub use bits::{
    and, choose, equal, logic_and, logic_not, logic_or, not, not_equal, or, reduce_and,
    reduce_nand, reduce_nor, reduce_or, reduce_xnor, reduce_xor, xnor, xor,
};
pub use numbers::{add, greater, greater_equal, less, less_equal, subtract};
pub use shifts::{pick, shift_left, shift_right};
