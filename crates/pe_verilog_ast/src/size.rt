//! The size of an expression, and its weight: how much its value takes to be worked out.

ghost use Rattle.std.specs.Prelude.{◌≡◌, ◌-◌, ◌*◌, ◌^◌, ◌≤◌, ◌<◌, min, map, length, slice_index_or, ℕ, List};
ghost use Rattle.pe_verilog_ast.specs.declared.number.Digit.{Digit};
ghost use Rattle.pe_verilog_ast.specs.Weights.{Sized, capped, bit_of, number_of, net_size, part_size, selected, total_size, total_weight, chained, sized, step, bits, own_size, weight_in};
ghost use Rattle.pe_verilog_ast.specs.Costs.{IsCost};

use crate::cost::{Cost, alone, binary, choose, larger, leaf, one_bit, unary, weight_at};
use crate::expression::{Ex, Operand, Select};
use crate::number::Digit;
use pe_base::Name;

fn bit_of(digit: Digit) -> u64
    ensures { result ≡ bit_of digit }
{
    match digit {
        Digit::One => 1,
        Digit::Zero | Digit::X | Digit::Skip => 0,
    }
}

fn bit_at(digits: &[Digit], i: usize) -> u64
    requires { i < length digits.now }
    ensures { (d : Digit) → result ≡ bit_of (slice_index_or digits.now i d) }
{
    bit_of(digits[i])
}

fn number_of(digits: &[Digit]) -> u64
    ensures { result ≡ capped (number_of digits.now) }
{
    let mut value: u64 = 0;
    let mut power: u64 = 1;
    for i in 0..digits.len() {
        value = value.saturating_add(power.saturating_mul(bit_at(digits, i)));
        power = power.saturating_add(power);
    }
    value
}

// The value of a number, and 0 for what is none.
fn value_of(e: &Ex) -> u64
    ensures { (nets : List (List ℕ × ℕ)) → result ≡ capped (sized nets e.now).value }
{
    match e {
        Ex::Number { digits } => number_of(digits.as_slice()),
        Ex::Net { .. } => 0,
        Ex::Join(_) => 0,
        Ex::Repeat { .. } => 0,
        Ex::Unary(_, _) => 0,
        Ex::Chain { .. } => 0,
        Ex::Choose(_, _, _) => 0,
    }
}

fn is_number(e: &Ex) -> bool
    ensures { (nets : List (List ℕ × ℕ)) → result ≡ (sized nets e.now).is_number }
{
    match e {
        Ex::Number { .. } => true,
        Ex::Net { .. } => false,
        Ex::Join(_) => false,
        Ex::Repeat { .. } => false,
        Ex::Unary(_, _) => false,
        Ex::Chain { .. } => false,
        Ex::Choose(_, _, _) => false,
    }
}

fn net_size(nets: &[(Name, u32)], name: &Name) -> u32
    ensures { result ≡ net_size nets.now name.now }
{
    for net in nets {
        if net.0.is(name.bytes()) {
            return net.1;
        }
    }
    0
}

fn wide(size: u32) -> u64
    ensures same { result ≡ size }
    ensures fits { result ≤ 2 ^ 32 - 1 }
{
    size as u64
}

fn count(digits: &[Digit]) -> u64
    ensures { result ≡ capped (length digits.now) }
{
    digits.len() as u64
}

fn part_size(left: u64, right: u64) -> u64
    ensures { result ≡ capped (part_size left right) }
{
    if left < right {
        (right - left).saturating_add(1)
    } else {
        (left - right).saturating_add(1)
    }
}

// Sizes and weights of parts that stand alone.
#[derive(Clone, Copy)]
struct Sums {
    size: u64,
    weight: u64,
}

#[cycle(costs)]
fn parts_cost(parts: &[Ex], nets: &[(Name, u32)]) -> Sums
    ensures size { result.size ≡ capped (total_size (map (sized nets.now) parts.now)) }
    ensures weight { result.weight ≡ capped (total_weight (map (sized nets.now) parts.now)) }
{
    let mut size: u64 = 0;
    let mut weight: u64 = 0;
    for part in parts {
        let cost = expression_cost(part, nets);
        size = size.saturating_add(cost.size);
        weight = weight.saturating_add(alone(cost));
    }
    Sums { size, weight }
}

#[cycle(costs)]
fn chain_cost(first: Cost, more: &[Operand], nets: &[(Name, u32)]) -> Cost
    ensures { (x : Sized) → IsCost x first → IsCost (chained x (map (step nets.now) more.now)) result }
{
    let mut all = first;
    for operand in more {
        all = binary(operand.op, all, expression_cost(&operand.value, nets));
    }
    all
}

#[cycle(costs)]
fn select_cost(size: u32, select: &Select, nets: &[(Name, u32)]) -> Cost
    ensures { IsCost (selected size (bits nets.now select.now)) result }
{
    match select {
        Select::Whole => leaf(wide(size), 0),
        Select::Bit(index) => {
            if is_number(index.get()) {
                leaf(1, 0)
            } else {
                one_bit(
                    12 * wide(size),
                    alone(expression_cost(index.get(), nets)),
                    0,
                )
            }
        }
        Select::Part(left, right) => {
            leaf(part_size(value_of(left.get()), value_of(right.get())), 0)
        }
    }
}

#[cycle(costs)]
fn expression_cost(e: &Ex, nets: &[(Name, u32)]) -> Cost
    ensures { IsCost (sized nets.now e.now) result }
{
    match e {
        Ex::Number { digits } => leaf(count(digits.as_slice()), 0),
        Ex::Net { name, select } => select_cost(net_size(nets, name), select, nets),
        Ex::Join(parts) => {
            let all = parts_cost(parts.as_slice(), nets);
            leaf(all.size, all.weight)
        }
        Ex::Repeat { count, parts } => {
            let all = parts_cost(parts.as_slice(), nets);
            leaf(value_of(count.get()).saturating_mul(all.size), all.weight)
        }
        Ex::Unary(op, a) => unary(*op, expression_cost(a.get(), nets)),
        Ex::Chain { first, more } => {
            chain_cost(expression_cost(first.get(), nets), more.as_slice(), nets)
        }
        Ex::Choose(condition, a, b) => choose(
            expression_cost(condition.get(), nets),
            expression_cost(a.get(), nets),
            expression_cost(b.get(), nets),
        ),
    }
}

/// The size in bits of an expression that stands alone, where its nets have these widths, or the greatest u32 where it is
/// greater. A net without a width has no bits. Counts of repetitions and bounds of selects are numbers.
pub fn width(e: &Ex, widths: &[(Name, u32)]) -> u32
    ensures { result ≡ min (own_size widths.now e.now) (2 ^ 32 - 1) }
{
    let size = expression_cost(e, widths).size;
    if size < u32::MAX as u64 {
        size as u32
    } else {
        u32::MAX
    }
}

/// The weight of an expression in a context of so many bits, where its nets have these widths, or the greatest u64 where it
/// is greater. Counts of repetitions, bounds of selects and constant indexes are numbers.
pub fn weight(e: &Ex, context: u32, widths: &[(Name, u32)]) -> u64
    ensures { result ≡ capped (weight_in widths.now context e.now) }
{
    let cost = expression_cost(e, widths);
    weight_at(cost, larger(context as u64, cost.size))
}
