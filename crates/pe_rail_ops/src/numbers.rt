//! Arithmetic and comparison, by numbers.

ghost use Rattle.std.specs.Prelude.{◌≡◌, ◌&&◌, ◌∷◌, [], ℕ, Bool, List, cond, IfOk, OnErr, All, length, map, nat_lt};
ghost use Rattle.pe_base.specs.declared.value.Val.TheVariants.{Corrupt};
ghost use Rattle.pe_base.specs.Values.{known_of};
ghost use Rattle.pe_base.specs.Registers.{kept_of};
ghost use Rattle.pe_base.specs.Words.{all_known, value_number};
ghost use Rattle.pe_base.specs.Words.{add_of, subtract_of, less_of, less_equal_of, greater_of, greater_equal_of};
ghost use Rattle.pe_graph.specs.declared.graph.Node.{Node};
ghost use Rattle.pe_graph.specs.Nodes.{IsIn, value_in, Gives, Grows};
ghost use Rattle.pe_rail_ops.specs.Rails.{IsRail, GivesRails, rails_in};
ghost use Rattle.pe_rail_ops.specs.Adders.{flipped, sums_of, total_of};

use crate::adder::{add_bits, less_bits};
use crate::bit::{self, Rail};
use pe_base::Want;
use pe_graph::{Graph, Lit};
use sqlite_items::Items;
use std::alloc::Global;

/// `a + b`, modulo the width, and corrupt in every bit where a bit of an operand is.
pub fn add(alloc: Global, graph: &mut Graph, a: &[Rail], b: &[Rail]) -> Result<Items<Rail>, Want>
    requires widths { length a.now ≡ length b.now }
    requires a_in { All (IsRail graph.old) a.now }
    requires b_in { All (IsRail graph.old) b.now }
    ensures gives { IfOk result (GivesRails graph.old graph.new (λ v. add_of (rails_in v graph.old a.now) (rails_in v graph.old b.now))) }
    ensures want { OnErr result (Grows graph.old graph.new) }
{
    let bits = total(alloc, graph, false, a, b)?;
    Ok(bits)
}

/// `a - b`, modulo the width, and corrupt in every bit where a bit of an operand is.
pub fn subtract(
    alloc: Global,
    graph: &mut Graph,
    a: &[Rail],
    b: &[Rail],
) -> Result<Items<Rail>, Want>
    requires widths { length a.now ≡ length b.now }
    requires a_in { All (IsRail graph.old) a.now }
    requires b_in { All (IsRail graph.old) b.now }
    ensures gives { IfOk result (GivesRails graph.old graph.new (λ v. subtract_of (rails_in v graph.old a.now) (rails_in v graph.old b.now))) }
    ensures want { OnErr result (Grows graph.old graph.new) }
{
    let bits = total(alloc, graph, true, a, b)?;
    Ok(bits)
}

/// `a < b`, of one bit, and corrupt where a bit of an operand is.
pub fn less(alloc: Global, graph: &mut Graph, a: &[Rail], b: &[Rail]) -> Result<Items<Rail>, Want>
    requires widths { length a.now ≡ length b.now }
    requires a_in { All (IsRail graph.old) a.now }
    requires b_in { All (IsRail graph.old) b.now }
    ensures gives { IfOk result (GivesRails graph.old graph.new (λ v. less_of (rails_in v graph.old a.now) (rails_in v graph.old b.now))) }
    ensures want { OnErr result (Grows graph.old graph.new) }
{
    let bits = compare(alloc, graph, false, a, b)?;
    Ok(bits)
}

/// `a <= b`, of one bit, and corrupt where a bit of an operand is.
pub fn less_equal(
    alloc: Global,
    graph: &mut Graph,
    a: &[Rail],
    b: &[Rail],
) -> Result<Items<Rail>, Want>
    requires widths { length a.now ≡ length b.now }
    requires a_in { All (IsRail graph.old) a.now }
    requires b_in { All (IsRail graph.old) b.now }
    ensures gives { IfOk result (GivesRails graph.old graph.new (λ v. less_equal_of (rails_in v graph.old a.now) (rails_in v graph.old b.now))) }
    ensures want { OnErr result (Grows graph.old graph.new) }
{
    let bits = compare(alloc, graph, true, b, a)?;
    Ok(bits)
}

/// `a > b`, of one bit, and corrupt where a bit of an operand is.
pub fn greater(
    alloc: Global,
    graph: &mut Graph,
    a: &[Rail],
    b: &[Rail],
) -> Result<Items<Rail>, Want>
    requires widths { length a.now ≡ length b.now }
    requires a_in { All (IsRail graph.old) a.now }
    requires b_in { All (IsRail graph.old) b.now }
    ensures gives { IfOk result (GivesRails graph.old graph.new (λ v. greater_of (rails_in v graph.old a.now) (rails_in v graph.old b.now))) }
    ensures want { OnErr result (Grows graph.old graph.new) }
{
    let bits = compare(alloc, graph, false, b, a)?;
    Ok(bits)
}

/// `a >= b`, of one bit, and corrupt where a bit of an operand is.
pub fn greater_equal(
    alloc: Global,
    graph: &mut Graph,
    a: &[Rail],
    b: &[Rail],
) -> Result<Items<Rail>, Want>
    requires widths { length a.now ≡ length b.now }
    requires a_in { All (IsRail graph.old) a.now }
    requires b_in { All (IsRail graph.old) b.now }
    ensures gives { IfOk result (GivesRails graph.old graph.new (λ v. greater_equal_of (rails_in v graph.old a.now) (rails_in v graph.old b.now))) }
    ensures want { OnErr result (Grows graph.old graph.new) }
{
    let bits = compare(alloc, graph, true, a, b)?;
    Ok(bits)
}

/// Each value where the literal is 1, and corrupt where it is 0.
pub(crate) fn kept_each(
    alloc: Global,
    graph: &mut Graph,
    on: Lit,
    a: &[Rail],
) -> Result<Items<Rail>, Want>
    requires on_in { IsIn graph.old on }
    requires a_in { All (IsRail graph.old) a.now }
    ensures gives { IfOk result (GivesRails graph.old graph.new (λ v. map (kept_of (value_in v graph.old on)) (rails_in v graph.old a.now))) }
    ensures want { OnErr result (Grows graph.old graph.new) }
{
    let mut bits = Items::new(alloc);
    for i in 0..a.len() {
        let bit = bit::kept(graph, on, &a[i])?;
        bits.push(bit)?;
    }
    Ok(bits)
}

/// Whether no bit is corrupt.
pub(crate) fn all_known(graph: &mut Graph, a: &[Rail]) -> Result<Lit, Want>
    requires { All (IsRail graph.old) a.now }
    ensures gives { IfOk result (Gives graph.old graph.new (λ v. all_known (rails_in v graph.old a.now))) }
    ensures want { OnErr result (Grows graph.old graph.new) }
{
    graph.graph_law();
    let mut all = Lit::truth(true);
    for i in 0..a.len() {
        let x = a[i];
        let known = graph.or(x.one, x.zero)?;
        let both = graph.and(all, known)?;
        all = both;
    }
    Ok(all)
}

fn both_known(graph: &mut Graph, a: &[Rail], b: &[Rail]) -> Result<Lit, Want>
    requires a_in { All (IsRail graph.old) a.now }
    requires b_in { All (IsRail graph.old) b.now }
    ensures gives { IfOk result (Gives graph.old graph.new (λ v. all_known (rails_in v graph.old a.now) && all_known (rails_in v graph.old b.now))) }
    ensures want { OnErr result (Grows graph.old graph.new) }
{
    let x = all_known(graph, a)?;
    let y = all_known(graph, b)?;
    let both = graph.and(x, y)?;
    Ok(both)
}

// The sum or the difference.
fn total(
    alloc: Global,
    graph: &mut Graph,
    subtract: bool,
    a: &[Rail],
    b: &[Rail],
) -> Result<Items<Rail>, Want>
    requires widths { length a.now ≡ length b.now }
    requires a_in { All (IsRail graph.old) a.now }
    requires b_in { All (IsRail graph.old) b.now }
    ensures gives { IfOk result (GivesRails graph.old graph.new (λ v. total_of subtract (rails_in v graph.old a.now) (rails_in v graph.old b.now))) }
    ensures want { OnErr result (Grows graph.old graph.new) }
{
    let known = both_known(graph, a, b)?;
    let bits = sums(alloc, graph, subtract, a, b)?;
    let kept = kept_each(alloc, graph, known, bits.as_slice())?;
    Ok(kept)
}

// The lowest bits of the sum, or of the difference, by the literals that say that a bit is 1.
fn sums(
    alloc: Global,
    graph: &mut Graph,
    subtract: bool,
    a: &[Rail],
    b: &[Rail],
) -> Result<Items<Rail>, Want>
    requires widths { length a.now ≡ length b.now }
    requires a_in { All (IsRail graph.old) a.now }
    requires b_in { All (IsRail graph.old) b.now }
    ensures gives { IfOk result (GivesRails graph.old graph.new (λ v. sums_of subtract (rails_in v graph.old a.now) (rails_in v graph.old b.now))) }
    ensures want { OnErr result (Grows graph.old graph.new) }
{
    graph.graph_law();
    let mut carry = Lit::truth(subtract);
    let mut sums = Items::new(alloc);
    for i in 0..a.len() {
        let (x, y) = (a[i], b[i]);
        let added = add_bits(graph, x.one, flip(subtract, y.one), carry)?;
        sums.push(bit::known(added.sum))?;
        carry = added.carry;
    }
    Ok(sums)
}

// The complement, if it is asked for.
fn flip(turn: bool, x: Lit) -> Lit
    ensures inside { (nodes : List Node) → IsIn nodes x → IsIn nodes result }
    ensures value { (nodes : List Node) (v : ℕ → Bool) → value_in v nodes result ≡ flipped turn (value_in v nodes x) }
{
    if turn { x.complement() } else { x }
}

// Whether the first number is below the second, or with `turn` whether it is not.
fn compare(
    alloc: Global,
    graph: &mut Graph,
    turn: bool,
    a: &[Rail],
    b: &[Rail],
) -> Result<Items<Rail>, Want>
    requires widths { length a.now ≡ length b.now }
    requires a_in { All (IsRail graph.old) a.now }
    requires b_in { All (IsRail graph.old) b.now }
    ensures gives { IfOk result (GivesRails graph.old graph.new (λ v. cond (all_known (rails_in v graph.old a.now) && all_known (rails_in v graph.old b.now)) (known_of (flipped turn (nat_lt (value_number (rails_in v graph.old a.now)) (value_number (rails_in v graph.old b.now))))) Corrupt ∷ [])) }
    ensures want { OnErr result (Grows graph.old graph.new) }
{
    let known = both_known(graph, a, b)?;
    let less = is_less(graph, a, b)?;
    let bit = bit::kept(graph, known, &bit::known(flip(turn, less)))?;
    let bits = Items::from_slice(alloc, &[bit])?;
    Ok(bits)
}

// Whether the first number is below the second, by the literals that say that a bit is 1.
fn is_less(graph: &mut Graph, a: &[Rail], b: &[Rail]) -> Result<Lit, Want>
    requires widths { length a.now ≡ length b.now }
    requires a_in { All (IsRail graph.old) a.now }
    requires b_in { All (IsRail graph.old) b.now }
    ensures gives { IfOk result (Gives graph.old graph.new (λ v. nat_lt (value_number (rails_in v graph.old a.now)) (value_number (rails_in v graph.old b.now)))) }
    ensures want { OnErr result (Grows graph.old graph.new) }
{
    graph.graph_law();
    let mut less = Lit::truth(false);
    for i in 0..a.len() {
        let (x, y) = (a[i], b[i]);
        let below = less_bits(graph, x.one, y.one, less)?;
        less = below;
    }
    Ok(less)
}
