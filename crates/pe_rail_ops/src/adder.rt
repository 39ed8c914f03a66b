//! Addition and comparison of two bits on literals.

ghost use Rattle.std.specs.Prelude.{◌&&◌, ◌||◌, IfOk, OnErr};
ghost use Rattle.pe_base.specs.Adder.{sum_bit, less_bit};
ghost use Rattle.pe_graph.specs.Nodes.{IsIn, value_in, Gives, Grows};
ghost use Rattle.std.specs.Prelude.{false};
ghost use Rattle.pe_rail_ops.specs.Adders.{GivesSum};

use pe_base::Want;
use pe_graph::{Graph, Lit};

/// The two bits of a sum of three.
#[derive(Clone, Copy)]
pub struct Added {
    pub sum: Lit,
    pub carry: Lit,
}

/// The sum of two bits and a carry.
pub fn add_bits(graph: &mut Graph, x: Lit, y: Lit, carry: Lit) -> Result<Added, Want>
    requires x_in { IsIn graph.old x }
    requires y_in { IsIn graph.old y }
    requires carry_in { IsIn graph.old carry }
    ensures gives { IfOk result (GivesSum graph.old graph.new x y carry) }
    ensures want { OnErr result (Grows graph.old graph.new) }
{
    let half = differ(graph, x, y)?;
    let sum = differ(graph, half, carry)?;
    let carry = carried(graph, x, y, half, carry)?;
    Ok(Added { sum, carry })
}

// Whether both bits are 1, or one of them and the carry.
fn carried(graph: &mut Graph, x: Lit, y: Lit, half: Lit, carry: Lit) -> Result<Lit, Want>
    requires x_in { IsIn graph.old x }
    requires y_in { IsIn graph.old y }
    requires half_in { IsIn graph.old half }
    requires carry_in { IsIn graph.old carry }
    ensures gives { IfOk result (Gives graph.old graph.new (λ v. (value_in v graph.old x && value_in v graph.old y) || (value_in v graph.old half && value_in v graph.old carry))) }
    ensures want { OnErr result (Grows graph.old graph.new) }
{
    let both = graph.and(x, y)?;
    let through = graph.and(half, carry)?;
    let either = graph.or(both, through)?;
    Ok(either)
}

/// Whether the first bit is below the second, or they are equal and `less` says so.
pub fn less_bits(graph: &mut Graph, x: Lit, y: Lit, less: Lit) -> Result<Lit, Want>
    requires x_in { IsIn graph.old x }
    requires y_in { IsIn graph.old y }
    requires less_in { IsIn graph.old less }
    ensures gives { IfOk result (Gives graph.old graph.new (λ v. less_bit (value_in v graph.old x) (value_in v graph.old y) (value_in v graph.old less))) }
    ensures want { OnErr result (Grows graph.old graph.new) }
{
    let above = graph.and(x, y.complement())?;
    let still = graph.and(less, above.complement())?;
    let below = graph.and(x.complement(), y)?;
    let less = graph.or(below, still)?;
    Ok(less)
}

// Whether exactly one of them is 1.
fn differ(graph: &mut Graph, x: Lit, y: Lit) -> Result<Lit, Want>
    requires x_in { IsIn graph.old x }
    requires y_in { IsIn graph.old y }
    ensures gives { IfOk result (Gives graph.old graph.new (λ v. sum_bit (value_in v graph.old x) (value_in v graph.old y) false)) }
    ensures want { OnErr result (Grows graph.old graph.new) }
{
    let both = graph.and(x, y)?;
    let neither = graph.and(x.complement(), y.complement())?;
    let one = graph.and(both.complement(), neither.complement())?;
    Ok(one)
}
