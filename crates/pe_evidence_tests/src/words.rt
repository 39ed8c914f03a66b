//! Sums and comparisons of 16 bits on rails, against circuits that are built in another way.

ghost use Rattle.std.specs.Prelude.{◌≡◌, IfOk, All, length};
ghost use Rattle.pe_graph.specs.Nodes.{Grows};
ghost use Rattle.pe_rail_ops.specs.Rails.{IsRail};

use crate::searches::{below, carry, either, one_of, verdict};
use pe_base::Want;
use pe_graph::{Graph, Lit};
use pe_rail_ops::{Rail, add, bit, less};
use sqlite_items::Items;
use std::alloc::Global;
use std::process::Abort;
use std::test::Fail;

// A known bit: the leaf of this number.
fn known_bit(graph: &mut Graph, number: u32) -> Result<Rail, Want>
    ensures rail { IfOk result (λ rail. IsRail graph.new rail) }
    ensures grows { IfOk result (λ _. Grows graph.old graph.new) }
{
    let value = graph.leaf(number)?;
    Ok(bit::known(value))
}

// A word of such bits: every second leaf, from this one on.
fn known_word(alloc: Global, graph: &mut Graph, first: u32, width: u32) -> Result<Items<Rail>, Want>
    ensures width { IfOk result (λ word. length word ≡ width) }
    ensures rails { IfOk result (λ word. All (IsRail graph.new) word) }
    ensures grows { IfOk result (λ _. Grows graph.old graph.new) }
{
    let mut word = Items::new(alloc);
    for i in 0..width {
        let bit = known_bit(graph, i.wrapping_mul(2).wrapping_add(first))?;
        word.push(bit)?;
    }
    Ok(word)
}

// The lowest bits of the sum of the words, each from the carry of the bits below it; `wrong` leaves out a bit's carry.
fn sum(
    rt: &impl Abort,
    alloc: Global,
    graph: &mut Graph,
    bits: u32,
    wrong: u32,
) -> Result<Vec<Lit>, Want> {
    let mut sum = Vec::new(alloc);
    for k in 0..bits.min(1000) {
        let carried = carry(rt, graph, k, false, wrong)?;
        let a = graph.leaf(2 * k)?;
        let b = graph.leaf(2 * k + 1)?;
        let half = one_of(rt, graph, a, b)?;
        let bit = one_of(rt, graph, half, carried)?;
        sum.push(bit)?;
    }
    Ok(sum)
}

// Whether some value is not 1 where its bit is, or not 0 where its bit is not.
fn differs(rt: &impl Abort, graph: &mut Graph, rails: &[Rail], bits: &[Lit]) -> Result<Lit, Want> {
    assert!(rt; rails.len() == bits.len());
    let mut some = Lit::truth(false);
    for (rail, bit) in rails.iter().zip(bits) {
        let one = one_of(rt, graph, rail.one, *bit)?;
        let zero = one_of(rt, graph, rail.zero, bit.complement())?;
        let here = either(rt, graph, one, zero)?;
        some = either(rt, graph, some, here)?;
    }
    Ok(some)
}

// What is decided of the sum on rails and the other one.
fn added(rt: &impl Abort, alloc: Global, wrong: u32) -> Result<&'static str, Want> {
    let mut graph = Graph::new(alloc)?;
    let a = known_word(alloc, &mut graph, 0, 16)?;
    let b = known_word(alloc, &mut graph, 1, 16)?;
    assert!(rt; a.len() == b.len());
    let rails = add(alloc, &mut graph, a.as_slice(), b.as_slice())?;
    let bits = sum(rt, alloc, &mut graph, 16, wrong)?;
    let some = differs(rt, &mut graph, rails.as_slice(), &bits)?;
    verdict(rt, alloc, graph, 32, some, Lit::truth(false), 20000)
}

// What is decided of the comparison on rails and the other one.
fn compared(rt: &impl Abort, alloc: Global, wrong: u32) -> Result<&'static str, Want> {
    let mut graph = Graph::new(alloc)?;
    let a = known_word(alloc, &mut graph, 0, 16)?;
    let b = known_word(alloc, &mut graph, 1, 16)?;
    assert!(rt; a.len() == b.len());
    let rails = less(alloc, &mut graph, a.as_slice(), b.as_slice())?;
    let bit = below(rt, &mut graph, 16, true, wrong)?;
    let some = differs(rt, &mut graph, rails.as_slice(), &[bit])?;
    verdict(rt, alloc, graph, 32, some, Lit::truth(false), 20000)
}

// No bit of the sum reads the carry of the last.
#[test]
fn sums_on_rails(rt: HostRuntime) -> Result<(), Fail> {
    let alloc = rt.alloc();
    let cases = [
        (16, "chain"),
        (0, "sample"),
        (7, "sample"),
        (14, "sample"),
        (15, "chain"),
    ];
    for (wrong, answer) in cases {
        let found = added(&rt, alloc, wrong)?;
        assert!(rt; found == answer, "{wrong}: {found}");
    }
    Ok(())
}

#[test]
fn comparisons_on_rails(rt: HostRuntime) -> Result<(), Fail> {
    let alloc = rt.alloc();
    let cases = [(16, "chain"), (0, "sample"), (7, "sample"), (15, "sample")];
    for (wrong, answer) in cases {
        let found = compared(&rt, alloc, wrong)?;
        assert!(rt; found == answer, "{wrong}: {found}");
    }
    Ok(())
}
