//! Questions about circuits: two literals that are to be equal.

use pe_base::Want;
use pe_graph::{Graph, Lit};
use std::alloc::Global;

/// A graph with so many leaves, and the two literals.
#[derive(Drop)]
pub struct Circuit {
    pub graph: Graph,
    pub leaves: u32,
    pub a: Lit,
    pub b: Lit,
}

/// The circuit of a kind and a size; none where the kind is unknown.
pub fn circuit_of(alloc: Global, kind: &str, size: u32) -> Result<Option<Circuit>, Want> {
    if kind == "threshold" {
        let circuit = threshold(alloc, size.clamp(3, 1_024))?;
        return Ok(Some(circuit));
    }
    let size = size.min(64);
    match kind {
        "parity" => Ok(Some(parity(alloc, size)?)),
        "adder" => Ok(Some(adder(alloc, size)?)),
        "shifter" => Ok(Some(shifter(alloc, size)?)),
        "multiplier" => Ok(Some(multiplier(alloc, size)?)),
        "pigeons" => Ok(Some(pigeons(alloc, size)?)),
        _ => Ok(None),
    }
}

// `a & b`, of literals of the graph.
fn both(graph: &mut Graph, a: Lit, b: Lit) -> Result<Lit, Want> {
    if a.var() < graph.nodes() && b.var() < graph.nodes() {
        graph.and(a, b)
    } else {
        Ok(Lit::truth(false))
    }
}

fn either(graph: &mut Graph, a: Lit, b: Lit) -> Result<Lit, Want> {
    Ok(both(graph, a.complement(), b.complement())?.complement())
}

// One of the two, but not both.
fn one_of(graph: &mut Graph, a: Lit, b: Lit) -> Result<Lit, Want> {
    let all = both(graph, a, b)?;
    let none = both(graph, a.complement(), b.complement())?;
    both(graph, all.complement(), none.complement())
}

// `a` where `chosen` is 1, else `b`.
fn choice(graph: &mut Graph, chosen: Lit, a: Lit, b: Lit) -> Result<Lit, Want> {
    let first = both(graph, chosen, a)?;
    let second = both(graph, chosen.complement(), b)?;
    either(graph, first, second)
}

// Two of the three, or all.
fn most(graph: &mut Graph, a: Lit, b: Lit, c: Lit) -> Result<Lit, Want> {
    let all = both(graph, a, b)?;
    let some = either(graph, a, b)?;
    let passed = both(graph, some, c)?;
    either(graph, all, passed)
}

fn get(word: &[Lit], i: usize) -> Lit {
    if i < word.len() {
        word[i]
    } else {
        Lit::truth(false)
    }
}

// The sum of the leaves, from the first on and from the last on.
fn parity(alloc: Global, size: u32) -> Result<Circuit, Want> {
    let mut graph = Graph::new(alloc)?;
    let mut a = Lit::truth(false);
    let mut b = Lit::truth(false);
    for k in 0..size {
        let leaf = graph.leaf(k)?;
        a = one_of(&mut graph, a, leaf)?;
    }
    for k in 0..size {
        let leaf = graph.leaf(size - 1 - k)?;
        b = one_of(&mut graph, b, leaf)?;
    }
    Ok(Circuit {
        graph,
        leaves: size,
        a,
        b,
    })
}

fn word(alloc: Global, graph: &mut Graph, first: u32, size: u32) -> Result<Vec<Lit>, Want> {
    let mut word = Vec::new(alloc);
    for k in 0..size {
        let leaf = graph.leaf(first.wrapping_add(k))?;
        word.push(leaf)?;
    }
    Ok(word)
}

// The sum of two words, of as many bits.
fn sum(alloc: Global, graph: &mut Graph, a: &[Lit], b: &[Lit]) -> Result<Vec<Lit>, Want> {
    let mut carried = Lit::truth(false);
    let mut sum = Vec::new(alloc);
    for i in 0..a.len() {
        let half = one_of(graph, get(a, i), get(b, i))?;
        let bit = one_of(graph, half, carried)?;
        carried = most(graph, get(a, i), get(b, i), carried)?;
        sum.push(bit)?;
    }
    Ok(sum)
}

// Whether all bits of the words are equal.
fn equal(graph: &mut Graph, a: &[Lit], b: &[Lit]) -> Result<Lit, Want> {
    let mut all = Lit::truth(true);
    for i in 0..a.len() {
        let differs = one_of(graph, get(a, i), get(b, i))?;
        all = both(graph, all, differs.complement())?;
    }
    Ok(all)
}

// (a + b) + c and a + (b + c).
fn adder(alloc: Global, size: u32) -> Result<Circuit, Want> {
    let mut graph = Graph::new(alloc)?;
    let a = word(alloc, &mut graph, 0, size)?;
    let b = word(alloc, &mut graph, size, size)?;
    let c = word(alloc, &mut graph, size.wrapping_mul(2), size)?;
    let first = sum(alloc, &mut graph, &a, &b)?;
    let first = sum(alloc, &mut graph, &first, &c)?;
    let second = sum(alloc, &mut graph, &b, &c)?;
    let second = sum(alloc, &mut graph, &a, &second)?;
    let same = equal(&mut graph, &first, &second)?;
    Ok(Circuit {
        graph,
        leaves: size.wrapping_mul(3),
        a: same,
        b: Lit::truth(true),
    })
}

// A word moved by what the bits of an amount say, the stages in one order and in the other.
fn shifter(alloc: Global, size: u32) -> Result<Circuit, Want> {
    let mut graph = Graph::new(alloc)?;
    let a = word(alloc, &mut graph, 0, size)?;
    let by = word(alloc, &mut graph, size, 5)?;
    let first = moved(alloc, &mut graph, &a, &by, false)?;
    let second = moved(alloc, &mut graph, &a, &by, true)?;
    let same = equal(&mut graph, &first, &second)?;
    Ok(Circuit {
        graph,
        leaves: size.wrapping_add(5),
        a: same,
        b: Lit::truth(true),
    })
}

fn moved(
    alloc: Global,
    graph: &mut Graph,
    a: &[Lit],
    by: &[Lit],
    back: bool,
) -> Result<Vec<Lit>, Want> {
    let mut now = Vec::new(alloc);
    now.extend_from_slice(a)?;
    for k in 0..by.len().min(16) {
        let stage = if back { by.len().min(16) - 1 - k } else { k };
        let mut next = Vec::new(alloc);
        for i in 0..a.len() {
            let from = get(&now, i.wrapping_add(1usize << stage));
            let bit = choice(graph, get(by, stage), from, get(&now, i))?;
            next.push(bit)?;
        }
        now = next;
    }
    Ok(now)
}

// a * b and b * a, each a sum of rows.
fn multiplier(alloc: Global, size: u32) -> Result<Circuit, Want> {
    let mut graph = Graph::new(alloc)?;
    let a = word(alloc, &mut graph, 0, size)?;
    let b = word(alloc, &mut graph, size, size)?;
    let first = product(alloc, &mut graph, &a, &b)?;
    let second = product(alloc, &mut graph, &b, &a)?;
    let same = equal(&mut graph, &first, &second)?;
    Ok(Circuit {
        graph,
        leaves: size.wrapping_mul(2),
        a: same,
        b: Lit::truth(true),
    })
}

fn product(alloc: Global, graph: &mut Graph, a: &[Lit], b: &[Lit]) -> Result<Vec<Lit>, Want> {
    let width = a.len().wrapping_mul(2);
    let mut total = row(alloc, graph, a, Lit::truth(false), 0, width)?;
    for i in 0..b.len() {
        let next = row(alloc, graph, a, get(b, i), i, width)?;
        total = sum(alloc, graph, &total, &next)?;
    }
    Ok(total)
}

// The word where the bit is 1, from this place on.
fn row(
    alloc: Global,
    graph: &mut Graph,
    a: &[Lit],
    bit: Lit,
    from: usize,
    width: usize,
) -> Result<Vec<Lit>, Want> {
    let mut row = Vec::new(alloc);
    for i in 0..width {
        let l = if i < from {
            Lit::truth(false)
        } else {
            get(a, i - from)
        };
        let l = both(graph, l, bit)?;
        row.push(l)?;
    }
    Ok(row)
}

// That each of so many pigeons sits in one of the holes, of which there is one less, and no two in one: never.
fn pigeons(alloc: Global, size: u32) -> Result<Circuit, Want> {
    let mut graph = Graph::new(alloc)?;
    let holes = size.saturating_sub(1);
    let mut all = Lit::truth(true);
    for p in 0..size {
        let mut some = Lit::truth(false);
        for h in 0..holes {
            let sits = graph.leaf(p.wrapping_mul(holes).wrapping_add(h))?;
            some = either(&mut graph, some, sits)?;
        }
        all = both(&mut graph, all, some)?;
    }
    for h in 0..holes {
        for p in 0..size {
            for q in 0..p {
                let first = graph.leaf(p.wrapping_mul(holes).wrapping_add(h))?;
                let second = graph.leaf(q.wrapping_mul(holes).wrapping_add(h))?;
                let clash = both(&mut graph, first, second)?;
                all = both(&mut graph, all, clash.complement())?;
            }
        }
    }
    Ok(Circuit {
        graph,
        leaves: size.wrapping_mul(holes),
        a: all,
        b: Lit::truth(false),
    })
}

// That clauses of three leaves or their complements are all true, drawn at random: 4.26 clauses for each leaf, near which
// they begin to be false under every assignment.
fn threshold(alloc: Global, size: u32) -> Result<Circuit, Want> {
    let mut graph = Graph::new(alloc)?;
    let mut all = Lit::truth(true);
    let mut draws = u64::from(size);
    for _ in 0..u64::from(size) * 426 / 100 {
        let mut some = Lit::truth(false);
        for _ in 0..3 {
            draws = draws
                .wrapping_mul(6_364_136_223_846_793_005)
                .wrapping_add(1_442_695_040_888_963_407);
            let drawn = (draws >> 33) as u32;
            let leaf = graph.leaf(drawn / 2 % size)?;
            let leaf = if drawn % 2 == 1 {
                leaf.complement()
            } else {
                leaf
            };
            some = either(&mut graph, some, leaf)?;
        }
        all = both(&mut graph, all, some)?;
    }
    Ok(Circuit {
        graph,
        leaves: size,
        a: all,
        b: Lit::truth(false),
    })
}
