//! What drives supplies, and which nets ports are on.

ghost use Rattle.std.specs.Prelude.{◌≡◌, ℕ, ◌<◌, ◌&&◌, ◌||◌, true, false, not, filter, find, nat_lt, slice_get, IfOk, MatchOption, Some, []};
ghost use Rattle.std.specs.List.{range_with_len, All};
ghost use Rattle.std.specs.Option.{option_map_or};
ghost use Rattle.std.specs.Str.{bytes_eq};
ghost use Rattle.pe_base.specs.Names.{has_name, place_of};
ghost use Rattle.pe_supply.specs.Drivers.{edge_of, edges_of, is_driven_twice, is_root, first_elsewhere, next_of, AreCounts, IsLooped, IsFirstLooped};

use crate::lookup::Lookup;
use crate::plan::SwitchText;
use crate::planning::output_name;
use pe_base::{Name, NameSet, Want};
use pe_nets::NameIndex;
use sqlite_items::{Items, at};
use std::alloc::Global;

/// The supply of a switch's output, and that of its input.
pub(crate) fn edge_of(
    alloc: Global,
    names: &Lookup,
    switch: &SwitchText,
) -> Result<(u32, u32), Want>
    ensures { IfOk result (λ edge. edge ≡ edge_of names.now switch.now) }
{
    let output = output_name(alloc, switch.name.bytes(), switch.output.0.bytes())?;
    let to = names.number(output.bytes());
    let from = names.number(switch.input.1.bytes());
    Ok((to, from))
}

/// The supplies of the switches.
pub(crate) fn edges_of(
    alloc: Global,
    names: &Lookup,
    switches: &[SwitchText],
) -> Result<Items<(u32, u32)>, Want>
    ensures { IfOk result (λ edges. edges ≡ edges_of names.now switches.now) }
{
    let mut edges = Items::new(alloc);
    for switch in switches {
        edges.push(edge_of(alloc, names, switch)?)?;
    }
    Ok(edges)
}

/// How many switches drive each of so many supplies.
fn driver_counts(alloc: Global, edges: &[(u32, u32)], count: u64) -> Result<Vec<usize>, Want>
    ensures { IfOk result (λ counts. AreCounts edges.now count counts.items) }
{
    let mut counts = vec![in alloc; 0usize; count as usize]?;
    for edge in edges {
        let supply = edge.0 as usize;
        if supply < counts.len() {
            counts[supply] += 1;
        }
    }
    Ok(counts)
}

/// Whether so many drivers are two or more.
fn are_several(count: usize) -> bool
    ensures { result ≡ nat_lt 1 count }
{
    count > 1
}

/// The first supply of which the outputs of two switches are names.
pub(crate) fn first_driven_twice(
    alloc: Global,
    edges: &[(u32, u32)],
    count: u64,
) -> Result<Option<u64>, Want>
    ensures { IfOk result (λ supply. supply ≡ find (is_driven_twice edges.now) (range_with_len 0 count)) }
{
    let counts = driver_counts(alloc, edges, count)?;
    for supply in 0..count {
        if are_several(counts[supply as usize]) {
            return Ok(Some(supply));
        }
    }
    Ok(None)
}

/// Whether no switch drives the supply.
fn is_root(edges: &[(u32, u32)], supply: u32) -> bool
    ensures { result ≡ is_root edges.now supply }
{
    for edge in edges {
        if edge.0 == supply {
            return false;
        }
    }
    true
}

/// The supplies that no switch drives.
pub(crate) fn roots(alloc: Global, edges: &[(u32, u32)], count: u32) -> Result<Items<u32>, Want>
    ensures { IfOk result (λ roots. roots ≡ filter (is_root edges.now) (range_with_len 0 count)) }
{
    let mut roots = Items::new(alloc);
    for supply in 0..count {
        if is_root(edges, supply) {
            roots.push(supply)?;
        }
    }
    Ok(roots)
}

/// Whether the net of a port's first tie, where it has one, is another than the tie's.
///
/// The first net of a port stands in `firsts` at the port's place in `ports`.
fn is_second(ports: &NameIndex, firsts: &[&Name], tie: &(Name, Name)) -> bool
    ensures { result ≡ option_map_or (λ first. not (bytes_eq first.now tie.now.1)) (slice_get firsts.now (place_of ports.now tie.now.0)) false }
{
    match at(firsts, ports.place(tie.0.bytes())) {
        Some(first) => !first.is(tie.1.bytes()),
        None => false,
    }
}

/// Whether the port of a tie is on another net too: that of the port's first tie, or one of its own name.
fn is_elsewhere(nets: &NameSet, ports: &NameIndex, firsts: &[&Name], tie: &(Name, Name)) -> bool
    ensures { result ≡ (option_map_or (λ first. not (bytes_eq first.now tie.now.1)) (slice_get firsts.now (place_of ports.now tie.now.0)) false || (has_name nets.now tie.now.0 && not (bytes_eq tie.now.0 tie.now.1))) }
{
    is_second(ports, firsts, tie) || (nets.contains(tie.0.bytes()) && !tie.0.is(tie.1.bytes()))
}

/// The first port that is on two nets.
pub(crate) fn first_elsewhere(
    alloc: Global,
    nets: &[Name],
    ties: &[(Name, Name)],
) -> Result<Option<Name>, Want>
    ensures { IfOk result (λ port. port ≡ first_elsewhere nets.now [] ties.now) }
{
    let known = NameSet::of(alloc, nets)?;
    let mut ports = NameIndex::new(alloc);
    let mut firsts: Items<&Name> = Items::new(alloc);
    for tie in ties {
        if is_elsewhere(&known, &ports, firsts.as_slice(), tie) {
            let port = tie.0.copy(alloc)?;
            return Ok(Some(port));
        }
        if ports.insert(tie.0.bytes())? {
            firsts.push(&tie.1)?;
        }
    }
    Ok(None)
}

/// The input of the first switch that drives the supply.
fn next(edges: &[(u32, u32)], supply: u64) -> Option<u64>
    ensures { result ≡ next_of edges.now supply }
{
    for edge in edges {
        if u64::from(edge.0) == supply {
            return Some(u64::from(edge.1));
        }
    }
    None
}

/// Whether the supply reaches itself.
fn is_looped(edges: &[(u32, u32)], count: u64, supply: u64) -> bool
    requires once { (i : ℕ) → is_driven_twice edges.now i ≡ false }
    requires inputs { All (λ edge. edge.1 < count) edges.now }
    requires within { supply < count }
    ensures found { result ≡ true → IsLooped edges.now supply }
    ensures none { result ≡ false → IsLooped edges.now supply → ⊥ }
{
    let mut at = supply;
    for _step in 0..count {
        match next(edges, at) {
            None => return false,
            Some(input) => {
                if input == supply {
                    return true;
                }
                at = input;
            }
        }
    }
    false
}

/// The first supply that reaches itself.
pub(crate) fn first_looped(edges: &[(u32, u32)], count: u64) -> Option<u64>
    requires once { (i : ℕ) → is_driven_twice edges.now i ≡ false }
    requires inputs { All (λ edge. edge.1 < count) edges.now }
    requires outputs { All (λ edge. edge.0 < count) edges.now }
    ensures { MatchOption result ((i : ℕ) → IsLooped edges.now i → ⊥) (IsFirstLooped edges.now) }
{
    for supply in 0..count {
        if is_looped(edges, count, supply) {
            return Some(supply);
        }
    }
    None
}
