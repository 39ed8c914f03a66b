//! The numbers of supplies: which names are one supply, and where it is first named.

ghost use Rattle.std.specs.Prelude.{◌≡◌, ◌^◌, ◌<◌, true, length, IfOk};
ghost use Rattle.std.specs.List.{All, range_with_len};
ghost use Rattle.pe_base.specs.Names.{has_name};
ghost use Rattle.pe_supply.specs.Forests.{IsForest, root_of, roots_of};
ghost use Rattle.pe_supply.specs.Labels.{with_joined, AreApart, AreLabelled, AreFirst, AreCounted};
ghost use Rattle.pe_supply.specs.Numbers.{distinct, names_in, numbers_in, AreNumbered, supply_count, first_name};

use pe_base::{Name, NameSet, Want};
use pe_nets::NameIndex;
use sqlite_items::Items;
use std::alloc::Global;

/// Each of the names once, in the order of their first places.
fn distinct(alloc: Global, names: &[Name]) -> Result<Items<Name>, Want>
    ensures { IfOk result (λ once. once ≡ distinct names.now) }
{
    let mut seen = NameSet::new(alloc);
    let mut once = Items::new(alloc);
    for name in names {
        if seen.insert(name.bytes())? {
            once.push(name.copy(alloc)?)?;
        }
    }
    Ok(once)
}

/// The numbers below a count.
fn numbers_below(alloc: Global, count: u32) -> Result<Vec<u32>, Want>
    ensures { IfOk result (λ numbers. numbers.items ≡ range_with_len 0 count) }
{
    let mut numbers = Vec::new(alloc);
    for number in 0..count {
        numbers.push(number)?;
    }
    Ok(numbers)
}

/// The root over a place. Each second place on the way is put two steps higher (path halving), so that many ways together
/// take few steps.
fn root(above: &mut [u32], place: usize) -> u32
    requires forest { IsForest above.old }
    requires inside { place < length above.old }
    ensures root { result ≡ root_of above.old place }
    ensures forest { IsForest above.new }
    ensures same { roots_of above.new ≡ roots_of above.old }
{
    let mut k = place;
    while above[k] as usize != k {
        let higher = above[above[k] as usize];
        above[k] = higher;
        k = higher as usize;
    }
    above[k]
}

/// Two places put under one root: of their two roots the later comes under the earlier.
fn link(above: &mut [u32], i: usize, j: usize)
    requires forest { IsForest above.old }
    requires first { i < length above.old }
    requires second { j < length above.old }
    ensures forest { IsForest above.new }
    ensures joined { roots_of above.new ≡ with_joined (roots_of above.old) (root_of above.old i) (root_of above.old j) }
{
    let x = root(above, i);
    let y = root(above, j);
    above[x.max(y) as usize] = x.min(y);
}

/// Each place put right under its root. A place above another comes before it, so it is under its own root by then.
fn flatten(above: &mut [u32])
    requires { IsForest above.old }
    ensures { above.new ≡ roots_of above.old }
{
    for k in 0..above.len() {
        above[k] = above[above[k] as usize];
    }
}

/// The places of names, each of which stands there once.
fn index_of<'a>(alloc: Global, names: &'a [Name]) -> Result<NameIndex<'a>, Want>
    requires { AreApart names.now }
    ensures { IfOk result (λ index. index ≡ names.now) }
{
    match NameIndex::of(alloc, names)? {
        Some(index) => Ok(index),
        None => Err(Want),
    }
}

/// A label for each name, which is the place of the first name of its supply.
fn label(alloc: Global, names: &[Name], ties: &[(Name, Name)]) -> Result<Items<u32>, Want>
    requires apart { AreApart names.now }
    requires few { length names.now < 2 ^ 32 }
    requires ports { All (λ tie. has_name names.now tie.0 ≡ true) ties.now }
    requires nets { All (λ tie. has_name names.now tie.1 ≡ true) ties.now }
    ensures { IfOk result (AreLabelled names.now ties.now) }
{
    let index = index_of(alloc, names)?;
    let mut above = numbers_below(alloc, names.len() as u32)?;
    for tie in ties {
        let i = index.place(tie.0.bytes());
        let j = index.place(tie.1.bytes());
        link(&mut above, i, j);
    }
    flatten(&mut above);
    Ok(Items::from_vec(above))
}

/// The number of each place's supply, by the labels: counted from 0 by first places.
fn count_off(alloc: Global, labels: &[u32]) -> Result<Items<u32>, Want>
    requires few { length labels.now < 2 ^ 32 }
    requires first { AreFirst labels.now }
    ensures { IfOk result (AreCounted labels.now (length labels.now)) }
{
    let mut numbers: Items<u32> = Items::new(alloc);
    let mut count: u32 = 0;
    for (k, label) in labels.iter().enumerate() {
        if *label as usize == k {
            numbers.push(count)?;
            count += 1;
        } else {
            let number = numbers.as_slice()[*label as usize];
            numbers.push(number)?;
        }
    }
    Ok(numbers)
}

/// The names with their numbers.
fn with_numbers(alloc: Global, names: &[Name], numbers: &[u32]) -> Result<Items<(Name, u32)>, Want>
    requires { length names.now ≡ length numbers.now }
    ensures names { IfOk result (λ pairs. names_in pairs ≡ names.now) }
    ensures numbers { IfOk result (λ pairs. numbers_in pairs ≡ numbers.now) }
{
    let mut pairs = Items::new(alloc);
    for (i, number) in numbers.iter().enumerate() {
        let name = names[i].copy(alloc)?;
        pairs.push((name, *number))?;
    }
    Ok(pairs)
}

/// The names that are made, each with the number of its supply.
pub(crate) fn number_names(
    alloc: Global,
    made: &[Name],
    ties: &[(Name, Name)],
) -> Result<Items<(Name, u32)>, Want>
    requires ports { All (λ tie. has_name made.now tie.0 ≡ true) ties.now }
    requires nets { All (λ tie. has_name made.now tie.1 ≡ true) ties.now }
    ensures { IfOk result (AreNumbered made.now ties.now) }
{
    let names = distinct(alloc, made)?;
    if names.len() > u32::MAX as usize {
        return Err(Want);
    }
    let labels = label(alloc, names.as_slice(), ties)?;
    let numbers = count_off(alloc, labels.as_slice())?;
    let pairs = with_numbers(alloc, names.as_slice(), numbers.as_slice())?;
    Ok(pairs)
}

/// How many supplies there are.
pub(crate) fn supply_count(names: &[(Name, u32)]) -> u64
    ensures { result ≡ supply_count names.now }
{
    let mut count: u64 = 0;
    for pair in names {
        count = count.max(u64::from(pair.1) + 1);
    }
    count
}

/// The first name of a supply.
pub(crate) fn first_name(names: &[(Name, u32)], supply: u64) -> &[u8]
    ensures { result.now ≡ first_name names.now supply }
{
    for pair in names {
        if u64::from(pair.1) == supply {
            return pair.0.bytes();
        }
    }
    b""
}
