//! Each call that allocates, once, where memory is ample.

use super::*;
use sqlite_items::Items;
use std::alloc::Global;
use std::test::Fail;

fn names(alloc: Global, texts: &[&str]) -> Result<Items<Name>, Want> {
    let mut names = Items::new(alloc);
    for text in texts {
        names.push(Name::new(alloc, text.as_bytes())?)?;
    }
    Ok(names)
}

#[test]
fn copies(rt: HostRuntime) -> Result<(), Fail> {
    let alloc = rt.alloc();
    let name = Name::new(alloc, b"clk")?;
    let copy = name.copy(alloc)?;
    assert!(rt; copy.is(b"clk"));
    assert!(rt; !copy.is(b"clk2"));
    Ok(())
}

#[test]
fn sets_of_names(rt: HostRuntime) -> Result<(), Fail> {
    let alloc = rt.alloc();
    let ports = names(alloc, &["b", "a", "ab"])?;
    let some = names(alloc, &["ab", "b", "b"])?;
    let mut set = NameSet::of(alloc, ports.as_slice())?;
    assert!(rt; set.contains(b"a"));
    assert!(rt; !set.contains(b"c"));
    assert!(rt; set.insert(b"c")?);
    assert!(rt; !set.insert(b"ab")?);
    assert!(rt; set.contains(b"c"));
    assert!(rt; set.has_all(some.as_slice()));
    Ok(())
}

#[test]
fn lists_of_names(rt: HostRuntime) -> Result<(), Fail> {
    let alloc = rt.alloc();
    let ports = names(alloc, &["b", "a", "ab"])?;
    let some = names(alloc, &["ab", "b", "b"])?;
    assert!(rt; are_distinct(alloc, ports.as_slice())?);
    assert!(rt; !are_distinct(alloc, some.as_slice())?);
    assert!(rt; all_among(alloc, ports.as_slice(), some.as_slice())?);
    assert!(rt; !all_among(alloc, some.as_slice(), ports.as_slice())?);
    Ok(())
}
