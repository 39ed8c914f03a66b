use crate::NameIndex;
use pe_base::Name;
use std::test::Fail;

#[test]
fn places_of_names(rt: HostRuntime) -> Result<(), Fail> {
    let alloc = rt.alloc();
    let mut names = Vec::new(alloc);
    for bytes in [
        b"a".as_slice(),
        b"ab".as_slice(),
        b"".as_slice(),
        b"b".as_slice(),
    ] {
        let name = match Name::new(alloc, bytes) {
            Ok(name) => name,
            Err(_) => return Err(Fail::from("memory")),
        };
        names.push(name)?;
    }
    match NameIndex::of(alloc, names.as_slice()) {
        Ok(Some(index)) => {
            assert_eq!(rt; index.place(b"a"), 0);
            assert_eq!(rt; index.place(b"ab"), 1);
            assert_eq!(rt; index.place(b""), 2);
            assert_eq!(rt; index.place(b"b"), 3);
            assert_eq!(rt; index.place(b"c"), 4);
        }
        _ => return Err(Fail::from("no index")),
    }
    Ok(())
}
