use crate::{
    Failed, Files, MemFiles, MemSink, RealFiles, RealSink, Sink, WholeFault, read_whole, write_all,
};
use pe_base::Name;
use sqlite_items::Items;
use std::alloc::Global;
use std::fs;
use std::test::Fail;

const FOLDER: &str = "pe_outside_test";

const PATH: &str = "pe_outside_test/real.txt";

const TEXT: &[u8] = b"a text of some words";

#[test]
fn a_real_file_is_read(rt: HostRuntime) -> Result<(), Fail> {
    let _ = fs::remove_dir_all(&rt, FOLDER);
    fs::create_dir(&rt, FOLDER)?;
    fs::write(&rt, PATH, TEXT)?;
    let mut files = RealFiles::new(&rt);
    let mut into = [0; 4];
    let placed = files.read_at(PATH, 2, &mut into)?;
    assert_eq!(rt; placed, 4);
    assert_eq!(rt; into, *b"text");
    assert_eq!(rt; files.read_at(PATH, 18, &mut into), Ok(2));
    assert_eq!(rt; files.read_at(PATH, 20, &mut into), Ok(0));
    let whole = read_whole(rt.alloc(), &mut files, PATH)?;
    assert_eq!(rt; whole.as_slice(), TEXT);
    assert_eq!(rt;
        files.read_at("pe_outside_test/none", 0, &mut into),
        Err(Failed)
    );
    assert_eq!(rt; files.read_at(FOLDER, 0, &mut into), Err(Failed));
    fs::remove_dir_all(&rt, FOLDER)?;
    Ok(())
}

#[test]
fn the_real_output_is_written(rt: HostRuntime) -> Result<(), Fail> {
    let mut sink = RealSink::new(&rt);
    let taken = sink.write(b"0123")?;
    assert_eq!(rt; taken, 4);
    write_all(&mut sink, b" written\n")?;
    Ok(())
}

// Two files of 200 bytes under one name, the first of 7s.
fn two_files(alloc: Global) -> Result<Items<(Name, Items<u8>)>, Fail> {
    let mut files = Items::new(alloc);
    for byte in [7, 8] {
        let bytes = Items::from_slice(alloc, &[byte; 200])?;
        files.push((Name::new(alloc, b"seven")?, bytes))?;
    }
    Ok(files)
}

#[test]
fn a_file_in_memory_is_read_in_pieces(rt: HostRuntime) -> Result<(), Fail> {
    let alloc = rt.alloc();
    let fails = Items::from_slice(alloc, &[7, 9])?;
    let mut files = MemFiles::new(two_files(alloc)?, 64, fails);
    let whole = read_whole(alloc, &mut files, "seven")?;
    assert_eq!(rt; whole.as_slice(), [7; 200].as_slice());
    assert!(rt;
        matches!(
            read_whole(alloc, &mut files, "six"),
            Err(WholeFault::Failed)
        )
    );
    assert!(rt;
        matches!(
            read_whole(alloc, &mut files, "seven"),
            Err(WholeFault::Failed)
        )
    );
    let mut into = [0; 100];
    assert_eq!(rt; files.read_at("seven", 100, &mut into), Ok(64));
    assert_eq!(rt; files.read_at("seven", 100, &mut into), Err(Failed));
    assert_eq!(rt; files.read_at("seven", 190, &mut into), Ok(10));
    Ok(())
}

#[test]
fn an_output_in_memory_takes_pieces(rt: HostRuntime) -> Result<(), Fail> {
    let alloc = rt.alloc();
    let mut sink = MemSink::new(alloc, 100, 3, Items::from_slice(alloc, &[4])?)?;
    assert_eq!(rt; write_all(&mut sink, TEXT), Err(Failed));
    assert_eq!(rt; sink.written(), b"a text of".as_slice());
    write_all(&mut sink, b" bytes")?;
    assert_eq!(rt; sink.written(), b"a text of bytes".as_slice());
    Ok(())
}

#[test]
fn an_output_in_memory_has_its_room(rt: HostRuntime) -> Result<(), Fail> {
    let alloc = rt.alloc();
    let mut sink = MemSink::new(alloc, 10, 4, Items::new(alloc))?;
    assert_eq!(rt; write_all(&mut sink, TEXT), Err(Failed));
    assert_eq!(rt; sink.written(), b"a text of ".as_slice());
    Ok(())
}
