//! Faults of files and of the output, and words that are not of the rule.

use crate::running::{FILES, LIB, MISMATCH, NAMES, OR, RTL, UPF, WORDS, files_of, run_on, strings};
use pe_outside::MemSink;
use pe_tool::run_alone;
use sqlite_items::Items;
use std::test::Fail;

const USAGE: &str = "usage: powereq check RTL UPF LIB NET MAP\n";

#[test]
fn tells_the_usage(rt: HostRuntime) -> Result<(), Fail> {
    let others: [&[&str]; 7] = [
        &[],
        &["gen"],
        &["check"],
        &["check", "a", "b", "c", "d"],
        &["check", "a", "b", "c", "d", "e", "f"],
        &["check", "a", "b", "c", "d", "--x"],
        &[
            "gen",
            "rtl.v",
            "power.upf",
            "cells.lib",
            "net.v",
            "pairs.map",
        ],
    ];
    for (i, words) in others.iter().enumerate() {
        let (status, out) = run_on(rt.alloc(), words, &FILES, &[])?;
        assert_eq!(rt; status, 6, "at {i}");
        assert_eq!(rt; out.written(), USAGE.as_bytes(), "at {i}");
    }
    Ok(())
}

#[test]
fn names_what_is_not_read(rt: HostRuntime) -> Result<(), Fail> {
    // Two reads of each text, of which the second finds the end; one of the empty text.
    let names = [
        "rtl.v",
        "rtl.v",
        "power.upf",
        "power.upf",
        "cells.lib",
        "cells.lib",
        "net.v",
        "net.v",
        "pairs.map",
    ];
    for (name, read) in names.iter().zip(1..) {
        let (status, out) = run_on(rt.alloc(), &WORDS, &FILES, &[read])?;
        let line = format!(in rt.alloc(); "read fault: {name}\n")?;
        assert_eq!(rt; status, 4, "at {read}");
        assert_eq!(rt; out.written(), line.as_bytes(), "at {read}");
    }
    // The files from a place on are absent: the first of them is named.
    for i in 0..5 {
        let (status, out) = run_on(rt.alloc(), &WORDS, &FILES[..i], &[])?;
        let line = format!(in rt.alloc(); "read fault: {}\n", NAMES[i])?;
        assert_eq!(rt; status, 4, "at {i}");
        assert_eq!(rt; out.written(), line.as_bytes(), "at {i}");
    }
    // One file is absent, and a hyphen alone is its name.
    for i in 1..6 {
        let mut words = WORDS;
        words[i] = "-";
        let (status, out) = run_on(rt.alloc(), &words, &FILES, &[])?;
        assert_eq!(rt; status, 4, "at {i}");
        assert_eq!(rt; out.written(), b"read fault: -\n".as_slice(), "at {i}");
    }
    Ok(())
}

#[test]
fn writes_in_pieces(rt: HostRuntime) -> Result<(), Fail> {
    let alloc = rt.alloc();
    let words = strings(alloc, &WORDS)?;
    let mut files = files_of(alloc, &FILES, 65_536, &[])?;
    let mut out = MemSink::new(alloc, 256, 3, Items::from_slice(alloc, &[4])?)?;
    assert_eq!(rt; run_alone(alloc, words.as_slice(), &mut files, &mut out), 5);
    assert_eq!(rt; out.written(), b"powereq: ".as_slice());
    Ok(())
}

#[test]
fn names_the_file_of_each_failed_read(rt: HostRuntime) -> Result<(), Fail> {
    let alloc = rt.alloc();
    // In pieces of 64 bytes a text of 67 bytes takes two reads, and a third finds the end. The texts have 67, 498, 1,
    // 124 and 0 bytes.
    let texts = [RTL, UPF, "?", FILES[3], ""];
    let reads = [
        ("rtl.v", 1..4),
        ("power.upf", 4..13),
        ("cells.lib", 13..15),
        ("net.v", 15..18),
        ("pairs.map", 18..19),
    ];
    for (name, numbers) in reads {
        for number in numbers {
            let words = strings(alloc, &WORDS)?;
            let mut files = files_of(alloc, &texts, 64, &[number])?;
            let mut out = MemSink::new(alloc, 256, 256, Items::new(alloc))?;
            assert_eq!(rt;
                run_alone(alloc, words.as_slice(), &mut files, &mut out),
                4,
                "at {number}"
            );
            let line = format!(in alloc; "read fault: {name}\n")?;
            assert_eq!(rt; out.written(), line.as_bytes(), "at {number}");
        }
    }
    Ok(())
}

#[test]
fn writes_the_front_of_a_report(rt: HostRuntime) -> Result<(), Fail> {
    let alloc = rt.alloc();
    // The report has 259 bytes: sixteen pieces of 16 bytes, and one of three.
    let fronts = [
        0, 16, 32, 48, 64, 80, 96, 112, 128, 144, 160, 176, 192, 208, 224, 240, 256,
    ];
    for (number, front) in (1..18).zip(fronts) {
        let words = strings(alloc, &WORDS)?;
        let mut files = files_of(alloc, &[RTL, UPF, LIB, OR, ""], 65_536, &[])?;
        let mut out = MemSink::new(alloc, 512, 16, Items::from_slice(alloc, &[number])?)?;
        assert_eq!(rt;
            run_alone(alloc, words.as_slice(), &mut files, &mut out),
            5,
            "at {number}"
        );
        assert_eq!(rt;
            Some(out.written()),
            MISMATCH.as_bytes().get(..front),
            "at {number}"
        );
    }
    Ok(())
}
