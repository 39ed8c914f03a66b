//! The words and places of tokens.

use crate::{byte_of, name, word};
use pe_grammar::Token as Terminal;
use pe_text::{Lang, scan};
use std::test::Fail;

#[test]
fn words_and_places(rt: HostRuntime) -> Result<(), Fail> {
    let text = b"a (\"b c\", \"\") {}";
    let tokens = scan(rt.alloc(), Lang::Liberty, text)?;
    let tokens = tokens.as_slice();
    assert_eq!(rt; word(text, tokens, 0), b"a".as_slice());
    assert_eq!(rt; word(text, tokens, 2), b"b c".as_slice());
    assert_eq!(rt; word(text, tokens, 4), b"".as_slice());
    assert_eq!(rt;
        name(rt.alloc(), text, tokens, 2)?.bytes(),
        b"b c".as_slice()
    );
    let terminals = [
        Terminal { kind: 0, place: 2 },
        Terminal { kind: 0, place: 8 },
    ];
    assert_eq!(rt; byte_of(text, tokens, &terminals, 0), 3);
    assert_eq!(rt; byte_of(text, tokens, &terminals, 1), 16);
    assert_eq!(rt; byte_of(text, tokens, &terminals, 2), 16);
    Ok(())
}

#[test]
fn an_escaped_name(rt: HostRuntime) -> Result<(), Fail> {
    let text = b"\\a[0] b";
    let tokens = scan(rt.alloc(), Lang::Netlist, text)?;
    assert_eq!(rt; word(text, tokens.as_slice(), 0), b"a[0]".as_slice());
    assert_eq!(rt; word(text, tokens.as_slice(), 1), b"b".as_slice());
    Ok(())
}
