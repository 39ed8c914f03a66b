//! Whether the clauses say what is meant: trees and places of faults that were found by hand.

use crate::boolean::read_boolean;
use crate::boolean_table::{
    BANG, CARET, CLOSE as SHUT, NAME as LETTER, ONE, OPEN as UP, PLUS, PRIME, STAR,
};
use crate::statement::{Setting, Statement, read_statement};
use crate::statement_table::{
    BEGIN, CLOSE, COMMA, DECLARE, ELSE, END, EQUALS, IF, NAME, NOTE, OPEN, SEMI, SIGNED, SIZE,
};
use pe_grammar::{Failure, Token};
use std::alloc::{AllocError, Global};
use std::test::Fail;

/// Tokens of the kinds, each at its own place.
fn tokens(alloc: Global, kinds: &[u16]) -> Result<Vec<Token>, AllocError> {
    let mut all = Vec::new(alloc);
    let mut place: u32 = 0;
    for kind in kinds {
        all.push(Token { kind: *kind, place })?;
        place = place.wrapping_add(1);
    }
    Ok(all)
}

#[test]
fn booleans_are_read(rt: HostRuntime) -> Result<(), Fail> {
    let cases: [&[u16]; 5] = [
        &[LETTER],
        &[BANG, LETTER, PLUS, UP, LETTER, ONE, PRIME, SHUT, PRIME],
        &[LETTER, LETTER, STAR, LETTER, CARET, ONE],
        &[BANG, BANG, UP, UP, LETTER, SHUT, SHUT],
        &[LETTER, PRIME, PRIME, UP, LETTER, SHUT],
    ];
    for kinds in cases {
        let text = tokens(rt.alloc(), kinds)?;
        assert!(rt;
            read_boolean(rt.alloc(), text.as_slice()).is_ok(),
            "{kinds:?}"
        );
    }
    Ok(())
}

#[test]
fn faults_of_booleans(rt: HostRuntime) -> Result<(), Fail> {
    let cases: [(&[u16], usize); 8] = [
        (&[], 0),
        (&[PLUS], 0),
        (&[LETTER, PLUS], 2),
        (&[LETTER, PLUS, PLUS, LETTER], 2),
        (&[UP, LETTER], 2),
        (&[UP, LETTER, SHUT, SHUT], 3),
        (&[BANG, PRIME], 1),
        (&[LETTER, CARET, STAR], 2),
    ];
    for (kinds, at) in cases {
        let text = tokens(rt.alloc(), kinds)?;
        assert_eq!(rt;
            read_boolean(rt.alloc(), text.as_slice()).err(),
            Some(Failure::Syntax(at)),
            "{kinds:?}"
        );
    }
    Ok(())
}

#[test]
fn a_block(rt: HostRuntime) -> Result<(), Fail> {
    let kinds = [
        BEGIN, SEMI, NAME, EQUALS, NAME, COMMA, NAME, COMMA, NAME, SEMI, BEGIN, END, END,
    ];
    let text = tokens(rt.alloc(), &kinds)?;
    let Ok(Statement::Block(all)) = read_statement(rt.alloc(), text.as_slice()) else {
        return Err("no block".into());
    };
    assert_eq!(rt; all.len(), 3);
    assert!(rt; matches!(&all.as_slice()[0], Statement::Nothing));
    let Statement::Assign(to, names) = &all.as_slice()[1] else {
        return Err("no assignment".into());
    };
    assert_eq!(rt; to.place, 2);
    assert_eq!(rt; names.len(), 3);
    for (name, place) in names.as_slice().iter().zip([4, 6, 8]) {
        assert_eq!(rt; *name, Token { kind: NAME, place });
    }
    assert!(rt; matches!(&all.as_slice()[2], Statement::Block(_)));
    Ok(())
}

#[test]
fn an_else_is_of_the_nearest_test(rt: HostRuntime) -> Result<(), Fail> {
    let kinds = [
        IF, OPEN, NAME, CLOSE, IF, OPEN, NAME, CLOSE, SEMI, ELSE, SEMI,
    ];
    let text = tokens(rt.alloc(), &kinds)?;
    let Ok(Statement::Test(name, then, other)) = read_statement(rt.alloc(), text.as_slice()) else {
        return Err("no test".into());
    };
    assert_eq!(rt; name.place, 2);
    assert!(rt; other.is_none());
    let Statement::Test(name, _, other) = then.get() else {
        return Err("no test in the test".into());
    };
    assert_eq!(rt; name.place, 6);
    assert!(rt; other.is_some());
    Ok(())
}

#[test]
fn a_declaration(rt: HostRuntime) -> Result<(), Fail> {
    let kinds = [
        DECLARE, NAME, NOTE, NAME, SIZE, NAME, NOTE, NAME, SIGNED, SEMI,
    ];
    let text = tokens(rt.alloc(), &kinds)?;
    let Ok(Statement::Declare(name, all)) = read_statement(rt.alloc(), text.as_slice()) else {
        return Err("no declaration".into());
    };
    assert_eq!(rt; name.place, 1);
    assert_eq!(rt; all.len(), 4);
    assert!(rt; matches!(all.as_slice()[0], Setting::Note(Token { place: 3, .. })));
    assert!(rt; matches!(all.as_slice()[1], Setting::Size(Token { place: 5, .. })));
    assert!(rt; matches!(all.as_slice()[2], Setting::Note(Token { place: 7, .. })));
    assert!(rt; matches!(all.as_slice()[3], Setting::Signed));
    Ok(())
}

#[test]
fn faults_of_statements(rt: HostRuntime) -> Result<(), Fail> {
    let cases: [(&[u16], usize); 20] = [
        (&[], 0),
        (&[END], 0),
        (&[SEMI, SEMI], 1),
        (&[BEGIN, SEMI], 2),
        (&[BEGIN, END, ELSE], 2),
        (&[BEGIN, ELSE], 1),
        (&[IF, OPEN, NAME, CLOSE], 4),
        (&[IF, OPEN, NAME, CLOSE, ELSE], 4),
        (&[IF, OPEN, NAME, CLOSE, SEMI, ELSE, SEMI, ELSE, SEMI], 7),
        (&[NAME, EQUALS, SEMI], 2),
        (&[NAME, EQUALS, NAME, COMMA, SEMI], 4),
        (&[NAME, EQUALS, NAME, NAME, SEMI], 3),
        (&[DECLARE, NAME, SIZE, NAME, SIZE, NAME, SEMI], 4),
        (&[DECLARE, NAME, SIGNED, NOTE, NAME, SIGNED, SEMI], 5),
        (&[DECLARE, NAME, SIZE], 3),
        (&[DECLARE, NAME, SIZE, SEMI], 3),
        (&[DECLARE, NAME, SEMI], 2),
        (&[DECLARE, NAME, SIGNED], 3),
        (&[DECLARE, NAME, SIGNED, NOTE, NAME, SEMI], 5),
        (&[DECLARE, NAME, NOTE, NAME, END], 4),
    ];
    for (kinds, at) in cases {
        let text = tokens(rt.alloc(), kinds)?;
        assert_eq!(rt;
            read_statement(rt.alloc(), text.as_slice()).err(),
            Some(Failure::Syntax(at)),
            "{kinds:?}"
        );
    }
    Ok(())
}

/// Nesting bounds the stack, and the length of a list does not.
#[test]
fn long_and_deep(rt: HostRuntime) -> Result<(), Fail> {
    let mut kinds = Vec::new(rt.alloc());
    for _ in 0..64 {
        kinds.push(BEGIN)?;
    }
    for _ in 0..100_000 {
        kinds.push(SEMI)?;
    }
    for _ in 0..64 {
        kinds.push(END)?;
    }
    let text = tokens(rt.alloc(), kinds.as_slice())?;
    assert!(rt; read_statement(rt.alloc(), text.as_slice()).is_ok());
    kinds.push(END)?;
    let text = tokens(rt.alloc(), kinds.as_slice())?;
    assert_eq!(rt;
        read_statement(rt.alloc(), text.as_slice()).err(),
        Some(Failure::Syntax(100_128))
    );
    Ok(())
}
