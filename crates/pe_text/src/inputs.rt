//! Expressions of switches in UPF that have too many names.

ghost use Rattle.std.specs.Prelude.{◌≡◌, ◌+◌, ◌≤◌, ◌<◌, ◌^◌, [], nat_lt, length, option_map, IfOk};
ghost use Rattle.std.specs.List.{All, cons_option};
ghost use Rattle.pe_text.specs.Lexemes.{IsPartOf, lexemes_of};
ghost use Rattle.pe_text.specs.Inputs.{next_name, behind_next, names_of, Added, most_inputs, input_count, closes_last, braces_behind, opens_expression, first_too_many};

use crate::bytes::begins_name;
use crate::command::{Command, Form};
use crate::functions::{behind_input, behind_one};
use crate::token::{Token, bytes_of};
use pe_base::{NameSet, Want};
use std::alloc::Global;

/// How many different names an expression may have.
const MOST_INPUTS: usize = 10;

/// The name that the bytes begin with, if they do.
fn next_name(bytes: &[u8]) -> Option<&[u8]>
    ensures { option_map (λ name. name.now) result ≡ next_name bytes.now }
{
    match bytes {
        [first, rest @ ..] if begins_name(*first) => {
            let count = bytes.len().saturating_sub(behind_input(rest).len());
            Some(&bytes[..count])
        }
        _ => None,
    }
}

/// What stands behind that name, behind a number, or behind the first byte.
fn behind_next(bytes: &[u8]) -> &[u8]
    ensures { result.now ≡ behind_next bytes.now }
{
    match bytes {
        [] => bytes,
        [first, rest @ ..] => {
            if begins_name(*first) {
                behind_input(rest)
            } else if *first == b'1' {
                behind_one(rest)
            } else {
                rest
            }
        }
    }
}

/// Adds a name, if there is one, and says how many are new.
fn add_name<'a>(names: &mut NameSet<'a>, name: Option<&'a [u8]>) -> Result<usize, Want>
    ensures added { IfOk result (λ count. Added names.old names.new count (cons_option (option_map (λ name. name.now) name.entry) [])) }
    ensures few { IfOk result (λ count. count ≤ 1) }
{
    match name {
        None => Ok(0),
        Some(name) => { if names.insert(name)? { Ok(1) } else { Ok(0) } }
    }
}

/// Adds the names in some bytes, and says how many are new.
fn add_names<'a>(names: &mut NameSet<'a>, bytes: &'a [u8]) -> Result<usize, Want>
    ensures added { IfOk result (λ count. Added names.old names.new count (names_of bytes.now)) }
    ensures few { IfOk result (λ count. count ≤ length bytes.now) }
{
    let mut count = 0;
    let mut rest = bytes;
    let mut steps = bytes.len();
    while steps != 0 {
        steps -= 1;
        count += add_name(names, next_name(rest))?;
        rest = behind_next(rest);
    }
    Ok(count)
}

/// Whether more different names than an expression may have stand in the tokens before the closing brace.
fn has_too_many(alloc: Global, text: &[u8], tokens: &[Token]) -> Result<bool, Want>
    requires parts { All (IsPartOf (length text.now)) tokens.now }
    ensures { IfOk result (λ many. many ≡ nat_lt most_inputs (input_count (lexemes_of text.now tokens.now))) }
{
    let mut names = NameSet::new(alloc);
    let mut count = 0;
    let mut braces = 0usize;
    for token in tokens {
        let bytes = bytes_of(text, *token);
        if closes_last(braces, bytes) {
            return Ok(false);
        }
        braces = braces_behind(braces, bytes);
        count += add_names(&mut names, bytes)?;
        if count > MOST_INPUTS {
            return Ok(true);
        }
    }
    Ok(false)
}

/// Whether a token closes the last brace.
fn closes_last(braces: usize, bytes: &[u8]) -> bool
    ensures { result ≡ closes_last braces bytes.now }
{
    bytes == b"}".as_slice() && braces == 0
}

/// How many braces are open behind a token that does not close the last.
fn braces_behind(braces: usize, bytes: &[u8]) -> usize
    requires { braces + 1 < 2 ^ 64 }
    ensures { result ≡ braces_behind braces bytes.now }
{
    if bytes == b"{".as_slice() {
        braces + 1
    } else if bytes == b"}".as_slice() {
        braces.saturating_sub(1)
    } else {
        braces
    }
}

/// Whether the braces of an expression of a switch open here.
fn opens_expression(command: Command, bytes: &[u8]) -> bool
    ensures { result ≡ opens_expression command bytes.now }
{
    command.form == Form::Switch
        && command.is_state
        && command.braces == 1
        && bytes == b"{".as_slice()
}

/// Which token is the first that opens an expression with too many names, or how many tokens there are where none does.
pub fn first_too_many(alloc: Global, text: &[u8], tokens: &[Token]) -> Result<usize, Want>
    requires parts { All (IsPartOf (length text.now)) tokens.now }
    ensures { IfOk result (λ i. i ≡ first_too_many (lexemes_of text.now tokens.now)) }
{
    let mut command = Command::none();
    for (i, token) in tokens.iter().enumerate() {
        let bytes = bytes_of(text, *token);
        if opens_expression(command, bytes) && has_too_many(alloc, text, &tokens[i + 1..])? {
            return Ok(i);
        }
        command = command.behind(token.kind, bytes);
    }
    Ok(tokens.len())
}
