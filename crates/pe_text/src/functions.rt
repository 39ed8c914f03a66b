//! What starts at a place of a boolean function.

ghost use Rattle.std.specs.Prelude.{◌≡◌, codes};
ghost use Rattle.pe_text.specs.Bytes.{is_one_of};
ghost use Rattle.pe_text.specs.Functions.{is_space, behind_index, behind_input, liberty_function_start, behind_one, behind_twice, upf_function_start};
ghost use Rattle.pe_text.specs.Opening.{start_of};

use crate::bytes::{begins_name, has_first, is_digit};
use crate::opening::Opening;
use crate::run::Run;
use crate::token::Kind;

/// Space, tab and LF.
fn is_space(byte: u8) -> bool
    ensures { result ≡ is_space byte }
{
    byte == b' ' || byte == b'\t' || byte == b'\n'
}

/// What stands behind the index, if there is one.
fn behind_index(text: &[u8]) -> &[u8]
    ensures { result.now ≡ behind_index text.now }
{
    match text {
        [b'[', first, after @ ..] => {
            if is_digit(*first) {
                match Run::Index.behind(after) {
                    [b']', rest @ ..] => rest,
                    _ => text,
                }
            } else {
                text
            }
        }
        _ => text,
    }
}

/// What stands behind the name whose first byte stands before.
pub(crate) fn behind_input(text: &[u8]) -> &[u8]
    ensures { result.now ≡ behind_input text.now }
{
    behind_index(Run::Input.behind(text))
}

/// A mark in the style of Liberty.
fn is_liberty_mark(byte: u8) -> bool
    ensures { result ≡ is_one_of (codes "+|*&^!'()") byte }
{
    byte == b'+'
        || byte == b'|'
        || byte == b'*'
        || byte == b'&'
        || byte == b'^'
        || byte == b'!'
        || byte == b'\''
        || byte == b'('
        || byte == b')'
}

/// What starts at a place of a function in the style of Liberty.
pub fn liberty_function_start(text: &[u8]) -> Opening<'_>
    ensures { start_of result ≡ liberty_function_start text.now }
{
    match text {
        [] => Opening::Bad,
        [first, rest @ ..] => {
            if is_space(*first) {
                Opening::Gap(rest)
            } else if begins_name(*first) {
                Opening::Token(Kind::Word, behind_input(rest))
            } else if *first == b'0' || *first == b'1' {
                Opening::Token(Kind::Number, rest)
            } else if is_liberty_mark(*first) {
                Opening::Token(Kind::Mark, rest)
            } else {
                Opening::Bad
            }
        }
    }
}

/// What stands behind a 1: `'b0` or `'b1` goes on the number.
pub(crate) fn behind_one(text: &[u8]) -> &[u8]
    ensures { result.now ≡ behind_one text.now }
{
    match text {
        [b'\'', b'b', b'0' | b'1', rest @ ..] => rest,
        _ => text,
    }
}

/// What stands behind a byte that is a mark, or is one twice.
fn behind_twice(byte: u8, text: &[u8]) -> &[u8]
    ensures { result.now ≡ behind_twice byte text.now }
{
    if has_first(byte, text) {
        &text[1..]
    } else {
        text
    }
}

/// What starts at a place of a function in the style of UPF.
pub fn upf_function_start(text: &[u8]) -> Opening<'_>
    ensures { start_of result ≡ upf_function_start text.now }
{
    match text {
        [] => Opening::Bad,
        [first, rest @ ..] => {
            if is_space(*first) {
                Opening::Gap(rest)
            } else if begins_name(*first) {
                Opening::Token(Kind::Word, behind_input(rest))
            } else if *first == b'0' {
                Opening::Token(Kind::Number, rest)
            } else if *first == b'1' {
                Opening::Token(Kind::Number, behind_one(rest))
            } else if is_single(*first) {
                Opening::Token(Kind::Mark, rest)
            } else if *first == b'&' || *first == b'|' {
                Opening::Token(Kind::Mark, behind_twice(*first, rest))
            } else {
                Opening::Bad
            }
        }
    }
}

/// A mark in the style of UPF that has no longer one.
fn is_single(byte: u8) -> bool
    ensures { result ≡ is_one_of (codes "!~^()") byte }
{
    byte == b'!' || byte == b'~' || byte == b'^' || byte == b'(' || byte == b')'
}
