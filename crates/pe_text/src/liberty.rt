//! What starts at a place of a text in Liberty.

ghost use Rattle.std.specs.Prelude.{◌≡◌};
ghost use Rattle.pe_text.specs.Liberty.{has_values, liberty_start, value_behind, liberty_behind};
ghost use Rattle.pe_text.specs.Opening.{start_of};

use crate::bytes::{has_two, is_continued, is_liberty_mark, is_white};
use crate::mode::Mode;
use crate::opening::{Opening, gap_to, quoted};
use crate::run::Run;
use crate::token::Kind;

/// Whether the line's end ends a list of values.
fn has_values(mode: Mode) -> bool
    ensures { result ≡ has_values mode }
{
    match mode {
        Mode::Values => true,
        _ => false,
    }
}

/// What starts at a place.
pub fn liberty_start(mode: Mode, text: &[u8]) -> Opening<'_>
    ensures { start_of result ≡ liberty_start mode text.now }
{
    match text {
        [] => Opening::Bad,
        [first, rest @ ..] => {
            if *first == b'\n' && has_values(mode) {
                Opening::Token(Kind::End, rest)
            } else if is_white(*first) {
                Opening::Gap(rest)
            } else if is_liberty_mark(*first) {
                Opening::Token(Kind::Mark, rest)
            } else if *first == b'"' {
                quoted(Run::LibertyText, rest)
            } else if is_continued(text) {
                Opening::Gap(&rest[1..])
            } else if has_two(b'/', b'*', text) {
                gap_to(b'*', b'/', &rest[1..])
            } else {
                Opening::Token(Kind::Word, Run::Value.behind(rest))
            }
        }
    }
}

/// What is kept behind a value.
fn value_behind(mode: Mode) -> Mode
    ensures { result ≡ value_behind mode }
{
    match mode {
        Mode::Colon => Mode::Values,
        _ => mode,
    }
}

/// What is kept behind a token of this kind and first byte.
pub fn liberty_behind(mode: Mode, kind: Kind, first: u8) -> Mode
    ensures { result ≡ liberty_behind mode kind first }
{
    match kind {
        Kind::End => Mode::Fresh,
        Kind::Mark => match first {
            b':' => Mode::Colon,
            b',' => mode,
            _ => Mode::Fresh,
        },
        _ => value_behind(mode),
    }
}
