//! What starts at a place of a text in UPF.

ghost use Rattle.std.specs.Prelude.{◌≡◌, ◌+◌, ◌^◌, ◌<◌};
ghost use Rattle.pe_text.specs.Upf.{open_braces, is_fresh, outside_start, inside_start, upf_start, upf_behind};
ghost use Rattle.pe_text.specs.Opening.{start_of};

use crate::bytes::{is_blank, is_continued};
use crate::mode::Mode;
use crate::opening::{Opening, quoted};
use crate::run::Run;
use crate::token::Kind;

/// How many braces are open.
pub fn open_braces(mode: Mode) -> u32
    ensures { result ≡ open_braces mode }
{
    match mode {
        Mode::Braces(count) => count,
        _ => 0,
    }
}

/// Whether a command could start.
fn is_fresh(mode: Mode) -> bool
    ensures { result ≡ is_fresh mode }
{
    match mode {
        Mode::Fresh => true,
        _ => false,
    }
}

/// What starts at a place where no brace is open.
fn outside_start(fresh: bool, first: u8, rest: &[u8]) -> Opening<'_>
    ensures { start_of result ≡ outside_start fresh first rest.now }
{
    if first == b'\n' || first == b';' {
        Opening::Token(Kind::End, rest)
    } else if first == b'[' {
        Opening::Token(Kind::Mark, rest)
    } else if fresh && first == b'#' {
        Opening::Gap(Run::Line.behind(rest))
    } else {
        Opening::Token(Kind::Word, Run::Command.behind(rest))
    }
}

/// What starts at a place inside braces.
fn inside_start(first: u8, rest: &[u8]) -> Opening<'_>
    ensures { start_of result ≡ inside_start first rest.now }
{
    if first == b'\n' {
        Opening::Gap(rest)
    } else {
        Opening::Token(Kind::Word, Run::Braced.behind(rest))
    }
}

/// What starts at a place.
pub fn upf_start(mode: Mode, text: &[u8]) -> Opening<'_>
    ensures { start_of result ≡ upf_start mode text.now }
{
    match text {
        [] => Opening::Bad,
        [first, rest @ ..] => {
            if is_blank(*first) {
                Opening::Gap(rest)
            } else if *first == b'{' || *first == b'}' || *first == b'$' {
                Opening::Token(Kind::Mark, rest)
            } else if *first == b'"' {
                quoted(Run::UpfText, rest)
            } else if is_continued(text) {
                Opening::Gap(&rest[1..])
            } else if 126 < *first {
                Opening::Bad
            } else if open_braces(mode) == 0 {
                outside_start(is_fresh(mode), *first, rest)
            } else {
                inside_start(*first, rest)
            }
        }
    }
}

/// What is kept behind a token of this kind and first byte.
pub fn upf_behind(mode: Mode, kind: Kind, first: u8) -> Mode
    requires { open_braces mode + 1 < 2 ^ 32 }
    ensures { result ≡ upf_behind mode kind first }
{
    let open = open_braces(mode);
    match kind {
        Kind::End => Mode::Fresh,
        _ => match first {
            b'{' => Mode::Braces(open + 1),
            b'}' => Mode::Braces(open.saturating_sub(1)),
            _ => Mode::Braces(open),
        },
    }
}
