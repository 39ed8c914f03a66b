//! What starts at a place of a map file.

ghost use Rattle.std.specs.Prelude.{◌≡◌};
ghost use Rattle.pe_text.specs.MapFile.{map_start};
ghost use Rattle.pe_text.specs.Opening.{start_of};

use crate::bytes::is_blank;
use crate::opening::Opening;
use crate::run::Run;
use crate::token::Kind;

/// What starts at a place.
pub fn map_start(text: &[u8]) -> Opening<'_>
    ensures { start_of result ≡ map_start text.now }
{
    match text {
        [] => Opening::Bad,
        [first, rest @ ..] => {
            if is_blank(*first) {
                Opening::Gap(rest)
            } else if *first == b'\n' {
                Opening::Token(Kind::End, rest)
            } else if *first == b'#' {
                Opening::Gap(Run::Line.behind(rest))
            } else {
                Opening::Token(Kind::Word, Run::Entry.behind(rest))
            }
        }
    }
}
