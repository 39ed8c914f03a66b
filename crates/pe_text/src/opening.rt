//! What starts at a place of a text, and the forms that several languages have.

ghost use Rattle.std.specs.Prelude.{◌≡◌};
ghost use Rattle.pe_text.specs.Start.{or_else, gap_to, quoted};
ghost use Rattle.pe_text.specs.Opening.{start_of};

use crate::run::Run;
use crate::token::Kind;

/// What starts at a place of a text, with the text behind it.
#[derive(Clone, Copy)]
pub enum Opening<'a> {
    /// What is passed over.
    Gap(&'a [u8]),
    Token(Kind, &'a [u8]),
    /// Neither, or a token that is not closed.
    Bad,
}

impl<'a> Opening<'a> {
    /// This, or where it is `Bad` the other.
    pub fn or_else(self, other: Opening<'a>) -> Opening<'a>
        ensures { start_of result ≡ or_else (start_of self.entry) (start_of other.entry) }
    {
        match self {
            Opening::Bad => other,
            _ => self,
        }
    }
}

/// What is passed over up to the first place where these two bytes stand, and with them.
pub fn gap_to(x: u8, y: u8, text: &[u8]) -> Opening<'_>
    ensures { start_of result ≡ gap_to x y text.now }
{
    let mut rest = text;
    while let [first, second, after @ ..] = rest {
        if *first == x && *second == y {
            return Opening::Gap(after);
        }
        rest = &rest[1..];
    }
    Opening::Bad
}

/// A quoted text, behind its first quote.
pub fn quoted(run: Run, text: &[u8]) -> Opening<'_>
    ensures { start_of result ≡ quoted run text.now }
{
    match run.behind(text) {
        [b'"', rest @ ..] => Opening::Token(Kind::Text, rest),
        _ => Opening::Bad,
    }
}
