//! Where the tokens and terminals of a text start.

ghost use Rattle.std.specs.Prelude.{◌≡◌, ◌≤◌, length};
ghost use Rattle.pe_reader.specs.Places.{byte_of, start_of};

use pe_grammar::Token as Terminal;
use pe_text::Token;

/// The byte at which the token of this number starts, from 0, or where the text ends if there is no such token.
pub fn start_of(text: &[u8], tokens: &[Token], number: usize) -> u32
    requires { length text.now ≤ 16777216 }
    ensures { result ≡ start_of text.now tokens.now number }
{
    match tokens.get(number) {
        Some(token) => token.span.from,
        None => text.len() as u32,
    }
}

/// The byte at which the terminal of this number starts, or where the text ends if there is no such terminal or it has no
/// token. A terminal's `place` is the number of its token.
pub fn byte_of(text: &[u8], tokens: &[Token], terminals: &[Terminal], number: usize) -> u32
    requires { length text.now ≤ 16777216 }
    ensures { result ≡ byte_of text.now tokens.now terminals.now number }
{
    match terminals.get(number) {
        Some(terminal) => start_of(text, tokens, terminal.place as usize),
        None => text.len() as u32,
    }
}
