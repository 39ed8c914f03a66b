//! Numbers of Verilog that have too many bits.

ghost use Rattle.std.specs.Prelude.{◌≡◌, ◌<◌, ℕ, length};
ghost use Rattle.std.specs.List.{All};
ghost use Rattle.pe_text.specs.Lexemes.{IsPartOf, lexemes_of};
ghost use Rattle.pe_text.specs.Width.{grown_of, is_size_over, first_too_wide, Stands};

use crate::token::{Kind, Token, bytes_of};

/// How many bits a number may have.
const MOST_BITS: u32 = 128;

/// The size with one more digit, if it is one. A size that is over the limit stays so, whatever digits come.
fn grown(size: u32, byte: u8) -> u32
    requires { size < 2000 }
    ensures small { result < 2000 }
    ensures stands { (n : ℕ) → Stands n size → Stands (grown_of n byte) result }
{
    if byte != b'_' && size <= MOST_BITS {
        10 * size + u32::from(byte.saturating_sub(b'0'))
    } else {
        size
    }
}

/// Whether the size of a number, which stands before its quote, is over the limit.
fn is_size_over(number: &[u8]) -> bool
    ensures { result ≡ is_size_over 0 number.now }
{
    let mut size = 0u32;
    for byte in number {
        if *byte == b'\'' {
            return size > MOST_BITS;
        }
        size = grown(size, *byte);
    }
    false
}

/// Which token is the first number that has too many bits, or how many tokens there are where none is.
pub fn first_too_wide(text: &[u8], tokens: &[Token]) -> usize
    requires parts { All (IsPartOf (length text.now)) tokens.now }
    ensures { result ≡ first_too_wide (lexemes_of text.now tokens.now) }
{
    for (i, token) in tokens.iter().enumerate() {
        if token.kind == Kind::Number && is_size_over(bytes_of(text, *token)) {
            return i;
        }
    }
    tokens.len()
}
