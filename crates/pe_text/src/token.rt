//! Tokens: parts of a text with their kinds.

ghost use Rattle.std.specs.Prelude.{◌≡◌, length};
ghost use Rattle.std.specs.List.{slice_range};
ghost use Rattle.pe_text.specs.Lexemes.{IsPartOf};

use pe_base::Span;

/// What a token is.
#[derive(Clone, Copy, Debug, PartialEq, Eq)]
pub enum Kind {
    /// A name, a keyword, a word of a command or of a list.
    Word,
    /// An escaped name of Verilog, with its `\`.
    Escaped,
    /// A number.
    Number,
    /// A text in quotes, with both of them.
    Text,
    /// An operator or a bracket, and a directive of Verilog that is not skipped.
    Mark,
    /// The end of a line or of a command, where the language has such a token.
    End,
}

/// A token: its kind, and which bytes of the text it is. A span counts bytes from 0 and is without its end.
#[derive(Clone, Copy, Debug, PartialEq, Eq)]
pub struct Token {
    pub kind: Kind,
    pub span: Span,
}

/// The bytes of a token.
pub(crate) fn bytes_of(text: &[u8], token: Token) -> &[u8]
    requires { IsPartOf (length text.now) token }
    ensures { result.now ≡ slice_range text.now token.span.from token.span.to }
{
    &text[token.span.from as usize..token.span.to as usize]
}
