//! Runs of bytes: which bytes go on what has begun.

ghost use Rattle.std.specs.Prelude.{◌≡◌, ◌∷◌, ◌≤◌, length};
ghost use Rattle.pe_text.specs.Bytes.{is_digit_of, begins, goes_on, behind};

use crate::bytes::{
    begins_name, has_first, is_blank, is_braced, is_command, is_digit, is_graphic, is_unknown,
    is_value,
};

/// The base of a number's digits.
#[derive(Clone, Copy, Debug, PartialEq, Eq)]
pub enum Base {
    Binary,
    Octal,
    Decimal,
    Hexadecimal,
}

/// What is made of a run of bytes, as long as it can be.
#[derive(Clone, Copy, Debug, PartialEq, Eq)]
pub enum Run {
    /// The rest of a line.
    Line,
    /// A name of Verilog.
    Name,
    /// An escaped name of Verilog.
    Escaped,
    /// Digits of a number of Verilog, with single `_` between them.
    Digits(Base),
    /// A word of UPF outside braces.
    Command,
    /// A word of UPF inside braces.
    Braced,
    /// A quoted text of UPF.
    UpfText,
    /// A word of Liberty.
    Value,
    /// A quoted text of Liberty.
    LibertyText,
    /// A word of the map file.
    Entry,
    /// A name of a boolean function.
    Input,
    /// The number of an index of one.
    Index,
}

impl Base {
    /// Whether the byte is a digit of the base.
    pub fn has_digit(self, byte: u8) -> bool
        ensures { result ≡ is_digit_of self byte }
    {
        match self {
            Base::Binary => byte == b'0' || byte == b'1' || is_unknown(byte),
            Base::Octal => (b'0' <= byte && byte <= b'7') || is_unknown(byte),
            Base::Decimal => is_digit(byte),
            Base::Hexadecimal => {
                is_digit(byte)
                    || (b'A' <= byte && byte <= b'F')
                    || (b'a' <= byte && byte <= b'f')
                    || is_unknown(byte)
            }
        }
    }

    /// Whether the text begins with a digit of the base.
    pub fn begins(self, text: &[u8]) -> bool
        ensures { result ≡ begins (is_digit_of self) text.now }
    {
        match text {
            [] => false,
            [first, ..] => self.has_digit(*first),
        }
    }
}

impl Run {
    /// Whether the run goes on with this byte, before this text.
    fn goes_on(self, first: u8, rest: &[u8]) -> bool
        ensures { result ≡ goes_on self (first ∷ rest.now) }
    {
        match self {
            Run::Line => first != b'\n',
            Run::Name => begins_name(first) || is_digit(first) || first == b'$',
            Run::Escaped => is_graphic(first),
            Run::Digits(base) => base.has_digit(first) || (first == b'_' && base.begins(rest)),
            Run::Command => is_command(first) && !(first == b'\\' && has_first(b'\n', rest)),
            Run::Braced => is_braced(first) && !(first == b'\\' && has_first(b'\n', rest)),
            Run::UpfText => first <= 126 && first != b'"',
            Run::Value => {
                is_value(first)
                    && !((first == b'/' && has_first(b'*', rest))
                        || (first == b'\\' && has_first(b'\n', rest)))
            }
            Run::LibertyText => first != b'"',
            Run::Entry => !(is_blank(first) || first == b'\n' || first == b'#'),
            Run::Input => begins_name(first) || is_digit(first),
            Run::Index => is_digit(first),
        }
    }

    /// What stands behind the run.
    pub fn behind(self, text: &[u8]) -> &[u8]
        ensures rest { result.now ≡ behind self text.now }
        ensures within { length result.now ≤ length text.now }
    {
        let mut rest = text;
        while let [first, after @ ..] = rest {
            if !self.goes_on(*first, after) {
                return rest;
            }
            rest = after;
        }
        rest
    }
}
