//! Words, numbers and marks of Verilog that no text which is accepted has.

ghost use Rattle.std.specs.Prelude.{◌≡◌};
ghost use Rattle.pe_text.specs.VerilogLeftOut.{is_word_left_out, is_signed, is_mark_left_out, is_kind_left_out, behind_verilog};
ghost use Rattle.pe_text.specs.Bytes.{has_first};

use crate::among::is_among;
use crate::token::Kind;

static WORDS: [&[u8]; 46] = [
    b"signed",
    b"integer",
    b"real",
    b"time",
    b"genvar",
    b"generate",
    b"initial",
    b"task",
    b"function",
    b"for",
    b"while",
    b"repeat",
    b"forever",
    b"casex",
    b"tri",
    b"triand",
    b"trior",
    b"tri0",
    b"tri1",
    b"trireg",
    b"wand",
    b"wor",
    b"supply0",
    b"supply1",
    b"defparam",
    b"specify",
    b"primitive",
    b"force",
    b"release",
    b"deassign",
    b"fork",
    b"join",
    b"wait",
    b"disable",
    b"event",
    b"and",
    b"nand",
    b"nor",
    b"xor",
    b"xnor",
    b"not",
    b"buf",
    b"bufif0",
    b"bufif1",
    b"notif0",
    b"notif1",
];

static RTL_WORDS: [&[u8]; 1] = [b"inout"];

static NETLIST_WORDS: [&[u8]; 9] = [
    b"always",
    b"reg",
    b"parameter",
    b"localparam",
    b"posedge",
    b"negedge",
    b"if",
    b"case",
    b"casez",
];

static MARKS: [&[u8]; 9] = [
    b"/", b"%", b"**", b"===", b"!==", b"<<<", b">>>", b"+:", b"-:",
];

/// What stands before a token, as far as the meaning of `*` hangs on it.
#[derive(Clone, Copy, Debug, PartialEq, Eq)]
pub enum Before {
    Other,
    /// `@`
    At,
    /// `@ (`
    AtOpen,
}

impl Before {
    /// What stands before the next token.
    pub(crate) fn behind(self, kind: Kind, bytes: &[u8]) -> Before
        ensures { result ≡ behind_verilog self kind bytes.now }
    {
        if bytes == b"@".as_slice() {
            Before::At
        } else if self == Before::At && bytes == b"(".as_slice() {
            Before::AtOpen
        } else {
            Before::Other
        }
    }
}

fn is_word_left_out(netlist: bool, word: &[u8]) -> bool
    ensures { result ≡ is_word_left_out netlist word.now }
{
    is_among(&WORDS, word)
        || if netlist {
            is_among(&NETLIST_WORDS, word)
        } else {
            is_among(&RTL_WORDS, word)
        }
}

fn is_signed(number: &[u8]) -> bool
    ensures { result ≡ is_signed number.now }
{
    for (i, byte) in number.iter().enumerate() {
        if *byte == b'\'' {
            let rest = &number[i + 1..];
            return has_first(b's', rest) || has_first(b'S', rest);
        }
    }
    false
}

/// Whether the mark is left out.
fn is_mark_left_out(before: Before, mark: &[u8]) -> bool
    ensures { result ≡ is_mark_left_out before mark.now }
{
    has_first(b'`', mark)
        || is_among(&MARKS, mark)
        || (mark == b"*".as_slice() && before == Before::Other)
}

/// Whether the bytes begin with this one.
fn has_first(byte: u8, bytes: &[u8]) -> bool
    ensures { result ≡ has_first byte bytes.now }
{
    match bytes {
        [] => false,
        [first, ..] => *first == byte,
    }
}

/// Whether a token is left out, with what stands before it.
pub(crate) fn is_left_out(netlist: bool, before: Before, kind: Kind, bytes: &[u8]) -> bool
    ensures { result ≡ is_kind_left_out netlist before kind bytes.now }
{
    match kind {
        Kind::Word => is_word_left_out(netlist, bytes),
        Kind::Number => is_signed(bytes),
        Kind::Mark => is_mark_left_out(before, bytes),
        Kind::Escaped | Kind::Text | Kind::End => false,
    }
}
