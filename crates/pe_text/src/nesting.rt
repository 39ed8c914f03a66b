//! How many things are open at a token of a text.

ghost use Rattle.std.specs.Prelude.{◌≡◌, ◌+◌, ◌<◌, ◌≤◌, ◌^◌, length};
ghost use Rattle.std.specs.List.{All};
ghost use Rattle.pe_text.specs.Lexemes.{IsPartOf, lexemes_of};
ghost use Rattle.pe_text.specs.Nesting.{counted, none_open, is_pending, pending_behind, run_behind, behind_verilog, behind_liberty, behind_upf, behind_bytes, first_too_deep};

use crate::among::is_among;
use crate::language::Lang;
use crate::token::{Token, bytes_of};

/// How many things may be open at once.
const MOST_OPEN: u32 = 64;

static OPENERS: [&[u8]; 6] = [b"(", b"[", b"{", b"begin", b"case", b"casez"];

static CLOSERS: [&[u8]; 5] = [b")", b"]", b"}", b"end", b"endcase"];

static ENDERS: [&[u8]; 4] = [b";", b"begin", b"end", b"endcase"];

static OPERATORS: [&[u8]; 21] = [
    b"!", b"~", b"&", b"~&", b"|", b"~|", b"^", b"~^", b"^~", b"+", b"-", b"<<", b">>", b"<",
    b"<=", b">", b">=", b"==", b"!=", b"&&", b"||",
];

/// What is open behind the tokens before a place.
#[derive(Clone, Copy, Debug, PartialEq, Eq)]
pub struct Nest {
    /// Brackets and the like.
    pub opened: u32,
    /// `?` and `if` of Verilog, since the last statement or block ended.
    pub pending: u32,
    /// Operators of Verilog, one right behind the other.
    pub run: u32,
    /// `else` of Verilog stands right before.
    pub is_else: bool,
}

fn counted(more: bool, less: bool, n: u32) -> u32
    requires { n + 1 < 2 ^ 32 }
    ensures { result ≡ counted more less n }
{
    if more {
        n + 1
    } else if less {
        n.saturating_sub(1)
    } else {
        n
    }
}

impl Nest {
    fn none() -> Nest
        ensures { result ≡ none_open }
    {
        Nest {
            opened: 0,
            pending: 0,
            run: 0,
            is_else: false,
        }
    }

    fn is_pending(self, bytes: &[u8]) -> bool
        ensures { result ≡ is_pending self bytes.now }
    {
        bytes == b"?".as_slice() || (bytes == b"if".as_slice() && !self.is_else)
    }

    fn pending_behind(self, bytes: &[u8]) -> u32
        requires { self.pending + 1 < 2 ^ 32 }
        ensures { result ≡ pending_behind self bytes.now }
    {
        if is_among(&ENDERS, bytes) {
            0
        } else if self.is_pending(bytes) {
            self.pending + 1
        } else {
            self.pending
        }
    }

    fn run_behind(self, bytes: &[u8]) -> u32
        requires { self.run + 1 < 2 ^ 32 }
        ensures { result ≡ run_behind self bytes.now }
    {
        if is_among(&OPERATORS, bytes) {
            self.run + 1
        } else {
            0
        }
    }

    fn behind_verilog(self, bytes: &[u8]) -> Nest
        requires opened { self.opened + 1 < 2 ^ 32 }
        requires pending { self.pending + 1 < 2 ^ 32 }
        requires run { self.run + 1 < 2 ^ 32 }
        ensures { result ≡ behind_verilog self bytes.now }
    {
        Nest {
            opened: counted(
                is_among(&OPENERS, bytes),
                is_among(&CLOSERS, bytes),
                self.opened,
            ),
            pending: self.pending_behind(bytes),
            run: self.run_behind(bytes),
            is_else: bytes == b"else".as_slice(),
        }
    }

    fn behind_liberty(self, bytes: &[u8]) -> Nest
        requires opened { self.opened + 1 < 2 ^ 32 }
        ensures { result ≡ behind_liberty self bytes.now }
    {
        let opens = bytes == b"(".as_slice() || bytes == b"{".as_slice();
        let closes = bytes == b")".as_slice() || bytes == b"}".as_slice();
        Nest {
            opened: counted(opens, closes, self.opened),
            pending: 0,
            run: 0,
            is_else: false,
        }
    }

    fn behind_upf(self, bytes: &[u8]) -> Nest
        requires opened { self.opened + 1 < 2 ^ 32 }
        ensures { result ≡ behind_upf self bytes.now }
    {
        Nest {
            opened: counted(
                bytes == b"{".as_slice(),
                bytes == b"}".as_slice(),
                self.opened,
            ),
            pending: 0,
            run: 0,
            is_else: false,
        }
    }

    /// What is open behind the next token.
    fn behind(self, lang: Lang, bytes: &[u8]) -> Nest
        requires opened { self.opened + 1 < 2 ^ 32 }
        requires pending { self.pending + 1 < 2 ^ 32 }
        requires run { self.run + 1 < 2 ^ 32 }
        ensures { result ≡ behind_bytes lang self bytes.now }
    {
        match lang {
            Lang::Rtl | Lang::Netlist => self.behind_verilog(bytes),
            Lang::Upf => self.behind_upf(bytes),
            Lang::Liberty => self.behind_liberty(bytes),
            Lang::Map => self,
        }
    }
}

/// Which token is the first at which too much is open, or how many tokens there are where none is.
pub fn first_too_deep(lang: Lang, text: &[u8], tokens: &[Token]) -> usize
    requires parts { All (IsPartOf (length text.now)) tokens.now }
    ensures place { result ≡ first_too_deep lang (lexemes_of text.now tokens.now) }
    ensures within { result ≤ length tokens.now }
{
    let mut nest = Nest::none();
    for (i, token) in tokens.iter().enumerate() {
        let next = nest.behind(lang, bytes_of(text, *token));
        if next.opened + next.pending + nest.run > MOST_OPEN {
            return i;
        }
        nest = next;
    }
    tokens.len()
}
