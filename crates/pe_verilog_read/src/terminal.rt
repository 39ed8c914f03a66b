//! From tokens to the terminals of the grammar.

ghost use Rattle.std.specs.Prelude.{◌≡◌, ◌≤◌, length, map, IfOk};
ghost use Rattle.std.specs.List.{All, list_any};
ghost use Rattle.pe_text.specs.Lexemes.{IsPartOf};
ghost use Rattle.pe_verilog_read.specs.Terminals.{terminal_in as found_in, terminal_of, terminals_of, words, marks, is_skipped};

use crate::verilog_table::{
    ALWAYS, AND, AND_AND, ASSIGN, AT, BANG, BAR, BAR_BAR, BEGIN, CARET, CASE, CASEZ, CLOSE, COLON,
    COMMA, DEFAULT, DOT, ELSE, END, ENDCASE, ENDMODULE, EQUAL, EQUALS, GREATER, GREATER_EQUAL,
    HASH, IF, INOUT, INPUT, LBRACE, LBRACKET, LEFT, LESS, LESS_EQUAL, LOCALPARAM, MINUS, MODULE,
    NAME, NAND, NEGEDGE, NOR, NOT_EQUAL, NUMBER, OPEN, OR, OTHER, OUTPUT, PARAMETER, PLUS, POSEDGE,
    QUESTION, RBRACE, RBRACKET, REG, RIGHT, SEMI, STAR, TILDE, WILD, WIRE, XNOR,
};
use pe_grammar::Token as Terminal;
use pe_text::{Kind, Token, part};
use sqlite_items::Items;
use std::alloc::{AllocError, Global};

static WORDS: [(&[u8], u16); 22] = [
    (b"module", MODULE),
    (b"endmodule", ENDMODULE),
    (b"parameter", PARAMETER),
    (b"localparam", LOCALPARAM),
    (b"wire", WIRE),
    (b"reg", REG),
    (b"input", INPUT),
    (b"output", OUTPUT),
    (b"inout", INOUT),
    (b"assign", ASSIGN),
    (b"always", ALWAYS),
    (b"posedge", POSEDGE),
    (b"negedge", NEGEDGE),
    (b"or", OR),
    (b"begin", BEGIN),
    (b"end", END),
    (b"if", IF),
    (b"else", ELSE),
    (b"case", CASE),
    (b"casez", CASEZ),
    (b"endcase", ENDCASE),
    (b"default", DEFAULT),
];

static MARKS: [(&[u8], u16); 36] = [
    (b"#", HASH),
    (b"(", OPEN),
    (b")", CLOSE),
    (b",", COMMA),
    (b";", SEMI),
    (b".", DOT),
    (b"=", EQUALS),
    (b"[", LBRACKET),
    (b"]", RBRACKET),
    (b":", COLON),
    (b"@", AT),
    (b"*", STAR),
    (b"{", LBRACE),
    (b"}", RBRACE),
    (b"?", QUESTION),
    (b"!", BANG),
    (b"~", TILDE),
    (b"&", AND),
    (b"~&", NAND),
    (b"|", BAR),
    (b"~|", NOR),
    (b"^", CARET),
    (b"~^", XNOR),
    (b"^~", XNOR),
    (b"+", PLUS),
    (b"-", MINUS),
    (b"<<", LEFT),
    (b">>", RIGHT),
    (b"<", LESS),
    (b"<=", LESS_EQUAL),
    (b">", GREATER),
    (b">=", GREATER_EQUAL),
    (b"==", EQUAL),
    (b"!=", NOT_EQUAL),
    (b"&&", AND_AND),
    (b"||", BAR_BAR),
];

/// The terminal of these bytes among the spellings, or another one.
fn terminal_in(spellings: &[(&[u8], u16)], other: u16, bytes: &[u8]) -> u16
    ensures { result ≡ found_in (map (λ s. (s.0.now, s.1)) spellings.now) other bytes.now }
{
    for (spelling, terminal) in spellings {
        if *spelling == bytes {
            return *terminal;
        }
    }
    other
}

/// Whether a number has a digit `z` or `?`.
fn is_wild(number: &[u8]) -> bool
    ensures { result ≡ list_any is_skipped number.now }
{
    number
        .iter()
        .any(|byte| *byte == b'z' || *byte == b'Z' || *byte == b'?')
}

fn word(bytes: &[u8]) -> u16
    ensures { result ≡ found_in words NAME bytes.now }
{
    terminal_in(&WORDS, NAME, bytes)
}

fn mark(bytes: &[u8]) -> u16
    ensures { result ≡ found_in marks OTHER bytes.now }
{
    terminal_in(&MARKS, OTHER, bytes)
}

/// The terminal of a token.
fn terminal(kind: Kind, bytes: &[u8]) -> u16
    ensures { result ≡ terminal_of kind bytes.now }
{
    match kind {
        Kind::Word => word(bytes),
        Kind::Escaped => NAME,
        Kind::Number if is_wild(bytes) => WILD,
        Kind::Number => NUMBER,
        Kind::Mark => mark(bytes),
        Kind::Text | Kind::End => OTHER,
    }
}

/// The tokens of a text as terminals, each with its number in the list.
pub(crate) fn terminals(
    alloc: Global,
    text: &[u8],
    tokens: &[Token],
) -> Result<Items<Terminal>, AllocError>
    requires parts { All (IsPartOf (length text.now)) tokens.now }
    requires short { length tokens.now ≤ 16777216 }
    ensures { IfOk result (λ ts. ts ≡ terminals_of text.now tokens.now) }
{
    let mut all = Items::new(alloc);
    for (i, token) in tokens.iter().enumerate() {
        let kind = terminal(token.kind, part(text, token.span));
        all.push(Terminal {
            kind,
            place: i as u32,
        })?;
    }
    Ok(all)
}
