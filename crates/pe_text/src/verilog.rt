//! What starts at a place of a text in Verilog.

ghost use Rattle.std.specs.Prelude.{◌≡◌, ◌≤◌, ◌-◌, IsTrue, length, take};
ghost use Rattle.std.specs.List.{list_any};
ghost use Rattle.std.specs.Str.{bytes_eq};
ghost use Rattle.pe_base.specs.Names.{has_name};
ghost use Rattle.pe_text.specs.Bytes.{is_one_of, is_white, begins, begins_name};
ghost use Rattle.pe_text.specs.Verilog.{digits, based, unsigned, quote, sized, escaped, skipped, directive, backquote, triples, pairs, operators, operator, brackets, stroke, round, verilog_start};
ghost use Rattle.pe_text.specs.Opening.{start_of};

use crate::bytes::{begins_name, has_first, is_digit, is_graphic, is_white};
use crate::opening::{Opening, gap_to};
use crate::run::{Base, Run};
use crate::token::Kind;

/// The directives that are passed over with their line.
static SKIPPED: [&[u8]; 5] = [
    b"timescale",
    b"default_nettype",
    b"celldefine",
    b"endcelldefine",
    b"resetall",
];

/// The marks of three bytes.
static TRIPLES: [&[u8]; 4] = [b"===", b"!==", b"<<<", b">>>"];

/// The marks of two bytes.
static PAIRS: [&[u8]; 15] = [
    b"~&", b"~|", b"~^", b"^~", b"<<", b">>", b"<=", b">=", b"==", b"!=", b"&&", b"||", b"**",
    b"+:", b"-:",
];

/// Whether it is one of the words.
fn is_among(words: &[&[u8]], word: &[u8]) -> bool
    ensures { result ≡ list_any (λ other. bytes_eq other.now word.now) words.now }
{
    words.iter().any(|other| *other == word)
}

/// Whether a directive of this name is passed over with its line.
fn is_skipped(name: &[u8]) -> bool
    ensures { result ≡ has_name skipped name.now }
{
    is_among(&SKIPPED, name)
}

/// Whether a mark of three bytes stands here.
fn begins_triple(text: &[u8]) -> bool
    ensures test { result ≡ has_name triples (take 3 text.now) }
    ensures within { IsTrue result → 3 ≤ length text.now }
{
    text.len() >= 3 && is_among(&TRIPLES, &text[..3])
}

/// Whether a mark of two bytes stands here.
fn begins_pair(text: &[u8]) -> bool
    ensures test { result ≡ has_name pairs (take 2 text.now) }
    ensures within { IsTrue result → 2 ≤ length text.now }
{
    text.len() >= 2 && is_among(&PAIRS, &text[..2])
}

/// The digits of a number with a base.
fn digits(base: Base, text: &[u8]) -> Opening<'_>
    ensures { start_of result ≡ digits base text.now }
{
    if base.begins(text) {
        Opening::Token(Kind::Number, Run::Digits(base).behind(text))
    } else {
        Opening::Bad
    }
}

/// What this base letter begins.
fn based(letter: u8, text: &[u8]) -> Opening<'_>
    ensures { start_of result ≡ based letter text.now }
{
    if letter == b'b' || letter == b'B' {
        digits(Base::Binary, text)
    } else if letter == b'o' || letter == b'O' {
        digits(Base::Octal, text)
    } else if letter == b'd' || letter == b'D' {
        digits(Base::Decimal, text)
    } else if letter == b'h' || letter == b'H' {
        digits(Base::Hexadecimal, text)
    } else {
        Opening::Bad
    }
}

/// A base letter and digits.
fn unsigned(text: &[u8]) -> Opening<'_>
    ensures { start_of result ≡ unsigned text.now }
{
    match text {
        [] => Opening::Bad,
        [letter, rest @ ..] => based(*letter, rest),
    }
}

/// What a `'` begins.
fn quote(text: &[u8]) -> Opening<'_>
    ensures { start_of result ≡ quote text.now }
{
    match text {
        [] => Opening::Bad,
        [letter, rest @ ..] => {
            if *letter == b's' || *letter == b'S' {
                unsigned(rest)
            } else {
                based(*letter, rest)
            }
        }
    }
}

/// What decimal digits are, by what stands behind them.
fn sized(text: &[u8]) -> Opening<'_>
    ensures { start_of result ≡ sized text.now }
{
    let number = Opening::Token(Kind::Number, text);
    match text {
        [b'\'', rest @ ..] => quote(rest).or_else(number),
        _ => number,
    }
}

/// What a `\` begins.
fn escaped(text: &[u8]) -> Opening<'_>
    ensures { start_of result ≡ escaped text.now }
{
    match text {
        [] => Opening::Bad,
        [first, ..] => {
            let rest = Run::Escaped.behind(text);
            if is_graphic(*first) && begins_white(rest) {
                Opening::Token(Kind::Escaped, rest)
            } else {
                Opening::Bad
            }
        }
    }
}

/// Whether the text begins with white space.
fn begins_white(text: &[u8]) -> bool
    ensures { result ≡ begins is_white text.now }
{
    match text {
        [] => false,
        [first, ..] => is_white(*first),
    }
}

/// Whether the text begins with a name.
fn begins_with_name(text: &[u8]) -> bool
    ensures { result ≡ begins begins_name text.now }
{
    match text {
        [] => false,
        [first, ..] => begins_name(*first),
    }
}

/// A directive of this name.
fn directive<'a>(name: &[u8], rest: &'a [u8]) -> Opening<'a>
    ensures { start_of result ≡ directive name.now rest.now }
{
    if is_skipped(name) {
        Opening::Gap(Run::Line.behind(rest))
    } else {
        Opening::Token(Kind::Mark, rest)
    }
}

/// What a backquote begins.
fn backquote(text: &[u8]) -> Opening<'_>
    ensures { start_of result ≡ backquote text.now }
{
    if begins_with_name(text) {
        let rest = Run::Name.behind(text);
        directive(&text[..text.len() - rest.len()], rest)
    } else {
        Opening::Bad
    }
}

/// The longest mark that begins with an operator.
fn operator(text: &[u8]) -> Opening<'_>
    ensures { start_of result ≡ operator text.now }
{
    if begins_triple(text) {
        Opening::Token(Kind::Mark, &text[3..])
    } else if begins_pair(text) {
        Opening::Token(Kind::Mark, &text[2..])
    } else {
        match text {
            [] => Opening::Bad,
            [first, rest @ ..] => {
                if is_operator(*first) {
                    Opening::Token(Kind::Mark, rest)
                } else {
                    Opening::Bad
                }
            }
        }
    }
}

/// Whether the byte alone is an operator.
fn is_operator(byte: u8) -> bool
    ensures { result ≡ is_one_of operators byte }
{
    byte == b'='
        || byte == b'!'
        || byte == b'~'
        || byte == b'&'
        || byte == b'|'
        || byte == b'^'
        || byte == b'+'
        || byte == b'-'
        || byte == b'<'
        || byte == b'>'
        || byte == b'*'
}

/// Whether the byte is a mark, and begins no longer one and no comment or attribute.
fn is_bracket(byte: u8) -> bool
    ensures { result ≡ is_one_of brackets byte }
{
    byte == b')'
        || byte == b'['
        || byte == b']'
        || byte == b'{'
        || byte == b'}'
        || byte == b','
        || byte == b';'
        || byte == b':'
        || byte == b'.'
        || byte == b'@'
        || byte == b'#'
        || byte == b'?'
        || byte == b'%'
}

/// What a `/` begins.
fn stroke(text: &[u8]) -> Opening<'_>
    ensures { start_of result ≡ stroke text.now }
{
    match text {
        [b'/', ..] => Opening::Gap(Run::Line.behind(text)),
        [b'*', rest @ ..] => gap_to(b'*', b'/', rest),
        _ => Opening::Token(Kind::Mark, text),
    }
}

/// What a `(` begins.
fn round(text: &[u8]) -> Opening<'_>
    ensures { start_of result ≡ round text.now }
{
    match text {
        [b'*', rest @ ..] => {
            if has_first(b')', rest) {
                Opening::Token(Kind::Mark, text)
            } else {
                gap_to(b'*', b')', rest)
            }
        }
        _ => Opening::Token(Kind::Mark, text),
    }
}

/// What starts at a place.
pub fn verilog_start(text: &[u8]) -> Opening<'_>
    ensures { start_of result ≡ verilog_start text.now }
{
    match text {
        [] => Opening::Bad,
        [first, rest @ ..] => {
            if is_white(*first) {
                Opening::Gap(rest)
            } else if begins_name(*first) {
                Opening::Token(Kind::Word, Run::Name.behind(rest))
            } else if is_bracket(*first) {
                Opening::Token(Kind::Mark, rest)
            } else if *first == b'(' {
                round(rest)
            } else if is_digit(*first) {
                sized(Run::Digits(Base::Decimal).behind(rest))
            } else if *first == b'\'' {
                quote(rest)
            } else if *first == b'\\' {
                escaped(rest)
            } else if *first == b'`' {
                backquote(rest)
            } else if *first == b'/' {
                stroke(rest)
            } else {
                operator(text)
            }
        }
    }
}
