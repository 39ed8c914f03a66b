//! Tests on bytes.

ghost use Rattle.std.specs.Prelude.{◌≡◌, codes};
ghost use Rattle.pe_text.specs.Bytes.{is_blank, is_white, is_digit, begins_name, is_graphic, is_unknown, is_braced, is_command, is_value, has_first, has_two, is_continued, is_one_of};

/// Space and tab.
pub fn is_blank(byte: u8) -> bool
    ensures { result ≡ is_blank byte }
{
    byte == b' ' || byte == b'\t'
}

/// Space, tab, LF, CR and FF.
pub fn is_white(byte: u8) -> bool
    ensures { result ≡ is_white byte }
{
    byte == b' ' || byte == b'\t' || byte == b'\n' || byte == b'\r' || byte == 12
}

/// 0 to 9.
pub fn is_digit(byte: u8) -> bool
    ensures { result ≡ is_digit byte }
{
    b'0' <= byte && byte <= b'9'
}

/// A to Z, a to z and `_`.
pub fn begins_name(byte: u8) -> bool
    ensures { result ≡ begins_name byte }
{
    (b'A' <= byte && byte <= b'Z') || (b'a' <= byte && byte <= b'z') || byte == b'_'
}

/// A byte that is seen.
pub fn is_graphic(byte: u8) -> bool
    ensures { result ≡ is_graphic byte }
{
    33 <= byte && byte <= 126
}

/// A digit that is not known.
pub fn is_unknown(byte: u8) -> bool
    ensures { result ≡ is_unknown byte }
{
    byte == b'x' || byte == b'X' || byte == b'z' || byte == b'Z' || byte == b'?'
}

/// A byte of a word of UPF inside braces.
pub fn is_braced(byte: u8) -> bool
    ensures { result ≡ is_braced byte }
{
    byte <= 126
        && !(is_blank(byte)
            || byte == b'\n'
            || byte == b'{'
            || byte == b'}'
            || byte == b'"'
            || byte == b'$')
}

/// A byte of a word of UPF outside braces.
pub fn is_command(byte: u8) -> bool
    ensures { result ≡ is_command byte }
{
    is_braced(byte) && !(byte == b';' || byte == b'[')
}

/// A byte of a word of Liberty.
pub fn is_value(byte: u8) -> bool
    ensures { result ≡ is_value byte }
{
    !(is_white(byte) || byte == b'"' || is_liberty_mark(byte))
}

/// A mark of Liberty.
pub fn is_liberty_mark(byte: u8) -> bool
    ensures { result ≡ is_one_of (codes "(){}:;,") byte }
{
    byte == b'('
        || byte == b')'
        || byte == b'{'
        || byte == b'}'
        || byte == b':'
        || byte == b';'
        || byte == b','
}

/// Whether the text begins with this byte.
pub fn has_first(byte: u8, text: &[u8]) -> bool
    ensures { result ≡ has_first byte text.now }
{
    match text {
        [] => false,
        [first, ..] => *first == byte,
    }
}

/// Whether the text begins with these two bytes.
pub fn has_two(x: u8, y: u8, text: &[u8]) -> bool
    ensures { result ≡ has_two x y text.now }
{
    match text {
        [] => false,
        [first, rest @ ..] => *first == x && has_first(y, rest),
    }
}

/// Whether a backslash stands here before a line's end.
pub fn is_continued(text: &[u8]) -> bool
    ensures { result ≡ is_continued text.now }
{
    has_two(b'\\', b'\n', text)
}
