//! From tokens to the terminals of the grammar.

ghost use Rattle.std.specs.Prelude.{◌≡◌, ◌≤◌, length, IfOk};
ghost use Rattle.std.specs.List.{All, position_or_len};
ghost use Rattle.std.specs.Str.{bytes_eq};
ghost use Rattle.pe_text.specs.Lexemes.{IsPartOf};
ghost use Rattle.pe_upf_read.specs.Terminals.{spelling_of, number_of, mark_of, terminal_of, terminals_of};

use crate::table::{CLOSE, END, OPEN, OTHER, TEXT};
use pe_grammar::Token as Terminal;
use pe_text::{Kind, Token, part};
use sqlite_items::Items;
use std::alloc::{AllocError, Global};

static KEYWORDS: [&[u8]; 57] = [
    b"upf_version",
    b"set_design_top",
    b"create_power_domain",
    b"create_supply_port",
    b"create_supply_net",
    b"connect_supply_net",
    b"create_supply_set",
    b"set_domain_supply_net",
    b"create_power_switch",
    b"add_port_state",
    b"create_pst",
    b"add_pst_state",
    b"set_isolation",
    b"set_retention",
    b"set_level_shifter",
    b"map_retention_cell",
    b"map_power_switch",
    b"-elements",
    b"-include_scope",
    b"-supply",
    b"-direction",
    b"-domain",
    b"-reuse",
    b"-ports",
    b"-function",
    b"-primary_power_net",
    b"-primary_ground_net",
    b"-output_supply_port",
    b"-input_supply_port",
    b"-control_port",
    b"-on_state",
    b"-off_state",
    b"-state",
    b"-supplies",
    b"-pst",
    b"-applies_to",
    b"-clamp_value",
    b"-isolation_signal",
    b"-isolation_sense",
    b"-isolation_supply",
    b"-location",
    b"-no_isolation",
    b"-retention_supply",
    b"-save_signal",
    b"-restore_signal",
    b"in",
    b"out",
    b"inputs",
    b"outputs",
    b"both",
    b"high",
    b"low",
    b"posedge",
    b"negedge",
    b"power",
    b"ground",
    b"primary",
];

/// The first place of the word among these, or how many there are.
fn place_among(words: &[&[u8]], word: &[u8]) -> usize
    ensures place { result ≡ position_or_len (λ other. bytes_eq other.now word.now) words.now }
    ensures within { result ≤ length words.now }
{
    for (i, other) in words.iter().enumerate() {
        if *other == word {
            return i;
        }
    }
    words.len()
}

/// The word that this one is read as.
fn spelling(word: &[u8]) -> &[u8]
    ensures { result.now ≡ spelling_of word.now }
{
    if word == b"-isolation_supply_set".as_slice() {
        b"-isolation_supply"
    } else if word == b"-retention_supply_set".as_slice() {
        b"-retention_supply"
    } else {
        word
    }
}

/// The number of a word.
fn number(word: &[u8]) -> u16
    ensures { result ≡ number_of word.now }
{
    place_among(&KEYWORDS, spelling(word)) as u16
}

fn mark(mark: &[u8]) -> u16
    ensures { result ≡ mark_of mark.now }
{
    if mark == b"{".as_slice() {
        OPEN
    } else if mark == b"}".as_slice() {
        CLOSE
    } else {
        OTHER
    }
}

/// The terminal of a token.
fn terminal(kind: Kind, bytes: &[u8]) -> u16
    ensures { result ≡ terminal_of kind bytes.now }
{
    match kind {
        Kind::Word => number(bytes),
        Kind::Text => TEXT,
        Kind::Mark => mark(bytes),
        Kind::End => END,
        Kind::Escaped | Kind::Number => OTHER,
    }
}

/// The tokens of a text as terminals, each with its number in the list, and behind them an end.
pub(crate) fn terminals(
    alloc: Global,
    text: &[u8],
    tokens: &[Token],
) -> Result<Items<Terminal>, AllocError>
    requires parts { All (IsPartOf (length text.now)) tokens.now }
    requires few { length tokens.now ≤ 16777216 }
    ensures { IfOk result (λ ts. ts ≡ terminals_of text.now tokens.now) }
{
    let mut all = Items::new(alloc);
    let mut place: u32 = 0;
    for token in tokens {
        let kind = terminal(token.kind, part(text, token.span));
        all.push(Terminal { kind, place })?;
        place += 1;
    }
    all.push(Terminal { kind: END, place })?;
    Ok(all)
}
