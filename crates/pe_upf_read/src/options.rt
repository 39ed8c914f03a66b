//! What the options of a command say.

ghost use Rattle.std.specs.Prelude.{◌≡◌, ◌≤◌, length, map, None, Some, MatchOption, IfOk};
ghost use Rattle.std.specs.Option.{option_map};
ghost use Rattle.pe_grammar.specs.Derivation.{derivation};
ghost use Rattle.pe_upf_read.specs.Parts.{head_of, find, all};
ghost use Rattle.pe_upf_read.specs.Options.{needed, has, name_under, names_under, set_of, two_of, two_under, on_of, needed_on, off_of, state_of, flow_of, side_of, sense_of, control_of, roles};

use crate::intent::{Flow, Sense, Side};
use crate::names::{make_name, make_names, make_piece};
use crate::parts::{bare, behind, find, head, part};
use crate::table::{INPUTS, LOW, NEGEDGE, OUT, OUTPUTS, POSEDGE};
use pe_base::{Name, Want};
use pe_grammar::Tree;
use pe_text::Token;
use sqlite_items::Items;
use std::alloc::Global;

/// Whether the option is there.
pub(crate) fn has(options: &[Tree], word: u16) -> bool
    ensures { result ≡ has word (map derivation options.now) }
{
    find(options, word).is_some()
}

/// The name that an option is.
pub(crate) fn name_under(
    alloc: Global,
    text: &[u8],
    tokens: &[Token],
    word: u16,
    options: &[Tree],
) -> Result<Option<Name>, Want>
    ensures { IfOk result (λ n. n ≡ name_under text.now tokens.now word (map derivation options.now)) }
{
    match find(options, word) {
        Some(value) => Ok(Some(make_name(alloc, text, tokens, value)?)),
        None => Ok(None),
    }
}

/// The name that an option is which is asked.
pub(crate) fn needed_name(
    alloc: Global,
    text: &[u8],
    tokens: &[Token],
    word: u16,
    options: &[Tree],
) -> Result<Name, Want>
    ensures { IfOk result (λ n. n ≡ needed (name_under text.now tokens.now word (map derivation options.now))) }
{
    match find(options, word) {
        Some(value) => make_name(alloc, text, tokens, value),
        None => Name::new(alloc, b""),
    }
}

/// The list of names that an option is.
pub(crate) fn names_under(
    alloc: Global,
    text: &[u8],
    tokens: &[Token],
    word: u16,
    options: &[Tree],
) -> Result<Option<Items<Name>>, Want>
    ensures { IfOk result (λ ns. ns ≡ names_under text.now tokens.now word (map derivation options.now)) }
{
    match find(options, word) {
        Some(value) => Ok(Some(make_names(alloc, text, tokens, value)?)),
        None => Ok(None),
    }
}

/// The list of names that an option is which is asked.
pub(crate) fn needed_names(
    alloc: Global,
    text: &[u8],
    tokens: &[Token],
    word: u16,
    options: &[Tree],
) -> Result<Items<Name>, Want>
    ensures { IfOk result (λ ns. ns ≡ needed (names_under text.now tokens.now word (map derivation options.now))) }
{
    match find(options, word) {
        Some(value) => make_names(alloc, text, tokens, value),
        None => Ok(Items::new(alloc)),
    }
}

/// The set of `-supply {primary SET}`.
pub(crate) fn set_under(
    alloc: Global,
    text: &[u8],
    tokens: &[Token],
    word: u16,
    options: &[Tree],
) -> Result<Option<Name>, Want>
    ensures { IfOk result (λ n. n ≡ option_map (set_of text.now tokens.now) (find word (map derivation options.now))) }
{
    match find(options, word) {
        Some(value) => Ok(Some(make_name(alloc, text, tokens, part(value, 2))?)),
        None => Ok(None),
    }
}

/// `{NAME NAME}`
fn make_two(alloc: Global, text: &[u8], tokens: &[Token], tree: &Tree) -> Result<(Name, Name), Want>
    ensures { IfOk result (λ two. two ≡ two_of text.now tokens.now (derivation tree.now)) }
{
    let first = make_name(alloc, text, tokens, part(tree, 1))?;
    let second = make_name(alloc, text, tokens, part(tree, 2))?;
    Ok((first, second))
}

/// The two names that an option is which is asked.
pub(crate) fn two_under(
    alloc: Global,
    text: &[u8],
    tokens: &[Token],
    word: u16,
    options: &[Tree],
) -> Result<(Name, Name), Want>
    ensures { IfOk result (λ two. two ≡ two_under text.now tokens.now word (map derivation options.now)) }
{
    match find(options, word) {
        Some(value) => make_two(alloc, text, tokens, value),
        None => Ok((Name::new(alloc, b"")?, Name::new(alloc, b"")?)),
    }
}

/// The two names of each option of a word.
#[tactic(auto, unfolding(crate::specs::Parts::all))]
pub(crate) fn all_twos(
    alloc: Global,
    text: &[u8],
    tokens: &[Token],
    word: u16,
    options: &[Tree],
) -> Result<Items<(Name, Name)>, Want>
    ensures { IfOk result (λ twos. twos ≡ map (two_of text.now tokens.now) (all word (map derivation options.now))) }
{
    let mut twos = Items::new(alloc);
    for option in options {
        if head(option) == word {
            twos.push(make_two(alloc, text, tokens, behind(bare(option), 1))?)?;
        }
    }
    Ok(twos)
}

/// `{STATE PORT {EXPRESSION}}`
fn make_on(
    alloc: Global,
    text: &[u8],
    tokens: &[Token],
    tree: &Tree,
) -> Result<(Name, Name, Name), Want>
    requires { length text.now ≤ 16777216 }
    ensures { IfOk result (λ on. on ≡ on_of text.now tokens.now (derivation tree.now)) }
{
    let state = make_name(alloc, text, tokens, part(tree, 1))?;
    let port = make_name(alloc, text, tokens, part(tree, 2))?;
    let expression = make_piece(alloc, text, tokens, part(tree, 3))?;
    Ok((state, port, expression))
}

/// The state in which a switch is on.
pub(crate) fn on_under(
    alloc: Global,
    text: &[u8],
    tokens: &[Token],
    word: u16,
    options: &[Tree],
) -> Result<(Name, Name, Name), Want>
    requires { length text.now ≤ 16777216 }
    ensures { IfOk result (λ on. on ≡ needed_on (option_map (on_of text.now tokens.now) (find word (map derivation options.now)))) }
{
    match find(options, word) {
        Some(value) => make_on(alloc, text, tokens, value),
        None => Ok((
            Name::new(alloc, b"")?,
            Name::new(alloc, b"")?,
            Name::new(alloc, b"")?,
        )),
    }
}

/// `{STATE {EXPRESSION}}`
fn make_off(alloc: Global, text: &[u8], tokens: &[Token], tree: &Tree) -> Result<(Name, Name), Want>
    requires { length text.now ≤ 16777216 }
    ensures { IfOk result (λ off. off ≡ off_of text.now tokens.now (derivation tree.now)) }
{
    let state = make_name(alloc, text, tokens, part(tree, 1))?;
    let expression = make_piece(alloc, text, tokens, part(tree, 2))?;
    Ok((state, expression))
}

/// The states in which a switch is off.
#[tactic(auto, unfolding(crate::specs::Parts::all))]
pub(crate) fn all_off(
    alloc: Global,
    text: &[u8],
    tokens: &[Token],
    word: u16,
    options: &[Tree],
) -> Result<Items<(Name, Name)>, Want>
    requires { length text.now ≤ 16777216 }
    ensures { IfOk result (λ off. off ≡ map (off_of text.now tokens.now) (all word (map derivation options.now))) }
{
    let mut off = Items::new(alloc);
    for option in options {
        if head(option) == word {
            off.push(make_off(alloc, text, tokens, behind(bare(option), 1))?)?;
        }
    }
    Ok(off)
}

/// `{STATE WORDS}`
fn make_state(
    alloc: Global,
    text: &[u8],
    tokens: &[Token],
    tree: &Tree,
) -> Result<(Name, Items<Name>), Want>
    ensures { IfOk result (λ state. state ≡ state_of text.now tokens.now (derivation tree.now)) }
{
    let name = make_name(alloc, text, tokens, part(tree, 1))?;
    let words = make_names(alloc, text, tokens, part(tree, 2))?;
    Ok((name, words))
}

/// The states of a port.
#[tactic(auto, unfolding(crate::specs::Parts::all))]
pub(crate) fn all_states(
    alloc: Global,
    text: &[u8],
    tokens: &[Token],
    word: u16,
    options: &[Tree],
) -> Result<Items<(Name, Items<Name>)>, Want>
    ensures { IfOk result (λ states. states ≡ map (state_of text.now tokens.now) (all word (map derivation options.now))) }
{
    let mut states = Items::new(alloc);
    for option in options {
        if head(option) == word {
            states.push(make_state(alloc, text, tokens, behind(bare(option), 1))?)?;
        }
    }
    Ok(states)
}

fn flow(word: u16) -> Flow
    ensures { result ≡ flow_of word }
{
    if word == OUT {
        Flow::Outward
    } else {
        Flow::Inward
    }
}

/// Which way a port leads.
pub(crate) fn flow_under(options: &[Tree], word: u16) -> Option<Flow>
    ensures { result ≡ option_map (λ d. flow_of (head_of d)) (find word (map derivation options.now)) }
{
    find(options, word).map(|value| flow(head(value)))
}

fn side(word: u16) -> Side
    ensures { result ≡ side_of word }
{
    match word {
        INPUTS => Side::Inputs,
        OUTPUTS => Side::Outputs,
        _ => Side::Both,
    }
}

/// Which ports a strategy is for.
pub(crate) fn side_under(options: &[Tree], word: u16) -> Option<Side>
    ensures { result ≡ option_map (λ d. side_of (head_of d)) (find word (map derivation options.now)) }
{
    match find(options, word) {
        Some(value) => Some(side(head(value))),
        None => None,
    }
}

fn sense(word: u16) -> Sense
    ensures { result ≡ sense_of word }
{
    match word {
        LOW => Sense::Low,
        POSEDGE => Sense::Posedge,
        NEGEDGE => Sense::Negedge,
        _ => Sense::High,
    }
}

/// When a signal acts.
pub(crate) fn sense_under(options: &[Tree], word: u16) -> Option<Sense>
    ensures { result ≡ option_map (λ d. sense_of (head_of d)) (find word (map derivation options.now)) }
{
    match find(options, word) {
        Some(value) => Some(sense(head(value))),
        None => None,
    }
}

/// `{SIGNAL SENSE}`
pub(crate) fn control_under(
    alloc: Global,
    text: &[u8],
    tokens: &[Token],
    word: u16,
    options: &[Tree],
) -> Result<Option<(Name, Sense)>, Want>
    ensures { IfOk result (λ control. control ≡ option_map (control_of text.now tokens.now) (find word (map derivation options.now))) }
{
    match find(options, word) {
        Some(value) => {
            let signal = make_name(alloc, text, tokens, part(value, 1))?;
            Ok(Some((signal, sense(head(part(value, 2))))))
        }
        None => Ok(None),
    }
}

/// What stands behind the role in one of the functions of a supply set.
#[tactic(auto, unfolding(crate::specs::Parts::find, crate::specs::Options::roles))]
fn find_role(tree: &Tree, word: u16) -> Option<&Tree>
    ensures { MatchOption result (find word (roles (derivation tree.now)) ≡ None) (λ t. find word (roles (derivation tree.now)) ≡ Some (derivation t.now)) }
{
    let first = bare(behind(bare(tree), 2));
    if head(first) == word {
        return Some(behind(bare(first), 1));
    }
    let second = behind(bare(behind(first, 3)), 2);
    if head(second) == word {
        return Some(behind(bare(second), 1));
    }
    None
}

/// The net of a role of a supply set.
pub(crate) fn role_under(
    alloc: Global,
    text: &[u8],
    tokens: &[Token],
    word: u16,
    functions: &Tree,
) -> Result<Option<Name>, Want>
    ensures { IfOk result (λ n. n ≡ name_under text.now tokens.now word (roles (derivation functions.now))) }
{
    match find_role(functions, word) {
        Some(value) => Ok(Some(make_name(alloc, text, tokens, value)?)),
        None => Ok(None),
    }
}
