//! From derivations to the tree, rule by rule.

ghost use Rattle.std.specs.Prelude.{◌≡◌, ◌≤◌, length, IfOk};
ghost use Rattle.pe_grammar.specs.Derivation.{derivation, left, right};
ghost use Rattle.pe_grammar.specs.Grammar.{Derives};
ghost use Rattle.pe_liberty_read.specs.Contents.{contents_of};
ghost use Rattle.pe_liberty_read.specs.Meaning.{number_of, names_of, attr_with, group_with, statement_of, meaning_of, body_of, braced_of, group_of};

use crate::liberty_table::{
    AT_ARGUMENT, AT_ARGUMENTS, AT_ARGUMENTS_PART_1, AT_BODY, AT_BRACED, AT_BRACED_2, AT_LIBRARY,
    AT_LIBRARY_2, AT_LIBRARY_3, AT_LIBRARY_4, AT_MEANING, AT_MEANING_PART_1, AT_MEANING_PART_1_2,
    AT_MEANING_PART_2, AT_MEANING_PART_2_2, AT_MEANING_PART_2_3, AT_NAME, AT_NEXT, AT_STATEMENT,
    AT_STATEMENTS, AT_TOKEN_LIBRARY, AT_TOKEN_TEXT, AT_TOKEN_VALUE, AT_TOKEN_WORD, AT_VALUES,
    LIBERTY,
};
use crate::statement::{Contents, Statement, add};
use crate::tree::{Attr, Group};
use pe_base::{Name, Want};
use pe_grammar::{Tree, items, listed, parts, side, token};
use pe_reader::{name, start_of};
use pe_text::Token;
use sqlite_items::Items;
use std::alloc::Global;

/// The number of the token of a word.
fn number_of_name(tree: &Tree) -> u32
    requires { Derives LIBERTY AT_NAME (derivation tree.now) }
    ensures { result ≡ number_of (derivation tree.now) }
{
    match side(&LIBERTY, AT_NAME, tree) {
        Ok(library) => token(&LIBERTY, AT_TOKEN_LIBRARY, library).place,
        Err(word) => token(&LIBERTY, AT_TOKEN_WORD, word).place,
    }
}

/// The number of the token of an argument.
fn number_of_argument(tree: &Tree) -> u32
    requires { Derives LIBERTY AT_ARGUMENT (derivation tree.now) }
    ensures { result ≡ number_of (derivation tree.now) }
{
    match side(&LIBERTY, AT_ARGUMENT, tree) {
        Ok(name) => number_of_name(name),
        Err(quoted) => token(&LIBERTY, AT_TOKEN_TEXT, quoted).place,
    }
}

/// The number of the token of an argument behind the first, before which a comma may stand.
fn number_of_next(tree: &Tree) -> u32
    requires { Derives LIBERTY AT_NEXT (derivation tree.now) }
    ensures { result ≡ number_of (derivation tree.now) }
{
    let (_, argument) = parts(&LIBERTY, AT_NEXT, tree);
    number_of_argument(argument)
}

/// The values of a list.
fn make_values(
    alloc: Global,
    text: &[u8],
    tokens: &[Token],
    tree: &Tree,
) -> Result<Items<Name>, Want>
    requires { Derives LIBERTY AT_VALUES (derivation tree.now) }
    ensures { IfOk result (λ ns. ns ≡ names_of text.now tokens.now (derivation tree.now)) }
{
    let (first, rest) = listed(&LIBERTY, AT_VALUES, tree);
    let mut all = Items::new(alloc);
    let number = token(&LIBERTY, AT_TOKEN_VALUE, first).place;
    all.push(name(alloc, text, tokens, number)?)?;
    for next in rest {
        let number = token(&LIBERTY, AT_TOKEN_VALUE, next).place;
        all.push(name(alloc, text, tokens, number)?)?;
    }
    Ok(all)
}

/// The arguments between parentheses.
fn make_arguments(
    alloc: Global,
    text: &[u8],
    tokens: &[Token],
    tree: &Tree,
) -> Result<Items<Name>, Want>
    requires { Derives LIBERTY AT_ARGUMENTS (derivation tree.now) }
    ensures { IfOk result (λ ns. ns ≡ names_of text.now tokens.now (derivation tree.now)) }
{
    match side(&LIBERTY, AT_ARGUMENTS, tree) {
        Ok(some) => make_some_arguments(alloc, text, tokens, some),
        Err(_) => Ok(Items::new(alloc)),
    }
}

/// One argument or more.
fn make_some_arguments(
    alloc: Global,
    text: &[u8],
    tokens: &[Token],
    tree: &Tree,
) -> Result<Items<Name>, Want>
    requires { Derives LIBERTY AT_ARGUMENTS_PART_1 (derivation tree.now) }
    ensures { IfOk result (λ ns. ns ≡ names_of text.now tokens.now (derivation tree.now)) }
{
    let (first, rest) = listed(&LIBERTY, AT_ARGUMENTS_PART_1, tree);
    let mut all = Items::new(alloc);
    all.push(name(alloc, text, tokens, number_of_argument(first))?)?;
    for next in rest {
        all.push(name(alloc, text, tokens, number_of_next(next))?)?;
    }
    Ok(all)
}

/// The attribute whose first word is the token of this number.
fn make_attr(
    alloc: Global,
    text: &[u8],
    tokens: &[Token],
    number: u32,
    values: Items<Name>,
) -> Result<Attr, Want>
    requires { length text.now ≤ 16777216 }
    ensures { IfOk result (λ a. a ≡ attr_with text.now tokens.now number values) }
{
    let place = start_of(text, tokens, number as usize);
    let name = name(alloc, text, tokens, number)?;
    Ok(Attr {
        name,
        values,
        place,
    })
}

/// The group whose first word is the token of this number.
fn make_group(
    alloc: Global,
    text: &[u8],
    tokens: &[Token],
    number: u32,
    args: Items<Name>,
    contents: Contents,
) -> Result<Group, Want>
    requires { length text.now ≤ 16777216 }
    ensures { IfOk result (λ g. g ≡ group_with text.now tokens.now number args contents) }
{
    let place = start_of(text, tokens, number as usize);
    let kind = name(alloc, text, tokens, number)?;
    let Contents { attrs, groups } = contents;
    Ok(Group {
        kind,
        args,
        attrs,
        groups,
        place,
    })
}

/// What stands in braces.
#[cycle(building)]
fn make_contents(
    alloc: Global,
    text: &[u8],
    tokens: &[Token],
    tree: &Tree,
) -> Result<Contents, Want>
    requires short { length text.now ≤ 16777216 }
    requires derives { Derives LIBERTY AT_BRACED (derivation tree.now) }
    ensures { IfOk result (λ c. c ≡ contents_of (braced_of text.now tokens.now (derivation tree.now))) }
{
    let (_, rest) = parts(&LIBERTY, AT_BRACED, tree);
    let (all, _) = parts(&LIBERTY, AT_BRACED_2, rest);
    let mut contents = Contents {
        attrs: Items::new(alloc),
        groups: Items::new(alloc),
    };
    for item in items(&LIBERTY, AT_STATEMENTS, all) {
        let statement = make_statement(alloc, text, tokens, item)?;
        add(&mut contents, statement)?;
    }
    Ok(contents)
}

/// A statement of a group.
#[cycle(building)]
fn make_statement(
    alloc: Global,
    text: &[u8],
    tokens: &[Token],
    tree: &Tree,
) -> Result<Statement, Want>
    requires short { length text.now ≤ 16777216 }
    requires derives { Derives LIBERTY AT_STATEMENT (derivation tree.now) }
    ensures { IfOk result (λ s. s ≡ statement_of text.now tokens.now (derivation tree.now)) }
{
    let (word, meaning) = parts(&LIBERTY, AT_STATEMENT, tree);
    let number = number_of_name(word);
    match side(&LIBERTY, AT_MEANING, meaning) {
        Ok(simple) => make_simple(alloc, text, tokens, number, simple),
        Err(complex) => make_complex(alloc, text, tokens, number, complex),
    }
}

/// An attribute with a list of values, behind its first word.
fn make_simple(
    alloc: Global,
    text: &[u8],
    tokens: &[Token],
    number: u32,
    tree: &Tree,
) -> Result<Statement, Want>
    requires short { length text.now ≤ 16777216 }
    requires derives { Derives LIBERTY AT_MEANING_PART_1 (derivation tree.now) }
    ensures { IfOk result (λ s. s ≡ meaning_of text.now tokens.now number (left (derivation tree.now))) }
{
    let (_, rest) = parts(&LIBERTY, AT_MEANING_PART_1, tree);
    let (values, _) = parts(&LIBERTY, AT_MEANING_PART_1_2, rest);
    let values = make_values(alloc, text, tokens, values)?;
    let attr = make_attr(alloc, text, tokens, number, values)?;
    Ok(Statement::Attribute(attr))
}

/// An attribute or a group with arguments, behind its first word.
#[cycle(building)]
fn make_complex(
    alloc: Global,
    text: &[u8],
    tokens: &[Token],
    number: u32,
    tree: &Tree,
) -> Result<Statement, Want>
    requires short { length text.now ≤ 16777216 }
    requires derives { Derives LIBERTY AT_MEANING_PART_2 (derivation tree.now) }
    ensures { IfOk result (λ s. s ≡ meaning_of text.now tokens.now number (right (derivation tree.now))) }
{
    let (_, rest) = parts(&LIBERTY, AT_MEANING_PART_2, tree);
    let (arguments, rest) = parts(&LIBERTY, AT_MEANING_PART_2_2, rest);
    let (_, body) = parts(&LIBERTY, AT_MEANING_PART_2_3, rest);
    let arguments = make_arguments(alloc, text, tokens, arguments)?;
    make_body(alloc, text, tokens, number, arguments, body)
}

/// What follows the arguments: what stands in braces, of a group, or nothing, of an attribute.
#[cycle(building)]
fn make_body(
    alloc: Global,
    text: &[u8],
    tokens: &[Token],
    number: u32,
    arguments: Items<Name>,
    tree: &Tree,
) -> Result<Statement, Want>
    requires short { length text.now ≤ 16777216 }
    requires derives { Derives LIBERTY AT_BODY (derivation tree.now) }
    ensures { IfOk result (λ s. s ≡ body_of text.now tokens.now number arguments (derivation tree.now)) }
{
    match side(&LIBERTY, AT_BODY, tree) {
        Ok(braced) => {
            let contents = make_contents(alloc, text, tokens, braced)?;
            let group = make_group(alloc, text, tokens, number, arguments, contents)?;
            Ok(Statement::Group(group))
        }
        Err(_) => {
            let attr = make_attr(alloc, text, tokens, number, arguments)?;
            Ok(Statement::Attribute(attr))
        }
    }
}

/// The group that a derivation of the whole grammar is.
pub(crate) fn make_library(
    alloc: Global,
    text: &[u8],
    tokens: &[Token],
    tree: &Tree,
) -> Result<Group, Want>
    requires short { length text.now ≤ 16777216 }
    requires derives { Derives LIBERTY AT_LIBRARY (derivation tree.now) }
    ensures { IfOk result (λ g. g ≡ group_of text.now tokens.now (derivation tree.now)) }
{
    let (library, rest) = parts(&LIBERTY, AT_LIBRARY, tree);
    let (_, rest) = parts(&LIBERTY, AT_LIBRARY_2, rest);
    let (arguments, rest) = parts(&LIBERTY, AT_LIBRARY_3, rest);
    let (_, braced) = parts(&LIBERTY, AT_LIBRARY_4, rest);
    let number = token(&LIBERTY, AT_TOKEN_LIBRARY, library).place;
    let arguments = make_arguments(alloc, text, tokens, arguments)?;
    let contents = make_contents(alloc, text, tokens, braced)?;
    let group = make_group(alloc, text, tokens, number, arguments, contents)?;
    Ok(group)
}
