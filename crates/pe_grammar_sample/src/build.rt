//! From derivations to statements, rule by rule.

ghost use Rattle.std.specs.Prelude.{◌≡◌, IfOk};
ghost use Rattle.pe_grammar.specs.Derivation.{derivation};
ghost use Rattle.pe_grammar.specs.Grammar.{Derives};
ghost use Rattle.pe_grammar_sample.specs.Meaning.{statement_of, block_of, test_of, otherwise_of, assign_of, names_of, declare_of, settings_of, setting_of};

use crate::statement::{Setting, Statement};
use crate::statement_table::{
    AT_ASSIGNMENT, AT_ASSIGNMENT_2, AT_ASSIGNMENT_3, AT_BLOCK, AT_BLOCK_2, AT_BLOCK_PART_2,
    AT_DECLARATION, AT_DECLARATION_2, AT_DECLARATION_3, AT_NAMES, AT_NAMES_PART_2_EACH, AT_OPTION,
    AT_OPTION_2, AT_OPTION_PART_1, AT_OPTION_PART_3, AT_OPTIONS, AT_OTHERWISE, AT_STATEMENT,
    AT_STATEMENT_2, AT_STATEMENT_3, AT_STATEMENT_4, AT_TEST, AT_TEST_2, AT_TEST_3, AT_TEST_4,
    AT_TEST_5, AT_TOKEN_NAME, STATEMENT,
};
use pe_grammar::{Token, Tree, clause, items, listed, options, parts, side, token};
use sqlite_items::{Boxed, Items};
use std::alloc::{AllocError, Global};

#[cycle(building)]
pub(crate) fn make_statement(alloc: Global, tree: &Tree) -> Result<Statement, AllocError>
    requires { Derives STATEMENT AT_STATEMENT (derivation tree.now) }
    ensures { IfOk result (λ s. s ≡ statement_of (derivation tree.now)) }
{
    match side(&STATEMENT, AT_STATEMENT, tree) {
        Ok(block) => make_block(alloc, block),
        Err(other) => match side(&STATEMENT, AT_STATEMENT_2, other) {
            Ok(test) => make_test(alloc, test),
            Err(other) => match side(&STATEMENT, AT_STATEMENT_3, other) {
                Ok(assign) => make_assign(alloc, assign),
                Err(other) => match side(&STATEMENT, AT_STATEMENT_4, other) {
                    Ok(declare) => make_declare(alloc, declare),
                    Err(_) => Ok(Statement::Nothing),
                },
            },
        },
    }
}

#[cycle(building)]
fn make_block(alloc: Global, tree: &Tree) -> Result<Statement, AllocError>
    requires { Derives STATEMENT AT_BLOCK (derivation tree.now) }
    ensures { IfOk result (λ s. s ≡ block_of (derivation tree.now)) }
{
    let (_, rest) = parts(&STATEMENT, AT_BLOCK, tree);
    let (list, _) = parts(&STATEMENT, AT_BLOCK_2, rest);
    let mut all = Items::new(alloc);
    for item in items(&STATEMENT, AT_BLOCK_PART_2, list) {
        all.push(make_statement(alloc, item)?)?;
    }
    Ok(Statement::Block(all))
}

#[cycle(building)]
fn make_test(alloc: Global, tree: &Tree) -> Result<Statement, AllocError>
    requires { Derives STATEMENT AT_TEST (derivation tree.now) }
    ensures { IfOk result (λ s. s ≡ test_of (derivation tree.now)) }
{
    let (_, rest) = parts(&STATEMENT, AT_TEST, tree);
    let (_, rest) = parts(&STATEMENT, AT_TEST_2, rest);
    let (name, rest) = parts(&STATEMENT, AT_TEST_3, rest);
    let (_, rest) = parts(&STATEMENT, AT_TEST_4, rest);
    let (then, tail) = parts(&STATEMENT, AT_TEST_5, rest);
    let name = token(&STATEMENT, AT_TOKEN_NAME, name);
    let then = Boxed::new(alloc, make_statement(alloc, then)?)?;
    let other = make_otherwise(alloc, tail)?;
    Ok(Statement::Test(name, then, other))
}

#[cycle(building)]
fn make_otherwise(alloc: Global, tree: &Tree) -> Result<Option<Boxed<Statement>>, AllocError>
    requires { Derives STATEMENT AT_OTHERWISE (derivation tree.now) }
    ensures { IfOk result (λ o. o ≡ otherwise_of (derivation tree.now)) }
{
    match clause(&STATEMENT, AT_OTHERWISE, tree) {
        Some((_, body)) => Ok(Some(Boxed::new(alloc, make_statement(alloc, body)?)?)),
        None => Ok(None),
    }
}

fn make_assign(alloc: Global, tree: &Tree) -> Result<Statement, AllocError>
    requires { Derives STATEMENT AT_ASSIGNMENT (derivation tree.now) }
    ensures { IfOk result (λ s. s ≡ assign_of (derivation tree.now)) }
{
    let (to, rest) = parts(&STATEMENT, AT_ASSIGNMENT, tree);
    let (_, rest) = parts(&STATEMENT, AT_ASSIGNMENT_2, rest);
    let (names, _) = parts(&STATEMENT, AT_ASSIGNMENT_3, rest);
    let to = token(&STATEMENT, AT_TOKEN_NAME, to);
    Ok(Statement::Assign(to, make_names(alloc, names)?))
}

fn make_names(alloc: Global, tree: &Tree) -> Result<Items<Token>, AllocError>
    requires { Derives STATEMENT AT_NAMES (derivation tree.now) }
    ensures { IfOk result (λ ts. ts ≡ names_of (derivation tree.now)) }
{
    let (first, rest) = listed(&STATEMENT, AT_NAMES, tree);
    let mut names = Items::new(alloc);
    names.push(token(&STATEMENT, AT_TOKEN_NAME, first))?;
    for next in rest {
        let (_, name) = parts(&STATEMENT, AT_NAMES_PART_2_EACH, next);
        names.push(token(&STATEMENT, AT_TOKEN_NAME, name))?;
    }
    Ok(names)
}

fn make_declare(alloc: Global, tree: &Tree) -> Result<Statement, AllocError>
    requires { Derives STATEMENT AT_DECLARATION (derivation tree.now) }
    ensures { IfOk result (λ s. s ≡ declare_of (derivation tree.now)) }
{
    let (_, rest) = parts(&STATEMENT, AT_DECLARATION, tree);
    let (name, rest) = parts(&STATEMENT, AT_DECLARATION_2, rest);
    let (settings, _) = parts(&STATEMENT, AT_DECLARATION_3, rest);
    let name = token(&STATEMENT, AT_TOKEN_NAME, name);
    Ok(Statement::Declare(name, make_settings(alloc, settings)?))
}

fn make_settings(alloc: Global, tree: &Tree) -> Result<Items<Setting>, AllocError>
    requires { Derives STATEMENT AT_OPTIONS (derivation tree.now) }
    ensures { IfOk result (λ ss. ss ≡ settings_of (derivation tree.now)) }
{
    let mut all = Items::new(alloc);
    for option in options(&STATEMENT, AT_OPTIONS, tree) {
        all.push(make_setting(option))?;
    }
    Ok(all)
}

fn make_setting(tree: &Tree) -> Setting
    requires { Derives STATEMENT AT_OPTION (derivation tree.now) }
    ensures { result ≡ setting_of (derivation tree.now) }
{
    match side(&STATEMENT, AT_OPTION, tree) {
        Ok(size) => {
            let (_, name) = parts(&STATEMENT, AT_OPTION_PART_1, size);
            Setting::Size(token(&STATEMENT, AT_TOKEN_NAME, name))
        }
        Err(other) => match side(&STATEMENT, AT_OPTION_2, other) {
            Ok(_) => Setting::Signed,
            Err(note) => {
                let (_, name) = parts(&STATEMENT, AT_OPTION_PART_3, note);
                Setting::Note(token(&STATEMENT, AT_TOKEN_NAME, name))
            }
        },
    }
}
