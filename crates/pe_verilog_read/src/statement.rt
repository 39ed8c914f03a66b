//! From derivations to statements, rule by rule.

ghost use Rattle.std.specs.Prelude.{◌≡◌, false, true, IfOk};
ghost use Rattle.pe_grammar.specs.Derivation.{derivation};
ghost use Rattle.pe_grammar.specs.Grammar.{Derives};
ghost use Rattle.pe_verilog_read.specs.Arms.{AreArms, labels_at};
ghost use Rattle.pe_verilog_read.specs.Expressions.{list_of};
ghost use Rattle.pe_verilog_read.specs.Statements.{assignment_of, statement_of, block_of, label_of, test_of, otherwise_of, cases_of, arms_of, arm_of, labelled_of, default_of};
ghost use Rattle.pe_verilog_read.specs.Words.{word_at};

use crate::leaf::leaf;
use crate::target::make_target;
use crate::verilog_table::{
    AT_ARM, AT_ARMS, AT_ARMS_PART_2, AT_ASSIGNMENT, AT_ASSIGNMENT_2, AT_ASSIGNMENT_3, AT_BLOCK,
    AT_BLOCK_2, AT_BLOCK_3, AT_BLOCK_PART_2, AT_BLOCK_PART_2_PART_1, AT_BLOCK_PART_3, AT_CASES,
    AT_CASES_2, AT_CASES_3, AT_DEFAULT, AT_DEFAULT_2, AT_LABELLED, AT_LABELLED_2, AT_OTHERWISE,
    AT_STATEMENT, AT_STATEMENT_2, AT_STATEMENT_3, AT_STATEMENT_4, AT_STATEMENT_5, AT_TEST,
    AT_TEST_2, AT_TEST_3, AT_WILD_ARM, AT_WILD_ARMS, AT_WILD_ARMS_PART_2, AT_WILD_CASES,
    AT_WILD_CASES_2, AT_WILD_CASES_3, AT_WILD_LABELLED, EQUALS, VERILOG,
};
use crate::whole::{expression, expressions, group, labels};
use crate::words::name;
use pe_base::Name;
use pe_grammar::{Tree, clause, items, parts, side};
use pe_text::Token;
use pe_verilog_ast::{Arm, Ex, Stmt};
use sqlite_items::{Boxed, Items};
use std::alloc::{AllocError, Global};

/// The places of the rules of a case's arms.
#[derive(Clone, Copy)]
pub(crate) struct Arms {
    pub(crate) wild: bool,
    pub(crate) arms: u16,
    pub(crate) others: u16,
    pub(crate) arm: u16,
    pub(crate) labelled: u16,
}

/// The arms of `case`.
fn plain_arms() -> Arms
    ensures arms { AreArms VERILOG result }
    ensures place { result.arms ≡ AT_ARMS }
{
    Arms {
        wild: false,
        arms: AT_ARMS,
        others: AT_ARMS_PART_2,
        arm: AT_ARM,
        labelled: AT_LABELLED,
    }
}

/// The arms of `casez`.
fn wild_arms() -> Arms
    ensures arms { AreArms VERILOG result }
    ensures place { result.arms ≡ AT_WILD_ARMS }
{
    Arms {
        wild: true,
        arms: AT_WILD_ARMS,
        others: AT_WILD_ARMS_PART_2,
        arm: AT_WILD_ARM,
        labelled: AT_WILD_LABELLED,
    }
}

/// A statement that assigns.
fn make_assignment(
    alloc: Global,
    text: &[u8],
    tokens: &[Token],
    tree: &Tree,
) -> Result<Stmt, AllocError>
    requires { Derives VERILOG AT_ASSIGNMENT (derivation tree.now) }
    ensures { IfOk result (λ s. s ≡ assignment_of (word_at text.now tokens.now) (derivation tree.now)) }
{
    let (target, rest) = parts(&VERILOG, AT_ASSIGNMENT, tree);
    let (mark, rest) = parts(&VERILOG, AT_ASSIGNMENT_2, rest);
    let (value, _) = parts(&VERILOG, AT_ASSIGNMENT_3, rest);
    let target = make_target(alloc, text, tokens, target)?;
    let blocking = leaf(mark).kind == EQUALS;
    let value = expression(alloc, text, tokens, value)?;
    Ok(Stmt::Assign {
        target,
        blocking,
        value,
    })
}

/// The name of a block, if it has one.
fn make_label(
    alloc: Global,
    text: &[u8],
    tokens: &[Token],
    tree: &Tree,
) -> Result<Option<Name>, AllocError>
    requires { Derives VERILOG AT_BLOCK_PART_2 (derivation tree.now) }
    ensures { IfOk result (λ n. n ≡ label_of (word_at text.now tokens.now) (derivation tree.now)) }
{
    match side(&VERILOG, AT_BLOCK_PART_2, tree) {
        Ok(labelled) => {
            let (_, label) = parts(&VERILOG, AT_BLOCK_PART_2_PART_1, labelled);
            let name = name(alloc, text, tokens, leaf(label).place)?;
            Ok(Some(name))
        }
        Err(_) => Ok(None),
    }
}

/// The labels of an arm.
fn make_labels(
    alloc: Global,
    text: &[u8],
    tokens: &[Token],
    wild: bool,
    tree: &Tree,
) -> Result<Items<Ex>, AllocError>
    requires { Derives VERILOG (labels_at wild) (derivation tree.now) }
    ensures { IfOk result (λ es. es ≡ list_of (word_at text.now tokens.now) (derivation tree.now)) }
{
    if wild {
        labels(alloc, text, tokens, tree)
    } else {
        expressions(alloc, text, tokens, tree)
    }
}

/// A statement.
#[cycle(statements)]
pub(crate) fn make_statement(
    alloc: Global,
    text: &[u8],
    tokens: &[Token],
    tree: &Tree,
) -> Result<Stmt, AllocError>
    requires { Derives VERILOG AT_STATEMENT (derivation tree.now) }
    ensures { IfOk result (λ s. s ≡ statement_of (word_at text.now tokens.now) (derivation tree.now)) }
{
    match side(&VERILOG, AT_STATEMENT, tree) {
        Ok(block) => make_block(alloc, text, tokens, block),
        Err(other) => match side(&VERILOG, AT_STATEMENT_2, other) {
            Ok(test) => make_test(alloc, text, tokens, test),
            Err(other) => match side(&VERILOG, AT_STATEMENT_3, other) {
                Ok(cases) => make_cases(alloc, text, tokens, cases),
                Err(other) => match side(&VERILOG, AT_STATEMENT_4, other) {
                    Ok(cases) => make_wild_cases(alloc, text, tokens, cases),
                    Err(other) => match side(&VERILOG, AT_STATEMENT_5, other) {
                        Ok(assignment) => make_assignment(alloc, text, tokens, assignment),
                        Err(_) => Ok(Stmt::Empty),
                    },
                },
            },
        },
    }
}

/// `begin .. end`
#[cycle(statements)]
fn make_block(alloc: Global, text: &[u8], tokens: &[Token], tree: &Tree) -> Result<Stmt, AllocError>
    requires { Derives VERILOG AT_BLOCK (derivation tree.now) }
    ensures { IfOk result (λ s. s ≡ block_of (word_at text.now tokens.now) (derivation tree.now)) }
{
    let (_, rest) = parts(&VERILOG, AT_BLOCK, tree);
    let (label, rest) = parts(&VERILOG, AT_BLOCK_2, rest);
    let (list, _) = parts(&VERILOG, AT_BLOCK_3, rest);
    let mut body = Items::new(alloc);
    for item in items(&VERILOG, AT_BLOCK_PART_3, list) {
        body.push(make_statement(alloc, text, tokens, item)?)?;
    }
    let name = make_label(alloc, text, tokens, label)?;
    Ok(Stmt::Block { name, body })
}

/// `if`
#[cycle(statements)]
fn make_test(alloc: Global, text: &[u8], tokens: &[Token], tree: &Tree) -> Result<Stmt, AllocError>
    requires { Derives VERILOG AT_TEST (derivation tree.now) }
    ensures { IfOk result (λ s. s ≡ test_of (word_at text.now tokens.now) (derivation tree.now)) }
{
    let (_, rest) = parts(&VERILOG, AT_TEST, tree);
    let (cond, rest) = parts(&VERILOG, AT_TEST_2, rest);
    let (yes, tail) = parts(&VERILOG, AT_TEST_3, rest);
    let cond = group(alloc, text, tokens, cond)?;
    let yes = Boxed::new(alloc, make_statement(alloc, text, tokens, yes)?)?;
    let no = make_otherwise(alloc, text, tokens, tail)?;
    Ok(Stmt::If { cond, yes, no })
}

/// `else`, if it is there
#[cycle(statements)]
fn make_otherwise(
    alloc: Global,
    text: &[u8],
    tokens: &[Token],
    tree: &Tree,
) -> Result<Option<Boxed<Stmt>>, AllocError>
    requires { Derives VERILOG AT_OTHERWISE (derivation tree.now) }
    ensures { IfOk result (λ s. s ≡ otherwise_of (word_at text.now tokens.now) (derivation tree.now)) }
{
    match clause(&VERILOG, AT_OTHERWISE, tree) {
        Some((_, body)) => Ok(Some(Boxed::new(alloc, make_statement(alloc, text, tokens, body)?)?)),
        None => Ok(None),
    }
}

/// `case`
#[cycle(statements)]
fn make_cases(alloc: Global, text: &[u8], tokens: &[Token], tree: &Tree) -> Result<Stmt, AllocError>
    requires { Derives VERILOG AT_CASES (derivation tree.now) }
    ensures { IfOk result (λ s. s ≡ cases_of (word_at text.now tokens.now) false (derivation tree.now)) }
{
    let (_, rest) = parts(&VERILOG, AT_CASES, tree);
    let (subject, rest) = parts(&VERILOG, AT_CASES_2, rest);
    let (list, _) = parts(&VERILOG, AT_CASES_3, rest);
    let subject = group(alloc, text, tokens, subject)?;
    let arms = make_arms(alloc, text, tokens, &plain_arms(), list)?;
    Ok(Stmt::Case {
        wild: false,
        subject,
        arms,
    })
}

/// `casez`
#[cycle(statements)]
fn make_wild_cases(
    alloc: Global,
    text: &[u8],
    tokens: &[Token],
    tree: &Tree,
) -> Result<Stmt, AllocError>
    requires { Derives VERILOG AT_WILD_CASES (derivation tree.now) }
    ensures { IfOk result (λ s. s ≡ cases_of (word_at text.now tokens.now) true (derivation tree.now)) }
{
    let (_, rest) = parts(&VERILOG, AT_WILD_CASES, tree);
    let (subject, rest) = parts(&VERILOG, AT_WILD_CASES_2, rest);
    let (list, _) = parts(&VERILOG, AT_WILD_CASES_3, rest);
    let subject = group(alloc, text, tokens, subject)?;
    let arms = make_arms(alloc, text, tokens, &wild_arms(), list)?;
    Ok(Stmt::Case {
        wild: true,
        subject,
        arms,
    })
}

/// One or more arms.
#[cycle(statements)]
fn make_arms(
    alloc: Global,
    text: &[u8],
    tokens: &[Token],
    rules: &Arms,
    tree: &Tree,
) -> Result<Items<Arm>, AllocError>
    requires arms { AreArms VERILOG rules.now }
    requires derives { Derives VERILOG rules.now.arms (derivation tree.now) }
    ensures { IfOk result (λ a. a ≡ arms_of (word_at text.now tokens.now) (derivation tree.now)) }
{
    let (first, rest) = parts(&VERILOG, rules.arms, tree);
    let mut all = Items::new(alloc);
    all.push(make_arm(alloc, text, tokens, rules, first)?)?;
    for next in items(&VERILOG, rules.others, rest) {
        all.push(make_arm(alloc, text, tokens, rules, next)?)?;
    }
    Ok(all)
}

/// An arm.
#[cycle(statements)]
fn make_arm(
    alloc: Global,
    text: &[u8],
    tokens: &[Token],
    rules: &Arms,
    tree: &Tree,
) -> Result<Arm, AllocError>
    requires arms { AreArms VERILOG rules.now }
    requires derives { Derives VERILOG rules.now.arm (derivation tree.now) }
    ensures { IfOk result (λ a. a ≡ arm_of (word_at text.now tokens.now) (derivation tree.now)) }
{
    match side(&VERILOG, rules.arm, tree) {
        Ok(labelled) => make_labelled(alloc, text, tokens, rules, labelled),
        Err(default) => make_default(alloc, text, tokens, default),
    }
}

/// An arm with labels.
#[cycle(statements)]
fn make_labelled(
    alloc: Global,
    text: &[u8],
    tokens: &[Token],
    rules: &Arms,
    tree: &Tree,
) -> Result<Arm, AllocError>
    requires arms { AreArms VERILOG rules.now }
    requires derives { Derives VERILOG rules.now.labelled (derivation tree.now) }
    ensures { IfOk result (λ a. a ≡ labelled_of (word_at text.now tokens.now) (derivation tree.now)) }
{
    let (list, rest) = parts(&VERILOG, rules.labelled, tree);
    let (_, body) = parts(&VERILOG, AT_LABELLED_2, rest);
    let labels = make_labels(alloc, text, tokens, rules.wild, list)?;
    let body = make_statement(alloc, text, tokens, body)?;
    Ok(Arm { labels, body })
}

/// The arm for what no label equals.
#[cycle(statements)]
fn make_default(
    alloc: Global,
    text: &[u8],
    tokens: &[Token],
    tree: &Tree,
) -> Result<Arm, AllocError>
    requires { Derives VERILOG AT_DEFAULT (derivation tree.now) }
    ensures { IfOk result (λ a. a ≡ default_of (word_at text.now tokens.now) (derivation tree.now)) }
{
    let (_, rest) = parts(&VERILOG, AT_DEFAULT, tree);
    let (_, body) = parts(&VERILOG, AT_DEFAULT_2, rest);
    let labels = Items::new(alloc);
    let body = make_statement(alloc, text, tokens, body)?;
    Ok(Arm { labels, body })
}
