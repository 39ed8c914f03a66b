//! Statements: their syntax tree, and how it is read.

ghost use Rattle.std.specs.Prelude.{◌≡◌, ◌↔◌, ℕ, List, Err, IfOk};
ghost use Rattle.pe_grammar.specs.declared.failure.Failure.TheVariants.{Syntax};
ghost use Rattle.pe_grammar.specs.declared.terminal.Token.{Token};
ghost use Rattle.pe_grammar.specs.Derivation.{Derivation};
ghost use Rattle.pe_grammar.specs.Grammar.{Derives, IsFault};
ghost use Rattle.pe_grammar.specs.Written.{IsOf, rule};
ghost use Rattle.pe_grammar_sample.specs.Meaning.{IsWritten, IsAnswered};
ghost use Rattle.pe_grammar_sample.specs.Statement.{statement_grammar};
ghost use Rattle.pe_grammar_sample.specs.declared.statement.Statement.{Statement};

use crate::build::make_statement;
use crate::statement_table::{AT_STATEMENT, STATEMENT};
use pe_grammar::{Failure, Token, parse};
use sqlite_items::{Boxed, Items};
use std::alloc::Global;

/// A statement.
#[derive(Drop)]
pub enum Statement {
    /// Statements in their order.
    Block(Items<Statement>),
    /// A name, a statement for where it holds, and perhaps one for where it does not.
    Test(Token, Boxed<Statement>, Option<Boxed<Statement>>),
    /// A name, and the names that are assigned to it.
    Assign(Token, Items<Token>),
    /// A name, and its settings in their order.
    Declare(Token, Items<Setting>),
    Nothing,
}

/// A setting of a declared name.
#[derive(Clone, Copy)]
pub enum Setting {
    Size(Token),
    Signed,
    Note(Token),
}

/// The statement that the tokens spell.
pub fn read_statement(alloc: Global, tokens: &[Token]) -> Result<Statement, Failure>
    // What is read is spelled so.
    ensures found { IfOk result (λ s. IsWritten s tokens.now) }
    // What is spelled so is read, unless memory runs out.
    ensures only { (s : Statement) → IsWritten s tokens.now → IsAnswered s result }
    // A fault stands at the first token with which no text goes on.
    ensures fault { (at : ℕ) → result ≡ Err (Syntax at) → IsFault STATEMENT AT_STATEMENT tokens.now at }
{
    let tree = parse(alloc, &STATEMENT, AT_STATEMENT, tokens)?;
    make_statement(alloc, &tree).map_err(|_| Failure::Memory)
}

/// No tokens are spelled by two statements, and the table is the grammar as it is written.
pub fn one_statement()
    ensures one { (tokens : List Token) (s t : Statement) → IsWritten s tokens → IsWritten t tokens → s ≡ t }
    ensures written { (d : Derivation) → Derives STATEMENT AT_STATEMENT d ↔ IsOf statement_grammar (rule 0) d }
{}
