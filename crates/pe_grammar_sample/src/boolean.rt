//! Boolean expressions, kept as derivations.

ghost use Rattle.std.specs.Prelude.{◌≡◌, ◌↔◌, ℕ, Err, IfOk};
ghost use Rattle.pe_grammar.specs.declared.failure.Failure.TheVariants.{Syntax};
ghost use Rattle.pe_grammar.specs.Derivation.{Derivation, derivation};
ghost use Rattle.pe_grammar.specs.Grammar.{Derives, IsFault, IsRead, Spells};
ghost use Rattle.pe_grammar.specs.Written.{IsOf, rule};
ghost use Rattle.pe_grammar_sample.specs.Boolean.{boolean_grammar};

use crate::boolean_table::{AT_SUM, BOOLEAN};
use pe_grammar::{Failure, Token, Tree, parse};
use std::alloc::Global;

/// The derivation of a sum that the tokens spell.
pub fn read_boolean(alloc: Global, tokens: &[Token]) -> Result<Tree, Failure>
    ensures found { IfOk result (λ t. Spells BOOLEAN AT_SUM tokens.now (derivation t)) }
    ensures only { (d : Derivation) → Spells BOOLEAN AT_SUM tokens.now d → IsRead d result }
    ensures fault { (at : ℕ) → result ≡ Err (Syntax at) → IsFault BOOLEAN AT_SUM tokens.now at }
{
    parse(alloc, &BOOLEAN, AT_SUM, tokens)
}

/// The table is the grammar as it is written.
pub fn one_boolean()
    ensures { (d : Derivation) → Derives BOOLEAN AT_SUM d ↔ IsOf boolean_grammar (rule 0) d }
{}
