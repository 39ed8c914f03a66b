//! From terminals to derivations.

ghost use Rattle.std.specs.Prelude.{◌≡◌, ℕ, Err, IfOk};
ghost use Rattle.pe_grammar.specs.declared.failure.Failure.TheVariants.{Syntax};
ghost use Rattle.pe_grammar.specs.Derivation.{Derivation, derivation};
ghost use Rattle.pe_grammar.specs.Grammar.{IsFault, IsRead, Spells};
ghost use Rattle.pe_verilog_read.specs.Starts.{start_of};
ghost use Rattle.pe_verilog_read.specs.declared.verilog_table.TheConstants.{VERILOG};

use crate::verilog_table::{AT_NETLIST, AT_RTL, VERILOG};
use pe_grammar::{Failure, Token as Terminal, Tree, parse};
use pe_text::Lang;
use std::alloc::Global;

/// The derivation that the terminals of a text of the language have.
pub fn parse_text(alloc: Global, lang: Lang, terminals: &[Terminal]) -> Result<Tree, Failure>
    ensures found { IfOk result (λ t. Spells VERILOG (start_of lang) terminals.now (derivation t)) }
    ensures only { (d : Derivation) → Spells VERILOG (start_of lang) terminals.now d → IsRead d result }
    ensures fault { (at : ℕ) → result ≡ Err (Syntax at) → IsFault VERILOG (start_of lang) terminals.now at }
{
    let start = match lang {
        Lang::Netlist => AT_NETLIST,
        _ => AT_RTL,
    };
    parse(alloc, &VERILOG, start, terminals)
}
