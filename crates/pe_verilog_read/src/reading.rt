//! Reads a text of Verilog.

ghost use Rattle.std.specs.Prelude.{◌≡◌, ◌≢◌, ◌⊎◌, ◌≤◌, ◌↔◌, ℕ, List, length, IfOk, IfErr, MatchResult};
ghost use Rattle.std.specs.List.{All};
ghost use Rattle.pe_grammar.specs.Derivation.{Derivation, derivation};
ghost use Rattle.pe_grammar.specs.Grammar.{Derives};
ghost use Rattle.pe_grammar.specs.Written.{IsOf, rule};
ghost use Rattle.pe_text.specs.Lexemes.{IsPartOf};
ghost use Rattle.pe_text.specs.Scan.{IsScanned};
ghost use Rattle.pe_text.specs.declared.fault.ReadFault.{ReadFault};
ghost use Rattle.pe_text.specs.declared.fault.ReadFault.TheVariants.{Memory};
ghost use Rattle.pe_text.specs.declared.language.Lang.{Lang};
ghost use Rattle.pe_text.specs.declared.language.Lang.TheVariants.{Rtl, Netlist};
ghost use Rattle.pe_verilog_ast.specs.declared.module.Source.{Source};
ghost use Rattle.pe_verilog_read.specs.Modules.{source_of};
ghost use Rattle.pe_verilog_read.specs.Reading.{is_net, IsSpelled, IsMisspelled, IsVerilog, IsVerilogFault, IsAnswer};
ghost use Rattle.pe_verilog_read.specs.Starts.{start_of};
ghost use Rattle.pe_verilog_read.specs.VerilogGrammar.{verilog_grammar};
ghost use Rattle.pe_verilog_read.specs.Words.{word_at};

use crate::module::make_source;
use crate::parsing::parse_text;
use crate::plain::{netlist, rtl};
use crate::terminal::terminals;
use crate::verilog_table::{AT_NETLIST, AT_RTL, VERILOG};
use pe_grammar::{Failure, Tree};
use pe_reader::{byte_of, few_tokens};
use pe_text::{Lang, ReadFault, Token, scan};
use pe_verilog_ast::Source;
use std::alloc::{AllocError, Global};

/// The tree of a derivation.
fn build(
    alloc: Global,
    lang: Lang,
    text: &[u8],
    tokens: &[Token],
    tree: &Tree,
) -> Result<Source, AllocError>
    requires { Derives VERILOG (start_of lang) (derivation tree.now) }
    ensures { IfOk result (λ s. s ≡ source_of (word_at text.now tokens.now) (is_net lang) (derivation tree.now)) }
{
    match lang {
        Lang::Netlist => make_source(alloc, text, tokens, &netlist(), tree),
        Lang::Rtl => make_source(alloc, text, tokens, &rtl(), tree),
        Lang::Upf => make_source(alloc, text, tokens, &rtl(), tree),
        Lang::Liberty => make_source(alloc, text, tokens, &rtl(), tree),
        Lang::Map => make_source(alloc, text, tokens, &rtl(), tree),
    }
}

/// The tree that the tokens of a text spell.
fn read_tokens(
    alloc: Global,
    lang: Lang,
    text: &[u8],
    tokens: &[Token],
) -> Result<Source, ReadFault>
    requires scanned { IsScanned lang text.now tokens.now }
    requires parts { All (IsPartOf (length text.now)) tokens.now }
    requires few { length tokens.now ≤ 16777216 }
    ensures { MatchResult result (IsSpelled lang text.now tokens.now) (IsMisspelled lang text.now tokens.now) }
{
    let terminals = terminals(alloc, text, tokens)?;
    match parse_text(alloc, lang, terminals.as_slice()) {
        Ok(tree) => {
            let source = build(alloc, lang, text, tokens, &tree)?;
            Ok(source)
        }
        Err(Failure::Memory) => Err(ReadFault::Memory),
        Err(Failure::Syntax(number)) => {
            let at = byte_of(text, tokens, terminals.as_slice(), number);
            Err(ReadFault::Syntax { at })
        }
    }
}

/// The tree that a text spells, or why it spells none.
fn read(alloc: Global, lang: Lang, text: &[u8]) -> Result<Source, ReadFault>
    ensures { MatchResult result (IsVerilog lang text.now) (IsVerilogFault lang text.now) }
{
    few_tokens();
    match scan(alloc, lang, text) {
        Ok(tokens) => read_tokens(alloc, lang, text, tokens.as_slice()),
        Err(fault) => Err(fault),
    }
}

/// The tree that a text of RTL or of a netlist spells.
///
/// A text is refused as `scan` refuses it, and then for its grammar: `Syntax` is at the first token with which no text goes
/// on, or at the text's end where more has to follow.
pub fn read_verilog(alloc: Global, lang: Lang, text: &[u8]) -> Result<Source, ReadFault>
    requires { (lang ≡ Rtl) ⊎ (lang ≡ Netlist) }
    // What is answered is what the text spells.
    ensures found { IfOk result (IsVerilog lang text.now) }
    // What a text spells is answered, unless memory runs out.
    ensures only { (s : Source) → IsVerilog lang text.now s → IsAnswer s result }
    // A refusal is the first that holds, at its place.
    ensures fault { IfErr result (IsVerilogFault lang text.now) }
{
    read(alloc, lang, text)
}

/// A text spells one tree at most, or is refused in one way, and not both; and the table is the grammar as it is written, of
/// RTL and of netlists.
pub fn one_source()
    ensures one { (language : Lang) (text : List ℕ) (s t : Source) → IsVerilog language text s → IsVerilog language text t → s ≡ t }
    ensures not_both { (language : Lang) (text : List ℕ) (s : Source) (f : ReadFault) → IsVerilog language text s → IsVerilogFault language text f → f ≡ Memory }
    ensures one_fault { (language : Lang) (text : List ℕ) (f g : ReadFault) → f ≢ Memory → g ≢ Memory → IsVerilogFault language text f → IsVerilogFault language text g → f ≡ g }
    ensures written_rtl { (d : Derivation) → Derives VERILOG AT_RTL d ↔ IsOf verilog_grammar (rule 0) d }
    ensures written_netlist { (d : Derivation) → Derives VERILOG AT_NETLIST d ↔ IsOf verilog_grammar (rule 1) d }
{}
