//! Reads a UPF text.

ghost use Rattle.std.specs.Prelude.{◌≡◌, ◌≢◌, ◌≤◌, ◌↔◌, ℕ, List, length, IfOk, IfErr, MatchResult, true};
ghost use Rattle.std.specs.List.{All};
ghost use Rattle.pe_grammar.specs.Derivation.{Derivation};
ghost use Rattle.pe_grammar.specs.Grammar.{Derives};
ghost use Rattle.pe_grammar.specs.Written.{IsOf, rule};
ghost use Rattle.pe_text.specs.Lexemes.{IsPartOf};
ghost use Rattle.pe_text.specs.Scan.{IsScanned};
ghost use Rattle.pe_text.specs.declared.fault.ReadFault.{ReadFault};
ghost use Rattle.pe_text.specs.declared.fault.ReadFault.TheVariants.{Memory};
ghost use Rattle.pe_text.specs.declared.language.Lang.TheVariants.{Upf};
ghost use Rattle.pe_grammar.specs.declared.terminal.Token.{Token as Terminal};
ghost use Rattle.pe_text.specs.declared.token.Token.{Token as Cut};
ghost use Rattle.pe_upf_read.specs.declared.intent.Command.{Command as Said};
ghost use Rattle.pe_upf_read.specs.declared.intent.Intent.{Intent};
ghost use Rattle.pe_upf_read.specs.Format.{IsSetByFormat, IsSetByGrammar};
ghost use Rattle.pe_upf_read.specs.Options.{has};
ghost use Rattle.pe_upf_read.specs.Parts.{each};
ghost use Rattle.pe_reader.specs.Places.{byte_of};
ghost use Rattle.pe_reader.specs.Reading.{IsSyntaxFault};
ghost use Rattle.pe_upf_read.specs.Spelling.{IsUpf, IsUpfFault, IsAnswer};
ghost use Rattle.pe_upf_read.specs.Terminals.{terminals_of};
ghost use Rattle.pe_upf_read.specs.UpfGrammar.{upf_grammar};

use crate::build::make_intent;
use crate::intent::Intent;
use crate::table::{
    AT_FILE, AT_ISOLATION_OPTIONS, AT_RETENTION_OPTIONS, AT_ROW_OPTIONS, AT_SWITCH_OPTIONS, DOMAIN,
    INPUT_SUPPLY_PORT, ON_STATE, OUTPUT_SUPPLY_PORT, PST, STATE, UPF,
};
use crate::terminals::terminals;
use pe_grammar::{Failure, parse};
use pe_reader::byte_of;
use pe_text::{Lang, ReadFault, Token, scan};
use std::alloc::Global;

/// The tree that the tokens of a text spell.
fn read_tokens(alloc: Global, text: &[u8], tokens: &[Token]) -> Result<Intent, ReadFault>
    requires scanned { IsScanned Upf text.now tokens.now }
    requires parts { All (IsPartOf (length text.now)) tokens.now }
    requires short { length text.now ≤ 16777216 }
    requires few { length tokens.now ≤ 16777216 }
    ensures { MatchResult result (λ intent. IsUpf text.now intent) (λ f. IsSyntaxFault Upf terminals_of UPF AT_FILE text.now f) }
{
    let terminals = terminals(alloc, text, tokens)?;
    match parse(alloc, &UPF, AT_FILE, terminals.as_slice()) {
        Ok(tree) => {
            let intent = make_intent(alloc, text, tokens, &tree)?;
            Ok(intent)
        }
        Err(Failure::Memory) => Err(ReadFault::Memory),
        Err(Failure::Syntax(number)) => {
            let at = byte_of(text, tokens, terminals.as_slice(), number);
            Err(ReadFault::Syntax { at })
        }
    }
}

/// The tree that a UPF text spells.
///
/// A text is refused, in this order, where it has more than 16,777,216 bytes (`Limit` at that byte), where a token is bad
/// (`Syntax` there), at its first word that is left out (`Unsupported`), at the first brace with which over 64 are open or
/// the first expression of a switch's state that has over 10 different names (`Limit`), and at the first token with which no
/// text goes on, or at its end (`Syntax`).
pub fn read_upf(alloc: Global, text: &[u8]) -> Result<Intent, ReadFault>
    // What is answered is what the text spells.
    ensures found { IfOk result (IsUpf text.now) }
    // What a text spells is answered, unless memory runs out.
    ensures only { (intent : Intent) → IsUpf text.now intent → IsAnswer intent result }
    // A refusal is the first that holds, at its place.
    ensures fault { IfErr result (IsUpfFault text.now) }
{
    match scan(alloc, Lang::Upf, text) {
        Ok(tokens) => {
            let answer = read_tokens(alloc, text, tokens.as_slice());
            answer
        }
        Err(fault) => Err(fault),
    }
}

/// A text spells one tree at most, or has one fault and spells none. The table is the grammar as it is written.
pub fn one_upf()
    ensures one { (text : List ℕ) (x y : Intent) → IsUpf text x → IsUpf text y → x ≡ y }
    ensures not_both { (text : List ℕ) (x : Intent) (f : ReadFault) → IsUpf text x → IsUpfFault text f → f ≡ Memory }
    ensures one_fault { (text : List ℕ) (f g : ReadFault) → IsUpfFault text f → IsUpfFault text g → f ≢ Memory → g ≢ Memory → f ≡ g }
    ensures written { (d : Derivation) → Derives UPF AT_FILE d ↔ IsOf upf_grammar (rule 0) d }
{}

/// The options that a command has to have are found in each of its texts.
pub fn needed_options()
    ensures switch { (d : Derivation) → Derives UPF AT_SWITCH_OPTIONS d → (has OUTPUT_SUPPLY_PORT (each d) ≡ true) × (has INPUT_SUPPLY_PORT (each d) ≡ true) × (has ON_STATE (each d) ≡ true) }
    ensures row { (d : Derivation) → Derives UPF AT_ROW_OPTIONS d → (has PST (each d) ≡ true) × (has STATE (each d) ≡ true) }
    ensures isolation { (d : Derivation) → Derives UPF AT_ISOLATION_OPTIONS d → has DOMAIN (each d) ≡ true }
    ensures retention { (d : Derivation) → Derives UPF AT_RETENTION_OPTIONS d → has DOMAIN (each d) ≡ true }
{}

/// The options `-function` of a supply set: the grammar, which tells them apart by their next token, has just the lists of
/// them that the rule of the format has, one for power and one for ground in any order, each at most once, and gives each list
/// the same power and the same ground.
pub fn function_law()
    ensures by_rule { (text : List ℕ) (tokens : List Cut) (name : List ℕ) (ts : List Terminal) (c : Said) → IsSetByGrammar text tokens name ts c ↔ IsSetByFormat text tokens name ts c }
{}
