//! Laws on what it is to be read, and to be refused.

ghost use Rattle.std.specs.Prelude.{◌≡◌, ◌≢◌, ◌≤◌, ℕ, List, length};
ghost use Rattle.pe_grammar.specs.Derivation.{Derivation};
ghost use Rattle.pe_grammar.specs.Table.{IsDeterministic};
ghost use Rattle.pe_grammar.specs.declared.form.Entry.{Entry};
ghost use Rattle.pe_grammar.specs.declared.terminal.Token.{Token as Terminal};
ghost use Rattle.pe_text.specs.Scan.{IsScanned};
ghost use Rattle.pe_text.specs.declared.fault.ReadFault.{ReadFault};
ghost use Rattle.pe_text.specs.declared.fault.ReadFault.TheVariants.{Memory};
ghost use Rattle.pe_text.specs.declared.language.Lang.{Lang};
ghost use Rattle.pe_text.specs.declared.token.Token.{Token};
ghost use Rattle.pe_reader.specs.Reading.{IsParsed, IsReadFault};

/// Of every language with a grammar for which one token of look-ahead is enough: a text is read in one way at most, or
/// refused in one way, and not both.
pub fn one_reading()
    ensures one { (language : Lang) (kinds : List ℕ → List Token → List Terminal) (grammar : List Entry) (start : ℕ) (text : List ℕ)
        (tokens others : List Token) (d e : Derivation) → IsDeterministic grammar → IsParsed language kinds grammar start text tokens d
        → IsParsed language kinds grammar start text others e → (tokens ≡ others) × (d ≡ e) }
    ensures not_both { (language : Lang) (kinds : List ℕ → List Token → List Terminal) (grammar : List Entry) (start : ℕ) (text : List ℕ)
        (tokens : List Token) (d : Derivation) (f : ReadFault) → IsParsed language kinds grammar start text tokens d
        → IsReadFault language kinds grammar start text f → f ≡ Memory }
    ensures one_fault { (language : Lang) (kinds : List ℕ → List Token → List Terminal) (grammar : List Entry) (start : ℕ) (text : List ℕ)
        (f g : ReadFault) → f ≢ Memory → g ≢ Memory → IsReadFault language kinds grammar start text f
        → IsReadFault language kinds grammar start text g → f ≡ g }
{}

/// A text that is scanned has no more tokens than it may have bytes.
pub fn few_tokens()
    ensures { (language : Lang) (text : List ℕ) (tokens : List Token) → IsScanned language text tokens → length tokens ≤ 16777216 }
{}
