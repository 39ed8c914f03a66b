//! Grammars as they are written.

ghost use Rattle.std.specs.Prelude.{◌≡◌, ◌↔◌, ℕ, List, true};
ghost use Rattle.pe_grammar.specs.declared.form.Entry.{Entry};
ghost use Rattle.pe_grammar.specs.Derivation.{Derivation};
ghost use Rattle.pe_grammar.specs.Grammar.{Derives};
ghost use Rattle.pe_grammar.specs.Written.{Written, IsOf};
ghost use Rattle.pe_grammar.specs.Stands.{stands, rules_from};

/// Where the test finds a table to be a grammar as it is written, the two have the same derivations.
pub fn one_grammar()
    ensures { (g : List Entry) (rs : List Written) → rules_from g rs 0 rs ≡ true → (n : ℕ) (e : Written) → stands g rs n e ≡ true → (d : Derivation) → Derives g n d ↔ IsOf rs e d }
{}
