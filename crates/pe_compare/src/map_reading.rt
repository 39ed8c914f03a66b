//! Reads a text as a map file.

ghost use Rattle.std.specs.Prelude.{◌≡◌, ◌≢◌, ◌↔◌, ℕ, List, IfOk, IfErr};
ghost use Rattle.pe_grammar.specs.Derivation.{Derivation};
ghost use Rattle.pe_grammar.specs.Grammar.{Derives};
ghost use Rattle.pe_grammar.specs.Written.{IsOf, rule};
ghost use Rattle.pe_text.specs.declared.fault.ReadFault.{ReadFault};
ghost use Rattle.pe_text.specs.declared.fault.ReadFault.TheVariants.{Memory};
ghost use Rattle.pe_compare.specs.MapFile.{HasOneTop, HasOneClock};
ghost use Rattle.pe_compare.specs.MapGrammar.{map_grammar};
ghost use Rattle.pe_compare.specs.MapReading.{IsMap, IsMapAnswer, IsMapFault};
ghost use Rattle.pe_compare.specs.declared.map.MapFile.{MapFile};

use crate::map::MapFile;
use crate::map_build::make_map;
use crate::map_table::{AT_MAP, MAP};
use crate::map_terminal::terminals;
use pe_grammar::{Failure, parse};
use pe_reader::{byte_of, few_tokens, one_reading};
use pe_text::{Lang, ReadFault, scan};
use std::alloc::Global;

/// The map file that a text is.
///
/// A text is refused, in this order, where it has more than 16,777,216 bytes (`Limit`), where no token starts (`Syntax`), and
/// where the text before a word or an end of a line can be gone on with and with it it can't (`Syntax`, at the text's length
/// where the last line is too short). A second line `top` or `clock` can't be gone on with from its first word on.
pub fn read_map(alloc: Global, text: &[u8]) -> Result<MapFile, ReadFault>
    // What is answered is what the text spells.
    ensures found { IfOk result (IsMap text.now) }
    // What a text spells is answered, unless memory runs out.
    ensures only { (m : MapFile) → IsMap text.now m → IsMapAnswer m result }
    // A refusal is the first that holds, at its place.
    ensures fault { IfErr result (IsMapFault text.now) }
    ensures top { IfOk result HasOneTop }
    ensures clock { IfOk result HasOneClock }
{
    few_tokens();
    let tokens = match scan(alloc, Lang::Map, text) {
        Ok(tokens) => tokens,
        Err(fault) => return Err(fault),
    };
    let terminals = terminals(alloc, text, tokens.as_slice())?;
    match parse(alloc, &MAP, AT_MAP, terminals.as_slice()) {
        Ok(tree) => Ok(make_map(alloc, text, tokens.as_slice(), &tree)?),
        Err(Failure::Memory) => Err(ReadFault::Memory),
        Err(Failure::Syntax(number)) => {
            let at = byte_of(text, tokens.as_slice(), terminals.as_slice(), number);
            Err(ReadFault::Syntax { at })
        }
    }
}

/// A text spells one map file at most, or is refused in one way, and not both. The table is the grammar as it is written.
pub fn one_map()
    ensures one { (text : List ℕ) (m n : MapFile) → IsMap text m → IsMap text n → m ≡ n }
    ensures not_both { (text : List ℕ) (m : MapFile) (f : ReadFault) → IsMap text m → IsMapFault text f → f ≡ Memory }
    ensures one_fault { (text : List ℕ) (f g : ReadFault) → f ≢ Memory → g ≢ Memory → IsMapFault text f → IsMapFault text g → f ≡ g }
    ensures written { (d : Derivation) → Derives MAP AT_MAP d ↔ IsOf map_grammar (rule 0) d }
{
    one_reading();
}
