//! Names as pins.

ghost use Rattle.std.specs.Prelude.{◌≡◌, ℕ, None, Some, length, true, false, ◌⊎◌, MatchResult};
ghost use Rattle.pe_text.specs.Cut.{AreInOrder};
ghost use Rattle.pe_bool_expr.specs.declared.fault.ExprFault.TheVariants as fault;
ghost use Rattle.pe_bool_expr.specs.Names.{is_known, first_unknown, pin_of as pin_is, pins_for};

use crate::fault::ExprFault;
use pe_base::{Name, place_of};
use pe_text::{Kind, Token, part};
use sqlite_items::Items;
use std::alloc::Global;

/// The pin of a token. A name that is not among the names is refused at `at`. Places past the greatest u32, for whose names
/// no memory would do, are told as want of it.
fn pin_of(names: &[Name], kind: Kind, bytes: &[u8], at: u32) -> Result<u32, ExprFault>
    ensures { MatchResult result
        (λ pin. (is_known names.now kind bytes.now ≡ true) × (pin ≡ pin_is names.now kind bytes.now))
        (λ e. (e ≡ fault.Memory) ⊎ ((e ≡ fault.NoName at) × (is_known names.now kind bytes.now ≡ false))) }
{
    match kind {
        Kind::Word => {}
        Kind::Escaped | Kind::Number | Kind::Text | Kind::Mark | Kind::End => return Ok(0),
    }
    let place = place_of(names, bytes);
    if place == names.len() {
        return Err(ExprFault::NoName { at });
    }
    match u32::try_from(place) {
        Ok(pin) => Ok(pin),
        Err(_) => Err(ExprFault::Memory),
    }
}

/// The pin of each token of a text, or where the first name starts that is not among the names.
pub(crate) fn pins_of(
    alloc: Global,
    names: &[Name],
    text: &[u8],
    tokens: &[Token],
) -> Result<Items<u32>, ExprFault>
    requires order { AreInOrder 0 (length text.now) tokens.now }
    ensures { MatchResult result
        (λ pins. (first_unknown names.now text.now tokens.now ≡ None) × (pins ≡ pins_for names.now text.now tokens.now))
        (λ e. (e ≡ fault.Memory) ⊎ ((at : ℕ) × (e ≡ fault.NoName at) × (first_unknown names.now text.now tokens.now ≡ Some at))) }
{
    let mut pins = Items::new(alloc);
    for token in tokens {
        match pin_of(names, token.kind, part(text, token.span), token.span.from) {
            Ok(pin) => pins.push(pin)?,
            Err(fault) => return Err(fault),
        }
    }
    Ok(pins)
}
