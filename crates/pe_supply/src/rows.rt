//! Whether a row of the power state table holds.

ghost use Rattle.std.specs.Prelude.{◌≡◌};
ghost use Rattle.pe_supply.specs.Rows.{allows, is_on, row_holds};

use crate::supplies::{Level, Row};

/// Whether a supply may be in the state at that level.
fn allows(level: Level, on: bool) -> bool
    ensures { result ≡ allows level on }
{
    match level {
        Level::On => on,
        Level::Off => !on,
        Level::Any => true,
    }
}

/// The state of a supply; one without a state is off.
fn is_on(states: &[bool], supply: u32) -> bool
    ensures { result ≡ is_on states.now supply }
{
    match states.get(supply as usize) {
        Some(on) => *on,
        None => false,
    }
}

/// Whether the row holds in these states: each supply of the table is on where the row has it on, off where it has it off,
/// and in either state where it has any.
pub fn holds(table: &[u32], row: &Row, states: &[bool]) -> bool
    ensures { result ≡ row_holds row.now.levels table.now states.now }
{
    let levels = row.levels.as_slice();
    for (i, supply) in table.iter().enumerate() {
        match levels.get(i) {
            Some(level) => {
                if !allows(*level, is_on(states, *supply)) {
                    return false;
                }
            }
            None => return true,
        }
    }
    true
}
