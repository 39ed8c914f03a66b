//! The law of a register with clear, preset and retention, and of isolation (IEEE 1801).

ghost use Rattle.std.specs.Prelude.{◌≡◌};
ghost use Rattle.pe_base.specs.Registers.{kept_of, main_of, shadow_of, chosen_of, visible_of, edge_of, next_main_of, next_shadow_of, isolated_of};

use crate::value::{Val, known, merge, pick};

/// What the law of a register reads in a cycle.
#[derive(Clone, Copy, Debug, PartialEq, Eq)]
pub struct RegisterInputs {
    /// The register has power.
    pub powered: bool,
    /// Its shadow has power.
    pub retained: bool,
    pub clear: Val,
    pub preset: Val,
    pub restore: Val,
    pub save: Val,
    /// The value while clear and preset are both active.
    pub both: Val,
    /// The data.
    pub d: Val,
    /// The clock pin before the edge, and after it.
    pub before: Val,
    pub after: Val,
    /// The state, and that of the shadow.
    pub main: Val,
    pub shadow: Val,
}

/// The visible value.
pub fn visible(inputs: RegisterInputs) -> Val
    ensures { result ≡ visible_of inputs }
{
    kept(inputs.powered, chosen(inputs, held(inputs)))
}

/// The next main state.
pub fn next_main(inputs: RegisterInputs) -> Val
    ensures { result ≡ next_main_of inputs }
{
    let edge = edge(inputs.d, held(inputs), inputs.before, inputs.after);
    kept(inputs.powered, chosen(inputs, edge))
}

/// The next state of the shadow.
pub fn next_shadow(inputs: RegisterInputs) -> Val
    ensures { result ≡ next_shadow_of inputs }
{
    let saved = pick(inputs.save, shadowed(inputs), visible(inputs));
    kept(inputs.retained, saved)
}

/// What isolation passes on: corrupt without its supply and under a corrupt enable, the clamp value where the enable
/// has the value of the active sense, else the data.
pub fn isolated(on: bool, enable: Val, sense: bool, clamp: bool, x: Val) -> Val
    ensures { result ≡ isolated_of on enable sense clamp x }
{
    if !on {
        return Val::Corrupt;
    }
    match enable {
        Val::Corrupt => Val::Corrupt,
        Val::One => { if sense { known(clamp) } else { x } }
        Val::Zero => { if sense { x } else { known(clamp) } }
    }
}

/// The value where there is power, and corrupt without.
pub fn kept(on: bool, x: Val) -> Val
    ensures { result ≡ kept_of on x }
{
    if on { x } else { Val::Corrupt }
}

fn held(inputs: RegisterInputs) -> Val
    ensures { result ≡ main_of inputs }
{
    kept(inputs.powered, inputs.main)
}

fn shadowed(inputs: RegisterInputs) -> Val
    ensures { result ≡ shadow_of inputs }
{
    kept(inputs.retained, inputs.shadow)
}

// What clear, preset and restore choose, and `otherwise` where none is active.
fn chosen(inputs: RegisterInputs, otherwise: Val) -> Val
    ensures { result ≡ chosen_of inputs otherwise }
{
    let restored = pick(inputs.restore, otherwise, shadowed(inputs));
    let not_cleared = pick(inputs.preset, restored, Val::One);
    let cleared = pick(inputs.preset, Val::Zero, inputs.both);
    pick(inputs.clear, not_cleared, cleared)
}

// What the clock's edge makes of the data and of what is held.
fn edge(d: Val, held: Val, before: Val, after: Val) -> Val
    ensures { result ≡ edge_of d held before after }
{
    match (before, after) {
        (Val::Zero, Val::One) => d,
        (Val::One, Val::Zero) => Val::Corrupt,
        (Val::Zero, Val::Zero) | (Val::One, Val::One) => held,
        _ => merge(d, held),
    }
}
