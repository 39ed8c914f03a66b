//! The register of a cell.

ghost use Rattle.std.specs.Prelude.{◌≡◌};
ghost use Rattle.pe_cells.specs.Register.{complement_of, active_of, control_of};

use crate::cell::RetentionPin;
use pe_base::{RegisterInputs, Val, kept, not, pick};

/// The value of IQN, where IQ is the visible value of a register with these inputs: corrupt without power, `second` where
/// clear and preset are both active, else the complement of IQ; where controls are corrupt, the merge over what they may be.
pub fn complement(inputs: RegisterInputs, second: Val) -> Val
    ensures { result ≡ complement_of inputs second }
{
    let main = kept(inputs.powered, inputs.main);
    let shadow = kept(inputs.retained, inputs.shadow);
    let restored = pick(inputs.restore, not(main), not(shadow));
    let not_cleared = pick(inputs.preset, restored, Val::Zero);
    let cleared = pick(inputs.preset, Val::One, second);
    kept(inputs.powered, pick(inputs.clear, not_cleared, cleared))
}

/// How far a pin is active that does nothing at its disable value.
fn active(disable: bool, x: Val) -> Val
    ensures { result ≡ active_of disable x }
{
    if disable { not(x) } else { x }
}

/// How far save or restore is active, by the values of the pins; without a pin it is not.
pub fn control(pin: Option<RetentionPin>, values: &[Val]) -> Val
    ensures { result ≡ control_of pin values.now }
{
    match pin {
        Some(pin) => match values.get(pin.pin as usize) {
            Some(x) => active(pin.disable, *x),
            None => Val::Corrupt,
        },
        None => Val::Zero,
    }
}
