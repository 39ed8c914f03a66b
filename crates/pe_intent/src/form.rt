//! Whether an intent is of the form with one domain, and which module it names as the top.

ghost use Rattle.std.specs.Prelude.{◌≡◌};
ghost use Rattle.std.specs.List.{list_any};
ghost use Rattle.std.specs.Option.{option_copied};
ghost use Rattle.pe_intent.specs.Domain.{is_left_out, top_in, top_of, holds_top, is_one_domain, has_top_alone};

use crate::domain::{are_top, domain_of, has_top};
use crate::function::Function;
use crate::primary::has_primary;
use pe_base::Name;
use pe_upf_read::{Command, Intent};

/// Whether a command is of a switch, of isolation or of retention.
fn is_left_out(command: &Command) -> bool
    ensures { result ≡ is_left_out command.now }
{
    matches!(
        command,
        Command::CreatePowerSwitch { .. }
            | Command::SetIsolation { .. }
            | Command::SetRetention { .. }
    )
}

/// Whether some command is of a switch, of isolation or of retention.
fn has_left_out(commands: &[Command]) -> bool
    ensures { result ≡ list_any is_left_out commands.now }
{
    commands.iter().any(|command| is_left_out(command))
}

/// The module that a command names as the design's top.
fn top_in(command: &Command) -> Option<&Name>
    ensures { option_copied result ≡ top_in command.now }
{
    match command {
        Command::SetDesignTop(top) => Some(top),
        _ => None,
    }
}

/// The module that an intent names as the design's top: that of the first `set_design_top`, or none where there is none.
pub fn top(intent: &Intent) -> Option<&Name>
    ensures { option_copied result ≡ top_of intent.now.commands }
{
    for command in intent.commands.as_slice() {
        if let Some(top) = top_in(command) {
            return Some(top);
        }
    }
    None
}

/// Whether the one domain holds the top.
fn holds_top(commands: &[Command]) -> bool
    ensures { result ≡ holds_top commands.now }
{
    match domain_of(commands) {
        Some(domain) => has_top(&domain),
        None => false,
    }
}

/// Whether an intent is of the form with one domain: it has no `create_power_switch`, `set_isolation` or `set_retention`,
/// and just one `create_power_domain`. That domain holds the top, by `-include_scope` or the element `.`, and has a primary
/// power and a primary ground: by `-supply {primary SET}`, where the supply set has such a net, or by `set_domain_supply_net`.
pub fn is_one_domain(intent: &Intent) -> bool
    ensures { result ≡ is_one_domain intent.now }
{
    let commands = intent.commands.as_slice();
    if has_left_out(commands) {
        return false;
    }
    if !holds_top(commands) {
        return false;
    }
    has_primary(commands, Function::Power) && has_primary(commands, Function::Ground)
}

/// Whether there is just one domain, and it holds the top and names no other element.
pub fn has_top_alone(intent: &Intent) -> bool
    ensures { result ≡ has_top_alone intent.now }
{
    match domain_of(intent.commands.as_slice()) {
        Some(domain) => has_top(&domain) && are_top(&domain),
        None => false,
    }
}
