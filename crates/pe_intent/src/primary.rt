//! The primary supplies of the one domain.

ghost use Rattle.std.specs.Prelude.{◌≡◌, true, is_some, option_and_then};
ghost use Rattle.std.specs.Option.{option_copied};
ghost use Rattle.pe_supply.specs.Numbers.{number_of};
ghost use Rattle.pe_intent.specs.Domain.{chosen, net_of_set, net_given, last_given, primary_net, is_one_domain, primary_supply};

use crate::domain::domain_of;
use crate::function::Function;
use pe_base::Name;
use pe_supply::Supplies;
use pe_upf_read::{Command, Intent};

/// The net of the function, of a power net and a ground net.
fn chosen<'a>(
    function: Function,
    power: &'a Option<Name>,
    ground_net: &'a Option<Name>,
) -> Option<&'a Name>
    ensures { option_copied result ≡ chosen function power.now ground_net.now }
{
    match function {
        Function::Power => power.as_ref(),
        Function::Ground => ground_net.as_ref(),
    }
}

/// The net of the function of the first supply set of this name.
fn net_of_set<'a>(commands: &'a [Command], function: Function, name: &Name) -> Option<&'a Name>
    ensures { option_copied result ≡ net_of_set commands.now function name.now }
{
    for command in commands {
        if let Command::CreateSupplySet {
            name: set,
            power,
            ground,
        } = command
        {
            if set.is(name.bytes()) {
                return chosen(function, power, ground);
            }
        }
    }
    None
}

/// The net of the function of the supply set, where one is written.
fn net_of_written<'a>(
    commands: &'a [Command],
    function: Function,
    set: &Option<Name>,
) -> Option<&'a Name>
    ensures { option_copied result ≡ option_and_then (net_of_set commands.now function) set.now }
{
    match set {
        Some(name) => net_of_set(commands, function, name),
        None => None,
    }
}

/// The net that a command gives the domain of this name for its primary supply of the function.
fn net_given<'a>(
    commands: &'a [Command],
    function: Function,
    domain: &Name,
    command: &'a Command,
) -> Option<&'a Name>
    ensures { option_copied result ≡ net_given commands.now function domain.now command.now }
{
    match command {
        Command::CreatePowerDomain { name, primary, .. } => {
            if name.is(domain.bytes()) {
                net_of_written(commands, function, primary)
            } else {
                None
            }
        }
        Command::SetDomainSupplyNet {
            name,
            power,
            ground,
        } => {
            if name.is(domain.bytes()) {
                chosen(function, power, ground)
            } else {
                None
            }
        }
        _ => None,
    }
}

/// The last net that the commands give the domain of this name for its primary supply of the function.
fn last_given<'a>(commands: &'a [Command], function: Function, domain: &Name) -> Option<&'a Name>
    ensures { option_copied result ≡ last_given (net_given commands.now function domain.now) commands.now }
{
    let mut last = None;
    for command in commands {
        if let Some(net) = net_given(commands, function, domain, command) {
            last = Some(net);
        }
    }
    last
}

/// The net of the one domain's primary supply of the function.
fn primary_net(commands: &[Command], function: Function) -> Option<&Name>
    ensures { option_copied result ≡ primary_net commands.now function }
{
    match domain_of(commands) {
        Some(domain) => last_given(commands, function, domain.name),
        None => None,
    }
}

/// Whether the one domain has a primary supply of the function.
pub(crate) fn has_primary(commands: &[Command], function: Function) -> bool
    ensures { result ≡ is_some (primary_net commands.now function) }
{
    primary_net(commands, function).is_some()
}

/// The supply of a name.
fn number_of(names: &[(Name, u32)], name: &[u8]) -> u32
    ensures { result ≡ number_of names.now name.now }
{
    for pair in names {
        if pair.0.is(name) {
            return pair.1;
        }
    }
    0
}

/// The number of the one domain's primary supply: of its primary power, or of its primary ground.
pub fn primary_supply(intent: &Intent, supplies: &Supplies, function: Function) -> u32
    requires { is_one_domain intent.now ≡ true }
    ensures { result ≡ primary_supply intent.now.commands supplies.now.names function }
{
    match primary_net(intent.commands.as_slice(), function) {
        Some(net) => number_of(supplies.names.as_slice(), net.bytes()),
        None => 0,
    }
}
