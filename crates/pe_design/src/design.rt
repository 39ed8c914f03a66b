//! The design that five texts give.

ghost use Rattle.std.specs.Prelude.{◌≡◌};
ghost use Rattle.pe_supply.specs.Rows.{is_on as is_on_at};
ghost use Rattle.pe_design.specs.Power.{domain_on};

use pe_instances::Circuit;
use pe_supply::Supplies;
use pe_verilog_ast::Module;

/// An RTL module whose logic stands in one power domain, the supplies of its power intent, and the netlist.
#[derive(Drop)]
pub struct Design {
    pub rtl: Module,
    pub supplies: Supplies,
    /// The supply, by number, of the domain's primary power net.
    pub power: u32,
    /// The supply of its primary ground net.
    pub ground: u32,
    pub circuit: Circuit,
}

// The state of a supply; one without a state is off.
fn is_on(states: &[bool], supply: u32) -> bool
    ensures { result ≡ is_on_at states.now supply }
{
    match states.get(supply as usize) {
        Some(on) => *on,
        None => false,
    }
}

impl Design {
    /// Whether the domain is on where the supplies have these states: its primary power and its primary ground are on
    /// (IEEE 1801, simstate NORMAL against CORRUPT).
    pub fn domain_on(&self, states: &[bool]) -> bool
        ensures { result ≡ domain_on self.now states.now }
    {
        is_on(states, self.power) && is_on(states, self.ground)
    }
}
