//! Whether a netlist fits the rest of a design.

ghost use Rattle.std.specs.Prelude.{◌≡◌, true, false, IfOk};
ghost use Rattle.std.specs.Option.{option_map_or};
ghost use Rattle.std.specs.Str.{bytes_eq};
ghost use Rattle.pe_base.specs.Names.{are_distinct};
ghost use Rattle.pe_instances.specs.Fit.{is_fit as is_fit_of};
ghost use Rattle.pe_intent.specs.Domain.{top_of};
ghost use Rattle.pe_front.specs.Given.{is_fitting};

use pe_base::Want;
use pe_instances::{Circuit, is_fit};
use pe_intent::{has_top_alone, top};
use pe_nets::NameIndex;
use pe_supply::Supplies;
use pe_upf_read::Intent;
use pe_verilog_ast::Module;
use std::alloc::Global;

/// Whether the intent's top is the RTL module.
fn has_name_of(m: &Module, intent: &Intent) -> bool
    ensures { result ≡ option_map_or (λ name. bytes_eq name m.now.name) (top_of intent.now.commands) false }
{
    match top(intent) {
        Some(name) => name.is(m.name.bytes()),
        None => false,
    }
}

/// Whether the netlist fits the RTL and the supplies.
fn fits(alloc: Global, m: &Module, s: &Supplies, c: &Circuit) -> Result<bool, Want>
    requires { are_distinct c.now.cells ≡ true }
    ensures { IfOk result (λ b. b ≡ is_fit_of m.now s.now.names s.now.roots c.now) }
{
    match NameIndex::of(alloc, c.cells.as_slice())? {
        Some(cells) => is_fit(alloc, m, s.names.as_slice(), s.roots.as_slice(), c, &cells),
        None => unreachable!(),
    }
}

/// Whether the intent's top is the RTL module and its domain is of that alone, no switch stands among the supplies, and the
/// netlist fits the RTL and the supplies.
pub(crate) fn is_fitting(
    alloc: Global,
    m: &Module,
    intent: &Intent,
    s: &Supplies,
    c: &Circuit,
) -> Result<bool, Want>
    requires { are_distinct c.now.cells ≡ true }
    ensures { IfOk result (λ b. b ≡ is_fitting m.now intent.now s.now c.now) }
{
    if !has_name_of(m, intent) {
        return Ok(false);
    }
    if !has_top_alone(intent) {
        return Ok(false);
    }
    if !s.switches.is_empty() {
        return Ok(false);
    }
    fits(alloc, m, s, c)
}
