//! Switches and their functions.

ghost use Rattle.std.specs.Prelude.{◌≡◌, map, Any, IfOk, MatchOption, MatchResult};
ghost use Rattle.std.specs.List.{AllZip};
ghost use Rattle.pe_bool_expr.specs.declared.style.Style.TheVariants.{Upf};
ghost use Rattle.pe_bool_expr.specs.Reading.{IsFunction};
ghost use Rattle.pe_supply.specs.Building.{controls_of, IsUnread, IsRefusedSwitch, IsSwitchOf, IsFirstRefused};

use crate::drivers::edge_of;
use crate::lookup::Lookup;
use crate::plan::SwitchText;
use crate::planning::copy_pairs;
use crate::supplies::Switch;
use pe_base::{Name, Want};
use pe_bool_expr::{Expr, ExprFault, Style, parse};
use sqlite_items::Items;
use std::alloc::Global;

/// The names of control ports.
fn control_names(alloc: Global, controls: &[(Name, Name)]) -> Result<Items<Name>, Want>
    ensures { IfOk result (λ names. names ≡ map (λ c. c.0) controls.now) }
{
    let mut names = Items::new(alloc);
    for control in controls {
        names.push(control.0.copy(alloc)?)?;
    }
    Ok(names)
}

/// How many bytes a text may have.
const LONGEST: usize = 16_777_216;

/// The function that a text is, or none. A text that is longer than a file may be is told as want of memory.
fn read(alloc: Global, text: &Name, names: &[Name]) -> Result<Option<Expr>, Want>
    ensures { IfOk result (λ o. MatchOption o (IsUnread names.now text.now) (IsFunction Upf names.now text.now)) }
{
    let bytes = text.bytes();
    if bytes.len() > LONGEST {
        return Err(Want);
    }
    match parse(alloc, bytes, Style::Upf, names) {
        Ok(function) => Ok(Some(function)),
        Err(ExprFault::Memory) => Err(Want),
        Err(ExprFault::Syntax { at: _at }) => Ok(None),
        Err(ExprFault::NoName { at: _at }) => Ok(None),
        Err(ExprFault::Deep { at: _at }) => Ok(None),
        Err(ExprFault::Inputs { count: _count }) => Ok(None),
    }
}

/// The functions that texts are, or none where one of them is none.
fn read_all(alloc: Global, texts: &[Name], names: &[Name]) -> Result<Option<Items<Expr>>, Want>
    ensures { IfOk result (λ o. MatchOption o (Any (IsUnread names.now) texts.now) (AllZip (IsFunction Upf names.now) texts.now)) }
{
    let mut functions = Items::new(alloc);
    for text in texts {
        match read(alloc, text, names)? {
            Some(function) => functions.push(function)?,
            None => return Ok(None),
        }
    }
    Ok(Some(functions))
}

/// A switch of these functions.
fn with_functions(
    alloc: Global,
    names: &Lookup,
    text: &SwitchText,
    on: Expr,
    off: Items<Expr>,
) -> Result<Switch, Want>
    requires on { IsFunction Upf (controls_of text.now) text.now.on on }
    requires off { AllZip (IsFunction Upf (controls_of text.now)) text.now.off off }
    ensures { IfOk result (IsSwitchOf names.now text.now) }
{
    let (output, input) = edge_of(alloc, names, text)?;
    let name = text.name.copy(alloc)?;
    let controls = copy_pairs(alloc, text.controls.as_slice())?;
    Ok(Switch {
        name,
        output,
        input,
        controls,
        on,
        off,
    })
}

/// A switch, or none where an expression is no function.
fn make_switch(alloc: Global, names: &Lookup, text: &SwitchText) -> Result<Option<Switch>, Want>
    ensures { IfOk result (λ o. MatchOption o (IsRefusedSwitch text.now) (IsSwitchOf names.now text.now)) }
{
    let controls = control_names(alloc, text.controls.as_slice())?;
    match read(alloc, &text.on, controls.as_slice())? {
        Some(on) => match read_all(alloc, text.off.as_slice(), controls.as_slice())? {
            Some(off) => {
                let switch = with_functions(alloc, names, text, on, off)?;
                Ok(Some(switch))
            }
            None => Ok(None),
        },
        None => Ok(None),
    }
}

/// The switches, or the name of the first of which an expression is no function.
pub(crate) fn make_switches(
    alloc: Global,
    names: &Lookup,
    texts: &[SwitchText],
) -> Result<Result<Items<Switch>, Name>, Want>
    ensures { IfOk result (λ r. MatchResult r (AllZip (IsSwitchOf names.now) texts.now) (IsFirstRefused texts.now)) }
{
    let mut switches = Items::new(alloc);
    for text in texts {
        match make_switch(alloc, names, text)? {
            Some(switch) => switches.push(switch)?,
            None => {
                let name = text.name.copy(alloc)?;
                return Ok(Err(name));
            }
        }
    }
    Ok(Ok(switches))
}
