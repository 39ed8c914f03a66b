//! The line of a refusal.

ghost use Rattle.std.specs.Prelude.{◌≡◌, ◌++◌, IfOk, OnOk};
ghost use Rattle.std.specs.Fmt.{decimal};
ghost use Rattle.pe_tool.specs.Refusals.{part_word, which_word, field, read_words, cell_words, supply_words, fault_words, refusal};

use pe_base::{Name, Want};
use pe_cells::CellFault;
use pe_front::{Fault, Part};
use pe_supply::SupplyFault;
use pe_text::{ReadFault, Which};
use sqlite_items::Items;
use std::alloc::Global;

// Adds bytes at the end.
pub(crate) fn add(alloc: Global, out: &mut Items<u8>, bytes: &[u8]) -> Result<(), Want>
    ensures { OnOk result (out.new ≡ out.old ++ bytes.now) }
{
    let more = Items::from_slice(alloc, bytes)?;
    out.append(more)?;
    Ok(())
}

// Adds a field: bytes with a space before them.
fn add_field(alloc: Global, out: &mut Items<u8>, bytes: &[u8]) -> Result<(), Want>
    ensures { OnOk result (out.new ≡ out.old ++ field bytes.now) }
{
    add(alloc, out, b" ")?;
    add(alloc, out, bytes)?;
    Ok(())
}

// Adds a number as a field.
fn add_number(alloc: Global, out: &mut Items<u8>, number: u32) -> Result<(), Want>
    ensures { OnOk result (out.new ≡ out.old ++ field (decimal number)) }
{
    let text = format!(in alloc; "{number}")?;
    add_field(alloc, out, text.as_str().as_bytes())?;
    Ok(())
}

// Adds the name of a fault and a name that it tells.
fn add_named(alloc: Global, out: &mut Items<u8>, word: &[u8], name: &Name) -> Result<(), Want>
    ensures { OnOk result (out.new ≡ out.old ++ (word.now ++ field name.now)) }
{
    add(alloc, out, word)?;
    add_field(alloc, out, name.bytes())?;
    Ok(())
}

// Adds the name of a fault and a number that it tells.
fn add_counted(alloc: Global, out: &mut Items<u8>, word: &[u8], number: u32) -> Result<(), Want>
    ensures { OnOk result (out.new ≡ out.old ++ (word.now ++ field (decimal number))) }
{
    add(alloc, out, word)?;
    add_number(alloc, out, number)?;
    Ok(())
}

// Adds the name of a fault and two names that it tells.
fn add_named_twice(
    alloc: Global,
    out: &mut Items<u8>,
    word: &[u8],
    name: &Name,
    other: &Name,
) -> Result<(), Want>
    ensures { OnOk result (out.new ≡ out.old ++ (word.now ++ field name.now ++ field other.now)) }
{
    add_named(alloc, out, word, name)?;
    add_field(alloc, out, other.bytes())?;
    Ok(())
}

// Adds the name of a fault, a number and bytes that it tells.
fn add_counted_bytes(
    alloc: Global,
    out: &mut Items<u8>,
    word: &[u8],
    number: u32,
    bytes: &[u8],
) -> Result<(), Want>
    ensures { OnOk result (out.new ≡ out.old ++ (word.now ++ field (decimal number) ++ field bytes.now)) }
{
    add_counted(alloc, out, word, number)?;
    add_field(alloc, out, bytes)?;
    Ok(())
}

// Adds the name of a fault, a number and a name that it tells.
fn add_counted_named(
    alloc: Global,
    out: &mut Items<u8>,
    word: &[u8],
    number: u32,
    name: &Name,
) -> Result<(), Want>
    ensures { OnOk result (out.new ≡ out.old ++ (word.now ++ field (decimal number) ++ field name.now)) }
{
    add_counted_bytes(alloc, out, word, number, name.bytes())?;
    Ok(())
}

fn part_word(part: Part) -> &'static [u8]
    ensures { result.now ≡ part_word part }
{
    match part {
        Part::Rtl => b"rtl",
        Part::Upf => b"upf",
        Part::Lib => b"lib",
        Part::Net => b"net",
        Part::Map => b"map",
    }
}

fn which_word(which: Which) -> &'static [u8]
    ensures { result.now ≡ which_word which }
{
    match which {
        Which::File => b"file",
        Which::Nesting => b"nesting",
        Which::Width => b"width",
        Which::Inputs => b"inputs",
    }
}

// Adds why a text is not read.
fn add_read(alloc: Global, out: &mut Items<u8>, fault: &ReadFault) -> Result<(), Want>
    ensures { OnOk result (out.new ≡ out.old ++ read_words fault.now) }
{
    match fault {
        ReadFault::Memory => Ok(()),
        ReadFault::Syntax { at } => add_counted(alloc, out, b"syntax", *at),
        ReadFault::Unsupported { at, word } => {
            add_counted_named(alloc, out, b"unsupported", *at, word)
        }
        ReadFault::Limit { at, which } => {
            add_counted_bytes(alloc, out, b"limit", *at, which_word(*which))
        }
    }
}

// Adds why a cell is not taken.
fn add_cell(alloc: Global, out: &mut Items<u8>, fault: &CellFault) -> Result<(), Want>
    ensures { OnOk result (out.new ≡ out.old ++ cell_words fault.now) }
{
    match fault {
        CellFault::Memory => Ok(()),
        CellFault::NoCell { name } => add_named(alloc, out, b"no cell", name),
        CellFault::CellForm { name, attribute } => {
            add_named_twice(alloc, out, b"cell form", name, attribute)
        }
        CellFault::Expression { name, attribute } => {
            add_named_twice(alloc, out, b"expression", name, attribute)
        }
    }
}

// Adds why an intent has no supplies.
fn add_supply(alloc: Global, out: &mut Items<u8>, fault: &SupplyFault) -> Result<(), Want>
    ensures { OnOk result (out.new ≡ out.old ++ supply_words fault.now) }
{
    match fault {
        SupplyFault::Memory => Ok(()),
        SupplyFault::NoSupply { name } => add_named(alloc, out, b"no supply", name),
        SupplyFault::TwoDrivers { name } => add_named(alloc, out, b"two drivers", name),
        SupplyFault::TwoNets { port } => add_named(alloc, out, b"two nets", port),
        SupplyFault::SupplyLoop { name } => add_named(alloc, out, b"supply loop", name),
        SupplyFault::Expression { name } => add_named(alloc, out, b"expression", name),
        SupplyFault::NoRows => add(alloc, out, b"no rows"),
        SupplyFault::TwoTables { name } => add_named(alloc, out, b"two tables", name),
        SupplyFault::RowLength { name } => add_named(alloc, out, b"row length", name),
        SupplyFault::NoState { name } => add_named(alloc, out, b"no state", name),
        SupplyFault::TooManyRows { count } => add_counted(alloc, out, b"too many rows", *count),
        SupplyFault::TooManySupplies { count } => {
            add_counted(alloc, out, b"too many supplies", *count)
        }
    }
}

// Adds why a text is refused.
fn add_fault(alloc: Global, out: &mut Items<u8>, fault: &Fault) -> Result<(), Want>
    ensures { OnOk result (out.new ≡ out.old ++ fault_words fault.now) }
{
    match fault {
        Fault::Read(fault) => add_read(alloc, out, fault),
        Fault::NotBuilt => add(alloc, out, b"not built"),
        Fault::Cell(fault) => add_cell(alloc, out, fault),
        Fault::Supply(fault) => add_supply(alloc, out, fault),
        Fault::TooWide { count } => add_counted(alloc, out, b"too wide", *count),
    }
}

/// The line of a refusal: its part, and its fault with its fields.
pub(crate) fn refusal(alloc: Global, part: Part, fault: &Fault) -> Result<Items<u8>, Want>
    ensures { IfOk result (λ bytes. bytes ≡ refusal part fault.now) }
{
    let mut out = Items::new(alloc);
    add(alloc, &mut out, b"refused: ")?;
    add(alloc, &mut out, part_word(part))?;
    add(alloc, &mut out, b" ")?;
    add_fault(alloc, &mut out, fault)?;
    add(alloc, &mut out, b"\n")?;
    Ok(out)
}
