//! The power state table and its rows.

ghost use Rattle.std.specs.Prelude.{◌≡◌, map, find, IfOk, unwrap_or};
ghost use Rattle.std.specs.List.{zip};
ghost use Rattle.std.specs.Option.{option_copied, option_map};
ghost use Rattle.pe_supply.specs.declared.supplies.Level.TheVariants.{Any};
ghost use Rattle.pe_supply.specs.Numbers.{number_of};
ghost use Rattle.pe_supply.specs.Tables.{columns, second_table, first_unlike, level_of, table_in, is_unknown, first_unknown, row_in, set_in};

use crate::levels::StateIndex;
use crate::lookup::Lookup;
use crate::plan::{RowText, SetText, TableText};
use crate::supplies::{Level, Row};
use pe_base::{Name, Want};
use sqlite_items::Items;
use std::alloc::Global;

/// The names of the table's supplies.
pub(crate) fn columns(tables: &[TableText]) -> &[Name]
    ensures { result.now ≡ columns tables.now }
{
    match tables {
        [first, ..] => first.supplies.as_slice(),
        [] => &[],
    }
}

/// The name of a second table.
pub(crate) fn second_table(tables: &[TableText]) -> Option<&Name>
    ensures { option_copied result ≡ second_table tables.now }
{
    match tables {
        [_, second, ..] => Some(&second.name),
        [_] => None,
        [] => None,
    }
}

/// The name of the first row that is not as long as the table.
pub(crate) fn first_unlike(width: usize, rows: &[RowText]) -> Option<&Name>
    ensures { option_copied result ≡ first_unlike width rows.now }
{
    for row in rows {
        if row.words.len() != width {
            return Some(&row.name);
        }
    }
    None
}

/// The supplies of the table.
pub(crate) fn table_in(alloc: Global, names: &Lookup, columns: &[Name]) -> Result<Items<u32>, Want>
    ensures { IfOk result (λ table. table ≡ map (number_of names.now) columns.now) }
{
    let mut table = Items::new(alloc);
    for column in columns {
        table.push(names.number(column.bytes()))?;
    }
    Ok(table)
}

/// What a word says of a supply.
fn level_of(
    alloc: Global,
    states: &StateIndex,
    supply: u32,
    word: &Name,
) -> Result<Option<Level>, Want>
    ensures { IfOk result (λ level. level ≡ level_of states.now.names states.now.states supply word.now) }
{
    if word.is(b"*") {
        return Ok(Some(Level::Any));
    }
    let level = states.level(alloc, supply, word.bytes())?;
    Ok(level)
}

/// The first word of a row that is no state of its supply.
fn unknown_in<'a>(
    alloc: Global,
    states: &StateIndex,
    table: &[u32],
    words: &'a [Name],
) -> Result<Option<&'a Name>, Want>
    ensures { IfOk result (λ word. option_copied word ≡ option_map (λ cell. cell.1) (find (is_unknown states.now.names states.now.states) (zip table.now words.now))) }
{
    for (i, word) in words.iter().enumerate() {
        match table.get(i) {
            Some(supply) => {
                if level_of(alloc, states, *supply, word)?.is_none() {
                    return Ok(Some(word));
                }
            }
            None => return Ok(None),
        }
    }
    Ok(None)
}

/// The first word that is no state of its supply.
pub(crate) fn first_unknown<'a>(
    alloc: Global,
    states: &StateIndex,
    table: &[u32],
    rows: &'a [RowText],
) -> Result<Option<&'a Name>, Want>
    ensures { IfOk result (λ word. option_copied word ≡ first_unknown states.now.names states.now.states table.now rows.now) }
{
    for row in rows {
        match unknown_in(alloc, states, table, row.words.as_slice())? {
            Some(word) => return Ok(Some(word)),
            None => {}
        }
    }
    Ok(None)
}

/// What the words of a row say, each of its supply.
fn levels_in(
    alloc: Global,
    states: &StateIndex,
    table: &[u32],
    words: &[Name],
) -> Result<Items<Level>, Want>
    ensures { IfOk result (λ levels. levels ≡ map (λ cell. unwrap_or (level_of states.now.names states.now.states cell.0 cell.1) Any) (zip table.now words.now)) }
{
    let mut levels = Items::new(alloc);
    for (i, word) in words.iter().enumerate() {
        match table.get(i) {
            Some(supply) => {
                let level = level_of(alloc, states, *supply, word)?;
                levels.push(level.unwrap_or(Level::Any))?;
            }
            None => return Ok(levels),
        }
    }
    Ok(levels)
}

/// The rows.
pub(crate) fn rows_in(
    alloc: Global,
    states: &StateIndex,
    table: &[u32],
    texts: &[RowText],
) -> Result<Items<Row>, Want>
    ensures { IfOk result (λ rows. rows ≡ map (row_in states.now.names states.now.states table.now) texts.now) }
{
    let mut rows = Items::new(alloc);
    for text in texts {
        let name = text.name.copy(alloc)?;
        let levels = levels_in(alloc, states, table, text.words.as_slice())?;
        rows.push(Row { name, levels })?;
    }
    Ok(rows)
}

/// The supply of a name, where one is written.
fn option_number(names: &Lookup, name: &Option<Name>) -> Option<u32>
    ensures { result ≡ option_map (number_of names.now) name.now }
{
    match name {
        Some(name) => Some(names.number(name.bytes())),
        None => None,
    }
}

/// The supply sets.
pub(crate) fn sets_in(
    alloc: Global,
    names: &Lookup,
    texts: &[SetText],
) -> Result<Items<(Name, Option<u32>, Option<u32>)>, Want>
    ensures { IfOk result (λ sets. sets ≡ map (set_in names.now) texts.now) }
{
    let mut sets = Items::new(alloc);
    for text in texts {
        let name = text.name.copy(alloc)?;
        let power = option_number(names, &text.power_net);
        let ground = option_number(names, &text.ground_net);
        sets.push((name, power, ground))?;
    }
    Ok(sets)
}
