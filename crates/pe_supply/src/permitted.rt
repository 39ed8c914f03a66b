//! The steps from row to row that a run may take.

ghost use Rattle.std.specs.Prelude.{◌≡◌, ℕ, ◌<◌, List, ◌++◌, ◌∷◌, [], Ok, Err, Some, None, find, IfOk, OnOk};
ghost use Rattle.std.specs.List.{range_with_len, flat_map};
ghost use Rattle.std.specs.Option.{option_copied};
ghost use Rattle.pe_base.specs.declared.text.Step.{Step};
ghost use Rattle.pe_base.specs.declared.text.Step.TheVariants.{Start, Pair};
ghost use Rattle.pe_supply.specs.declared.permitted.StepFault.TheVariants as fault;
ghost use Rattle.pe_supply.specs.Steps.{name_of, may_start, is_pair, has_pair, may_follow, is_permitted, has_row, is_absent, first_absent, names_in, every_start, every_step_from, permitted, IsSteps, AreTooMany};
ghost use Rattle.pe_supply.specs.Gathering.{IsGathered, Offers};

use crate::supplies::Row;
use pe_base::{Name, Step, Want, has_name};
use sqlite_items::Items;
use std::alloc::{AllocError, Global};
use thiserror::Error;

/// How many steps there may be.
const STEPS: u32 = 1024;

/// Why there are no steps.
#[derive(Debug, Drop, Error)]
pub enum StepFault {
    /// Memory could not be had.
    #[error("out of memory")]
    Memory,
    /// No row has the name.
    #[error("no such row")]
    NoRow { name: Name },
    /// More than 1,024 steps are permitted, so many; the greatest u32 where they are more.
    #[error("{count} steps")]
    TooManySteps { count: u32 },
}

impl From<Want> for StepFault {
    ghost from_gives = { λ _ e. e ≡ fault.Memory };

    fn from(_want: Want) -> StepFault {
        StepFault::Memory
    }
}

/// The name of a row, and none past the last row.
fn name_of(rows: &[Row], row: u32) -> &[u8]
    ensures { result.now ≡ name_of rows.now row }
{
    match rows.get(row as usize) {
        Some(row) => row.name.bytes(),
        None => b"",
    }
}

/// Whether a run may start in a row of this name.
fn may_start(starts: &[Name], name: &[u8]) -> bool
    ensures { result ≡ may_start starts.now name.now }
{
    starts.is_empty() || has_name(starts, name)
}

/// Whether the pair has these names.
fn is_pair(pair: &(Name, Name), before: &[u8], after: &[u8]) -> bool
    ensures { result ≡ is_pair before.now after.now pair.now }
{
    pair.0.is(before) && pair.1.is(after)
}

/// Whether one of the pairs has these names.
fn has_pair(pairs: &[(Name, Name)], before: &[u8], after: &[u8]) -> bool
    ensures { result ≡ has_pair pairs.now before.now after.now }
{
    pairs.iter().any(|pair| is_pair(pair, before, after))
}

/// Whether a row of one name may be followed by one of another.
fn may_follow(pairs: &[(Name, Name)], before: &[u8], after: &[u8]) -> bool
    ensures { result ≡ may_follow pairs.now before.now after.now }
{
    pairs.is_empty() || has_pair(pairs, before, after)
}

/// Whether a row has the name.
fn has_row(rows: &[Row], name: &[u8]) -> bool
    ensures { result ≡ has_row rows.now name.now }
{
    rows.iter().any(|row| row.name.is(name))
}

/// Whether no row has the name.
fn is_absent(rows: &[Row], name: &Name) -> bool
    ensures { result ≡ is_absent rows.now name.now }
{
    !has_row(rows, name.bytes())
}

/// The first of the names that no row has.
fn first_absent<'a>(rows: &[Row], names: &'a [Name]) -> Option<&'a Name>
    ensures { option_copied result ≡ find (is_absent rows.now) names.now }
{
    for name in names {
        if is_absent(rows, name) {
            return Some(name);
        }
    }
    None
}

/// The first name of the pairs that no row has.
fn first_absent_in<'a>(rows: &[Row], pairs: &'a [(Name, Name)]) -> Option<&'a Name>
    ensures { option_copied result ≡ find (is_absent rows.now) (names_in pairs.now) }
{
    for pair in pairs {
        if is_absent(rows, &pair.0) {
            return Some(&pair.0);
        }
        if is_absent(rows, &pair.1) {
            return Some(&pair.1);
        }
    }
    None
}

/// The first name that no row has: of the start rows, and then of the pairs.
fn first_absent_of<'a>(
    rows: &[Row],
    starts: &'a [Name],
    pairs: &'a [(Name, Name)],
) -> Option<&'a Name>
    ensures { option_copied result ≡ first_absent rows.now starts.now pairs.now }
{
    match first_absent(rows, starts) {
        Some(name) => Some(name),
        None => first_absent_in(rows, pairs),
    }
}

/// The permitted steps so far, and how many there are. No more than 1,024 are kept.
#[derive(Drop)]
struct Gathered {
    steps: Items<Step>,
    count: u32,
}

/// Whether a step is permitted.
fn is_permitted(rows: &[Row], starts: &[Name], pairs: &[(Name, Name)], step: Step) -> bool
    ensures { result ≡ is_permitted rows.now starts.now pairs.now step }
{
    match step {
        Step::Start(q) => may_start(starts, name_of(rows, q)),
        Step::Pair(p, q) => p == q || may_follow(pairs, name_of(rows, p), name_of(rows, q)),
    }
}

impl Gathered {
    /// Counts a permitted step, and keeps it while they are few.
    fn add(&mut self, step: Step) -> Result<(), AllocError>
        ensures { (steps : List Step) → IsGathered steps self.old → OnOk result (IsGathered (steps ++ step ∷ []) self.new) }
    {
        self.count = self.count.saturating_add(1);
        if self.count <= STEPS {
            self.steps.push(step)?;
        }
        Ok(())
    }

    /// Adds the step, if it is permitted.
    fn offer(
        &mut self,
        rows: &[Row],
        starts: &[Name],
        pairs: &[(Name, Name)],
        step: Step,
    ) -> Result<(), AllocError>
        ensures { OnOk result (Offers (is_permitted rows.now starts.now pairs.now) (step ∷ []) self.old self.new) }
    {
        if is_permitted(rows, starts, pairs, step) {
            self.add(step)?;
        }
        Ok(())
    }

    /// Offers the start in each row.
    fn offer_starts(
        &mut self,
        rows: &[Row],
        starts: &[Name],
        pairs: &[(Name, Name)],
        count: u32,
    ) -> Result<(), AllocError>
        ensures { OnOk result (Offers (is_permitted rows.now starts.now pairs.now) (every_start count) self.old self.new) }
    {
        for q in 0..count {
            self.offer(rows, starts, pairs, Step::Start(q))?;
        }
        Ok(())
    }

    /// Offers the steps from a row to each row.
    fn offer_from(
        &mut self,
        rows: &[Row],
        starts: &[Name],
        pairs: &[(Name, Name)],
        count: u32,
        p: u32,
    ) -> Result<(), AllocError>
        ensures { OnOk result (Offers (is_permitted rows.now starts.now pairs.now) (every_step_from count p) self.old self.new) }
    {
        for q in 0..count {
            self.offer(rows, starts, pairs, Step::Pair(p, q))?;
        }
        Ok(())
    }

    /// Offers the steps from each row.
    fn offer_pairs(
        &mut self,
        rows: &[Row],
        starts: &[Name],
        pairs: &[(Name, Name)],
        count: u32,
    ) -> Result<(), AllocError>
        ensures { OnOk result (Offers (is_permitted rows.now starts.now pairs.now) (flat_map (every_step_from count) (range_with_len 0 count)) self.old self.new) }
    {
        for p in 0..count {
            self.offer_from(rows, starts, pairs, count, p)?;
        }
        Ok(())
    }
}

/// The permitted steps and how many they are, for rows, start rows and pairs.
fn gather(
    alloc: Global,
    rows: &[Row],
    starts: &[Name],
    pairs: &[(Name, Name)],
) -> Result<Gathered, Want>
    ensures { IfOk result (IsGathered (permitted rows.now starts.now pairs.now)) }
{
    let count = match u32::try_from(rows.len()) {
        Ok(count) => count,
        Err(_) => return Err(Want),
    };
    let mut gathered = Gathered {
        steps: Items::new(alloc),
        count: 0,
    };
    gathered.offer_starts(rows, starts, pairs, count)?;
    gathered.offer_pairs(rows, starts, pairs, count)?;
    Ok(gathered)
}

/// The steps that a run may take, over the numbers of rows. It may start in each row that `starts` names, or in each row
/// where there is none, and go from row to row as `pairs` names them, or in every way where there is none. It may always
/// stay. First come the starts, then the steps by their first row and then by their second.
pub fn steps(
    alloc: Global,
    rows: &[Row],
    starts: &[Name],
    pairs: &[(Name, Name)],
) -> Result<Items<Step>, StepFault>
    // What is answered are the permitted steps.
    ensures found { IfOk result (IsSteps rows.now starts.now pairs.now) }
    // A name is refused that no row has, the first one.
    ensures no_row { (name : List ℕ) → result ≡ Err (fault.NoRow name) → first_absent rows.now starts.now pairs.now ≡ Some name }
    // More than 1,024 are refused.
    ensures many { (count : ℕ) → result ≡ Err (fault.TooManySteps count) → AreTooMany rows.now starts.now pairs.now count }
{
    if let Some(name) = first_absent_of(rows, starts, pairs) {
        let name = name.copy(alloc)?;
        return Err(StepFault::NoRow { name });
    }
    let gathered = gather(alloc, rows, starts, pairs)?;
    if gathered.count > STEPS {
        return Err(StepFault::TooManySteps {
            count: gathered.count,
        });
    }
    Ok(gathered.steps)
}
