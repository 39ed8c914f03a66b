//! The questions of a design.

ghost use Rattle.std.specs.Prelude.{◌≡◌, ◌++◌, IfOk, OnOk};
ghost use Rattle.pe_questions.specs.Questions.{row_questions, questions as questions_of};

use pe_assigns::output_names;
use pe_base::{Step, Want};
use pe_design::Design;
use sqlite_items::Items;
use std::alloc::{AllocError, Global};

/// What a question is about.
#[derive(Clone, Copy, Debug, PartialEq, Eq)]
pub enum Point {
    /// Whether the RTL's output of this number, counted from 0 in port order, refines.
    Output(u32),
    /// Whether the step has any cycle at all.
    Live,
}

/// What is asked of a step.
#[derive(Clone, Copy, Debug, PartialEq, Eq)]
pub struct Question {
    pub step: Step,
    pub point: Point,
}

// Adds the questions of a row: one for each output, and the live one.
fn add_row(questions: &mut Items<Question>, outputs: u32, row: u32) -> Result<(), AllocError>
    ensures { OnOk result (questions.new ≡ questions.old ++ row_questions outputs row) }
{
    let step = Step::Start(row);
    for output in 0..outputs {
        questions.push(Question {
            step,
            point: Point::Output(output),
        })?;
    }
    questions.push(Question {
        step,
        point: Point::Live,
    })?;
    Ok(())
}

// The length of a list as a u32. A list of 2 ^ 32 names or rows is want of memory: no text is long enough for it.
fn count_of(count: usize) -> Result<u32, Want>
    ensures { IfOk result (λ number. number ≡ count) }
{
    match u32::try_from(count) {
        Ok(number) => Ok(number),
        Err(_) => Err(Want),
    }
}

/// The questions, by row: one for each output of the RTL in port order, and then whether the row has any cycle.
pub fn questions(alloc: Global, d: &Design) -> Result<Items<Question>, Want>
    ensures { IfOk result (λ list. list ≡ questions_of d.now) }
{
    let names = output_names(alloc, &d.rtl)?;
    let outputs = count_of(names.len())?;
    let rows = count_of(d.supplies.rows.len())?;
    let mut list = Items::new(alloc);
    for row in 0..rows {
        add_row(&mut list, outputs, row)?;
    }
    Ok(list)
}
