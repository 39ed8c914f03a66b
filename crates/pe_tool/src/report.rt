//! What the program prints of a design and its answers.

ghost use Rattle.std.specs.Prelude.{◌≡◌, ◌≤◌, ◌+◌, ◌++◌, IfOk, OnOk, length, string_bytes};
ghost use Rattle.pe_nets.specs.Nets.{name_at};
ghost use Rattle.pe_assigns.specs.Form.{input_names, output_names};
ghost use Rattle.pe_design.specs.declared.design.Design.{Design as Whole};
ghost use Rattle.pe_questions.specs.Assignments.{roots_of, inputs_of};
ghost use Rattle.pe_tool.specs.Report.{is_held, held, two_words, on_word, bit_word, value_word, row_names, step_words, point_name, first_name, supply_lines, input_lines, sample, block, step_block, blocks_by, verdict_line, counts_of, counts_line, report, read_fault, usage, report_status};

use crate::refusals::add;
use pe_base::{Name, Step, Val, Want};
use pe_design::Design;
use pe_questions::{Answer, Point, Question, mismatched};
use sqlite_items::Items;
use std::alloc::Global;

// Whether an output refines.
fn is_held(answer: &Answer) -> bool
    ensures { result ≡ is_held answer.now }
{
    match answer {
        Answer::Holds => true,
        Answer::Mismatch { .. } | Answer::Sample { .. } | Answer::Empty => false,
    }
}

// How many outputs refine.
fn held(answers: &[Answer]) -> usize
    ensures count { result ≡ held answers.now }
    ensures bounded { result ≤ length answers.now }
{
    answers.iter().filter(|answer| is_held(answer)).count()
}

/// The status of a report.
pub(crate) fn report_status(answers: &[Answer]) -> u8
    ensures { result ≡ report_status answers.now }
{
    if mismatched(answers) == 0 { 0 } else { 1 }
}

// The bytes of a text.
fn bytes_of(alloc: Global, text: String) -> Result<Items<u8>, Want>
    ensures { IfOk result (λ bytes. bytes ≡ string_bytes text) }
{
    let bytes = Items::from_slice(alloc, text.as_str().as_bytes())?;
    Ok(bytes)
}

// The verdict.
fn verdict_line(alloc: Global, answers: &[Answer]) -> Result<String, Want>
    ensures { IfOk result (λ text. string_bytes text ≡ verdict_line answers.now) }
{
    let line = if mismatched(answers) == 0 {
        format!(in alloc; "powereq: accepted\n")?
    } else {
        format!(in alloc; "powereq: mismatch\n")?
    };
    Ok(line)
}

// How many questions compare an output, and how many of them have each answer.
fn counts_text(
    alloc: Global,
    total: usize,
    refuted: usize,
    mismatched: usize,
) -> Result<String, Want>
    ensures { IfOk result (λ text. string_bytes text ≡ counts_of total refuted mismatched) }
{
    let line = format!(in alloc;
        "obligations {total} refuted {refuted} mismatched {mismatched} spent 0\n"
    )?;
    Ok(line)
}

// The counts.
fn counts_line(alloc: Global, answers: &[Answer]) -> Result<String, Want>
    ensures { IfOk result (λ text. string_bytes text ≡ counts_line answers.now) }
{
    let held = held(answers);
    let mismatched = mismatched(answers);
    counts_text(alloc, held + mismatched, held, mismatched)
}

// Adds a line: two texts with what stands between them and before them.
fn add_line(
    alloc: Global,
    out: &mut Items<u8>,
    before: &[u8],
    first: &[u8],
    between: &[u8],
    second: &[u8],
) -> Result<(), Want>
    ensures { OnOk result (out.new ≡ out.old ++ two_words before.now first.now between.now second.now) }
{
    add(alloc, out, before)?;
    add(alloc, out, first)?;
    add(alloc, out, between)?;
    add(alloc, out, second)?;
    add(alloc, out, b"\n")?;
    Ok(())
}

fn on_word(on: bool) -> &'static [u8]
    ensures { result.now ≡ on_word on }
{
    if on { b"on" } else { b"off" }
}

fn bit_word(bit: bool) -> &'static [u8]
    ensures { result.now ≡ bit_word bit }
{
    if bit { b"1" } else { b"0" }
}

fn value_word(value: Val) -> &'static [u8]
    ensures { result.now ≡ value_word value }
{
    match value {
        Val::Zero => b"0",
        Val::One => b"1",
        Val::Corrupt => b"x",
    }
}

// The first name of a supply.
fn first_name(names: &[(Name, u32)], supply: u32) -> &[u8]
    ensures { result.now ≡ first_name names.now supply }
{
    for name in names {
        if name.1 == supply {
            return name.0.bytes();
        }
    }
    b""
}

// Adds a line for each root.
fn add_supplies(
    alloc: Global,
    out: &mut Items<u8>,
    names: &[(Name, u32)],
    roots: &[u32],
    bits: &[bool],
) -> Result<(), Want>
    ensures { OnOk result (out.new ≡ out.old ++ supply_lines names.now roots.now bits.now) }
{
    let mut rest = bits;
    for root in roots {
        match rest.split_first() {
            None => return Ok(()),
            Some((bit, more)) => {
                let name = first_name(names, *root);
                add_line(alloc, out, b"    supply ", name, b" ", on_word(*bit))?;
                rest = more;
            }
        }
    }
    Ok(())
}

// Adds a line for each input.
fn add_inputs(alloc: Global, out: &mut Items<u8>, names: &[Name], bits: &[bool]) -> Result<(), Want>
    ensures { OnOk result (out.new ≡ out.old ++ input_lines names.now bits.now) }
{
    let mut rest = bits;
    for name in names {
        match rest.split_first() {
            None => return Ok(()),
            Some((bit, more)) => {
                add_line(alloc, out, b"    in ", name.bytes(), b" ", bit_word(*bit))?;
                rest = more;
            }
        }
    }
    Ok(())
}

// The name of the row of this number.
fn row_name(d: &Design, number: u32) -> &[u8]
    ensures { result.now ≡ name_at (row_names d.now) number }
{
    match d.supplies.rows.as_slice().get(number as usize) {
        Some(row) => row.name.bytes(),
        None => b"",
    }
}

// The name at a place.
fn name_at(names: &[Name], number: u32) -> &[u8]
    ensures { result.now ≡ name_at names.now number }
{
    match names.get(number as usize) {
        Some(name) => name.bytes(),
        None => b"",
    }
}

// The words of a step.
fn step_words(alloc: Global, d: &Design, step: Step) -> Result<Items<u8>, Want>
    ensures { IfOk result (λ words. words ≡ step_words d.now step) }
{
    let mut out = Items::new(alloc);
    match step {
        Step::Start(row) => {
            add(alloc, &mut out, b"start ")?;
            add(alloc, &mut out, row_name(d, row))?;
        }
        Step::Pair(from, to) => {
            add(alloc, &mut out, row_name(d, from))?;
            add(alloc, &mut out, b" to ")?;
            add(alloc, &mut out, row_name(d, to))?;
        }
    }
    Ok(out)
}

// The output that a point compares.
fn point_name<'a>(outputs: &'a [Name], point: Point) -> &'a [u8]
    ensures { (d : Whole) → outputs.now ≡ output_names d.rtl → result.now ≡ point_name d point }
{
    match point {
        Point::Output(number) => name_at(outputs, number),
        Point::Live => b"",
    }
}

// The roots' part of an assignment, and the inputs'.
fn split<'a>(d: &Design, bits: &'a [bool]) -> (&'a [bool], &'a [bool])
    ensures roots { result.0.now ≡ roots_of d.now bits.now }
    ensures inputs { result.1.now ≡ inputs_of d.now bits.now }
{
    bits.split_at(d.supplies.roots.len().min(bits.len()))
}

// Adds the roots and the inputs of a cycle.
fn add_sample(
    alloc: Global,
    out: &mut Items<u8>,
    d: &Design,
    inputs: &[Name],
    bits: &[bool],
) -> Result<(), Want>
    requires { inputs.now ≡ input_names d.now.rtl }
    ensures { OnOk result (out.new ≡ out.old ++ sample d.now bits.now) }
{
    let (states, values) = split(d, bits);
    add(alloc, out, b"  cycle 1\n")?;
    add_supplies(
        alloc,
        out,
        d.supplies.names.as_slice(),
        d.supplies.roots.as_slice(),
        states,
    )?;
    add_inputs(alloc, out, inputs, values)?;
    Ok(())
}

// The names of the RTL's ports.
#[derive(Drop)]
struct PortNames {
    inputs: Items<Name>,
    outputs: Items<Name>,
}

// Adds the block of a mismatch, and nothing for another answer.
fn add_block(
    alloc: Global,
    out: &mut Items<u8>,
    d: &Design,
    names: &PortNames,
    question: Question,
    answer: &Answer,
) -> Result<(), Want>
    requires inputs { names.now.inputs ≡ input_names d.now.rtl }
    requires outputs { names.now.outputs ≡ output_names d.now.rtl }
    ensures { OnOk result (out.new ≡ out.old ++ block d.now question answer.now) }
{
    match answer {
        Answer::Mismatch { bits, rtl, net } => {
            let name = point_name(names.outputs.as_slice(), question.point);
            let step = step_words(alloc, d, question.step)?;
            add_line(alloc, out, b"mismatch ", step.as_slice(), b" output ", name)?;
            add_sample(alloc, out, d, names.inputs.as_slice(), bits.as_slice())?;
            add_line(
                alloc,
                out,
                b"  rtl ",
                value_word(*rtl),
                b" net ",
                value_word(*net),
            )?;
            Ok(())
        }
        Answer::Holds | Answer::Sample { .. } | Answer::Empty => Ok(()),
    }
}

// Adds the block of a step that is live or empty, and nothing for another answer.
fn add_step(
    alloc: Global,
    out: &mut Items<u8>,
    d: &Design,
    names: &PortNames,
    question: Question,
    answer: &Answer,
) -> Result<(), Want>
    requires inputs { names.now.inputs ≡ input_names d.now.rtl }
    ensures { OnOk result (out.new ≡ out.old ++ step_block d.now question answer.now) }
{
    match answer {
        Answer::Sample { bits } => {
            let step = step_words(alloc, d, question.step)?;
            add_line(alloc, out, b"step ", step.as_slice(), b" ", b"live")?;
            add_sample(alloc, out, d, names.inputs.as_slice(), bits.as_slice())?;
            Ok(())
        }
        Answer::Empty => {
            let step = step_words(alloc, d, question.step)?;
            add_line(alloc, out, b"step ", step.as_slice(), b" ", b"empty")?;
            Ok(())
        }
        Answer::Holds | Answer::Mismatch { .. } => Ok(()),
    }
}

// Adds a block for each mismatch.
fn add_blocks(
    alloc: Global,
    out: &mut Items<u8>,
    d: &Design,
    names: &PortNames,
    questions: &[Question],
    answers: &[Answer],
) -> Result<(), Want>
    requires inputs { names.now.inputs ≡ input_names d.now.rtl }
    requires outputs { names.now.outputs ≡ output_names d.now.rtl }
    ensures { OnOk result (out.new ≡ out.old ++ blocks_by (block d.now) questions.now answers.now) }
{
    let mut rest = answers;
    for question in questions {
        match rest.split_first() {
            None => return Ok(()),
            Some((answer, more)) => {
                add_block(alloc, out, d, names, *question, answer)?;
                rest = more;
            }
        }
    }
    Ok(())
}

// Adds a block for each step.
fn add_steps(
    alloc: Global,
    out: &mut Items<u8>,
    d: &Design,
    names: &PortNames,
    questions: &[Question],
    answers: &[Answer],
) -> Result<(), Want>
    requires inputs { names.now.inputs ≡ input_names d.now.rtl }
    ensures { OnOk result (out.new ≡ out.old ++ blocks_by (step_block d.now) questions.now answers.now) }
{
    let mut rest = answers;
    for question in questions {
        match rest.split_first() {
            None => return Ok(()),
            Some((answer, more)) => {
                add_step(alloc, out, d, names, *question, answer)?;
                rest = more;
            }
        }
    }
    Ok(())
}

/// The report: the verdict, the counts, a block for each mismatch and one for each step.
pub(crate) fn report(
    alloc: Global,
    d: &Design,
    questions: &[Question],
    answers: &[Answer],
) -> Result<Items<u8>, Want>
    ensures { IfOk result (λ bytes. bytes ≡ report d.now questions.now answers.now) }
{
    let names = PortNames {
        inputs: pe_assigns::input_names(alloc, &d.rtl)?,
        outputs: pe_assigns::output_names(alloc, &d.rtl)?,
    };
    let verdict = verdict_line(alloc, answers)?;
    let counts = counts_line(alloc, answers)?;
    let mut out = Items::new(alloc);
    add(alloc, &mut out, verdict.as_str().as_bytes())?;
    add(alloc, &mut out, counts.as_str().as_bytes())?;
    add_blocks(alloc, &mut out, d, &names, questions, answers)?;
    add_steps(alloc, &mut out, d, &names, questions, answers)?;
    Ok(out)
}

/// The line of a file that can't be read.
pub(crate) fn read_fault(alloc: Global, name: &str) -> Result<Items<u8>, Want>
    ensures { IfOk result (λ bytes. bytes ≡ read_fault name.now) }
{
    let line = format!(in alloc; "read fault: {name}\n")?;
    bytes_of(alloc, line)
}

/// How the program is used.
pub(crate) fn usage(alloc: Global) -> Result<Items<u8>, Want>
    ensures { IfOk result (λ bytes. bytes ≡ usage) }
{
    let line = format!(in alloc; "usage: powereq check RTL UPF LIB NET MAP\n")?;
    bytes_of(alloc, line)
}
