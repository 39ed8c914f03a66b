//! The answers to the questions of a design, by trying all assignments.

ghost use Rattle.std.specs.Prelude.{◌≡◌, ◌≢◌, ◌≤◌, true, List, IfOk, find, length};
ghost use Rattle.std.specs.Option.{option_copied};
ghost use Rattle.pe_nets.specs.Nets.{name_at};
ghost use Rattle.pe_base.specs.Names.{are_distinct};
ghost use Rattle.pe_assigns.specs.Form.{nets as nets_of, output_names as output_names_of};
ghost use Rattle.pe_instances.specs.Form.{nets as net_nets_of};
ghost use Rattle.pe_design.specs.declared.design.Design.{Design as Whole};
ghost use Rattle.pe_design.specs.Sound.{IsSound};
ghost use Rattle.pe_design.specs.Refined.{Refined, Replays};
ghost use Rattle.pe_questions.specs.declared.question.Question.{Question as Asked};
ghost use Rattle.pe_questions.specs.declared.answer.Answer.{Answer as Told};
ghost use Rattle.pe_questions.specs.Assignments.{width, all_assignments};
ghost use Rattle.pe_questions.specs.Questions.{row_of, questions as questions_of};
ghost use Rattle.pe_questions.specs.Answers.{IsOutputAnswer, IsLiveAnswer, IsAnswer, AreAnswers, mismatched as mismatched_of};
ghost use Rattle.pe_questions.specs.Cases.{AreCases, value_at, permits, refutes, is_refined, IsReplayed};

use crate::answer::Answer;
use crate::cases::{Case, Places, case_of, cases};
use crate::question::{Point, Question};
use pe_base::{Name, Step, Val, Want, refines};
use pe_design::Design;
use pe_nets::NameIndex;
use sqlite_items::Items;
use std::alloc::Global;

// The value at a place; past the end it is corrupt.
fn value_at(values: &[Val], place: usize) -> Val
    ensures { result ≡ value_at values.now place }
{
    match values.get(place) {
        Some(value) => *value,
        None => Val::Corrupt,
    }
}

// The row in which a step ends.
fn row_of(step: Step) -> u32
    ensures { result ≡ row_of step }
{
    match step {
        Step::Start(row) => row,
        Step::Pair(_, row) => row,
    }
}

// Whether the step permits the case.
fn permits(d: &Design, step: Step, case: &Case) -> bool
    ensures { result ≡ permits d.now step case.now }
{
    match d.supplies.rows.as_slice().get(row_of(step) as usize) {
        Some(row) => pe_supply::holds(d.supplies.table.as_slice(), row, case.states.as_slice()),
        None => true,
    }
}

// Whether the netlist's value may stand for the RTL's.
fn is_refined(net: Val, rtl: Val) -> bool
    ensures { result ≡ is_refined net rtl }
{
    refines(net, rtl)
}

// Whether the step permits the case, and the output with these places among the nets does not refine in it.
fn refutes(d: &Design, step: Step, rtl: usize, net: usize, case: &Case) -> bool
    ensures { result ≡ refutes d.now step rtl net case.now }
{
    permits(d, step, case)
        && !is_refined(
            value_at(case.net.as_slice(), net),
            value_at(case.rtl.as_slice(), rtl),
        )
}

// The first case that refutes.
fn first_refuting<'a>(
    d: &Design,
    step: Step,
    rtl: usize,
    net: usize,
    cases: &'a [Case],
) -> Option<&'a Case>
    ensures { option_copied result ≡ find (refutes d.now step rtl net) cases.now }
{
    for case in cases {
        if refutes(d, step, rtl, net, case) {
            return Some(case);
        }
    }
    None
}

// The first case that the step permits.
fn first_permitted<'a>(d: &Design, step: Step, cases: &'a [Case]) -> Option<&'a Case>
    ensures { option_copied result ≡ find (permits d.now step) cases.now }
{
    for case in cases {
        if permits(d, step, case) {
            return Some(case);
        }
    }
    None
}

// The mismatch of an assignment: the values of both sides at these places, by an evaluation of its own, so that none of
// them rests on a stored case.
fn replayed(
    alloc: Global,
    d: &Design,
    places: &Places,
    rtl: usize,
    net: usize,
    bits: &[bool],
) -> Result<Answer, Want>
    requires sound { IsSound d.now }
    requires rtl { places.now.rtl ≡ nets_of d.now.rtl }
    requires net { places.now.net ≡ net_nets_of d.now.circuit.netlist }
    requires cells { places.now.cells ≡ d.now.circuit.cells }
    requires long { length bits.now ≡ width d.now }
    ensures { IfOk result (IsReplayed d.now rtl net bits.now) }
{
    let case = case_of(alloc, d, places, bits)?;
    Ok(Answer::Mismatch {
        rtl: value_at(case.rtl.as_slice(), rtl),
        net: value_at(case.net.as_slice(), net),
        bits: case.bits,
    })
}

// The answer to whether an output refines.
fn output_answer(
    alloc: Global,
    d: &Design,
    places: &Places,
    cases: &[Case],
    step: Step,
    output: &[u8],
) -> Result<Answer, Want>
    requires sound { IsSound d.now }
    requires rtl { places.now.rtl ≡ nets_of d.now.rtl }
    requires net { places.now.net ≡ net_nets_of d.now.circuit.netlist }
    requires cells { places.now.cells ≡ d.now.circuit.cells }
    requires cases { AreCases d.now (all_assignments d.now) cases.now }
    ensures { IfOk result (IsOutputAnswer d.now step output.now) }
{
    let rtl = places.rtl.place(output);
    let net = places.net.place(output);
    match first_refuting(d, step, rtl, net, cases) {
        None => Ok(Answer::Holds),
        Some(case) => replayed(alloc, d, places, rtl, net, case.bits.as_slice()),
    }
}

// The answer to whether there is any cycle.
fn live_answer(alloc: Global, d: &Design, cases: &[Case], step: Step) -> Result<Answer, Want>
    requires sound { IsSound d.now }
    requires cases { AreCases d.now (all_assignments d.now) cases.now }
    ensures { IfOk result (IsLiveAnswer d.now step) }
{
    match first_permitted(d, step, cases) {
        None => Ok(Answer::Empty),
        Some(sample) => Ok(Answer::Sample {
            bits: Items::from_slice(alloc, sample.bits.as_slice())?,
        }),
    }
}

// The name at a place, and none past the end.
fn name_at(names: &[Name], place: u32) -> &[u8]
    ensures { result.now ≡ name_at names.now place }
{
    match names.get(place as usize) {
        Some(name) => name.bytes(),
        None => b"",
    }
}

// The answer to a question.
fn answer(
    alloc: Global,
    d: &Design,
    places: &Places,
    cases: &[Case],
    outputs: &[Name],
    question: Question,
) -> Result<Answer, Want>
    requires sound { IsSound d.now }
    requires rtl { places.now.rtl ≡ nets_of d.now.rtl }
    requires net { places.now.net ≡ net_nets_of d.now.circuit.netlist }
    requires cells { places.now.cells ≡ d.now.circuit.cells }
    requires cases { AreCases d.now (all_assignments d.now) cases.now }
    requires outputs { outputs.now ≡ output_names_of d.now.rtl }
    ensures { IfOk result (IsAnswer d.now question) }
{
    match question.point {
        Point::Output(number) => output_answer(
            alloc,
            d,
            places,
            cases,
            question.step,
            name_at(outputs, number),
        ),
        Point::Live => live_answer(alloc, d, cases, question.step),
    }
}

// The answers to questions.
fn all_answers(
    alloc: Global,
    d: &Design,
    places: &Places,
    cases: &[Case],
    outputs: &[Name],
    questions: &[Question],
) -> Result<Items<Answer>, Want>
    requires sound { IsSound d.now }
    requires rtl { places.now.rtl ≡ nets_of d.now.rtl }
    requires net { places.now.net ≡ net_nets_of d.now.circuit.netlist }
    requires cells { places.now.cells ≡ d.now.circuit.cells }
    requires cases { AreCases d.now (all_assignments d.now) cases.now }
    requires outputs { outputs.now ≡ output_names_of d.now.rtl }
    ensures { IfOk result (AreAnswers d.now questions.now) }
{
    let mut answers = Items::new(alloc);
    for question in questions {
        answers.push(answer(alloc, d, places, cases, outputs, *question)?)?;
    }
    Ok(answers)
}

// The index of names that are different from one another.
fn index_of<'a>(alloc: Global, names: &'a [Name]) -> Result<NameIndex<'a>, Want>
    requires { are_distinct names.now ≡ true }
    ensures { IfOk result (λ index. index ≡ names.now) }
{
    match NameIndex::of(alloc, names)? {
        Some(index) => Ok(index),
        None => unreachable!(),
    }
}

/// An answer for each question, by trying all assignments of the roots and then of the RTL's inputs in counting order.
///
/// To an output's question it is that no assignment refutes, or the first that does, with the values of both sides, which
/// are evaluated a second time for the answer; to a live one the first assignment that gives a cycle in which the row
/// holds, or that there is none.
pub fn answers(alloc: Global, d: &Design, questions: &[Question]) -> Result<Items<Answer>, Want>
    requires sound { IsSound d.now }
    requires few { width d.now ≤ 16 }
    ensures { IfOk result (AreAnswers d.now questions.now) }
{
    let rtl_nets = pe_assigns::nets(alloc, &d.rtl)?;
    let net_nets = pe_instances::nets(alloc, &d.circuit.netlist)?;
    let places = Places {
        rtl: index_of(alloc, rtl_nets.as_slice())?,
        net: index_of(alloc, net_nets.as_slice())?,
        cells: index_of(alloc, d.circuit.cells.as_slice())?,
    };
    let inputs = pe_assigns::input_names(alloc, &d.rtl)?;
    let outputs = pe_assigns::output_names(alloc, &d.rtl)?;
    let cases = cases(alloc, d, &places, inputs.len())?;
    all_answers(
        alloc,
        d,
        &places,
        cases.as_slice(),
        outputs.as_slice(),
        questions,
    )
}

/// Questions have one list of answers.
pub fn one_list_of_answers()
    ensures { (d : Whole) (questions : List Asked) (answers others : List Told) → IsSound d → AreAnswers d questions answers → AreAnswers d questions others → answers ≡ others }
{}

/// Where no answer is a mismatch, each output refines in each cycle in which a row holds.
pub fn refined_law()
    ensures { (d : Whole) (answers : List Told) → AreAnswers d (questions_of d) answers → mismatched_of answers ≡ 0 → Refined d }
{}

/// Where some answer is a mismatch, a cycle shows that the netlist is not equivalent.
pub fn replay_law()
    ensures { (d : Whole) (answers : List Told) → AreAnswers d (questions_of d) answers → mismatched_of answers ≢ 0 → Replays d }
{}
