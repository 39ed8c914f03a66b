//! The check of five texts by one worker.

ghost use Rattle.std.specs.Prelude.{◌≡◌, IfOk, IfErr, Result, Err};
ghost use Rattle.pe_design.specs.Sound.{IsSound};
ghost use Rattle.pe_front.specs.declared.fault.CheckFault.{CheckFault as Refusal};
ghost use Rattle.pe_questions.specs.Questions.{questions as questions_of};
ghost use Rattle.pe_tool.specs.declared.check.Plain.{Plain as Told};
ghost use Rattle.pe_tool.specs.Equivalent.{IsReported};
ghost use Rattle.pe_tool.specs.Outcome.{IsOutcome, IsSame};

use pe_base::Texts;
use pe_design::Design;
use pe_front::{CheckFault, design, one_design};
use pe_questions::{Answer, Question, answers, questions};
use sqlite_items::Items;
use std::alloc::Global;

/// The questions of a check by row, in the order of the outputs and then the live one, and an answer for each.
#[derive(Drop)]
pub struct Plain {
    pub questions: Items<Question>,
    pub answers: Items<Answer>,
}

// A design, with its questions and answers.
#[derive(Drop)]
pub(crate) struct Checked {
    pub design: Design,
    pub plain: Plain,
}

// The design of five texts, and its questions and answers.
pub(crate) fn check_design(alloc: Global, texts: &Texts) -> Result<Checked, CheckFault>
    ensures found { IfOk result (λ c. IsReported texts.now c.design c.plain.answers) }
    ensures asked { IfOk result (λ c. c.plain.questions ≡ questions_of c.design) }
    ensures sound { IfOk result (λ c. IsSound c.design) }
    ensures refused { IfErr result (λ fault. IsOutcome texts.now (Err fault)) }
{
    let design = match design(alloc, texts) {
        Ok(design) => design,
        Err(fault) => return Err(fault),
    };
    let questions = questions(alloc, &design)?;
    let answers = answers(alloc, &design, questions.as_slice())?;
    Ok(Checked {
        design,
        plain: Plain { questions, answers },
    })
}

/// The questions of a check and their answers, by trying all assignments, or the first refusal, as `pe_front::design` has it.
pub fn check_alone(alloc: Global, texts: &Texts) -> Result<Plain, CheckFault>
    // What is answered is right.
    ensures found { IsOutcome texts.now result }
    // What would be right is answered, unless memory runs out.
    ensures only { (other : Result Told Refusal) → IsOutcome texts.now other → IsSame other result }
{
    one_design();
    match check_design(alloc, texts) {
        Ok(checked) => Ok(checked.plain),
        Err(fault) => Err(fault),
    }
}
