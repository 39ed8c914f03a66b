//! The top call: words in, status out, over files and an output.

ghost use Rattle.std.specs.Prelude.{◌≡◌, ◌≢◌, ◌⊎◌, map, IfOk, Some, None, string_bytes};
ghost use Rattle.pe_base.specs.declared.text.Texts.{Texts};
ghost use Rattle.pe_outside.specs.Outside.{HasRisen, grown};
ghost use Rattle.pe_design.specs.declared.design.Design.{Design as Whole};
ghost use Rattle.pe_design.specs.Refined.{Refined};
ghost use Rattle.pe_front.specs.Given.{IsDesign};
ghost use Rattle.pe_tool.specs.Equivalent.{IsEquivalent, HasMismatch};
ghost use Rattle.pe_tool.specs.Report.{usage};
ghost use Rattle.pe_tool.specs.Run.{FileNames, AreTold, NoneRose, OfTexts, IsRefusedRun, IsUnreadRun, IsSaidRun, IsJudgedRun, words_of, names_of, name_list};
ghost use Rattle.pe_tool.specs.Said.{IsJudged, IsSaid};

use crate::check::check_design;
use crate::read::{ReadStop, read_texts};
use crate::refusals::refusal;
use crate::report::{read_fault, report, report_status, usage};
use crate::words::names_of;
use pe_base::{Texts, Want};
use pe_front::{CheckFault, one_design};
use pe_outside::{Files, Sink, write_all};
use sqlite_items::Items;
use std::alloc::Global;

// What is about to be written, with its status.
#[derive(Drop)]
pub(crate) struct Said {
    pub status: u8,
    pub bytes: Items<u8>,
}

// What is said of five texts.
fn judge(alloc: Global, texts: &Texts) -> Result<Said, Want>
    ensures { IfOk result (IsJudged texts.now) }
{
    match check_design(alloc, texts) {
        Ok(checked) => {
            let questions = checked.plain.questions.as_slice();
            let answers = checked.plain.answers.as_slice();
            let bytes = report(alloc, &checked.design, questions, answers)?;
            let status = report_status(answers);
            Ok(Said { status, bytes })
        }
        Err(CheckFault::Refused(part, fault)) => {
            let bytes = refusal(alloc, part, &fault)?;
            Ok(Said { status: 3, bytes })
        }
        Err(CheckFault::Memory) => Err(Want),
    }
}

// What is said to the words, over the files.
fn say<F: Files>(alloc: Global, words: &[String], files: &mut F) -> Result<Said, Want>
    ensures { IfOk result (IsSaid (map string_bytes words.now) (F.told files.old) (F.faults files.old) (F.faults files.new)) }
{
    match names_of(words) {
        None => {
            let bytes = usage(alloc)?;
            Ok(Said { status: 6, bytes })
        }
        Some(names) => match read_texts(alloc, files, names) {
            Ok(texts) => judge(alloc, &texts),
            Err(ReadStop::Failed(name)) => {
                let bytes = read_fault(alloc, name)?;
                Ok(Said { status: 4, bytes })
            }
            Err(ReadStop::Memory) => Err(Want),
        },
    }
}

/// Runs the program on its words, those behind its name, over files and an output, and answers its status.
///
/// The words are `check` and five file names: RTL, UPF, library, netlist, map. What is written is built whole before the
/// first write, and written once.
///
/// | Status | Comes only where | Written |
/// |---|---|---|
/// | 0 | the texts give a design whose netlist is equivalent to its RTL | the report |
/// | 1 | the texts give a design, and in a row an assignment refutes an output | the report, with a block for each mismatch |
/// | 3 | the texts are refused | the line of the first refusal |
/// | 4 | the count of faults of one of the files rose in this call | the line that names it |
/// | 5 | the output's count of faults rose in this call | a part of what another status would write |
/// | 6 | the words are not of the rule | the usage line |
/// | 7 | memory could not be had | nothing |
pub fn run_alone<F: Files, S: Sink>(
    alloc: Global,
    words: &[String],
    files: &mut F,
    out: &mut S,
) -> u8
    // The headline: with status 0 the netlist is equivalent to the RTL.
    ensures accepted { result ≡ 0 → OfTexts (words_of words.now) (F.told files.old) IsEquivalent }
    ensures mismatch { result ≡ 1 → OfTexts (words_of words.now) (F.told files.old) HasMismatch }
    ensures refused { result ≡ 3 → IsRefusedRun (words_of words.now) (F.told files.old) (S.written out.old) (S.written out.new) }
    ensures read_fault { result ≡ 4 → IsUnreadRun (words_of words.now) (F.faults files.old) (F.faults files.new) (S.written out.old) (S.written out.new) }
    ensures write_fault { result ≡ 5 → HasRisen (S.faults out.old) (S.faults out.new) }
    ensures usage { result ≡ 6 → (names_of (words_of words.now) ≡ None) × (S.written out.new ≡ grown (S.written out.old) usage) }
    ensures misused { names_of (words_of words.now) ≡ None → (result ≡ 6) ⊎ (result ≡ 5) ⊎ (result ≡ 7) }
    ensures silent { result ≡ 7 → S.written out.new ≡ S.written out.old }
    // Each other status is that of what has its cause, which was written, or in part where the output failed.
    ensures said { result ≢ 7 → IsSaidRun (words_of words.now) (F.told files.old) (F.faults files.old) (F.faults files.new)
        result (S.written out.old) (S.written out.new) (S.faults out.old) (S.faults out.new) }
    // Without a fault the texts are judged.
    ensures judged { (n : FileNames) (t : Texts) → names_of (words_of words.now) ≡ Some n → AreTold (F.told files.old) n t →
        NoneRose (F.faults files.old) (F.faults files.new) (name_list n) → (HasRisen (S.faults out.old) (S.faults out.new) → ⊥) →
        (result ≡ 7) ⊎ IsJudgedRun t result (S.written out.old) (S.written out.new) }
    // And where they give a design, its netlist is equivalent at 0, and a mismatch replays at 1.
    ensures complete { (n : FileNames) (t : Texts) (d : Whole) → names_of (words_of words.now) ≡ Some n → AreTold (F.told files.old) n t →
        NoneRose (F.faults files.old) (F.faults files.new) (name_list n) → (HasRisen (S.faults out.old) (S.faults out.new) → ⊥) →
        IsDesign t d → (result ≡ 7) ⊎ ((result ≡ 0) × Refined d) ⊎ ((result ≡ 1) × HasMismatch t) }
{
    one_design();
    match say(alloc, words, files) {
        Err(_) => 7,
        Ok(said) => match write_all(out, said.bytes.as_slice()) {
            Ok(()) => said.status,
            Err(_) => 5,
        },
    }
}
