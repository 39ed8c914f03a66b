//! The reading of the five files.

ghost use Rattle.std.specs.Prelude.{◌≡◌, ◌≤◌, ◌<◌, ℕ, List, IfOk, IfErr, IfSome, length};
ghost use Rattle.pe_base.specs.declared.text.Texts.{Texts};
ghost use Rattle.pe_text.specs.Scan.{most_bytes};
ghost use Rattle.pe_tool.specs.Run.{AreTold, name_list};
ghost use Rattle.pe_tool.specs.Reads.{StandsFor, StandFor, IsReadStop, names_view, IsStopped};

use pe_base::{Texts, Want};
use pe_outside::{Files, WholeFault, read_whole};
use sqlite_items::Items;
use std::alloc::Global;

// The names of the five files.
#[derive(Clone, Copy)]
pub(crate) struct Names<'a> {
    pub rtl: &'a str,
    pub upf: &'a str,
    pub lib: &'a str,
    pub net: &'a str,
    pub map: &'a str,
}

// Why the files were not read.
pub(crate) enum ReadStop<'a> {
    Memory,
    // The file of this name could not be read.
    Failed(&'a str),
}

// A text that is over the limit.
fn over_limit(alloc: Global) -> Result<Items<u8>, Want>
    ensures { IfOk result (λ text. most_bytes < length text) }
{
    let mut text = Items::new(alloc);
    for _ in 0..16_777_217u32 {
        text.push(b' ')?;
    }
    Ok(text)
}

// The text of a file. A file over the limit does not end the reading: a text that is over it too stands for it, so that it
// is refused at its own point.
fn read_text<'a, F: Files>(
    alloc: Global,
    files: &mut F,
    name: &'a str,
) -> Result<Items<u8>, ReadStop<'a>>
    ensures told { (other : List ℕ) → F.told files.new other ≡ F.told files.old other }
    ensures counted { (other : List ℕ) → F.faults files.old other ≤ F.faults files.new other }
    ensures text { IfOk result (λ text. IfSome (F.told files.old name.now) (StandsFor text)) }
    ensures stopped { IfErr result (IsReadStop (F.faults files.old) (F.faults files.new) name.now) }
{
    match read_whole(alloc, files, name) {
        Ok(text) => Ok(text),
        Err(WholeFault::Memory) => Err(ReadStop::Memory),
        Err(WholeFault::Failed) => Err(ReadStop::Failed(name)),
        Err(WholeFault::TooLong) => match over_limit(alloc) {
            Ok(text) => Ok(text),
            Err(_) => Err(ReadStop::Memory),
        },
    }
}

// The texts of the five files, in the order RTL, UPF, library, netlist, map.
pub(crate) fn read_texts<'a, F: Files>(
    alloc: Global,
    files: &mut F,
    names: Names<'a>,
) -> Result<Texts, ReadStop<'a>>
    ensures told { (other : List ℕ) → F.told files.new other ≡ F.told files.old other }
    ensures counted { (other : List ℕ) → F.faults files.old other ≤ F.faults files.new other }
    ensures texts { IfOk result (λ texts. (t : Texts) → AreTold (F.told files.old) (names_view names.entry) t → StandFor texts t) }
    ensures stopped { IfErr result (IsStopped (F.faults files.old) (F.faults files.new) (name_list (names_view names.entry))) }
{
    let rtl = match read_text(alloc, files, names.rtl) {
        Ok(text) => text,
        Err(stop) => return Err(stop),
    };
    let upf = match read_text(alloc, files, names.upf) {
        Ok(text) => text,
        Err(stop) => return Err(stop),
    };
    let lib = match read_text(alloc, files, names.lib) {
        Ok(text) => text,
        Err(stop) => return Err(stop),
    };
    let net = match read_text(alloc, files, names.net) {
        Ok(text) => text,
        Err(stop) => return Err(stop),
    };
    let map = match read_text(alloc, files, names.map) {
        Ok(text) => text,
        Err(stop) => return Err(stop),
    };
    Ok(Texts {
        rtl,
        upf,
        lib,
        net,
        map,
    })
}
