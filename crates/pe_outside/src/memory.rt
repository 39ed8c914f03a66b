//! Files and an output in memory, which tell all, place and take at most a piece in a call, and fail where they are
//! told to.

ghost use Rattle.std.specs.Prelude.{◌≡◌, ◌≤◌, ◌↔◌, min, [], length, take, drop, IfOk, IsTrue, Contains, vec_capacity, vec_len};
ghost use Rattle.std.specs.Option.{option_copied};
ghost use Rattle.pe_outside.specs.Outside.{next_count};
ghost use Rattle.pe_outside.specs.Named.{bytes_named};

use crate::files::{Failed, Files};
use crate::sink::Sink;
use pe_base::{Name, Want};
use sqlite_items::Items;
use std::alloc::Global;

/// The calls that were made, and the numbers of those that are to fail.
#[derive(Debug, Drop)]
struct Plan {
    fails: Items<u64>,
    calls: u64,
    faults: u64,
}

impl Plan {
    fn new(fails: Items<u64>) -> Plan
        ensures { result ≡ record { fails = fails; calls = 0; faults = 0 } }
    {
        Plan {
            fails,
            calls: 0,
            faults: 0,
        }
    }

    /// Counts a call, and tells whether it is to fail.
    fn begin(&mut self) -> bool
        ensures fails { IsTrue result ↔ Contains self.old.fails (next_count self.old.calls) }
        ensures counts { self.new ≡ record self.old { calls = next_count self.old.calls } }
    {
        self.calls = self.calls.saturating_add(1);
        self.fails.as_slice().contains(&self.calls)
    }

    /// Counts a fault.
    fn fault(&mut self) -> Failed
        ensures counts { self.new ≡ record self.old { faults = next_count self.old.faults } }
        ensures rises { self.old.faults ≤ next_count self.old.faults }
    {
        self.faults = self.faults.saturating_add(1);
        Failed
    }
}

/// Files in memory. It places at most `piece` bytes in a call, and fails at the calls that it is told to.
#[derive(Debug, Drop)]
pub struct MemFiles {
    files: Items<(Name, Items<u8>)>,
    piece: u32,
    plan: Plan,
    ghost some: { 1 ≤ piece },
}

impl MemFiles {
    ghost use Rattle.pe_outside.specs.Memory.{files_of, files_piece, files_fails, files_calls, files_faults};

    /// Files of these names and bytes. Of several of one name the first counts. A call places at most `piece` bytes,
    /// and the calls whose numbers, counted from 1, are among `fails` fail. It takes no memory.
    pub fn new(files: Items<(Name, Items<u8>)>, piece: u32, fails: Items<u64>) -> MemFiles
        requires { 1 ≤ piece }
        ensures files { files_of result ≡ files }
        ensures piece { files_piece result ≡ piece }
        ensures fails { files_fails result ≡ fails }
        ensures calls { files_calls result ≡ 0 }
        ensures faults { files_faults result ≡ 0 }
    {
        MemFiles {
            files,
            piece,
            plan: Plan::new(fails),
        }
    }
}

/// The bytes of the first entry of that name.
fn bytes_of<'a>(files: &'a [(Name, Items<u8>)], name: &[u8]) -> Option<&'a [u8]>
    ensures { option_copied result ≡ bytes_named files.now name.now }
{
    for entry in files {
        if entry.0.bytes() == name {
            return Some(entry.1.as_slice());
        }
    }
    None
}

/// The bytes from a place on.
fn rest_of(bytes: &[u8], at: u64) -> &[u8]
    ensures { result.now ≡ drop at bytes.now }
{
    if at < bytes.len() as u64 {
        &bytes[at as usize..]
    } else {
        &bytes[bytes.len()..]
    }
}

/// Places bytes at the front of a slice: as many as it has, as a piece has, or as there are.
fn place(bytes: &[u8], piece: u32, into: &mut [u8]) -> usize
    ensures count { result ≡ min (length into.old) (min piece (length bytes.now)) }
    ensures bytes { take result into.new ≡ take result bytes.now }
    ensures behind { drop result into.new ≡ drop result into.old }
{
    let count = into.len().min((piece as usize).min(bytes.len()));
    into[..count].copy_from_slice(&bytes[..count]);
    count
}

impl Files for MemFiles {
    ghost use Rattle.std.specs.Prelude.{◌≡◌, ◌≤◌, ◌⊎◌, ℕ, ◌-◌, min, List, None, length, drop, IfOk, OnOk, OnErr, IfSome, IsSome};
    ghost use Rattle.pe_outside.specs.Outside.{HasRisen, IsPlaced, EndsOnly, next_count};
    ghost use Rattle.pe_outside.specs.Memory.{file_named, files_piece, files_calls, files_faults, FilesFailNext, KeepsFiles};

    ghost told = { file_named };

    ghost faults = { λ m _. files_faults m };

    fn read_at(&mut self, name: &str, at: u64, into: &mut [u8]) -> Result<usize, Failed>
        ensures told { (other : List ℕ) → file_named self.new other ≡ file_named self.old other }
        ensures counted { files_faults self.old ≤ files_faults self.new }
        ensures within { IfOk result (λ placed. placed ≤ length into.old) }
        ensures length { length into.new ≡ length into.old }
        ensures bytes { IfOk result (λ placed. IfSome (file_named self.old name.now)
            (λ bytes. IsPlaced bytes at placed into.new)) }
        ensures end { IfOk result (λ placed. IfSome (file_named self.old name.now)
            (λ bytes. EndsOnly bytes at placed (length into.old))) }
        ensures fault { OnErr result (HasRisen (files_faults self.old) (files_faults self.new)) }

        // Which call fails: one that is to fail, or whose name isn't held.
        ensures held { OnOk result (IsSome (file_named self.old name.now)) }
        ensures not_to_fail { OnOk result (¬ FilesFailNext self.old) }
        ensures has_cause { OnErr result ((file_named self.old name.now ≡ None) ⊎ FilesFailNext self.old) }

        // How many bytes are placed, and what is left as it was.
        ensures count { IfOk result (λ placed. IfSome (file_named self.old name.now)
            (λ bytes. placed ≡ min (length into.old) (min (files_piece self.old) (length bytes - at)))) }
        ensures behind { IfOk result (λ placed. drop placed into.new ≡ drop placed into.old) }
        ensures unplaced { OnErr result (into.new ≡ into.old) }

        // How the calls and the faults are counted.
        ensures keeps { KeepsFiles self.old self.new }
        ensures calls { files_calls self.new ≡ next_count (files_calls self.old) }
        ensures no_fault { OnOk result (files_faults self.new ≡ files_faults self.old) }
        ensures one_fault { OnErr result (files_faults self.new ≡ next_count (files_faults self.old)) }
    {
        if self.plan.begin() {
            return Err(self.plan.fault());
        }
        match bytes_of(self.files.as_slice(), name.as_bytes()) {
            Some(bytes) => Ok(place(rest_of(bytes, at), self.piece, into)),
            None => Err(self.plan.fault()),
        }
    }
}

/// An output in memory, whose room is taken at once. It takes at most `piece` bytes in a call, and fails at the calls
/// that it is told to, and where it has no room left.
#[derive(Debug, Drop)]
pub struct MemSink {
    bytes: Vec<u8>,
    room: u32,
    piece: u32,
    plan: Plan,
    ghost some: { 1 ≤ piece },
    ghost within: { vec_len bytes ≤ room },
    ghost has_room: { room ≤ vec_capacity bytes },
}

impl MemSink {
    ghost use Rattle.pe_outside.specs.Memory.{sink_bytes, sink_room, sink_piece, sink_fails, sink_calls, sink_faults};

    /// An empty output of so much room, which is taken at once. A call takes at most `piece` bytes, and the calls
    /// whose numbers, counted from 1, are among `fails` fail.
    pub fn new(alloc: Global, room: u32, piece: u32, fails: Items<u64>) -> Result<MemSink, Want>
        requires { 1 ≤ piece }
        ensures bytes { IfOk result (λ sink. sink_bytes sink ≡ []) }
        ensures room { IfOk result (λ sink. sink_room sink ≡ room) }
        ensures piece { IfOk result (λ sink. sink_piece sink ≡ piece) }
        ensures fails { IfOk result (λ sink. sink_fails sink ≡ fails) }
        ensures calls { IfOk result (λ sink. sink_calls sink ≡ 0) }
        ensures faults { IfOk result (λ sink. sink_faults sink ≡ 0) }
    {
        let bytes = Vec::with_capacity(alloc, room as usize)?;
        Ok(MemSink {
            bytes,
            room,
            piece,
            plan: Plan::new(fails),
        })
    }

    /// The bytes that were written.
    pub fn written(&self) -> &[u8]
        ensures { result.now ≡ sink_bytes self.now }
    {
        self.bytes.as_slice()
    }
}

impl Sink for MemSink {
    ghost use Rattle.std.specs.Prelude.{◌≡◌, ◌<◌, ◌≤◌, ◌++◌, min, Some, length, take, IfOk, OnOk, OnErr};
    ghost use Rattle.pe_outside.specs.Outside.{HasRisen, next_count};
    ghost use Rattle.pe_outside.specs.Memory.{sink_bytes, sink_piece, sink_left, sink_calls, sink_faults, SinkFailsNext, KeepsSink};

    ghost written = { λ s. Some (sink_bytes s) };

    ghost faults = { λ s. sink_faults s };

    fn write(&mut self, bytes: &[u8]) -> Result<usize, Failed>
        requires { 0 < length bytes.now }
        ensures some { IfOk result (λ taken. 0 < taken) }
        ensures within { IfOk result (λ taken. taken ≤ length bytes.now) }
        ensures appended { IfOk result (λ taken. sink_bytes self.new ≡ sink_bytes self.old ++ take taken bytes.now) }
        ensures unchanged { OnErr result (sink_bytes self.new ≡ sink_bytes self.old) }
        ensures counted { sink_faults self.old ≤ sink_faults self.new }
        ensures fault { OnErr result (HasRisen (sink_faults self.old) (sink_faults self.new)) }

        // Which call fails: one that is to fail, or that finds no room.
        ensures not_to_fail { OnOk result (¬ SinkFailsNext self.old) }
        ensures has_cause { OnErr result (SinkFailsNext self.old) }

        // How many bytes are taken, and how the calls and the faults are counted.
        ensures count { IfOk result (λ taken.
            taken ≡ min (length bytes.now) (min (sink_piece self.old) (sink_left self.old))) }
        ensures keeps { KeepsSink self.old self.new }
        ensures calls { sink_calls self.new ≡ next_count (sink_calls self.old) }
        ensures no_fault { OnOk result (sink_faults self.new ≡ sink_faults self.old) }
        ensures one_fault { OnErr result (sink_faults self.new ≡ next_count (sink_faults self.old)) }
    {
        let fails = self.plan.begin();
        let left = self.room as usize - self.bytes.len();
        if fails || left == 0 {
            return Err(self.plan.fault());
        }
        let count = bytes.len().min((self.piece as usize).min(left));
        self.bytes.extend_from_slice(&bytes[..count]).unwrap();
        Ok(count)
    }
}
