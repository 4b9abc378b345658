ghost use Rattle.std.specs.Prelude.{◌≡◌, ◌≤◌, IfOk, OnOk, OnErr, false, IfSome, IfNone, length};
ghost use Rattle.std.specs.Prelude.{Option, Some, None, Ok, Err};
ghost use Rattle.std.specs.FinMap as map;
ghost use Rattle.std.specs.Option.{option_copied};
ghost use Rattle.input_output.specs.Source.{next_count};
ghost use Rattle.input_output.specs.Store.{Calls, FileCounts, FileIs, IsFirstPlace, SaveCounts};
ghost use Rattle.input_output.specs.Store.{SaveAsKnown, content, files_of, file_found_in};
ghost use Rattle.input_output.specs.Store.{file_has_name, is_planned, read_after, read_failed};
ghost use Rattle.input_output.specs.Store.{write_after, write_failed};

use crate::store::{FileFault, SaveFault, Store};
use label_base::{Bytes, Name, OutOfMemory, PiecedText, Row};
use std::alloc::Global;
use std::marker::Model;

// A file in memory.
#[derive(Drop)]
struct MemFile {
    name: Name,
    bytes: Bytes,
}

fn is_named(file: &MemFile, name: &str) -> bool
    ensures { result ≡ file_has_name name.now file.now }
{
    file.name.as_str() == name
}

fn find_file<'a>(files: &'a [MemFile], name: &str) -> Option<&'a [u8]>
    ensures { option_copied result ≡ file_found_in files.now name.now }
{
    for file in files {
        if is_named(file, name) {
            return Some(file.bytes.as_slice());
        }
    }
    None
}

fn place_of(files: &[MemFile], name: &str) -> Option<usize>
    ensures some { IfSome result (IsFirstPlace files.now name.now) }
    ensures none { IfNone result (file_found_in files.now name.now ≡ None) }
{
    for (place, file) in files.iter().enumerate() {
        if is_named(file, name) {
            return Some(place);
        }
    }
    None
}

fn put_file(
    files: &mut Vec<MemFile>,
    alloc: Global,
    name: &str,
    bytes: &[u8],
) -> Result<(), OutOfMemory>
    ensures ok { OnOk result
        (files_of files.new.items ≡ map.insert (files_of files.old.items) name.now bytes.now) }
    ensures err { OnErr result (files.new.items ≡ files.old.items) }
{
    let file = MemFile {
        name: Name::copy_of(alloc, name)?,
        bytes: Bytes::copy_of(alloc, bytes)?,
    };
    match place_of(files.as_slice(), name) {
        Some(place) => files[place] = file,
        None => files.push(file)?,
    }
    Ok(())
}

fn copy_within(alloc: Global, bytes: &[u8], limit: usize) -> Result<Bytes, FileFault>
    ensures content { FileIs (Some bytes.now) limit result }
    ensures calm { read_failed result ≡ false }
{
    if bytes.len() > limit {
        return Err(FileFault::TooLong);
    }
    match Bytes::copy_of(alloc, bytes) {
        Ok(copy) => Ok(copy),
        Err(_) => Err(FileFault::OutOfMemory),
    }
}

/// A store in memory that never fails. It doesn't tell how many calls there were.
#[derive(Drop)]
pub struct SureStore {
    files: Vec<MemFile>,
}

impl Model for SureStore {
    ghost use Rattle.input_output.specs.Store.{Files, files_code, files_of};

    ghost Value = { Files };

    ghost coded = { files_code };

    ghost view = { λ s. files_of s.files.items };
}

impl SureStore {
    /// No files.
    pub fn new(alloc: Global) -> SureStore
        ensures { result ≡ map.empty }
    {
        SureStore {
            files: Vec::new(alloc),
        }
    }

    /// Makes a file hold these bytes. After a refusal all files stay.
    pub fn put(&mut self, alloc: Global, name: &str, bytes: &[u8]) -> Result<(), OutOfMemory>
        ensures ok { OnOk result (self.new ≡ map.insert self.old name.now bytes.now) }
        ensures err { OnErr result (self.new ≡ self.old) }
    {
        put_file(&mut self.files, alloc, name, bytes)
    }

    // Makes a file hold this text. After a refusal all files stay.
    fn put_text(&mut self, alloc: Global, name: &str, text: &PiecedText) -> Result<(), OutOfMemory>
        ensures ok { OnOk result (self.new ≡ map.insert self.old name.now text.now) }
        ensures err { OnErr result (self.new ≡ self.old) }
    {
        let joined = text.joined(alloc)?;
        self.put(alloc, name, joined.as_slice())
    }

    /// What a file holds, if there is one of this name.
    #[tactic(auto, using(crate::proofs::StoreLemmas::content_is))]
    pub fn file(&self, name: &str) -> Option<&[u8]>
        ensures { option_copied result ≡ content self.now name.now }
    {
        find_file(self.files.as_slice(), name)
    }
}

impl Store for SureStore {
    ghost files = { λ s. Some s };

    ghost read_faults = { λ _. 0 };

    ghost write_faults = { λ _. 0 };

    ghost calls = { λ _. None };

    fn read_file(&mut self, alloc: Global, name: &str, limit: usize) -> Result<Bytes, FileFault>
        ensures files { self.new ≡ self.old }
        ensures within { IfOk result (λ bytes. length bytes ≤ limit) }
        ensures content { FileIs (content self.old name.now) limit result }
        ensures counts { FileCounts 0 0 result }
        ensures calls { Calls None None 1 }
        ensures calm { read_failed result ≡ false }
    {
        match self.file(name) {
            Some(bytes) => copy_within(alloc, bytes, limit),
            None => Err(FileFault::NotThere),
        }
    }

    fn write_file(&mut self, alloc: Global, name: &str, text: &PiecedText) -> Result<(), SaveFault>
        ensures files { SaveAsKnown (Some self.old) (Some self.new) name.now text.now result }
        ensures counts { SaveCounts 0 0 result }
        ensures calls { Calls None None 1 }
        ensures calm { write_failed result ≡ false }
    {
        match self.put_text(alloc, name, text) {
            Ok(()) => Ok(()),
            Err(_) => Err(SaveFault::OutOfMemory),
        }
    }
}

/// A store in memory, some of whose calls fail. Reads and writes are counted together, from 1 on.
#[derive(Drop)]
pub struct MemStore {
    inner: SureStore,
    failing: Row<u64>,
    calls: u64,
    read_faults: u64,
    write_faults: u64,
}

impl Model for MemStore {
    ghost use Rattle.input_output.specs.Store.{MemStoreValue, mem_store_code};

    ghost Value = { MemStoreValue };

    ghost coded = { mem_store_code };

    ghost view = { λ s. record {
      files = s.inner;
      failing = s.failing;
      calls = s.calls;
      read_faults = s.read_faults;
      write_faults = s.write_faults;
    } };
}

impl MemStore {
    /// No files. The calls whose numbers, from 1 on, are among `failing` fail.
    pub fn new(alloc: Global, failing: Row<u64>) -> MemStore
        ensures { result ≡ record {
          files = map.empty;
          failing = failing;
          calls = 0;
          read_faults = 0;
          write_faults = 0;
        } }
    {
        MemStore {
            inner: SureStore::new(alloc),
            failing,
            calls: 0,
            read_faults: 0,
            write_faults: 0,
        }
    }

    /// Makes a file hold these bytes, and is no call that is counted. After a refusal all files
    /// stay.
    pub fn put(&mut self, alloc: Global, name: &str, bytes: &[u8]) -> Result<(), OutOfMemory>
        ensures ok { OnOk result
            (self.new ≡ record self.old { files = map.insert self.old.files name.now bytes.now }) }
        ensures err { OnErr result (self.new ≡ self.old) }
    {
        self.inner.put(alloc, name, bytes)
    }

    /// What a file holds, if there is one of this name.
    pub fn file(&self, name: &str) -> Option<&[u8]>
        ensures { option_copied result ≡ content self.now.files name.now }
    {
        self.inner.file(name)
    }

    fn is_next_to_fail(&mut self) -> bool
        ensures answer { result ≡ is_planned self.old }
        ensures counted { self.new ≡ record self.old { calls = next_count self.old.calls } }
    {
        self.calls = self.calls.saturating_add(1);
        self.failing.as_slice().contains(&self.calls)
    }
}

impl Store for MemStore {
    ghost files = { λ s. Some s.files };

    ghost read_faults = { λ s. s.read_faults };

    ghost write_faults = { λ s. s.write_faults };

    ghost calls = { λ s. Some s.calls };

    fn read_file(&mut self, alloc: Global, name: &str, limit: usize) -> Result<Bytes, FileFault>
        ensures files { self.new.files ≡ self.old.files }
        ensures within { IfOk result (λ bytes. length bytes ≤ limit) }
        ensures content { FileIs (content self.old.files name.now) limit result }
        ensures counts { FileCounts self.old.read_faults self.new.read_faults result }
        ensures calls { Calls (Some self.old.calls) (Some self.new.calls) 1 }
        ensures writes { self.new.write_faults ≡ self.old.write_faults }
        ensures planned { read_failed result ≡ is_planned self.old }
        ensures after { self.new ≡ read_after self.old }
    {
        if self.is_next_to_fail() {
            self.read_faults = self.read_faults.saturating_add(1);
            return Err(FileFault::Failed);
        }
        self.inner.read_file(alloc, name, limit)
    }

    fn write_file(&mut self, alloc: Global, name: &str, text: &PiecedText) -> Result<(), SaveFault>
        ensures files { SaveAsKnown (Some self.old.files) (Some self.new.files)
            name.now text.now result }
        ensures counts { SaveCounts self.old.write_faults self.new.write_faults result }
        ensures calls { Calls (Some self.old.calls) (Some self.new.calls) 1 }
        ensures reads { self.new.read_faults ≡ self.old.read_faults }
        ensures planned { write_failed result ≡ is_planned self.old }
        ensures after { self.new ≡ write_after self.old name.now text.now result }
    {
        if self.is_next_to_fail() {
            self.write_faults = self.write_faults.saturating_add(1);
            return Err(SaveFault::Failed);
        }
        self.inner.write_file(alloc, name, text)
    }
}
