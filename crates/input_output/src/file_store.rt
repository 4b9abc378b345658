ghost use Rattle.std.specs.Prelude.{◌≡◌, ◌⊎◌, ◌≤◌, ◌-◌, ◌<◌, ◌↔◌, ◌≢◌, IfOk, None, length, min};
ghost use Rattle.input_output.specs.Store.{name_led};

use crate::reading::{AllFault, read_all};
use crate::sink::{WriteSink, write_text};
use crate::source::ReadSource;
use crate::store::{FileFault, SaveFault, Store};
use label_base::{Bytes, PiecedText};
use std::alloc::Global;
use std::fs;
use std::fs::{Files, OpenFile};
use std::io::ErrorKind;
use std::marker::Model;

/// The files of the system. It tells no content and no number of calls, and counts each call that
/// fails.
///
/// A name is a path as open(2) takes it. `NotThere` is the system's "no such file or directory"
/// (ENOENT) and "file name too long" (ENAMETOOLONG), since no such file can exist. A read takes at
/// most one byte more than its limit. A write makes the file anew, or shortens it to nothing first,
/// so a write that fails may leave a part of the bytes; it ends once the bytes have reached their
/// device, since some file systems tell only then that they lost them. One name may be read from
/// another file; writes don't follow it.
#[derive(Drop)]
pub struct FileStore<'r, R> {
    system: &'r R,
    from: &'r str,
    to: &'r str,
    read_faults: u64,
    write_faults: u64,
}

impl<'r, R> Model for FileStore<'r, R> {
    ghost use Rattle.input_output.specs.Store.{StoreFaults};

    ghost Value = { StoreFaults };

    ghost view = { λ s. record { read_faults = s.read_faults; write_faults = s.write_faults } };
}

impl<'r, R: Files> FileStore<'r, R> {
    /// A store that has not failed. Contracts see it as its counts of faults.
    pub fn new(system: &'r R) -> FileStore<'r, R>
        ensures { result ≡ record { read_faults = 0; write_faults = 0 } }
    {
        FileStore::redirected(system, "", "")
    }

    /// The same, where a read of the name `from` reads the file `to`, unless `to` is empty.
    pub fn redirected(system: &'r R, from: &'r str, to: &'r str) -> FileStore<'r, R>
        ensures { result ≡ record { read_faults = 0; write_faults = 0 } }
    {
        FileStore {
            system,
            from,
            to,
            read_faults: 0,
            write_faults: 0,
        }
    }
}

// The name whose file is meant.
fn name_led<'a>(from: &str, to: &'a str, name: &'a str) -> &'a str
    ensures { result.now ≡ name_led from.now to.now name.now }
{
    if to == "" {
        return name;
    }
    if from == name { to } else { name }
}

// What a file's content is, or why there is none; `Failed` for every error but those with a name.
fn content_of<R: Files>(
    system: &R,
    alloc: Global,
    name: &str,
    limit: usize,
) -> Result<Bytes, FileFault>
    ensures { IfOk result (λ bytes. length bytes ≤ limit) }
{
    let file = match fs::open(system, name) {
        Ok(file) => file,
        Err(error) => return Err(fault_of(error.kind())),
    };
    match read_all(alloc, &mut ReadSource::new(file), limit.min(usize::MAX - 1)) {
        Ok(bytes) => Ok(bytes),
        Err(AllFault::ReadFault) => Err(FileFault::Failed),
        Err(AllFault::TooLong) => Err(FileFault::TooLong),
        Err(AllFault::OutOfMemory) => Err(FileFault::OutOfMemory),
    }
}

// Only "no such file or directory" and "file name too long" say that there is no file.
fn fault_of(kind: ErrorKind) -> FileFault
    ensures absent { (result ≡ FileFault.NotThere)
        ↔ (kind ≡ ErrorKind.NotFound ⊎ kind ≡ ErrorKind.InvalidFilename) }
    ensures opened { result ≢ FileFault.TooLong }
{
    match kind {
        ErrorKind::NotFound | ErrorKind::InvalidFilename => FileFault::NotThere,
        ErrorKind::OutOfMemory => FileFault::OutOfMemory,
        _ => FileFault::Failed,
    }
}

// Waits until a file's bytes have reached its device, where it has one: a file system may tell only
// then that it lost them. What can't be waited for, as a pipe, is left as it is.
fn keep<F: OpenFile>(file: &F) -> Result<(), SaveFault> {
    match file.sync_all() {
        Ok(()) => Ok(()),
        Err(error) => match error.kind() {
            ErrorKind::InvalidInput | ErrorKind::Unsupported => Ok(()),
            _ => Err(SaveFault::Failed),
        },
    }
}

fn save<R: Files>(system: &R, name: &str, text: &PiecedText) -> Result<(), SaveFault> {
    let mut file = match fs::create(system, name) {
        Ok(file) => file,
        Err(error) => match error.kind() {
            ErrorKind::OutOfMemory => return Err(SaveFault::OutOfMemory),
            _ => return Err(SaveFault::Failed),
        },
    };
    if write_text(&mut WriteSink::new(&mut file), text).is_err() {
        return Err(SaveFault::Failed);
    }
    keep(&file)
}

impl<'r, R: Files> Store for FileStore<'r, R> {
    ghost files = { λ _. None };

    ghost read_faults = { λ s. s.read_faults };

    ghost write_faults = { λ s. s.write_faults };

    ghost calls = { λ _. None };

    fn read_file(&mut self, alloc: Global, name: &str, limit: usize) -> Result<Bytes, FileFault> {
        let file = name_led(self.from, self.to, name);
        let answer = content_of(self.system, alloc, file, limit);
        if let Err(FileFault::Failed) = &answer {
            self.read_faults = self.read_faults.saturating_add(1);
        }
        answer
    }

    fn write_file(
        &mut self,
        _alloc: Global,
        name: &str,
        text: &PiecedText,
    ) -> Result<(), SaveFault> {
        let answer = save(self.system, name, text);
        if let Err(SaveFault::Failed) = &answer {
            self.write_faults = self.write_faults.saturating_add(1);
        }
        answer
    }
}
