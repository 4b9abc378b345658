ghost use Rattle.std.specs.Prelude.{◌≡◌, ℕ, ◌<◌, ◌^◌, IfErr, length};
ghost use Rattle.setfattr_dump.specs.Reading.{dump_read};
ghost use Rattle.run_faults.specs.Causes.{Counts, Gives, IsFileCause};
ghost use Rattle.run_input.specs.Files.{Reads};
ghost use Rattle.tree_relabelling.specs.Found.{dump_from, found_for, stored_dump, stored_for};

use crate::words::RelabelWords;
use file_roles::{FileList, FileRole, Part};
use input_output::Store;
use label_base::{Bytes, Fault, Row};
use label_rules::Rules;
use policy_files::read_rules;
use run_faults::Cause;
use run_input::read_part;
use setfattr_dump::Dump;
use std::alloc::Global;

/// What the files say that setfiles and restorecon read.
pub struct RelabelFiles {
    pub rules: Rules,
    /// The dump that has the stored digests.
    pub stored: Dump,
}

// By hand: one call for an owner, where a derived drop is a step for each field.
impl Drop for RelabelFiles {
    fn drop(self) {
        let RelabelFiles {
            rules: _,
            stored: _,
        } = self;
    }
}

fn dump_in(alloc: Global, bytes: &Bytes) -> Result<Dump, Cause>
    requires { length bytes.now < 2 ^ 32 }
    ensures answer { Gives (dump_from (dump_read bytes.now)) result }
    ensures counts { (count : ℕ) → Counts count count result }
    ensures kinds { IfErr result IsFileCause }
{
    match Dump::read(alloc, bytes.as_slice()) {
        Ok(dump) => Ok(dump),
        Err(Fault::Why(refused)) => Err(Cause::DumpRefused {
            line: refused.number,
            why: refused.why,
        }),
        Err(Fault::OutOfMemory) => Err(Cause::OutOfMemory),
    }
}

// Reads the file of the stored digests.
fn read_dump<S: Store>(alloc: Global, list: &FileList, store: &mut S) -> Result<Dump, Cause>
    ensures { Reads S.files S.calls S.read_faults S.write_faults (stored_dump list.now)
        store.old store.new result }
{
    let role = FileRole {
        part: Part::Stored,
        version: 0,
    };
    let bytes = read_part(alloc, list, role, store)?;
    dump_in(alloc, &bytes)
}

// The stored digests, of which there are none where none are asked for.
fn read_stored<S: Store>(
    alloc: Global,
    words: &RelabelWords,
    list: &FileList,
    store: &mut S,
) -> Result<Dump, Cause>
    ensures { Reads S.files S.calls S.read_faults S.write_faults (stored_for words.now list.now)
        store.old store.new result }
{
    match &words.stored {
        Some(_) => read_dump(alloc, list, store),
        None => Ok(Dump {
            sections: Row::new(alloc),
        }),
    }
}

/// Reads the files of a policy, then that of the stored digests, where one is asked for.
///
/// The error is a failed read, or the first refusal.
pub fn read_found<S: Store>(
    alloc: Global,
    words: &RelabelWords,
    list: &FileList,
    store: &mut S,
) -> Result<RelabelFiles, Cause>
    ensures { Reads S.files S.calls S.read_faults S.write_faults (found_for words.now list.now)
        store.old store.new result }
{
    let rules = read_rules(alloc, list, store)?;
    let stored = read_stored(alloc, words, list, store)?;
    Ok(RelabelFiles { rules, stored })
}
