ghost use Rattle.std.specs.Prelude.{◌<◌, ◌^◌, length};
ghost use Rattle.file_roles.specs.Roles.{role};
ghost use Rattle.file_roles.specs.declared.role.Part.TheVariants as parts;
ghost use Rattle.run_input.specs.Files.{Reads, part_says};
ghost use Rattle.label_audit.specs.Found.{audit_found, dump_for, given_dump, run_found};

use crate::words::AuditWords;
use file_roles::{FileList, FileRole, Part};
use input_output::Store;
use label_base::{Bytes, Name};
use run_faults::Cause;
use run_input::read_part;
use std::alloc::Global;
use tool_runs::Tool;
use tree_relabelling::{RelabelFiles, RelabelWords};

/// What the files say that audit reads.
pub struct AuditFiles {
    /// What those of the run say.
    pub run: RelabelFiles,
    /// The report that is audited.
    pub report: Bytes,
    /// The dump that is audited, where the run writes one.
    pub dump: Option<Bytes>,
}

// By hand: one call for an owner, where a derived drop is a step for each field.
impl Drop for AuditFiles {
    fn drop(self) {
        let AuditFiles {
            run: _,
            report: _,
            dump: _,
        } = self;
    }
}

// Reads the files that the run reads.
fn read_run<S: Store>(
    alloc: Global,
    words: &RelabelWords,
    store: &mut S,
) -> Result<RelabelFiles, Cause>
    requires { length words.now.choice.operands < 2 ^ 31 }
    ensures { Reads S.files S.calls S.read_faults S.write_faults (run_found words.now)
        store.old store.new result }
{
    let list = words.file_list(alloc)?;
    words.read_files(alloc, &list, store)
}

// Reads the file of the report.
fn read_report<S: Store>(alloc: Global, list: &FileList, store: &mut S) -> Result<Bytes, Cause>
    ensures { Reads S.files S.calls S.read_faults S.write_faults
        (part_says list.now (role parts.Report 0))
        store.old store.new result }
{
    let role = FileRole {
        part: Part::Report,
        version: 0,
    };
    read_part(alloc, list, role, store)
}

// Reads the file of the dump.
fn read_output<S: Store>(
    alloc: Global,
    list: &FileList,
    store: &mut S,
) -> Result<Option<Bytes>, Cause>
    ensures { Reads S.files S.calls S.read_faults S.write_faults (given_dump list.now)
        store.old store.new result }
{
    let role = FileRole {
        part: Part::Output,
        version: 0,
    };
    let bytes = read_part(alloc, list, role, store)?;
    Ok(Some(bytes))
}

// Reads the file of the dump, where the run writes one.
fn read_dump<S: Store>(
    alloc: Global,
    output: &Option<Name>,
    list: &FileList,
    store: &mut S,
) -> Result<Option<Bytes>, Cause>
    ensures { Reads S.files S.calls S.read_faults S.write_faults (dump_for output.now list.now)
        store.old store.new result }
{
    match output {
        None => Ok(None),
        Some(_) => read_output(alloc, list, store),
    }
}

/// Reads the files of the run, then its report, then its dump where it writes one.
///
/// The error is a failed read, or the first refusal.
pub fn read_found<S: Store>(
    alloc: Global,
    words: &AuditWords,
    list: &FileList,
    store: &mut S,
) -> Result<AuditFiles, Cause>
    requires { length words.now.inner.choice.operands < 2 ^ 31 }
    ensures { Reads S.files S.calls S.read_faults S.write_faults (audit_found words.now list.now)
        store.old store.new result }
{
    let run = read_run(alloc, &words.inner, store)?;
    let report = read_report(alloc, list, store)?;
    let dump = read_dump(alloc, &words.inner.output, list, store)?;
    Ok(AuditFiles { run, report, dump })
}
