ghost use Rattle.std.specs.Prelude.{◌≡◌, ◌++◌, OnOk};
ghost use Rattle.label_audit.specs.Plan.{output_names};

use crate::answer::answer_of;
use crate::found::{AuditFiles, read_found};
use crate::words::AuditWords;
use file_roles::{FileList, FileRole, Part};
use find_records::Format;
use input_output::Store;
use label_base::{Name, OutOfMemory};
use run_endings::Ending;
use run_faults::Cause;
use std::alloc::Global;
use tool_runs::Tool;
use tree_model::Tree;

// Adds the file of the dump, where the run writes one.
fn add_output(alloc: Global, output: &Option<Name>, list: &mut FileList) -> Result<(), OutOfMemory>
    ensures { OnOk result (list.new ≡ list.old ++ output_names output.now) }
{
    match output {
        None => Ok(()),
        Some(name) => {
            let name = Name::copy_of(alloc, name.as_str())?;
            list.add(FileRole::alone(Part::Output), name)
        }
    }
}

impl Tool for AuditWords {
    ghost use Rattle.std.specs.Prelude.{◌<◌, ◌^◌, None, Ok, Some, false, length};
    ghost use Rattle.label_audit.specs.Answer.{audit_of};
    ghost use Rattle.label_audit.specs.Found.{audit_found};
    ghost use Rattle.label_audit.specs.Plan.{audit_names};

    type Found = AuditFiles;

    ghost reads = { audit_names };

    ghost records = { λ words. Some words.inner.options.format };

    ghost is_soft = { λ words. false };

    ghost output = { λ words. None };

    ghost files_say = { λ words. audit_found words (audit_names words) };

    ghost IsFit = { λ words. length words.inner.choice.operands < 2 ^ 31 };

    ghost answered = { λ words found entries. Ok (audit_of words found entries) };

    fn file_list(&self, alloc: Global) -> Result<FileList, OutOfMemory> {
        let mut list = self.inner.file_list(alloc)?;
        let report = Name::copy_of(alloc, self.report.as_str())?;
        list.add(FileRole::alone(Part::Report), report)?;
        add_output(alloc, &self.inner.output, &mut list)?;
        Ok(list)
    }

    fn record_format(&self) -> Option<Format> {
        Some(self.inner.options.format)
    }

    fn has_soft_errors(&self) -> bool {
        false
    }

    fn read_files<S: Store>(
        &self,
        alloc: Global,
        list: &FileList,
        store: &mut S,
    ) -> Result<AuditFiles, Cause> {
        read_found(alloc, self, list, store)
    }

    fn answer(&self, alloc: Global, found: &AuditFiles, tree: &Tree) -> Result<Ending, Cause> {
        Ok(answer_of(alloc, self, found, tree)?)
    }
}
