ghost use Rattle.std.specs.Prelude.{◌≡◌, ◌++◌, OnOk};
ghost use Rattle.tree_relabelling.specs.Plan.{stored_names};

use crate::answer::answer_of;
use crate::found::{RelabelFiles, read_found};
use crate::walker::OneWorker;
use crate::words::RelabelWords;
use file_roles::{FileList, FileRole, Part};
use find_records::Format;
use input_output::Store;
use label_base::{Name, OutOfMemory};
use policy_files::{add_policy, add_types};
use run_endings::Ending;
use run_faults::Cause;
use std::alloc::Global;
use tool_runs::Tool;
use tree_model::Tree;

// Adds the file of the stored digests, where there is one.
fn add_stored(alloc: Global, stored: &Option<Name>, list: &mut FileList) -> Result<(), OutOfMemory>
    ensures { OnOk result (list.new ≡ list.old ++ stored_names stored.now) }
{
    match stored {
        None => Ok(()),
        Some(name) => {
            let name = Name::copy_of(alloc, name.as_str())?;
            list.add(FileRole::alone(Part::Stored), name)
        }
    }
}

impl Tool for RelabelWords {
    ghost use Rattle.std.specs.Prelude.{◌<◌, ◌^◌, Ok, Some, length};
    ghost use Rattle.tree_relabelling.specs.Answer.{relabelling_of};
    ghost use Rattle.tree_relabelling.specs.Found.{found_for};
    ghost use Rattle.tree_relabelling.specs.Plan.{relabel_names};

    type Found = RelabelFiles;

    ghost reads = { relabel_names };

    ghost records = { λ words. Some words.options.format };

    ghost is_soft = { λ words. words.soft_errors };

    ghost output = { λ words. words.output };

    ghost files_say = { λ words. found_for words (relabel_names words) };

    ghost IsFit = { λ words. length words.choice.operands < 2 ^ 31 };

    ghost answered = { λ words found entries. Ok (relabelling_of words found entries) };

    fn file_list(&self, alloc: Global) -> Result<FileList, OutOfMemory> {
        let mut list = FileList::new(alloc);
        add_policy(alloc, 0, self.base.as_str(), &mut list)?;
        add_types(alloc, &mut list)?;
        add_stored(alloc, &self.stored, &mut list)?;
        Ok(list)
    }

    fn record_format(&self) -> Option<Format> {
        Some(self.options.format)
    }

    fn has_soft_errors(&self) -> bool {
        self.soft_errors
    }

    fn read_files<S: Store>(
        &self,
        alloc: Global,
        list: &FileList,
        store: &mut S,
    ) -> Result<RelabelFiles, Cause> {
        read_found(alloc, self, list, store)
    }

    fn answer(&self, alloc: Global, found: &RelabelFiles, tree: &Tree) -> Result<Ending, Cause> {
        Ok(answer_of(&OneWorker, alloc, self, found, tree)?)
    }
}
