ghost use Rattle.std.specs.Prelude.{◌≡◌, ◌<◌, ◌≤◌, ◌^◌};

use crate::answer::answer_of;
use crate::files::{add_policies, read_found};
use crate::words::RehearseWords;
use file_roles::FileList;
use find_records::Format;
use input_output::Store;
use label_base::{OutOfMemory, Row};
use label_rules::Rules;
use policy_files::add_types;
use run_endings::Ending;
use run_faults::Cause;
use std::alloc::Global;
use tool_runs::Tool;
use tree_model::Tree;

impl Tool for RehearseWords {
    ghost use Rattle.std.specs.Prelude.{None, Some, Ok, false, length};
    ghost use Rattle.policy_rehearsal.specs.Answer.{rehearsal_of};
    ghost use Rattle.policy_rehearsal.specs.Files.{files_named, rules_read};
    ghost use Rattle.policy_rehearsal.specs.Words.{AreFew};

    type Found = Row<Rules>;

    ghost reads = { λ words. files_named words.bases };

    ghost records = { λ words. Some words.options.format };

    ghost is_soft = { λ words. false };

    ghost output = { λ words. None };

    ghost files_say = { λ words. rules_read (files_named words.bases) (length words.bases) };

    ghost IsFit = { AreFew };

    ghost answered = { λ words policies entries. Ok (rehearsal_of words policies entries) };

    fn file_list(&self, alloc: Global) -> Result<FileList, OutOfMemory> {
        let mut list = FileList::new(alloc);
        add_policies(alloc, self.bases.as_slice(), &mut list)?;
        add_types(alloc, &mut list)?;
        Ok(list)
    }

    fn record_format(&self) -> Option<Format> {
        Some(self.options.format)
    }

    fn has_soft_errors(&self) -> bool {
        false
    }

    fn read_files<S: Store>(
        &self,
        alloc: Global,
        list: &FileList,
        store: &mut S,
    ) -> Result<Row<Rules>, Cause> {
        read_found(alloc, list, self.bases.len() as u32, store)
    }

    fn answer(&self, alloc: Global, found: &Row<Rules>, tree: &Tree) -> Result<Ending, Cause> {
        Ok(answer_of(alloc, self, found, tree)?)
    }
}
