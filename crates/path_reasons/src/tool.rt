use crate::answer::answer_of;
use crate::policy::{PolicyLines, read_policy_lines};
use crate::words::ExplainWords;
use file_roles::FileList;
use find_records::Format;
use input_output::Store;
use label_base::OutOfMemory;
use policy_files::add_policy;
use run_endings::Ending;
use run_faults::Cause;
use std::alloc::Global;
use tool_runs::Tool;
use tree_model::Tree;

impl Tool for ExplainWords {
    ghost use Rattle.std.specs.Prelude.{None, Ok, false};
    ghost use Rattle.path_reasons.specs.Answer.{explained_ending};
    ghost use Rattle.path_reasons.specs.Plan.{explain_names};
    ghost use Rattle.path_reasons.specs.Policy.{policy_lines};

    type Found = PolicyLines;

    ghost reads = { explain_names };

    ghost records = { λ words. None };

    ghost is_soft = { λ words. false };

    ghost output = { λ words. None };

    ghost files_say = { λ words. policy_lines (explain_names words) };

    ghost IsFit = { λ words. Unit {0} };

    ghost answered = { λ words found entries.
        Ok (explained_ending (explain_names words) words found) };

    fn file_list(&self, alloc: Global) -> Result<FileList, OutOfMemory> {
        let mut list = FileList::new(alloc);
        add_policy(alloc, 0, self.base.as_str(), &mut list)?;
        Ok(list)
    }

    fn record_format(&self) -> Option<Format> {
        None
    }

    fn has_soft_errors(&self) -> bool {
        false
    }

    fn read_files<S: Store>(
        &self,
        alloc: Global,
        list: &FileList,
        store: &mut S,
    ) -> Result<PolicyLines, Cause> {
        read_policy_lines(alloc, list, store)
    }

    fn answer(&self, alloc: Global, found: &PolicyLines, _tree: &Tree) -> Result<Ending, Cause> {
        let names = self.file_list(alloc)?;
        Ok(answer_of(alloc, &names, self, found)?)
    }
}
