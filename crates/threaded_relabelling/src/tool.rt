use crate::workers::Workers;
use file_roles::FileList;
use find_records::Format;
use input_output::Store;
use label_base::OutOfMemory;
use run_endings::Ending;
use run_faults::Cause;
use std::alloc::Global;
use std::sync::Wait;
use std::thread::Threads;
use tool_runs::Tool;
use tree_model::Tree;
use tree_relabelling::{RelabelFiles, RelabelWords, answer_of};

/// setfiles(8) or restorecon(8) by several workers.
pub struct ByWorkers<'r, R: Threads + Wait + Sync> {
    /// What it is asked for.
    pub words: RelabelWords,
    pub workers: Workers<'r, R>,
}

// By hand: one call for an owner, where a derived drop is a step for each field.
impl<R: Threads + Wait + Sync> Drop for ByWorkers<'_, R> {
    fn drop(self) {
        let ByWorkers {
            words: _,
            workers: _,
        } = self;
    }
}

impl<'r, R: Threads + Wait + Sync> Tool for ByWorkers<'r, R> {
    ghost use Rattle.std.specs.Prelude.{◌<◌, ◌^◌, Ok, Some, length};
    ghost use Rattle.std.specs.Thread.{IsSync};
    ghost use Rattle.tree_relabelling.specs.Answer.{relabelling_of};
    ghost use Rattle.tree_relabelling.specs.Found.{found_for};
    ghost use Rattle.tree_relabelling.specs.Plan.{relabel_names};

    type Found = RelabelFiles;

    ghost reads = { λ by. relabel_names by.words };

    ghost records = { λ by. Some by.words.options.format };

    ghost is_soft = { λ by. by.words.soft_errors };

    ghost output = { λ by. by.words.output };

    ghost files_say = { λ by. found_for by.words (relabel_names by.words) };

    ghost IsFit = { λ by. (length by.words.choice.operands < 2 ^ 31) × IsSync R.row };

    ghost answered = { λ by found entries. Ok (relabelling_of by.words found entries) };

    fn file_list(&self, alloc: Global) -> Result<FileList, OutOfMemory> {
        self.words.file_list(alloc)
    }

    fn record_format(&self) -> Option<Format> {
        self.words.record_format()
    }

    fn has_soft_errors(&self) -> bool {
        self.words.has_soft_errors()
    }

    fn read_files<S: Store>(
        &self,
        alloc: Global,
        list: &FileList,
        store: &mut S,
    ) -> Result<RelabelFiles, Cause> {
        self.words.read_files(alloc, list, store)
    }

    fn answer(&self, alloc: Global, found: &RelabelFiles, tree: &Tree) -> Result<Ending, Cause> {
        Ok(answer_of(&self.workers, alloc, &self.words, found, tree)?)
    }
}
