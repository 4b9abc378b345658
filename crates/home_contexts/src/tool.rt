ghost use Rattle.std.specs.Prelude.{◌≡◌, IfOk};
ghost use Rattle.home_contexts.specs.Plan.{homes_ending, homes_names};

use crate::asked::HomesWords;
use crate::found::read_found;
use file_roles::{FileList, FileRole, Part};
use find_records::Format;
use input_output::Store;
use label_base::{Bytes, Name, OutOfMemory, PiecedText};
use run_endings::{End, Ending, Saved};
use run_faults::Cause;
use std::alloc::Global;
use tool_runs::Tool;
use tree_model::Tree;

// The files that are read, and behind them the one that gets the text, for its name.
fn file_list(alloc: Global, words: &HomesWords) -> Result<FileList, OutOfMemory>
    ensures { IfOk result (λ list. list ≡ homes_names words.now) }
{
    let mut list = FileList::new(alloc);
    list.add(
        FileRole::alone(Part::Template),
        Name::copy_of(alloc, words.template.as_str())?,
    )?;
    list.add(
        FileRole::alone(Part::Users),
        Name::copy_of(alloc, words.users.as_str())?,
    )?;
    list.add(
        FileRole::alone(Part::Homedirs),
        Name::copy_of(alloc, words.output.as_str())?,
    )?;
    Ok(list)
}

fn ending(alloc: Global, words: &HomesWords, text: &Bytes) -> Result<Ending, OutOfMemory>
    ensures { IfOk result (λ ending. ending ≡ homes_ending words.now text.now) }
{
    let saved = Saved {
        name: Name::copy_of(alloc, words.output.as_str())?,
        text: PiecedText::of(alloc, Bytes::copy_of(alloc, text.as_slice())?)?,
    };
    Ok(Ending {
        report: PiecedText::of(alloc, Bytes::new(alloc))?,
        end: End::Done,
        saved: Some(saved),
    })
}

impl Tool for HomesWords {
    ghost use Rattle.std.specs.Prelude.{None, Some, Ok, false};
    ghost use Rattle.home_contexts.specs.Found.{text_found};
    ghost use Rattle.home_contexts.specs.Plan.{homes_ending, homes_names};

    type Found = Bytes;

    ghost reads = { homes_names };

    ghost records = { λ words. None };

    ghost is_soft = { λ words. false };

    ghost output = { λ words. Some words.output };

    ghost files_say = { λ words. text_found (homes_names words) };

    ghost IsFit = { λ words. Unit {0} };

    ghost answered = { λ words text entries. Ok (homes_ending words text) };

    fn file_list(&self, alloc: Global) -> Result<FileList, OutOfMemory> {
        file_list(alloc, self)
    }

    fn record_format(&self) -> Option<Format> {
        None
    }

    fn has_soft_errors(&self) -> bool {
        false
    }

    fn read_files<S: Store>(
        &self,
        alloc: Global,
        list: &FileList,
        store: &mut S,
    ) -> Result<Bytes, Cause> {
        read_found(alloc, list, store)
    }

    fn answer(&self, alloc: Global, found: &Bytes, _tree: &Tree) -> Result<Ending, Cause> {
        Ok(ending(alloc, self, found)?)
    }
}
