ghost use Rattle.std.specs.Prelude.{◌≡◌, ℕ, ◌<◌, ◌≤◌, ◌^◌, IfErr, IfOk, None, length, option_map};
ghost use Rattle.run_faults.specs.Causes.{Counts, Gives, IsFileCause, IsInputCause};
ghost use Rattle.find_records.specs.Record.{AreOfFormat};
ghost use Rattle.find_records.specs.declared.format.Format.TheVariants.{One};
ghost use Rattle.run_input.specs.Records.{records_read};
ghost use Rattle.run_input.specs.declared.records.TheConstants.{MOST_RECORDS};
ghost use Rattle.sample_tree.specs.Plan.{answered_for, own_files, own_names, own_rules};
ghost use Rattle.sample_tree.specs.Sample.{sample_records};
ghost use Rattle.tool_runs.specs.Stages.{saved_name};

use crate::records::{SPECS, sample_records};
use crate::walks::sample_ending;
use crate::words::SampleWords;
use file_roles::FileList;
use find_records::Format;
use input_output::{Store, SureSource, SureStore};
use label_base::OutOfMemory;
use label_rules::Rules;
use policy_files::{add_policy, add_types, read_rules};
use run_endings::Ending;
use run_faults::Cause;
use run_input::read_tree;
use std::alloc::Global;
use tool_runs::Tool;
use tree_model::Tree;

/// The name of the base file of a sample, which stands in memory alone.
const OWN_FILE: &str = "file_contexts";

// How many bytes of a sample are read at a time.
const PIECE: usize = 65_536;

// A store with the file of a sample.
fn own_store(alloc: Global) -> Result<SureStore, OutOfMemory>
    ensures { IfOk result (λ store. store ≡ own_files) }
{
    let mut store = SureStore::new(alloc);
    store.put(alloc, OWN_FILE, SPECS.as_bytes())?;
    Ok(store)
}

fn own_list(alloc: Global) -> Result<FileList, OutOfMemory>
    ensures { IfOk result (λ list. list ≡ own_names) }
{
    let mut list = FileList::new(alloc);
    add_policy(alloc, 0, OWN_FILE, &mut list)?;
    add_types(alloc, &mut list)?;
    Ok(list)
}

// Reads these files of a sample.
#[tactic(auto, using(run_input::proofs::CountLemmas::calm_counts))]
fn read_listed(alloc: Global, list: &FileList) -> Result<Rules, Cause>
    requires { list.now ≡ own_names }
    ensures answer { Gives own_rules.says result }
    ensures counts { (count : ℕ) → Counts count count result }
    ensures kinds { IfErr result IsFileCause }
{
    let mut store = own_store(alloc)?;
    read_rules(alloc, list, &mut store)
}

// Reads the files of a sample, by the readers of any others.
fn read_own_files(alloc: Global) -> Result<Rules, Cause>
    ensures answer { Gives own_rules.says result }
    ensures counts { (count : ℕ) → Counts count count result }
    ensures kinds { IfErr result IsFileCause }
{
    let list = own_list(alloc)?;
    read_listed(alloc, &list)
}

// Reads the records of a sample, by the reader of any others.
#[tactic(auto, using(run_input::proofs::CountLemmas::calm_counts))]
fn read_own_records(alloc: Global, count: u32) -> Result<Tree, Cause>
    ensures answer { Gives (records_read One (sample_records count)) result }
    ensures counts { (count : ℕ) → Counts count count result }
    ensures kinds { IfErr result IsInputCause }
    ensures few { IfOk result (λ tree. length tree ≤ MOST_RECORDS) }
    ensures of_format { IfOk result (λ tree. AreOfFormat One tree) }
{
    let records = sample_records(alloc, count)?;
    let mut source = SureSource::new(records, PIECE);
    read_tree(alloc, Format::One, &mut source)
}

// What a sample of so many files writes, by its rules.
#[tactic(auto, unfolding(crate::specs::Plan::answered_for), using(crate::proofs::WalkLemmas::saves_none))]
fn answer_for(alloc: Global, rules: &Rules, count: u32) -> Result<Ending, Cause>
    ensures meant { Gives (answered_for rules.now count) result }
    ensures counts { (n : ℕ) → Counts n n result }
    ensures kinds { IfErr result IsInputCause }
    ensures saved { IfOk result (λ ending. option_map saved_name ending.saved ≡ None) }
{
    let tree = read_own_records(alloc, count)?;
    Ok(sample_ending(alloc, rules, &tree)?)
}

impl Tool for SampleWords {
    ghost use Rattle.std.specs.Prelude.{[], None, false};
    ghost use Rattle.sample_tree.specs.Plan.{answered_for, own_rules};

    type Found = Rules;

    ghost reads = { λ words. [] };

    ghost records = { λ words. None };

    ghost is_soft = { λ words. false };

    ghost output = { λ words. None };

    ghost files_say = { λ words files. own_rules };

    ghost IsFit = { λ words. Unit {0} };

    ghost answered = { λ words rules entries. answered_for rules words.count };

    fn file_list(&self, alloc: Global) -> Result<FileList, OutOfMemory> {
        Ok(FileList::new(alloc))
    }

    fn record_format(&self) -> Option<Format> {
        None
    }

    fn has_soft_errors(&self) -> bool {
        false
    }

    fn read_files<S: Store>(
        &self,
        alloc: Global,
        _list: &FileList,
        _store: &mut S,
    ) -> Result<Rules, Cause> {
        read_own_files(alloc)
    }

    fn answer(&self, alloc: Global, found: &Rules, _tree: &Tree) -> Result<Ending, Cause> {
        answer_for(alloc, found, self.count)
    }
}
