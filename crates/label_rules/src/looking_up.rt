ghost use Rattle.std.specs.Prelude.{◌≡◌, ◌+◌, ◌≤◌, ◌<◌, IfOk, IfSome, length};
ghost use Rattle.find_records.specs.Entry.{entry_of};
ghost use Rattle.spec_match.specs.Scratches.{IsScratchOf};
ghost use Rattle.file_paths.specs.PathRef.{path_of};
ghost use Rattle.label_rules.specs.LookUp.{index_asked, index_for};

use crate::rules::Rules;
use file_paths::PathRef;
use find_records::Entry;
use label_base::{Asked, OutOfMemory, Steps};
use spec_match::Scratch;
use std::alloc::Global;
use std::sync::ledger::Ledger;

/// The index of the specification that decides a path: the last one that applies to what is asked
/// and whose language holds the substituted path (selabel_file(5)). There is none where no
/// specification does. It counts at most one step.
#[tactic(auto, unfolding(crate::specs::LookUp::index_asked))]
pub fn look_up_path<L: Ledger>(
    alloc: Global,
    rules: &Rules,
    path: &PathRef<'_>,
    asked: Asked,
    scratch: &mut Scratch,
    steps: &mut Steps<L>,
) -> Result<Option<u32>, OutOfMemory>
    requires { IsScratchOf rules.now.rules scratch.old }
    ensures own { IsScratchOf rules.now.rules scratch.new }
    ensures found { IfOk result (λ found.
        found ≡ index_asked rules.now (path_of path.now) asked) }
    ensures within { IfOk result (λ found. IfSome found (λ i. i < length rules.now.rules)) }
    ensures count { steps.new ≤ steps.old + 1 }
{
    let specs = &rules.rules;
    match rules.subs.changed(alloc, path)? {
        Some(changed) => Ok(specs.last_match(scratch, &changed.path(), asked, steps)),
        None => Ok(specs.last_match(scratch, path, asked, steps)),
    }
}

/// The index of the specification that decides an entry: that of its path, where its kind is asked
/// for. It counts at most one step.
pub fn look_up<L: Ledger>(
    alloc: Global,
    rules: &Rules,
    entry: &Entry<'_>,
    scratch: &mut Scratch,
    steps: &mut Steps<L>,
) -> Result<Option<u32>, OutOfMemory>
    requires { IsScratchOf rules.now.rules scratch.old }
    ensures own { IsScratchOf rules.now.rules scratch.new }
    ensures found { IfOk result (λ found. found ≡ index_for rules.now (entry_of entry.now)) }
    ensures within { IfOk result (λ found. IfSome found (λ i. i < length rules.now.rules)) }
    ensures count { steps.new ≤ steps.old + 1 }
{
    let asked = Asked::Of(entry.kind);
    look_up_path(alloc, rules, &entry.path, asked, scratch, steps)
}
