ghost use Rattle.std.specs.Prelude.{◌≡◌, ◌<◌, ◌≤◌, IfOk};
ghost use Rattle.tree_relabelling.specs.declared.letters.TheConstants.{MOST_WORKERS};
ghost use Rattle.relabel_core.specs.Answer.{walk_in};
ghost use Rattle.relabel_core.specs.Stored.{digests_of};
ghost use Rattle.relabel_core.specs.Walked.{IsFit, walk_for, walk_of};
ghost use Rattle.relabel_runs.specs.Laws.{KeepsLabels};

use crate::workers::walk_shared;
use label_base::OutOfMemory;
use relabel_core::{WalkInput, Walked};
use std::alloc::Global;
use std::sync::Wait;
use std::thread::Threads;
use tree_model::Choice;

/// Walks by so many workers over a tree that other runs may have left as it is, with the digests
/// that they stored: the labels that it leaves are those that all of them and this walk leave with
/// skipping off. What is walked over is what [`walk_input`](relabel_core::walk_input) makes of a
/// choice.
pub fn next_walk_shared<'a, R: Threads + Wait + Sync>(
    rt: &R,
    alloc: Global,
    choice: &Choice,
    input: &WalkInput<'a>,
    workers: u32,
) -> Result<Walked<'a>, OutOfMemory>
    requires fit { IsFit input.now }
    requires chosen { walk_of input.now ≡ walk_for input.now.tree.now choice.now
        input.now.rules.now input.now.options (digests_of input.now.stored.now) }
    requires some { 0 < workers }
    requires few { workers ≤ MOST_WORKERS }
    ensures walk { IfOk result (λ walked. walk_in walked ≡ walk_for input.now.tree.now choice.now
        input.now.rules.now input.now.options (digests_of input.now.stored.now)) }
    ensures labels { IfOk result (λ walked. KeepsLabels input.now.tree.now
        (digests_of input.now.stored.now) (record {
          rules = input.now.rules.now;
          choice = choice.now;
          options = input.now.options;
        }) (walk_in walked)) }
{
    let _ = choice;
    walk_shared(rt, alloc, input, workers)
}
