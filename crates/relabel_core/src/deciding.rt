ghost use Rattle.std.specs.Prelude.{◌≡◌, ◌+◌, ◌<◌, ◌≤◌, IfOk, IfSome, length};
ghost use Rattle.spec_match.specs.Scratches.{IsScratchOf};
ghost use Rattle.relabel_core.specs.Walk.{walk_count, deciding, is_skipped, one_if, walked};
ghost use Rattle.relabel_core.specs.Walked.{IsFit, walk_of};

use crate::input::WalkInput;
use label_base::{OutOfMemory, Steps};
use label_rules::look_up;
use spec_match::Scratch;
use std::alloc::Global;
use std::sync::ledger::Ledger;

/// Whether an entry is looked at, of which it is known whether it is skipped: the run is asked for
/// it, and it isn't.
#[tactic(auto, unfolding(crate::specs::Walk::walked))]
pub fn is_walked(input: &WalkInput<'_>, e: u32, skipped: bool) -> bool
    requires fit { IsFit input.now }
    requires entry { e < walk_count (walk_of input.now) }
    requires skipped { skipped ≡ is_skipped (walk_of input.now) e }
    ensures { result ≡ walked (walk_of input.now) e }
{
    input.chosen.is_live(e) && !skipped
}

/// An entry that a walk comes to, and whether it is skipped.
#[derive(Clone, Copy)]
pub struct Visit {
    pub entry: u32,
    pub skipped: bool,
}

/// The index of the specification that decides an entry, of which it is known whether it is
/// skipped. There is none where no specification does, nor where the entry isn't looked at. It
/// counts at most one step, and none for an entry that isn't looked at.
#[tactic(auto, unfolding(crate::specs::Walk::deciding))]
pub fn decide_entry<L: Ledger>(
    alloc: Global,
    input: &WalkInput<'_>,
    at: Visit,
    scratch: &mut Scratch,
    steps: &mut Steps<L>,
) -> Result<Option<u32>, OutOfMemory>
    requires fit { IsFit input.now }
    requires entry { at.entry < walk_count (walk_of input.now) }
    requires skipped { at.skipped ≡ is_skipped (walk_of input.now) at.entry }
    requires own { IsScratchOf input.now.rules.now.rules scratch.old }
    ensures own { IsScratchOf input.now.rules.now.rules scratch.new }
    ensures found { IfOk result (λ found. found ≡ deciding (walk_of input.now) at.entry) }
    ensures within { IfOk result (λ found.
        IfSome found (λ i. i < length input.now.rules.now.rules)) }
    ensures count { steps.new ≤ steps.old + one_if (walked (walk_of input.now) at.entry) }
{
    if !is_walked(input, at.entry, at.skipped) {
        return Ok(None);
    }
    look_up(
        alloc,
        input.rules,
        &input.tree.entry(at.entry),
        scratch,
        steps,
    )
}
