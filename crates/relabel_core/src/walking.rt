ghost use Rattle.std.specs.Prelude.{◌≡◌, ◌+◌, ◌≤◌, IfOk, length};
ghost use Rattle.spec_match.specs.Scratches.{IsScratchOf};
ghost use Rattle.relabel_core.specs.Swept.{AreSwept};
ghost use Rattle.relabel_core.specs.Walk.{walked_below};
ghost use Rattle.relabel_core.specs.Walked.{AreWalkAnswers, IsFit, walk_of};
ghost use Rattle.relabel_core.specs.Answer.{walk_in};

use crate::deciding::{Visit, decide_entry};
use crate::digesting::{Buffers, buffers_for};
use crate::directories::sweep_directories;
use crate::input::WalkInput;
use crate::noting::{Noted, note_entry};
use crate::swept::{Swept, is_skipped};
use crate::walked::Walked;
use label_base::{OutOfMemory, Steps};
use spec_match::Scratch;
use std::alloc::Global;
use std::sync::ledger::Ledger;

fn note_entries<L: Ledger>(
    alloc: Global,
    input: &WalkInput<'_>,
    swept: &Swept,
    scratch: &mut Scratch,
    steps: &mut Steps<L>,
) -> Result<Noted, OutOfMemory>
    requires fit { IsFit input.now }
    requires swept { AreSwept (walk_of input.now) swept.now.skips.items swept.now.made }
    requires own { IsScratchOf input.now.rules.now.rules scratch.old }
    ensures found { IfOk result (λ noted.
        AreWalkAnswers (walk_of input.now) noted.decided.items noted.winners.items) }
    ensures count { steps.new
        ≤ steps.old + walked_below (walk_of input.now) (length input.now.tree.now) }
{
    let mut noted = Noted::none(alloc, input)?;
    'entries: for entry in 0..input.tree.len() {
        let skipped = is_skipped(input, swept, entry);
        let found = decide_entry(alloc, input, Visit { entry, skipped }, scratch, steps)?;
        note_entry(input, entry, found, &mut noted);
    }
    Ok(noted)
}

// Walks in these buffers.
fn walk_within<'a, L: Ledger>(
    alloc: Global,
    input: &WalkInput<'a>,
    buffers: &mut Buffers,
    steps: &mut Steps<L>,
) -> Result<Walked<'a>, OutOfMemory>
    requires fit { IsFit input.now }
    requires own { IsScratchOf input.now.rules.now.rules buffers.old.scratch }
    ensures walk { IfOk result (λ walked. walk_in walked ≡ walk_of input.now) }
    ensures count { steps.new
        ≤ steps.old + walked_below (walk_of input.now) (length input.now.tree.now) }
{
    let swept = sweep_directories(alloc, input, buffers)?;
    let noted = note_entries(alloc, input, &swept, &mut buffers.scratch, steps)?;
    Ok(Walked::of_noted(input, swept, noted))
}

/// Walks over a tree: finds the directories that are skipped, looks each other entry up that the
/// run is asked for, and notes what decides it and which name of each inode is the first for which
/// a context is decided. It counts at most one step for each entry that is looked up.
pub fn walk<'a, L: Ledger>(
    alloc: Global,
    input: &WalkInput<'a>,
    steps: &mut Steps<L>,
) -> Result<Walked<'a>, OutOfMemory>
    requires { IsFit input.now }
    ensures walk { IfOk result (λ walked. walk_in walked ≡ walk_of input.now) }
    ensures count { steps.new
        ≤ steps.old + walked_below (walk_of input.now) (length input.now.tree.now) }
{
    let mut buffers = buffers_for(alloc, input.rules)?;
    walk_within(alloc, input, &mut buffers, steps)
}
