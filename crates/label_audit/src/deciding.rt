ghost use Rattle.std.specs.Prelude.{◌≡◌, ◌<◌, IfOk};
ghost use Rattle.spec_match.specs.Scratches.{IsScratchOf};
ghost use Rattle.relabel_core.specs.Walk.{walk_count, deciding, is_skipped};
ghost use Rattle.relabel_core.specs.Walked.{IsFit, walk_of};

use label_base::{OutOfMemory, Steps};
use relabel_core::{Visit, WalkInput, decide_entry};
use spec_match::Scratch;
use std::alloc::Global;
use std::marker::Brand;
use std::sync::ledger::{Blank, Ledger};

/// An entry, and the specification that decides it.
#[derive(Clone, Copy)]
pub struct LookedUp {
    pub entry: u32,
    pub spec: Option<u32>,
}

fn decide_counted<L: Ledger>(
    alloc: Global,
    input: &WalkInput<'_>,
    at: Visit,
    scratch: &mut Scratch,
    blank: Blank,
) -> Result<Option<u32>, OutOfMemory>
    requires fit { IsFit input.now }
    requires name { blank.name ≡ L.name }
    requires parts { blank.parts ≡ L.parts }
    requires some { 0 < blank.parts }
    requires entry { at.entry < walk_count (walk_of input.now) }
    requires skipped { at.skipped ≡ is_skipped (walk_of input.now) at.entry }
    requires own { IsScratchOf input.now.rules.now.rules scratch.old }
    ensures own { IsScratchOf input.now.rules.now.rules scratch.new }
    ensures found { IfOk result (λ found. found ≡ deciding (walk_of input.now) at.entry) }
{
    let mut steps = Steps::<L>::open(blank);
    decide_entry(alloc, input, at, scratch, &mut steps)
}

/// The specification that decides an entry of which it is known whether it is skipped, by a look-up
/// that nobody counts.
pub fn decide(
    alloc: Global,
    input: &WalkInput<'_>,
    at: Visit,
    scratch: &mut Scratch,
) -> Result<Option<u32>, OutOfMemory>
    requires fit { IsFit input.now }
    requires entry { at.entry < walk_count (walk_of input.now) }
    requires skipped { at.skipped ≡ is_skipped (walk_of input.now) at.entry }
    requires own { IsScratchOf input.now.rules.now.rules scratch.old }
    ensures own { IsScratchOf input.now.rules.now.rules scratch.new }
    ensures found { IfOk result (λ found. found ≡ deciding (walk_of input.now) at.entry) }
{
    decide_counted::<Brand>(alloc, input, at, scratch, Blank::new(1))
}
