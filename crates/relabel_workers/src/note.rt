ghost use Rattle.std.specs.Prelude.{◌≡◌, ◌<◌, IfOk, IfSome, length};
ghost use Rattle.spec_match.specs.Scratches.{IsScratchOf};
ghost use Rattle.relabel_core.specs.Swept.{needed};
ghost use Rattle.relabel_core.specs.Walk.{walk_count, skippable};
ghost use Rattle.relabel_core.specs.Walked.{IsFit, walk_of};
ghost use Rattle.relabel_workers.specs.Alone.{AreListingsFor, IsNoteOf, decided_alone};

use dir_digest::Listings;
use label_base::{OutOfMemory, Steps};
use label_rules::look_up;
use relabel_core::{Buffers, DirectoryFinding, WalkInput, find_directory};
use spec_match::Scratch;
use std::alloc::Global;
use std::marker::Brand;
use std::sync::ledger::{Blank, Ledger};

/// What is found of one entry by itself, whatever is found of the directories above it.
#[derive(Drop)]
pub struct Note {
    pub entry: u32,
    /// The specification that decides it, if no directory above it is skipped.
    pub decided: Option<u32>,
    pub finding: DirectoryFinding,
}

// A look-up that nobody counts.
#[tactic(auto, unfolding(crate::specs::Alone::decided_alone))]
fn look_up_alone<L: Ledger>(
    alloc: Global,
    input: &WalkInput<'_>,
    e: u32,
    skipped: bool,
    scratch: &mut Scratch,
    blank: Blank,
) -> Result<Option<u32>, OutOfMemory>
    requires fit { IsFit input.now }
    requires entry { e < walk_count (walk_of input.now) }
    requires skipped { skipped ≡ skippable (walk_of input.now) e }
    requires own { IsScratchOf input.now.rules.now.rules scratch.old }
    requires name { blank.name ≡ L.name }
    requires parts { blank.parts ≡ L.parts }
    requires some { 0 < blank.parts }
    ensures own { IsScratchOf input.now.rules.now.rules scratch.new }
    ensures found { IfOk result (λ found. found ≡ decided_alone (walk_of input.now) e) }
    ensures within { IfOk result (λ found.
        IfSome found (λ i. i < length input.now.rules.now.rules)) }
{
    if !input.chosen.is_live(e) {
        return Ok(None);
    }
    if skipped {
        return Ok(None);
    }
    let mut steps = Steps::<L>::open(blank);
    look_up(
        alloc,
        input.rules,
        &input.tree.entry(e),
        scratch,
        &mut steps,
    )
}

// What decides an entry of which it is known whether it is skipped itself, if no directory above it
// is.
fn decide_alone(
    alloc: Global,
    input: &WalkInput<'_>,
    e: u32,
    skipped: bool,
    scratch: &mut Scratch,
) -> Result<Option<u32>, OutOfMemory>
    requires fit { IsFit input.now }
    requires entry { e < walk_count (walk_of input.now) }
    requires skipped { skipped ≡ skippable (walk_of input.now) e }
    requires own { IsScratchOf input.now.rules.now.rules scratch.old }
    ensures own { IsScratchOf input.now.rules.now.rules scratch.new }
    ensures found { IfOk result (λ found. found ≡ decided_alone (walk_of input.now) e) }
    ensures within { IfOk result (λ found.
        IfSome found (λ i. i < length input.now.rules.now.rules)) }
{
    look_up_alone::<Brand>(alloc, input, e, skipped, scratch, Blank::new(1))
}

// The digest of an entry and whether it is skipped by itself, where digests count at all.
#[tactic(auto, using(crate::proofs::AloneLemmas::needs_none, crate::proofs::AloneLemmas::skips_none))]
fn find_alone(
    alloc: Global,
    input: &WalkInput<'_>,
    e: u32,
    listings: &Option<Listings<'_>>,
    buffers: &mut Buffers,
) -> Result<DirectoryFinding, OutOfMemory>
    requires fit { IsFit input.now }
    requires entry { e < walk_count (walk_of input.now) }
    requires listings { AreListingsFor input.now listings.now }
    requires own { IsScratchOf input.now.rules.now.rules buffers.old.scratch }
    ensures own { IsScratchOf input.now.rules.now.rules buffers.new.scratch }
    ensures digest { IfOk result (λ found. found.digest ≡ needed (walk_of input.now) e) }
    ensures skippable { IfOk result (λ found.
        found.skippable ≡ skippable (walk_of input.now) e) }
{
    match listings {
        None => Ok(DirectoryFinding {
            digest: None,
            skippable: false,
        }),
        Some(listings) => find_directory(alloc, input, e, listings, buffers),
    }
}

/// Finds what is to be noted of an entry.
pub fn note_of(
    alloc: Global,
    input: &WalkInput<'_>,
    e: u32,
    listings: &Option<Listings<'_>>,
    buffers: &mut Buffers,
) -> Result<Note, OutOfMemory>
    requires fit { IsFit input.now }
    requires entry { e < walk_count (walk_of input.now) }
    requires listings { AreListingsFor input.now listings.now }
    requires own { IsScratchOf input.now.rules.now.rules buffers.old.scratch }
    ensures own { IsScratchOf input.now.rules.now.rules buffers.new.scratch }
    ensures entry { IfOk result (λ note. note.entry ≡ e) }
    ensures noted { IfOk result (λ note. IsNoteOf (walk_of input.now) note) }
{
    let finding = find_alone(alloc, input, e, listings, buffers)?;
    let decided = decide_alone(alloc, input, e, finding.skippable, &mut buffers.scratch)?;
    Ok(Note {
        entry: e,
        decided,
        finding,
    })
}
