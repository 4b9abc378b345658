ghost use Rattle.std.specs.Prelude.{◌≡◌, ◌<◌, IfOk, OnOk};
ghost use Rattle.tree_model.specs.Groups.{group_of};
ghost use Rattle.relabel_core.specs.KnownEntry.{index_known, walk_known};
ghost use Rattle.relabel_core.specs.Swept.{SkipEndsAt, skip_of};
ghost use Rattle.relabel_core.specs.Walk.{walk_count, deciding, is_skipped};
ghost use Rattle.relabel_core.specs.Walked.{IsFit, walk_of};
ghost use Rattle.label_audit.specs.Looking.{AreReady};
ghost use Rattle.label_audit.specs.Skipping.{IsSkipped};
ghost use Rattle.label_audit.specs.Winners.{IsWinner};

use crate::deciding::{LookedUp, decide};
use crate::skipping::{Skipped, skip_entry};
use crate::winners::{GroupWinners, NO_WINNER, Winner, winner_of};
use dir_digest::{Digest, Listings};
use label_base::OutOfMemory;
use relabel_core::{
    Buffers, Cursor, EntryFound, Known, Skip, Visit, WalkInput, buffers_for, does_skip, listings_by,
};
use std::alloc::Global;

/// What the entries of a walk are looked up with.
#[derive(Drop)]
pub struct LookUps<'a> {
    pub listings: Listings<'a>,
    pub buffers: Buffers,
    pub winners: GroupWinners,
}

/// What is found of an entry.
#[derive(Clone, Copy)]
pub struct FoundEntry<'a> {
    pub at: Cursor,
    pub known: Known<'a>,
    /// The digest that it gets anew.
    pub renewed: Option<Digest>,
}

/// Look-ups for a walk, of which none was made yet.
pub fn look_ups<'a>(alloc: Global, input: &WalkInput<'a>) -> Result<LookUps<'a>, OutOfMemory>
    ensures { IfOk result (AreReady (walk_of input.now)) }
{
    let listings = listings_by(alloc, input.rules, &input.options)?;
    let buffers = buffers_for(alloc, input.rules)?;
    Ok(LookUps {
        listings,
        buffers,
        winners: GroupWinners::new(alloc),
    })
}

// The winner of the group of an entry; none where the entry is skipped.
fn winner_unless(
    alloc: Global,
    input: &WalkInput<'_>,
    own: LookedUp,
    skipped: bool,
    lookups: &mut LookUps<'_>,
) -> Result<Winner, OutOfMemory>
    requires fit { IsFit input.now }
    requires entry { own.entry < walk_count (walk_of input.now) }
    requires decided { own.spec ≡ deciding (walk_of input.now) own.entry }
    requires skipped { skipped ≡ is_skipped (walk_of input.now) own.entry }
    requires ready { AreReady (walk_of input.now) lookups.old }
    ensures ready { OnOk result (AreReady (walk_of input.now) lookups.new) }
    ensures found { IfOk result
        (IsWinner (walk_of input.now) (group_of input.now.tree.now own.entry)) }
{
    if skipped {
        return Ok(NO_WINNER);
    }
    let scratch = &mut lookups.buffers.scratch;
    winner_of(alloc, input, own, scratch, &mut lookups.winners)
}

/// What is known of an entry that was looked up, and of which it is known whether it is skipped.
pub fn known_of<'a>(
    alloc: Global,
    input: &WalkInput<'a>,
    own: LookedUp,
    skip: Skip,
    lookups: &mut LookUps<'_>,
) -> Result<Known<'a>, OutOfMemory>
    requires fit { IsFit input.now }
    requires entry { own.entry < walk_count (walk_of input.now) }
    requires decided { own.spec ≡ deciding (walk_of input.now) own.entry }
    requires skip { skip ≡ skip_of (walk_of input.now) own.entry }
    requires ready { AreReady (walk_of input.now) lookups.old }
    ensures ready { OnOk result (AreReady (walk_of input.now) lookups.new) }
    ensures walk { IfOk result (λ known. walk_known known ≡ walk_of input.now) }
    ensures index { IfOk result (λ known. index_known known ≡ own.entry) }
{
    let winner = winner_unless(alloc, input, own, does_skip(skip), lookups)?;
    let found = EntryFound {
        skip,
        decided: own.spec,
        winner: winner.name,
        winning: winner.decided,
    };
    Ok(Known::new(input, own.entry, found))
}

/// The specification that decides an entry of which it is known whether it is skipped.
pub fn decide_at(
    alloc: Global,
    input: &WalkInput<'_>,
    e: u32,
    skip: Skip,
    lookups: &mut LookUps<'_>,
) -> Result<Option<u32>, OutOfMemory>
    requires fit { IsFit input.now }
    requires entry { e < walk_count (walk_of input.now) }
    requires skip { skip ≡ skip_of (walk_of input.now) e }
    requires ready { AreReady (walk_of input.now) lookups.old }
    ensures ready { OnOk result (AreReady (walk_of input.now) lookups.new) }
    ensures found { IfOk result (λ found. found ≡ deciding (walk_of input.now) e) }
{
    let at = Visit {
        entry: e,
        skipped: does_skip(skip),
    };
    decide(alloc, input, at, &mut lookups.buffers.scratch)
}

/// Finds whether an entry is skipped, and the digest that it gets anew.
pub fn skip_at(
    alloc: Global,
    input: &WalkInput<'_>,
    at: Cursor,
    lookups: &mut LookUps<'_>,
) -> Result<Skipped, OutOfMemory>
    requires fit { IsFit input.now }
    requires entry { at.entry < walk_count (walk_of input.now) }
    requires covers { SkipEndsAt (walk_of input.now) at.entry at.end }
    requires ready { AreReady (walk_of input.now) lookups.old }
    ensures ready { OnOk result (AreReady (walk_of input.now) lookups.new) }
    ensures found { IfOk result (IsSkipped (walk_of input.now) at.entry) }
{
    skip_entry(alloc, input, at, &lookups.listings, &mut lookups.buffers)
}
