ghost use Rattle.std.specs.Prelude.{◌≡◌, ◌<◌, ◌&&◌, IfOk, OnOk, None, is_some, not};
ghost use Rattle.relabel_core.specs.Changes.{digest_change};
ghost use Rattle.relabel_core.specs.Swept.{SkipEndsAt, renewal};
ghost use Rattle.relabel_core.specs.Walk.{walk_count};
ghost use Rattle.relabel_core.specs.Walked.{IsFit, walk_of};
ghost use Rattle.label_audit.specs.Ahead.{IsAhead};
ghost use Rattle.label_audit.specs.Looking.{AreReady};

use crate::ahead::{Ahead, has_changed};
use crate::looking::{FoundEntry, LookUps};
use dir_digest::Digest;
use label_base::OutOfMemory;
use relabel_core::{Cursor, WalkInput, digest_change, unless_stored};
use std::alloc::Global;

// Whether a digest is stored for an entry, and may give way to the void one.
fn may_change(input: &WalkInput<'_>, e: u32) -> bool
    ensures { result ≡ (not input.now.options.dry && is_some ((walk_of input.now).stored e)) }
{
    !input.options.dry && input.stored.get(e).is_some()
}

// The digest to which that of an entry changes that isn't made anew. One looks ahead only where one
// is stored.
fn digest_voided(
    alloc: Global,
    input: &WalkInput<'_>,
    at: Cursor,
    lookups: &mut LookUps<'_>,
    ahead: &mut Ahead,
) -> Result<Option<Digest>, OutOfMemory>
    requires fit { IsFit input.now }
    requires entry { at.entry < walk_count (walk_of input.now) }
    requires covers { SkipEndsAt (walk_of input.now) at.entry at.end }
    requires renewed { None ≡ renewal (walk_of input.now) at.entry }
    requires ready { AreReady (walk_of input.now) lookups.old }
    requires ahead { IsAhead (walk_of input.now) at.entry ahead.old }
    ensures ready { OnOk result (AreReady (walk_of input.now) lookups.new) }
    ensures ahead { OnOk result (IsAhead (walk_of input.now) at.entry ahead.new) }
    ensures found { IfOk result (λ found. found ≡ digest_change (walk_of input.now) at.entry) }
{
    if !may_change(input, at.entry) {
        return Ok(digest_change(input, at.entry, None, false));
    }
    let changed = has_changed(alloc, input, at, lookups, ahead)?;
    Ok(digest_change(input, at.entry, None, changed))
}

/// The digest to which that of an entry changes.
pub fn digest_at(
    alloc: Global,
    input: &WalkInput<'_>,
    found: &FoundEntry<'_>,
    lookups: &mut LookUps<'_>,
    ahead: &mut Ahead,
) -> Result<Option<Digest>, OutOfMemory>
    requires fit { IsFit input.now }
    requires entry { found.now.at.entry < walk_count (walk_of input.now) }
    requires covers { SkipEndsAt (walk_of input.now) found.now.at.entry found.now.at.end }
    requires renewed { found.now.renewed ≡ renewal (walk_of input.now) found.now.at.entry }
    requires ready { AreReady (walk_of input.now) lookups.old }
    requires ahead { IsAhead (walk_of input.now) found.now.at.entry ahead.old }
    ensures ready { OnOk result (AreReady (walk_of input.now) lookups.new) }
    ensures ahead { OnOk result (IsAhead (walk_of input.now) found.now.at.entry ahead.new) }
    ensures found { IfOk result (λ digest.
        digest ≡ digest_change (walk_of input.now) found.now.at.entry) }
{
    match found.renewed {
        Some(digest) => Ok(unless_stored(digest, input.stored.get(found.at.entry))),
        None => digest_voided(alloc, input, found.at, lookups, ahead),
    }
}
