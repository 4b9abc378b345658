ghost use Rattle.std.specs.Prelude.{◌≡◌, ◌++◌, ◌&&◌, ℕ, ◌<◌, [], false, IfOk, OnOk};
ghost use Rattle.std.specs.Prelude.{None, Some, if◌then◌else◌, is_some, length, map};
ghost use Rattle.std.specs.Prelude.{option_map};
ghost use Rattle.std.specs.List.{cons_option};
ghost use Rattle.std.specs.Option.{option_copied};
ghost use Rattle.dir_digest.specs.Digest.{void_digest};
ghost use Rattle.label_base.specs.Bounded.{all_numbers};
ghost use Rattle.label_rules.specs.LabelAfter.{label_seen};
ghost use Rattle.tree_model.specs.Extents.{is_directory};
ghost use Rattle.tree_model.specs.Groups.{groups_in};
ghost use Rattle.relabel_core.specs.Answer.{walk_in};
ghost use Rattle.relabel_core.specs.Changes.{change_at};
ghost use Rattle.relabel_core.specs.Counts.{AreWalkCounts};
ghost use Rattle.relabel_core.specs.Stored.{digests_listed, digests_of};
ghost use Rattle.relabel_core.specs.Walk.{walk_count, digest_after, digests, has_changed_name};
ghost use Rattle.relabel_core.specs.Walk.{new_label};
ghost use Rattle.policy_rehearsal.specs.Lent.{change_lent, turn_lent};
ghost use Rattle.policy_rehearsal.specs.Rehearsal.{change_to, changes_in, skipped_in, turn_in};
ghost use Rattle.policy_rehearsal.specs.Seen.{IsSeen, walk_seen};

use crate::rehearsed::{Change, VersionChanges};
use crate::seen::{VersionWalk, change_at, label_after, label_now};
use dir_digest::Digest;
use label_base::{Bytes, OutOfMemory, Row};
use label_rules::LabelAfter;
use relabel_core::{Stored, Walked, count_at, count_changed};
use std::alloc::Global;

// The change of an entry's label, if it changes.
fn change_of<'a>(seen: &VersionWalk<'_, 'a>, e: u32) -> Option<Change<'a>>
    requires seen { IsSeen seen.now }
    requires entry { e < length seen.now.tree.now }
    ensures { option_map change_lent result
        ≡ change_to (walk_seen seen.now) e (change_at (walk_seen seen.now) e) }
{
    match change_at(seen, e) {
        None => None,
        Some(to) => Some(Change {
            entry: e,
            from: label_now(seen, seen.tree.group(e)),
            to,
        }),
    }
}

fn add_change<'a>(
    change: &Option<Change<'a>>,
    changes: &mut Row<Change<'a>>,
) -> Result<(), OutOfMemory>
    ensures { OnOk result (map change_lent changes.new ≡ map change_lent changes.old
        ++ cons_option (option_map change_lent change.now) []) }
{
    match change {
        None => Ok(()),
        Some(change) => changes.push(*change),
    }
}

// The labels that change, in the order of the entries.
fn changes_of<'a>(alloc: Global, seen: &VersionWalk<'_, 'a>) -> Result<Row<Change<'a>>, OutOfMemory>
    requires { IsSeen seen.now }
    ensures { IfOk result (λ changes. map change_lent changes ≡ changes_in (walk_seen seen.now)) }
{
    let mut changes = Row::new(alloc);
    'entries: for e in 0..seen.tree.len() {
        add_change(&change_of(seen, e), &mut changes)?;
    }
    Ok(changes)
}

// How many directories are skipped, without those below them.
fn count_skipped(walked: &Walked<'_>) -> u32
    ensures { result ≡ skipped_in (walk_in walked.now) }
{
    let mut skipped = 0;
    'entries: for e in 0..walked.len() {
        skipped += u32::from(walked.is_skipped_first(e));
    }
    skipped
}

/// What a version changes and skips.
pub fn turn_of<'a>(
    alloc: Global,
    seen: &VersionWalk<'_, 'a>,
) -> Result<VersionChanges<'a>, OutOfMemory>
    requires { IsSeen seen.now }
    ensures { IfOk result (λ turn. turn_lent turn ≡ turn_in (walk_seen seen.now)) }
{
    Ok(VersionChanges {
        changes: changes_of(alloc, seen)?,
        skipped: count_skipped(seen.walked),
    })
}

/// The labels that a version leaves, one for each group.
pub fn labels_after<'a>(
    alloc: Global,
    seen: &VersionWalk<'_, 'a>,
) -> Result<Row<LabelAfter<'a>>, OutOfMemory>
    requires { IsSeen seen.now }
    ensures { IfOk result (λ labels. map label_seen labels
        ≡ map (new_label (walk_seen seen.now)) (all_numbers (groups_in seen.now.tree.now))) }
{
    let mut labels = Row::with_capacity(alloc, seen.tree.groups() as usize)?;
    'groups: for g in 0..seen.tree.groups() {
        labels.push(label_after(seen, g))?;
    }
    Ok(labels)
}

// Whether the label of an entry at or below another changes.
fn does_rise(seen: &VersionWalk<'_, '_>, counts: &[u32], d: u32) -> bool
    requires counted { AreWalkCounts (walk_seen seen.now) (walk_count (walk_seen seen.now))
        counts.now }
    requires seen { IsSeen seen.now }
    requires entry { d < length seen.now.tree.now }
    ensures { result ≡ has_changed_name (walk_seen seen.now) d }
{
    count_at(counts, d) < count_at(counts, seen.tree.extent(d))
}

fn copied(alloc: Global, bytes: &[u8]) -> Result<Option<Bytes>, OutOfMemory>
    ensures { IfOk result (λ copied. copied ≡ Some bytes.now) }
{
    Ok(Some(Bytes::copy_of(alloc, bytes)?))
}

// What becomes of a digest that isn't made anew.
fn kept_or_void(
    alloc: Global,
    stored: Option<&[u8]>,
    changed: bool,
) -> Result<Option<Bytes>, OutOfMemory>
    ensures { IfOk result (λ digest. digest
        ≡ (if is_some (option_copied stored.entry) && changed then Some void_digest
        else option_copied stored.entry)) }
{
    match stored {
        None => Ok(None),
        Some(bytes) => {
            if changed {
                copied(alloc, Digest::VOID.as_bytes())
            } else {
                copied(alloc, bytes)
            }
        }
    }
}

// The digest of an entry that a version leaves.
fn digest_at(
    alloc: Global,
    seen: &VersionWalk<'_, '_>,
    stored: &Stored,
    counts: &[u32],
    d: u32,
) -> Result<Option<Bytes>, OutOfMemory>
    requires counted { AreWalkCounts (walk_seen seen.now) (walk_count (walk_seen seen.now))
        counts.now }
    requires seen { IsSeen seen.now }
    requires entry { d < length seen.now.tree.now }
    requires stored { (walk_in seen.now.walked.now).stored ≡ digests_of stored.now }
    ensures { IfOk result (λ digest. digest ≡ digest_after (walk_seen seen.now) d) }
{
    match seen.walked.renewed(d) {
        Some(digest) => copied(alloc, digest.as_bytes()),
        None => kept_or_void(alloc, stored.get(d), does_rise(seen, counts, d)),
    }
}

// The digests that a version leaves, one item for each entry.
fn digests_after(
    alloc: Global,
    seen: &VersionWalk<'_, '_>,
    stored: &Stored,
) -> Result<Row<Option<Bytes>>, OutOfMemory>
    requires seen { IsSeen seen.now }
    requires stored { (walk_in seen.now.walked.now).stored ≡ digests_of stored.now }
    ensures { IfOk result (λ row. row ≡ digests (walk_seen seen.now)) }
{
    let counts = count_changed(alloc, seen)?;
    let mut row = Row::with_capacity(alloc, seen.tree.len() as usize)?;
    'entries: for d in 0..seen.tree.len() {
        row.push(digest_at(alloc, seen, stored, counts.as_slice(), d)?)?;
    }
    Ok(row)
}

/// The digests that a version leaves.
pub fn stored_after(
    alloc: Global,
    seen: &VersionWalk<'_, '_>,
    stored: &Stored,
) -> Result<Stored, OutOfMemory>
    requires seen { IsSeen seen.now }
    requires stored { (walk_in seen.now.walked.now).stored ≡ digests_of stored.now }
    requires directories { (e : ℕ) → is_directory seen.now.tree.now e ≡ false
        → digests_of stored.now e ≡ None }
    ensures { IfOk result (λ after. digests_of after ≡ digest_after (walk_seen seen.now)) }
{
    let row = digests_after(alloc, seen, stored)?;
    Stored::of(alloc, seen.tree, &row)
}
