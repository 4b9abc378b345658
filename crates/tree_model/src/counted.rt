ghost use Rattle.std.specs.Prelude.{◌≡◌, ◌+◌, ◌<◌, ◌&&◌, nat_le, false, length};
ghost use Rattle.tree_model.specs.Counted.{AreClosedFrom, AreUncounted, names_flags};
ghost use Rattle.tree_model.specs.Extents.{EndsFrom, entry_at};
ghost use Rattle.tree_model.specs.Groups.{group_of, has_more_names, is_met, names_in};
ghost use Rattle.tree_model.specs.Kept.{ListsGroups};
ghost use Rattle.tree_model.specs.LiveLists.{IsDead};
ghost use Rattle.tree_model.specs.Tree.{ByPath};

use crate::extents::word_at;
use crate::groups::{GroupNames, Numbering, part_at};
use crate::sorted::Sorted;

// The link count of an entry.
#[tactic(auto, using(crate::proofs::KnownLemmas::entry_is))]
fn links_of(sorted: &Sorted, e: u32) -> Option<u64>
    requires { e < length sorted.now }
    ensures { result ≡ (entry_at sorted.now e).links }
{
    sorted.entry(e).links
}

// How many entries the group of an entry has.
fn count_names(sorted: &Sorted, numbering: &Numbering, kept: &GroupNames, e: u32) -> usize
    requires lists { ListsGroups sorted.now numbering.now.group_of.items
        kept.now.names.items kept.now.starts.items }
    requires known { e < length sorted.now }
    ensures { result ≡ length (names_in sorted.now (group_of sorted.now e)) }
{
    let group = word_at(numbering.group_of.as_slice(), e);
    part_at(kept.names.as_slice(), kept.starts.as_slice(), group).len()
}

// Whether a link count, where there is one, tells of no more names than these.
fn is_met(links: Option<u64>, names: usize) -> bool
    ensures { result ≡ is_met links names }
{
    match links {
        Some(links) => links <= names as u64,
        None => true,
    }
}

// Whether the group of an entry has at least as many entries as the entry's link count, where it is
// no directory.
fn has_names(sorted: &Sorted, numbering: &Numbering, kept: &GroupNames, e: u32) -> bool
    requires lists { ListsGroups sorted.now numbering.now.group_of.items
        kept.now.names.items kept.now.starts.items }
    requires known { e < length sorted.now }
    ensures { result ≡ has_more_names sorted.now e }
{
    sorted.is_directory(e) || is_met(links_of(sorted, e), count_names(sorted, numbering, kept, e))
}

// The least entry from this one on whose group lacks a name, by that from the next one on.
#[tactic(auto, using(crate::proofs::CountedLemmas::lacking_here, crate::proofs::CountedLemmas::lacking_behind))]
fn next_lacking(sorted: &Sorted, numbering: &Numbering, kept: &GroupNames, e: u32, next: u32) -> u32
    requires lists { ListsGroups sorted.now numbering.now.group_of.items
        kept.now.names.items kept.now.starts.items }
    requires known { e < length sorted.now }
    requires next { IsDead (names_flags sorted.now) (e + 1) next }
    ensures { IsDead (names_flags sorted.now) e result }
{
    if has_names(sorted, numbering, kept, e) {
        next
    } else {
        e
    }
}

// Whether an extent was closed, and ends before the next entry whose group lacks a name.
fn stays_closed(closed: bool, end: u32, next: u32) -> bool
    ensures { result ≡ (closed && nat_le end next) }
{
    closed && end <= next
}

// Clears the flag of an entry's extent, if the next entry whose group lacks a name is in it.
fn pass_entry(sorted: &Sorted, ends: &[u32], closed: &mut Vec<bool>, e: u32, next: u32)
    requires by_path { ByPath sorted.now }
    requires ends { EndsFrom 0 sorted.now ends.now }
    requires known { e < length sorted.now }
    requires next { IsDead (names_flags sorted.now) e next }
    requires closed { AreClosedFrom sorted.now (e + 1) closed.old.items }
    ensures { AreClosedFrom sorted.now e closed.new.items }
{
    let flag = stays_closed(closed[e as usize], ends[e as usize], next);
    closed[e as usize] = flag;
}

/// Clears the flags of the extents that hold an entry whose group lacks a name.
pub fn clear_lacking(
    sorted: &Sorted,
    numbering: &Numbering,
    kept: &GroupNames,
    ends: &[u32],
    closed: &mut Vec<bool>,
)
    requires by_path { ByPath sorted.now }
    requires ends { EndsFrom 0 sorted.now ends.now }
    requires lists { ListsGroups sorted.now numbering.now.group_of.items
        kept.now.names.items kept.now.starts.items }
    requires closed { AreClosedFrom sorted.now (length sorted.now) closed.old.items }
    ensures { AreClosedFrom sorted.now 0 closed.new.items }
{
    let mut e = sorted.len();
    let mut next = e;
    'entries: while e > 0 {
        e -= 1;
        next = next_lacking(sorted, numbering, kept, e, next);
        pass_entry(sorted, ends, closed, e, next);
    }
}

/// The same, where it is known whether any entry has a link count: if none has, nothing is looked
/// at.
#[tactic(auto, using(crate::proofs::CountedLemmas::uncounted_closed))]
pub fn clear_counted(
    sorted: &Sorted,
    numbering: &Numbering,
    kept: &GroupNames,
    ends: &[u32],
    closed: &mut Vec<bool>,
)
    requires by_path { ByPath sorted.now }
    requires ends { EndsFrom 0 sorted.now ends.now }
    requires lists { ListsGroups sorted.now numbering.now.group_of.items
        kept.now.names.items kept.now.starts.items }
    requires counted { numbering.now.counted ≡ false → AreUncounted sorted.now }
    requires closed { AreClosedFrom sorted.now (length sorted.now) closed.old.items }
    ensures { AreClosedFrom sorted.now 0 closed.new.items }
{
    let counted = numbering.counted;
    if counted {
        clear_lacking(sorted, numbering, kept, ends, closed);
        return;
    }
}
