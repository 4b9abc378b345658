ghost use Rattle.std.specs.Prelude.{◌≡◌, ◌+◌, ◌<◌, ◌≤◌, IfOk, OnOk};
ghost use Rattle.relabel_core.specs.Swept.{SkipEndsAt};
ghost use Rattle.relabel_core.specs.Walk.{Walk, walk_count, has_changed_name, is_changed_name};
ghost use Rattle.relabel_core.specs.Walked.{IsFit, walk_of};
ghost use Rattle.label_audit.specs.Ahead.{IsAhead};
ghost use Rattle.label_audit.specs.Looking.{AreReady};

use crate::deciding::LookedUp;
use crate::looking::{LookUps, decide_at, known_of, skip_at};
use label_base::OutOfMemory;
use relabel_core::{Cursor, WalkInput};
use std::alloc::Global;

/// How far one has looked ahead: from the entry that is audited to the one at `clear`, none is a
/// name of a group whose label changes. So each entry is looked at ahead about once, however deep
/// directories stand.
#[derive(Clone, Copy)]
pub struct Ahead {
    clear: Cursor,
}

impl Ahead {
    /// Nothing was looked at yet.
    pub fn new() -> Ahead
        ensures { (w : Walk) → IsAhead w 0 result }
    {
        Ahead {
            clear: Cursor { entry: 0, end: 0 },
        }
    }

    // From an entry on, where one has looked less far.
    fn from(&self, at: Cursor) -> Ahead
        ensures ahead { (w : Walk) → IsAhead w at.entry self.now → SkipEndsAt w at.entry at.end
            → IsAhead w at.entry result }
        ensures from { at.entry ≤ result.clear.entry }
    {
        if self.clear.entry < at.entry {
            return Ahead { clear: at };
        }
        *self
    }
}

// What one sees of an entry ahead.
#[derive(Clone, Copy)]
struct EntryAhead {
    // It is a name of a group whose label changes.
    changed: bool,
    // Behind it, the entries before this index are below a directory that is skipped.
    end: u32,
}

fn look_over(
    alloc: Global,
    input: &WalkInput<'_>,
    at: Cursor,
    lookups: &mut LookUps<'_>,
) -> Result<EntryAhead, OutOfMemory>
    requires fit { IsFit input.now }
    requires entry { at.entry < walk_count (walk_of input.now) }
    requires covers { SkipEndsAt (walk_of input.now) at.entry at.end }
    requires ready { AreReady (walk_of input.now) lookups.old }
    ensures ready { OnOk result (AreReady (walk_of input.now) lookups.new) }
    ensures changed { IfOk result (λ seen.
        seen.changed ≡ is_changed_name (walk_of input.now) at.entry) }
    ensures covers { IfOk result (λ seen.
        SkipEndsAt (walk_of input.now) (at.entry + 1) seen.end) }
{
    let found = skip_at(alloc, input, at, lookups)?;
    // The borrow checker is told of the digest's type by a look at it.
    let _ = found.renewed.is_some();
    let entry = at.entry;
    let spec = decide_at(alloc, input, entry, found.skip, lookups)?;
    let known = known_of(alloc, input, LookedUp { entry, spec }, found.skip, lookups)?;
    Ok(EntryAhead {
        changed: known.is_changed(),
        end: found.end,
    })
}

// Looks on up to the end of a directory's extent, from the directory on: whether an entry there is
// a name of a group whose label changes.
#[tactic(auto, using(crate::proofs::AheadLemmas::ahead_more, crate::proofs::AheadLemmas::found_changed, crate::proofs::AheadLemmas::none_changed))]
fn look_on(
    alloc: Global,
    input: &WalkInput<'_>,
    d: u32,
    lookups: &mut LookUps<'_>,
    ahead: &mut Ahead,
) -> Result<bool, OutOfMemory>
    requires fit { IsFit input.now }
    requires entry { d < walk_count (walk_of input.now) }
    requires ready { AreReady (walk_of input.now) lookups.old }
    requires ahead { IsAhead (walk_of input.now) d ahead.old }
    requires from { d ≤ ahead.old.clear.entry }
    ensures ready { OnOk result (AreReady (walk_of input.now) lookups.new) }
    ensures ahead { OnOk result (IsAhead (walk_of input.now) d ahead.new) }
    ensures found { IfOk result (λ found. found ≡ has_changed_name (walk_of input.now) d) }
{
    let stop = input.tree.extent(d);
    'entries: while ahead.clear.entry < stop {
        let seen = look_over(alloc, input, ahead.clear, lookups)?;
        if seen.changed {
            return Ok(true);
        }
        *ahead = Ahead {
            clear: Cursor {
                entry: ahead.clear.entry + 1,
                end: seen.end,
            },
        };
    }
    Ok(false)
}

/// Whether an entry at or below a directory is a name of a group whose label changes.
pub fn has_changed(
    alloc: Global,
    input: &WalkInput<'_>,
    at: Cursor,
    lookups: &mut LookUps<'_>,
    ahead: &mut Ahead,
) -> Result<bool, OutOfMemory>
    requires fit { IsFit input.now }
    requires entry { at.entry < walk_count (walk_of input.now) }
    requires covers { SkipEndsAt (walk_of input.now) at.entry at.end }
    requires ready { AreReady (walk_of input.now) lookups.old }
    requires ahead { IsAhead (walk_of input.now) at.entry ahead.old }
    ensures ready { OnOk result (AreReady (walk_of input.now) lookups.new) }
    ensures ahead { OnOk result (IsAhead (walk_of input.now) at.entry ahead.new) }
    ensures found { IfOk result (λ found. found ≡ has_changed_name (walk_of input.now) at.entry) }
{
    *ahead = ahead.from(at);
    look_on(alloc, input, at.entry, lookups, ahead)
}
