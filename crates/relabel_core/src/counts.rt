ghost use Rattle.std.specs.Prelude.{◌≡◌, ◌<◌, [], IfOk};
ghost use Rattle.relabel_core.specs.Answer.{walk_in};
ghost use Rattle.relabel_core.specs.Counts.{AreWalkCounts, AreNeededCounts, IsSpared, count_at};
ghost use Rattle.relabel_core.specs.Walk.{Walk, walk_count, is_changed_name};

use crate::walked::Walked;
use label_base::OutOfMemory;
use std::alloc::Global;

/// A walk of which one can ask whether labels change.
pub trait LabelChanges {
    /// The walk.
    ghost walk: { Self → Walk };

    /// What it is known by fits together.
    ghost IsWhole: { Self → Type 0 };

    /// How many entries there are.
    fn entries(&self) -> u32
        requires { IsWhole self.now }
        ensures { result ≡ walk_count (walk self.now) };

    /// Whether an entry is a name of a group whose label changes.
    fn does_change(&self, e: u32) -> bool
        requires whole { IsWhole self.now }
        requires entry { e < walk_count (walk self.now) }
        ensures { result ≡ is_changed_name (walk self.now) e };
}

impl LabelChanges for Walked<'_> {
    ghost walk = { walk_in };

    ghost IsWhole = { λ walked. Unit {0} };

    fn entries(&self) -> u32 {
        self.len()
    }

    fn does_change(&self, e: u32) -> bool {
        self.is_changed(e)
    }
}

/// For each entry, and for the end, how many entries before it are names of a group whose label
/// changes.
pub fn count_changed<C: LabelChanges>(alloc: Global, changes: &C) -> Result<Vec<u32>, OutOfMemory>
    requires { C.IsWhole changes.now }
    ensures { IfOk result (λ counts. AreWalkCounts (C.walk changes.now)
        (walk_count (C.walk changes.now)) counts.items) }
{
    let mut counts = Vec::with_capacity(alloc, changes.entries() as usize)?;
    let mut changed = 0;
    counts.push(changed)?;
    'entries: for e in 0..changes.entries() {
        changed += u32::from(changes.does_change(e));
        counts.push(changed)?;
    }
    Ok(counts)
}

/// For each entry, and for the end, how many entries before it are names of a group whose label
/// changes; nothing where no digest can change.
pub fn count_if_stored(alloc: Global, walked: &Walked<'_>) -> Result<Vec<u32>, OutOfMemory>
    ensures needed { IfOk result (λ counts. AreNeededCounts (walk_in walked.now) counts.items) }
    ensures spared { IfOk result (λ counts. IsSpared (walk_in walked.now) → counts.items ≡ []) }
{
    if walked.input.options.dry {
        return Ok(Vec::new(alloc));
    }
    if walked.input.stored.is_empty() {
        return Ok(Vec::new(alloc));
    }
    let counts = count_changed(alloc, walked)?;
    Ok(counts)
}

/// The count at an index, or 0.
pub fn count_at(counts: &[u32], i: u32) -> u32
    ensures { result ≡ count_at counts.now i }
{
    match counts.get(i as usize) {
        Some(count) => *count,
        None => 0,
    }
}
