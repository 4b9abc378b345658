ghost use Rattle.std.specs.Prelude.{◌≡◌, ◌+◌, ◌<◌, ◌^◌, ◌&&◌, nat_le, nat_lt, false, length};
ghost use Rattle.std.specs.Prelude.{get_or, IfOk};
ghost use Rattle.tree_model.specs.GroupLists.{AreGroups, AreGroupHeads};
ghost use Rattle.tree_model.specs.ExtentEnds.{AreClosed, AreEnds, AreHigh, AreLasts, AreLow};
ghost use Rattle.tree_model.specs.ExtentEnds.{AreGroupExtents, IsGreatestIn, IsLeastIn};
ghost use Rattle.tree_model.specs.ExtentEnds.{first_of_group};
ghost use Rattle.tree_model.specs.ExtentEnds.{last_name};

use label_base::OutOfMemory;
use std::alloc::Global;

// Groups in extents of entries.
#[derive(Clone, Copy)]
struct GroupExtents<'a> {
    // The group of each entry.
    groups: &'a [u32],
    // The place behind the extent of each entry.
    ends: &'a [u32],
    // The first and the last entry of each group.
    first: &'a [u32],
    last: &'a [u32],
}

// Takes an entry as the last one of its group.
#[tactic(auto, using(crate::proofs::ClosedLemmas::last_put))]
fn put_last(last: &mut Vec<u32>, groups: &[u32], e: u32)
    requires groups { AreGroups (length last.old.items) groups.now }
    requires within { e < length groups.now }
    requires last { AreLasts groups.now e last.old.items }
    ensures count { length last.new.items ≡ length last.old.items }
    ensures last { AreLasts groups.now (e + 1) last.new.items }
{
    let group = groups[e as usize] as usize;
    last[group] = e;
}

// The last entry of each group.
#[tactic(auto, using(crate::proofs::ClosedLemmas::lasts_none))]
fn last_names(alloc: Global, groups: &[u32], count: u32) -> Result<Vec<u32>, OutOfMemory>
    requires { AreGroups count groups.now }
    ensures count { IfOk result (λ last. length last.items ≡ count) }
    ensures last { IfOk result (λ last. AreLasts groups.now (length groups.now) last.items) }
{
    let mut last = vec![in alloc; 0u32; count as usize]?;
    'entries: for e in 0..groups.len() as u32 {
        put_last(&mut last, groups, e);
    }
    Ok(last)
}

// The least first entry of the groups in the extent of an entry.
fn least_in(extents: &GroupExtents<'_>, low: &[u32], e: u32) -> u32
    requires extents { AreGroupExtents extents.now.groups.now extents.now.ends.now
        extents.now.first.now extents.now.last.now }
    requires within { e < length extents.now.groups.now }
    requires low { AreLow extents.now.groups.now extents.now.ends.now (e + 1) low.now }
    ensures { IsLeastIn (first_of_group extents.now.groups.now) e (get_or extents.now.ends.now e 0)
        result }
{
    let end = extents.ends[e as usize];
    let mut least = extents.first[extents.groups[e as usize] as usize];
    let mut c = e + 1;
    'extents: while c < end {
        least = least.min(low[c as usize]);
        c = extents.ends[c as usize];
    }
    least
}

// The greatest last entry of the groups in the extent of an entry.
fn greatest_in(extents: &GroupExtents<'_>, high: &[u32], e: u32) -> u32
    requires extents { AreGroupExtents extents.now.groups.now extents.now.ends.now
        extents.now.first.now extents.now.last.now }
    requires within { e < length extents.now.groups.now }
    requires high { AreHigh extents.now.groups.now extents.now.ends.now (e + 1) high.now }
    ensures { IsGreatestIn (last_name extents.now.groups.now) e (get_or extents.now.ends.now e 0)
        result }
{
    let end = extents.ends[e as usize];
    let mut greatest = extents.last[extents.groups[e as usize] as usize];
    let mut c = e + 1;
    'extents: while c < end {
        greatest = greatest.max(high[c as usize]);
        c = extents.ends[c as usize];
    }
    greatest
}

// Whether what goes from the least to the greatest entry is within an extent.
fn is_inside(e: u32, end: u32, least: u32, greatest: u32) -> bool
    ensures { result ≡ (nat_le e least && nat_lt greatest end) }
{
    e <= least && greatest < end
}

// Which extents were closed, from the last one on.
#[derive(Drop)]
struct ClosedSoFar {
    low: Vec<u32>,
    high: Vec<u32>,
    closed: Vec<bool>,
}

// Closes the extent of an entry.
#[tactic(auto, using(crate::proofs::ClosedLemmas::low_put, crate::proofs::ClosedLemmas::high_put))]
fn close_extent(extents: &GroupExtents<'_>, so_far: &mut ClosedSoFar, e: u32)
    requires extents { AreGroupExtents extents.now.groups.now extents.now.ends.now
        extents.now.first.now extents.now.last.now }
    requires within { e < length extents.now.groups.now }
    requires low { AreLow extents.now.groups.now extents.now.ends.now (e + 1) so_far.old.low.items }
    requires high { AreHigh extents.now.groups.now extents.now.ends.now (e + 1)
        so_far.old.high.items }
    requires closed { AreClosed extents.now.groups.now extents.now.ends.now (e + 1)
        so_far.old.closed.items }
    ensures low { AreLow extents.now.groups.now extents.now.ends.now e so_far.new.low.items }
    ensures high { AreHigh extents.now.groups.now extents.now.ends.now e so_far.new.high.items }
    ensures closed { AreClosed extents.now.groups.now extents.now.ends.now e
        so_far.new.closed.items }
{
    let least = least_in(extents, so_far.low.as_slice(), e);
    let greatest = greatest_in(extents, so_far.high.as_slice(), e);
    let flag = is_inside(e, extents.ends[e as usize], least, greatest);
    so_far.low[e as usize] = least;
    so_far.high[e as usize] = greatest;
    so_far.closed[e as usize] = flag;
}

// Which extents have all entries of the groups in them.
#[tactic(auto, using(crate::proofs::ClosedLemmas::low_none, crate::proofs::ClosedLemmas::high_none, crate::proofs::ClosedLemmas::closed_none))]
fn closed_extents(alloc: Global, extents: &GroupExtents<'_>) -> Result<Vec<bool>, OutOfMemory>
    requires { AreGroupExtents extents.now.groups.now extents.now.ends.now
        extents.now.first.now extents.now.last.now }
    ensures { IfOk result (λ closed.
        AreClosed extents.now.groups.now extents.now.ends.now 0 closed.items) }
{
    let count = extents.groups.len();
    let mut so_far = ClosedSoFar {
        low: vec![in alloc; 0u32; count]?,
        high: vec![in alloc; 0u32; count]?,
        closed: vec![in alloc; false; count]?,
    };
    let mut place = count as u32;
    'entries: while place > 0 {
        place -= 1;
        close_extent(extents, &mut so_far, place);
    }
    Ok(so_far.closed)
}

// The same, with the extents as slices.
fn closed_in(
    alloc: Global,
    groups: &[u32],
    ends: &[u32],
    first: &[u32],
    last: &[u32],
) -> Result<Vec<bool>, OutOfMemory>
    requires { AreGroupExtents groups.now ends.now first.now last.now }
    ensures { IfOk result (λ closed. AreClosed groups.now ends.now 0 closed.items) }
{
    let extents = GroupExtents {
        groups,
        ends,
        first,
        last,
    };
    closed_extents(alloc, &extents)
}

/// For each extent whether all entries of its groups are in it, by the first entry of each group.
pub fn closed_by(
    alloc: Global,
    groups: &[u32],
    ends: &[u32],
    first: &[u32],
) -> Result<Vec<bool>, OutOfMemory>
    requires groups { AreGroups (length first.now) groups.now }
    requires count { length first.now < 2 ^ 32 }
    requires ends { AreEnds ends.now }
    requires paired { length ends.now ≡ length groups.now }
    requires first { AreGroupHeads groups.now 0 first.now }
    ensures { IfOk result (λ closed. AreClosed groups.now ends.now 0 closed.items) }
{
    let last = last_names(alloc, groups, first.len() as u32)?;
    closed_in(alloc, groups, ends, first, last.as_slice())
}
