ghost use Rattle.std.specs.Prelude.{◌≡◌, ℕ, ◌+◌, ◌-◌, ◌<◌, ◌≤◌, ◌^◌, ◌++◌, ◌∷◌, ◌||◌, List, []};
ghost use Rattle.std.specs.Prelude.{false, is_some, length, take, drop, map, get_or, IfOk, OnOk};
ghost use Rattle.tree_model.specs.Firsts.{count_next, firsts_of, group_next};
ghost use Rattle.tree_model.specs.GroupLists.{AreGroups, AreGroupHeads, AreNext, AreGroupStarts};
ghost use Rattle.tree_model.specs.GroupLists.{groups_behind, names_at, names_below, next_at};
ghost use Rattle.tree_model.specs.Counted.{AreUncounted};
ghost use Rattle.tree_model.specs.Groups.{groups_in, inodes_behind};
ghost use Rattle.tree_model.specs.Kept.{KeepsGroups};
ghost use Rattle.tree_model.specs.Links.{inode_of};
ghost use Rattle.tree_model.specs.Extents.{EndsFrom};
ghost use Rattle.tree_model.specs.Tree.{ByPath};

use crate::closed::closed_by;
use crate::counted::clear_counted;
use crate::firsts::{Inodes, firsts_of};
use crate::sorted::Sorted;
use label_base::OutOfMemory;
use std::alloc::Global;

/// The group of each entry, and how many groups there are.
#[derive(Drop)]
pub struct Numbering {
    pub group_of: Vec<u32>,
    pub count: u32,
    /// Whether an entry has a link count.
    pub counted: bool,
}

// Whether a link count was seen, or this is one.
fn is_counted(counted: bool, links: Option<u64>) -> bool
    ensures { result ≡ (counted || is_some links) }
{
    counted || links.is_some()
}

// Whether an entry has a link count.
fn has_counts(sorted: &Sorted) -> bool
    ensures { result ≡ false → AreUncounted sorted.now }
{
    let mut counted = false;
    'entries: for e in 0..sorted.len() {
        counted = is_counted(counted, sorted.entry(e).links);
    }
    counted
}

// Adds the group of the next entry: a new one, unless the first entry of its inode has one.
fn push_group_of(group_of: &mut Vec<u32>, count: &mut u32, first: u32) -> Result<(), OutOfMemory>
    requires { count.old < 2 ^ 32 - 1 }
    ensures groups { OnOk result (group_of.new.items
        ≡ group_of.old.items ++ group_next group_of.old.items count.old first ∷ []) }
    ensures count { OnOk result (count.new ≡ count_next group_of.old.items count.old first) }
{
    if (first as usize) < group_of.len() {
        let group = group_of[first as usize];
        group_of.push(group)?;
    } else {
        group_of.push(*count)?;
        *count += 1;
    }
    Ok(())
}

// The group of each entry, by the first entry of its inode, and how many groups there are.
fn number_by(alloc: Global, firsts: &[u32]) -> Result<(Vec<u32>, u32), OutOfMemory>
    requires { length firsts.now < 2 ^ 32 }
    ensures groups { IfOk result (λ numbers. (inodes : List (ℕ × ℕ))
        → firsts.now ≡ firsts_of inodes → numbers.0.items ≡ groups_behind [] inodes) }
    ensures count { IfOk result (λ numbers. (inodes : List (ℕ × ℕ))
        → firsts.now ≡ firsts_of inodes → numbers.1 ≡ length (inodes_behind [] inodes)) }
{
    let mut group_of = Vec::with_capacity(alloc, firsts.len())?;
    let mut count = 0;
    'entries: for first in firsts {
        push_group_of(&mut group_of, &mut count, *first)?;
    }
    Ok((group_of, count))
}

/// Numbers the groups by their first entries.
pub fn number_groups(alloc: Global, sorted: &Sorted) -> Result<Numbering, OutOfMemory>
    ensures groups { IfOk result (λ numbering.
        numbering.group_of.items ≡ groups_behind [] (map inode_of sorted.now)) }
    ensures count { IfOk result (λ numbering. numbering.count ≡ groups_in sorted.now) }
    ensures sized { IfOk result (λ numbering.
        length numbering.group_of.items ≡ length sorted.now) }
    ensures inside { IfOk result (λ numbering.
        AreGroups numbering.count numbering.group_of.items) }
    ensures counted { IfOk result (λ numbering.
        numbering.counted ≡ false → AreUncounted sorted.now) }
{
    let _count = sorted.len();
    let firsts = firsts_of(alloc, &Inodes::new(sorted))?;
    let (group_of, count) = number_by(alloc, firsts.as_slice())?;
    Ok(Numbering {
        group_of,
        count,
        counted: has_counts(sorted),
    })
}

// The first entry of each group, and for each entry the next one of its group. Where there is none,
// the number of entries.
#[derive(Drop)]
pub struct Chains {
    pub first: Vec<u32>,
    pub next: Vec<u32>,
}

// Puts an entry before the others of its group.
#[tactic(auto, using(crate::proofs::NameLemmas::head_put, crate::proofs::NameLemmas::next_put))]
fn put_first(first: &mut Vec<u32>, next: &mut Vec<u32>, groups: &[u32], e: u32)
    requires groups { AreGroups (length first.old.items) groups.now }
    requires within { e < length groups.now }
    requires first { AreGroupHeads groups.now (e + 1) first.old.items }
    requires next { AreNext groups.now (e + 1) next.old.items }
    ensures count { length first.new.items ≡ length first.old.items }
    ensures first { AreGroupHeads groups.now e first.new.items }
    ensures next { AreNext groups.now e next.new.items }
{
    let group = groups[e as usize] as usize;
    next[e as usize] = first[group];
    first[group] = e;
}

#[tactic(auto, using(crate::proofs::NameLemmas::heads_none, crate::proofs::NameLemmas::next_none))]
pub fn make_chains(alloc: Global, groups: &[u32], count: u32) -> Result<Chains, OutOfMemory>
    requires { AreGroups count groups.now }
    ensures count { IfOk result (λ chains. length chains.first.items ≡ count) }
    ensures first { IfOk result (λ chains. AreGroupHeads groups.now 0 chains.first.items) }
    ensures next { IfOk result (λ chains. AreNext groups.now 0 chains.next.items) }
{
    let end = groups.len() as u32;
    let mut first = vec![in alloc; end; count as usize]?;
    let mut next = vec![in alloc; end; groups.len()]?;
    let mut place = end;
    'entries: while place > 0 {
        place -= 1;
        put_first(&mut first, &mut next, groups, place);
    }
    Ok(Chains { first, next })
}

// Adds an entry and those behind it of its group.
#[tactic(auto, using(crate::proofs::NameLemmas::next_is))]
fn push_names(
    names: &mut Vec<u32>,
    next: &[u32],
    groups: &[u32],
    group: u32,
    first: u32,
) -> Result<(), OutOfMemory>
    requires groups { length groups.now < 2 ^ 32 }
    requires next { AreNext groups.now 0 next.now }
    requires first { first ≡ next_at groups.now 0 group }
    ensures { OnOk result (names.new.items ≡ names.old.items ++ names_at groups.now 0 group) }
{
    let mut e = first;
    'names: while (e as usize) < next.len() {
        names.push(e)?;
        e = next[e as usize];
    }
    Ok(())
}

/// The entries of all groups, one group behind the other, and where those of each group begin; at
/// last, how many entries there are.
#[derive(Drop)]
pub struct GroupNames {
    pub names: Vec<u32>,
    pub starts: Vec<u32>,
}

// Notes where the entries of a group begin, and adds them.
#[tactic(auto, using(crate::proofs::StartLemmas::start_next, crate::proofs::StartLemmas::few_below))]
fn push_group(
    kept: &mut GroupNames,
    chains: &Chains,
    groups: &[u32],
    group: u32,
) -> Result<(), OutOfMemory>
    requires groups { length groups.now < 2 ^ 32 }
    requires within { group < length chains.now.first.items }
    requires first { AreGroupHeads groups.now 0 chains.now.first.items }
    requires next { AreNext groups.now 0 chains.now.next.items }
    requires names { kept.old.names.items ≡ names_below groups.now group }
    requires starts { AreGroupStarts groups.now group kept.old.starts.items }
    ensures names { OnOk result (kept.new.names.items ≡ names_below groups.now (group + 1)) }
    ensures starts { OnOk result (AreGroupStarts groups.now (group + 1) kept.new.starts.items) }
{
    kept.starts.push(kept.names.len() as u32)?;
    let first = chains.first[group as usize];
    push_names(
        &mut kept.names,
        chains.next.as_slice(),
        groups,
        group,
        first,
    )
}

/// Lists the entries group by group.
#[tactic(auto, using(crate::proofs::StartLemmas::start_next, crate::proofs::StartLemmas::few_below))]
pub fn list_names(alloc: Global, chains: &Chains, groups: &[u32]) -> Result<GroupNames, OutOfMemory>
    requires groups { length groups.now < 2 ^ 32 }
    requires count { length chains.now.first.items < 2 ^ 32 }
    requires first { AreGroupHeads groups.now 0 chains.now.first.items }
    requires next { AreNext groups.now 0 chains.now.next.items }
    ensures names { IfOk result (λ kept.
        kept.names.items ≡ names_below groups.now (length chains.now.first.items)) }
    ensures starts { IfOk result (λ kept.
        AreGroupStarts groups.now (length chains.now.first.items + 1) kept.starts.items) }
{
    let count = chains.first.len() as u32;
    let mut kept = GroupNames {
        names: Vec::with_capacity(alloc, groups.len())?,
        starts: Vec::with_capacity(alloc, count as usize + 1)?,
    };
    'groups: for group in 0..count {
        push_group(&mut kept, chains, groups, group)?;
    }
    kept.starts.push(kept.names.len() as u32)?;
    Ok(kept)
}

/// What a tree keeps of its groups.
pub struct Groups {
    /// How many there are.
    pub total: u32,
    /// The group of each entry.
    pub group_of: Vec<u32>,
    /// The entries of all groups, one group behind the other.
    pub names: Vec<u32>,
    /// Where the entries of each group begin among those; at last, how many entries there are.
    pub starts: Vec<u32>,
    /// For each entry whether its extent is closed.
    pub closed: Vec<bool>,
}

// By hand: one call for an owner, where a derived drop is a step for each field.
impl Drop for Groups {
    fn drop(self) {
        let Groups {
            total: _,
            group_of: _,
            names: _,
            starts: _,
            closed: _,
        } = self;
    }
}

impl Groups {
    /// A copy.
    pub fn copy(&self, alloc: Global) -> Result<Groups, OutOfMemory>
        ensures total { IfOk result (λ copy. copy.total ≡ self.now.total) }
        ensures group_of { IfOk result (λ copy. copy.group_of.items ≡ self.now.group_of.items) }
        ensures names { IfOk result (λ copy. copy.names.items ≡ self.now.names.items) }
        ensures starts { IfOk result (λ copy. copy.starts.items ≡ self.now.starts.items) }
        ensures closed { IfOk result (λ copy. copy.closed.items ≡ self.now.closed.items) }
    {
        Ok(Groups {
            total: self.total,
            group_of: Vec::from_slice(alloc, self.group_of.as_slice())?,
            names: Vec::from_slice(alloc, self.names.as_slice())?,
            starts: Vec::from_slice(alloc, self.starts.as_slice())?,
            closed: Vec::from_slice(alloc, self.closed.as_slice())?,
        })
    }
}

/// The groups of entries, as they are numbered, by the extents of the entries.
pub fn make_groups(
    alloc: Global,
    sorted: &Sorted,
    numbering: Numbering,
    ends: &[u32],
) -> Result<Groups, OutOfMemory>
    requires by_path { ByPath sorted.now }
    requires groups { numbering.group_of.items ≡ groups_behind [] (map inode_of sorted.now) }
    requires count { numbering.count ≡ groups_in sorted.now }
    requires sized { length numbering.group_of.items ≡ length sorted.now }
    requires inside { AreGroups numbering.count numbering.group_of.items }
    requires counted { numbering.counted ≡ false → AreUncounted sorted.now }
    requires ends { EndsFrom 0 sorted.now ends.now }
    ensures { IfOk result (λ groups. KeepsGroups sorted.now groups.total
        groups.group_of.items groups.names.items groups.starts.items groups.closed.items) }
{
    let _count = sorted.len();
    let chains = make_chains(alloc, numbering.group_of.as_slice(), numbering.count)?;
    let mut closed = closed_by(
        alloc,
        numbering.group_of.as_slice(),
        ends,
        chains.first.as_slice(),
    )?;
    let kept = list_names(alloc, &chains, numbering.group_of.as_slice())?;
    clear_counted(sorted, &numbering, &kept, ends, &mut closed);
    Ok(Groups {
        total: numbering.count,
        group_of: numbering.group_of,
        names: kept.names,
        starts: kept.starts,
        closed,
    })
}

/// The part of the names that are those of a group.
pub fn part_at<'a>(names: &'a [u32], starts: &[u32], g: u32) -> &'a [u32]
    requires known { g + 1 < length starts.now }
    requires order { get_or starts.now g 0 ≤ get_or starts.now (g + 1) 0 }
    requires within { get_or starts.now (g + 1) 0 ≤ length names.now }
    ensures { result.now ≡ take (get_or starts.now (g + 1) 0 - get_or starts.now g 0)
        (drop (get_or starts.now g 0) names.now) }
{
    let from = starts[g as usize] as usize;
    let to = starts[g as usize + 1] as usize;
    &names[from..to]
}

/// The flag of an entry.
pub fn flag_at(flags: &[bool], e: u32) -> bool
    requires { e < length flags.now }
    ensures { result ≡ get_or flags.now e false }
{
    flags[e as usize]
}
