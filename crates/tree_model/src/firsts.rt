ghost use Rattle.std.specs.Prelude.{◌≡◌, ℕ, ◌+◌, ◌<◌, ◌≤◌, length, map, get_or, IfOk, OnOk};
ghost use Rattle.tree_model.specs.Firsts.{AreBucketed, AreFirstsPut, inode_bucket};
ghost use Rattle.tree_model.specs.Firsts.{first_with_inode, firsts_of};
ghost use Rattle.tree_model.specs.Links.{inode_of, same_inode};

use crate::groups::make_chains;
use crate::sorted::Sorted;
use label_base::OutOfMemory;
use std::alloc::Global;
use std::collections::BTreeMap;
use std::marker::Model;

/// An inode by its device and its number there.
pub type Inode = (u64, u64);

/// The inodes of entries, seen as their list: each is read where its entry stands, so none of them
/// takes room.
#[derive(Drop)]
pub struct Inodes<'a> {
    sorted: &'a Sorted,
}

impl<'a> Model for Inodes<'a> {
    ghost use Rattle.std.specs.Prelude.{List, ℕ, map};
    ghost use Rattle.tree_model.specs.Links.{inode_of};

    ghost Value = { List (ℕ × ℕ) };

    ghost view = { λ i. map inode_of i.sorted.now };
}

impl<'a> Inodes<'a> {
    /// The inodes of these entries.
    pub fn new(sorted: &'a Sorted) -> Inodes<'a>
        ensures { result ≡ map inode_of sorted.now }
    {
        Inodes { sorted }
    }

    fn len(&self) -> u32
        ensures { result ≡ length self.now }
    {
        self.sorted.len()
    }

    // The inode of an entry.
    fn get(&self, e: u32) -> Inode
        requires { e < length self.now }
        ensures { result ≡ get_or self.now e (0, 0) }
    {
        let entry = self.sorted.entry(e);
        (entry.device, entry.inode)
    }
}

// An odd number with its bits in no order.
const MIX: u64 = 0x9E37_79B9_7F4A_7C15;

// How many steps for an entry are gone along buckets, before inodes are put in an order instead.
const STEPS: u64 = 8;

// The bucket of an inode, one of so many.
#[tactic(auto, unfolding(crate::specs::Firsts::inode_bucket))]
fn bucket_of(inode: Inode, count: u32) -> u32
    requires { 0 < count }
    ensures { result ≡ inode_bucket count inode }
{
    let mixed = inode
        .1
        .wrapping_mul(MIX)
        .wrapping_add(inode.0)
        .wrapping_mul(MIX);
    (mixed >> 32) as u32 % count
}

// The bucket of each entry.
fn all_buckets(alloc: Global, inodes: &Inodes<'_>, count: u32) -> Result<Vec<u32>, OutOfMemory>
    requires { 0 < count }
    ensures { IfOk result (λ buckets. buckets.items ≡ map (inode_bucket count) inodes.now) }
{
    let mut buckets = Vec::with_capacity(alloc, inodes.len() as usize)?;
    'entries: for e in 0..inodes.len() {
        buckets.push(bucket_of(inodes.get(e), count))?;
    }
    Ok(buckets)
}

// Entries by the buckets of their inodes.
#[derive(Clone, Copy)]
struct Bucketed<'a> {
    inodes: &'a Inodes<'a>,
    // The bucket of each entry.
    buckets: &'a [u32],
    // The first entry of each bucket, and for each entry the next one of its bucket.
    first: &'a [u32],
    next: &'a [u32],
}

// Whether two entries have one inode.
#[tactic(auto, using(crate::proofs::GroupLemmas::same_itself))]
fn is_same_inode(inodes: &Inodes<'_>, a: u32, b: u32) -> bool
    requires first { a < length inodes.now }
    requires second { b < length inodes.now }
    ensures { result ≡ same_inode (get_or inodes.now a (0, 0)) (get_or inodes.now b (0, 0)) }
{
    if a == b {
        return true;
    }
    let (device, number) = inodes.get(a);
    let (other_device, other_number) = inodes.get(b);
    device == other_device && number == other_number
}

// The first entry of the inode of an entry, found along the bucket of both. Where no steps are
// left, the number of entries.
fn first_along(entries: &Bucketed<'_>, e: u32, steps: &mut u64) -> u32
    requires bucketed { AreBucketed entries.now.inodes.now entries.now.buckets.now
        entries.now.first.now entries.now.next.now }
    requires within { e < length entries.now.inodes.now }
    ensures { result < length entries.now.inodes.now
        → result ≡ first_with_inode entries.now.inodes.now
        (get_or entries.now.inodes.now e (0, 0)) }
{
    let mut found = entries.first[entries.buckets[e as usize] as usize];
    'names: while !is_same_inode(entries.inodes, e, found) {
        if *steps == 0 {
            return entries.inodes.len();
        }
        *steps -= 1;
        found = entries.next[found as usize];
    }
    found
}

// The first entry of the inode of each entry, as far as the steps lead.
fn firsts_along(alloc: Global, entries: &Bucketed<'_>) -> Result<Vec<u32>, OutOfMemory>
    requires { AreBucketed entries.now.inodes.now entries.now.buckets.now
        entries.now.first.now entries.now.next.now }
    ensures { IfOk result (λ firsts. length firsts.items ≡ length entries.now.inodes.now
        → firsts.items ≡ firsts_of entries.now.inodes.now) }
{
    let count = entries.inodes.len();
    let mut firsts = Vec::with_capacity(alloc, count as usize)?;
    let mut steps = u64::from(count) * STEPS;
    'entries: for e in 0..count {
        let first = first_along(entries, e, &mut steps);
        if first >= count {
            return Ok(firsts);
        }
        firsts.push(first)?;
    }
    Ok(firsts)
}

// The first entry of the inode of each entry, by buckets, unless too many entries share one.
fn firsts_by_buckets(alloc: Global, inodes: &Inodes<'_>) -> Result<Vec<u32>, OutOfMemory>
    ensures { IfOk result (λ firsts. length firsts.items ≡ length inodes.now
        → firsts.items ≡ firsts_of inodes.now) }
{
    let count = inodes.len().max(1);
    let buckets = all_buckets(alloc, inodes, count)?;
    let chains = make_chains(alloc, buckets.as_slice(), count)?;
    let entries = Bucketed {
        inodes,
        buckets: buckets.as_slice(),
        first: chains.first.as_slice(),
        next: chains.next.as_slice(),
    };
    firsts_along(alloc, &entries)
}

// The first entry of the inode of an entry, which is kept if it is that one.
fn keep_first(
    kept: &mut BTreeMap<Inode, u32>,
    inodes: &Inodes<'_>,
    e: u32,
) -> Result<u32, OutOfMemory>
    requires within { e < length inodes.now }
    requires put { AreFirstsPut inodes.now e kept.old }
    ensures put { OnOk result (AreFirstsPut inodes.now (e + 1) kept.new) }
    ensures first { IfOk result (λ first.
        first ≡ first_with_inode inodes.now (get_or inodes.now e (0, 0))) }
{
    let inode = inodes.get(e);
    if let Some(first) = kept.get(&inode) {
        return Ok(*first);
    }
    let _ = kept.insert(inode, e)?;
    Ok(e)
}

// The first entry of the inode of each entry, by the order of the inodes.
fn firsts_in_order(alloc: Global, inodes: &Inodes<'_>) -> Result<Vec<u32>, OutOfMemory>
    ensures { IfOk result (λ firsts. firsts.items ≡ firsts_of inodes.now) }
{
    let mut firsts = Vec::with_capacity(alloc, inodes.len() as usize)?;
    let mut kept = BTreeMap::new(alloc);
    'entries: for e in 0..inodes.len() {
        firsts.push(keep_first(&mut kept, inodes, e)?)?;
    }
    Ok(firsts)
}

/// The first entry of the inode of each entry.
///
/// Whoever chooses inodes can choose many of one bucket: then it takes what an order takes.
pub fn firsts_of(alloc: Global, inodes: &Inodes<'_>) -> Result<Vec<u32>, OutOfMemory>
    ensures { IfOk result (λ firsts. firsts.items ≡ firsts_of inodes.now) }
{
    let firsts = firsts_by_buckets(alloc, inodes)?;
    if firsts.len() == inodes.len() as usize {
        return Ok(firsts);
    }
    firsts_in_order(alloc, inodes)
}
