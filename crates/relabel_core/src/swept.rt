ghost use Rattle.std.specs.Prelude.{◌≡◌, ℕ, ◌<◌, [], IfOk, None, OnOk, Some, get_or, not};
ghost use Rattle.std.specs.Prelude.{replicate};
ghost use Rattle.relabel_core.specs.Numbers.{put_at};
ghost use Rattle.relabel_core.specs.Swept.{AreSwept, is_first, is_not};
ghost use Rattle.relabel_core.specs.Stored.{AddsDigest, digests_in};
ghost use Rattle.relabel_core.specs.Walk.{walk_count, is_skipped};
ghost use Rattle.relabel_core.specs.Walked.{IsFit, walk_of};

use crate::input::WalkInput;
use dir_digest::Digest;
use label_base::OutOfMemory;
use std::alloc::Global;
use std::collections::BTreeMap;

/// Whether a walk skips an entry.
#[derive(Clone, Copy, Debug, PartialEq, Eq)]
pub enum Skip {
    /// It isn't skipped.
    Not,
    /// It is a directory whose stored digest is the one that it has, below no other such one.
    First,
    /// It is below such a directory.
    Below,
}

/// An entry that one has come to. Of the entries from it on, those before `end` are at or below a
/// directory before it that is skipped.
#[derive(Clone, Copy)]
pub struct Cursor {
    pub entry: u32,
    pub end: u32,
}

/// What is found of the directories before any entry is looked up: which entries are skipped, and
/// the digests that are made anew.
pub struct Swept {
    // For each entry; nothing where no digests are asked for.
    pub(crate) skips: Vec<Skip>,
    // By the indices of the directories.
    pub(crate) made: BTreeMap<u32, Digest>,
}

// By hand: one call for an owner, where a derived drop is a step for each field.
impl Drop for Swept {
    fn drop(self) {
        let Swept { skips: _, made: _ } = self;
    }
}

impl Swept {
    /// No entry is skipped, and no digest is made.
    pub fn none(alloc: Global) -> Swept
        ensures skips { result.skips.items ≡ [] }
        ensures made { result.made.entries ≡ [] }
    {
        Swept {
            skips: Vec::new(alloc),
            made: BTreeMap::new(alloc),
        }
    }

    /// The same, with room to note of so many entries whether they are skipped.
    pub fn with_room(alloc: Global, count: u32) -> Result<Swept, OutOfMemory>
        ensures skips { IfOk result (λ swept. swept.skips.items ≡ replicate count Skip.Not) }
        ensures made { IfOk result (λ swept. (d : ℕ) → digests_in swept.made d ≡ None) }
    {
        let skips = none_skipped(alloc, count)?;
        let made = BTreeMap::new(alloc);
        Ok(Swept { skips, made })
    }

    /// Notes at the position of an entry whether it is skipped, in whatever order entries come.
    pub fn put_skip(&mut self, e: u32, skip: Skip)
        ensures skips { self.new.skips.items ≡ put_at self.old.skips.items e skip }
        ensures made { self.new.made ≡ self.old.made }
    {
        put_skip(&mut self.skips, e, skip);
    }

    /// Notes at the position of a directory, of which none is noted yet, the digest that it gets
    /// anew.
    pub fn put_renewed(&mut self, d: u32, digest: Digest) -> Result<(), OutOfMemory>
        requires { digests_in self.old.made d ≡ None }
        ensures made { OnOk result (AddsDigest self.old.made self.new.made d (Some digest)) }
        ensures skips { self.new.skips.items ≡ self.old.skips.items }
    {
        let _ = self.made.insert(d, digest)?;
        Ok(())
    }

    /// Whether an entry is skipped.
    pub fn skip(&self, e: u32) -> Skip
        ensures { result ≡ get_or self.now.skips.items e Skip.Not }
    {
        match self.skips.get(e as usize) {
            Some(skip) => *skip,
            None => Skip::Not,
        }
    }

    /// The digest that was made anew for a directory, if one was.
    pub fn renewed(&self, d: u32) -> Option<Digest>
        ensures { result ≡ digests_in self.now.made d }
    {
        match self.made.get(&d) {
            None => None,
            Some(digest) => Some(*digest),
        }
    }
}

fn put_skip(skips: &mut Vec<Skip>, e: u32, skip: Skip)
    ensures { skips.new.items ≡ put_at skips.old.items e skip }
{
    if (e as usize) < skips.len() {
        skips[e as usize] = skip;
    }
}

fn none_skipped(alloc: Global, count: u32) -> Result<Vec<Skip>, OutOfMemory>
    ensures { IfOk result (λ skips. skips.items ≡ replicate count Skip.Not) }
{
    let mut skips = Vec::with_capacity(alloc, count as usize)?;
    'places: for _ in 0..count {
        skips.push(Skip::Not)?;
    }
    Ok(skips)
}

// Whether it is none.
fn is_not(skip: Skip) -> bool
    ensures { result ≡ is_not skip }
{
    match skip {
        Skip::Not => true,
        Skip::First | Skip::Below => false,
    }
}

/// Whether it is that of an entry at or below a directory that is skipped.
pub fn does_skip(skip: Skip) -> bool
    ensures { result ≡ not (is_not skip) }
{
    !is_not(skip)
}

/// Whether an entry is at or below a directory that is skipped.
pub fn is_skipped(input: &WalkInput<'_>, swept: &Swept, e: u32) -> bool
    requires fit { IsFit input.now }
    requires entry { e < walk_count (walk_of input.now) }
    requires swept { AreSwept (walk_of input.now) swept.now.skips.items swept.now.made }
    ensures { result ≡ is_skipped (walk_of input.now) e }
{
    does_skip(swept.skip(e))
}

/// Whether it is that of a directory that is skipped, and below no other such one.
pub fn is_first(skip: Skip) -> bool
    ensures { result ≡ is_first skip }
{
    match skip {
        Skip::First => true,
        Skip::Not | Skip::Below => false,
    }
}
