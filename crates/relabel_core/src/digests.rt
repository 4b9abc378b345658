ghost use Rattle.std.specs.Prelude.{◌≡◌};
ghost use Rattle.relabel_core.specs.Answer.{walk_in};
ghost use Rattle.relabel_core.specs.Counts.{AreNeededCounts};

use crate::after::{DigestAfter, digest_after, digest_change};
use crate::counts::{count_at, count_if_stored};
use crate::stored::is_directory;
use crate::walked::Walked;
use dir_digest::Digest;
use label_base::OutOfMemory;
use std::alloc::Global;

/// The digests of the directories after a walk.
#[derive(Drop)]
pub struct Digests<'w, 'a> {
    walked: &'w Walked<'a>,
    // For each entry, and for the end, how many entries before it are names of a group whose label
    // changes. It is empty where no digest can change.
    counts: Vec<u32>,
    ghost needed: { AreNeededCounts (walk_in walked.now) counts.items },
}

impl<'w, 'a> Digests<'w, 'a> {
    ghost use Rattle.std.specs.Prelude.{◌<◌, false, is_some, true};
    ghost use Rattle.relabel_core.specs.Changes.{digest_change, digest_changes, is_void};
    ghost use Rattle.relabel_core.specs.DigestAfter.{after_by, digest_seen};
    ghost use Rattle.relabel_core.specs.Digests.{walk_before};
    ghost use Rattle.relabel_core.specs.Swept.{renewal};
    ghost use Rattle.relabel_core.specs.Walk.{walk_count, digest_after, has_changed_name};

    /// The walk after which they are.
    pub fn walked(&self) -> &'w Walked<'a>
        ensures { walk_in result.now ≡ walk_before self.now }
    {
        self.walked
    }

    // Whether the counts rise from an entry to the end of its extent: where its digest can change,
    // an entry at or below it is a name of a group whose label changes.
    fn does_rise(&self, d: u32) -> bool
        requires { d < walk_count (walk_before self.now) }
        ensures { (walk_before self.now).options.dry ≡ false
            → is_some ((walk_before self.now).stored d) ≡ true
            → result ≡ has_changed_name (walk_before self.now) d }
    {
        let _ = &self.counts;
        let walked = self.walked;
        let counts = self.counts.as_slice();
        count_at(counts, d) < count_at(counts, walked.input.tree.extent(d))
    }

    /// What becomes of the digest of an entry. It looks at what was made once. With
    /// [`Options::dry`] all digests stay. Else each directory that was looked at, with nothing
    /// below it that was left out and no name of its inodes elsewhere, has its digest anew, if
    /// digests are asked for; and [`Digest::VOID`] stands for one that is stored for another
    /// directory where the label of an entry at or below it changes, in whichever place the name
    /// stands that decides it.
    ///
    /// [`Options::dry`]: crate::Options::dry
    pub fn at(&self, d: u32) -> DigestAfter
        requires { d < walk_count (walk_before self.now) }
        ensures seen { digest_seen result ((walk_before self.now).stored d)
            ≡ digest_after (walk_before self.now) d }
        ensures kind { result ≡ after_by (renewal (walk_before self.now) d)
            (is_void (walk_before self.now) d) }
    {
        let walked = self.walked;
        digest_after(&walked.input, d, walked.renewed(d), self.does_rise(d))
    }

    /// The digest that an entry's changes to, if it changes.
    pub fn change_at(&self, d: u32) -> Option<Digest>
        requires { d < walk_count (walk_before self.now) }
        ensures { result ≡ digest_change (walk_before self.now) d }
    {
        let walked = self.walked;
        digest_change(&walked.input, d, walked.renewed(d), self.does_rise(d))
    }

    /// Whether the digest of an entry changes.
    pub fn changes(&self, d: u32) -> bool
        requires { d < walk_count (walk_before self.now) }
        ensures { result ≡ digest_changes (walk_before self.now) d }
    {
        self.change_at(d).is_some()
    }
}

impl<'a> Walked<'a> {
    ghost use Rattle.std.specs.Prelude.{◌<◌, IfOk};
    ghost use Rattle.relabel_core.specs.Digests.{walk_before};
    ghost use Rattle.relabel_core.specs.Swept.{renewal};
    ghost use Rattle.relabel_core.specs.Walk.{walk_count};

    /// The digest that was made anew for an entry, if one was.
    pub fn renewed(&self, d: u32) -> Option<Digest>
        requires { d < walk_count (walk_in self.now) }
        ensures { result ≡ renewal (walk_in self.now) d }
    {
        if !is_directory(self.input.tree, d) {
            return None;
        }
        self.swept.renewed(d)
    }

    /// The digests of the directories after the walk. Where one is stored at all, this goes once
    /// over all entries.
    pub fn digests<'w>(&'w self, alloc: Global) -> Result<Digests<'w, 'a>, OutOfMemory>
        ensures { IfOk result (λ digests. walk_before digests ≡ walk_in self.now) }
    {
        let counts = count_if_stored(alloc, self)?;
        Ok(Digests {
            walked: self,
            counts,
        })
    }
}
