ghost use Rattle.std.specs.Prelude.{◌≡◌, ◌<◌, ◌&&◌, IfOk, not};
ghost use Rattle.std.specs.Option.{option_copied};
ghost use Rattle.dir_digest.specs.Listings.{basis_in};
ghost use Rattle.spec_match.specs.Scratches.{IsScratchOf};
ghost use Rattle.relabel_core.specs.Swept.{is_needed, may_skip, meets, needed, renewal, renews};
ghost use Rattle.relabel_core.specs.Swept.{uses_digests};
ghost use Rattle.relabel_core.specs.DigestBasis.{basis_by};
ghost use Rattle.relabel_core.specs.Walk.{walk_count, is_current, is_skipped, is_whole, skippable};
ghost use Rattle.relabel_core.specs.Walk.{skips};
ghost use Rattle.relabel_core.specs.Walked.{IsFit, walk_of};

use crate::digesting::{Buffers, digest_of};
use crate::input::WalkInput;
use crate::options::Options;
use crate::stored::is_directory;
use dir_digest::{Digest, Listings};
use label_base::OutOfMemory;
use std::alloc::Global;

/// What is found of a directory by itself, whatever is found of those above it.
#[derive(Clone, Copy, Debug)]
pub struct DirectoryFinding {
    /// Its digest, where anything depends on it.
    pub digest: Option<Digest>,
    /// Whether it may be passed over with all below it.
    pub skippable: bool,
}

fn skips(options: &Options) -> bool
    ensures { result ≡ (options.now.digests && not options.now.ignore_digests) }
{
    options.digests && !options.ignore_digests
}

/// Whether digests count for a run.
pub fn uses_digests(options: &Options) -> bool
    ensures { result ≡ uses_digests options.now }
{
    options.digests || options.ignore_digests
}

fn renews(options: &Options) -> bool
    ensures { result ≡ renews options.now }
{
    !options.dry && uses_digests(options)
}

fn may_skip(input: &WalkInput<'_>, d: u32) -> bool
    ensures { result ≡ may_skip (walk_of input.now) d }
{
    skips(&input.options) && input.stored.get(d).is_some()
}

fn is_whole(input: &WalkInput<'_>, d: u32) -> bool
    requires fit { IsFit input.now }
    requires entry { d < walk_count (walk_of input.now) }
    ensures { result ≡ is_whole (walk_of input.now) d }
{
    is_directory(input.tree, d) && input.chosen.is_whole(input.tree, d)
}

// Whether anything depends on the digest of an entry.
fn is_needed(input: &WalkInput<'_>, d: u32) -> bool
    requires fit { IsFit input.now }
    requires entry { d < walk_count (walk_of input.now) }
    ensures { result ≡ is_needed (walk_of input.now) d }
{
    if !is_whole(input, d) {
        return false;
    }
    may_skip(input, d) || renews(&input.options)
}

#[tactic(auto, unfolding(crate::specs::Swept::needed))]
fn digest_if_needed(
    alloc: Global,
    input: &WalkInput<'_>,
    d: u32,
    listings: &Listings<'_>,
    buffers: &mut Buffers,
) -> Result<Option<Digest>, OutOfMemory>
    requires fit { IsFit input.now }
    requires entry { d < walk_count (walk_of input.now) }
    requires listings { basis_in listings.now ≡ basis_by input.now.rules.now input.now.options }
    requires own { IsScratchOf input.now.rules.now.rules buffers.old.scratch }
    ensures own { IsScratchOf input.now.rules.now.rules buffers.new.scratch }
    ensures found { IfOk result (λ found. found ≡ needed (walk_of input.now) d) }
{
    if !is_needed(input, d) {
        return Ok(None);
    }
    let digest = digest_of(alloc, input, d, listings, buffers)?;
    Ok(Some(digest))
}

// Whether what is stored is a digest other than the void one, and this one.
fn is_current(stored: Option<&[u8]>, digest: &Digest) -> bool
    ensures { result ≡ is_current (option_copied stored.entry) digest.now }
{
    match stored {
        None => false,
        Some(stored) => stored != Digest::VOID.as_bytes() && stored == digest.as_bytes(),
    }
}

// Whether directories may be skipped, and the digest that is found for this one is stored.
fn meets(input: &WalkInput<'_>, d: u32, found: &Option<Digest>) -> bool
    ensures { result ≡ meets (skips (walk_of input.now))
        ((walk_of input.now).stored d) found.now }
{
    match found {
        None => false,
        Some(digest) => skips(&input.options) && is_current(input.stored.get(d), digest),
    }
}

/// Finds the digest of an entry where anything depends on it, and whether the entry is a directory
/// that may be passed over. It depends on this entry alone, so entries may come in any order.
#[tactic(auto, using(crate::proofs::SweptLemmas::met_is))]
pub fn find_directory(
    alloc: Global,
    input: &WalkInput<'_>,
    d: u32,
    listings: &Listings<'_>,
    buffers: &mut Buffers,
) -> Result<DirectoryFinding, OutOfMemory>
    requires fit { IsFit input.now }
    requires entry { d < walk_count (walk_of input.now) }
    requires listings { basis_in listings.now ≡ basis_by input.now.rules.now input.now.options }
    requires own { IsScratchOf input.now.rules.now.rules buffers.old.scratch }
    ensures own { IsScratchOf input.now.rules.now.rules buffers.new.scratch }
    ensures digest { IfOk result (λ found. found.digest ≡ needed (walk_of input.now) d) }
    ensures skippable { IfOk result (λ found.
        found.skippable ≡ skippable (walk_of input.now) d) }
{
    let digest = digest_if_needed(alloc, input, d, listings, buffers)?;
    let skippable = meets(input, d, &digest);
    Ok(DirectoryFinding { digest, skippable })
}

/// The digest that an entry gets anew, of which it is known what was found and whether it is
/// skipped.
pub fn renewed_digest(
    input: &WalkInput<'_>,
    d: u32,
    found: Option<Digest>,
    skipped: bool,
) -> Option<Digest>
    requires fit { IsFit input.now }
    requires entry { d < walk_count (walk_of input.now) }
    requires found { found ≡ needed (walk_of input.now) d }
    requires skipped { skipped ≡ is_skipped (walk_of input.now) d }
    ensures { result ≡ renewal (walk_of input.now) d }
{
    if skipped {
        return None;
    }
    if input.options.dry {
        return None;
    }
    found
}
