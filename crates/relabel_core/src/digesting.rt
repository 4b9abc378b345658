ghost use Rattle.std.specs.Prelude.{◌≡◌, ◌<◌, [], IfOk};
ghost use Rattle.dir_digest.specs.Listings.{basis_in};
ghost use Rattle.dir_digest.specs.Basis.{is_whole_mode};
ghost use Rattle.spec_match.specs.Scratches.{IsScratchOf};
ghost use Rattle.relabel_core.specs.Formats.{HaveLinks};
ghost use Rattle.relabel_core.specs.DigestBasis.{basis_by};
ghost use Rattle.relabel_core.specs.Walk.{walk_count, digest_now};
ghost use Rattle.relabel_core.specs.Walked.{walk_of};

use crate::input::WalkInput;
use crate::options::Options;
use dir_digest::{Digest, Listings, Mode};
use label_base::{Bytes, OutOfMemory};
use label_rules::Rules;
use spec_match::Scratch;
use std::alloc::Global;

/// What the look-ups and the listings of a walk are made in, again and again.
#[derive(Drop)]
pub struct Buffers {
    pub scratch: Scratch,
    pub listing: Bytes,
}

/// Buffers for a walk by these rules.
pub fn buffers_for(alloc: Global, rules: &Rules) -> Result<Buffers, OutOfMemory>
    ensures own { IfOk result (λ buffers. IsScratchOf rules.now.rules buffers.scratch) }
    ensures listing { IfOk result (λ buffers. buffers.listing ≡ []) }
{
    let scratch = Scratch::new(alloc, &rules.rules)?;
    Ok(Buffers {
        scratch,
        listing: Bytes::new(alloc),
    })
}

fn mode_for(force: bool) -> Mode
    ensures { is_whole_mode result ≡ force }
{
    if force {
        return Mode::Whole;
    }
    Mode::KindOnly
}

/// What makes the listings of directories by these rules and options.
pub fn listings_by<'a>(
    alloc: Global,
    rules: &'a Rules,
    options: &Options,
) -> Result<Listings<'a>, OutOfMemory>
    ensures { IfOk result (λ listings.
        basis_in listings ≡ basis_by rules.now options.now) }
{
    let mode = mode_for(options.force);
    Listings::new(
        alloc,
        options.format,
        mode,
        &rules.types,
        &rules.subs,
        &rules.rules,
    )
}

/// The digest of a directory of a walk, from what can decide the labels at or below it. Every walk
/// takes its digests from here. Only want of memory is in its way.
#[tactic(auto, unfolding(crate::specs::Walk::digest_now))]
pub fn digest_of(
    alloc: Global,
    input: &WalkInput<'_>,
    d: u32,
    listings: &Listings<'_>,
    buffers: &mut Buffers,
) -> Result<Digest, OutOfMemory>
    requires entry { d < walk_count (walk_of input.now) }
    requires format { HaveLinks input.now.options.format input.now.tree.now }
    requires listings { basis_in listings.now ≡ basis_by input.now.rules.now input.now.options }
    requires own { IsScratchOf input.now.rules.now.rules buffers.old.scratch }
    ensures own { IsScratchOf input.now.rules.now.rules buffers.new.scratch }
    ensures digest { IfOk result (λ digest. digest ≡ digest_now (walk_of input.now) d) }
{
    let dir = input.tree.entry(d).path;
    listings.digest(alloc, &mut buffers.scratch, &dir, &mut buffers.listing)
}
