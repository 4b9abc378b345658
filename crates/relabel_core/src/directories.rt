ghost use Rattle.std.specs.Prelude.{◌≡◌, ◌+◌, ◌<◌, ◌≤◌, IfOk, None, OnOk, false, true};
ghost use Rattle.dir_digest.specs.Listings.{basis_in};
ghost use Rattle.spec_match.specs.Scratches.{IsScratchOf};
ghost use Rattle.relabel_core.specs.Swept.{AreSwept, AreSweeping, needed};
ghost use Rattle.relabel_core.specs.Stored.{AddsDigest, digests_in};
ghost use Rattle.relabel_core.specs.DigestBasis.{basis_by};
ghost use Rattle.relabel_core.specs.Walk.{walk_count, skippable};
ghost use Rattle.relabel_core.specs.Walked.{IsFit, walk_of};

use crate::digesting::{Buffers, listings_by};
use crate::finding::{find_directory, renewed_digest, uses_digests};
use crate::input::WalkInput;
use crate::swept::{Cursor, Skip, Swept};
use dir_digest::{Digest, Listings};
use label_base::OutOfMemory;
use std::alloc::Global;
use std::collections::BTreeMap;

// An entry below a skipped directory.
fn sweep_below(input: &WalkInput<'_>, at: Cursor, swept: &mut Swept) -> Result<u32, OutOfMemory>
    requires fit { IsFit input.now }
    requires entry { at.entry < walk_count (walk_of input.now) }
    requires below { at.entry < at.end }
    requires swept { AreSweeping (walk_of input.now) at.entry at.end
        swept.old.skips.items swept.old.made }
    ensures { IfOk result (λ end. AreSweeping (walk_of input.now) (at.entry + 1) end
        swept.new.skips.items swept.new.made) }
{
    swept.skips.push(Skip::Below)?;
    Ok(at.end)
}

// A directory that is skipped, with all below it.
fn sweep_skipped(input: &WalkInput<'_>, at: Cursor, swept: &mut Swept) -> Result<u32, OutOfMemory>
    requires fit { IsFit input.now }
    requires entry { at.entry < walk_count (walk_of input.now) }
    requires outside { at.end ≤ at.entry }
    requires over { skippable (walk_of input.now) at.entry ≡ true }
    requires swept { AreSweeping (walk_of input.now) at.entry at.end
        swept.old.skips.items swept.old.made }
    ensures { IfOk result (λ end. AreSweeping (walk_of input.now) (at.entry + 1) end
        swept.new.skips.items swept.new.made) }
{
    swept.skips.push(Skip::First)?;
    Ok(input.tree.extent(at.entry))
}

// Keeps the digest that a directory gets anew, if it gets one.
fn keep_renewed(
    e: u32,
    renewed: Option<Digest>,
    made: &mut BTreeMap<u32, Digest>,
) -> Result<(), OutOfMemory>
    requires { digests_in made.old e ≡ None }
    ensures { OnOk result (AddsDigest made.old made.new e renewed) }
{
    match renewed {
        None => Ok(()),
        Some(digest) => {
            let _ = made.insert(e, digest)?;
            Ok(())
        }
    }
}

// An entry that isn't skipped.
fn sweep_unskipped(
    input: &WalkInput<'_>,
    at: Cursor,
    found: Option<Digest>,
    swept: &mut Swept,
) -> Result<u32, OutOfMemory>
    requires fit { IsFit input.now }
    requires entry { at.entry < walk_count (walk_of input.now) }
    requires outside { at.end ≤ at.entry }
    requires over { skippable (walk_of input.now) at.entry ≡ false }
    requires found { found ≡ needed (walk_of input.now) at.entry }
    requires swept { AreSweeping (walk_of input.now) at.entry at.end
        swept.old.skips.items swept.old.made }
    ensures { IfOk result (λ end. AreSweeping (walk_of input.now) (at.entry + 1) end
        swept.new.skips.items swept.new.made) }
{
    let renewed = renewed_digest(input, at.entry, found, false);
    keep_renewed(at.entry, renewed, &mut swept.made)?;
    swept.skips.push(Skip::Not)?;
    Ok(at.end)
}

// What directories are swept by.
#[derive(Clone, Copy)]
struct Sweep<'s, 'a, 'l> {
    input: &'s WalkInput<'a>,
    listings: &'s Listings<'l>,
}

// Finds whether one entry more is skipped, and makes its digest where anything depends on it. It
// answers where the extent of the last directory that is skipped ends.
fn sweep_entry(
    alloc: Global,
    sweep: &Sweep<'_, '_, '_>,
    at: Cursor,
    buffers: &mut Buffers,
    swept: &mut Swept,
) -> Result<u32, OutOfMemory>
    requires fit { IsFit sweep.now.input.now }
    requires entry { at.entry < walk_count (walk_of sweep.now.input.now) }
    requires listings { basis_in sweep.now.listings.now
        ≡ basis_by sweep.now.input.now.rules.now sweep.now.input.now.options }
    requires own { IsScratchOf sweep.now.input.now.rules.now.rules buffers.old.scratch }
    requires swept { AreSweeping (walk_of sweep.now.input.now) at.entry at.end
        swept.old.skips.items swept.old.made }
    ensures own { IsScratchOf sweep.now.input.now.rules.now.rules buffers.new.scratch }
    ensures swept { IfOk result (λ end. AreSweeping (walk_of sweep.now.input.now) (at.entry + 1)
        end swept.new.skips.items swept.new.made) }
{
    let input = sweep.input;
    if at.entry < at.end {
        return sweep_below(input, at, swept);
    }
    let found = find_directory(alloc, input, at.entry, sweep.listings, buffers)?;
    if found.skippable {
        return sweep_skipped(input, at, swept);
    }
    sweep_unskipped(input, at, found.digest, swept)
}

fn sweep_all(
    alloc: Global,
    input: &WalkInput<'_>,
    listings: &Listings<'_>,
    buffers: &mut Buffers,
) -> Result<Swept, OutOfMemory>
    requires fit { IsFit input.now }
    requires listings { basis_in listings.now ≡ basis_by input.now.rules.now input.now.options }
    requires own { IsScratchOf input.now.rules.now.rules buffers.old.scratch }
    ensures own { IsScratchOf input.now.rules.now.rules buffers.new.scratch }
    ensures swept { IfOk result (λ swept.
        AreSwept (walk_of input.now) swept.skips.items swept.made) }
{
    let sweep = Sweep { input, listings };
    let mut swept = Swept::none(alloc);
    let mut end = 0;
    'entries: for entry in 0..input.tree.len() {
        end = sweep_entry(alloc, &sweep, Cursor { entry, end }, buffers, &mut swept)?;
    }
    Ok(swept)
}

/// Goes over the directories of a tree before any entry is looked up: finds which ones are skipped
/// with all below them, and makes the digests that change. No digest is made below a directory that
/// is skipped, nor for one with a name of its inodes elsewhere or with an entry that isn't asked
/// for.
pub fn sweep_directories(
    alloc: Global,
    input: &WalkInput<'_>,
    buffers: &mut Buffers,
) -> Result<Swept, OutOfMemory>
    requires fit { IsFit input.now }
    requires own { IsScratchOf input.now.rules.now.rules buffers.old.scratch }
    ensures own { IsScratchOf input.now.rules.now.rules buffers.new.scratch }
    ensures swept { IfOk result (λ swept.
        AreSwept (walk_of input.now) swept.skips.items swept.made) }
{
    if !uses_digests(&input.options) {
        return Ok(Swept::none(alloc));
    }
    let listings = listings_by(alloc, input.rules, &input.options)?;
    sweep_all(alloc, input, &listings, buffers)
}
