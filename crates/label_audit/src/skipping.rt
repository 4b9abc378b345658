ghost use Rattle.std.specs.Prelude.{◌≡◌, ◌<◌, ◌≤◌, IfOk};
ghost use Rattle.dir_digest.specs.Listings.{basis_in};
ghost use Rattle.spec_match.specs.Scratches.{IsScratchOf};
ghost use Rattle.relabel_core.specs.Swept.{SkipEndsAt, needed};
ghost use Rattle.relabel_core.specs.DigestBasis.{basis_by};
ghost use Rattle.relabel_core.specs.Walk.{walk_count, skippable};
ghost use Rattle.relabel_core.specs.Walked.{IsFit, walk_of};
ghost use Rattle.label_audit.specs.Skipping.{IsSkipped};

use dir_digest::{Digest, Listings};
use label_base::OutOfMemory;
use relabel_core::{
    Buffers, Cursor, DirectoryFinding, Skip, WalkInput, find_directory, renewed_digest,
};
use std::alloc::Global;

/// What is found of an entry as a directory.
#[derive(Clone, Copy)]
pub struct Skipped {
    /// Whether it is skipped.
    pub skip: Skip,
    /// The digest that it gets anew.
    pub renewed: Option<Digest>,
    /// Behind it, the entries before this index are below a directory that is skipped.
    pub end: u32,
}

// What is found of an entry that is below no directory that is skipped.
fn skip_found(input: &WalkInput<'_>, at: Cursor, found: &DirectoryFinding) -> Skipped
    requires fit { IsFit input.now }
    requires entry { at.entry < walk_count (walk_of input.now) }
    requires covers { SkipEndsAt (walk_of input.now) at.entry at.end }
    requires outside { at.end ≤ at.entry }
    requires digest { found.now.digest ≡ needed (walk_of input.now) at.entry }
    requires skippable { found.now.skippable ≡ skippable (walk_of input.now) at.entry }
    ensures { IsSkipped (walk_of input.now) at.entry result }
{
    if found.skippable {
        return Skipped {
            skip: Skip::First,
            renewed: None,
            end: input.tree.extent(at.entry),
        };
    }
    Skipped {
        skip: Skip::Not,
        renewed: renewed_digest(input, at.entry, found.digest, false),
        end: at.end,
    }
}

/// Finds whether an entry is skipped, and the digest that it gets anew.
pub fn skip_entry(
    alloc: Global,
    input: &WalkInput<'_>,
    at: Cursor,
    listings: &Listings<'_>,
    buffers: &mut Buffers,
) -> Result<Skipped, OutOfMemory>
    requires fit { IsFit input.now }
    requires entry { at.entry < walk_count (walk_of input.now) }
    requires covers { SkipEndsAt (walk_of input.now) at.entry at.end }
    requires listings { basis_in listings.now ≡ basis_by input.now.rules.now input.now.options }
    requires own { IsScratchOf input.now.rules.now.rules buffers.old.scratch }
    ensures own { IsScratchOf input.now.rules.now.rules buffers.new.scratch }
    ensures found { IfOk result (IsSkipped (walk_of input.now) at.entry) }
{
    if at.entry < at.end {
        return Ok(Skipped {
            skip: Skip::Below,
            renewed: None,
            end: at.end,
        });
    }
    let found = find_directory(alloc, input, at.entry, listings, buffers)?;
    Ok(skip_found(input, at, &found))
}
