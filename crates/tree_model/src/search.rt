ghost use Rattle.std.specs.Prelude.{◌≡◌, ◌<◌, ◌-◌, length};
ghost use Rattle.file_paths.specs.PathRef.{path_of};
ghost use Rattle.tree_model.specs.Search.{IsBetween, is_before, stands_at};
ghost use Rattle.tree_model.specs.Tree.{ByPath, IsFrom};

use file_paths::PathRef;
use find_records::Records;

// Whether the path of an entry is before this one.
#[tactic(auto, using(crate::proofs::KnownLemmas::entry_is))]
fn is_before(records: &Records, path: &PathRef<'_>, e: u32) -> bool
    requires { e < length records.now }
    ensures { result ≡ is_before (path_of path.now) records.now e }
{
    records.entry(e).path.compare(path).is_lt()
}

// The bounds of a search after one more step.
fn halve(records: &Records, path: &PathRef<'_>, low: u32, high: u32) -> (u32, u32)
    requires by_path { ByPath records.now }
    requires between { IsBetween (path_of path.now) records.now low high }
    requires some { low < high }
    ensures between { IsBetween (path_of path.now) records.now result.0 result.1 }
    ensures fewer { result.1 - result.0 < high - low }
{
    let middle = low + (high - low) / 2;
    if is_before(records, path, middle) {
        (middle + 1, high)
    } else {
        (low, middle)
    }
}

/// The index of the first entry whose path is not before this one; without one, the number of
/// entries.
#[tactic(auto, using(crate::proofs::FindLemmas::from_between))]
pub fn first_from(records: &Records, path: &PathRef<'_>) -> u32
    requires { ByPath records.now }
    ensures { IsFrom (path_of path.now) records.now result }
{
    let mut bounds = (0, records.len());
    'halves: while bounds.0 < bounds.1 {
        bounds = halve(records, path, bounds.0, bounds.1);
    }
    bounds.0
}

/// Whether there is an entry with this index, and it has this path.
#[tactic(auto, using(crate::proofs::KnownLemmas::entry_is))]
pub fn stands_at(records: &Records, path: &PathRef<'_>, e: u32) -> bool
    ensures { result ≡ stands_at (path_of path.now) records.now e }
{
    e < records.len() && records.entry(e).path.is_same(path)
}
