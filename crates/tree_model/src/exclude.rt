ghost use Rattle.std.specs.Prelude.{◌≡◌, ◌&&◌, ◌<◌, nat_lt, length};
ghost use Rattle.file_paths.specs.Path.{at_or_below};
ghost use Rattle.file_paths.specs.PathRef.{path_of};
ghost use Rattle.tree_model.specs.Extents.{EndsFrom, entry_at};
ghost use Rattle.tree_model.specs.LiveLists.{IsCleared};
ghost use Rattle.tree_model.specs.Tree.{ByPath};

use crate::marks::fill;
use crate::sorted::Sorted;
use file_paths::PathRef;

// Whether the index is an entry's, and that entry is at or below a path.
#[tactic(auto, using(crate::proofs::KnownLemmas::entry_is))]
fn is_below(sorted: &Sorted, c: u32, path: &PathRef<'_>) -> bool
    ensures { result ≡ (nat_lt c (length sorted.now)
        && at_or_below (entry_at sorted.now c).path (path_of path.now)) }
{
    c < sorted.len() && sorted.entry(c).path.is_at_or_below(path)
}

/// Clears the flags of the entries at or below a path.
pub fn clear_below(sorted: &Sorted, ends: &[u32], live: &mut Vec<bool>, path: &PathRef<'_>)
    requires by_path { ByPath sorted.now }
    requires ends { EndsFrom 0 sorted.now ends.now }
    requires flags { length live.old.items ≡ length sorted.now }
    ensures { IsCleared (λ e. at_or_below (entry_at sorted.now e).path (path_of path.now))
        live.old.items live.new.items }
{
    let first = sorted.first_from(path);
    let mut c = first;
    'extents: while is_below(sorted, c, path) {
        let end = ends[c as usize];
        fill(live, c, end, false);
        c = end;
    }
}
