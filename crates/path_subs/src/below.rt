ghost use Rattle.std.specs.Prelude.{◌≡◌, ◌≤◌, ◌<◌, ◌&&◌, length, drop, Some, nat_lt};
ghost use Rattle.std.specs.List.{starts_with};
ghost use Rattle.label_base.specs.Text.{same_bytes};
ghost use Rattle.file_paths.specs.Path.{at_or_below, strictly_below};
ghost use Rattle.file_paths.specs.PathRef.{path_of};
ghost use Rattle.path_subs.specs.Subs.{by_last, by_sub, has_below};

use crate::sub::Sub;
use crate::sub_list::SubList;
use file_paths::PathRef;

fn is_strictly_below(path: &PathRef<'_>, top: &PathRef<'_>) -> bool
    ensures { result ≡ strictly_below (path_of path.now) (path_of top.now) }
{
    path.is_at_or_below(top) && top.names() < path.names()
}

/// Whether the source of some line lies strictly below the path.
pub fn has_source_below(subs: &SubList, path: &PathRef<'_>) -> bool
    ensures { result ≡ has_below subs.now (path_of path.now) }
{
    subs.lines()
        .as_slice()
        .iter()
        .any(|sub| is_source_below(sub, path))
}

fn is_source_below(sub: &Sub, path: &PathRef<'_>) -> bool
    ensures { result ≡ strictly_below sub.now.source (path_of path.now) }
{
    is_strictly_below(&sub.source.path(), path)
}

// Whether the names from a place on begin with those of the other path from its place on.
fn has_names_at(path: &PathRef<'_>, at: usize, other: &PathRef<'_>, from: usize) -> bool
    requires { at ≤ length (path_of path.now) }
    ensures { result
        ≡ starts_with same_bytes (drop at (path_of path.now)) (drop from (path_of other.now)) }
{
    let mut place = at;
    'names: for i in from..other.names() {
        if place == path.names() {
            return false;
        }
        if other.name(i) != path.name(place) {
            return false;
        }
        place += 1;
    }
    true
}

// Whether the path is what a line makes of the other path, or lies below it.
#[tactic(auto, using(crate::proofs::PlainPaths::at_or_below_append))]
fn is_at_or_below_replaced(path: &PathRef<'_>, other: &PathRef<'_>, sub: &Sub) -> bool
    ensures { result
        ≡ at_or_below (path_of path.now) (by_sub (path_of other.now) (Some sub.now)) }
{
    path.is_at_or_below(&sub.target.path())
        && has_names_at(path, sub.target.names(), other, sub.source.names())
}

// Whether the path lies strictly below what a line makes of another path.
fn is_below_replaced(path: &PathRef<'_>, other: &PathRef<'_>, sub: &Sub) -> bool
    ensures { result
        ≡ strictly_below (path_of path.now) (by_sub (path_of other.now) (Some sub.now)) }
{
    is_at_or_below_replaced(path, other, sub) && is_longer(path, other, sub)
}

fn is_longer(path: &PathRef<'_>, other: &PathRef<'_>, sub: &Sub) -> bool
    ensures { result
        ≡ nat_lt (length (by_sub (path_of other.now) (Some sub.now))) (length (path_of path.now)) }
{
    let kept = other.names().saturating_sub(sub.source.names());
    kept < path.names().saturating_sub(sub.target.names())
}

/// Whether the source of some line lies strictly below what the lines of the first stage make of
/// the path.
pub fn has_source_below_first(subs: &SubList, first: &SubList, path: &PathRef<'_>) -> bool
    ensures { result ≡ has_below subs.now (by_last first.now (path_of path.now)) }
{
    match first.last_cover(path) {
        None => has_source_below(subs, path),
        Some(sub) => has_source_below_replaced(subs, path, sub),
    }
}

// Whether the source of some line lies strictly below what another line makes of the path.
fn has_source_below_replaced(subs: &SubList, path: &PathRef<'_>, sub: &Sub) -> bool
    ensures { result ≡ has_below subs.now (by_sub (path_of path.now) (Some sub.now)) }
{
    subs.lines()
        .as_slice()
        .iter()
        .any(|other| is_source_below_replaced(other, path, sub))
}

fn is_source_below_replaced(other: &Sub, path: &PathRef<'_>, sub: &Sub) -> bool
    ensures { result
        ≡ strictly_below other.now.source (by_sub (path_of path.now) (Some sub.now)) }
{
    is_below_replaced(&other.source.path(), path, sub)
}
