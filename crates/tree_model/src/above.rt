ghost use Rattle.std.specs.Prelude.{◌≡◌, ◌<◌, [], IfSome, MatchOption, length};
ghost use Rattle.file_paths.specs.PathRef.{path_of};
ghost use Rattle.tree_model.specs.Extents.{parent_of};
ghost use Rattle.tree_model.specs.Fronts.{IsOneBelow, directory_in};
ghost use Rattle.tree_model.specs.Tree.{ByPath};

use crate::sorted::Sorted;
use file_paths::PathRef;

// The path without its last name; above `/` there is none.
fn above<'a>(path: &PathRef<'a>) -> Option<PathRef<'a>>
    ensures { MatchOption result (path_of path.now ≡ [])
        (λ top. IsOneBelow (path_of path.now) (path_of top)) }
{
    let count = path.names();
    if count == 0 {
        return None;
    }
    let text = path.as_text();
    let end = text.len() - path.name(count - 1).len() - 1;
    Some(PathRef::of_text(&text[..end]))
}

// The index of the directory with a path.
fn directory_at(sorted: &Sorted, path: &PathRef<'_>) -> Option<u32>
    ensures { result ≡ directory_in (path_of path.now) sorted.now }
{
    match sorted.find(path) {
        Some(d) => {
            if sorted.is_directory(d) {
                Some(d)
            } else {
                None
            }
        }
        None => None,
    }
}

/// The index of the nearest directory above an entry, found by the paths above the entry's.
pub fn parent_by_path(sorted: &Sorted, e: u32) -> Option<u32>
    requires by_path { ByPath sorted.now }
    requires known { e < length sorted.now }
    ensures value { result ≡ parent_of sorted.now e }
    ensures before { IfSome result (λ d. d < e) }
{
    let mut path = sorted.entry(e).path;
    'tops: while let Some(top) = above(&path) {
        let found = directory_at(sorted, &top);
        if found.is_some() {
            return found;
        }
        path = top;
    }
    None
}
