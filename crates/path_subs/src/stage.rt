ghost use Rattle.std.specs.Prelude.{◌≡◌, true, Some, IfOk, is_some, unwrap_or};
ghost use Rattle.std.specs.List.{list_any};
ghost use Rattle.file_paths.specs.PathRef.{path_of};
ghost use Rattle.path_subs.specs.Subs.{by_last, by_sub, covers};

use crate::sub::Sub;
use crate::sub_list::SubList;
use file_paths::{NormPath, PathRef};
use label_base::OutOfMemory;
use std::alloc::Global;

// What a line that covers the path makes of it.
fn replaced(alloc: Global, path: &PathRef<'_>, sub: &Sub) -> Result<NormPath, OutOfMemory>
    requires { covers (path_of path.now) sub.now ≡ true }
    ensures { IfOk result (λ changed. changed ≡ by_sub (path_of path.now) (Some sub.now)) }
{
    NormPath::replaced(alloc, path, &sub.source.path(), &sub.target.path())
}

/// What one stage makes of the path, or none where no line covers it.
pub fn stage(
    alloc: Global,
    subs: &SubList,
    path: &PathRef<'_>,
) -> Result<Option<NormPath>, OutOfMemory>
    ensures value { IfOk result (λ changed. unwrap_or changed (path_of path.now)
        ≡ by_last subs.now (path_of path.now)) }
    ensures variant { IfOk result (λ changed. is_some changed
        ≡ list_any (covers (path_of path.now)) subs.now) }
{
    match subs.last_cover(path) {
        Some(sub) => Ok(Some(replaced(alloc, path, sub)?)),
        None => Ok(None),
    }
}
