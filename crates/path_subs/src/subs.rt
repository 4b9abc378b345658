ghost use Rattle.std.specs.Prelude.{◌≡◌, IfOk, is_some, unwrap_or};
ghost use Rattle.std.specs.Bool.{OnTrue};
ghost use Rattle.file_paths.specs.PathRef.{path_of};
ghost use Rattle.path_subs.specs.Subs.{KeepsBelow, is_path_covered, plain, substituted};

use crate::below::{has_source_below, has_source_below_first};
use crate::stage::stage;
use crate::sub_list::SubList;
use file_paths::{NormPath, PathRef};
use label_base::OutOfMemory;
use std::alloc::Global;

/// The substitutions of a policy. Each stage is applied at most once.
#[derive(Debug)]
pub struct Subs {
    /// The lines of file_contexts.subs.
    pub first: SubList,
    /// The lines of file_contexts.subs_dist, which change what the first stage gives.
    pub second: SubList,
}

// By hand: one call for an owner, where a derived drop is a step for each field.
impl Drop for Subs {
    fn drop(self) {
        let Subs {
            first: _,
            second: _,
        } = self;
    }
}

fn copy_of(alloc: Global, path: &PathRef<'_>) -> Result<NormPath, OutOfMemory>
    ensures { IfOk result (λ copy. copy ≡ path_of path.now) }
{
    let root = NormPath::root(alloc);
    NormPath::replaced(alloc, path, &root.path(), &root.path())
}

impl Subs {
    /// The path as both stages change it, or none where no line covers it, so that the path itself
    /// can be taken without a copy.
    ///
    /// A line covers the paths at or below its source, and of several that do in one file the last
    /// is taken. The names of its source give place to those of its target. A changed path knows no
    /// limit of length.
    pub fn changed(
        &self,
        alloc: Global,
        path: &PathRef<'_>,
    ) -> Result<Option<NormPath>, OutOfMemory>
        ensures value { IfOk result (λ changed. unwrap_or changed (path_of path.now)
            ≡ substituted self.now.first self.now.second (path_of path.now)) }
        ensures variant { IfOk result (λ changed. is_some changed
            ≡ is_path_covered self.now.first self.now.second (path_of path.now)) }
    {
        let Some(once) = stage(alloc, &self.first, path)? else {
            return stage(alloc, &self.second, path);
        };
        let twice = stage(alloc, &self.second, &once.path())?;
        Ok(Some(twice.unwrap_or(once)))
    }

    /// The path as both stages change it, which is a copy of the path where no line covers it.
    pub fn apply(&self, alloc: Global, path: &PathRef<'_>) -> Result<NormPath, OutOfMemory>
        ensures { IfOk result (λ changed. changed
            ≡ substituted self.now.first self.now.second (path_of path.now)) }
    {
        match self.changed(alloc, path)? {
            Some(changed) => Ok(changed),
            None => copy_of(alloc, path),
        }
    }

    /// Whether every path below this one is changed as this one is: no source of the first stage
    /// lies strictly below it, and none of the second strictly below what the first makes of it.
    /// Takes no memory.
    #[tactic(auto, using(crate::proofs::PlainPaths::plain_keeps))]
    pub fn plain_at(&self, path: &PathRef<'_>) -> bool
        ensures value { result ≡ plain self.now.first self.now.second (path_of path.now) }
        ensures below { OnTrue result
            (KeepsBelow self.now.first self.now.second (path_of path.now)) }
    {
        !has_source_below(&self.first, path)
            && !has_source_below_first(&self.second, &self.first, path)
    }
}
