ghost use Rattle.std.specs.Prelude.{◌≡◌, ◌<◌, ◌≤◌, length};
ghost use Rattle.relabel_core.specs.Answer.{walk_in};
ghost use Rattle.relabel_core.specs.Walk.{absent_errors, conflict_errors, conflicts_below, errors};
ghost use Rattle.relabel_core.specs.Walked.{IsFit, walk_of};

use crate::input::WalkInput;
use crate::walked::Walked;

// How many operands have no entry, where they count.
fn absent_errors(input: &WalkInput<'_>) -> u32
    requires { IsFit input.now }
    ensures value { result ≡ absent_errors (walk_of input.now) }
    ensures few { result ≤ length input.now.operands.now }
{
    if input.options.ignore_absent {
        return 0;
    }
    input.chosen.absent().len() as u32
}

fn count_conflicts(walked: &Walked<'_>) -> u32
    ensures value { result
        ≡ conflicts_below (walk_in walked.now) (length walked.now.input.tree.now) }
    ensures few { result ≤ length walked.now.input.tree.now }
{
    let mut conflicts = 0;
    'entries: for e in 0..walked.len() {
        conflicts += u32::from(walked.has_conflict(e));
    }
    conflicts
}

// How many entries are in conflict with their group's winner, where they count.
fn conflict_errors(walked: &Walked<'_>) -> u32
    ensures value { result ≡ conflict_errors (walk_in walked.now) }
    ensures few { result ≤ length walked.now.input.tree.now }
{
    if !walked.input.options.strict_links {
        return 0;
    }
    count_conflicts(walked)
}

impl<'a> Walked<'a> {
    /// How many errors the walk met: the operands without an entry, unless these are ignored, and
    /// where links are strict the names that are decided to another context than their inode gets.
    pub fn errors(&self) -> u32
        ensures { result ≡ errors (walk_in self.now) }
    {
        let _ = &self.input;
        absent_errors(&self.input) + conflict_errors(self)
    }
}
