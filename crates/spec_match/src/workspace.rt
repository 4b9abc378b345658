ghost use Rattle.std.specs.Prelude.{◌≡◌, ◌<◌, ◌^◌, ◌++◌, ◌∷◌, [], IfOk, IfSome, length, map};
ghost use Rattle.std.specs.List.{All};
ghost use Rattle.file_paths.specs.Path.{Path, path_text};
ghost use Rattle.file_paths.specs.PathRef.{path_of};
ghost use Rattle.spec_match.specs.Alive.{IsOwn};
ghost use Rattle.spec_match.specs.Carrying.{IsAliveAt};
ghost use Rattle.spec_match.specs.Chains.{AreStartsOf};
ghost use Rattle.spec_match.specs.Relevant.{relevant_at};
ghost use Rattle.spec_match.specs.Remembering.{IsAnswer};
ghost use Rattle.spec_match.specs.StatesFor.{patterns_of, spec_in};
ghost use Rattle.spec_match.specs.Workspaces.{IsWorkspaceFor};

use crate::answering::Query;
use crate::carrying::{ChildQuery, first_child_fit};
use crate::compiled_spec::CompiledSpec;
use crate::fronts::Fronts;
use crate::lists::ListRef;
use crate::members::Members;
use crate::relevant::{Sought, listed_relevant, relevant_by_starts};
use crate::starts::Starts;
use crate::table::Table;
use crate::trials::Trials;
use label_base::OutOfMemory;
use std::alloc::Global;

/// The states in which patterns are matched, and what earlier look-ups found out.
pub struct Workspace {
    pub(crate) trials: Trials,
    pub(crate) table: Table,
    // Its lists are whole, since each specification can decide below a path, whether a later one
    // hides it or not.
    pub(crate) whole: Table,
    pub(crate) fronts: Fronts,
}

// By hand: one call for an owner, where a derived drop is a step for each field.
impl Drop for Workspace {
    fn drop(self) {
        let Workspace {
            trials: _,
            table: _,
            whole: _,
            fronts: _,
        } = self;
    }
}

impl Workspace {
    /// The last match, by the table where it has room, else by the starts of the patterns.
    pub fn look_up(
        &mut self,
        rules: &[CompiledSpec],
        starts: &Starts,
        query: &Query<'_>,
    ) -> Option<usize>
        requires ready { IsWorkspaceFor rules.now self.old }
        requires starts { AreStartsOf rules.now starts.now }
        ensures ready { IsWorkspaceFor rules.now self.new }
        ensures answer { IsAnswer query.now.asked query.now.text.now (map spec_in rules.now)
            result }
    {
        match self.table.look_up(rules, &mut self.trials.states, query) {
            Some(found) => found,
            None => starts.last_fit(rules, &mut self.trials, query),
        }
    }

    /// The last match of a child of the path for which a list of those that are alive is.
    pub fn look_up_child(
        &mut self,
        rules: &[CompiledSpec],
        from: &Members,
        query: &ChildQuery<'_>,
    ) -> Option<usize>
        requires ready { IsWorkspaceFor rules.now self.old }
        requires own { All (IsOwn (patterns_of rules.now)) from.now }
        ensures ready { IsWorkspaceFor rules.now self.new }
        ensures within { IfSome result (λ i. i < length rules.now) }
        ensures answer { (path : Path) → IsAliveAt rules.now query.now.is_root from.now path
            → IsAnswer query.now.asked (path_text (path ++ query.now.name.now ∷ []))
            (map spec_in rules.now) result }
    {
        first_child_fit(rules, &mut self.trials, from, query)
    }

    // The specifications that can decide at or below a path, by the starts of the patterns.
    fn relevant_by_starts(
        &mut self,
        alloc: Global,
        sought: &Sought<'_, '_>,
        starts: &Starts,
    ) -> Result<Vec<u32>, OutOfMemory>
        requires count { length sought.now.rules.now < 2 ^ 32 }
        requires starts { AreStartsOf sought.now.rules.now starts.now }
        requires ready { IsWorkspaceFor sought.now.rules.now self.old }
        ensures ready { IsWorkspaceFor sought.now.rules.now self.new }
        ensures value { IfOk result (λ found. found.items
            ≡ relevant_at (path_of sought.now.path) (map spec_in sought.now.rules.now)) }
    {
        self.fronts.prepare(alloc, sought.rules)?;
        relevant_by_starts(
            alloc,
            sought,
            starts,
            self.fronts.keys.as_slice(),
            &mut self.trials,
        )
    }

    /// The specifications that can decide at or below a path, by the table where it has room, else
    /// by the starts of the patterns.
    pub fn relevant(
        &mut self,
        alloc: Global,
        sought: &Sought<'_, '_>,
        starts: &Starts,
    ) -> Result<Vec<u32>, OutOfMemory>
        requires count { length sought.now.rules.now < 2 ^ 32 }
        requires starts { AreStartsOf sought.now.rules.now starts.now }
        requires ready { IsWorkspaceFor sought.now.rules.now self.old }
        ensures ready { IsWorkspaceFor sought.now.rules.now self.new }
        ensures value { IfOk result (λ found. found.items
            ≡ relevant_at (path_of sought.now.path) (map spec_in sought.now.rules.now)) }
    {
        let rules = sought.rules;
        let path = sought.path;
        let text = path.as_text();
        match self.whole.reach(rules, &mut self.trials.states, text) {
            Some(number) => {
                let list = ListRef {
                    lists: &self.whole.lists,
                    number,
                };
                let is_root = path.names() == 0;
                listed_relevant(alloc, &list, rules, &mut self.trials.states, is_root)
            }
            None => self.relevant_by_starts(alloc, sought, starts),
        }
    }
}
