ghost use Rattle.std.specs.Prelude.{◌≡◌, ◌+◌, ◌++◌, ◌∷◌, [], IfOk};
ghost use Rattle.file_paths.specs.Path.{Path, path_text};
ghost use Rattle.spec_match.specs.Carrying.{IsCarriedOf, StandsAt};
ghost use Rattle.spec_match.specs.Relevant.{relevant_at};
ghost use Rattle.spec_match.specs.Remembering.{IsAnswer};
ghost use Rattle.spec_match.specs.Scratches.{IsScratchOf};

use crate::carrying::{ChildQuery, enter, go_on, relevant_members, start};
use crate::members::Members;
use crate::rule_set::RuleSet;
use crate::scratch::Scratch;
use label_base::{Asked, OutOfMemory, Steps};
use std::alloc::Global;
use std::marker::Model;
use std::sync::ledger::Ledger;

/// What is carried down a tree to a directory: which specifications of a [`RuleSet`] are alive
/// behind its path, with the states of their patterns. It stands for a path, which isn't kept, and
/// what lies directly below is looked up by its name.
#[derive(Drop)]
pub struct Carried {
    // Alive behind the path's text, which for `/` is a slash.
    alive: Members,
    is_root: bool,
}

impl Model for Carried {
    ghost use Rattle.spec_match.specs.Carrying.{Carrying};

    ghost Value = { Carrying };

    ghost view = { λ c. record { alive = c.alive; is_root = c.is_root } };
}

impl Carried {
    /// What stands for `/`.
    pub fn root(alloc: Global, rules: &RuleSet) -> Result<Carried, OutOfMemory>
        ensures own { IfOk result (λ carried. IsCarriedOf rules.now carried) }
        ensures stands { IfOk result (λ carried. StandsAt rules.now carried []) }
    {
        let all = start(alloc, rules.rules.as_slice())?;
        Ok(Carried {
            alive: go_on(alloc, rules.rules.as_slice(), &all, b"/")?,
            is_root: true,
        })
    }

    /// What stands for a child of the path, by its name.
    pub fn enter(&self, alloc: Global, rules: &RuleSet, name: &[u8]) -> Result<Carried, OutOfMemory>
        requires { IsCarriedOf rules.now self.now }
        ensures own { IfOk result (λ below. IsCarriedOf rules.now below) }
        ensures stands { IfOk result (λ below. (path : Path) → StandsAt rules.now self.now path
            → StandsAt rules.now below (path ++ name.now ∷ [])) }
    {
        Ok(Carried {
            alive: enter(
                alloc,
                rules.rules.as_slice(),
                &self.alive,
                self.is_root,
                name,
            )?,
            is_root: false,
        })
    }

    /// What [`RuleSet::last_match`] finds for a child of the path. It takes no memory, and counts
    /// one step.
    pub fn last_match<L: Ledger>(
        &self,
        rules: &RuleSet,
        scratch: &mut Scratch,
        name: &[u8],
        asked: Asked,
        steps: &mut Steps<L>,
    ) -> Option<u32>
        requires scratch { IsScratchOf rules.now scratch.old }
        requires own { IsCarriedOf rules.now self.now }
        ensures own { IsScratchOf rules.now scratch.new }
        ensures answer { (path : Path) → StandsAt rules.now self.now path
            → IsAnswer asked (path_text (path ++ name.now ∷ [])) rules.now result }
        ensures count { steps.new ≡ steps.old + 1 }
    {
        steps.tick();
        let query = ChildQuery {
            is_root: self.is_root,
            name,
            asked,
        };
        match scratch
            .room
            .look_up_child(rules.rules.as_slice(), &self.alive, &query)
        {
            Some(i) => Some(i as u32),
            None => None,
        }
    }

    /// What [`RuleSet::relevant`] finds for the path.
    pub fn relevant(&self, alloc: Global, rules: &RuleSet) -> Result<Vec<u32>, OutOfMemory>
        requires { IsCarriedOf rules.now self.now }
        ensures { IfOk result (λ found. (path : Path) → StandsAt rules.now self.now path
            → found.items ≡ relevant_at path rules.now) }
    {
        let rules = rules.rules.as_slice();
        let found = relevant_members(alloc, rules, &self.alive, self.is_root)?;
        Ok(found)
    }
}
