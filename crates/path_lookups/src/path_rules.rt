ghost use Rattle.std.specs.Prelude.{◌≡◌, IfOk};

use label_base::OutOfMemory;
use label_rules::{ListedRules, Rules};
use std::alloc::Global;
use std::marker::Model;

// For up to so many paths it mostly takes less to go through the specifications for each than to
// make all of them ready.
const FEW_PATHS: usize = 8;

/// How contexts are found by rules.
#[derive(Drop)]
pub enum Readiness {
    /// In the list of specifications, as it was read.
    Listed(ListedRules),
    /// In specifications that were made ready.
    Ready(Rules),
}

/// The rules by which paths are looked up: made ready where they are many. Contracts see the rules.
pub struct PathRules {
    pub(crate) readiness: Readiness,
}

impl Model for PathRules {
    ghost use Rattle.std.specs.Coded.{codes};
    ghost use Rattle.pattern_syntax.specs.Tree.{tree_code};
    ghost use Rattle.context_syntax.specs.TypeNames.{name_set_code};
    ghost use Rattle.label_rules.specs.declared.rules.Rules.{Rules};
    ghost use Rattle.path_lookups.specs.PathRules.{rules_in};

    ghost Value = { Rules };

    ghost coded = { Prim.hlevel (codes, tree_code, name_set_code) };

    ghost view = { λ r. rules_in r.readiness };
}

// By hand: one call for an owner, where a derived drop is a step for each field.
impl Drop for PathRules {
    fn drop(self) {
        let PathRules { readiness: _ } = self;
    }
}

impl PathRules {
    /// The rules for so many paths.
    pub fn new(alloc: Global, rules: ListedRules, paths: usize) -> Result<PathRules, OutOfMemory>
        ensures { IfOk result (λ made. made ≡ rules) }
    {
        if paths <= FEW_PATHS {
            return Ok(PathRules {
                readiness: Readiness::Listed(rules),
            });
        }
        let ready = rules.into_rules(alloc)?;
        Ok(PathRules {
            readiness: Readiness::Ready(ready),
        })
    }
}
