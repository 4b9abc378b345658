ghost use Rattle.std.specs.Prelude.{◌≡◌, ◌<◌, ◌^◌, IfOk, IfSome, length};
ghost use Rattle.std.specs.Option.{option_copied};
ghost use Rattle.file_paths.specs.PathRef.{path_of};
ghost use Rattle.label_rules.specs.LookUp.{given_at, index_asked};

use crate::given::given_by;
use crate::rules::Rules;
use context_syntax::{Context, TypeNames};
use file_paths::PathRef;
use label_base::{Asked, OutOfMemory, Row};
use path_subs::Subs;
use spec_match::{RuleSet, find_last};
use spec_reader::Spec;
use std::alloc::Global;
use std::marker::Model;

/// Rules whose specifications are as they were read, and gone through for each path. Contracts see
/// the rules.
pub struct ListedRules {
    specs: Row<Spec>,
    subs: Subs,
    types: TypeNames,
}

// By hand: one call for an owner, where a derived drop is a step for each field.
impl Drop for ListedRules {
    fn drop(self) {
        let ListedRules {
            specs: _,
            subs: _,
            types: _,
        } = self;
    }
}

impl Model for ListedRules {
    ghost use Rattle.std.specs.Prelude.{◌<◌, ◌^◌, length};
    ghost use Rattle.std.specs.Coded.{codes};
    ghost use Rattle.pattern_syntax.specs.Tree.{tree_code};
    ghost use Rattle.context_syntax.specs.TypeNames.{name_set_code};
    ghost use Rattle.label_rules.specs.declared.rules.Rules.{Rules};

    ghost Value = { Rules };

    ghost coded = { Prim.hlevel (codes, tree_code, name_set_code) };

    ghost view = { λ r. record { rules = r.specs; subs = r.subs; types = r.types } };

    ghost invariant = { λ r. length r.specs < 2 ^ 32 };
}

impl ListedRules {
    /// The rules of a list of specifications, in the order in which the last match decides.
    pub fn new(specs: Row<Spec>, subs: Subs, types: TypeNames) -> ListedRules
        requires { length specs < 2 ^ 32 }
        ensures { result ≡ record { rules = specs; subs = subs; types = types } }
    {
        ListedRules { specs, subs, types }
    }

    /// The index of the specification that decides a path, as
    /// [`look_up_path`](crate::look_up_path) has it.
    #[tactic(auto, unfolding(crate::specs::LookUp::index_asked))]
    pub fn look_up_path(
        &self,
        alloc: Global,
        path: &PathRef<'_>,
        asked: Asked,
    ) -> Result<Option<u32>, OutOfMemory>
        ensures found { IfOk result (λ found.
            found ≡ index_asked self.now (path_of path.now) asked) }
        ensures within { IfOk result (λ found. IfSome found (λ i. i < length self.now.rules)) }
    {
        let specs = self.specs.as_slice();
        match self.subs.changed(alloc, path)? {
            Some(changed) => find_last(alloc, specs, &changed.path(), asked),
            None => find_last(alloc, specs, path, asked),
        }
    }

    /// The context that the specification at an index gives.
    pub fn given_at(&self, found: Option<u32>) -> Option<&Context>
        ensures { option_copied result ≡ given_at self.now.rules found }
    {
        match found {
            Some(i) if (i as usize) < self.specs.len() => given_by(self.specs.get(i as usize)),
            _ => None,
        }
    }

    /// Makes the specifications ready for look-ups of many paths.
    pub fn into_rules(self, alloc: Global) -> Result<Rules, OutOfMemory>
        ensures { IfOk result (λ rules. rules ≡ self) }
    {
        let ListedRules { specs, subs, types } = self;
        let rules = RuleSet::new(alloc, specs)?;
        Ok(Rules { rules, subs, types })
    }
}
