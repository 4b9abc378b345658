ghost use Rattle.std.specs.Prelude.{◌≡◌, ◌+◌, ◌≤◌, IfOk};
ghost use Rattle.std.specs.Option.{option_copied};
ghost use Rattle.file_paths.specs.PathRef.{path_of};
ghost use Rattle.spec_match.specs.Scratches.{IsScratchOf};
ghost use Rattle.path_lookups.specs.Finders.{CanFind, IsFinderOf, rules_of};
ghost use Rattle.path_lookups.specs.Found.{context_for};

use crate::path_rules::{PathRules, Readiness};
use context_syntax::Context;
use file_paths::PathRef;
use label_base::{Asked, OutOfMemory, Steps};
use label_rules::{ListedRules, Rules, given_at, look_up_path};
use spec_match::Scratch;
use std::alloc::Global;
use std::sync::ledger::Ledger;

/// What finds the contexts of paths, one after the other, by the rules that it is lent.
#[derive(Drop)]
pub enum Finder<'a> {
    /// By going through the specifications for each path.
    Listed(&'a ListedRules),
    /// By specifications that are ready, and with what earlier look-ups found out.
    Ready(&'a Rules, Scratch),
}

// The context of a path, where the specifications are gone through.
fn find_listed<'a, L: Ledger>(
    alloc: Global,
    rules: &'a ListedRules,
    path: &PathRef<'_>,
    asked: Asked,
    steps: &mut Steps<L>,
) -> Result<Option<&'a Context>, OutOfMemory>
    ensures found { IfOk result (λ context.
        option_copied context ≡ context_for rules.now (path_of path.now) asked) }
    ensures count { steps.new ≤ steps.old + 1 }
{
    steps.tick();
    let found = rules.look_up_path(alloc, path, asked)?;
    Ok(rules.given_at(found))
}

// The context of a path, where the specifications are ready.
fn find_ready<'a, L: Ledger>(
    alloc: Global,
    rules: &'a Rules,
    path: &PathRef<'_>,
    asked: Asked,
    scratch: &mut Scratch,
    steps: &mut Steps<L>,
) -> Result<Option<&'a Context>, OutOfMemory>
    requires { IsScratchOf rules.now.rules scratch.old }
    ensures own { IsScratchOf rules.now.rules scratch.new }
    ensures found { IfOk result (λ context.
        option_copied context ≡ context_for rules.now (path_of path.now) asked) }
    ensures count { steps.new ≤ steps.old + 1 }
{
    let found = look_up_path(alloc, rules, path, asked, scratch, steps)?;
    Ok(given_at(rules, found))
}

impl<'a> Finder<'a> {
    /// What finds contexts by these rules.
    pub fn new(alloc: Global, rules: &'a PathRules) -> Result<Finder<'a>, OutOfMemory>
        ensures { IfOk result (IsFinderOf rules.now) }
    {
        match &rules.readiness {
            Readiness::Listed(listed) => Ok(Finder::Listed(listed)),
            Readiness::Ready(ready) => Ok(Finder::Ready(ready, Scratch::new(alloc, &ready.rules)?)),
        }
    }

    /// The context that is decided for a path. There is none where no specification decides it, nor
    /// where the one that does says `<<none>>`. It counts at most one step.
    pub fn find_context<L: Ledger>(
        &mut self,
        alloc: Global,
        path: &PathRef<'_>,
        asked: Asked,
        steps: &mut Steps<L>,
    ) -> Result<Option<&'a Context>, OutOfMemory>
        requires { CanFind self.old }
        ensures can { CanFind self.new }
        ensures rules { rules_of self.new ≡ rules_of self.old }
        ensures found { IfOk result (λ context.
            option_copied context ≡ context_for (rules_of self.old) (path_of path.now) asked) }
        ensures count { steps.new ≤ steps.old + 1 }
    {
        match self {
            Finder::Listed(rules) => find_listed(alloc, *rules, path, asked, steps),
            Finder::Ready(rules, scratch) => find_ready(alloc, *rules, path, asked, scratch, steps),
        }
    }
}
