ghost use Rattle.std.specs.Prelude.{◌≡◌, ◌<◌, ◌^◌, ◌++◌, ◌∷◌, [], List, IfOk, OnOk, length, map};
ghost use Rattle.std.specs.Prelude.{if◌then◌else◌};
ghost use Rattle.file_paths.specs.Path.{Path, is_root_path, path_text};
ghost use Rattle.file_paths.specs.PathRef.{path_of};
ghost use Rattle.pattern_match.specs.States.{AreStatesOf, HasRoomFor, StandsFor};
ghost use Rattle.spec_match.specs.Alive.{AreAlive, alive_at};
ghost use Rattle.spec_match.specs.Chains.{AreStartsOf};
ghost use Rattle.spec_match.specs.Found.{AreFound, IsAddedFrom, IsAddedOne, front_text};
ghost use Rattle.spec_match.specs.Fronts.{AreFronts};
ghost use Rattle.spec_match.specs.ListsSeen.{list_seen};
ghost use Rattle.spec_match.specs.Relevant.{can_decide, relevant_at};
ghost use Rattle.spec_match.specs.StatesFor.{AreStatesFor, patterns_of, spec_in};
ghost use Rattle.spec_match.specs.Stepping.{AreOwnLists};
ghost use Rattle.spec_reader.specs.SpecValue.{SpecValue};

use crate::compiled_spec::CompiledSpec;
use crate::fronts::add_below;
use crate::lists::ListRef;
use crate::starts::{Starts, mixed};
use crate::trials::Trials;
use file_paths::PathRef;
use label_base::OutOfMemory;
use pattern_match::States;
use std::alloc::Global;

/// Adds an index to those that were found, if it is one of them.
pub fn add_if(found: &mut Vec<u32>, index: u32, is_found: bool) -> Result<(), OutOfMemory>
    ensures { OnOk result (found.new.items
        ≡ (if is_found then found.old.items ++ index ∷ [] else found.old.items)) }
{
    if is_found {
        found.push(index)?;
    }
    Ok(())
}

/// What is sought: which of these specifications can decide at or below a path.
#[derive(Clone, Copy)]
pub struct Sought<'r, 'p> {
    pub rules: &'r [CompiledSpec],
    pub path: PathRef<'p>,
}

/// Adds a specification, if it can decide at or below the path.
pub fn try_rule(
    sought: &Sought<'_, '_>,
    trials: &mut Trials,
    i: usize,
    found: &mut Vec<u32>,
) -> Result<(), OutOfMemory>
    requires count { length sought.now.rules.now < 2 ^ 32 }
    requires within { i < length sought.now.rules.now }
    requires states { AreStatesFor (patterns_of sought.now.rules.now) trials.old.states }
    ensures states { AreStatesFor (patterns_of sought.now.rules.now) trials.new.states }
    ensures added { OnOk result (IsAddedOne (path_of sought.now.path) sought.now.rules.now i
        found.old.items found.new.items) }
{
    trials.tried = trials.tried.saturating_add(1);
    let rules = sought.rules;
    let rule = &rules[i];
    let is_found = rule.can_decide(&mut trials.states, &sought.path);
    add_if(found, i as u32, is_found)
}

/// The same, if its literal start has so many bytes.
pub fn try_from(
    sought: &Sought<'_, '_>,
    trials: &mut Trials,
    at: usize,
    i: usize,
    found: &mut Vec<u32>,
) -> Result<(), OutOfMemory>
    requires count { length sought.now.rules.now < 2 ^ 32 }
    requires within { i < length sought.now.rules.now }
    requires states { AreStatesFor (patterns_of sought.now.rules.now) trials.old.states }
    ensures states { AreStatesFor (patterns_of sought.now.rules.now) trials.new.states }
    ensures added { OnOk result (IsAddedFrom (path_of sought.now.path) sought.now.rules.now at i
        found.old.items found.new.items) }
{
    let rules = sought.rules;
    if rules[i].start().len() != at {
        return Ok(());
    }
    try_rule(sought, trials, i, found)
}

// What all texts below a path begin with, before a slash.
fn front_text<'a>(path: &PathRef<'a>) -> &'a [u8]
    ensures { result.now ≡ front_text (path_of path.now) }
{
    if path.names() == 0 {
        return b"".as_slice();
    }
    path.as_text()
}

// Indices in ascending order, each once.
fn in_order(mut found: Vec<u32>) -> Vec<u32>
    ensures { (path : Path) (specs : List SpecValue) → AreFound path specs found.items
        → result.items ≡ relevant_at path specs }
{
    found.sort_unstable();
    found.dedup();
    found
}

/// The indices of the specifications that can decide at or below a path, in ascending order: those
/// are tried whose texts begin as it does.
pub fn relevant_by_starts(
    alloc: Global,
    sought: &Sought<'_, '_>,
    starts: &Starts,
    keys: &[u64],
    trials: &mut Trials,
) -> Result<Vec<u32>, OutOfMemory>
    requires count { length sought.now.rules.now < 2 ^ 32 }
    requires starts { AreStartsOf sought.now.rules.now starts.now }
    requires fronts { AreFronts (patterns_of sought.now.rules.now) keys.now }
    requires states { AreStatesFor (patterns_of sought.now.rules.now) trials.old.states }
    ensures states { AreStatesFor (patterns_of sought.now.rules.now) trials.new.states }
    ensures value { IfOk result (λ found. found.items
        ≡ relevant_at (path_of sought.now.path) (map spec_in sought.now.rules.now)) }
{
    let text = front_text(&sought.path);
    let mut found = Vec::new(alloc);
    let hash = starts.add_above(sought, trials, text, &mut found)?;
    let below = mixed(hash, b'/');
    add_below(keys, sought, trials, below, &mut found)?;
    Ok(in_order(found))
}

// Whether the specification at a place of a list can decide at or below the path whose text was
// read.
fn can_decide(
    list: &ListRef<'_>,
    rule: &CompiledSpec,
    states: &mut States,
    k: usize,
    is_root: bool,
) -> bool
    requires list { list.now.number < length list.now.lists.now.lists }
    requires within { k < length (list_seen list.now) }
    requires room { HasRoomFor rule.now.spec.pattern states.old.room }
    requires kept { AreStatesOf rule.now.spec.pattern (alive_at (list_seen list.now) k).states }
    ensures room { states.new.room ≡ states.old.room }
    ensures value { (path : Path) → is_root ≡ is_root_path path
        → StandsFor rule.now.spec.pattern (alive_at (list_seen list.now) k).states
        (path_text path)
        → result ≡ can_decide path rule.now.spec }
{
    list.lists.load(list.number, k, states);
    rule.can_decide_behind(states, is_root)
}

/// The indices of the specifications that can decide at or below a path, in ascending order, from
/// the list of those that are alive behind its text. The list goes from the last one back.
pub fn listed_relevant(
    alloc: Global,
    list: &ListRef<'_>,
    rules: &[CompiledSpec],
    states: &mut States,
    is_root: bool,
) -> Result<Vec<u32>, OutOfMemory>
    requires count { length rules.now < 2 ^ 32 }
    requires states { AreStatesFor (patterns_of rules.now) states.old }
    requires own { AreOwnLists (patterns_of rules.now) list.now.lists.now.lists }
    requires list { list.now.number < length list.now.lists.now.lists }
    ensures states { AreStatesFor (patterns_of rules.now) states.new }
    ensures value { IfOk result (λ found. (path : Path) → is_root ≡ is_root_path path
        → AreAlive (patterns_of rules.now) (path_text path) (length (patterns_of rules.now))
        (list_seen list.now)
        → found.items ≡ relevant_at path (map spec_in rules.now)) }
{
    let mut found = Vec::new(alloc);
    let lists = list.lists;
    let mut left = lists.list_len(list.number);
    'alive: while left > 0 {
        left -= 1;
        let i = lists.index(list.number, left);
        let rule = &rules[i];
        let is_found = can_decide(list, rule, states, left, is_root);
        add_if(&mut found, i as u32, is_found)?;
    }
    Ok(found)
}
