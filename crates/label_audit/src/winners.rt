ghost use Rattle.std.specs.Prelude.{◌≡◌, ◌==◌, ℕ, ◌<◌, IfOk, OnOk, Some, false, get_or};
ghost use Rattle.std.specs.Prelude.{if◌then◌else◌, length};
ghost use Rattle.std.specs.BTreeMap.{get};
ghost use Rattle.std.specs.Ordering.{nat_cmp};
ghost use Rattle.spec_match.specs.Scratches.{IsScratchOf};
ghost use Rattle.tree_model.specs.Groups.{group_of, names_in};
ghost use Rattle.relabel_core.specs.Walk.{walk_count, deciding, is_skipped};
ghost use Rattle.relabel_core.specs.Walked.{IsFit, walk_of};
ghost use Rattle.label_audit.specs.Winners.{AreWinnersKept, IsWinner, winner_if};

use crate::deciding::{LookedUp, decide};
use label_base::OutOfMemory;
use label_rules::does_give;
use relabel_core::{Visit, WalkInput};
use spec_match::Scratch;
use std::alloc::Global;
use std::collections::BTreeMap;

/// The winner of a group of names, and the specification that decides it; both none where none of
/// the names is decided to a context.
#[derive(Clone, Copy)]
pub struct Winner {
    pub name: Option<u32>,
    pub decided: Option<u32>,
}

/// No name wins.
pub const NO_WINNER: Winner = Winner {
    name: None,
    decided: None,
};

/// The winners of the groups whose first name isn't the winner, by the numbers of these groups: the
/// names of each are gone through once.
pub type GroupWinners = BTreeMap<u32, Winner>;

// An entry, where the specification that decides it gives a context.
#[tactic(auto, unfolding(relabel_core::specs::Walk::wanted))]
fn winner_if(input: &WalkInput<'_>, own: LookedUp) -> Winner
    requires { own.spec ≡ deciding (walk_of input.now) own.entry }
    ensures { result ≡ winner_if (walk_of input.now) own.entry }
{
    if does_give(input.rules, own.spec) {
        return Winner {
            name: Some(own.entry),
            decided: own.spec,
        };
    }
    NO_WINNER
}

// Decides an entry that isn't skipped.
fn decide_name(
    alloc: Global,
    input: &WalkInput<'_>,
    e: u32,
    scratch: &mut Scratch,
) -> Result<Winner, OutOfMemory>
    requires fit { IsFit input.now }
    requires entry { e < walk_count (walk_of input.now) }
    requires left { is_skipped (walk_of input.now) e ≡ false }
    requires own { IsScratchOf input.now.rules.now.rules scratch.old }
    ensures own { IsScratchOf input.now.rules.now.rules scratch.new }
    ensures found { IfOk result (λ found. found ≡ winner_if (walk_of input.now) e) }
{
    let at = Visit {
        entry: e,
        skipped: false,
    };
    let spec = decide(alloc, input, at, scratch)?;
    Ok(winner_if(input, LookedUp { entry: e, spec }))
}

// The winner of the group of an entry that isn't skipped, among its names: none of these is, then.
fn search_names(
    alloc: Global,
    input: &WalkInput<'_>,
    e: u32,
    names: &[u32],
    scratch: &mut Scratch,
) -> Result<Winner, OutOfMemory>
    requires fit { IsFit input.now }
    requires entry { e < walk_count (walk_of input.now) }
    requires left { is_skipped (walk_of input.now) e ≡ false }
    requires names { names.now ≡ names_in input.now.tree.now (group_of input.now.tree.now e) }
    requires own { IsScratchOf input.now.rules.now.rules scratch.old }
    ensures own { IsScratchOf input.now.rules.now.rules scratch.new }
    ensures found { IfOk result (IsWinner (walk_of input.now) (group_of input.now.tree.now e)) }
{
    'names: for name in names {
        let found = decide_name(alloc, input, *name, scratch)?;
        if found.name.is_some() {
            return Ok(found);
        }
    }
    Ok(NO_WINNER)
}

// What is kept of a group.
fn kept_winner(group: u32, winners: &GroupWinners) -> Option<Winner>
    ensures { result ≡ get nat_cmp winners.now group }
{
    match winners.get(&group) {
        None => None,
        Some(winner) => Some(*winner),
    }
}

fn keep_winner(group: u32, winner: Winner, winners: &mut GroupWinners) -> Result<(), OutOfMemory>
    ensures { OnOk result ((g : ℕ) → get nat_cmp winners.new g
        ≡ (if group == g then Some winner else get nat_cmp winners.old g)) }
{
    let _ = winners.insert(group, winner)?;
    Ok(())
}

// The same, where it isn't kept already; it is then.
fn later_winner(
    alloc: Global,
    input: &WalkInput<'_>,
    e: u32,
    scratch: &mut Scratch,
    winners: &mut GroupWinners,
) -> Result<Winner, OutOfMemory>
    requires fit { IsFit input.now }
    requires entry { e < walk_count (walk_of input.now) }
    requires left { is_skipped (walk_of input.now) e ≡ false }
    requires own { IsScratchOf input.now.rules.now.rules scratch.old }
    requires winners { AreWinnersKept (walk_of input.now) winners.old }
    ensures own { IsScratchOf input.now.rules.now.rules scratch.new }
    ensures winners { OnOk result (AreWinnersKept (walk_of input.now) winners.new) }
    ensures found { IfOk result (IsWinner (walk_of input.now) (group_of input.now.tree.now e)) }
{
    let group = input.tree.group(e);
    match kept_winner(group, winners) {
        Some(winner) => return Ok(winner),
        None => {}
    }
    let names = input.tree.names_of(group);
    let winner = search_names(alloc, input, e, names, scratch)?;
    keep_winner(group, winner, winners)?;
    Ok(winner)
}

// The first name of the group of an entry that isn't skipped, where that name is decided to a
// context.
fn first_winner(
    alloc: Global,
    input: &WalkInput<'_>,
    own: LookedUp,
    first: u32,
    scratch: &mut Scratch,
) -> Result<Winner, OutOfMemory>
    requires fit { IsFit input.now }
    requires entry { first < walk_count (walk_of input.now) }
    requires left { is_skipped (walk_of input.now) first ≡ false }
    requires decided { own.spec ≡ deciding (walk_of input.now) own.entry }
    requires own { IsScratchOf input.now.rules.now.rules scratch.old }
    ensures own { IsScratchOf input.now.rules.now.rules scratch.new }
    ensures found { IfOk result (λ found. found ≡ winner_if (walk_of input.now) first) }
{
    if first == own.entry {
        return Ok(winner_if(input, own));
    }
    decide_name(alloc, input, first, scratch)
}

fn first_of(names: &[u32]) -> u32
    requires { 0 < length names.now }
    ensures { result ≡ get_or names.now 0 0 }
{
    names[0]
}

/// The winner of the group of an entry that isn't skipped.
pub fn winner_of(
    alloc: Global,
    input: &WalkInput<'_>,
    own: LookedUp,
    scratch: &mut Scratch,
    winners: &mut GroupWinners,
) -> Result<Winner, OutOfMemory>
    requires fit { IsFit input.now }
    requires entry { own.entry < walk_count (walk_of input.now) }
    requires left { is_skipped (walk_of input.now) own.entry ≡ false }
    requires decided { own.spec ≡ deciding (walk_of input.now) own.entry }
    requires own { IsScratchOf input.now.rules.now.rules scratch.old }
    requires winners { AreWinnersKept (walk_of input.now) winners.old }
    ensures own { IsScratchOf input.now.rules.now.rules scratch.new }
    ensures winners { OnOk result (AreWinnersKept (walk_of input.now) winners.new) }
    ensures found { IfOk result
        (IsWinner (walk_of input.now) (group_of input.now.tree.now own.entry)) }
{
    let names = input.tree.names_of(input.tree.group(own.entry));
    let first = first_of(names);
    let found = first_winner(alloc, input, own, first, scratch)?;
    if found.name.is_some() {
        return Ok(found);
    }
    if names.len() == 1 {
        return Ok(NO_WINNER);
    }
    later_winner(alloc, input, own.entry, scratch, winners)
}
