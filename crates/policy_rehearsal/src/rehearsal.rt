ghost use Rattle.std.specs.Prelude.{◌≡◌, ℕ, ◌<◌, false, IfOk, None, map};
ghost use Rattle.label_base.specs.Bounded.{all_numbers};
ghost use Rattle.label_rules.specs.LabelAfter.{label_seen};
ghost use Rattle.tree_model.specs.Extents.{is_directory};
ghost use Rattle.tree_model.specs.Groups.{groups_in};
ghost use Rattle.relabel_core.specs.Answer.{walk_in};
ghost use Rattle.relabel_core.specs.Stored.{digests_of};
ghost use Rattle.relabel_core.specs.Walk.{digest_after, new_label};
ghost use Rattle.relabel_core.specs.Walked.{IsFit, walk_of};
ghost use Rattle.relabel_runs.specs.Runs.{TreeState};
ghost use Rattle.policy_rehearsal.specs.Lent.{rehearsed_lent, turn_lent};
ghost use Rattle.policy_rehearsal.specs.Rehearsal.{RunsKeepLabels, bare_state, rehearsed};
ghost use Rattle.policy_rehearsal.specs.Rehearsal.{rehearsed_by, runs_of, turn_in};
ghost use Rattle.policy_rehearsal.specs.Seen.{IsSeen, walk_seen};
ghost use Rattle.policy_rehearsal.specs.Standing.{IsAsked, IsAt, IsStandingKept, IsRunTaken};
ghost use Rattle.policy_rehearsal.specs.Standing.{run_asked};

use crate::groups::first_labels;
use crate::rehearsed::{Rehearsed, VersionChanges};
use crate::seen::VersionWalk;
use crate::turn::{labels_after, stored_after, turn_of};
use label_base::{OutOfMemory, Row, Steps};
use label_rules::{LabelAfter, Rules};
use relabel_core::{Options, Stored, WalkInput, Walked, walk, walk_input};
use std::alloc::Global;
use std::marker::Brand;
use std::sync::ledger::{Blank, Ledger};
use tree_model::{Choice, Selected, Tree};

/// What each version walks over, and how.
#[derive(Clone, Copy)]
pub struct RehearsalInput<'w, 'a> {
    pub tree: &'a Tree,
    pub choice: &'w Choice,
    /// What was selected in the tree of the choice.
    pub chosen: &'w Selected,
    pub options: Options,
}

/// The state of a tree between two versions.
#[derive(Drop)]
pub struct Standing<'a> {
    /// One for each group.
    pub labels: Row<LabelAfter<'a>>,
    pub stored: Stored,
}

// What a version does, and what it leaves.
#[derive(Drop)]
pub struct Taken<'a> {
    turn: VersionChanges<'a>,
    left: Standing<'a>,
}

// The walk over this input, whose look-ups nobody counts.
fn walk_by<'a, L: Ledger>(
    alloc: Global,
    input: &WalkInput<'a>,
    blank: Blank,
) -> Result<Walked<'a>, OutOfMemory>
    requires fit { IsFit input.now }
    requires name { blank.name ≡ L.name }
    requires parts { blank.parts ≡ L.parts }
    requires some { 0 < blank.parts }
    ensures { IfOk result (λ walked. walk_in walked ≡ walk_of input.now) }
{
    let mut steps = Steps::<L>::open(blank);
    walk(alloc, input, &mut steps)
}

// What is told of a walk, and what it leaves.
fn taken_from<'a>(
    alloc: Global,
    seen: &VersionWalk<'_, 'a>,
    stored: &Stored,
) -> Result<Taken<'a>, OutOfMemory>
    requires seen { IsSeen seen.now }
    requires stored { (walk_in seen.now.walked.now).stored ≡ digests_of stored.now }
    requires directories { (e : ℕ) → is_directory seen.now.tree.now e ≡ false
        → digests_of stored.now e ≡ None }
    ensures turn { IfOk result (λ taken.
        turn_lent taken.turn ≡ turn_in (walk_seen seen.now)) }
    ensures labels { IfOk result (λ taken. map label_seen taken.left.labels
        ≡ map (new_label (walk_seen seen.now)) (all_numbers (groups_in seen.now.tree.now))) }
    ensures stored { IfOk result (λ taken.
        digests_of taken.left.stored ≡ digest_after (walk_seen seen.now)) }
{
    let turn = turn_of(alloc, seen)?;
    let stored = stored_after(alloc, seen, stored)?;
    let labels = labels_after(alloc, seen)?;
    Ok(Taken {
        turn,
        left: Standing { labels, stored },
    })
}

// Walks by the rules of a version over the tree as it stands.
fn take_turn<'a>(
    alloc: Global,
    asked: &RehearsalInput<'_, 'a>,
    rules: &'a Rules,
    at: &Standing<'a>,
) -> Result<Taken<'a>, OutOfMemory>
    requires asked { IsAsked asked.now }
    requires kept { IsStandingKept asked.now.tree.now at.now }
    ensures kept { IfOk result (λ taken. IsStandingKept asked.now.tree.now taken.left) }
    ensures taken { (s : TreeState) → IsAt asked.now.tree.now s at.now
        → IfOk result (IsRunTaken asked.now.tree.now s (run_asked asked.now rules.now)) }
{
    let input = walk_input(
        asked.tree,
        asked.choice,
        asked.chosen,
        rules,
        asked.options,
        &at.stored,
    );
    let walked = walk_by::<Brand>(alloc, &input, Blank::new(1))?;
    let seen = VersionWalk {
        tree: asked.tree,
        rules,
        force: asked.options.force,
        walked: &walked,
        labels: &at.labels,
    };
    taken_from(alloc, &seen, &at.stored)
}

fn first_standing<'a>(alloc: Global, tree: &'a Tree) -> Result<Standing<'a>, OutOfMemory>
    ensures kept { IfOk result (IsStandingKept tree.now) }
    ensures at { IfOk result (IsAt tree.now (bare_state tree.now)) }
{
    Ok(Standing {
        labels: first_labels(alloc, tree)?,
        stored: Stored::none(alloc),
    })
}

// Takes a turn for each version.
fn take_turns<'a>(
    alloc: Global,
    asked: &RehearsalInput<'_, 'a>,
    policies: &'a Row<Rules>,
) -> Result<Rehearsed<'a>, OutOfMemory>
    requires { IsAsked asked.now }
    ensures { IfOk result (λ done. rehearsed_lent done ≡ rehearsed_by asked.now.tree.now
        (runs_of asked.now.choice.now asked.now.options policies.now)) }
{
    let mut at = first_standing(alloc, asked.tree)?;
    let mut turns = Row::with_capacity(alloc, policies.len())?;
    'policies: for k in 0..policies.len() {
        let taken = take_turn(alloc, asked, policies.get(k), &at)?;
        let Taken { turn, left } = taken;
        turns.push(turn)?;
        at = left;
    }
    let Standing { labels, stored: _ } = at;
    Ok(Rehearsed { turns, labels })
}

/// What several versions of a policy do to a tree, one after the other: each walks over the labels
/// and the digests that those before it leave, and the first over the labels of the tree, without
/// digests. Each entry has to have a link count where the options' format has one, and none else;
/// entries and operands together have to be fewer than 2^32. The tree isn't copied.
///
/// Where the files were accepted, paths are names and no two different listings that the versions
/// digest have one digest, the labels at the end are those that the same versions leave with
/// skipping off.
pub fn rehearse<'a>(
    alloc: Global,
    asked: &RehearsalInput<'_, 'a>,
    policies: &'a Row<Rules>,
) -> Result<Rehearsed<'a>, OutOfMemory>
    requires { IsAsked asked.now }
    ensures answer { IfOk result (λ done. rehearsed_lent done
        ≡ rehearsed asked.now.tree.now asked.now.choice.now asked.now.options policies.now) }
    ensures keeps { IfOk result (λ done. RunsKeepLabels asked.now.tree.now
        (runs_of asked.now.choice.now asked.now.options policies.now)
        (rehearsed_lent done).labels) }
{
    take_turns(alloc, asked, policies)
}
