ghost use Rattle.std.specs.Prelude.{◌≡◌, ◌<◌, get_or, length, option_and_then, option_map};
ghost use Rattle.std.specs.Option.{option_copied};
ghost use Rattle.context_syntax.specs.ContextRef.{context_lent};
ghost use Rattle.label_rules.specs.LabelAfter.{label_seen};
ghost use Rattle.label_rules.specs.Verdicts.{verdict_of};
ghost use Rattle.tree_model.specs.Groups.{group_of, groups_in};
ghost use Rattle.relabel_core.specs.Answer.{walk_in};
ghost use Rattle.relabel_core.specs.Changes.{change_at};
ghost use Rattle.relabel_core.specs.Walk.{group_winner, new_label, verdict, wanted};
ghost use Rattle.policy_rehearsal.specs.Seen.{IsSeen, labels_listed, verdict_wanted, walk_seen};

use crate::groups::{decide_lent, label_by};
use context_syntax::{Context, ContextRef};
use label_base::Row;
use label_rules::{LabelAfter, Rules, Verdict, given_at, given_in};
use relabel_core::{LabelChanges, Walked, is_found_at};
use tree_model::Tree;

/// A walk over a tree whose groups have other labels by now. What decides an entry, what is skipped
/// and which digests are made anew depend on no label, so a walk over the tree as it was tells
/// them.
#[derive(Clone, Copy)]
pub struct VersionWalk<'w, 'a> {
    pub tree: &'a Tree,
    pub rules: &'a Rules,
    pub force: bool,
    pub walked: &'w Walked<'w>,
    /// One for each group.
    pub labels: &'w Row<LabelAfter<'a>>,
}

/// The label that a group has by now.
pub fn label_now<'a>(seen: &VersionWalk<'_, 'a>, g: u32) -> LabelAfter<'a>
    requires seen { IsSeen seen.now }
    requires group { g < groups_in seen.now.tree.now }
    ensures { label_seen result ≡ labels_listed seen.now.labels.now g }
{
    let labels = seen.labels;
    *labels.get(g as usize)
}

// The context that is decided for an entry.
fn wanted_at<'a>(seen: &VersionWalk<'_, 'a>, e: u32) -> Option<&'a Context>
    requires seen { IsSeen seen.now }
    requires entry { e < length seen.now.tree.now }
    ensures { option_copied result ≡ wanted (walk_in seen.now.walked.now) e }
{
    let rules = seen.rules;
    given_at(rules, seen.walked.deciding(e))
}

// The context that is decided for the winner of an entry's group.
fn winning_at<'a>(seen: &VersionWalk<'_, 'a>, e: u32) -> Option<&'a Context>
    requires seen { IsSeen seen.now }
    requires entry { e < length seen.now.tree.now }
    ensures { option_copied result
        ≡ option_and_then (wanted (walk_in seen.now.walked.now))
        (group_winner (walk_in seen.now.walked.now) e) }
{
    match seen.walked.winner(e) {
        None => None,
        Some(k) => wanted_at(seen, k),
    }
}

// What becomes of a label where this context is wanted.
fn verdict_where<'a>(
    seen: &VersionWalk<'_, 'a>,
    label: &LabelAfter<'a>,
    wanted: Option<&'a Context>,
) -> Verdict<'a>
    ensures { verdict_of result ≡ verdict_wanted (label_seen label.now)
        (option_copied wanted.entry) seen.now.force seen.now.rules.now.types }
{
    match wanted {
        None => Verdict::Keep,
        Some(context) => {
            let rules = seen.rules;
            decide_lent(label, context, seen.force, &rules.types)
        }
    }
}

/// What becomes of the label of an entry's group.
pub fn verdict_at<'a>(seen: &VersionWalk<'_, 'a>, e: u32) -> Verdict<'a>
    requires seen { IsSeen seen.now }
    requires entry { e < length seen.now.tree.now }
    ensures { verdict_of result ≡ verdict (walk_seen seen.now) (group_of seen.now.tree.now e) }
{
    let label = label_now(seen, seen.tree.group(e));
    verdict_where(seen, &label, winning_at(seen, e))
}

/// The context that the label of an entry changes to, if it changes.
pub fn change_at<'a>(seen: &VersionWalk<'_, 'a>, e: u32) -> Option<ContextRef<'a>>
    requires seen { IsSeen seen.now }
    requires entry { e < length seen.now.tree.now }
    ensures { option_map context_lent result ≡ change_at (walk_seen seen.now) e }
{
    if is_found_at(seen.walked.winner(e), e) {
        given_in(&verdict_at(seen, e))
    } else {
        None
    }
}

impl LabelChanges for VersionWalk<'_, '_> {
    ghost walk = { walk_seen };

    ghost IsWhole = { IsSeen };

    fn entries(&self) -> u32 {
        self.tree.len()
    }

    fn does_change(&self, e: u32) -> bool {
        given_in(&verdict_at(self, e)).is_some()
    }
}

fn number_at(numbers: &[u32], i: u32) -> u32
    ensures { result ≡ get_or numbers.now i 0 }
{
    match numbers.get(i as usize) {
        Some(number) => *number,
        None => 0,
    }
}

/// The label of a group after the walk.
pub fn label_after<'a>(seen: &VersionWalk<'_, 'a>, g: u32) -> LabelAfter<'a>
    requires seen { IsSeen seen.now }
    requires group { g < groups_in seen.now.tree.now }
    ensures { label_seen result ≡ new_label (walk_seen seen.now) g }
{
    let names = seen.tree.names_of(g);
    let first = number_at(names, 0);
    label_by(&verdict_at(seen, first), &label_now(seen, g))
}
