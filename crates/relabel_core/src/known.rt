ghost use Rattle.std.specs.Prelude.{◌≡◌, ◌<◌, IfSome, option_and_then, option_map};
ghost use Rattle.std.specs.Option.{option_copied};
ghost use Rattle.context_syntax.specs.ContextRef.{context_lent};
ghost use Rattle.label_rules.specs.LabelAfter.{label_seen};
ghost use Rattle.label_rules.specs.Verdicts.{verdict_of};
ghost use Rattle.tree_model.specs.Groups.{group_of, groups_in, label_in};
ghost use Rattle.relabel_core.specs.Changes.{context_change};
ghost use Rattle.relabel_core.specs.Known.{IsEntryKnown};
ghost use Rattle.relabel_core.specs.Walk.{is_found_at, label_where, verdict_where};
ghost use Rattle.relabel_core.specs.Walked.{IsFit, walk_of};

use crate::deciding::is_walked;
use crate::input::WalkInput;
use crate::swept::{Skip, does_skip, is_first};
use context_syntax::{Context, ContextRef, Label};
use file_paths::PathRef;
use label_rules::{
    LabelAfter, Verdict, conflict_line, decide, given_at, given_in, label_by, verdict_line,
};
use report_text::Message;

/// What is found of one entry of a walk.
#[derive(Clone, Copy)]
pub struct EntryFound {
    pub skip: Skip,
    pub decided: Option<u32>,
    pub winner: Option<u32>,
    /// What decides the winner.
    pub winning: Option<u32>,
}

/// What is known of one entry of a walk: whether it is skipped, which specification decides it, and
/// the winner of its group with the specification that decides that one. What becomes of its label
/// and its line are made from this alone.
#[derive(Clone, Copy)]
pub struct Known<'a> {
    input: WalkInput<'a>,
    index: u32,
    skip: Skip,
    decided: Option<u32>,
    winner: Option<u32>,
    // What decides the winner.
    winning: Option<u32>,
    ghost fit: { IsFit input },
    ghost known: { IsEntryKnown (walk_of input) index skip decided winner winning },
}

/// The verdict on the label of a group for which this context is wanted.
pub fn group_verdict<'a>(input: &WalkInput<'a>, g: u32, wanted: Option<&'a Context>) -> Verdict<'a>
    requires { g < groups_in input.now.tree.now }
    ensures { verdict_of result
        ≡ verdict_where (walk_of input.now) g (option_copied wanted.entry) }
{
    match wanted {
        None => Verdict::Keep,
        Some(context) => decide(
            input.tree.label(g),
            context,
            input.options.force,
            &input.rules.types,
        ),
    }
}

/// The label after a walk of a group for which this context is wanted.
pub fn group_label<'a>(input: &WalkInput<'a>, g: u32, wanted: Option<&'a Context>) -> LabelAfter<'a>
    requires { g < groups_in input.now.tree.now }
    ensures { label_seen result ≡ label_where (walk_of input.now) g (option_copied wanted.entry) }
{
    let label = input.tree.label(g);
    if input.options.dry {
        return LabelAfter::Kept(label);
    }
    label_by(&group_verdict(input, g, wanted), label)
}

/// The context to which the label of a group changes for which this context is wanted, if it
/// changes.
pub fn group_change<'a>(
    input: &WalkInput<'a>,
    g: u32,
    wanted: Option<&'a Context>,
) -> Option<ContextRef<'a>>
    requires { g < groups_in input.now.tree.now }
    ensures { option_map context_lent result
        ≡ context_change (walk_of input.now) g (option_copied wanted.entry) }
{
    let options = input.options;
    if options.dry {
        return None;
    }
    given_in(&group_verdict(input, g, wanted))
}

/// Whether an entry is the one that was found.
pub fn is_found_at(found: Option<u32>, e: u32) -> bool
    ensures { result ≡ is_found_at found e }
{
    match found {
        None => false,
        Some(k) => k == e,
    }
}

impl<'a> Known<'a> {
    ghost use Rattle.file_paths.specs.PathRef.{path_of};
    ghost use Rattle.report_text.specs.Message.{message_of};
    ghost use Rattle.relabel_core.specs.Changes.{change_at, change_with};
    ghost use Rattle.relabel_core.specs.KnownEntry.{index_known, walk_known};
    ghost use Rattle.relabel_core.specs.Walk.{
      conflict_with,
      walk_count,
      decided_line,
      has_conflict,
      is_changed_name,
      is_skipped,
      is_skipped_first,
      label_after,
      label_with,
      line,
      line_where,
      path_at,
      undecided_line,
      verdict_with,
      wanted,
      winner_line,
    };

    /// What is known of an entry of a walk.
    pub fn new(input: &WalkInput<'a>, e: u32, found: EntryFound) -> Known<'a>
        requires fit { IsFit input.now }
        requires known { IsEntryKnown (walk_of input.now) e found.skip found.decided found.winner
            found.winning }
        ensures walk { walk_known result ≡ walk_of input.now }
        ensures index { index_known result ≡ e }
    {
        Known {
            input: *input,
            index: e,
            skip: found.skip,
            decided: found.decided,
            winner: found.winner,
            winning: found.winning,
        }
    }

    // Whether it is at or below a directory that is skipped.
    fn is_skipped(&self) -> bool
        ensures { result ≡ is_skipped (walk_known self.now) self.now.index }
    {
        does_skip(self.skip)
    }

    /// Whether it is a directory that is skipped, and below no other such one.
    pub fn is_skipped_first(&self) -> bool
        ensures { result ≡ is_skipped_first (walk_known self.now) (index_known self.now) }
    {
        is_first(self.skip)
    }

    // The winner of its group.
    fn winner(&self) -> Option<u32>
        ensures value { result ≡ self.now.winner }
        ensures within { IfSome result (λ k. k < walk_count (walk_known self.now)) }
    {
        self.winner
    }

    fn path(&self, e: u32) -> PathRef<'a>
        requires { e < walk_count (walk_known self.now) }
        ensures { path_of result ≡ path_at (walk_known self.now) e }
    {
        self.input.tree.entry(e).path
    }

    fn group(&self) -> u32
        ensures value { result ≡ group_of self.now.input.tree.now self.now.index }
        ensures within { result < groups_in self.now.input.tree.now }
    {
        self.input.tree.group(self.index)
    }

    // The label of its group before the walk.
    fn old_label(&self) -> &'a Label
        ensures { result.now ≡ label_in self.now.input.tree.now
            (group_of self.now.input.tree.now self.now.index) }
    {
        self.input.tree.label(self.group())
    }

    /// The context that is decided for it, if one is.
    #[tactic(auto, unfolding(crate::specs::Walk::wanted))]
    pub fn wanted(&self) -> Option<&'a Context>
        ensures { option_copied result ≡ wanted (walk_known self.now) (index_known self.now) }
    {
        given_at(self.input.rules, self.decided)
    }

    // The context that is decided for the winner of its group.
    fn wanted_by_winner(&self) -> Option<&'a Context>
        ensures { option_copied result
            ≡ option_and_then (wanted (walk_known self.now)) self.now.winner }
    {
        given_at(self.input.rules, self.winning)
    }

    // The verdict on the label of its group.
    fn verdict(&self) -> Verdict<'a>
        ensures { verdict_of result ≡ verdict_with (walk_known self.now)
            (group_of self.now.input.tree.now self.now.index) self.now.winner }
    {
        group_verdict(&self.input, self.group(), self.wanted_by_winner())
    }

    // Its label after the walk, by the winner of its group.
    fn own_label(&self) -> LabelAfter<'a>
        ensures { label_seen result
            ≡ label_with (walk_known self.now) self.now.index self.now.winner }
    {
        if is_found_at(self.winner, self.index) {
            return group_label(&self.input, self.group(), self.wanted_by_winner());
        }
        LabelAfter::Kept(self.old_label())
    }

    /// Its label after the walk: that of its group, which changes at the group's winner.
    #[tactic(auto, unfolding(crate::specs::Walk::label_after))]
    pub fn label(&self) -> LabelAfter<'a>
        ensures { label_seen result ≡ label_after (walk_known self.now) (index_known self.now) }
    {
        self.own_label()
    }

    // The context that its label changes to, by the winner of its group.
    fn own_change(&self) -> Option<ContextRef<'a>>
        ensures { option_map context_lent result
            ≡ change_with (walk_known self.now) self.now.index self.now.winner }
    {
        if is_found_at(self.winner, self.index) {
            return group_change(&self.input, self.group(), self.wanted_by_winner());
        }
        None
    }

    /// The context that its label changes to, if it changes.
    #[tactic(auto, unfolding(crate::specs::Changes::change_at))]
    pub fn change(&self) -> Option<ContextRef<'a>>
        ensures { option_map context_lent result
            ≡ change_at (walk_known self.now) (index_known self.now) }
    {
        self.own_change()
    }

    /// Whether it is a name of a group whose label changes.
    pub fn is_changed(&self) -> bool
        ensures { result ≡ is_changed_name (walk_known self.now) (index_known self.now) }
    {
        group_change(&self.input, self.group(), self.wanted_by_winner()).is_some()
    }

    // The line of a group's winner.
    fn winner_line(&self) -> Option<Message<'a>>
        ensures { option_map message_of result
            ≡ winner_line (walk_known self.now) self.now.index self.now.winner }
    {
        if !self.input.options.verbose {
            return None;
        }
        verdict_line(
            &self.path(self.index),
            self.old_label(),
            self.input.options.dry,
            &self.verdict(),
        )
    }

    // Its conflict with the winner of its group.
    fn conflict(&self) -> Option<Message<'a>>
        ensures { option_map message_of result
            ≡ conflict_with (walk_known self.now) self.now.index self.now.winner }
    {
        match self.winner() {
            None => None,
            Some(k) => conflict_line(
                &self.path(k),
                &self.path(self.index),
                self.wanted(),
                self.wanted_by_winner(),
            ),
        }
    }

    // Its line where no specification decides it: it was looked at, or skipped.
    fn undecided_line(&self) -> Option<Message<'a>>
        ensures { option_map message_of result
            ≡ undecided_line (walk_known self.now) self.now.index }
    {
        if !self.input.options.verbose {
            return None;
        }
        if is_walked(&self.input, self.index, self.is_skipped()) {
            return Some(Message::NoDefault {
                path: self.path(self.index),
            });
        }
        if self.is_skipped_first() {
            return Some(Message::Skipped {
                path: self.path(self.index),
            });
        }
        None
    }

    // Its line where a specification decides it.
    fn decided_line(&self) -> Option<Message<'a>>
        ensures { option_map message_of result
            ≡ decided_line (walk_known self.now) self.now.index self.now.winner }
    {
        if is_found_at(self.winner, self.index) {
            return self.winner_line();
        }
        self.conflict()
    }

    // Its line, by what decides it and the winner of its group.
    fn own_line(&self) -> Option<Message<'a>>
        ensures { option_map message_of result ≡ line_where
            (walk_known self.now) self.now.index self.now.winner self.now.decided }
    {
        match self.decided {
            None => self.undecided_line(),
            Some(_) => self.decided_line(),
        }
    }

    /// What is told of it, if anything is.
    #[tactic(auto, unfolding(crate::specs::Walk::line))]
    pub fn message(&self) -> Option<Message<'a>>
        ensures { option_map message_of result
            ≡ line (walk_known self.now) (index_known self.now) }
    {
        self.own_line()
    }

    /// Whether it is decided to another context than the winner of its group.
    pub fn has_conflict(&self) -> bool
        ensures { result ≡ has_conflict (walk_known self.now) (index_known self.now) }
    {
        self.conflict().is_some()
    }
}
