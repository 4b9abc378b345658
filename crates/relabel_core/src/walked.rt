ghost use Rattle.std.specs.Prelude.{◌≡◌, ◌<◌, IfSome, option_and_then, option_map};
ghost use Rattle.std.specs.Option.{option_copied};
ghost use Rattle.relabel_core.specs.Swept.{AreSwept};
ghost use Rattle.relabel_core.specs.Walked.{AreWalkAnswers, IsFit, walk_of};

use crate::deciding::is_walked;
use crate::input::WalkInput;
use crate::known::{EntryFound, Known, group_label};
use crate::noting::Noted;
use crate::swept::{Swept, is_skipped};
use context_syntax::{Context, ContextRef};
use file_paths::PathRef;
use label_rules::{LabelAfter, does_give, given_at};
use report_text::Message;

/// What a walk over a tree answers. It lends the tree and the rules, and keeps what was found: for
/// each entry the specification that decides it and whether it is skipped, for each group of names
/// of one inode its winner, and the digests that are made anew. Labels and lines are made from
/// these, entry by entry.
pub struct Walked<'a> {
    pub(crate) input: WalkInput<'a>,
    pub(crate) noted: Noted,
    pub(crate) swept: Swept,
    ghost fit: { IsFit input },
    ghost were_swept: { AreSwept (walk_of input) swept.skips.items swept.made },
    ghost found: { AreWalkAnswers (walk_of input) noted.decided.items noted.winners.items },
}

// By hand: one call for an owner, where a derived drop is a step for each field.
impl Drop for Walked<'_> {
    fn drop(self) {
        let Walked {
            input: _,
            noted: _,
            swept: _,
        } = self;
    }
}

impl<'a> Walked<'a> {
    ghost use Rattle.file_paths.specs.PathRef.{path_of};
    ghost use Rattle.tree_model.specs.Groups.{group_of, groups_in};
    ghost use Rattle.report_text.specs.Message.{message_of};
    ghost use Rattle.context_syntax.specs.ContextRef.{context_lent};
    ghost use Rattle.relabel_core.specs.Answer.{walk_in};
    ghost use Rattle.relabel_core.specs.Changes.{change_at};
    ghost use Rattle.relabel_core.specs.KnownEntry.{index_known, walk_known};
    ghost use Rattle.label_rules.specs.LabelAfter.{label_seen};
    ghost use Rattle.relabel_core.specs.Walk.{
      walk_count,
      count_wanted,
      deciding,
      group_winner,
      has_conflict,
      is_changed_name,
      is_skipped_first,
      is_wanted,
      label_after,
      line,
      new_label,
      path_at,
      walked,
      wanted,
      winner,
    };

    /// The answer of a walk of which this is found, each at its position: which entries are skipped
    /// and which digests are made anew, what decides each entry, and the winner of each group.
    pub fn of_noted(input: &WalkInput<'a>, swept: Swept, noted: Noted) -> Walked<'a>
        requires fit { IsFit input.now }
        requires swept { AreSwept (walk_of input.now) swept.skips.items swept.made }
        requires found { AreWalkAnswers (walk_of input.now) noted.decided.items
            noted.winners.items }
        ensures { walk_in result ≡ walk_of input.now }
    {
        Walked {
            input: *input,
            noted,
            swept,
        }
    }

    /// How many entries were walked over.
    pub fn len(&self) -> u32
        ensures { result ≡ walk_count (walk_in self.now) }
    {
        self.input.tree.len()
    }

    /// The path of an entry.
    pub fn path(&self, e: u32) -> PathRef<'a>
        requires { e < walk_count (walk_in self.now) }
        ensures { path_of result ≡ path_at (walk_in self.now) e }
    {
        self.input.tree.entry(e).path
    }

    fn group(&self, e: u32) -> u32
        requires { e < walk_count (walk_in self.now) }
        ensures value { result ≡ group_of self.now.input.tree.now e }
        ensures within { result < groups_in self.now.input.tree.now }
    {
        self.input.tree.group(e)
    }

    /// Whether an entry was looked at: the run is asked for it, and it isn't skipped.
    pub fn is_walked(&self, e: u32) -> bool
        requires { e < walk_count (walk_in self.now) }
        ensures { result ≡ walked (walk_in self.now) e }
    {
        is_walked(&self.input, e, is_skipped(&self.input, &self.swept, e))
    }

    /// Whether an entry is a directory that is skipped, and below no other such one.
    pub fn is_skipped_first(&self, e: u32) -> bool
        requires { e < walk_count (walk_in self.now) }
        ensures { result ≡ is_skipped_first (walk_in self.now) e }
    {
        self.known(e).is_skipped_first()
    }

    /// The index of the specification that decides an entry, if one does.
    pub fn deciding(&self, e: u32) -> Option<u32>
        requires { e < walk_count (walk_in self.now) }
        ensures { result ≡ deciding (walk_in self.now) e }
    {
        self.noted.decided_at(e)
    }

    /// How many groups there are.
    pub fn groups(&self) -> u32
        ensures { result ≡ groups_in (walk_in self.now).entries }
    {
        self.input.tree.groups()
    }

    // The winner of a group.
    fn winner_in(&self, g: u32) -> Option<u32>
        requires { g < groups_in (walk_in self.now).entries }
        ensures value { result ≡ winner (walk_in self.now) g }
        ensures within { IfSome result (λ k. k < walk_count (walk_in self.now)) }
    {
        self.noted.winner_at(g)
    }

    /// The winner of an entry's group, if it has one: the first of its entries for which a context
    /// is decided.
    pub fn winner(&self, e: u32) -> Option<u32>
        requires { e < walk_count (walk_in self.now) }
        ensures value { result ≡ group_winner (walk_in self.now) e }
        ensures within { IfSome result (λ k. k < walk_count (walk_in self.now)) }
    {
        self.winner_in(self.group(e))
    }

    // What decides the winner of a group.
    fn winning(&self, found: Option<u32>) -> Option<u32>
        requires { IfSome found (λ k. k < walk_count (walk_in self.now)) }
        ensures { result ≡ option_and_then (deciding (walk_in self.now)) found }
    {
        match found {
            Some(k) => self.deciding(k),
            None => None,
        }
    }

    /// What is known of an entry.
    pub fn known(&self, e: u32) -> Known<'a>
        requires { e < walk_count (walk_in self.now) }
        ensures walk { walk_known result ≡ walk_in self.now }
        ensures index { index_known result ≡ e }
    {
        let winner = self.winner(e);
        let found = EntryFound {
            skip: self.swept.skip(e),
            decided: self.deciding(e),
            winner,
            winning: self.winning(winner),
        };
        Known::new(&self.input, e, found)
    }

    /// The context that is decided for an entry, if one is.
    #[tactic(auto, unfolding(crate::specs::Walk::wanted))]
    pub fn wanted(&self, e: u32) -> Option<&'a Context>
        requires { e < walk_count (walk_in self.now) }
        ensures { option_copied result ≡ wanted (walk_in self.now) e }
    {
        given_at(self.input.rules, self.deciding(e))
    }

    /// Whether a context is decided for an entry.
    #[tactic(auto, unfolding(crate::specs::Walk::wanted))]
    pub fn is_wanted(&self, e: u32) -> bool
        requires { e < walk_count (walk_in self.now) }
        ensures { result ≡ is_wanted (walk_in self.now) e }
    {
        does_give(self.input.rules, self.deciding(e))
    }

    /// How many entries are decided to a context.
    pub fn count_wanted(&self) -> u32
        ensures { result ≡ count_wanted (walk_in self.now) }
    {
        let mut found = 0;
        'entries: for e in 0..self.len() {
            found += u32::from(self.is_wanted(e));
        }
        found
    }

    // The context that is decided for the winner of a group.
    fn wanted_by(&self, found: Option<u32>) -> Option<&'a Context>
        requires { IfSome found (λ k. k < walk_count (walk_in self.now)) }
        ensures { option_copied result ≡ option_and_then (wanted (walk_in self.now)) found }
    {
        match found {
            Some(k) => self.wanted(k),
            None => None,
        }
    }

    /// The label of a group after the walk.
    pub fn new_label(&self, g: u32) -> LabelAfter<'a>
        requires { g < groups_in (walk_in self.now).entries }
        ensures { label_seen result ≡ new_label (walk_in self.now) g }
    {
        group_label(&self.input, g, self.wanted_by(self.winner_in(g)))
    }

    /// The context that the label of an entry changes to, if it changes.
    pub fn change_at(&self, e: u32) -> Option<ContextRef<'a>>
        requires { e < walk_count (walk_in self.now) }
        ensures { option_map context_lent result ≡ change_at (walk_in self.now) e }
    {
        self.known(e).change()
    }

    /// Whether an entry is a name of a group whose label changes.
    pub fn is_changed(&self, e: u32) -> bool
        requires { e < walk_count (walk_in self.now) }
        ensures { result ≡ is_changed_name (walk_in self.now) e }
    {
        self.known(e).is_changed()
    }

    /// The label of an entry after the walk: that of its group, which changes at the group's
    /// winner.
    pub fn label_at(&self, e: u32) -> LabelAfter<'a>
        requires { e < walk_count (walk_in self.now) }
        ensures { label_seen result ≡ label_after (walk_in self.now) e }
    {
        self.known(e).label()
    }

    /// What is told of an entry, if anything is.
    pub fn message_at(&self, e: u32) -> Option<Message<'a>>
        requires { e < walk_count (walk_in self.now) }
        ensures { option_map message_of result ≡ line (walk_in self.now) e }
    {
        self.known(e).message()
    }

    /// Whether an entry is decided to another context than the winner of its group.
    pub fn has_conflict(&self, e: u32) -> bool
        requires { e < walk_count (walk_in self.now) }
        ensures { result ≡ has_conflict (walk_in self.now) e }
    {
        self.known(e).has_conflict()
    }
}
