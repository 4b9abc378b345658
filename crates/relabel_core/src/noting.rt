ghost use Rattle.std.specs.Prelude.{◌≡◌, ◌+◌, ◌<◌, ◌^◌, IfOk, IfSome, length};
ghost use Rattle.tree_model.specs.Groups.{group_of, groups_in};
ghost use Rattle.relabel_core.specs.Numbers.{IsNumberPut, entered_if, found_in, found_number};
ghost use Rattle.relabel_core.specs.Numbers.{no_numbers, put_at};
ghost use Rattle.relabel_core.specs.Walk.{walk_count, deciding, is_wanted};
ghost use Rattle.relabel_core.specs.Walked.{AreNoted, HasWalkRoom, IsFit, walk_of};

use crate::input::WalkInput;
use crate::numbers::{enter_if, found_in, no_numbers, put_number};
use label_base::OutOfMemory;
use label_rules::does_give;
use std::alloc::Global;

/// What is noted of the entries of a walk, each at its position: the specification that decides it;
/// and of the groups of names of one inode their winners. It takes four bytes for each entry and
/// each group.
pub struct Noted {
    // For each entry the index of its specification.
    pub(crate) decided: Vec<u32>,
    // For each group the index of its winner.
    pub(crate) winners: Vec<u32>,
}

// By hand: one call for an owner, where a derived drop is a step for each field.
impl Drop for Noted {
    fn drop(self) {
        let Noted {
            decided: _,
            winners: _,
        } = self;
    }
}

impl Noted {
    /// Nothing is noted yet, and there is room for each entry and each group.
    #[tactic(auto, using(crate::proofs::NotedLemmas::none_noted, crate::proofs::NotedLemmas::room_noted))]
    pub fn none(alloc: Global, input: &WalkInput<'_>) -> Result<Noted, OutOfMemory>
        ensures room { IfOk result (λ noted.
            HasWalkRoom (walk_of input.now) noted.decided.items noted.winners.items) }
        ensures none { IfOk result (λ noted.
            AreNoted (walk_of input.now) 0 noted.decided.items noted.winners.items) }
        ensures decided { IfOk result (λ noted.
            noted.decided.items ≡ no_numbers (walk_count (walk_of input.now))) }
        ensures winners { IfOk result (λ noted.
            noted.winners.items ≡ no_numbers (groups_in input.now.tree.now)) }
    {
        let decided = no_numbers(alloc, input.tree.len())?;
        let winners = no_numbers(alloc, input.tree.groups())?;
        Ok(Noted { decided, winners })
    }

    /// What decides an entry, as far as it is noted.
    pub fn decided_at(&self, e: u32) -> Option<u32>
        ensures { result ≡ found_in self.now.decided.items e }
    {
        found_in(self.decided.as_slice(), e)
    }

    /// The winner of a group, as far as it is noted.
    pub fn winner_at(&self, g: u32) -> Option<u32>
        ensures { result ≡ found_in self.now.winners.items g }
    {
        found_in(self.winners.as_slice(), g)
    }

    /// Notes at the position of an entry what decides it, in whatever order entries come.
    #[tactic(auto, using(crate::proofs::NotedLemmas::put_few))]
    pub fn put_decided(&mut self, e: u32, found: Option<u32>)
        requires few { IfSome found (λ i. i + 1 < 2 ^ 32) }
        ensures decided { IsNumberPut self.old.decided.items self.new.decided.items e found }
        ensures winners { self.new.winners.items ≡ self.old.winners.items }
    {
        put_number(&mut self.decided, e, found);
    }

    /// Notes at the position of a group its winner.
    #[tactic(auto, using(crate::proofs::NotedLemmas::put_few))]
    pub fn put_winner(&mut self, g: u32, found: Option<u32>)
        requires few { IfSome found (λ k. k + 1 < 2 ^ 32) }
        ensures winners { IsNumberPut self.old.winners.items self.new.winners.items g found }
        ensures decided { self.new.decided.items ≡ self.old.decided.items }
    {
        put_number(&mut self.winners, g, found);
    }
}

/// Notes what decides one entry more, where those before it are noted. It enters as its group's
/// winner where it is the first for which a context is decided.
pub fn note_entry(input: &WalkInput<'_>, e: u32, found: Option<u32>, noted: &mut Noted)
    requires entry { e < walk_count (walk_of input.now) }
    requires fit { IsFit input.now }
    requires found { found ≡ deciding (walk_of input.now) e }
    requires within { IfSome found (λ i. i < length input.now.rules.now.rules) }
    requires noted { AreNoted (walk_of input.now) e
        noted.old.decided.items noted.old.winners.items }
    ensures noted { AreNoted (walk_of input.now) (e + 1)
        noted.new.decided.items noted.new.winners.items }
    ensures decided { noted.new.decided.items
        ≡ put_at noted.old.decided.items e (found_number found) }
    ensures winners { noted.new.winners.items ≡ entered_if (is_wanted (walk_of input.now) e)
        noted.old.winners.items (group_of input.now.tree.now e) e }
{
    let _ = input.rules.rules.len();
    let group = input.tree.group(e);
    enter_if(does_give(input.rules, found), &mut noted.winners, group, e);
    put_number(&mut noted.decided, e, found);
}
