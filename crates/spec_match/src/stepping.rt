ghost use Rattle.std.specs.Prelude.{◌≡◌, ◌∷◌, ◌<◌, ◌↔◌, Bool, [], true, IfSome, IsTrue, length};
ghost use Rattle.std.specs.Prelude.{map};
ghost use Rattle.std.specs.List.{All};
ghost use Rattle.pattern_match.specs.Settled.{StatesStay};
ghost use Rattle.pattern_match.specs.States.{AreStatesOf, HasRoomFor};
ghost use Rattle.spec_match.specs.Alive.{AreAlive, IsOwn, LeadsBy, alive, alive_at, alive_list};
ghost use Rattle.spec_match.specs.Alive.{wanted_byte};
ghost use Rattle.spec_match.specs.Listed.{IsListed, Stays};
ghost use Rattle.spec_match.specs.ListsSeen.{list_seen};
ghost use Rattle.spec_match.specs.StatesFor.{AreStatesFor, patterns_of, spec_in};
ghost use Rattle.spec_match.specs.Stepping.{AllStatesStay, AreOwnLists, GoesOn, IsEnd};
ghost use Rattle.spec_match.specs.Stepping.{IsStaying};

use crate::compiled_spec::CompiledSpec;
use crate::lists::{ListRef, Lists};
use pattern_match::States;

/// A step from a list that is complete, by a byte other than 0.
#[derive(Clone, Copy)]
pub struct ByteStep {
    pub from: usize,
    pub byte: u8,
    /// Whether the list to which it leads ends with the first specification that covers whatever
    /// follows.
    pub cuts: bool,
}

// Steps one specification of a list, and writes it to the next list if it stays alive. Answers
// whether that list ends with it, or `None` where there is no room.
fn step_one(
    lists: &mut Lists,
    rule: &CompiledSpec,
    states: &mut States,
    k: usize,
    step: ByteStep,
) -> Option<bool>
    requires list { step.from < length lists.old.lists }
    requires within { k < length (alive_list lists.old.lists step.from) }
    requires room { HasRoomFor rule.now.spec.pattern states.old.room }
    requires kept { AreStatesOf rule.now.spec.pattern
        (alive_at (alive_list lists.old.lists step.from) k).states }
    requires wants { (alive_at (alive_list lists.old.lists step.from) k).wants
        ≡ wanted_byte rule.now.spec.pattern
        (alive_at (alive_list lists.old.lists step.from) k).states }
    ensures room { states.new.room ≡ states.old.room }
    ensures lists { lists.new.lists ≡ lists.old.lists }
    ensures goes { IfSome result (λ _. GoesOn rule.now.spec.pattern (step.byte ∷ [])
        (alive_at (alive_list lists.old.lists step.from) k) lists.old.draft lists.new.draft) }
    ensures ends { IfSome result (λ ends. ends ≡ true
        → IsEnd step.cuts rule.now.spec (step.byte ∷ [])
        (alive_at (alive_list lists.old.lists step.from) k)) }
{
    if lists.wants_other(step.from, k, step.byte) {
        return Some(false);
    }
    let index = lists.index(step.from, k);
    lists.load(step.from, k, states);
    rule.step(states, step.byte);
    if !rule.alive(states) {
        return Some(false);
    }
    if !lists.push(index, states, rule.wants(states.seen())) {
        return None;
    }
    if !step.cuts {
        return Some(false);
    }
    Some(rule.covers(states))
}

/// Writes the list to which a step leads. False where there is no room for it.
pub fn step_all(
    lists: &mut Lists,
    rules: &[CompiledSpec],
    states: &mut States,
    step: ByteStep,
) -> bool
    requires states { AreStatesFor (patterns_of rules.now) states.old }
    requires own { AreOwnLists (patterns_of rules.now) lists.old.lists }
    requires draft { lists.old.draft ≡ [] }
    requires from { step.from < length lists.old.lists }
    requires some { 0 < step.byte }
    ensures states { AreStatesFor (patterns_of rules.now) states.new }
    ensures lists { lists.new.lists ≡ lists.old.lists }
    ensures own { result ≡ true → All (IsOwn (patterns_of rules.now)) lists.new.draft }
    ensures leads { result ≡ true
        → LeadsBy (IsListed step.cuts (patterns_of rules.now) (map spec_in rules.now))
        (step.byte ∷ []) (alive_list lists.old.lists step.from) lists.new.draft }
{
    'alive: for k in 0..lists.list_len(step.from) {
        let i = lists.index(step.from, k);
        let Some(ends) = step_one(lists, &rules[i], states, k, step) else {
            return false;
        };
        if ends {
            return true;
        }
    }
    true
}

// Whether whatever follows leaves the states of the specification at a place of a list as they are.
// It may leave what they stand for, and this be false, where other states leave the same.
fn member_stays(list: &ListRef<'_>, rule: &CompiledSpec, states: &mut States, k: usize) -> bool
    requires list { list.now.number < length list.now.lists.now.lists }
    requires within { k < length (list_seen list.now) }
    requires room { HasRoomFor rule.now.spec.pattern states.old.room }
    requires kept { AreStatesOf rule.now.spec.pattern (alive_at (list_seen list.now) k).states }
    ensures room { states.new.room ≡ states.old.room }
    ensures exact { IsTrue result
        ↔ StatesStay rule.now.spec.pattern (alive_at (list_seen list.now) k).states }
    ensures stays { result ≡ true
        → IsStaying rule.now.spec.pattern (alive_at (list_seen list.now) k) }
{
    list.lists.load(list.number, k, states);
    rule.stays(states)
}

/// Whether so it is with each specification of a list. Then the list is as well for each longer
/// text without a byte 0.
pub fn list_stays(list: &ListRef<'_>, rules: &[CompiledSpec], states: &mut States) -> bool
    requires states { AreStatesFor (patterns_of rules.now) states.old }
    requires own { AreOwnLists (patterns_of rules.now) list.now.lists.now.lists }
    requires list { list.now.number < length list.now.lists.now.lists }
    ensures states { AreStatesFor (patterns_of rules.now) states.new }
    ensures exact { IsTrue result ↔ AllStatesStay (patterns_of rules.now) (list_seen list.now) }
    ensures stays { result ≡ true → (cuts : Bool)
        → Stays (IsListed cuts (patterns_of rules.now) (map spec_in rules.now))
        (list_seen list.now) }
{
    let lists = list.lists;
    'alive: for k in 0..lists.list_len(list.number) {
        let i = lists.index(list.number, k);
        if !member_stays(list, &rules[i], states, k) {
            return false;
        }
    }
    true
}

/// Writes the list of all specifications, before the first byte of a text. False where there is no
/// room for it.
pub fn start_all(lists: &mut Lists, rules: &[CompiledSpec], states: &mut States) -> bool
    requires states { AreStatesFor (patterns_of rules.now) states.old }
    requires draft { lists.old.draft ≡ [] }
    ensures states { AreStatesFor (patterns_of rules.now) states.new }
    ensures lists { lists.new.lists ≡ lists.old.lists }
    ensures own { result ≡ true → All (IsOwn (patterns_of rules.now)) lists.new.draft }
    ensures alive { result ≡ true
        → AreAlive (patterns_of rules.now) [] (length (patterns_of rules.now)) lists.new.draft }
{
    let mut left = rules.len();
    'rules: while left > 0 {
        left -= 1;
        let rule = &rules[left];
        rule.restart(states);
        if !lists.push(left, states, rule.wants(states.seen())) {
            return false;
        }
    }
    true
}
