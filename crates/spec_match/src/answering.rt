ghost use Rattle.std.specs.Prelude.{◌≡◌, ◌<◌, ℕ, Bool, List, length, map};
ghost use Rattle.pattern_match.specs.States.{AreStatesOf, HasRoomFor, StandsFor};
ghost use Rattle.spec_match.specs.Alive.{alive_at};
ghost use Rattle.spec_match.specs.Listed.{IsListed};
ghost use Rattle.spec_match.specs.LastMatch.{fits};
ghost use Rattle.spec_match.specs.ListsSeen.{list_seen};
ghost use Rattle.spec_match.specs.Remembering.{IsAnswer, asked_number};
ghost use Rattle.spec_match.specs.StatesFor.{AreStatesFor, patterns_of, spec_in};
ghost use Rattle.spec_match.specs.Stepping.{AreOwnLists};

use crate::compiled_spec::CompiledSpec;
use crate::lists::ListRef;
use crate::trials::Trials;
use label_base::Asked;
use pattern_match::States;

/// What is looked up: the last specification that fits a text, and applies to what is asked.
#[derive(Clone, Copy)]
pub struct Query<'a> {
    pub text: &'a [u8],
    pub asked: Asked,
}

/// A number below nine for what is asked.
pub fn asked_number(asked: Asked) -> usize
    ensures value { result ≡ asked_number asked }
    ensures below { result < 9 }
{
    match asked {
        Asked::Any => 0,
        Asked::Of(kind) => kind.number() + 1,
    }
}

// Whether the specification at a place of a list applies, and its language holds the text that was
// read.
fn does_fit(
    list: &ListRef<'_>,
    rule: &CompiledSpec,
    states: &mut States,
    k: usize,
    asked: Asked,
) -> bool
    requires list { list.now.number < length list.now.lists.now.lists }
    requires within { k < length (list_seen list.now) }
    requires room { HasRoomFor rule.now.spec.pattern states.old.room }
    requires kept { AreStatesOf rule.now.spec.pattern (alive_at (list_seen list.now) k).states }
    ensures room { states.new.room ≡ states.old.room }
    ensures value { (text : List ℕ)
        → StandsFor rule.now.spec.pattern (alive_at (list_seen list.now) k).states text
        → result ≡ fits asked text rule.now.spec }
{
    list.lists.load(list.number, k, states);
    rule.fits_read(states, asked)
}

/// The first specification of a list that fits. The list goes from the last one back, so it is the
/// last match.
pub fn first_fit(
    list: &ListRef<'_>,
    rules: &[CompiledSpec],
    states: &mut States,
    asked: Asked,
) -> Option<usize>
    requires states { AreStatesFor (patterns_of rules.now) states.old }
    requires own { AreOwnLists (patterns_of rules.now) list.now.lists.now.lists }
    requires list { list.now.number < length list.now.lists.now.lists }
    ensures states { AreStatesFor (patterns_of rules.now) states.new }
    ensures answer { (cuts : Bool) (text : List ℕ)
        → IsListed cuts (patterns_of rules.now) (map spec_in rules.now) text (list_seen list.now)
        → IsAnswer asked text (map spec_in rules.now) result }
{
    let lists = list.lists;
    'alive: for k in 0..lists.list_len(list.number) {
        let i = lists.index(list.number, k);
        if does_fit(list, &rules[i], states, k, asked) {
            return Some(i);
        }
    }
    None
}

/// Whether a specification fits. It counts as tried where its states are looked at.
pub fn is_fit(rule: &CompiledSpec, trials: &mut Trials, query: &Query<'_>) -> bool
    requires { HasRoomFor rule.now.spec.pattern trials.old.states.room }
    ensures room { trials.new.states.room ≡ trials.old.states.room }
    ensures value { result ≡ fits query.now.asked query.now.text.now rule.now.spec }
{
    if !rule.may_hold(query.text) {
        return false;
    }
    trials.tried = trials.tried.saturating_add(1);
    rule.does_fit(&mut trials.states, query.text, query.asked)
}
