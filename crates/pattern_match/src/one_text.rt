ghost use Rattle.std.specs.Prelude.{◌≡◌, ◌<◌, ◌++◌, ◌∷◌, ◌↔◌, true, ℕ, List, [], IsTrue, is_some};
ghost use Rattle.label_base.specs.Text.{same_bytes};
ghost use Rattle.pattern_syntax.specs.Tree.{Nothing};
ghost use Rattle.pattern_syntax.specs.Language.{Opens, holds};
ghost use Rattle.pattern_syntax.specs.Literal.{literal_start_of, single_bytes};
ghost use Rattle.pattern_syntax.specs.Starts.{behind_start};
ghost use Rattle.pattern_match.specs.Settled.{StatesStay};
ghost use Rattle.pattern_match.specs.States.{AreStatesOf, StandsFor};

use crate::states::States;
use pattern_syntax::Pattern;

/// Whether the pattern's language is one text, its literal start, so that a comparison does for a
/// [`Matcher`](crate::Matcher).
pub fn is_one_text(pattern: &Pattern) -> bool
    ensures value { result ≡ is_some (single_bytes pattern.now.tree) }
    ensures rest { result ≡ true → behind_start pattern.now.tree ≡ Nothing }
    ensures text { result ≡ true → (text : List ℕ)
        → holds pattern.now.tree text ≡ same_bytes text (literal_start_of pattern.now.tree) }
{
    pattern.is_start_alone()
}

/// Goes on by a byte, where the pattern is one text: what the states stand for gets it at its end.
pub fn step_text(pattern: &Pattern, states: &mut States, byte: u8)
    requires one { behind_start pattern.now.tree ≡ Nothing }
    requires made { AreStatesOf pattern.now.tree states.old.known }
    ensures made { AreStatesOf pattern.now.tree states.new.known }
    ensures stands { (text : List ℕ) → StandsFor pattern.now.tree states.old.known text
        → StandsFor pattern.now.tree states.new.known (text ++ byte ∷ []) }
    ensures room { states.new.room ≡ states.old.room }
{
    let seen = states.seen;
    let start = pattern.start();
    if seen > start.len() {
        return;
    }
    if seen < start.len() {
        if start[seen] == byte {
            states.seen = seen + 1;
            return;
        }
        states.seen = start.len() + 1;
        return;
    }
    states.seen = start.len() + 1;
}

/// Whether the text that was read is in the language, where the pattern is one text.
pub fn accepts_text(pattern: &Pattern, states: &States) -> bool
    requires one { behind_start pattern.now.tree ≡ Nothing }
    ensures { (text : List ℕ) → StandsFor pattern.now.tree states.now.known text
        → result ≡ holds pattern.now.tree text }
{
    let start = pattern.start();
    if states.seen != start.len() {
        return false;
    }
    true
}

/// Whether the pattern, which is one text, begins with the text that was read.
pub fn is_text_alive(pattern: &Pattern, states: &States) -> bool
    requires one { behind_start pattern.now.tree ≡ Nothing }
    ensures { (text : List ℕ) → StandsFor pattern.now.tree states.now.known text
        → IsTrue result ↔ Opens pattern.now.tree text }
{
    let start = pattern.start();
    if states.seen > start.len() {
        return false;
    }
    true
}

/// Whether another byte was met than that of the pattern, which is one text. Then nothing is left,
/// whichever byte follows.
pub fn stays_text(pattern: &Pattern, states: &States) -> bool
    requires one { behind_start pattern.now.tree ≡ Nothing }
    ensures exact { IsTrue result ↔ StatesStay pattern.now.tree states.now.known }
    ensures stands { result ≡ true → (byte : ℕ) → 0 < byte → byte < 256
        → (text : List ℕ) → StandsFor pattern.now.tree states.now.known text
        → StandsFor pattern.now.tree states.now.known (text ++ byte ∷ []) }
{
    let start = pattern.start();
    if states.seen > start.len() {
        return true;
    }
    false
}
