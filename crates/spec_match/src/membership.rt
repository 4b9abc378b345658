ghost use Rattle.std.specs.Prelude.{◌≡◌, ◌↔◌, ◌<◌, ◌++◌, ◌∷◌, ℕ, List, [], true, IfOk, IsTrue};
ghost use Rattle.pattern_syntax.specs.Language.{Opens, holds};
ghost use Rattle.pattern_syntax.specs.Tree.{Nothing};
ghost use Rattle.pattern_syntax.specs.Starts.{behind_start};
ghost use Rattle.pattern_match.specs.Onwards.{TakesAll};
ghost use Rattle.pattern_match.specs.Settled.{StatesLeadOnward, StatesStay};
ghost use Rattle.pattern_match.specs.States.{AreStatesOf, HasRoomFor, StandsFor, words_for};
ghost use Rattle.spec_match.specs.Memberships.{IsTestOf};

use label_base::OutOfMemory;
use pattern_match::{
    Matcher, PatternTables, States, accepts_text, is_one_text, is_text_alive, stays_text, step_text,
};
use pattern_syntax::Pattern;
use std::alloc::Global;

/// How it is tested whether a pattern's language holds a text.
#[derive(Drop)]
pub enum Membership {
    /// The language is one text, the pattern's literal start, to which a text is compared.
    ByStart,
    /// By a matcher with these tables. They stand apart, since most patterns of a long list have
    /// none.
    ByMatcher(Box<PatternTables>),
}

// A pattern that is one text has no marks.
fn no_words(pattern: &Pattern) -> usize
    requires { behind_start pattern.now.tree ≡ Nothing }
    ensures value { result ≡ words_for (behind_start pattern.now.tree) }
    ensures room { HasRoomFor pattern.now.tree result }
{
    let _ = pattern;
    0
}

impl Membership {
    /// The test of a pattern.
    pub fn new(alloc: Global, pattern: &Pattern) -> Result<Membership, OutOfMemory>
        ensures { IfOk result (λ test. IsTestOf pattern.now.tree test) }
    {
        if is_one_text(pattern) {
            return Ok(Membership::ByStart);
        }
        let tables = PatternTables::new(alloc, pattern)?;
        Ok(Membership::ByMatcher(Box::new(alloc, tables)?))
    }

    /// For how many words of marks states must have room.
    pub fn words(&self, pattern: &Pattern) -> usize
        requires { IsTestOf pattern.now.tree self.now }
        ensures value { result ≡ words_for (behind_start pattern.now.tree) }
        ensures room { HasRoomFor pattern.now.tree result }
    {
        match self {
            Membership::ByStart => no_words(pattern),
            Membership::ByMatcher(tables) => tables.words(),
        }
    }

    /// Whether the pattern's language holds the text.
    pub fn passes(&self, pattern: &Pattern, states: &mut States, text: &[u8]) -> bool
        requires test { IsTestOf pattern.now.tree self.now }
        requires room { HasRoomFor pattern.now.tree states.old.room }
        ensures room { states.new.room ≡ states.old.room }
        ensures value { result ≡ holds pattern.now.tree text.now }
    {
        match self {
            Membership::ByStart => text == pattern.start(),
            Membership::ByMatcher(tables) => Matcher::new(pattern, tables).matches(states, text),
        }
    }

    /// Goes back to the states before the first byte of a text.
    pub fn restart(&self, pattern: &Pattern, states: &mut States)
        requires test { IsTestOf pattern.now.tree self.now }
        requires room { HasRoomFor pattern.now.tree states.old.room }
        ensures own { AreStatesOf pattern.now.tree states.new.known }
        ensures stands { StandsFor pattern.now.tree states.new.known [] }
        ensures room { states.new.room ≡ states.old.room }
    {
        match self {
            Membership::ByStart => states.restart_text(),
            Membership::ByMatcher(tables) => Matcher::new(pattern, tables).restart(states),
        }
    }

    /// Goes on by a byte: what the states stand for gets it at its end.
    pub fn step(&self, pattern: &Pattern, states: &mut States, byte: u8)
        requires test { IsTestOf pattern.now.tree self.now }
        requires own { AreStatesOf pattern.now.tree states.old.known }
        ensures own { AreStatesOf pattern.now.tree states.new.known }
        ensures stands { (text : List ℕ) → StandsFor pattern.now.tree states.old.known text
            → StandsFor pattern.now.tree states.new.known (text ++ byte ∷ []) }
        ensures room { states.new.room ≡ states.old.room }
    {
        match self {
            Membership::ByStart => step_text(pattern, states, byte),
            Membership::ByMatcher(tables) => Matcher::new(pattern, tables).step(states, byte),
        }
    }

    /// Whether the text that was read is in the language.
    pub fn accepts(&self, pattern: &Pattern, states: &States) -> bool
        requires test { IsTestOf pattern.now.tree self.now }
        requires own { AreStatesOf pattern.now.tree states.now.known }
        ensures { (text : List ℕ) → StandsFor pattern.now.tree states.now.known text
            → result ≡ holds pattern.now.tree text }
    {
        match self {
            Membership::ByStart => accepts_text(pattern, states),
            Membership::ByMatcher(tables) => Matcher::new(pattern, tables).accepts(states),
        }
    }

    /// Whether the language holds the text that was read and each text that begins with it. It may
    /// say false where it does. The states are worked in, and left as they were.
    pub fn takes_all(&self, pattern: &Pattern, states: &mut States) -> bool
        requires test { IsTestOf pattern.now.tree self.now }
        requires own { AreStatesOf pattern.now.tree states.old.known }
        ensures exact { IsTrue result ↔ StatesLeadOnward pattern.now.tree states.old.known }
        ensures texts { result ≡ true → (text : List ℕ)
            → StandsFor pattern.now.tree states.old.known text → TakesAll pattern.now.tree text }
        ensures same { states.new ≡ states.old }
    {
        match self {
            Membership::ByStart => false,
            Membership::ByMatcher(tables) => Matcher::new(pattern, tables).takes_all(states),
        }
    }

    /// Whether the states stand as well for the text with one more byte, whichever it is, other
    /// than 0. It may say false where they do. The states are worked in, and left as they were.
    pub fn stays(&self, pattern: &Pattern, states: &mut States) -> bool
        requires test { IsTestOf pattern.now.tree self.now }
        requires own { AreStatesOf pattern.now.tree states.old.known }
        ensures exact { IsTrue result ↔ StatesStay pattern.now.tree states.old.known }
        ensures stands { result ≡ true → (byte : ℕ) → 0 < byte → byte < 256
            → (text : List ℕ) → StandsFor pattern.now.tree states.old.known text
            → StandsFor pattern.now.tree states.old.known (text ++ byte ∷ []) }
        ensures same { states.new ≡ states.old }
    {
        match self {
            Membership::ByStart => stays_text(pattern, states),
            Membership::ByMatcher(tables) => Matcher::new(pattern, tables).stays(states),
        }
    }

    /// Whether some text of the language begins with the text that was read.
    pub fn alive(&self, pattern: &Pattern, states: &States) -> bool
        requires test { IsTestOf pattern.now.tree self.now }
        requires own { AreStatesOf pattern.now.tree states.now.known }
        ensures { (text : List ℕ) → StandsFor pattern.now.tree states.now.known text
            → IsTrue result ↔ Opens pattern.now.tree text }
    {
        match self {
            Membership::ByStart => is_text_alive(pattern, states),
            Membership::ByMatcher(tables) => Matcher::new(pattern, tables).alive(states),
        }
    }
}
