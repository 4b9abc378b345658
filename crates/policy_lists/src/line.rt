ghost use Rattle.std.specs.Prelude.{◌≡◌, ◌↔◌, ◌++◌, ◌∷◌, ℕ, List, [], true, None, IfOk, IsTrue};
ghost use Rattle.pattern_match.specs.Compiled.{AreTablesOf, are_tables};
ghost use Rattle.pattern_match.specs.Onwards.{TakesAll};
ghost use Rattle.pattern_match.specs.States.{AreStatesOf, HasRoomFor, StandsFor};
ghost use Rattle.pattern_syntax.specs.Language.{Opens, holds};
ghost use Rattle.label_base.specs.Kind.{applies, same_kind};

use label_base::{Asked, EntryKind, OutOfMemory};
use pattern_match::{Matcher, PatternTables, States};
use spec_reader::Spec;
use std::alloc::Global;

/// A line of a policy and the tables of its pattern.
#[derive(Drop)]
pub struct Line {
    pub spec: Spec,
    tables: PatternTables,
    ghost own: { AreTablesOf spec.pattern tables } by { are_tables spec.pattern tables },
}

fn is_of(kind: EntryKind, asked: EntryKind) -> bool
    ensures { result ≡ same_kind kind asked }
{
    kind == asked
}

impl Line {
    /// Makes a line ready.
    pub fn new(alloc: Global, spec: Spec) -> Result<Line, OutOfMemory>
        ensures { IfOk result (λ line. line.spec ≡ spec) }
    {
        let tables = PatternTables::new(alloc, &spec.pattern)?;
        Ok(Line { spec, tables })
    }

    /// For how many words of marks states must have room.
    pub fn words(&self) -> usize
        ensures { HasRoomFor self.now.spec.pattern result }
    {
        self.tables.words()
    }

    /// Whether the line applies to what is asked.
    pub fn applies(&self, asked: Asked) -> bool
        ensures { result ≡ applies self.now.spec.kind asked }
    {
        match (self.spec.kind, asked) {
            (None, _) => true,
            (Some(_), Asked::Any) => true,
            (Some(kind), Asked::Of(asked)) => is_of(kind, asked),
        }
    }

    /// Goes back to the states before the first byte of a text, whichever line's they were.
    pub fn restart(&self, states: &mut States)
        requires { HasRoomFor self.now.spec.pattern states.old.room }
        ensures room { states.new.room ≡ states.old.room }
        ensures own { AreStatesOf self.now.spec.pattern states.new.known }
        ensures stands { StandsFor self.now.spec.pattern states.new.known [] }
    {
        Matcher::new(&self.spec.pattern, &self.tables).restart(states);
    }

    /// Goes on by a byte: what the states stand for gets it at its end.
    pub fn step(&self, states: &mut States, byte: u8)
        requires { AreStatesOf self.now.spec.pattern states.old.known }
        ensures own { AreStatesOf self.now.spec.pattern states.new.known }
        ensures room { states.new.room ≡ states.old.room }
        ensures stands { (text : List ℕ) → StandsFor self.now.spec.pattern states.old.known text
            → StandsFor self.now.spec.pattern states.new.known (text ++ byte ∷ []) }
    {
        Matcher::new(&self.spec.pattern, &self.tables).step(states, byte);
    }

    /// Whether some text of the language begins with the text that was read.
    pub fn alive(&self, states: &States) -> bool
        requires { AreStatesOf self.now.spec.pattern states.now.known }
        ensures { (text : List ℕ) → StandsFor self.now.spec.pattern states.now.known text
            → IsTrue result ↔ Opens self.now.spec.pattern text }
    {
        Matcher::new(&self.spec.pattern, &self.tables).alive(states)
    }

    /// Whether the language holds the text that was read.
    pub fn accepts(&self, states: &States) -> bool
        requires { AreStatesOf self.now.spec.pattern states.now.known }
        ensures { (text : List ℕ) → StandsFor self.now.spec.pattern states.now.known text
            → result ≡ holds self.now.spec.pattern text }
    {
        Matcher::new(&self.spec.pattern, &self.tables).accepts(states)
    }

    /// Whether the line fits the text that was read and each text that begins with it, whatever
    /// kind is asked for, as far as single places of its automaton tell that.
    pub fn covers(&self, states: &mut States) -> bool
        requires { AreStatesOf self.now.spec.pattern states.old.known }
        ensures any { result ≡ true → self.now.spec.kind ≡ None }
        ensures holds { result ≡ true → (text : List ℕ)
            → StandsFor self.now.spec.pattern states.old.known text
            → TakesAll self.now.spec.pattern text }
        ensures same { states.new ≡ states.old }
    {
        if self.spec.kind.is_some() {
            return false;
        }
        Matcher::new(&self.spec.pattern, &self.tables).takes_all(states)
    }
}
