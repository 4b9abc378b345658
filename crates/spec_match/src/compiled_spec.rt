ghost use Rattle.std.specs.Prelude.{◌≡◌, ◌↔◌, ◌<◌, ◌++◌, ◌∷◌, ℕ, List, [], false, true, None, IfOk};
ghost use Rattle.std.specs.Prelude.{IsTrue, nat_eq, slice_get};
ghost use Rattle.std.specs.List.{starts_with};
ghost use Rattle.label_base.specs.Kind.{applies, same_kind};
ghost use Rattle.pattern_syntax.specs.Language.{Opens, holds};
ghost use Rattle.pattern_syntax.specs.Literal.{literal_start_of};
ghost use Rattle.pattern_match.specs.Onwards.{TakesAll};
ghost use Rattle.pattern_match.specs.Settled.{StatesLeadOnward, StatesStay};
ghost use Rattle.pattern_syntax.specs.Starts.{behind_start};
ghost use Rattle.pattern_match.specs.States.{AreStatesOf, HasRoomFor, StandsFor, words_for};
ghost use Rattle.spec_match.specs.LastMatch.{fits};
ghost use Rattle.file_paths.specs.Path.{Path, is_root_path, path_text};
ghost use Rattle.file_paths.specs.PathRef.{path_of};
ghost use Rattle.spec_match.specs.Memberships.{IsTestOf, is_fact};
ghost use Rattle.spec_match.specs.Relevant.{can_decide};

use crate::membership::Membership;
use file_paths::PathRef;
use label_base::{Asked, EntryKind, OutOfMemory};
use pattern_match::{States, may_hold};
use spec_reader::Spec;
use std::alloc::Global;

/// A specification and the test of its pattern.
#[derive(Drop)]
pub struct CompiledSpec {
    pub spec: Spec,
    test: Membership,
    ghost own: { IsTestOf spec.pattern test } by { is_fact spec.pattern test },
}

fn is_of(kind: EntryKind, asked: EntryKind) -> bool
    ensures { result ≡ same_kind kind asked }
{
    kind == asked
}

/// Whether a specification with this kind, or with none, applies to what is asked.
pub fn does_apply(kind: Option<EntryKind>, asked: Asked) -> bool
    ensures { result ≡ applies kind asked }
{
    match (kind, asked) {
        (None, _) => true,
        (Some(_), Asked::Any) => true,
        (Some(kind), Asked::Of(asked)) => is_of(kind, asked),
    }
}

impl CompiledSpec {
    /// Makes a specification ready.
    pub fn new(alloc: Global, spec: Spec) -> Result<CompiledSpec, OutOfMemory>
        ensures { IfOk result (λ rule. rule.spec ≡ spec) }
    {
        let test = Membership::new(alloc, &spec.pattern)?;
        Ok(CompiledSpec { spec, test })
    }

    /// For how many words of marks states must have room.
    pub fn words(&self) -> usize
        ensures value { result ≡ words_for (behind_start self.now.spec.pattern) }
        ensures room { HasRoomFor self.now.spec.pattern result }
    {
        self.test.words(&self.spec.pattern)
    }

    /// States in which the pattern may be matched.
    pub fn states(&self, alloc: Global) -> Result<States, OutOfMemory>
        ensures { IfOk result (λ states. HasRoomFor self.now.spec.pattern states.room) }
    {
        let states = States::with_room(alloc, self.words())?;
        Ok(states)
    }

    /// The bytes that every text of the pattern begins with.
    pub fn start(&self) -> &[u8]
        ensures { result.now ≡ literal_start_of self.now.spec.pattern }
    {
        self.spec.pattern.start()
    }

    /// Whether the text begins with the pattern's literal start. Where it doesn't, its language
    /// doesn't hold it.
    pub fn may_hold(&self, text: &[u8]) -> bool
        ensures value { result
            ≡ starts_with nat_eq text.now (literal_start_of self.now.spec.pattern) }
        ensures outside { result ≡ false → holds self.now.spec.pattern text.now ≡ false }
    {
        may_hold(&self.spec.pattern, text)
    }

    /// Whether the specification applies and its language holds the text.
    pub fn does_fit(&self, states: &mut States, text: &[u8], asked: Asked) -> bool
        requires { HasRoomFor self.now.spec.pattern states.old.room }
        ensures room { states.new.room ≡ states.old.room }
        ensures value { result ≡ fits asked text.now self.now.spec }
    {
        if !does_apply(self.spec.kind, asked) {
            return false;
        }
        self.test.passes(&self.spec.pattern, states, text)
    }

    /// Goes back to the states before the first byte of a text, whichever pattern's they were.
    pub fn restart(&self, states: &mut States)
        requires { HasRoomFor self.now.spec.pattern states.old.room }
        ensures room { states.new.room ≡ states.old.room }
        ensures own { AreStatesOf self.now.spec.pattern states.new.known }
        ensures stands { StandsFor self.now.spec.pattern states.new.known [] }
    {
        self.test.restart(&self.spec.pattern, states);
    }

    /// Goes on by a byte: what the states stand for gets it at its end.
    pub fn step(&self, states: &mut States, byte: u8)
        requires { AreStatesOf self.now.spec.pattern states.old.known }
        ensures own { AreStatesOf self.now.spec.pattern states.new.known }
        ensures room { states.new.room ≡ states.old.room }
        ensures stands { (text : List ℕ) → StandsFor self.now.spec.pattern states.old.known text
            → StandsFor self.now.spec.pattern states.new.known (text ++ byte ∷ []) }
    {
        self.test.step(&self.spec.pattern, states, byte);
    }

    /// The byte of the literal start behind so many, where there is one.
    pub fn wants(&self, seen: usize) -> Option<u8>
        ensures { result ≡ slice_get (literal_start_of self.now.spec.pattern) seen }
    {
        self.start().get(seen).copied()
    }

    /// Whether some text of the language begins with the text that was read.
    pub fn alive(&self, states: &States) -> bool
        requires { AreStatesOf self.now.spec.pattern states.now.known }
        ensures { (text : List ℕ) → StandsFor self.now.spec.pattern states.now.known text
            → IsTrue result ↔ Opens self.now.spec.pattern text }
    {
        self.test.alive(&self.spec.pattern, states)
    }

    /// Whether the specification fits the text that was read and each text that begins with it,
    /// whatever kind is asked for, as far as single places of its automaton tell that. The states
    /// are worked in, and left as they were.
    pub fn covers(&self, states: &mut States) -> bool
        requires { AreStatesOf self.now.spec.pattern states.old.known }
        ensures any { result ≡ true → self.now.spec.kind ≡ None }
        ensures exact { self.now.spec.kind ≡ None
            → IsTrue result ↔ StatesLeadOnward self.now.spec.pattern states.old.known }
        ensures holds { result ≡ true → (text : List ℕ)
            → StandsFor self.now.spec.pattern states.old.known text
            → TakesAll self.now.spec.pattern text }
        ensures same { states.new ≡ states.old }
    {
        if self.spec.kind.is_some() {
            return false;
        }
        self.test.takes_all(&self.spec.pattern, states)
    }

    /// Whether the states stand as well for the text with one more byte, whichever it is, other
    /// than 0, as far as single places of the automaton tell that. The states are worked in, and
    /// left as they were.
    pub fn stays(&self, states: &mut States) -> bool
        requires { AreStatesOf self.now.spec.pattern states.old.known }
        ensures exact { IsTrue result ↔ StatesStay self.now.spec.pattern states.old.known }
        ensures stands { result ≡ true → (byte : ℕ) → 0 < byte → byte < 256
            → (text : List ℕ) → StandsFor self.now.spec.pattern states.old.known text
            → StandsFor self.now.spec.pattern states.old.known (text ++ byte ∷ []) }
        ensures same { states.new ≡ states.old }
    {
        self.test.stays(&self.spec.pattern, states)
    }

    /// Whether the specification applies and its language holds the text that was read.
    pub fn fits_read(&self, states: &States, asked: Asked) -> bool
        requires { AreStatesOf self.now.spec.pattern states.now.known }
        ensures { (text : List ℕ) → StandsFor self.now.spec.pattern states.now.known text
            → result ≡ fits asked text self.now.spec }
    {
        if !does_apply(self.spec.kind, asked) {
            return false;
        }
        self.test.accepts(&self.spec.pattern, states)
    }

    /// Whether the language holds the text that was read.
    pub fn accepts(&self, states: &States) -> bool
        requires { AreStatesOf self.now.spec.pattern states.now.known }
        ensures { (text : List ℕ) → StandsFor self.now.spec.pattern states.now.known text
            → result ≡ holds self.now.spec.pattern text }
    {
        self.test.accepts(&self.spec.pattern, states)
    }

    /// Reads on. Where no text of the language begins with all that is read, it may stop early and
    /// say false.
    pub fn read_on(&self, states: &mut States, text: &[u8]) -> bool
        requires { AreStatesOf self.now.spec.pattern states.old.known }
        ensures made { AreStatesOf self.now.spec.pattern states.new.known }
        ensures room { states.new.room ≡ states.old.room }
        ensures stands { result ≡ true → (front : List ℕ)
            → StandsFor self.now.spec.pattern states.old.known front
            → StandsFor self.now.spec.pattern states.new.known (front ++ text.now) }
        ensures dead { result ≡ false → (front : List ℕ)
            → StandsFor self.now.spec.pattern states.old.known front
            → Opens self.now.spec.pattern (front ++ text.now) → ⊥ }
    {
        'text: for byte in text {
            self.step(states, *byte);
            if !self.alive(states) {
                return false;
            }
        }
        true
    }

    /// Reads on from a path's text to that of a child of the path. Where no text of the language
    /// begins with it, it may stop early and say false.
    pub fn read_child(&self, states: &mut States, is_root: bool, name: &[u8]) -> bool
        requires { AreStatesOf self.now.spec.pattern states.old.known }
        ensures made { AreStatesOf self.now.spec.pattern states.new.known }
        ensures room { states.new.room ≡ states.old.room }
        ensures stands { result ≡ true → (path : Path) → is_root ≡ is_root_path path
            → StandsFor self.now.spec.pattern states.old.known (path_text path)
            → StandsFor self.now.spec.pattern states.new.known (path_text (path ++ name.now ∷ [])) }
        ensures dead { result ≡ false → (path : Path) → is_root ≡ is_root_path path
            → StandsFor self.now.spec.pattern states.old.known (path_text path)
            → Opens self.now.spec.pattern (path_text (path ++ name.now ∷ [])) → ⊥ }
    {
        if is_root {
            return self.read_on(states, name);
        }
        self.step(states, b'/');
        self.read_on(states, name)
    }

    /// Whether the language holds the path or something below it, where the states stand for the
    /// path's text.
    pub fn can_decide_behind(&self, states: &mut States, is_root: bool) -> bool
        requires { AreStatesOf self.now.spec.pattern states.old.known }
        ensures room { states.new.room ≡ states.old.room }
        ensures value { (path : Path) → is_root ≡ is_root_path path
            → StandsFor self.now.spec.pattern states.old.known (path_text path)
            → result ≡ can_decide path self.now.spec }
    {
        if is_root {
            return self.alive(states);
        }
        if self.accepts(states) {
            return true;
        }
        self.step(states, b'/');
        self.alive(states)
    }

    /// Whether the language holds the path or something below it.
    pub fn can_decide(&self, states: &mut States, path: &PathRef<'_>) -> bool
        requires { HasRoomFor self.now.spec.pattern states.old.room }
        ensures room { states.new.room ≡ states.old.room }
        ensures value { result ≡ can_decide (path_of path.now) self.now.spec }
    {
        self.restart(states);
        if !self.read_on(states, path.as_text()) {
            return false;
        }
        self.can_decide_behind(states, path.names() == 0)
    }
}
