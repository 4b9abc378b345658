ghost use Rattle.std.specs.Prelude.{◌≡◌, ◌++◌, ◌∷◌, ◌+◌, ◌/◌, ◌^◌, ◌<◌, ◌≤◌, ◌↔◌, nat_eq, ℕ, List};
ghost use Rattle.std.specs.Prelude.{[], true, false, IfOk, IsTrue, length};
ghost use Rattle.std.specs.List.{starts_with};
ghost use Rattle.pattern_syntax.specs.Tree.{Tree};
ghost use Rattle.pattern_syntax.specs.Language.{In, Opens, holds};
ghost use Rattle.pattern_syntax.specs.Literal.{literal_start_of};
ghost use Rattle.file_paths.specs.Path.{Path};
ghost use Rattle.pattern_match.specs.Quotients.{holds_below};
ghost use Rattle.pattern_match.specs.Onwards.{TakesAll};
ghost use Rattle.pattern_match.specs.Settled.{StatesLeadOnward, StatesStay};
ghost use Rattle.pattern_match.specs.Compiled.{AreTablesOf};
ghost use Rattle.pattern_match.specs.States.{AreStatesOf, Below, HasRoomFor, StandsFor};

use crate::machine::Machine;
use crate::readying::PatternTables;
use crate::states::States;
use file_paths::NormPath;
use label_base::OutOfMemory;
use pattern_syntax::Pattern;
use std::alloc::Global;
use std::marker::Model;

/// A pattern made ready for matching, seen as the pattern.
#[derive(Drop)]
pub struct Matcher<'a> {
    start: &'a [u8],
    // The automaton of what stands behind the literal start.
    machine: Machine<'a>,
}

impl<'a> Model for Matcher<'a> {
    ghost use Rattle.std.specs.Prelude.{◌≡◌};
    ghost use Rattle.pattern_syntax.specs.Tree.{Tree, tree_code};

    ghost Value = { Tree };

    ghost coded = { tree_code };

    ghost use Rattle.pattern_syntax.specs.Literal.{literal_start_of};
    ghost use Rattle.pattern_syntax.specs.Starts.{behind_start, with_start};

    ghost view = { λ m. with_start m.start.now m.machine };

    ghost invariant = { λ m. record {
      start : m.start.now ≡ literal_start_of (with_start m.start.now m.machine);
      behind : m.machine ≡ behind_start (with_start m.start.now m.machine);
    } };
}

// Whether the text begins with the start. Most texts differ within a few bytes, where std's test
// for long slices is slow.
fn begins_with(text: &[u8], start: &[u8]) -> bool
    ensures bound { result ≡ true → length start.now ≤ length text.now }
    ensures value { result ≡ starts_with nat_eq text.now start.now }
{
    if text.len() < start.len() {
        return false;
    }
    'bytes: for i in 0..start.len() {
        if text[i] != start[i] {
            return false;
        }
    }
    true
}

/// Whether the text begins with the pattern's literal start. Where it doesn't, it isn't in the
/// language.
pub fn may_hold(pattern: &Pattern, text: &[u8]) -> bool
    ensures value { result ≡ starts_with nat_eq text.now (literal_start_of pattern.now.tree) }
    ensures outside { result ≡ false → holds pattern.now.tree text.now ≡ false }
{
    let start = pattern.start();
    begins_with(text, start)
}

impl<'a> Matcher<'a> {
    /// The matcher of a pattern, whose tables these are.
    pub fn new(pattern: &'a Pattern, tables: &'a PatternTables) -> Matcher<'a>
        requires { AreTablesOf pattern.now.tree tables.now }
        ensures { result ≡ pattern.now.tree }
    {
        Matcher {
            start: pattern.start(),
            machine: Machine::new(pattern, tables),
        }
    }

    /// The states before the first byte of a text. Only they take memory, so later calls can't
    /// fail.
    pub fn states(&self, alloc: Global) -> Result<States, OutOfMemory>
        ensures made { IfOk result (λ states. AreStatesOf self.now states.known) }
        ensures stands { IfOk result (λ states. StandsFor self.now states.known []) }
        ensures room { IfOk result (λ states. HasRoomFor self.now states.room) }
    {
        Ok(States {
            seen: 0,
            marks: self.machine.marks(alloc)?,
        })
    }

    /// Goes back to the states before the first byte, whichever pattern's they were.
    pub fn restart(&self, states: &mut States)
        requires { HasRoomFor self.now states.old.room }
        ensures made { AreStatesOf self.now states.new.known }
        ensures stands { StandsFor self.now states.new.known [] }
        ensures room { states.new.room ≡ states.old.room }
    {
        states.seen = 0;
        self.machine.restart(&mut states.marks);
    }

    /// Goes on by a byte: what the states stand for gets it at its end.
    pub fn step(&self, states: &mut States, byte: u8)
        requires { AreStatesOf self.now states.old.known }
        ensures made { AreStatesOf self.now states.new.known }
        ensures stands { (text : List ℕ) → StandsFor self.now states.old.known text
            → StandsFor self.now states.new.known (text ++ byte ∷ []) }
        ensures room { states.new.room ≡ states.old.room }
    {
        let seen = states.seen;
        let start = self.start;
        if seen > start.len() {
            return;
        }
        if seen < start.len() {
            if start[seen] == byte {
                states.seen = seen + 1;
                return;
            }
            states.seen = start.len() + 1;
            return;
        }
        if self.machine.is_bare() {
            states.seen = start.len() + 1;
            return;
        }
        self.machine.step(&mut states.marks, byte);
    }

    /// Whether the text that was read is in the language.
    pub fn accepts(&self, states: &States) -> bool
        requires { AreStatesOf self.now states.now.known }
        ensures language { (text : List ℕ) → StandsFor self.now states.now.known text
            → IsTrue result ↔ In self.now text }
        ensures value { (text : List ℕ) → StandsFor self.now states.now.known text
            → result ≡ holds self.now text }
    {
        let start = self.start;
        if states.seen != start.len() {
            return false;
        }
        self.machine.accepts(&states.marks)
    }

    /// Whether a text may end in a state of now that leads to a loop: one that follows itself by
    /// every byte other than 0, and in which a text may end too. Then the language holds the text
    /// that was read and each text of such bytes that begins with it. It may hold them, and this be
    /// false, where that takes several states together.
    pub fn takes_all(&self, states: &mut States) -> bool
        requires { AreStatesOf self.now states.old.known }
        ensures exact { IsTrue result ↔ StatesLeadOnward self.now states.old.known }
        ensures texts { result ≡ true → (text : List ℕ) → StandsFor self.now states.old.known text
            → TakesAll self.now text }
        ensures same { states.new ≡ states.old }
    {
        let start = self.start;
        if states.seen != start.len() {
            return false;
        }
        self.machine.takes_all(&mut states.marks)
    }

    /// Whether nothing is left, since a byte was met that isn't the literal start's; or the whole
    /// start was read, the pattern isn't that one text, and each byte other than 0 leads from each
    /// state of now to all of these and no other. Then the states stand as well for the text with
    /// one more such byte, whichever it is. They may, and this be false, where other states leave
    /// the same.
    pub fn stays(&self, states: &mut States) -> bool
        requires { AreStatesOf self.now states.old.known }
        ensures exact { IsTrue result ↔ StatesStay self.now states.old.known }
        ensures stands { result ≡ true → (byte : ℕ) → 0 < byte → byte < 256
            → (text : List ℕ) → StandsFor self.now states.old.known text
            → StandsFor self.now states.old.known (text ++ byte ∷ []) }
        ensures same { states.new ≡ states.old }
    {
        let start = self.start;
        if states.seen > start.len() {
            return true;
        }
        if states.seen < start.len() {
            return false;
        }
        self.machine.stays(&mut states.marks)
    }

    /// Whether some text of the language begins with the text that was read.
    pub fn alive(&self, states: &States) -> bool
        requires { AreStatesOf self.now states.now.known }
        ensures { (text : List ℕ) → StandsFor self.now states.now.known text
            → IsTrue result ↔ Opens self.now text }
    {
        let start = self.start;
        if states.seen > start.len() {
            return false;
        }
        self.machine.alive(&states.marks)
    }

    /// Makes the one set of states what the other is.
    pub fn copy_states(&self, from: &States, to: &mut States)
        requires from { AreStatesOf self.now from.now.known }
        requires to { HasRoomFor self.now to.old.room }
        ensures made { AreStatesOf self.now to.new.known }
        ensures same { to.new.known ≡ from.now.known }
        ensures stands { (text : List ℕ) → StandsFor self.now from.now.known text
            → StandsFor self.now to.new.known text }
        ensures room { to.new.room ≡ to.old.room }
    {
        to.set(from.seen, from.marks.as_slice());
    }

    /// Starts anew and reads a text. Where no text of the language begins so, it may stop early and
    /// return false. Its cost is that of a step for each byte of the text.
    pub fn read(&self, states: &mut States, text: &[u8]) -> bool
        requires { HasRoomFor self.now states.old.room }
        ensures made { AreStatesOf self.now states.new.known }
        ensures stands { result ≡ true → StandsFor self.now states.new.known text.now }
        ensures dead { result ≡ false → Opens self.now text.now → ⊥ }
        ensures room { states.new.room ≡ states.old.room }
    {
        self.restart(states);
        for byte in text {
            if !self.alive(states) {
                return false;
            }
            self.step(states, *byte);
        }
        true
    }

    /// Whether the text is in the language. The states are used anew.
    pub fn matches(&self, states: &mut States, text: &[u8]) -> bool
        requires { HasRoomFor self.now states.old.room }
        ensures language { IsTrue result ↔ In self.now text.now }
        ensures value { result ≡ holds self.now text.now }
        ensures room { states.new.room ≡ states.old.room }
    {
        let start = self.start;
        if !begins_with(text, start) {
            return false;
        }
        self.machine
            .matches(&mut states.marks, &text[start.len()..])
    }

    /// Whether the language holds the path's text or a text below it: one that begins with the path
    /// and a slash, or for `/` one that begins with a slash. The states are used anew.
    pub fn alive_below(&self, states: &mut States, path: &NormPath) -> bool
        requires { HasRoomFor self.now states.old.room }
        ensures below { IsTrue result ↔ Below self.now path.now }
        ensures test { result ≡ holds_below self.now path.now }
        ensures room { states.new.room ≡ states.old.room }
    {
        if !self.read(states, path.as_text()) {
            return false;
        }
        if path.names() == 0 {
            return self.alive(states);
        }
        if self.accepts(states) {
            return true;
        }
        self.step(states, b'/');
        self.alive(states)
    }
}

/// The law that the test by every cut, by which clauses compute, is membership in the language.
pub fn every_cut_is_membership()
    ensures { (tree : Tree) (text : List ℕ) → IsTrue (holds tree text) ↔ In tree text }
{}

/// The law that the test by left quotients, by which clauses compute, tells whether the language
/// holds the path or something below it.
pub fn quotients_show_what_is_below()
    ensures { (tree : Tree) (path : Path) → IsTrue (holds_below tree path) ↔ Below tree path }
{}
