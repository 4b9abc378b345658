ghost use Rattle.std.specs.Prelude.{◌≡◌, ◌∷◌, ◌+◌, ◌/◌, ◌<◌, ◌≤◌, ◌↔◌, ℕ, List, [], true, false};
ghost use Rattle.std.specs.Prelude.{IfOk};
ghost use Rattle.std.specs.Prelude.{IsTrue};
ghost use Rattle.pattern_syntax.specs.Language.{In};
ghost use Rattle.pattern_syntax.specs.Starts.{behind_start};
ghost use Rattle.pattern_match.specs.Compiled.{AreTablesOf};
ghost use Rattle.pattern_match.specs.Onwards.{AreTextBytes};
ghost use Rattle.pattern_match.specs.Settled.{MarksLeadOnward, MarksStay};
ghost use Rattle.pattern_match.specs.States.{AreMarksOf, IsBehind, IsRead, is_bare, words_for};

use crate::bits::{have_any, have_common};
use crate::loops::has_loop;
use crate::marks::Marks;
use crate::over::ends_over;
use crate::readying::PatternTables;
use crate::steady::are_steady;
use label_base::OutOfMemory;
use pattern_syntax::Pattern;
use std::alloc::Global;
use std::marker::Model;

/// The automaton of what stands behind a pattern's literal start, seen as that: the pattern, and
/// the tables of what stands there.
#[derive(Drop)]
pub struct Machine<'a> {
    pattern: &'a Pattern,
    tables: &'a PatternTables,
}

impl<'a> Model for Machine<'a> {
    ghost use Rattle.pattern_syntax.specs.Tree.{Tree, tree_code};

    ghost Value = { Tree };

    ghost coded = { tree_code };

    ghost use Rattle.pattern_syntax.specs.Starts.{behind_start};
    ghost use Rattle.pattern_match.specs.Compiled.{IsCompiled};

    ghost view = { λ m. behind_start m.pattern.now.tree };

    ghost invariant = { IsCompiled };
}

impl<'a> Machine<'a> {
    /// The automaton of what stands behind the pattern's start, whose tables these are.
    pub fn new(pattern: &'a Pattern, tables: &'a PatternTables) -> Machine<'a>
        requires { AreTablesOf pattern.now.tree tables.now }
        ensures { result ≡ behind_start pattern.now.tree }
    {
        Machine { pattern, tables }
    }

    /// Whether the empty text is all that it holds.
    pub fn is_bare(&self) -> bool
        ensures { result ≡ is_bare self.now }
    {
        let tables = self.tables;
        tables.is_bare
    }

    /// The marks before the first byte of a text.
    pub fn marks(&self, alloc: Global) -> Result<Marks, OutOfMemory>
        ensures made { IfOk result (λ marks. AreMarksOf self.now marks.marks) }
        ensures starts { IfOk result (λ marks. (text : List ℕ)
            → IsBehind self.now marks.marks text ↔ In self.now text) }
        ensures room { IfOk result (λ marks. words_for self.now ≤ marks.room) }
    {
        let tables = self.tables;
        let mut marks = Marks::with_room(alloc, tables.width)?;
        marks.restart(tables.width, tables.rows);
        Ok(marks)
    }

    /// Goes back to the marks before the first byte.
    pub fn restart(&self, marks: &mut Marks)
        requires { words_for self.now ≤ marks.old.room }
        ensures made { AreMarksOf self.now marks.new.marks }
        ensures starts { (text : List ℕ) → IsBehind self.now marks.new.marks text
            ↔ In self.now text }
        ensures room { marks.new.room ≡ marks.old.room }
    {
        let tables = self.tables;
        marks.restart(tables.width, tables.rows);
    }

    /// Goes on by a byte.
    pub fn step(&self, marks: &mut Marks, byte: u8)
        requires some { is_bare self.now ≡ false }
        requires made { AreMarksOf self.now marks.old.marks }
        ensures made { AreMarksOf self.now marks.new.marks }
        ensures behind { (text : List ℕ) → IsBehind self.now marks.old.marks (byte ∷ text)
            ↔ IsBehind self.now marks.new.marks text }
        ensures room { marks.new.room ≡ marks.old.room }
    {
        let tables = self.tables;
        let operations = tables.operations.as_slice();
        if !operations.is_empty() {
            marks.step_over(operations, byte);
            return;
        }
        marks.step(tables.follow.as_slice(), tables.classes.as_slice(), byte);
    }

    /// Whether a text may end here.
    pub fn accepts(&self, marks: &Marks) -> bool
        requires { AreMarksOf self.now marks.now.marks }
        ensures { IsTrue result ↔ IsBehind self.now marks.now.marks [] }
    {
        let tables = self.tables;
        if tables.is_bare {
            return true;
        }
        let operations = tables.operations.as_slice();
        if !operations.is_empty() {
            return ends_over(operations, marks.as_slice());
        }
        have_common(marks.as_slice(), tables.accept.as_slice())
    }

    /// Whether a text may end in some marked state that leads to a loop, in which one may end too.
    /// Then every text of bytes other than 0 is left.
    pub fn takes_all(&self, marks: &mut Marks) -> bool
        requires { AreMarksOf self.now marks.old.marks }
        ensures exact { IsTrue result ↔ MarksLeadOnward self.now marks.old.marks }
        ensures texts { result ≡ true → (text : List ℕ) → AreTextBytes text
            → IsBehind self.now marks.old.marks text }
        ensures same { marks.new ≡ marks.old }
    {
        let tables = self.tables;
        if tables.is_bare {
            return false;
        }
        let operations = tables.operations.as_slice();
        if !operations.is_empty() {
            return marks.has_loop_over(operations);
        }
        has_loop(
            marks.as_slice(),
            tables.accept.as_slice(),
            tables.follow.as_slice(),
            tables.classes.as_slice(),
        )
    }

    /// Whether it holds more than the empty text, and each byte other than 0 leads from each marked
    /// state to all of these and no other. Then every such byte leaves what was left before.
    pub fn stays(&self, marks: &mut Marks) -> bool
        requires { AreMarksOf self.now marks.old.marks }
        ensures exact { IsTrue result ↔ MarksStay self.now marks.old.marks }
        ensures bytes { result ≡ true → (byte : ℕ) → 0 < byte → byte < 256
            → (text : List ℕ) → IsBehind self.now marks.old.marks (byte ∷ text)
            ↔ IsBehind self.now marks.old.marks text }
        ensures same { marks.new ≡ marks.old }
    {
        let tables = self.tables;
        if tables.is_bare {
            return false;
        }
        let operations = tables.operations.as_slice();
        if !operations.is_empty() {
            return marks.are_steady_over(operations);
        }
        are_steady(
            marks.as_slice(),
            tables.follow.as_slice(),
            tables.classes.as_slice(),
        )
    }

    /// Whether some text is left.
    pub fn alive(&self, marks: &Marks) -> bool
        requires { AreMarksOf self.now marks.now.marks }
        ensures onto { (text : List ℕ) → IsBehind self.now marks.now.marks text
            → result ≡ true }
        ensures from { result ≡ true → (text : List ℕ) × IsBehind self.now marks.now.marks text }
    {
        let tables = self.tables;
        if tables.is_bare {
            return true;
        }
        have_any(marks.as_slice())
    }

    // Starts anew and reads a text. Where nothing is left it may stop early and say false.
    fn read(&self, marks: &mut Marks, text: &[u8]) -> bool
        requires some { is_bare self.now ≡ false }
        requires room { words_for self.now ≤ marks.old.room }
        ensures made { AreMarksOf self.now marks.new.marks }
        ensures read { result ≡ true → IsRead self.now marks.new.marks text.now }
        ensures dead { result ≡ false → In self.now text.now → ⊥ }
        ensures room { marks.new.room ≡ marks.old.room }
    {
        self.restart(marks);
        for byte in text {
            if !self.alive(marks) {
                return false;
            }
            self.step(marks, *byte);
        }
        true
    }

    /// Whether the text is in the language. The marks are used anew.
    pub fn matches(&self, marks: &mut Marks, text: &[u8]) -> bool
        requires { words_for self.now ≤ marks.old.room }
        ensures language { IsTrue result ↔ In self.now text.now }
        ensures room { marks.new.room ≡ marks.old.room }
    {
        let tables = self.tables;
        if tables.is_bare {
            return text.is_empty();
        }
        if !self.read(marks, text) {
            return false;
        }
        self.accepts(marks)
    }
}
