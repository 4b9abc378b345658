ghost use Rattle.std.specs.Prelude.{◌≡◌, ◌+◌, ◌-◌, ◌*◌, ◌<◌, ◌≤◌, ◌==◌, ◌&&◌, ◌↔◌, true, ℕ};
ghost use Rattle.std.specs.Prelude.{IfOk, IsTrue, length, nat_lt, vec_capacity};
ghost use Rattle.pattern_match.specs.Class.{takes_at};
ghost use Rattle.pattern_match.specs.Over.{HaveBits, enters, operation_places};
ghost use Rattle.pattern_match.specs.Settled.{IsSteadyPlace, LeadsOnward};
ghost use Rattle.pattern_match.specs.States.{bit};
ghost use Rattle.pattern_match.specs.Tables.{any_under};
ghost use Rattle.pattern_match.specs.declared.entry.EnteredPlaces.TheVariants.{By};

use crate::bits::{clear, gather, gathered, set_if};
use crate::class::Class;
use crate::entry::EnteredPlaces;
use crate::operation::Operation;
use crate::over::go_over;
use crate::settling::{are_steady_over, has_loop_over};
use crate::taking::{keep_taking, taking};
use label_base::OutOfMemory;
use std::alloc::Global;
use std::marker::Model;
use std::mem;

/// The marked states of an automaton as bits of words, and for how many words there is room, which
/// may be more than this automaton has.
#[derive(Drop)]
pub struct Marks {
    marks: Vec<u64>,
    // Where the next marks are gathered.
    reached: Vec<u64>,
    // Where one state, and a row of those that follow it, are put together.
    alone: Vec<u64>,
    row: Vec<u64>,
    room: usize,
}

impl Model for Marks {
    ghost use Rattle.std.specs.Prelude.{◌≡◌, ◌≤◌, length, vec_capacity};
    ghost use Rattle.pattern_match.specs.States.{Held};

    ghost Value = { Held };

    ghost view = { λ s. record { marks = s.marks.items; room = s.room } };

    ghost invariant = { λ s. record {
      even : length s.reached.items ≡ length s.marks.items;
      fits : length s.marks.items ≤ s.room;
      marks_fit : s.room ≤ vec_capacity s.marks;
      reached_fit : s.room ≤ vec_capacity s.reached;
      alone_fit : s.room ≤ vec_capacity s.alone;
      row_fit : s.room ≤ vec_capacity s.row;
    } };
}

// Makes the row so many words long, for which it has room.
fn resize(row: &mut Vec<u64>, words: usize)
    requires { words ≤ vec_capacity row.old }
    ensures words { length row.new.items ≡ words }
    ensures room { vec_capacity row.old ≤ vec_capacity row.new }
{
    let Ok(()) = row.resize(words, 0) else {
        unreachable!()
    };
}

// Makes the row these words, for which it has room.
fn fill(row: &mut Vec<u64>, words: &[u64])
    requires { length words.now ≤ vec_capacity row.old }
    ensures words { row.new.items ≡ words.now }
    ensures room { vec_capacity row.old ≤ vec_capacity row.new }
{
    row.clear();
    let Ok(()) = row.extend_from_slice(words) else {
        unreachable!()
    };
}

impl Marks {
    /// No marks, with room for so many words of them.
    pub(crate) fn with_room(alloc: Global, words: usize) -> Result<Marks, OutOfMemory>
        ensures room { IfOk result (λ marks. marks.room ≡ words) }
        ensures none { IfOk result (λ marks. length marks.marks ≡ 0) }
    {
        Ok(Marks {
            marks: Vec::with_capacity(alloc, words)?,
            reached: Vec::with_capacity(alloc, words)?,
            alone: Vec::with_capacity(alloc, words)?,
            row: Vec::with_capacity(alloc, words)?,
            room: words,
        })
    }

    pub(crate) fn as_slice(&self) -> &[u64]
        ensures { result.now ≡ self.now.marks }
    {
        self.marks.as_slice()
    }

    /// Leaves the last of so many states alone, as bits of so many words.
    pub(crate) fn restart(&mut self, width: usize, rows: usize)
        requires { width ≤ self.old.room }
        ensures bits { (k : ℕ) → k < 64 * width
            → bit self.new.marks k ≡ (nat_lt 0 rows && (rows - 1 == k)) }
        ensures words { length self.new.marks ≡ width }
        ensures room { self.new.room ≡ self.old.room }
    {
        resize(&mut self.marks, width);
        resize(&mut self.reached, width);
        clear(&mut self.marks);
        set_if(&mut self.marks, rows.saturating_sub(1), 0 < rows);
    }

    /// Goes on to the states that follow, and whose classes have the byte.
    pub(crate) fn step(&mut self, follow: &[u64], classes: &[Class], byte: u8)
        requires rows { (p : ℕ) → bit self.old.marks p ≡ true
            → p * length self.old.marks + length self.old.marks ≤ length follow.now }
        requires room { 64 * length self.old.marks < length classes.now + 64 }
        ensures bits { (k : ℕ) → k < 64 * length self.old.marks
            → bit self.new.marks k
            ≡ (any_under (λ p. bit self.old.marks p
            && bit follow.now (64 * (p * length self.old.marks) + k))
            (64 * length self.old.marks)
            && takes_at classes.now k byte) }
        ensures words { length self.new.marks ≡ length self.old.marks }
        ensures room { self.new.room ≡ self.old.room }
    {
        if self.marks.len() == 1 {
            self.marks[0] = taking(gathered(self.marks[0], follow), 0, classes, byte);
            return;
        }
        gather(&mut self.reached, self.marks.as_slice(), follow);
        keep_taking(&mut self.marks, self.reached.as_slice(), classes, byte);
    }

    /// Goes on to the states that follow by the operations, and whose bytes have this one.
    pub(crate) fn step_over(&mut self, operations: &[Operation], byte: u8)
        requires { HaveBits operations.now (length self.old.marks) }
        ensures bits { (q : ℕ) → bit self.new.marks q
            ≡ enters (By byte) (operation_places operations.now) self.old.marks q }
        ensures words { length self.new.marks ≡ length self.old.marks }
        ensures room { self.new.room ≡ self.old.room }
    {
        let entry = EnteredPlaces::By(byte);
        go_over(operations, entry, self.marks.as_slice(), &mut self.reached);
        mem::swap(&mut self.marks, &mut self.reached);
    }

    /// Whether behind some marked state of the operations a text may end, and it leads to a loop,
    /// behind which one may end too.
    pub(crate) fn has_loop_over(&mut self, operations: &[Operation]) -> bool
        requires { HaveBits operations.now (length self.old.marks) }
        ensures value { IsTrue result ↔ ((p : ℕ) × (bit self.old.marks p ≡ true)
            × LeadsOnward (operation_places operations.now) p) }
        ensures same { self.new ≡ self.old }
    {
        let words = self.marks.len();
        resize(&mut self.alone, words);
        resize(&mut self.row, words);
        has_loop_over(
            operations,
            self.marks.as_slice(),
            &mut self.alone,
            &mut self.row,
            &mut self.reached,
        )
    }

    /// Whether the states that follow each marked one by the operations are those that are marked,
    /// and each has every byte but 0.
    pub(crate) fn are_steady_over(&mut self, operations: &[Operation]) -> bool
        requires { HaveBits operations.now (length self.old.marks) }
        ensures value { IsTrue result ↔ ((p : ℕ) → bit self.old.marks p ≡ true
            → IsSteadyPlace (operation_places operations.now) self.old.marks p) }
        ensures same { self.new ≡ self.old }
    {
        let words = self.marks.len();
        resize(&mut self.alone, words);
        resize(&mut self.row, words);
        are_steady_over(
            operations,
            self.marks.as_slice(),
            &mut self.alone,
            &mut self.row,
        )
    }

    /// No marks.
    pub(crate) fn empty(&mut self)
        ensures words { length self.new.marks ≡ 0 }
        ensures room { self.new.room ≡ self.old.room }
    {
        self.marks.clear();
        self.reached.clear();
    }

    /// Takes over words that were kept.
    pub(crate) fn set(&mut self, words: &[u64])
        requires { length words.now ≤ self.old.room }
        ensures words { self.new.marks ≡ words.now }
        ensures room { self.new.room ≡ self.old.room }
    {
        fill(&mut self.marks, words);
        resize(&mut self.reached, words.len());
    }
}
