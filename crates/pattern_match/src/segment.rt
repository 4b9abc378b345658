ghost use Rattle.std.specs.Prelude.{◌≡◌, ◌+◌, ◌*◌, ◌^◌, ◌%◌, ◌<◌, ◌≤◌, ◌==◌, ◌&&◌, ◌||◌, true};
ghost use Rattle.std.specs.Prelude.{false, ℕ, List, OnOk, length};
ghost use Rattle.pattern_match.specs.Automaton.{Automaton, copy_before, looped, both_live};
ghost use Rattle.pattern_match.specs.Automaton.{either_automaton};
ghost use Rattle.pattern_match.specs.declared.class.Class as kind;
ghost use Rattle.pattern_match.specs.Segments.{in_word};
ghost use Rattle.pattern_match.specs.Layouts.{AreGrown, AreLinked, IsSegmentOf, further};

use crate::class::Class;
use label_base::OutOfMemory;

/// A part of a pattern, whose places stand one behind the other from a place on: those that may
/// take a first byte and those behind which a text may end, as bits.
#[derive(Clone, Copy)]
pub struct Segment {
    pub start: usize,
    pub first: u64,
    pub last: u64,
    pub holds_empty: bool,
    pub is_live: bool,
}

// The word, with the bits of another too if they are wanted.
fn with_bits_if(word: u64, others: u64, are_wanted: bool) -> u64
    ensures { (k : ℕ) → in_word result k ≡ (in_word word k || (are_wanted && in_word others k)) }
{
    if are_wanted {
        return word | others;
    }
    word
}

fn are_both(one: bool, other: bool) -> bool
    ensures { result ≡ (one && other) }
{
    one && other
}

fn is_either(one: bool, other: bool) -> bool
    ensures { result ≡ (one || other) }
{
    one || other
}

// Lets the places of a word be followed by those of another too.
fn link(rows: &mut Vec<u64>, last: u64, first: u64)
    requires { (p : ℕ) → in_word last p ≡ true → p < length rows.old.items }
    ensures bits { AreLinked rows.old.items rows.new.items last first }
    ensures words { length rows.new.items ≡ length rows.old.items }
{
    let mut left = last;
    'places: while left != 0 {
        rows[left.trailing_zeros() as usize] |= first;
        left &= left - 1;
    }
}

/// Adds so many places, each the one so many places before it once more.
pub fn grow(
    rows: &mut Vec<u64>,
    classes: &mut Vec<Class>,
    by: usize,
    places: usize,
) -> Result<(), OutOfMemory>
    requires some { 0 < by }
    requires few { by < 64 }
    requires within { by ≤ length rows.old.items }
    requires even { length classes.old.items ≡ length rows.old.items }
    ensures { OnOk result
        (AreGrown by rows.old.items rows.new.items classes.old.items classes.new.items places) }
{
    'places: for _done in 0..places {
        let from = rows.len() - by;
        let row = rows[from];
        let class = classes[from];
        rows.push(row << by)?;
        classes.push(class)?;
    }
    Ok(())
}

impl Segment {
    /// No place: the empty text alone, or no text at all.
    pub fn bare(start: usize, holds_empty: bool) -> Segment
        ensures { result ≡ record {
          start = start;
          first = 0;
          last = 0;
          holds_empty = holds_empty;
          is_live = holds_empty;
        } }
    {
        Segment {
            start,
            first: 0,
            last: 0,
            holds_empty,
            is_live: holds_empty,
        }
    }

    /// One place.
    pub fn single(start: usize) -> Segment
        requires { start < 64 }
        ensures { result ≡ record {
          start = start;
          first = 1 * 2 ^ start % 2 ^ 64;
          last = 1 * 2 ^ start % 2 ^ 64;
          holds_empty = false;
          is_live = true;
        } }
    {
        Segment {
            start,
            first: 1 << start,
            last: 1 << start,
            holds_empty: false,
            is_live: true,
        }
    }

    /// The same so many places further up.
    pub fn moved_up(&self, by: usize) -> Segment
        requires few { by < 64 }
        requires low { self.now.start < 64 }
        ensures { result ≡ further self.now by }
    {
        Segment {
            start: self.start + by,
            first: self.first << by,
            last: self.last << by,
            holds_empty: self.holds_empty,
            is_live: self.is_live,
        }
    }

    /// As often as one likes.
    pub fn looped(&self, rows: &mut Vec<u64>, holds_empty: bool) -> Segment
        requires { (p : ℕ) → in_word self.now.last p ≡ true → p < length rows.old.items }
        ensures bits { AreLinked rows.old.items rows.new.items self.now.last self.now.first }
        ensures words { length rows.new.items ≡ length rows.old.items }
        ensures start { result.start ≡ self.now.start }
        ensures stands { (classes : List kind.Class) (a : Automaton)
            → IsSegmentOf rows.old.items classes self.now a
            → IsSegmentOf rows.new.items classes result (looped holds_empty a) }
    {
        link(rows, self.last, self.first);
        Segment {
            start: self.start,
            first: self.first,
            last: self.last,
            holds_empty,
            is_live: true,
        }
    }

    /// A copy of a piece, and then the rest of the copies.
    pub fn before(&self, rows: &mut Vec<u64>, rest: &Segment, holds_empty: bool) -> Segment
        requires { (p : ℕ) → in_word self.now.last p ≡ true → p < length rows.old.items }
        ensures bits { AreLinked rows.old.items rows.new.items self.now.last rest.now.first }
        ensures words { length rows.new.items ≡ length rows.old.items }
        ensures start { result.start ≡ self.now.start }
        ensures stands { (classes : List kind.Class) (a b : Automaton)
            → rest.now.start ≡ self.now.start + length a.places
            → IsSegmentOf rows.old.items classes self.now a → IsSegmentOf rows.old.items classes
            rest.now b
            → IsSegmentOf rows.new.items classes result (copy_before holds_empty a b) }
    {
        link(rows, self.last, rest.first);
        Segment {
            start: self.start,
            first: self.first,
            last: with_bits_if(rest.last, self.last, rest.holds_empty),
            holds_empty,
            is_live: true,
        }
    }

    /// The one, and the other behind it.
    pub fn both(&self, rows: &mut Vec<u64>, second: &Segment) -> Segment
        requires { (p : ℕ) → in_word self.now.last p ≡ true → p < length rows.old.items }
        ensures bits { AreLinked rows.old.items rows.new.items self.now.last second.now.first }
        ensures words { length rows.new.items ≡ length rows.old.items }
        ensures start { result.start ≡ self.now.start }
        ensures stands { (classes : List kind.Class) (a b : Automaton)
            → second.now.start ≡ self.now.start + length a.places
            → IsSegmentOf rows.old.items classes self.now a → IsSegmentOf rows.old.items classes
            second.now b
            → IsSegmentOf rows.new.items classes result (both_live a b) }
    {
        link(rows, self.last, second.first);
        Segment {
            start: self.start,
            first: with_bits_if(self.first, second.first, self.holds_empty),
            last: with_bits_if(second.last, self.last, second.holds_empty),
            holds_empty: are_both(self.holds_empty, second.holds_empty),
            is_live: true,
        }
    }

    /// The one or the other.
    pub fn either(&self, right: &Segment) -> Segment
        ensures start { result.start ≡ self.now.start }
        ensures stands { (rows : List ℕ) (classes : List kind.Class) (a b : Automaton)
            → right.now.start ≡ self.now.start + length a.places
            → IsSegmentOf rows classes self.now a → IsSegmentOf rows classes right.now b
            → IsSegmentOf rows classes result (either_automaton a b) }
    {
        Segment {
            start: self.start,
            first: self.first | right.first,
            last: right.last | self.last,
            holds_empty: is_either(self.holds_empty, right.holds_empty),
            is_live: is_either(self.is_live, right.is_live),
        }
    }
}
