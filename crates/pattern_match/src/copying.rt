ghost use Rattle.std.specs.Prelude.{◌≡◌, ◌+◌, ◌-◌, ◌*◌, ◌<◌, ◌≤◌, ◌==◌, ◌||◌, true, ℕ, List, []};
ghost use Rattle.std.specs.Prelude.{IfOk, Some, None, length};
ghost use Rattle.pattern_match.specs.Automaton.{Automaton, repeat_places};
ghost use Rattle.pattern_match.specs.Residuals.{is_count};
ghost use Rattle.pattern_match.specs.Layouts.{AreRepeated, CanCopy, IsLastPiece, SameBelow};
ghost use Rattle.pattern_match.specs.Layouts.{StandCopies};
ghost use Rattle.pattern_match.specs.Layouts.{IsSegmentOf, before_rest, copies_of};
ghost use Rattle.pattern_match.specs.declared.class.Class as kind;

use crate::class::Class;
use crate::segment::{Segment, grow};
use label_base::OutOfMemory;

/// How many copies of a piece a repeat is written as. Where there is no upper number, the last one
/// is entered again.
pub fn copies_of(least: u32, most: Option<u32>) -> u32
    ensures { result ≡ copies_of least most }
{
    match most {
        Some(most) => most,
        None => {
            if least == 0 {
                return 1;
            }
            least
        }
    }
}

// Whether a repeat can end behind a copy of its piece.
fn may_stop(least: u32, holds_empty: bool) -> bool
    ensures { result ≡ ((least == 0) || holds_empty) }
{
    least == 0 || holds_empty
}

/// Whether the piece has places and the repeat has copies, no fewer than the least number, and they
/// are few.
pub fn can_repeat(start: usize, places: usize, least: u32, most: Option<u32>) -> bool
    requires { start + places ≤ 63 }
    ensures some { result ≡ true → 0 < places }
    ensures copies { result ≡ true → 0 < copies_of least most }
    ensures count { result ≡ true → is_count least most ≡ true }
    ensures few { result ≡ true → start + copies_of least most * places ≤ 63 }
    ensures all { 0 < places → 0 < copies_of least most → is_count least most ≡ true
        → start + copies_of least most * places ≤ 63 → result ≡ true }
{
    let copies = copies_of(least, most);
    if places == 0 {
        return false;
    }
    if copies == 0 {
        return false;
    }
    if copies < least {
        return false;
    }
    copies as usize * places <= 63 - start
}

// Joins so many copies of a piece, from the last one to the first, to the rest.
fn joined(
    rows: &mut Vec<u64>,
    piece: &Segment,
    places: usize,
    least: u32,
    copies: u32,
    rest: Segment,
) -> Segment
    requires can { CanCopy rows.old.items piece.now places copies }
    requires behind { rest.start ≡ piece.now.start + copies * places }
    ensures count { length rows.new.items ≡ length rows.old.items }
    ensures start { result.start ≡ piece.now.start }
    ensures below { SameBelow rows.old.items rows.new.items piece.now.start }
    ensures stands { (classes : List kind.Class) (a b : Automaton) → places ≡ length a.places
        → StandCopies rows.old.items classes piece.now copies a
        → IsSegmentOf rows.old.items classes rest b
        → IsSegmentOf rows.new.items classes result (before_rest least copies a b) }
{
    let mut made = rest;
    let mut left = copies;
    'copies: while left > 0 {
        left -= 1;
        let copy = piece.moved_up(left as usize * places);
        let can_stop = may_stop(least.saturating_sub(left), piece.holds_empty);
        made = copy.before(rows, &made, can_stop);
    }
    made
}

// The copies of a piece from the least number of them on as a way out.
fn counted(rows: &mut Vec<u64>, piece: &Segment, places: usize, least: u32, copies: u32) -> Segment
    requires can { CanCopy rows.old.items piece.now places copies }
    ensures count { length rows.new.items ≡ length rows.old.items }
    ensures start { result.start ≡ piece.now.start }
    ensures below { SameBelow rows.old.items rows.new.items piece.now.start }
    ensures stands { (classes : List kind.Class) (a : Automaton) → places ≡ length a.places
        → StandCopies rows.old.items classes piece.now copies a
        → IsSegmentOf rows.new.items classes result (repeat_places least (Some copies) a) }
{
    let end = Segment::bare(piece.start + copies as usize * places, true);
    joined(rows, piece, places, least, copies, end)
}

// The copies of a piece, of which the last one is entered again from its own end.
fn endless(rows: &mut Vec<u64>, piece: &Segment, places: usize, least: u32, copies: u32) -> Segment
    requires can { CanCopy rows.old.items piece.now places copies }
    requires some { copies ≡ copies_of least None }
    ensures count { length rows.new.items ≡ length rows.old.items }
    ensures start { result.start ≡ piece.now.start }
    ensures below { SameBelow rows.old.items rows.new.items piece.now.start }
    ensures stands { (classes : List kind.Class) (a : Automaton) → places ≡ length a.places
        → StandCopies rows.old.items classes piece.now copies a
        → IsSegmentOf rows.new.items classes result (repeat_places least None a) }
{
    let last = piece.moved_up((copies - 1) as usize * places);
    let end = last.looped(rows, may_stop(least, piece.holds_empty));
    joined(rows, piece, places, least, copies - 1, end)
}

/// The piece, which stands last, as often as the repeat says: its copies one behind the other.
pub fn repeated(
    rows: &mut Vec<u64>,
    classes: &mut Vec<Class>,
    piece: &Segment,
    places: usize,
    least: u32,
    most: Option<u32>,
) -> Result<Segment, OutOfMemory>
    requires last { IsLastPiece rows.old.items classes.old.items piece.now places }
    requires copies { 0 < copies_of least most }
    requires few { piece.now.start + copies_of least most * places ≤ 63 }
    ensures places { IfOk result (λ whole. AreRepeated rows.old.items rows.new.items
        classes.old.items classes.new.items piece.now whole (copies_of least most * places)) }
    ensures stands { IfOk result (λ whole. (a : Automaton) → places ≡ length a.places
        → IsSegmentOf rows.old.items classes.old.items piece.now a
        → IsSegmentOf rows.new.items classes.new.items whole (repeat_places least most a)) }
{
    let copies = copies_of(least, most);
    grow(rows, classes, places, (copies - 1) as usize * places)?;
    match most {
        Some(_) => Ok(counted(rows, piece, places, least, copies)),
        None => Ok(endless(rows, piece, places, least, copies)),
    }
}
