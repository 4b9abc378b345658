ghost use Rattle.std.specs.Prelude.{◌≡◌, ◌+◌, ◌-◌, ◌*◌, ◌≤◌, ◌<◌, ◌==◌, ◌&&◌, ◌||◌, ℕ, true, false};
ghost use Rattle.std.specs.Prelude.{length};
ghost use Rattle.pattern_syntax.specs.Reading.{factor, positions};
ghost use Rattle.pattern_syntax.specs.Tree.{Both, Either};
ghost use Rattle.pattern_match.specs.Passes.{copies_end, copies_move, ends_marked, has_no_most};
ghost use Rattle.pattern_match.specs.Passes.{copies_needed, holds_nothing, is_barred, moves_to};
ghost use Rattle.pattern_match.specs.States.{bit};
ghost use Rattle.pattern_match.specs.declared.operation.TheConstants.{MOST_PLACES};

use crate::bits::{is_marked, next_marked, set_if};
use crate::copying::copies_of;
use crate::entry::EnteredPlaces;
use crate::part::{PartKind, PatternPart};

/// Marks from which one goes on, and which places may be entered.
#[derive(Clone, Copy)]
pub struct PassInput<'a> {
    pub from: &'a [u64],
    pub entry: EnteredPlaces,
}

/// Where one comes to a part: the number of its first place, and whether it is entered.
#[derive(Clone, Copy)]
pub struct PartStart {
    pub start: usize,
    pub entered: bool,
}

// The copies of a repeat: the number of their first place, how many places each has, how many there
// are, how many of them have to be gone through, and whether the last may be gone through again.
#[derive(Clone, Copy)]
struct Copies {
    start: usize,
    size: usize,
    times: usize,
    needed: usize,
    is_endless: bool,
}

// The copies of a piece of so many places from one on.
fn copies_from(least: u32, most: Option<u32>, size: usize, start: usize) -> Copies
    ensures start { result.start ≡ start }
    ensures size { result.size ≡ size }
    ensures times { result.times ≡ factor least most }
    ensures needed { result.needed ≡ copies_needed least most }
    ensures endless { result.is_endless ≡ has_no_most most }
{
    let times = copies_of(least, most) as usize;
    match most {
        Some(_) => Copies {
            start,
            size,
            times,
            needed: least as usize,
            is_endless: false,
        },
        None => Copies {
            start,
            size,
            times,
            needed: times,
            is_endless: true,
        },
    }
}

// The copy to go over next: this one where it is entered, or else the first with a marked place;
// the number of copies where there is none.
fn next_copy(from: &[u64], copies: &Copies, copy: usize, entered: bool) -> usize
    requires some { 0 < copies.now.size }
    requires within { copy ≤ copies.now.times }
    requires few { copies.now.start + copies.now.size * copies.now.times ≤ MOST_PLACES }
    ensures least { copy ≤ result }
    ensures most { result ≤ copies.now.times }
    ensures here { entered ≡ true → result ≡ copy }
    ensures none { entered ≡ false → (k : ℕ) → copies.now.start + copies.now.size * copy ≤ k
        → k < copies.now.start + copies.now.size * result → bit from.now k ≡ false }
    ensures found { entered ≡ false → result < copies.now.times → (k : ℕ)
        × (copies.now.start + copies.now.size * result ≤ k)
        × (k < copies.now.start + copies.now.size * (result + 1)) × (bit from.now k ≡ true) }
{
    if entered {
        return copy;
    }
    let end = copies.start + copies.size * copies.times;
    (next_marked(from, copies.start + copies.size * copy, end) - copies.start) / copies.size
}

// Whether the whole ends where this copy does: no other is needed, or each may hold nothing.
fn is_end(copies: &Copies, copy: usize, holds_nothing: bool) -> bool
    requires { copy < copies.now.times }
    ensures { result ≡ ((copies.now.needed - (copy + 1) == 0) || holds_nothing) }
{
    copies.needed <= copy + 1 || holds_nothing
}

// Goes over one part and then over another.
#[cycle(pass)]
fn pass_both(
    step: &PassInput<'_>,
    to: &mut [u64],
    first: &PatternPart<'_>,
    second: &PatternPart<'_>,
    turn: PartStart,
) -> bool
    requires few { turn.start + (positions first.now + positions second.now) ≤ MOST_PLACES }
    ensures bits { (q : ℕ) → q < 64 * length to.old
        → bit to.new q ≡ (bit to.old q || moves_to step.now.entry
        (bit step.now.from.now) q (Both first.now second.now) turn.entered turn.start) }
    ensures ends { result
        ≡ ends_marked (bit step.now.from.now) (Both first.now second.now) turn.start }
    ensures words { length to.new ≡ length to.old }
{
    let first_ends = pass(step, to, first, turn);
    let then = PartStart {
        start: turn.start + first.places(),
        entered: turn.entered && first.holds_nothing() || first_ends,
    };
    let second_ends = pass(step, to, second, then);
    second_ends || second.holds_nothing() && first_ends
}

// Goes over both sides of a choice.
#[cycle(pass)]
fn pass_either(
    step: &PassInput<'_>,
    to: &mut [u64],
    left: &PatternPart<'_>,
    right: &PatternPart<'_>,
    turn: PartStart,
) -> bool
    requires few { turn.start + (positions left.now + positions right.now) ≤ MOST_PLACES }
    ensures bits { (q : ℕ) → q < 64 * length to.old
        → bit to.new q ≡ (bit to.old q || moves_to step.now.entry
        (bit step.now.from.now) q (Either left.now right.now) turn.entered turn.start) }
    ensures ends { result
        ≡ ends_marked (bit step.now.from.now) (Either left.now right.now) turn.start }
    ensures words { length to.new ≡ length to.old }
{
    let left_ends = pass(step, to, left, turn);
    let beside = PartStart {
        start: turn.start + left.places(),
        entered: turn.entered,
    };
    let right_ends = pass(step, to, right, beside);
    left_ends || right_ends
}

// Whether a copy of a piece is entered: by what stands before it, or if it is the last of an
// endless repeat, where a marked place ends it. Nothing is said where no place may be entered. This
// is found before the copy is gone over: to go over it once more would cost as much again for each
// repeat in a repeat.
#[cycle(pass)]
fn is_entered(step: &PassInput<'_>, piece: &PatternPart<'_>, turn: PartStart, is_last: bool) -> bool
    requires { turn.start + positions piece.now ≤ MOST_PLACES }
    ensures { is_barred step.now.entry ≡ false → result ≡ (turn.entered
        || (is_last && ends_marked (bit step.now.from.now) piece.now turn.start)) }
{
    if turn.entered {
        return true;
    }
    if !is_last {
        return false;
    }
    if step.entry.is_barred() {
        return false;
    }
    let ending = PassInput {
        from: step.from,
        entry: EnteredPlaces::Barred,
    };
    pass(&ending, &mut [], piece, turn)
}

// Goes over a copy of a piece, which follows itself if it is the last of an endless repeat.
#[cycle(pass)]
fn pass_copy(
    step: &PassInput<'_>,
    to: &mut [u64],
    piece: &PatternPart<'_>,
    turn: PartStart,
    is_last: bool,
) -> bool
    requires few { turn.start + positions piece.now ≤ MOST_PLACES }
    ensures bits { (q : ℕ) → q < 64 * length to.old
        → bit to.new q ≡ (bit to.old q || moves_to step.now.entry
        (bit step.now.from.now) q piece.now
        (turn.entered || (is_last && ends_marked (bit step.now.from.now) piece.now turn.start))
        turn.start) }
    ensures ends { result ≡ ends_marked (bit step.now.from.now) piece.now turn.start }
    ensures words { length to.new ≡ length to.old }
{
    let again = PartStart {
        start: turn.start,
        entered: is_entered(step, piece, turn, is_last),
    };
    pass(step, to, piece, again)
}

// Goes over the copies of a piece.
#[cycle(pass)]
fn pass_copies(
    step: &PassInput<'_>,
    to: &mut [u64],
    piece: &PatternPart<'_>,
    copies: &Copies,
    mut entered: bool,
) -> bool
    requires size { copies.now.size ≡ positions piece.now }
    requires some { 0 < copies.now.size }
    requires few { copies.now.start + copies.now.size * copies.now.times ≤ MOST_PLACES }
    ensures bits { (q : ℕ) → q < 64 * length to.old
        → bit to.new q ≡ (bit to.old q || copies_move
        (λ from. ends_marked (bit step.now.from.now) piece.now from)
        (λ enters from. moves_to step.now.entry (bit step.now.from.now) q piece.now enters from)
        copies.now.size copies.now.is_endless copies.now.times entered copies.now.start) }
    ensures ends { result ≡ copies_end
        (λ from. ends_marked (bit step.now.from.now) piece.now from) copies.now.size
        (holds_nothing piece.now) copies.now.needed copies.now.times copies.now.start }
    ensures words { length to.new ≡ length to.old }
{
    let holds_nothing = piece.holds_nothing();
    let mut ends = false;
    let mut copy = next_copy(step.from, copies, 0, entered);
    'copies: while copy < copies.times {
        let turn = PartStart {
            start: copies.start + copies.size * copy,
            entered,
        };
        let is_last = copies.is_endless && copy + 1 == copies.times;
        entered = pass_copy(step, to, piece, turn, is_last);
        ends |= entered && is_end(copies, copy, holds_nothing);
        copy = next_copy(step.from, copies, copy + 1, entered);
    }
    ends
}

/// Goes over a part: marks the places that follow the marked ones in it, or are first ones of it
/// where it is entered, if they may be entered themselves and there is a bit for them. Gives
/// whether a marked place ends it.
#[cycle(pass)]
pub fn pass(step: &PassInput<'_>, to: &mut [u64], part: &PatternPart<'_>, turn: PartStart) -> bool
    requires few { turn.start + positions part.now ≤ MOST_PLACES }
    ensures bits { (q : ℕ) → q < 64 * length to.old
        → bit to.new q ≡ (bit to.old q || moves_to step.now.entry
        (bit step.now.from.now) q part.now turn.entered turn.start) }
    ensures ends { result ≡ ends_marked (bit step.now.from.now) part.now turn.start }
    ensures words { length to.new ≡ length to.old }
{
    let places = part.places();
    // A repeat of it may have very many copies.
    if places == 0 {
        return false;
    }
    let end = turn.start + places;
    if !turn.entered && next_marked(step.from, turn.start, end) == end {
        return false;
    }
    match part.shape() {
        PartKind::Set(class) => {
            set_if(to, turn.start, turn.entered && step.entry.admits(&class));
            is_marked(step.from, turn.start)
        }
        PartKind::Nothing => false,
        PartKind::Both(first, second) => pass_both(step, to, &first, &second, turn),
        PartKind::Either(left, right) => pass_either(step, to, &left, &right, turn),
        PartKind::Repeat { least, most, piece } => {
            let copies = copies_from(least, most, piece.places(), turn.start);
            pass_copies(step, to, &piece, &copies, turn.entered)
        }
    }
}
