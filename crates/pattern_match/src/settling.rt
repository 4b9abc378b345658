ghost use Rattle.std.specs.Prelude.{◌≡◌, ◌&&◌, ◌==◌, ◌*◌, ◌<◌, ◌↔◌, IsTrue, ℕ, length, slice_get};
ghost use Rattle.std.specs.Prelude.{true};
ghost use Rattle.pattern_match.specs.LoopTests.{ends_before, follows_end, is_loop_behind};
ghost use Rattle.pattern_match.specs.LoopTests.{is_onward};
ghost use Rattle.pattern_match.specs.Over.{HaveBits, operation_places, place_admitted};
ghost use Rattle.pattern_match.specs.Settled.{IsSteadyPlace, LeadsOnward};
ghost use Rattle.pattern_match.specs.States.{bit};
ghost use Rattle.pattern_match.specs.Tables.{ends, leads};

use crate::bits::{clear, has_bit, is_row, next_marked, set_bit};
use crate::entry::EnteredPlaces;
use crate::operation::Operation;
use crate::over::{ends_over, go_over, place_count};

// Marks one place alone.
fn mark_alone(alone: &mut [u64], p: usize)
    requires { p < 64 * length alone.old }
    ensures bits { (q : ℕ) → bit alone.new q ≡ (q == p) }
    ensures words { length alone.new ≡ length alone.old }
{
    clear(alone);
    set_bit(alone, 0, p);
}

// Makes the row the marks of the places that follow one and may be entered.
fn follow_alone(
    operations: &[Operation],
    entry: EnteredPlaces,
    p: usize,
    alone: &mut [u64],
    row: &mut [u64],
)
    requires bits { HaveBits operations.now (length alone.old) }
    requires row { length row.old ≡ length alone.old }
    requires within { p < 64 * length alone.old }
    ensures bits { (q : ℕ) → bit row.new q
        ≡ (leads (slice_get (operation_places operations.now) p) q
        && place_admitted entry (slice_get (operation_places operations.now) q)) }
    ensures alone { length alone.new ≡ length alone.old }
    ensures row { length row.new ≡ length row.old }
{
    mark_alone(alone, p);
    go_over(operations, entry, alone, row);
}

// Whether a text may end behind the place.
fn is_end(operations: &[Operation], p: usize, alone: &mut [u64]) -> bool
    requires bits { HaveBits operations.now (length alone.old) }
    requires within { p < 64 * length alone.old }
    ensures value { result ≡ ends (slice_get (operation_places operations.now) p) }
    ensures alone { length alone.new ≡ length alone.old }
{
    mark_alone(alone, p);
    ends_over(operations, alone)
}

// Whether a text may end behind place p, which leads to place q.
fn ends_before(
    operations: &[Operation],
    p: usize,
    q: usize,
    alone: &mut [u64],
    row: &mut [u64],
) -> bool
    requires bits { HaveBits operations.now (length alone.old) }
    requires row { length row.old ≡ length alone.old }
    requires from { p < 64 * length alone.old }
    requires to { q < 64 * length alone.old }
    ensures value { result ≡ ends_before (operation_places operations.now) q p }
    ensures alone { length alone.new ≡ length alone.old }
    ensures row { length row.new ≡ length row.old }
{
    if !is_end(operations, p, alone) {
        return false;
    }
    follow_alone(operations, EnteredPlaces::Free, p, alone, row);
    has_bit(row, 0, q)
}

// Whether a text may end behind the place, and every byte that texts have leads from it to itself.
fn is_onward(operations: &[Operation], q: usize, alone: &mut [u64], row: &mut [u64]) -> bool
    requires bits { HaveBits operations.now (length alone.old) }
    requires row { length row.old ≡ length alone.old }
    requires within { q < 64 * length alone.old }
    ensures value { result ≡ is_onward (operation_places operations.now) q }
    ensures alone { length alone.new ≡ length alone.old }
    ensures row { length row.new ≡ length row.old }
{
    if !is_end(operations, q, alone) {
        return false;
    }
    follow_alone(operations, EnteredPlaces::ByEach, q, alone, row);
    has_bit(row, 0, q)
}

// Whether a marked place behind which a text may end leads to this one.
fn follows_end(
    operations: &[Operation],
    marks: &[u64],
    q: usize,
    alone: &mut [u64],
    row: &mut [u64],
) -> bool
    requires bits { HaveBits operations.now (length marks.now) }
    requires alone { length alone.old ≡ length marks.now }
    requires row { length row.old ≡ length marks.now }
    requires within { q < 64 * length marks.now }
    ensures value { result ≡ follows_end (operation_places operations.now) marks.now q }
    ensures alone { length alone.new ≡ length alone.old }
    ensures row { length row.new ≡ length row.old }
{
    let count = place_count(operations);
    let mut p = next_marked(marks, 0, count);
    'places: while p < count {
        if ends_before(operations, p, q, alone, row) {
            return true;
        }
        p = next_marked(marks, p + 1, count);
    }
    false
}

// Whether the place is a loop, and a marked place behind which a text may end leads to it.
fn is_loop_behind(
    operations: &[Operation],
    marks: &[u64],
    q: usize,
    alone: &mut [u64],
    row: &mut [u64],
) -> bool
    requires bits { HaveBits operations.now (length marks.now) }
    requires alone { length alone.old ≡ length marks.now }
    requires row { length row.old ≡ length marks.now }
    requires within { q < 64 * length marks.now }
    ensures value { result ≡ is_loop_behind (operation_places operations.now) marks.now q }
    ensures alone { length alone.new ≡ length alone.old }
    ensures row { length row.new ≡ length row.old }
{
    if !is_onward(operations, q, alone, row) {
        return false;
    }
    follows_end(operations, marks, q, alone, row)
}

/// Whether behind some marked place a text may end, and it leads to a loop: a place that follows
/// itself by every byte that texts have, and behind which a text may end too. The other words are
/// overwritten.
pub fn has_loop_over(
    operations: &[Operation],
    marks: &[u64],
    alone: &mut [u64],
    row: &mut [u64],
    to: &mut [u64],
) -> bool
    requires bits { HaveBits operations.now (length marks.now) }
    requires alone { length alone.old ≡ length marks.now }
    requires row { length row.old ≡ length marks.now }
    requires to { length to.old ≡ length marks.now }
    ensures value { IsTrue result ↔ ((p : ℕ) × (bit marks.now p ≡ true)
        × LeadsOnward (operation_places operations.now) p) }
    ensures alone { length alone.new ≡ length alone.old }
    ensures row { length row.new ≡ length row.old }
    ensures to { length to.new ≡ length to.old }
{
    if !ends_over(operations, marks) {
        return false;
    }
    go_over(operations, EnteredPlaces::ByEach, marks, row);
    let count = place_count(operations);
    let mut q = next_marked(row, 0, count);
    'places: while q < count {
        if is_loop_behind(operations, marks, q, alone, to) {
            return true;
        }
        q = next_marked(row, q + 1, count);
    }
    false
}

// Whether the places that follow this one are those that are marked.
fn leads_to_marks(
    operations: &[Operation],
    marks: &[u64],
    p: usize,
    alone: &mut [u64],
    row: &mut [u64],
) -> bool
    requires bits { HaveBits operations.now (length marks.now) }
    requires alone { length alone.old ≡ length marks.now }
    requires row { length row.old ≡ length marks.now }
    requires within { p < 64 * length marks.now }
    ensures value { IsTrue result ↔ ((q : ℕ)
        → leads (slice_get (operation_places operations.now) p) q ≡ bit marks.now q) }
    ensures alone { length alone.new ≡ length alone.old }
    ensures row { length row.new ≡ length row.old }
{
    follow_alone(operations, EnteredPlaces::Free, p, alone, row);
    is_row(marks, row, 0)
}

/// Whether the places that follow each marked one are those that are marked, and each takes every
/// byte that texts have. The other words are overwritten.
pub fn are_steady_over(
    operations: &[Operation],
    marks: &[u64],
    alone: &mut [u64],
    row: &mut [u64],
) -> bool
    requires bits { HaveBits operations.now (length marks.now) }
    requires alone { length alone.old ≡ length marks.now }
    requires row { length row.old ≡ length marks.now }
    ensures value { IsTrue result ↔ ((p : ℕ) → bit marks.now p ≡ true
        → IsSteadyPlace (operation_places operations.now) marks.now p) }
    ensures alone { length alone.new ≡ length alone.old }
    ensures row { length row.new ≡ length row.old }
{
    go_over(operations, EnteredPlaces::ByEach, marks, row);
    if !is_row(marks, row, 0) {
        return false;
    }
    let count = place_count(operations);
    let mut p = next_marked(marks, 0, count);
    'places: while p < count {
        if !leads_to_marks(operations, marks, p, alone, row) {
            return false;
        }
        p = next_marked(marks, p + 1, count);
    }
    true
}
