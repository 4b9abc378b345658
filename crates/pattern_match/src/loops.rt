ghost use Rattle.std.specs.Prelude.{◌≡◌, ◌+◌, ◌*◌, ◌<◌, ◌≤◌, ◌↔◌, IsTrue, length};
ghost use Rattle.pattern_match.specs.Loops.{EndsBeforeLoop, HasLoop, HaveRows, IsLoop, IsLoopIn};
ghost use Rattle.pattern_match.specs.Loops.{LeadsToLoop, SomeInWord};

use crate::bits::has_bit;
use crate::class::Class;
use crate::taking::has_each_at;

// Whether a state follows itself by every byte but 0.
fn is_loop(follow: &[u64], classes: &[Class], width: usize, state: usize) -> bool
    requires bound { state < 64 * width }
    requires row { state * width + width ≤ length follow.now }
    ensures { IsTrue result ↔ IsLoop width follow.now classes.now state }
{
    if !has_bit(follow, state * width, state) {
        return false;
    }
    has_each_at(classes, state)
}

// Whether word i of the row that starts at a word has a loop behind which a text may end.
fn leads_to_loop_in(
    accept: &[u64],
    follow: &[u64],
    classes: &[Class],
    start: usize,
    i: usize,
) -> bool
    requires within { i < length accept.now }
    requires row { start + length accept.now ≤ length follow.now }
    requires rows { HaveRows accept.now follow.now }
    ensures { IsTrue result
        ↔ SomeInWord (IsLoopIn accept.now follow.now classes.now start) i }
{
    let mut left = follow[start + i] & accept[i];
    'states: while left != 0 {
        let state = 64 * i + left.trailing_zeros() as usize;
        if is_loop(follow, classes, accept.len(), state) {
            return true;
        }
        left &= left - 1;
    }
    false
}

// Whether the row that starts at a word has a loop behind which a text may end.
fn leads_to_loop(accept: &[u64], follow: &[u64], classes: &[Class], start: usize) -> bool
    requires row { start + length accept.now ≤ length follow.now }
    requires rows { HaveRows accept.now follow.now }
    ensures { IsTrue result ↔ LeadsToLoop accept.now follow.now classes.now start }
{
    for i in 0..accept.len() {
        if leads_to_loop_in(accept, follow, classes, start, i) {
            return true;
        }
    }
    false
}

// Whether word i of the marks has a state behind which a text may end and that leads to a loop.
fn has_loop_in(marks: &[u64], accept: &[u64], follow: &[u64], classes: &[Class], i: usize) -> bool
    requires within { i < length marks.now }
    requires accept { length accept.now ≡ length marks.now }
    requires rows { HaveRows accept.now follow.now }
    ensures { IsTrue result
        ↔ SomeInWord (EndsBeforeLoop marks.now accept.now follow.now classes.now) i }
{
    let mut left = marks[i] & accept[i];
    'states: while left != 0 {
        let state = 64 * i + left.trailing_zeros() as usize;
        if leads_to_loop(accept, follow, classes, state * accept.len()) {
            return true;
        }
        left &= left - 1;
    }
    false
}

/// Whether behind some marked state a text may end, and it leads to a loop, behind which one may
/// end too. A loop leads to itself.
pub fn has_loop(marks: &[u64], accept: &[u64], follow: &[u64], classes: &[Class]) -> bool
    requires accept { length accept.now ≡ length marks.now }
    requires rows { HaveRows accept.now follow.now }
    ensures { IsTrue result ↔ HasLoop marks.now accept.now follow.now classes.now }
{
    for i in 0..marks.len() {
        if has_loop_in(marks, accept, follow, classes, i) {
            return true;
        }
    }
    false
}
