ghost use Rattle.std.specs.Prelude.{◌≡◌, ◌+◌, ◌*◌, ◌<◌, ◌≤◌, ◌↔◌, IsTrue, true, ℕ, length};
ghost use Rattle.pattern_match.specs.Loops.{AreSteady, IsSteady};
ghost use Rattle.pattern_match.specs.States.{bit};

use crate::bits::is_row;
use crate::class::Class;
use crate::taking::has_each_at;

// Whether the states that follow one are those that are marked, and it has every byte but 0.
fn is_steady(marks: &[u64], follow: &[u64], classes: &[Class], state: usize) -> bool
    requires { state * length marks.now + length marks.now ≤ length follow.now }
    ensures { IsTrue result ↔ IsSteady marks.now follow.now classes.now state }
{
    if !is_row(marks, follow, state * marks.len()) {
        return false;
    }
    has_each_at(classes, state)
}

// Whether each state in word i of the marks is steady.
fn are_steady_in(marks: &[u64], follow: &[u64], classes: &[Class], i: usize) -> bool
    requires within { i < length marks.now }
    requires rows { (p : ℕ) → bit marks.now p ≡ true
        → p * length marks.now + length marks.now ≤ length follow.now }
    ensures { IsTrue result
        ↔ ((j : ℕ) → j < 64 → bit marks.now (64 * i + j) ≡ true
        → IsSteady marks.now follow.now classes.now (64 * i + j)) }
{
    let mut left = marks[i];
    'states: while left != 0 {
        let state = 64 * i + left.trailing_zeros() as usize;
        if !is_steady(marks, follow, classes, state) {
            return false;
        }
        left &= left - 1;
    }
    true
}

/// Whether the states that follow each marked one are those that are marked, and each has every
/// byte but 0.
pub fn are_steady(marks: &[u64], follow: &[u64], classes: &[Class]) -> bool
    requires { (p : ℕ) → bit marks.now p ≡ true
        → p * length marks.now + length marks.now ≤ length follow.now }
    ensures { IsTrue result ↔ AreSteady marks.now follow.now classes.now }
{
    for i in 0..marks.len() {
        if !are_steady_in(marks, follow, classes, i) {
            return false;
        }
    }
    true
}
