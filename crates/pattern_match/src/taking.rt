ghost use Rattle.std.specs.Prelude.{◌≡◌, ◌+◌, ◌*◌, ◌<◌, ◌^◌, ◌==◌, ◌&&◌, ◌↔◌, IsTrue, ℕ, length};
ghost use Rattle.std.specs.Int.{bit_at};
ghost use Rattle.pattern_match.specs.Class.{HasEachByte, takes_at};
ghost use Rattle.pattern_match.specs.States.{bit};

use crate::bits::with_bit_if;
use crate::class::Class;

// Whether the class of an index has the byte.
fn has_at(classes: &[Class], i: usize, b: u8) -> bool
    ensures { result ≡ takes_at classes.now i b }
{
    match classes.get(i) {
        Some(class) => class.has(b),
        None => false,
    }
}

/// Whether the class of an index has every byte that texts have.
pub fn has_each_at(classes: &[Class], i: usize) -> bool
    ensures { IsTrue result ↔ HasEachByte (takes_at classes.now i) }
{
    match classes.get(i) {
        Some(class) => class.has_each(),
        None => false,
    }
}

/// The bits of a word whose classes have a byte, the classes counted from `start` on.
pub fn taking(word: u64, start: usize, classes: &[Class], b: u8) -> u64
    requires { start + 64 < 2 ^ 64 }
    ensures { (k : ℕ) → k < 64
        → (bit_at result k == 1) ≡ ((bit_at word k == 1) && takes_at classes.now (start + k) b) }
{
    let mut kept = 0;
    let mut left = word;
    'bits: while left != 0 {
        let k = left.trailing_zeros() as usize;
        kept = with_bit_if(kept, k, has_at(classes, start + k, b));
        left &= left - 1;
    }
    kept
}

/// Makes the bits those of another list whose classes have a byte.
pub fn keep_taking(to: &mut [u64], from: &[u64], classes: &[Class], b: u8)
    requires words { length from.now ≡ length to.old }
    requires room { 64 * length to.old < length classes.now + 64 }
    ensures bits { (k : ℕ) → k < 64 * length to.old
        → bit to.new k ≡ (bit from.now k && takes_at classes.now k b) }
    ensures words { length to.new ≡ length to.old }
{
    'words: for i in 0..to.len() {
        to[i] = taking(from[i], 64 * i, classes, b);
    }
}
