ghost use Rattle.std.specs.Prelude.{◌≡◌, ◌↔◌, true, false, ◌+◌, ◌*◌, ◌/◌, ◌<◌, ◌≤◌, ◌==◌, ◌||◌};
ghost use Rattle.std.specs.Prelude.{◌&&◌, ℕ, IfOk, IsTrue, length, replicate, slice_index};
ghost use Rattle.pattern_match.specs.Loops.{IsRow};
ghost use Rattle.pattern_match.specs.States.{bit};
ghost use Rattle.std.specs.Int.{bit_at};
ghost use Rattle.pattern_match.specs.Tables.{any_under, any_bit};

use label_base::OutOfMemory;
use std::alloc::Global;

/// So many words without a bit.
pub fn no_bits(alloc: Global, words: usize) -> Result<Vec<u64>, OutOfMemory>
    ensures { IfOk result (λ bits. bits.items ≡ replicate words 0) }
{
    Ok(vec![in alloc; 0u64; words]?)
}

/// Whether bit k of the row that starts at a word is set.
pub fn has_bit(words: &[u64], start: usize, k: usize) -> bool
    requires { start + k / 64 < length words.now }
    ensures { result ≡ bit words.now (64 * start + k) }
{
    words[start + k / 64] >> (k % 64) & 1 == 1
}

/// Sets bit k of the row that starts at a word.
pub fn set_bit(words: &mut [u64], start: usize, k: usize)
    requires { start + k / 64 < length words.old }
    ensures { (j : ℕ) → bit words.new j ≡ (bit words.old j || (j == 64 * start + k)) }
{
    words[start + k / 64] |= 1 << (k % 64);
}

/// Adds the bits of the row that starts at a word.
pub fn add_row(to: &mut [u64], table: &[u64], start: usize)
    requires { start + length to.old ≤ length table.now }
    ensures bits { (k : ℕ) → k < 64 * length to.old
        → bit to.new k ≡ (bit to.old k || bit table.now (64 * start + k)) }
    ensures words { length to.new ≡ length to.old }
{
    for i in 0..to.len() {
        to[i] |= table[start + i];
    }
}

/// The word, with bit k set too if it is wanted.
pub fn with_bit_if(word: u64, k: usize, is_wanted: bool) -> u64
    requires { k < 64 }
    ensures { (j : ℕ) → j < 64
        → (bit_at result j == 1) ≡ ((bit_at word j == 1) || (is_wanted && (j == k))) }
{
    if is_wanted {
        return word | 1 << k;
    }
    word
}

/// Takes all bits out.
pub fn clear(words: &mut [u64])
    ensures bits { (k : ℕ) → k < 64 * length words.old → bit words.new k ≡ false }
    ensures words { length words.new ≡ length words.old }
{
    for i in 0..words.len() {
        words[i] = 0;
    }
}

// Adds the rows of the bits that are set in word i of the marks.
fn add_marked(to: &mut [u64], word: u64, i: usize, table: &[u64])
    requires word { i < length to.old }
    requires rows { (j : ℕ) → j < 64 → bit_at word j ≡ 1
        → (64 * i + j) * length to.old + length to.old ≤ length table.now }
    ensures bits { (k : ℕ) → k < 64 * length to.old
        → bit to.new k
        ≡ (bit to.old k
        || any_bit (λ j. (bit_at word j == 1)
        && bit table.now (64 * ((64 * i + j) * length to.old) + k))) }
    ensures words { length to.new ≡ length to.old }
{
    let mut left = word;
    'marks: while left != 0 {
        let row = 64 * i + left.trailing_zeros() as usize;
        add_row(to, table, row * to.len());
        left &= left - 1;
    }
}

/// The bits of all rows whose number is marked, where the marks and the rows are one word each.
pub fn gathered(marks: u64, table: &[u64]) -> u64
    requires { (j : ℕ) → j < 64 → bit_at marks j ≡ 1 → j < length table.now }
    ensures { (k : ℕ)
        → (bit_at result k == 1)
        ≡ any_bit (λ j. (bit_at marks j == 1) && (bit_at (slice_index table.now j) k == 1)) }
{
    let mut reached = 0;
    let mut left = marks;
    'marks: while left != 0 {
        reached |= table[left.trailing_zeros() as usize];
        left &= left - 1;
    }
    reached
}

/// Makes the bits those of all rows whose number is marked.
pub fn gather(to: &mut [u64], marks: &[u64], table: &[u64])
    requires words { length marks.now ≡ length to.old }
    requires rows { (p : ℕ) → bit marks.now p ≡ true
        → p * length to.old + length to.old ≤ length table.now }
    ensures bits { (k : ℕ) → k < 64 * length to.old
        → bit to.new k
        ≡ any_under (λ p. bit marks.now p
        && bit table.now (64 * (p * length to.old) + k)) (64 * length to.old) }
    ensures words { length to.new ≡ length to.old }
{
    clear(to);
    'words: for i in 0..marks.len() {
        add_marked(to, marks[i], i, table);
    }
}

/// Sets bit k if it is wanted, and among the words.
pub fn set_if(words: &mut [u64], k: usize, is_wanted: bool)
    ensures bits { (j : ℕ) → j < 64 * length words.old
        → bit words.new j ≡ (bit words.old j || (is_wanted && (k == j))) }
    ensures words { length words.new ≡ length words.old }
{
    if is_wanted {
        if k / 64 < words.len() {
            set_bit(words, 0, k);
        }
    }
}

/// Whether bit k is set. One past the words isn't.
pub fn is_marked(words: &[u64], k: usize) -> bool
    ensures { result ≡ bit words.now k }
{
    if k / 64 < words.len() {
        return has_bit(words, 0, k);
    }
    false
}

/// The number of the first bit that is set from a number on, before an end; the end where there is
/// none.
pub fn next_marked(words: &[u64], from: usize, end: usize) -> usize
    requires { from ≤ end }
    ensures least { from ≤ result }
    ensures most { result ≤ end }
    ensures none { (k : ℕ) → from ≤ k → k < result → bit words.now k ≡ false }
    ensures marked { result < end → bit words.now result ≡ true }
{
    let mut skipped = from % 64;
    'words: for i in from / 64..words.len().min(end / 64 + 1) {
        let left = words[i] >> skipped;
        if left != 0 {
            return end.min(64 * i + skipped + left.trailing_zeros() as usize);
        }
        skipped = 0;
    }
    end
}

/// Whether some bit is set in both.
pub fn have_common(words: &[u64], others: &[u64]) -> bool
    requires { length words.now ≡ length others.now }
    ensures onto { (k : ℕ) → bit words.now k ≡ true → bit others.now k ≡ true → result ≡ true }
    ensures from { result ≡ true → (k : ℕ) × (bit words.now k ≡ true) × (bit others.now k ≡ true) }
{
    for i in 0..words.len() {
        if words[i] & others[i] != 0 {
            return true;
        }
    }
    false
}

/// Whether some bit is set.
pub fn have_any(words: &[u64]) -> bool
    ensures onto { (k : ℕ) → bit words.now k ≡ true → result ≡ true }
    ensures from { result ≡ true → (k : ℕ) × (bit words.now k ≡ true) }
{
    for i in 0..words.len() {
        if words[i] != 0 {
            return true;
        }
    }
    false
}

/// Whether the row that starts at a word has the bits of these words.
pub fn is_row(words: &[u64], table: &[u64], start: usize) -> bool
    requires { start + length words.now ≤ length table.now }
    ensures { IsTrue result ↔ IsRow words.now table.now start }
{
    for i in 0..words.len() {
        if table[start + i] != words[i] {
            return false;
        }
    }
    true
}
