ghost use Rattle.std.specs.Prelude.{◌≡◌, ◌<◌, ◌↔◌, ℕ, IsTrue, true, false};
ghost use Rattle.pattern_syntax.specs.ByteSet.{has_byte};
ghost use Rattle.pattern_match.specs.Class.{HasEachByte, class_bytes, takes};
ghost use Rattle.pattern_match.specs.Residuals.{is_some_list};

use pattern_syntax::ByteSet;

/// The bytes that one position of a pattern takes. Of a set, the byte 0 is left out: no text has
/// it.
#[derive(Clone, Copy)]
pub enum Class {
    Byte(u8),
    Set(ByteSet),
}

impl Class {
    /// Whether the class has the byte.
    pub fn has(&self, b: u8) -> bool
        ensures { result ≡ takes self.now b }
    {
        match self {
            Class::Byte(c) => *c == b,
            Class::Set(set) => b != 0 && set.has(b),
        }
    }

    /// Whether the class has a byte that texts have.
    pub fn is_some(&self) -> bool
        ensures { result ≡ is_some_list (class_bytes self.now) }
    {
        match self {
            Class::Byte(_) => true,
            Class::Set(set) => has_text_byte(set),
        }
    }

    /// Whether the class has every byte that texts have.
    pub fn has_each(&self) -> bool
        ensures { IsTrue result ↔ HasEachByte (takes self.now) }
    {
        match self {
            Class::Byte(_) => false,
            Class::Set(set) => has_each_text_byte(set),
        }
    }
}

// Whether the set has a byte other than 0.
fn has_text_byte(set: &ByteSet) -> bool
    ensures found { result ≡ true → (b : ℕ) × (0 < b) × (b < 256) × (has_byte set.now b ≡ true) }
    ensures none { result ≡ false → (b : ℕ) → 0 < b → b < 256 → has_byte set.now b ≡ false }
{
    for b in 1..256u16 {
        if set.has(b as u8) {
            return true;
        }
    }
    false
}

// Whether the set has every byte other than 0. Whether it has that one is left out of the first
// word.
fn has_each_text_byte(set: &ByteSet) -> bool
    ensures { IsTrue result ↔ HasEachByte (has_byte set.now) }
{
    let [first, second, third, fourth] = set.words;
    (first | 1) & second & third & fourth == u64::MAX
}
