ghost use Rattle.std.specs.Prelude.{◌≡◌, ◌==◌, ◌||◌, ◌<◌, ◌≤◌, ◌+◌, ◌-◌, ◌∷◌, [], ℕ, MatchOption};
ghost use Rattle.pattern_syntax.specs.ByteSet.{has_byte, bytes_from, bytes_with, only_of};
ghost use Rattle.pattern_syntax.specs.ByteSet.{is_none_of, no_bytes};
ghost use Rattle.pattern_syntax.specs.Classes.{is_between, either, all_but};

/// A set of bytes, as four words of 64 bits: byte b is bit b % 64 of word b / 64.
#[derive(Clone, Copy, Debug, PartialEq, Eq)]
pub struct ByteSet {
    pub words: [u64; 4],
}

impl ByteSet {
    /// No byte.
    pub fn empty() -> ByteSet
        ensures { has_byte result ≡ no_bytes }
    {
        ByteSet { words: [0; 4] }
    }

    /// Whether the byte is in the set.
    pub fn has(&self, b: u8) -> bool
        ensures { result ≡ has_byte self.now b }
    {
        let word = self.words[usize::from(b / 64)];
        word >> (b % 64) & 1 == 1
    }

    /// The set with a byte added.
    pub fn with(&self, b: u8) -> ByteSet
        ensures { (c : ℕ) → has_byte result c ≡ (has_byte self.now c || (c == b)) }
    {
        let mut words = self.words;
        let i = usize::from(b / 64);
        words[i] = words[i] | 1 << (b % 64);
        ByteSet { words }
    }

    /// The set with the bytes from `low` to `high` added, `high` included.
    pub fn with_range(&self, low: u8, high: u8) -> ByteSet
        ensures { (c : ℕ) → has_byte result c ≡ (has_byte self.now c || is_between low high c) }
    {
        let mut set = *self;
        for b in u16::from(low)..u16::from(high) + 1 {
            set = set.with(b as u8);
        }
        set
    }

    /// The bytes of either set.
    pub fn union(&self, other: &ByteSet) -> ByteSet
        ensures { has_byte result ≡ either (has_byte self.now) (has_byte other.now) }
    {
        let [a, b, c, d] = self.words;
        let [e, f, g, h] = other.words;
        ByteSet {
            words: [a | e, b | f, c | g, d | h],
        }
    }

    /// The bytes from 0x01 to 0xff that the set lacks.
    pub fn complement(&self) -> ByteSet
        ensures { has_byte result ≡ all_but (has_byte self.now) }
    {
        let [a, b, c, d] = self.words;
        ByteSet {
            words: [!a & (u64::MAX - 1), !b, !c, !d],
        }
    }

    /// The least byte of the set from a byte on.
    fn first_from(&self, low: u16) -> Option<u8>
        requires { low ≤ 256 }
        ensures { MatchOption result (bytes_from (has_byte self.now) low ≡ [])
            (λ b. bytes_from (has_byte self.now) low ≡ b ∷ bytes_from (has_byte self.now) (b + 1)) }
    {
        for b in low..256 {
            if self.has(b as u8) {
                return Some(b as u8);
            }
        }
        None
    }

    /// The byte of a set that has exactly one of 0x01 to 0xff.
    pub fn only(&self) -> Option<u8>
        ensures { result ≡ only_of (bytes_with (has_byte self.now)) }
    {
        let b = self.first_from(1)?;
        match self.first_from(u16::from(b) + 1) {
            None => Some(b),
            Some(_) => None,
        }
    }

    /// Whether the set has none of the bytes 0x01 to 0xff.
    pub fn is_empty(&self) -> bool
        ensures { result ≡ is_none_of (bytes_with (has_byte self.now)) }
    {
        self.first_from(1).is_none()
    }
}
