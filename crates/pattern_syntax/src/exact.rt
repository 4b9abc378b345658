//! Texts that stand for themselves.
ghost use Rattle.std.specs.Prelude.{◌≡◌, ◌<◌, ◌≤◌, length, drop, take, false, true, MatchOption};
ghost use Rattle.std.specs.List.{list_all};
ghost use Rattle.pattern_syntax.specs.Exact.{is_meta, is_itself, is_exact_text};
ghost use Rattle.pattern_syntax.specs.Shape.{are_text_bytes};

// Each byte that does not stand for itself stands at its own place, and a dash at every other.
static MARKS: [u8; 256] = *b"\
    \0-------------------------------\
    ----$---()*+--.----------------?\
    ---------------------------[\\-^-\
    ---------------------------{|---\
    --------------------------------\
    --------------------------------\
    --------------------------------\
    --------------------------------";

// Whether a byte stands for itself, whatever is behind it.
fn is_itself(b: u8) -> bool
    ensures { result ≡ is_itself b }
{
    MARKS[b as usize] == b'-'
}

fn is_metacharacter(b: u8) -> bool
    ensures { result ≡ is_meta b }
{
    b == b'.'
        || b == b'^'
        || b == b'$'
        || b == b'?'
        || b == b'*'
        || b == b'+'
        || b == b'|'
        || b == b'['
        || b == b'('
        || b == b'{'
}

/// How many bytes at the beginning of a text stand for themselves.
pub(crate) fn plain_run(text: &[u8]) -> usize
    ensures within { result ≤ length text.now }
    ensures plain { list_all is_itself (take result text.now) ≡ true }
    ensures proper { are_text_bytes (take result text.now) ≡ true }
{
    let mut length = 0;
    'bytes: for byte in text {
        if !is_itself(*byte) {
            return length;
        }
        length += 1;
    }
    length
}

/// The length of the bytes that stand for themselves, or else of the byte or the escape, with which
/// a text begins, unless it is a metacharacter.
fn plain_length(text: &[u8]) -> Option<usize>
    requires { 0 < length text.now }
    ensures { MatchOption result (is_exact_text text.now ≡ false)
        (λ n. (0 < n) × (n ≤ length text.now)
        × (is_exact_text text.now ≡ is_exact_text (drop n text.now))) }
{
    let run = plain_run(text);
    if run > 0 {
        return Some(run);
    }
    match text {
        [b'\\', _, ..] => Some(2),
        [b, ..] => { if is_metacharacter(*b) { None } else { Some(1) } }
        [] => None,
    }
}

/// Whether no metacharacter of a pattern stands in the text other than directly behind a backslash
/// that escapes it.
pub fn is_exact(text: &[u8]) -> bool
    ensures { result ≡ is_exact_text text.now }
{
    let mut at = 0;
    'bytes: while at < text.len() {
        match plain_length(&text[at..]) {
            None => return false,
            Some(length) => at += length,
        }
    }
    true
}
