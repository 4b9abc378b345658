//! A text and a literal start in one row of bytes.
ghost use Rattle.std.specs.Prelude.{◌≡◌, ◌≤◌, ◌+◌, ◌↔◌, length, take, drop, IfOk, IsTrue};
ghost use Rattle.pattern_syntax.specs.PatternValue.{HoldsBoth, start_place, text_end};

use label_base::OutOfMemory;
use std::alloc::Global;

/// The text in the bytes, where the start has so many and stands behind the text or is its front.
pub(crate) fn text_in(bytes: &[u8], start_length: usize, is_start_behind: bool) -> &[u8]
    ensures { result.now ≡ take (text_end bytes.now start_length is_start_behind) bytes.now }
{
    if !is_start_behind {
        return bytes;
    }
    &bytes[..bytes.len().saturating_sub(start_length)]
}

fn start_place(bytes: &[u8], start_length: usize, is_start_behind: bool) -> usize
    ensures { result ≡ start_place bytes.now start_length is_start_behind }
{
    if is_start_behind {
        bytes.len().saturating_sub(start_length)
    } else {
        0
    }
}

/// The start in the bytes.
pub(crate) fn start_in(bytes: &[u8], start_length: usize, is_start_behind: bool) -> &[u8]
    requires { start_place bytes.now start_length is_start_behind + start_length
        ≤ length bytes.now }
    ensures { result.now ≡ take start_length
        (drop (start_place bytes.now start_length is_start_behind) bytes.now) }
{
    let at = start_place(bytes, start_length, is_start_behind);
    &bytes[at..at + start_length]
}

// Whether the text begins with the start.
fn is_front(text: &[u8], start: &[u8]) -> bool
    ensures { IsTrue result ↔ (take (length start.now) text.now ≡ start.now) }
{
    if text.len() < start.len() {
        return false;
    }
    &text[..start.len()] == start
}

/// The text, and the start behind it where the text doesn't begin with that; and whether it stands
/// there.
pub(crate) fn text_and_start(
    alloc: Global,
    text: &[u8],
    start: &[u8],
) -> Result<(Vec<u8>, bool), OutOfMemory>
    ensures both { IfOk result (λ kept. HoldsBoth kept.0.items text.now start.now
        (start_place kept.0.items (length start.now) kept.1)) }
    ensures end { IfOk result (λ kept.
        text_end kept.0.items (length start.now) kept.1 ≡ length text.now) }
{
    if is_front(text, start) {
        return Ok((Vec::from_slice(alloc, text)?, false));
    }
    let mut bytes = Vec::with_capacity(alloc, text.len().saturating_add(start.len()))?;
    bytes.extend_from_slice(text)?;
    bytes.extend_from_slice(start)?;
    Ok((bytes, true))
}
