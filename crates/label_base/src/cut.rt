ghost use Rattle.std.specs.Prelude.{◌≡◌, ◌↔◌, ◌∷◌, ◌==◌, ◌<◌, ◌≤◌, [], length, IfSome, IfNone};
ghost use Rattle.std.specs.List.{slice_split};
ghost use Rattle.std.specs.Option.{option_copied};
ghost use Rattle.label_base.specs.Cut.{front, behind, pieces_left};
ghost use Rattle.label_base.specs.Pieces.{turns_left};
ghost use Rattle.label_base.specs.LineGrammar.{AreFields, AreLines};
ghost use Rattle.label_base.specs.Lines.{is_blank, fields_of, fields_left, lines_of};

use memchr::{memchr, memchr2};

/// What ends a line.
pub const LINE_FEED: u8 = b'\n';

/// The blanks between the fields of a line.
pub const BLANK: u8 = b' ';

pub const TAB: u8 = b'\t';

/// What stands before the first such byte, and what stands behind it, if there is one.
pub fn cut_at(byte: u8, text: &[u8]) -> (&[u8], Option<&[u8]>)
    ensures front { result.0.now ≡ front (λ b. b == byte) text.now }
    ensures behind { option_copied result.1 ≡ behind (λ b. b == byte) text.now }
    ensures pieces { slice_split (λ b. b == byte) text.now
        ≡ result.0.now ∷ pieces_left (λ b. b == byte) (option_copied result.1) }
    ensures whole { IfNone result.1 (result.0.now ≡ text.now) }
    ensures shorter { turns_left (option_copied result.1) ≤ length text.now }
{
    match memchr(byte, text) {
        None => (text, None),
        Some(at) => (&text[..at], Some(&text[at + 1..])),
    }
}

/// What stands before the first blank, and what stands behind it, if there is one.
pub fn cut_at_blank(text: &[u8]) -> (&[u8], Option<&[u8]>)
    ensures front { result.0.now ≡ front is_blank text.now }
    ensures behind { option_copied result.1 ≡ behind is_blank text.now }
    ensures pieces { slice_split is_blank text.now
        ≡ result.0.now ∷ pieces_left is_blank (option_copied result.1) }
    ensures shorter { turns_left (option_copied result.1) ≤ length text.now }
{
    match memchr2(BLANK, TAB, text) {
        None => (text, None),
        Some(at) => (&text[..at], Some(&text[at + 1..])),
    }
}

/// The first field of what is left of a line, and what is left behind it.
pub fn next_field(line: Option<&[u8]>) -> Option<(&[u8], Option<&[u8]>)>
    ensures found { IfSome result (λ found. fields_left (option_copied line.entry)
        ≡ found.0.now ∷ fields_left (option_copied found.1)) }
    ensures none { IfNone result (fields_left (option_copied line.entry) ≡ []) }
{
    let mut left = line;
    while let Some(rest) = left {
        let (piece, after) = cut_at_blank(rest);
        if !piece.is_empty() {
            return Some((piece, after));
        }
        left = after;
    }
    None
}

/// The first line of a text, and what stands behind it.
pub fn next_line(text: &[u8]) -> Option<(&[u8], &[u8])>
    ensures found { IfSome result
        (λ found. lines_of text.now ≡ found.0.now ∷ lines_of found.1.now) }
    ensures shorter { IfSome result (λ found. length found.1.now < length text.now) }
    ensures none { IfNone result (lines_of text.now ≡ []) }
{
    if text.is_empty() {
        return None;
    }
    let (line, rest) = cut_at(LINE_FEED, text);
    match rest {
        Some(rest) => Some((line, rest)),
        None => Some((line, &[])),
    }
}

/// A law on all bytes: the lines into which a text is cut, and the fields into which a line is, are
/// those that their grammar gives. It does nothing.
#[tactic(auto, using(crate::proofs::LineCuts::lines_are, crate::proofs::LineCuts::fields_are))]
pub fn cuts_follow_grammar(_text: &[u8])
    ensures lines { (lines : _) → (lines_of _text.now ≡ lines) ↔ AreLines _text.now lines }
    ensures fields { (fields : _) → (fields_of _text.now ≡ fields) ↔ AreFields _text.now fields }
{}
