//! Bracket sets.
ghost use Rattle.std.specs.Prelude.{◌≡◌, ◌==◌, ◌&&◌, not, ◌<◌, ◌≤◌, ◌+◌, length, option_map};
ghost use Rattle.std.specs.Prelude.{IfSome, IfOk, Ok, None, true};
ghost use Rattle.label_base.specs.Answers.{Answers};
ghost use Rattle.label_base.specs.Spelling.{byte};
ghost use Rattle.pattern_syntax.specs.ByteSet.{has_byte, bytes_with, no_bytes};
ghost use Rattle.pattern_syntax.specs.Classes.{is_between};
ghost use Rattle.pattern_syntax.specs.Shape.{is_proper_set};
ghost use Rattle.pattern_syntax.specs.Views.{item_cut, class_cut, part_of, set_cut, why_refused};
ghost use Rattle.pattern_syntax.specs.Brackets as brackets;
ghost use Rattle.pattern_syntax.specs.Brackets.{named_class, number_class, printing_class};
ghost use Rattle.pattern_syntax.specs.Brackets.{class_or_refusal, inner_bracket, item_at};
ghost use Rattle.pattern_syntax.specs.Brackets.{single_part, lone_part, range_part, dash_part};
ghost use Rattle.pattern_syntax.specs.Brackets.{part_at, parts_from, set_at};

use crate::byte_set::ByteSet;
use crate::classes::{
    blanks, capitals, controls, digits, graphics, hexadecimal_digits, letters, letters_and_digits,
    printed, punctuation, small_letters, spaces,
};
use crate::escape::read_escape;
use crate::item::Item;
use crate::refusal::Refusal;

/// A part of a set: an item, or a range.
#[derive(Clone, Copy)]
pub(crate) struct SetPart {
    set: ByteSet,
    /// The byte that may be the low end of a range behind this part.
    low: Option<u8>,
    length: usize,
}

#[tactic(auto, unfolding(crate::specs::Brackets::printing_class))]
fn find_printing_class(text: &[u8]) -> Option<(ByteSet, usize)>
    ensures value { option_map class_cut result ≡ printing_class text.now }
    ensures within { IfSome result (λ class. (0 < class.1) × (class.1 ≤ length text.now + 2)) }
{
    if text.starts_with(b"cntrl:]") {
        return Some((controls(), 9));
    }
    if text.starts_with(b"graph:]") {
        return Some((graphics(), 9));
    }
    if text.starts_with(b"print:]") {
        return Some((printed(), 9));
    }
    if text.starts_with(b"punct:]") {
        return Some((punctuation(), 9));
    }
    None
}

#[tactic(auto, unfolding(crate::specs::Brackets::number_class))]
fn find_number_class(text: &[u8]) -> Option<(ByteSet, usize)>
    ensures value { option_map class_cut result ≡ number_class text.now }
    ensures within { IfSome result (λ class. (0 < class.1) × (class.1 ≤ length text.now + 2)) }
{
    if text.starts_with(b"digit:]") {
        return Some((digits(), 9));
    }
    if text.starts_with(b"xdigit:]") {
        return Some((hexadecimal_digits(), 10));
    }
    if text.starts_with(b"blank:]") {
        return Some((blanks(), 9));
    }
    if text.starts_with(b"space:]") {
        return Some((spaces(), 9));
    }
    find_printing_class(text)
}

#[tactic(auto, unfolding(crate::specs::Brackets::named_class))]
fn find_class(text: &[u8]) -> Option<(ByteSet, usize)>
    ensures value { option_map class_cut result ≡ named_class text.now }
    ensures within { IfSome result (λ class. (0 < class.1) × (class.1 ≤ length text.now + 2)) }
{
    if text.starts_with(b"alpha:]") {
        return Some((letters(), 9));
    }
    if text.starts_with(b"lower:]") {
        return Some((small_letters(), 9));
    }
    if text.starts_with(b"upper:]") {
        return Some((capitals(), 9));
    }
    if text.starts_with(b"alnum:]") {
        return Some((letters_and_digits(), 9));
    }
    find_number_class(text)
}

fn read_class(text: &[u8]) -> Result<(Item, usize), Refusal>
    ensures value { Answers item_cut why_refused result (class_or_refusal (named_class text.now)) }
    ensures within { IfOk result (λ cut. (0 < cut.1) × (cut.1 ≤ length text.now + 2)) }
{
    match find_class(text) {
        Some((set, length)) => Ok((Item::Class(set), length)),
        None => Err(Refusal::Unsupported),
    }
}

#[tactic(auto, unfolding(crate::specs::Brackets::inner_bracket))]
fn read_inner_bracket(text: &[u8]) -> Result<(Item, usize), Refusal>
    ensures value { Answers item_cut why_refused result (inner_bracket text.now) }
    ensures within { IfOk result (λ cut. (0 < cut.1) × (cut.1 ≤ length text.now + 1)) }
{
    match text {
        [b':', rest @ ..] => read_class(rest),
        [b'.' | b'=', ..] => Err(Refusal::Unsupported),
        _ => Ok((Item::One(b'['), 1)),
    }
}

#[tactic(auto, unfolding(crate::specs::Brackets::item_at))]
fn read_item(text: &[u8]) -> Result<(Item, usize), Refusal>
    ensures value { Answers item_cut why_refused result (item_at text.now) }
    ensures within { IfOk result (λ cut. (0 < cut.1) × (cut.1 ≤ length text.now)) }
{
    match text {
        [] | [0, ..] => Err(Refusal::Syntax),
        [b'[', rest @ ..] => read_inner_bracket(rest),
        [b'\\', rest @ ..] => read_escape(rest),
        [b, ..] => Ok((Item::One(*b), 1)),
    }
}

#[tactic(auto, using(crate::proofs::BracketLemmas::range_alone))]
fn between(low: u8, high: u8) -> ByteSet
    ensures { has_byte result ≡ is_between low high }
{
    ByteSet::empty().with_range(low, high)
}

fn single_part(b: u8, length: usize) -> SetPart
    ensures { part_of result ≡ single_part b length }
{
    SetPart {
        set: between(b, b),
        low: Some(b),
        length,
    }
}

fn read_lone_part(text: &[u8]) -> Result<SetPart, Refusal>
    ensures value { Answers part_of why_refused result (lone_part (item_at text.now)) }
    ensures within { IfOk result (λ part. (0 < part.length) × (part.length ≤ length text.now)) }
{
    match read_item(text)? {
        (Item::One(b), length) => Ok(single_part(b, length)),
        (Item::Class(set), length) => Ok(SetPart {
            set,
            low: None,
            length,
        }),
    }
}

fn read_range(low: u8, text: &[u8]) -> Result<SetPart, Refusal>
    ensures value { Answers part_of why_refused result (range_part low (item_at text.now)) }
    ensures within { IfOk result (λ part. (0 < part.length) × (part.length ≤ length text.now + 1)) }
{
    match read_item(text) {
        Ok((Item::One(high), length)) => {
            if high < low {
                return Err(Refusal::Syntax);
            }
            Ok(SetPart {
                set: between(low, high),
                low: None,
                length: length + 1,
            })
        }
        _ => Ok(single_part(b'-', 1)),
    }
}

#[tactic(auto, unfolding(crate::specs::Brackets::dash_part))]
fn read_dash(low: u8, text: &[u8]) -> Result<SetPart, Refusal>
    ensures value { Answers part_of why_refused result (dash_part low text.now) }
    ensures within { IfOk result (λ part. (0 < part.length) × (part.length ≤ length text.now + 1)) }
{
    match text {
        [] | [b']', ..] => Ok(single_part(b'-', 1)),
        _ => read_range(low, text),
    }
}

#[tactic(auto, unfolding(crate::specs::Brackets::part_behind))]
fn read_part(low: Option<u8>, text: &[u8]) -> Result<SetPart, Refusal>
    ensures value { Answers part_of why_refused result (part_at low text.now) }
    ensures within { IfOk result (λ part. (0 < part.length) × (part.length ≤ length text.now)) }
{
    match low {
        None => read_lone_part(text),
        Some(low) => match text {
            [] => Err(Refusal::Syntax),
            [b'-', rest @ ..] => read_dash(low, rest),
            _ => read_lone_part(text),
        },
    }
}

/// Whether a byte ends the set; a `]` at the beginning is an item.
fn ends_set(b: u8, at: usize) -> bool
    ensures { result ≡ ((b == byte "]") && not (at == 0)) }
{
    b == b']' && at > 0
}

/// The bytes of the parts up to the `]` that ends them, and the length with it.
fn read_parts(text: &[u8]) -> Result<(ByteSet, usize), Refusal>
    ensures value { Answers class_cut why_refused result
        (parts_from true None no_bytes 0 0 text.now) }
    ensures within { IfOk result (λ cut. cut.1 ≤ length text.now) }
{
    let mut set = ByteSet::empty();
    let mut low = None;
    let mut at = 0;
    'parts: while at < text.len() {
        if ends_set(text[at], at) {
            return Ok((set, at + 1));
        }
        let part = read_part(low, &text[at..])?;
        set = set.union(&part.set);
        low = part.low;
        at += part.length;
    }
    Err(Refusal::Syntax)
}

#[tactic(auto, using(crate::proofs::ShapeLemmas::proper_bytes))]
fn nonempty_set(set: ByteSet, length: usize) -> Result<(ByteSet, usize), Refusal>
    ensures value { Answers set_cut why_refused result
        (brackets.nonempty_set (bytes_with (has_byte set)) length) }
    ensures within { IfOk result (λ cut. cut.1 ≡ length) }
    ensures proper { IfOk result (λ cut. is_proper_set (bytes_with (has_byte cut.0)) ≡ true) }
{
    if set.is_empty() {
        Err(Refusal::Syntax)
    } else {
        Ok((set, length))
    }
}

/// Reads what stands behind a `[`: the set, and its length with the `[`.
#[tactic(auto, unfolding(crate::specs::Brackets::set_at))]
pub(crate) fn read_set(text: &[u8]) -> Result<(ByteSet, usize), Refusal>
    ensures value { Answers set_cut why_refused result (set_at text.now) }
    ensures within { IfOk result (λ cut. (0 < cut.1) × (cut.1 ≤ length text.now + 1)) }
    ensures proper { IfOk result (λ cut. is_proper_set (bytes_with (has_byte cut.0)) ≡ true) }
{
    match text {
        [] => Err(Refusal::Syntax),
        [b'^', rest @ ..] => {
            let (set, length) = read_parts(rest)?;
            nonempty_set(set.complement(), length + 2)
        }
        _ => {
            let (set, length) = read_parts(text)?;
            nonempty_set(set, length + 1)
        }
    }
}
