//! Escapes: what may stand behind a backslash.
ghost use Rattle.std.specs.Prelude.{◌≡◌, ◌<◌, ◌≤◌, ◌+◌, length, option_map, IfSome, IfOk, true};
ghost use Rattle.label_base.specs.Answers.{Answers};
ghost use Rattle.pattern_syntax.specs.ByteSet.{has_byte, bytes_with};
ghost use Rattle.pattern_syntax.specs.Classes.{is_text_byte};
ghost use Rattle.pattern_syntax.specs.Shape.{is_proper_set, IsProperItem};
ghost use Rattle.pattern_syntax.specs.Views.{escape_item, item_cut, why_refused};
ghost use Rattle.pattern_syntax.specs.Escapes.{class_of_letter, control_of_letter};
ghost use Rattle.pattern_syntax.specs.Escapes.{hexadecimal_digit, hexadecimal_at, escape_at};
ghost use Rattle.pattern_syntax.specs.Escapes.{plain_escape, letter_escape, control_escape};

use crate::byte_set::ByteSet;
use crate::classes::{digits, spaces, words};
use crate::item::Item;
use crate::refusal::Refusal;

#[tactic(auto, unfolding(crate::specs::Escapes::class_of_letter))]
fn letter_class(b: u8) -> Option<ByteSet>
    ensures value { option_map has_byte result ≡ class_of_letter b }
    ensures proper { IfSome result (λ set. is_proper_set (bytes_with (has_byte set)) ≡ true) }
{
    match b {
        b'd' => Some(digits()),
        b'w' => Some(words()),
        b's' => Some(spaces()),
        b'D' => Some(digits().complement()),
        b'W' => Some(words().complement()),
        b'S' => Some(spaces().complement()),
        _ => None,
    }
}

#[tactic(auto, unfolding(crate::specs::Escapes::control_of_letter))]
fn control_byte(b: u8) -> Option<u8>
    ensures value { result ≡ control_of_letter b }
    ensures proper { IfSome result (λ byte. is_text_byte byte ≡ true) }
{
    match b {
        b'n' => Some(b'\n'),
        b't' => Some(b'\t'),
        b'r' => Some(b'\r'),
        _ => None,
    }
}

#[tactic(auto, unfolding(crate::specs::Escapes::hexadecimal_digit))]
fn digit_value(b: u8) -> Option<u8>
    ensures value { result ≡ hexadecimal_digit b }
    ensures small { IfSome result (λ value. value < 16) }
{
    match b {
        b'0'..=b'9' => Some(b - b'0'),
        b'a'..=b'f' => Some(b - b'a' + 10),
        b'A'..=b'F' => Some(b - b'A' + 10),
        _ => None,
    }
}

#[tactic(auto, using(crate::proofs::ShapeLemmas::text_byte), unfolding(crate::specs::Escapes::hexadecimal_at))]
fn read_hexadecimal(text: &[u8]) -> Result<(Item, usize), Refusal>
    ensures value { Answers item_cut why_refused result (hexadecimal_at text.now) }
    ensures within { IfOk result (λ cut. (0 < cut.1) × (cut.1 ≤ length text.now + 2)) }
    ensures proper { IfOk result (λ cut. IsProperItem (escape_item cut.0)) }
{
    match text {
        [high, low, ..] => match (digit_value(*high), digit_value(*low)) {
            (Some(high), Some(low)) if high * 16 + low > 0 => Ok((Item::One(high * 16 + low), 4)),
            _ => Err(Refusal::Unsupported),
        },
        _ => Err(Refusal::Unsupported),
    }
}

#[tactic(auto, using(crate::proofs::ShapeLemmas::text_byte), unfolding(crate::specs::Escapes::plain_escape))]
fn read_plain(b: u8) -> Result<(Item, usize), Refusal>
    ensures value { Answers item_cut why_refused result (plain_escape b) }
    ensures within { IfOk result (λ cut. (0 < cut.1) × (cut.1 ≤ 2)) }
    ensures proper { IfOk result (λ cut. IsProperItem (escape_item cut.0)) }
{
    match b {
        0 => Err(Refusal::Syntax),
        b'a'..=b'z' | b'A'..=b'Z' | b'0'..=b'9' => Err(Refusal::Unsupported),
        _ => Ok((Item::One(b), 2)),
    }
}

/// Reads what stands behind a backslash: the item, and its length with the backslash.
#[tactic(auto, unfolding(crate::specs::Escapes::escape_at))]
pub(crate) fn read_escape(text: &[u8]) -> Result<(Item, usize), Refusal>
    ensures value { Answers item_cut why_refused result (escape_at text.now) }
    ensures within { IfOk result (λ cut. (0 < cut.1) × (cut.1 ≤ length text.now + 1)) }
    ensures proper { IfOk result (λ cut. IsProperItem (escape_item cut.0)) }
{
    match text {
        [] => Err(Refusal::Syntax),
        [b'x', rest @ ..] => read_hexadecimal(rest),
        [b, ..] => read_letter(*b),
    }
}

fn read_letter(b: u8) -> Result<(Item, usize), Refusal>
    ensures value { Answers item_cut why_refused result (letter_escape b (class_of_letter b)) }
    ensures within { IfOk result (λ cut. (0 < cut.1) × (cut.1 ≤ 2)) }
    ensures proper { IfOk result (λ cut. IsProperItem (escape_item cut.0)) }
{
    match letter_class(b) {
        Some(set) => Ok((Item::Class(set), 2)),
        None => read_control(b),
    }
}

fn read_control(b: u8) -> Result<(Item, usize), Refusal>
    ensures value { Answers item_cut why_refused result (control_escape b (control_of_letter b)) }
    ensures within { IfOk result (λ cut. (0 < cut.1) × (cut.1 ≤ 2)) }
    ensures proper { IfOk result (λ cut. IsProperItem (escape_item cut.0)) }
{
    match control_byte(b) {
        Some(byte) => Ok((Item::One(byte), 2)),
        None => read_plain(b),
    }
}
