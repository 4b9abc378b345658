//! Cutting a pattern into tokens.
ghost use Rattle.std.specs.Prelude.{◌≡◌, ◌+◌, ◌-◌, ◌<◌, ◌≤◌, ◌^◌, length, IfOk};
ghost use Rattle.label_base.specs.Answers.{Answers};
ghost use Rattle.pattern_syntax.specs.Views.{token_of, token_cut, why_refused};
ghost use Rattle.pattern_syntax.specs.Tokens.{marked_repeat, braced_repeat, counts_at};
ghost use Rattle.pattern_syntax.specs.Tokens.{special_group, group_at, escape_cut, bracketed};
ghost use Rattle.pattern_syntax.specs.Tokens.{start_anchor, end_anchor, repeat_or_byte, token_at};
ghost use Rattle.pattern_syntax.specs.Building.{IsProperToken};
ghost use Rattle.pattern_syntax.specs.Escapes.{escape_at};
ghost use Rattle.pattern_syntax.specs.Brackets.{set_at};

use crate::bracket::read_set;
use crate::classes::text_bytes;
use crate::counts::{is_refused, read_counts};
use crate::escape::read_escape;
use crate::item::Item;
use crate::refusal::Refusal;
use crate::token::Token;

/// A repeat of this length, with the mark that may stand behind it.
#[tactic(auto, unfolding(crate::specs::Tokens::marked_repeat))]
fn read_mark(
    least: u32,
    most: Option<u32>,
    size: usize,
    text: &[u8],
) -> Result<(Token, usize), Refusal>
    requires { size < 2 ^ 63 + 2 }
    ensures value { Answers token_cut why_refused result (marked_repeat least most size text.now) }
    ensures within { IfOk result (λ cut. (size ≤ cut.1) × (cut.1 ≤ size + length text.now)) }
    ensures proper { IfOk result (λ cut. IsProperToken (token_of cut.0)) }
{
    match text {
        [b'?', ..] => Ok((Token::Times { least, most }, size + 1)),
        [b'+', ..] => Err(Refusal::Unsupported),
        _ => Ok((Token::Times { least, most }, size)),
    }
}

/// Reads what stands behind a `{`, which is a byte where it begins no repeat.
fn read_braces(text: &[u8]) -> Result<(Token, usize), Refusal>
    ensures value { Answers token_cut why_refused result
        (braced_repeat text.now (counts_at text.now)) }
    ensures within { IfOk result (λ cut. (0 < cut.1) × (cut.1 ≤ length text.now + 1)) }
    ensures proper { IfOk result (λ cut. IsProperToken (token_of cut.0)) }
{
    match read_counts(text) {
        None => Ok((Token::Byte(b'{'), 1)),
        Some(counts) => {
            if is_refused(&counts) {
                return Err(Refusal::Syntax);
            }
            read_mark(
                counts.least,
                counts.most,
                counts.length,
                &text[counts.length - 1..],
            )
        }
    }
}

#[tactic(auto, unfolding(crate::specs::Tokens::special_group))]
fn read_special_group(text: &[u8]) -> Result<(Token, usize), Refusal>
    ensures value { Answers token_cut why_refused result (special_group text.now) }
    ensures within { IfOk result (λ cut. (0 < cut.1) × (cut.1 ≤ length text.now + 2)) }
    ensures proper { IfOk result (λ cut. IsProperToken (token_of cut.0)) }
{
    match text {
        [b':', ..] => Ok((Token::Open, 3)),
        _ => Err(Refusal::Unsupported),
    }
}

#[tactic(auto, unfolding(crate::specs::Tokens::group_at))]
fn read_group(text: &[u8]) -> Result<(Token, usize), Refusal>
    ensures value { Answers token_cut why_refused result (group_at text.now) }
    ensures within { IfOk result (λ cut. (0 < cut.1) × (cut.1 ≤ length text.now + 1)) }
    ensures proper { IfOk result (λ cut. IsProperToken (token_of cut.0)) }
{
    match text {
        [b'?', rest @ ..] => read_special_group(rest),
        [b'*', ..] => Err(Refusal::Unsupported),
        _ => Ok((Token::Open, 1)),
    }
}

fn read_escaped(text: &[u8]) -> Result<(Token, usize), Refusal>
    ensures value { Answers token_cut why_refused result (escape_cut (escape_at text.now)) }
    ensures within { IfOk result (λ cut. (0 < cut.1) × (cut.1 ≤ length text.now + 1)) }
    ensures proper { IfOk result (λ cut. IsProperToken (token_of cut.0)) }
{
    match read_escape(text) {
        Ok((Item::One(b), length)) => Ok((Token::Byte(b), length)),
        Ok((Item::Class(set), length)) => Ok((Token::Set(set), length)),
        Err(refusal) => Err(refusal),
    }
}

fn read_bracketed(text: &[u8]) -> Result<(Token, usize), Refusal>
    ensures value { Answers token_cut why_refused result (bracketed (set_at text.now)) }
    ensures within { IfOk result (λ cut. (0 < cut.1) × (cut.1 ≤ length text.now + 1)) }
    ensures proper { IfOk result (λ cut. IsProperToken (token_of cut.0)) }
{
    match read_set(text) {
        Ok((set, length)) => Ok((Token::Set(set), length)),
        Err(refusal) => Err(refusal),
    }
}

#[tactic(auto, unfolding(crate::specs::Tokens::start_anchor))]
fn read_start(begins: bool) -> Result<(Token, usize), Refusal>
    ensures value { Answers token_cut why_refused result (start_anchor begins) }
    ensures within { IfOk result (λ cut. cut.1 ≡ 1) }
    ensures proper { IfOk result (λ cut. IsProperToken (token_of cut.0)) }
{
    if begins {
        Ok((Token::Anchor, 1))
    } else {
        Err(Refusal::Unsupported)
    }
}

#[tactic(auto, unfolding(crate::specs::Tokens::end_anchor))]
fn read_end(text: &[u8]) -> Result<(Token, usize), Refusal>
    ensures value { Answers token_cut why_refused result (end_anchor text.now) }
    ensures within { IfOk result (λ cut. cut.1 ≡ 1) }
    ensures proper { IfOk result (λ cut. IsProperToken (token_of cut.0)) }
{
    if text.is_empty() {
        Ok((Token::Anchor, 1))
    } else {
        Err(Refusal::Unsupported)
    }
}

#[tactic(auto, using(crate::proofs::ShapeLemmas::text_byte), unfolding(crate::specs::Tokens::repeat_or_byte))]
fn read_repeat_or_byte(b: u8, text: &[u8]) -> Result<(Token, usize), Refusal>
    ensures value { Answers token_cut why_refused result (repeat_or_byte b text.now) }
    ensures within { IfOk result (λ cut. (0 < cut.1) × (cut.1 ≤ length text.now + 1)) }
    ensures proper { IfOk result (λ cut. IsProperToken (token_of cut.0)) }
{
    match b {
        b'*' => read_mark(0, None, 1, text),
        b'+' => read_mark(1, None, 1, text),
        b'?' => read_mark(0, Some(1), 1, text),
        b'{' => read_braces(text),
        b'.' => Ok((Token::Set(text_bytes()), 1)),
        0 => Err(Refusal::Syntax),
        _ => Ok((Token::Byte(b), 1)),
    }
}

/// Reads the token at the beginning of a text, and its length; `begins` says that the text is the
/// whole pattern.
#[tactic(auto, unfolding(crate::specs::Tokens::token_at))]
pub(crate) fn read_token(begins: bool, text: &[u8]) -> Result<(Token, usize), Refusal>
    ensures value { Answers token_cut why_refused result (token_at begins text.now) }
    ensures within { IfOk result (λ cut. (0 < cut.1) × (cut.1 ≤ length text.now)) }
    ensures proper { IfOk result (λ cut. IsProperToken (token_of cut.0)) }
{
    match text {
        [] => Err(Refusal::Syntax),
        [b'\\', rest @ ..] => read_escaped(rest),
        [b'[', rest @ ..] => read_bracketed(rest),
        [b'(', rest @ ..] => read_group(rest),
        [b')', ..] => Ok((Token::Close, 1)),
        [b'|', ..] => Ok((Token::Bar, 1)),
        [b'^', ..] => read_start(begins),
        [b'$', rest @ ..] => read_end(rest),
        [b, rest @ ..] => read_repeat_or_byte(*b, rest),
    }
}
