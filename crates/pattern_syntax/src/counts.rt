//! Repeats in braces.
ghost use Rattle.std.specs.Prelude.{◌≡◌, ◌+◌, ◌*◌, ◌-◌, ◌<◌, ◌≤◌, ◌^◌, min, length, option_map};
ghost use Rattle.std.specs.Prelude.{IfSome, Some};
ghost use Rattle.pattern_syntax.specs.Tokens.{times_of, times_more, digits_at, behind_digits};
ghost use Rattle.pattern_syntax.specs.Tokens.{counts_at, lower_counts, upper_counts, upper_number};
ghost use Rattle.pattern_syntax.specs.Tokens.{is_refused_count};
ghost use Rattle.pattern_syntax.specs.Classes.{is_digit_class};
ghost use Rattle.pattern_syntax.specs.Views.{counts_of};

use crate::limits::MOST_TIMES;

/// The numbers of a repeat in braces, and its length with the braces. Numbers above the greatest
/// are all as one.
#[derive(Clone, Copy)]
pub(crate) struct Counts {
    pub least: u32,
    pub most: Option<u32>,
    pub length: usize,
}

fn is_ascii_digit(b: u8) -> bool
    ensures { result ≡ is_digit_class b }
{
    b >= b'0' && b <= b'9'
}

/// Parts the digits at the beginning of a text from what stands behind them.
fn split_digits(text: &[u8]) -> (&[u8], &[u8])
    ensures digits { result.0.now ≡ digits_at text.now }
    ensures rest { result.1.now ≡ behind_digits text.now }
    ensures lengths { length result.0.now + length result.1.now ≡ length text.now }
{
    let mut at = 0;
    'digits: while at < text.len() {
        if !is_ascii_digit(text[at]) {
            return (&text[..at], &text[at..]);
        }
        at += 1;
    }
    (text, &text[at..])
}

/// A number with a digit behind it.
fn with_digit(value: u32, b: u8) -> u32
    ensures { result ≡ times_more value b }
{
    let digit = u32::from(b.saturating_sub(b'0'));
    value
        .saturating_mul(10)
        .saturating_add(digit)
        .min(MOST_TIMES + 1)
}

#[tactic(auto, using(crate::proofs::TokenLemmas::fold_is_times))]
fn number_of_times(digits: &[u8]) -> u32
    ensures { result ≡ times_of digits.now }
{
    let mut value = 0;
    for b in digits {
        value = with_digit(value, *b);
    }
    value
}

fn find_upper_number(digits: &[u8]) -> Option<u32>
    ensures { result ≡ upper_number digits.now }
{
    if digits.is_empty() {
        None
    } else {
        Some(number_of_times(digits))
    }
}

#[tactic(auto, unfolding(crate::specs::Tokens::upper_counts))]
fn read_upper(least: u32, digits: usize, upper: &[u8], text: &[u8]) -> Option<Counts>
    requires { digits + length upper.now < 2 ^ 63 }
    ensures value { option_map counts_of result ≡ upper_counts least digits upper.now text.now }
    ensures within { IfSome result
        (λ counts. (0 < counts.length)
        × (counts.length ≤ digits + length upper.now + length text.now + 2)) }
{
    match text {
        [b'}', ..] => Some(Counts {
            least,
            most: find_upper_number(upper),
            length: digits + upper.len() + 3,
        }),
        _ => None,
    }
}

#[tactic(auto, unfolding(crate::specs::Tokens::lower_counts))]
fn read_lower(least: u32, digits: usize, text: &[u8]) -> Option<Counts>
    requires { digits + length text.now < 2 ^ 63 }
    ensures value { option_map counts_of result ≡ lower_counts least digits text.now }
    ensures within { IfSome result
        (λ counts. (0 < counts.length) × (counts.length ≤ digits + length text.now + 1)) }
{
    match text {
        [b'}', ..] => Some(Counts {
            least,
            most: Some(least),
            length: digits + 2,
        }),
        [b',', rest @ ..] => {
            let (upper, behind) = split_digits(rest);
            read_upper(least, digits, upper, behind)
        }
        _ => None,
    }
}

/// Reads what stands behind a `{`: the numbers, where it begins a repeat.
#[tactic(auto, unfolding(crate::specs::Tokens::counts_at))]
pub(crate) fn read_counts(text: &[u8]) -> Option<Counts>
    ensures value { option_map counts_of result ≡ counts_at text.now }
    ensures within { IfSome result
        (λ counts. (0 < counts.length) × (counts.length ≤ length text.now + 1)) }
{
    let (digits, rest) = split_digits(text);
    if digits.is_empty() {
        return None;
    }
    read_lower(number_of_times(digits), digits.len(), rest)
}

/// Whether a number is too great, or the least above the greatest.
pub(crate) fn is_refused(counts: &Counts) -> bool
    ensures { result ≡ is_refused_count counts.now.least counts.now.most }
{
    match counts.most {
        None => counts.least > MOST_TIMES,
        Some(most) => most > MOST_TIMES || most < counts.least,
    }
}
