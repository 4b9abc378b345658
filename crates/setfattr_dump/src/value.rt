ghost use Rattle.std.specs.Prelude.{◌≡◌, ◌+◌, ◌<◌, ◌≤◌, [], get_or, length, true, IfErr, IfNone};
ghost use Rattle.std.specs.Prelude.{IfOk, IfSome, None, Some};
ghost use Rattle.std.specs.Option.{option_copied};
ghost use Rattle.label_base.specs.Answers.{Answers, Explains, fault_cause};
ghost use Rattle.label_base.specs.Escape.{in_front, led_by, octal_byte};
ghost use Rattle.label_base.specs.Pieces.{turns_left};
ghost use Rattle.setfattr_dump.specs.Values as value;
ghost use Rattle.setfattr_dump.specs.Values.{behind_zero, digits_read, is_digits_mark};
ghost use Rattle.setfattr_dump.specs.Values.{is_escapable, text_left, text_read, value_or_bad};
ghost use Rattle.setfattr_dump.specs.Values.{value_read};

use crate::fault::DumpWhy;
use crate::marks::{BACKSLASH, QUOTE, ZERO};
use hex::FromHexError;
use label_base::{Bytes, Fault, octal_byte};
use memchr::memchr2;
use std::alloc::Global;

fn is_escapable(b: u8) -> bool
    ensures { result ≡ is_escapable b }
{
    b == QUOTE || b == BACKSLASH
}

// The byte of the escape that a text behind a backslash begins with, and what stands behind it.
fn cut_escape(text: &[u8]) -> Option<(u8, &[u8])>
    ensures some { IfSome result (λ found. text_read value.Backslash text.now
        ≡ led_by (Some found.0) (text_read value.Nothing found.1.now)) }
    ensures shorter { IfSome result (λ found. length found.1.now < length text.now) }
    ensures none { IfNone result (text_read value.Backslash text.now ≡ None) }
{
    let [x, rest @ ..] = text else {
        return None;
    };
    if is_escapable(*x) {
        return Some((*x, rest));
    }
    let [y, z, rest @ ..] = rest else {
        return None;
    };
    match octal_byte(*x, *y, *z) {
        Some(b) => Some((b, rest)),
        None => None,
    }
}

// The bytes at the front of a text that stand for themselves, and what stands behind them.
fn cut_plain(text: &[u8]) -> (&[u8], &[u8])
    ensures read { text_read value.Nothing text.now
        ≡ in_front result.0.now (text_read value.Nothing result.1.now) }
    ensures shorter { length result.1.now ≤ length text.now }
    ensures special { 0 < length result.1.now → is_escapable (get_or result.1.now 0 0) ≡ true }
{
    match memchr2(QUOTE, BACKSLASH, text) {
        None => (text, &[]),
        Some(at) => text.split_at(at),
    }
}

// Reads up to the first escape and that, and gives what stands behind it, or nothing where the text
// is closed.
fn read_piece<'a>(text: &'a [u8], read: &mut Bytes) -> Result<Option<&'a [u8]>, Fault<DumpWhy>>
    ensures ok { IfOk result (λ left. in_front read.old (text_read value.Nothing text.now)
        ≡ in_front read.new (text_left (option_copied left))) }
    ensures shorter { IfOk result (λ left. turns_left (option_copied left) ≤ length text.now) }
    ensures err { IfErr result (λ fault. Explains (fault_cause fault)
        (value_or_bad (text_read value.Nothing text.now))) }
{
    let (plain, rest) = cut_plain(text);
    let [special, rest @ ..] = rest else {
        return Err(Fault::Why(DumpWhy::BadValue));
    };
    read.push(plain)?;
    if *special == QUOTE {
        if rest.is_empty() {
            return Ok(None);
        }
        return Err(Fault::Why(DumpWhy::BadValue));
    }
    let Some((b, rest)) = cut_escape(rest) else {
        return Err(Fault::Why(DumpWhy::BadValue));
    };
    read.push_byte(b)?;
    Ok(Some(rest))
}

// Reads the bytes of a text behind its first quote.
fn read_text(alloc: Global, text: &[u8]) -> Result<Bytes, Fault<DumpWhy>>
    ensures { Answers (λ read. read) fault_cause result
        (value_or_bad (text_read value.Nothing text.now)) }
{
    let (plain, rest) = cut_plain(text);
    let mut read = Bytes::copy_of(alloc, plain)?;
    let mut left = Some(rest);
    'pieces: while let Some(rest) = left {
        left = read_piece(rest, &mut read)?;
    }
    Ok(read)
}

// Reads the bytes of pairs of hexadecimal digits.
fn read_digits(alloc: Global, digits: &[u8]) -> Result<Bytes, Fault<DumpWhy>>
    ensures { Answers (λ read. read) fault_cause result (value_or_bad (digits_read digits.now)) }
{
    match hex::decode(alloc, digits) {
        Ok(read) => Ok(Bytes::from(read)),
        Err(FromHexError::OutOfMemory) => Err(Fault::OutOfMemory),
        Err(_) => Err(Fault::Why(DumpWhy::BadValue)),
    }
}

fn is_digits_mark(x: u8) -> bool
    ensures { result ≡ is_digits_mark x }
{
    x == b'x' || x == b'X'
}

// Reads what stands behind the zero of `0x`.
fn read_behind_zero(alloc: Global, rest: &[u8]) -> Result<Bytes, Fault<DumpWhy>>
    ensures { Answers (λ read. read) fault_cause result (value_or_bad (behind_zero rest.now)) }
{
    let [x, digits @ ..] = rest else {
        return Err(Fault::Why(DumpWhy::BadValue));
    };
    if !is_digits_mark(*x) {
        return Err(Fault::Why(DumpWhy::BadValue));
    }
    read_digits(alloc, digits)
}

/// Reads a value: a text between quotes, or pairs of hexadecimal digits behind `0x`.
pub fn read_value(alloc: Global, given: &[u8]) -> Result<Bytes, Fault<DumpWhy>>
    ensures { Answers (λ read. read) fault_cause result (value_or_bad (value_read given.now)) }
{
    let [first, rest @ ..] = given else {
        return Err(Fault::Why(DumpWhy::BadValue));
    };
    if *first == QUOTE {
        return read_text(alloc, rest);
    }
    if *first != ZERO {
        return Err(Fault::Why(DumpWhy::BadValue));
    }
    read_behind_zero(alloc, rest)
}
