ghost use Rattle.std.specs.Prelude.{◌≡◌, ◌++◌, ◌≤◌, length, OnOk, OnErr, IfOk, IfErr, Some, None};
ghost use Rattle.std.specs.List.{list_all};
ghost use Rattle.std.specs.Option.{option_copied};
ghost use Rattle.label_base.specs.Answers.{Finds, NoneUnless};
ghost use Rattle.label_base.specs.Escape.{escaped, escaped_byte, is_plain_byte, is_octal};
ghost use Rattle.label_base.specs.Escape.{octal_byte, in_front, unescaped, after_backslash};
ghost use Rattle.label_base.specs.Escape.{unescaped_left, is_free};
ghost use Rattle.label_base.specs.Pieces.{turns_left};
ghost use Rattle.label_base.specs.declared.escape.EscapeFault.TheVariants as fault;

use crate::bytes::Bytes;
use crate::cut::{BLANK, cut_at};
use crate::memory;
use std::alloc::Global;

/// What begins an escape.
pub const BACKSLASH: u8 = b'\\';

/// The control byte above the others, which are below the blank.
pub const DEL: u8 = 127;

/// Why an escaped text wasn't read.
#[derive(Clone, Copy, Debug, PartialEq, Eq)]
pub enum EscapeFault {
    /// A backslash isn't followed by three octal digits of a value up to 255.
    BadEscape,
    /// There was not enough memory.
    OutOfMemory,
}

impl From<memory::OutOfMemory> for EscapeFault {
    ghost from_gives = { λ _ e. e ≡ fault.OutOfMemory };

    fn from(_refused: memory::OutOfMemory) -> EscapeFault {
        EscapeFault::OutOfMemory
    }
}

fn stays(b: u8) -> bool
    ensures { result ≡ is_plain_byte b }
{
    b != BACKSLASH && b >= BLANK && b != DEL
}

fn push_escaped(b: u8, text: &mut Bytes) -> Result<(), memory::OutOfMemory>
    ensures { OnOk result (text.new ≡ text.old ++ escaped_byte b) }
{
    if stays(b) {
        text.push(&[b])
    } else {
        text.push(&[BACKSLASH, b'0' + b / 64, b'0' + b / 8 % 8, b'0' + b % 8])
    }
}

fn add_escaped(bytes: &[u8], text: &mut Bytes) -> Result<(), memory::OutOfMemory>
    ensures { OnOk result (text.new ≡ text.old ++ escaped bytes.now) }
{
    for b in bytes {
        push_escaped(*b, text)?;
    }
    Ok(())
}

fn is_plain_text(bytes: &[u8]) -> bool
    ensures { result ≡ list_all is_plain_byte bytes.now }
{
    bytes.iter().all(|b| stays(*b))
}

fn write_each(alloc: Global, bytes: &[u8], to: &mut Bytes) -> Result<(), memory::OutOfMemory>
    ensures ok { OnOk result (to.new ≡ to.old ++ escaped bytes.now) }
    ensures err { OnErr result (to.new ≡ to.old) }
{
    let mut text = Bytes::new(alloc);
    add_escaped(bytes, &mut text)?;
    to.push(text.as_slice())
}

/// Adds the bytes to a text, with the backslash, the bytes below 32 and DEL each as a backslash and
/// three octal digits, as getfattr(1) writes a path. The text reads back as the bytes. After a
/// refusal `to` is unchanged.
pub fn write_escaped(alloc: Global, bytes: &[u8], to: &mut Bytes) -> Result<(), memory::OutOfMemory>
    ensures ok { OnOk result (to.new ≡ to.old ++ escaped bytes.now) }
    ensures err { OnErr result (to.new ≡ to.old) }
    ensures reads_back { unescaped (escaped bytes.now) ≡ Some bytes.now }
{
    if is_plain_text(bytes) {
        to.push(bytes)
    } else {
        write_each(alloc, bytes, to)
    }
}

fn octal(b: u8) -> bool
    ensures { result ≡ is_octal b }
{
    b >= b'0' && b <= b'7'
}

/// The byte that three octal digits stand for, none where one is no such digit or the value is
/// above 255.
pub fn octal_byte(x: u8, y: u8, z: u8) -> Option<u8>
    ensures { result ≡ octal_byte x y z }
{
    if !(octal(x) && octal(y) && octal(z)) {
        return None;
    }
    let value = u16::from(x - b'0') * 64 + u16::from(y - b'0') * 8 + u16::from(z - b'0');
    u8::try_from(value).ok()
}

// Reads what stands behind a backslash up to the next one, and gives what stands behind that.
fn read_piece<'a>(text: &'a [u8], read: &mut Bytes) -> Result<Option<&'a [u8]>, EscapeFault>
    ensures ok { IfOk result (λ left. in_front read.old (after_backslash text.now)
        ≡ in_front read.new (unescaped_left (option_copied left))) }
    ensures shorter { IfOk result (λ left. turns_left (option_copied left) ≤ length text.now) }
    ensures err { IfErr result (λ e. NoneUnless (is_free e) (after_backslash text.now)) }
{
    let [x, y, z, rest @ ..] = text else {
        return Err(EscapeFault::BadEscape);
    };
    let Some(b) = octal_byte(*x, *y, *z) else {
        return Err(EscapeFault::BadEscape);
    };
    let (plain, left) = cut_at(BACKSLASH, rest);
    read.push_byte(b)?;
    read.push(plain)?;
    Ok(left)
}

/// The bytes that an escaped text stands for: a backslash and three octal digits of a value up to
/// 255 are that byte, and any other byte but the backslash is itself, as setfattr(1) reads a path.
/// The answer is `BadEscape` exactly where a backslash isn't followed by such digits.
pub fn read_escaped(alloc: Global, bytes: &[u8]) -> Result<Bytes, EscapeFault>
    ensures { Finds (λ read. read) is_free result (unescaped bytes.now) }
{
    let mut read = Bytes::new(alloc);
    let (plain, mut left) = cut_at(BACKSLASH, bytes);
    read.push(plain)?;
    'pieces: while let Some(text) = left {
        left = read_piece(text, &mut read)?;
    }
    Ok(read)
}
