ghost use Rattle.std.specs.Prelude.{◌≡◌, ◌++◌, OnOk};
ghost use Rattle.std.specs.List.{list_all};
ghost use Rattle.label_base.specs.Escape.{is_plain_byte};
ghost use Rattle.setfattr_dump.specs.Values.{hex_byte, hex_bytes, is_digest, is_kept, quoted_byte};
ghost use Rattle.setfattr_dump.specs.Values.{quoted_bytes, value_text};

use crate::marks::{BACKSLASH, DEL, DIGEST_KEY, HEX_MARK, QUOTE, QUOTE_ESCAPE, QUOTE_MARK};
use label_base::{BLANK, Bytes, OutOfMemory};

// After a refusal of these functions the text has a front of what was to be added.

fn is_plain(b: u8) -> bool
    ensures { result ≡ is_plain_byte b }
{
    b != BACKSLASH && b >= BLANK && b != DEL
}

fn is_kept(b: u8) -> bool
    ensures { result ≡ is_kept b }
{
    b != QUOTE && is_plain(b)
}

fn push_quoted(b: u8, text: &mut Bytes) -> Result<(), OutOfMemory>
    ensures { OnOk result (text.new ≡ text.old ++ quoted_byte b) }
{
    if b == QUOTE {
        return text.push(QUOTE_ESCAPE);
    }
    if is_plain(b) {
        return text.push(&[b]);
    }
    text.push(&[BACKSLASH, b'0' + b / 64, b'0' + b / 8 % 8, b'0' + b % 8])
}

fn add_escaped(bytes: &[u8], text: &mut Bytes) -> Result<(), OutOfMemory>
    ensures { OnOk result (text.new ≡ text.old ++ quoted_bytes bytes.now) }
{
    for b in bytes {
        push_quoted(*b, text)?;
    }
    Ok(())
}

fn are_kept(bytes: &[u8]) -> bool
    ensures { result ≡ list_all is_kept bytes.now }
{
    bytes.iter().all(|b| is_kept(*b))
}

// The bytes as they stand between quotes.
fn add_quoted(bytes: &[u8], text: &mut Bytes) -> Result<(), OutOfMemory>
    ensures { OnOk result (text.new ≡ text.old ++ quoted_bytes bytes.now) }
{
    if are_kept(bytes) {
        text.push(bytes)
    } else {
        add_escaped(bytes, text)
    }
}

fn push_digits(b: u8, text: &mut Bytes) -> Result<(), OutOfMemory>
    ensures { OnOk result (text.new ≡ text.old ++ hex_byte b) }
{
    let mut digits = [0; 2];
    let Ok(()) = hex::encode_to_slice([b], &mut digits) else {
        unreachable!()
    };
    text.push(&digits)
}

fn add_digits(bytes: &[u8], text: &mut Bytes) -> Result<(), OutOfMemory>
    ensures { OnOk result (text.new ≡ text.old ++ hex_bytes bytes.now) }
{
    for b in bytes {
        push_digits(*b, text)?;
    }
    Ok(())
}

fn is_digest(key: &[u8]) -> bool
    ensures { result ≡ is_digest key.now }
{
    key == DIGEST_KEY
}

/// Adds the value of an attribute with this key.
pub fn add_value(key: &[u8], value: &[u8], text: &mut Bytes) -> Result<(), OutOfMemory>
    ensures { OnOk result (text.new ≡ text.old ++ value_text key.now value.now) }
{
    if is_digest(key) {
        text.push(HEX_MARK)?;
        return add_digits(value, text);
    }
    text.push(QUOTE_MARK)?;
    add_quoted(value, text)?;
    text.push(QUOTE_MARK)
}
