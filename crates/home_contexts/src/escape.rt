ghost use Rattle.std.specs.Prelude.{◌≡◌, ◌++◌, ◌≤◌, length, OnOk, OnErr};
ghost use Rattle.file_paths.specs.Path.{path_text};
ghost use Rattle.pattern_syntax.specs.declared.limits.TheConstants.{MOST_POSITIONS};
ghost use Rattle.home_contexts.specs.Escaped.{Matches, pattern_escaped, pattern_escaped_byte};
ghost use Rattle.home_contexts.specs.Escaped.{stands_bare};

use file_paths::{NormPath, SLASH};
use label_base::{Bytes, OutOfMemory};
use std::alloc::Global;

/// What takes a byte's meaning in a pattern from it.
pub const BACKSLASH: u8 = b'\\';

/// Without a meaning outside of bracket sets.
pub const HYPHEN: u8 = b'-';

pub(crate) fn stands_bare(b: u8) -> bool
    ensures { result ≡ stands_bare b }
{
    b.is_ascii_alphanumeric() || b == b'_' || b == HYPHEN || b == SLASH
}

fn push_escaped(b: u8, to: &mut Bytes) -> Result<(), OutOfMemory>
    ensures { OnOk result (to.new ≡ to.old ++ pattern_escaped_byte b) }
{
    if stands_bare(b) {
        to.push_byte(b)
    } else {
        to.push(&[BACKSLASH, b])
    }
}

// Adds a text, escaped.
pub(crate) fn add_escaped(text: &[u8], to: &mut Bytes) -> Result<(), OutOfMemory>
    ensures { OnOk result (to.new ≡ to.old ++ pattern_escaped text.now) }
{
    for b in text {
        push_escaped(*b, to)?;
    }
    Ok(())
}

/// Adds the text of a path to a pattern, with a backslash before each byte that isn't an ASCII
/// letter, an ASCII digit, `_`, `-` or `/`. After a refusal `to` is unchanged.
///
/// What is added is a pattern for that path alone, where it has no more bytes than a pattern may
/// have positions.
pub fn escape_path(alloc: Global, path: &NormPath, to: &mut Bytes) -> Result<(), OutOfMemory>
    ensures ok { OnOk result (to.new ≡ to.old ++ pattern_escaped (path_text path.now)) }
    ensures err { OnErr result (to.new ≡ to.old) }
    ensures alone { length (path_text path.now) ≤ MOST_POSITIONS
        → Matches (pattern_escaped (path_text path.now)) (path_text path.now) }
{
    let mut text = Bytes::new(alloc);
    let path = path.path();
    add_escaped(path.as_text(), &mut text)?;
    to.push(text.as_slice())
}
