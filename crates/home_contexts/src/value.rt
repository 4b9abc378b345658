ghost use Rattle.std.specs.Prelude.{◌≡◌, ◌++◌, ◌+◌, ◌≤◌, length, min, OnOk};
ghost use Rattle.std.specs.List.{count_by};
ghost use Rattle.file_paths.specs.Path.{path_text};
ghost use Rattle.home_contexts.specs.Escaped.{is_special};
ghost use Rattle.home_contexts.specs.Words.{template_text, root_of, word_value, written_word};

use crate::escape::{add_escaped, stands_bare};
use crate::limits::MOST_TEXT_BYTES;
use crate::user::User;
use crate::word::{FieldPiece, Word};
use file_paths::NormPath;
use label_base::{Bytes, OutOfMemory};

// The text of a home without its last name.
pub(crate) fn root_text(home: &NormPath) -> &[u8]
    requires { 2 ≤ length home.now }
    ensures { result.now ≡ path_text (root_of home.now) }
{
    let text = home.as_text();
    let last = home.name(home.names() - 1);
    &text[..text.len() - last.len() - 1]
}

fn value_of(user: &User, word: Word) -> &[u8]
    ensures { result.now ≡ word_value user.now word }
{
    match word {
        Word::HomeRoot => root_text(&user.home),
        Word::HomeDir => user.home.as_text(),
        Word::Role => user.role.as_slice(),
        Word::User => user.name.as_slice(),
    }
}

fn write_value(value: &[u8], in_pattern: bool, to: &mut Bytes) -> Result<(), OutOfMemory>
    ensures { OnOk result (to.new ≡ to.old ++ written_word in_pattern value.now) }
{
    if in_pattern {
        add_escaped(value, to)
    } else {
        to.push(value)
    }
}

/// Adds what a user gives for a piece of a field.
pub(crate) fn write_piece(
    piece: FieldPiece,
    in_pattern: bool,
    user: &User,
    to: &mut Bytes,
) -> Result<(), OutOfMemory>
    ensures { OnOk result (to.new ≡ to.old ++ template_text in_pattern user.now piece) }
{
    match piece {
        FieldPiece::Byte(b) => to.push_byte(b),
        FieldPiece::Stands(word) => write_value(value_of(user, word), in_pattern, to),
    }
}

// How many bytes need a backslash.
fn count_marked(text: &[u8]) -> usize
    ensures { result ≡ count_by is_special text.now }
{
    text.iter().filter(|b| !stands_bare(**b)).count()
}

/// The sum, or one more than the most bytes that a text may have.
pub(crate) fn capped(so_far: u64, more: usize) -> u64
    ensures { result ≡ min (MOST_TEXT_BYTES + 1) (so_far + more) }
{
    so_far.saturating_add(more as u64).min(MOST_TEXT_BYTES + 1)
}

fn with_value(so_far: u64, value: &[u8], in_pattern: bool) -> u64
    ensures { result ≡ min (MOST_TEXT_BYTES + 1)
        (so_far + length (written_word in_pattern value.now)) }
{
    if in_pattern {
        capped(capped(so_far, value.len()), count_marked(value))
    } else {
        capped(so_far, value.len())
    }
}

/// The length so far and that of what a user gives for a piece of a field.
pub(crate) fn with_piece(so_far: u64, piece: FieldPiece, in_pattern: bool, user: &User) -> u64
    ensures { result ≡ min (MOST_TEXT_BYTES + 1)
        (so_far + length (template_text in_pattern user.now piece)) }
{
    match piece {
        FieldPiece::Byte(_) => capped(so_far, 1),
        FieldPiece::Stands(word) => with_value(so_far, value_of(user, word), in_pattern),
    }
}
