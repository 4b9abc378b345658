ghost use Rattle.std.specs.Prelude.{◌≡◌, ◌++◌, IfOk, OnOk};
ghost use Rattle.path_reasons.specs.Kinds.{alike, begins_with, kind_letter, letter_if_alike};
ghost use Rattle.path_reasons.specs.Kinds.{letters_alike, letters_among};
ghost use Rattle.path_reasons.specs.Members.{specs_seen};

use crate::members::{Member, place_for};
use label_base::{Bytes, EntryKind, OutOfMemory};
use std::alloc::Global;

/// The kinds that are reported where none is asked for, in the order of their letters.
pub(crate) const TOLD_KINDS: [EntryKind; 7] = [
    EntryKind::Block,
    EntryKind::Char,
    EntryKind::Directory,
    EntryKind::Regular,
    EntryKind::Link,
    EntryKind::Pipe,
    EntryKind::Socket,
];

/// The letter that find(1) prints for a kind by `%y`.
pub(crate) fn kind_letter(kind: EntryKind) -> u8
    ensures { result ≡ kind_letter kind }
{
    match kind {
        EntryKind::Regular => b'f',
        EntryKind::Directory => b'd',
        EntryKind::Link => b'l',
        EntryKind::Pipe => b'p',
        EntryKind::Socket => b's',
        EntryKind::Block => b'b',
        EntryKind::Char => b'c',
        EntryKind::Other => b'U',
    }
}

// Whether entries of two kinds have the same answer: the same member decides for them, or none.
fn are_alike(members: &[Member<'_>], first: EntryKind, second: EntryKind) -> bool
    ensures { result ≡ alike (specs_seen members.now) first second }
{
    place_for(members, first) == place_for(members, second)
}

// Adds the letter of another kind, where it has the same answer.
#[tactic(auto, unfolding(crate::specs::Kinds::letter_if_alike))]
fn add_letter(
    members: &[Member<'_>],
    kind: EntryKind,
    other: EntryKind,
    letters: &mut Bytes,
) -> Result<(), OutOfMemory>
    ensures { OnOk result (letters.new ≡ letters.old
        ++ letter_if_alike (specs_seen members.now) kind other) }
{
    if !are_alike(members, kind, other) {
        return Ok(());
    }
    letters.push_byte(kind_letter(other))
}

// The letters of those of some kinds that have the same answer as a kind.
fn letters_among(
    alloc: Global,
    members: &[Member<'_>],
    kind: EntryKind,
    kinds: &[EntryKind],
) -> Result<Bytes, OutOfMemory>
    ensures { IfOk result (λ letters. letters
        ≡ letters_among (specs_seen members.now) kind kinds.now) }
{
    let mut letters = Bytes::new(alloc);
    'kinds: for other in kinds {
        add_letter(members, kind, *other, &mut letters)?;
    }
    Ok(letters)
}

/// The letters of all kinds that have the same answer as a kind.
#[tactic(auto, unfolding(crate::specs::Kinds::letters_alike))]
pub(crate) fn letters_alike(
    alloc: Global,
    members: &[Member<'_>],
    kind: EntryKind,
) -> Result<Bytes, OutOfMemory>
    ensures { IfOk result (λ letters. letters ≡ letters_alike (specs_seen members.now) kind) }
{
    letters_among(alloc, members, kind, &TOLD_KINDS)
}

/// Whether a byte is the first of some.
pub(crate) fn begins_with(byte: u8, bytes: &[u8]) -> bool
    ensures { result ≡ begins_with byte bytes.now }
{
    match bytes {
        [first, ..] => *first == byte,
        [] => false,
    }
}
