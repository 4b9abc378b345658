ghost use Rattle.std.specs.Prelude.{◌≡◌, ◌∷◌, [], IfOk};
ghost use Rattle.std.specs.List.{last_or};
ghost use Rattle.std.specs.Option.{option_copied};
ghost use Rattle.tool_words.specs.Words.{has_flag, has_operand, has_value, is_flag};
ghost use Rattle.tool_words.specs.Words.{is_letter_given, is_operand, kind_given, number_given};
ghost use Rattle.tool_words.specs.Words.{value_of, values_of};

use crate::item::{Item, Says};
use crate::values::number_named;
use label_base::{EntryKind, Name, OutOfMemory};
use std::alloc::Global;

fn is_flag(letter: u8, item: &Item<'_>) -> bool
    ensures { result ≡ is_flag letter item.now.says }
{
    match item.says {
        Says::Flag(other) => other == letter,
        _ => false,
    }
}

/// Whether this is a value of the letter.
pub fn is_given(letter: u8, item: &Item<'_>) -> bool
    ensures { result ≡ is_letter_given letter item.now.says }
{
    match item.says {
        Says::Given(valued) => valued.letter == letter,
        _ => false,
    }
}

/// Whether this is an operand.
pub fn is_operand(item: &Item<'_>) -> bool
    ensures { result ≡ is_operand item.now.says }
{
    match item.says {
        Says::Operand => true,
        _ => false,
    }
}

/// Whether the letter stands somewhere.
pub fn has_flag(letter: u8, items: &[Item<'_>]) -> bool
    ensures { result ≡ has_flag letter items.now }
{
    items.iter().any(|item| is_flag(letter, item))
}

/// Whether the letter has a value somewhere.
pub fn has_value(letter: u8, items: &[Item<'_>]) -> bool
    ensures { result ≡ has_value letter items.now }
{
    items.iter().any(|item| is_given(letter, item))
}

/// Whether there is an operand that is a path.
pub fn has_operand(items: &[Item<'_>]) -> bool
    ensures { result ≡ has_operand items.now }
{
    items.iter().any(|item| is_operand(item))
}

// The value of a letter, if there is one here, and else the one that was found before.
fn later_value<'a>(found: Option<&'a str>, letter: u8, item: &Item<'a>) -> Option<&'a str>
    ensures { option_copied result
        ≡ last_or (option_copied found.entry) (values_of letter (item.now ∷ [])) }
{
    if is_given(letter, item) {
        Some(item.text)
    } else {
        found
    }
}

/// The value of a letter; of several the last.
pub fn value_of<'a>(letter: u8, items: &[Item<'a>]) -> Option<&'a str>
    ensures { option_copied result ≡ value_of letter items.now }
{
    let mut found = None;
    'items: for item in items {
        found = later_value(found, letter, item);
    }
    found
}

/// The name of a file that is the value of a letter; of several the last.
pub fn name_of(alloc: Global, letter: u8, items: &[Item<'_>]) -> Result<Option<Name>, OutOfMemory>
    ensures { IfOk result (λ name. name ≡ value_of letter items.now) }
{
    match value_of(letter, items) {
        Some(text) => Ok(Some(Name::copy_of(alloc, text)?)),
        None => Ok(None),
    }
}

/// The number that is the value of a letter; of several values the last. There is none where it is
/// no number or too great.
pub fn number_of(letter: u8, most: u32, items: &[Item<'_>]) -> Option<u32>
    ensures { result ≡ number_given letter most items.now }
{
    number_named(most, value_of(letter, items)?)
}

/// The type of files that is the value of a letter; of several values the last.
pub fn kind_of(letter: u8, items: &[Item<'_>]) -> Option<EntryKind>
    ensures { result ≡ kind_given letter items.now }
{
    EntryKind::of_class_name(value_of(letter, items)?)
}
