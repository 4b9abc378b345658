ghost use Rattle.std.specs.Prelude.{◌≡◌, ◌==◌, ◌&&◌};
ghost use Rattle.file_paths.specs.Path.{path_read};
ghost use Rattle.tool_words.specs.Values.{first_wrong, form_wrong, item_wrong, Judges, path_wrong};
ghost use Rattle.tool_words.specs.Values.{says_wrong};
ghost use Rattle.tool_words.specs.Words.{all_within, is_letter_given, room_behind, within_room};

use crate::item::{Item, Says};
use crate::letters::Form;
use crate::said::is_given;
use crate::usage::{Usage, UsageWhy};
use crate::values::{kind_wrong, name_wrong, number_wrong};
use file_paths::NormPath;
use label_base::Fault;
use std::alloc::Global;

fn check_path(alloc: Global, text: &str) -> Result<(), Fault<UsageWhy>>
    ensures { Judges result (path_wrong (path_read text.now)) }
{
    match NormPath::read(alloc, text.as_bytes()) {
        Ok(_) => Ok(()),
        Err(Fault::Why(_)) => Err(Fault::Why(UsageWhy::BadPath)),
        Err(Fault::OutOfMemory) => Err(Fault::OutOfMemory),
    }
}

fn refused_for(wrong: Option<UsageWhy>) -> Result<(), Fault<UsageWhy>>
    ensures { Judges result wrong }
{
    match wrong {
        Some(why) => Err(Fault::Why(why)),
        None => Ok(()),
    }
}

// Looks for what is wrong with a value of this form.
fn check_value(alloc: Global, form: Form, text: &str) -> Result<(), Fault<UsageWhy>>
    ensures { Judges result (form_wrong form text.now) }
{
    match form {
        Form::Number { most } => refused_for(number_wrong(most, text)),
        Form::Path => check_path(alloc, text),
        Form::Name => refused_for(name_wrong(text)),
        Form::Kind => refused_for(kind_wrong(text)),
    }
}

// Looks for what is wrong with something that the words say.
fn check_said(alloc: Global, item: &Item<'_>) -> Result<(), Fault<UsageWhy>>
    ensures { Judges result (says_wrong item.now.says item.now.text) }
{
    match item.says {
        Says::Flag(_) => Ok(()),
        Says::Given(valued) => check_value(alloc, valued.form, item.text),
        Says::Operand => check_path(alloc, item.text),
        Says::Wrong(why) => Err(Fault::Why(why)),
    }
}

// The same, with the index of the word in which it stands.
fn check_item(alloc: Global, item: &Item<'_>) -> Result<(), Fault<Usage>>
    ensures { Judges result (item_wrong item.now) }
{
    match check_said(alloc, item) {
        Ok(()) => Ok(()),
        Err(Fault::Why(why)) => Err(Fault::Why(Usage {
            index: item.index,
            why,
        })),
        Err(Fault::OutOfMemory) => Err(Fault::OutOfMemory),
    }
}

/// Looks for the first that is wrong among what the words say.
pub fn check_items(alloc: Global, items: &[Item<'_>]) -> Result<(), Fault<Usage>>
    ensures { Judges result (first_wrong items.now) }
{
    'items: for item in items {
        check_item(alloc, item)?;
    }
    Ok(())
}

// Whether this is a value of the letter for which there is no room.
fn is_past(letter: u8, room: u32, item: &Item<'_>) -> bool
    ensures { result ≡ (is_letter_given letter item.now.says && (room == 0)) }
{
    is_given(letter, item) && room == 0
}

// Looks for what is wrong with something that the words say, where a letter has room for so many
// values.
fn check_within(alloc: Global, letter: u8, room: u32, item: &Item<'_>) -> Result<(), Fault<Usage>>
    ensures { Judges result (item_wrong (within_room letter room item.now)) }
{
    if is_past(letter, room, item) {
        return Err(Fault::Why(Usage {
            index: item.index,
            why: UsageWhy::BadNumber,
        }));
    }
    check_item(alloc, item)
}

fn room_behind(letter: u8, room: u32, item: &Item<'_>) -> u32
    ensures { result ≡ room_behind letter room item.now }
{
    if is_given(letter, item) {
        room.saturating_sub(1)
    } else {
        room
    }
}

/// Looks for the first that is wrong among what the words say, where a letter may have at most so
/// many values.
pub fn check_items_within(
    alloc: Global,
    letter: u8,
    most: u32,
    items: &[Item<'_>],
) -> Result<(), Fault<Usage>>
    ensures { Judges result (first_wrong (all_within letter most items.now)) }
{
    let mut room = most;
    'counted: for item in items {
        check_within(alloc, letter, room, item)?;
        room = room_behind(letter, room, item);
    }
    Ok(())
}
