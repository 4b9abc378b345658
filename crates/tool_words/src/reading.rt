ghost use Rattle.std.specs.Prelude.{◌<◌, ◌≤◌, ◌+◌, ◌^◌, IfOk, length};
ghost use Rattle.label_base.specs.Answers.{Answers, fault_cause};
ghost use Rattle.tool_words.specs.Words.{items_read, items_within, operand_paths, values_of};
ghost use Rattle.tool_words.specs.Words.{word_texts};

use crate::checks::{check_items, check_items_within};
use crate::cutting::items_of;
use crate::item::Item;
use crate::letters::ToolLetters;
use crate::usage::Usage;
use label_base::{Fault, Row};
use std::alloc::Global;

// Reads the words, and looks for the first that is wrong.
fn read_checked<'a>(
    alloc: Global,
    tool: &ToolLetters<'_>,
    words: &'a [String],
    first: u32,
) -> Result<Row<Item<'a>>, Fault<Usage>>
    requires { length words.now + first < 2 ^ 31 }
    ensures { Answers (λ items. items) fault_cause result
        (items_read tool.now first (word_texts words.now)) }
{
    let items = items_of(alloc, tool, words, first)?;
    check_items(alloc, items.as_slice())?;
    Ok(items)
}

/// Reads the words behind a tool's name, of which the first has this index, by the tool's letters:
/// what they say, one thing at a time.
///
/// Words are looked at from left to right, and the first that is wrong is told with its index. What
/// the tool misses at their end is for the tool to tell.
pub fn read_items<'a>(
    alloc: Global,
    tool: &ToolLetters<'_>,
    words: &'a [String],
    first: u32,
) -> Result<Row<Item<'a>>, Fault<Usage>>
    requires { length words.now + first < 2 ^ 31 }
    ensures meant { Answers (λ items. items) fault_cause result
        (items_read tool.now first (word_texts words.now)) }
    ensures few { IfOk result (λ items. length (operand_paths items) ≤ length words.now) }
{
    read_checked(alloc, tool, words, first)
}

// Reads the words, and looks for the first that is wrong, where a letter may have at most so many
// values.
fn read_checked_within<'a>(
    alloc: Global,
    tool: &ToolLetters<'_>,
    words: &'a [String],
    first: u32,
    letter: u8,
    most: u32,
) -> Result<Row<Item<'a>>, Fault<Usage>>
    requires { length words.now + first < 2 ^ 31 }
    ensures { Answers (λ items. items) fault_cause result
        (items_within tool.now letter most first (word_texts words.now)) }
{
    let items = items_of(alloc, tool, words, first)?;
    check_items_within(alloc, letter, most, items.as_slice())?;
    Ok(items)
}

/// Reads words as [`read_items`] does, where a letter may have at most so many values: one more is
/// a bad number at its word, whatever it is.
pub fn read_items_within<'a>(
    alloc: Global,
    tool: &ToolLetters<'_>,
    words: &'a [String],
    first: u32,
    letter: u8,
    most: u32,
) -> Result<Row<Item<'a>>, Fault<Usage>>
    requires { length words.now + first < 2 ^ 31 }
    ensures meant { Answers (λ items. items) fault_cause result
        (items_within tool.now letter most first (word_texts words.now)) }
    ensures few { IfOk result (λ items. length (operand_paths items) ≤ length words.now) }
    ensures counted { IfOk result (λ items. length (values_of letter items) ≤ most) }
{
    read_checked_within(alloc, tool, words, first, letter, most)
}
