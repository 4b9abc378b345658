ghost use Rattle.std.specs.Prelude.{◌≡◌, ◌∷◌, ◌++◌, ◌+◌, ◌<◌, ◌^◌, [], drop, get_or, length, IfOk};
ghost use Rattle.std.specs.Prelude.{OnOk};
ghost use Rattle.tool_words.specs.Items.{any_taken, ahead, is_cluster, item, items_of, letters_say};
ghost use Rattle.tool_words.specs.Items.{operand_says, operand_taken, other_says, taken, unended};
ghost use Rattle.tool_words.specs.Items.{valued_says, wrong};
ghost use Rattle.tool_words.specs.declared.cutting.Expects.TheVariants.{Any};
ghost use Rattle.tool_words.specs.declared.item.Says.TheVariants.{Given};
ghost use Rattle.tool_words.specs.Words.{word_texts};

use crate::item::{Item, Says};
use crate::letters::{Others, Takes, ToolLetters, Valued, takes_of};
use crate::usage::UsageWhy;
use label_base::{OutOfMemory, Row};
use std::alloc::Global;

/// What begins a word of option letters.
pub const DASH: u8 = b'-';

/// The word that ends the options.
pub const END: &str = "--";

/// What the next word may be.
#[derive(Clone, Copy)]
pub enum Expects {
    /// Options, the end of the options, or an operand.
    Any,
    /// The value of this letter, whatever the word begins with.
    ValueOf(Valued),
    /// An operand, since the options have ended.
    Operands,
}

/// What is ahead while words are read.
#[derive(Clone, Copy)]
pub struct WordsAhead {
    pub expects: Expects,
    /// Whether no operand stands before the next word.
    pub first: bool,
}

// Adds something that the words say.
fn add<'a>(
    says: Says,
    index: u32,
    text: &'a str,
    items: &mut Row<Item<'a>>,
) -> Result<(), OutOfMemory>
    ensures { OnOk result (items.new ≡ items.old ++ item says index text.now ∷ []) }
{
    items.push(Item { says, index, text })
}

fn add_wrong<'a>(why: UsageWhy, index: u32, items: &mut Row<Item<'a>>) -> Result<(), OutOfMemory>
    ensures { OnOk result (items.new ≡ items.old ++ wrong why index ∷ []) }
{
    add(Says::Wrong(why), index, "", items)
}

fn first_byte(text: &str) -> u8
    requires { 0 < length text.now }
    ensures { get_or text.now 0 0 ≡ result }
{
    text.as_bytes()[0]
}

// What stands behind a byte of ASCII.
fn behind_first(text: &str) -> &str
    requires some { 0 < length text.now }
    requires ascii { get_or text.now 0 0 < 128 }
    ensures { result.now ≡ drop 1 text.now }
{
    &text[1..]
}

// Adds the value of a letter where it stands behind the letter, or expects it of the next word.
fn add_valued<'a>(
    valued: Valued,
    index: u32,
    rest: &'a str,
    items: &mut Row<Item<'a>>,
) -> Result<Expects, OutOfMemory>
    ensures expects { IfOk result (λ expects. expects ≡ (valued_says index valued rest.now).1) }
    ensures items { OnOk result (items.new ≡ items.old ++ (valued_says index valued rest.now).0) }
{
    if rest.len() == 0 {
        return Ok(Expects::ValueOf(valued));
    }
    add(Says::Given(valued), index, rest, items)?;
    Ok(Expects::Any)
}

// Adds what the letters of a word say, and tells what they expect of the next word.
fn add_letters<'a>(
    tool: &ToolLetters<'_>,
    index: u32,
    letters: &'a str,
    items: &mut Row<Item<'a>>,
) -> Result<Expects, OutOfMemory>
    ensures expects { IfOk result (λ expects.
        expects ≡ (letters_say tool.now index letters.now).1) }
    ensures items { OnOk result
        (items.new ≡ items.old ++ (letters_say tool.now index letters.now).0) }
{
    let mut left = letters;
    'letters: while left.len() > 0 {
        let letter = first_byte(left);
        match takes_of(tool, letter) {
            Some(Takes::Flag) => add(Says::Flag(letter), index, "", items)?,
            Some(Takes::Value(form)) => {
                return add_valued(Valued { letter, form }, index, behind_first(left), items);
            }
            None => return add_refused(UsageWhy::UnknownOption, index, items),
        }
        left = behind_first(left);
    }
    Ok(Expects::Any)
}

// Adds that a letter is refused; what stands behind it in its word isn't looked at.
fn add_refused<'a>(
    why: UsageWhy,
    index: u32,
    items: &mut Row<Item<'a>>,
) -> Result<Expects, OutOfMemory>
    ensures expects { IfOk result (λ expects. expects ≡ Any) }
    ensures items { OnOk result (items.new ≡ items.old ++ wrong why index ∷ []) }
{
    add_wrong(why, index, items)?;
    Ok(Expects::Any)
}

fn is_cluster(word: &str) -> bool
    ensures { result ≡ is_cluster word.now }
{
    match word.as_bytes() {
        [first, _, ..] => *first == DASH,
        _ => false,
    }
}

// What an operand behind the first says.
fn other_says(others: Others) -> Says
    ensures { result ≡ other_says others }
{
    match others {
        Others::Paths => Says::Operand,
        Others::Refused(why) => Says::Wrong(why),
    }
}

// What an operand says, the first one or a later.
fn operand_says(tool: &ToolLetters<'_>, first: bool) -> Says
    ensures { result ≡ operand_says tool.now first }
{
    if !first {
        return other_says(tool.others);
    }
    match tool.first {
        Some(valued) => Says::Given(valued),
        None => other_says(tool.others),
    }
}

fn add_operand<'a>(
    tool: &ToolLetters<'_>,
    ahead: WordsAhead,
    index: u32,
    word: &'a str,
    items: &mut Row<Item<'a>>,
) -> Result<WordsAhead, OutOfMemory>
    ensures ahead { IfOk result (λ next.
        next ≡ (operand_taken tool.now ahead.expects ahead.first index word.now).1) }
    ensures items { OnOk result
        (items.new ≡ items.old
        ++ (operand_taken tool.now ahead.expects ahead.first index word.now).0) }
{
    add(operand_says(tool, ahead.first), index, word, items)?;
    Ok(WordsAhead {
        expects: ahead.expects,
        first: false,
    })
}

// Adds what a word says that may be one of options.
#[tactic(auto, unfolding(crate::specs::Items::any_taken))]
fn add_any<'a>(
    tool: &ToolLetters<'_>,
    first: bool,
    index: u32,
    word: &'a str,
    items: &mut Row<Item<'a>>,
) -> Result<WordsAhead, OutOfMemory>
    ensures ahead { IfOk result (λ next. next ≡ (any_taken tool.now first index word.now).1) }
    ensures items { OnOk result
        (items.new ≡ items.old ++ (any_taken tool.now first index word.now).0) }
{
    if word == END {
        return Ok(WordsAhead {
            expects: Expects::Operands,
            first,
        });
    }
    if is_cluster(word) {
        let expects = add_letters(tool, index, behind_first(word), items)?;
        return Ok(WordsAhead { expects, first });
    }
    let ahead = WordsAhead {
        expects: Expects::Any,
        first,
    };
    add_operand(tool, ahead, index, word, items)
}

// Adds what a word says, and tells what is ahead of the next one.
fn add_word<'a>(
    tool: &ToolLetters<'_>,
    ahead: WordsAhead,
    index: u32,
    word: &'a str,
    items: &mut Row<Item<'a>>,
) -> Result<WordsAhead, OutOfMemory>
    ensures ahead { IfOk result (λ next. next ≡ (taken tool.now ahead index word.now).1) }
    ensures items { OnOk result (items.new ≡ items.old ++ (taken tool.now ahead index word.now).0) }
{
    match ahead.expects {
        Expects::Any => add_any(tool, ahead.first, index, word, items),
        Expects::ValueOf(valued) => add_value(valued, ahead.first, index, word, items),
        Expects::Operands => add_operand(tool, ahead, index, word, items),
    }
}

fn add_value<'a>(
    valued: Valued,
    first: bool,
    index: u32,
    word: &'a str,
    items: &mut Row<Item<'a>>,
) -> Result<WordsAhead, OutOfMemory>
    ensures ahead { IfOk result (λ next. next ≡ ahead Any first) }
    ensures items { OnOk result (items.new ≡ items.old ++ item (Given valued) index word.now ∷ []) }
{
    add(Says::Given(valued), index, word, items)?;
    Ok(WordsAhead {
        expects: Expects::Any,
        first,
    })
}

// Adds that a value is missing, where one is expected at the end of so many words.
fn add_unended<'a>(
    expects: Expects,
    count: u32,
    items: &mut Row<Item<'a>>,
) -> Result<(), OutOfMemory>
    ensures { OnOk result (items.new ≡ items.old ++ unended expects count) }
{
    match expects {
        Expects::ValueOf(_) => add_wrong(UsageWhy::MissingValue, count.saturating_sub(1), items),
        Expects::Any | Expects::Operands => Ok(()),
    }
}

/// What the words behind a tool's name say, one thing at a time; the first has this index.
#[tactic(auto, unfolding(crate::specs::Items::items_from))]
pub fn items_of<'a>(
    alloc: Global,
    tool: &ToolLetters<'_>,
    words: &'a [String],
    first: u32,
) -> Result<Row<Item<'a>>, OutOfMemory>
    requires { length words.now + first < 2 ^ 31 }
    ensures { IfOk result (λ items. items ≡ items_of tool.now first (word_texts words.now)) }
{
    let mut items = Row::new(alloc);
    let mut ahead = WordsAhead {
        expects: Expects::Any,
        first: true,
    };
    let mut index = first;
    'words: for word in words {
        ahead = add_word(tool, ahead, index, word.as_str(), &mut items)?;
        index += 1;
    }
    add_unended(ahead.expects, index, &mut items)?;
    Ok(items)
}
