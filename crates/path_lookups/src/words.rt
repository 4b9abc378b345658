ghost use Rattle.std.specs.Prelude.{◌≡◌, ◌<◌, ◌+◌, ◌^◌, IfOk, length};
ghost use Rattle.label_base.specs.Answers.{Answers, fault_cause};
ghost use Rattle.tool_words.specs.Words.{operand_paths, word_texts};
ghost use Rattle.path_lookups.specs.Words.{lookup_words_by, lookup_words_in, lookup_base};
ghost use Rattle.path_lookups.specs.Words.{lookup_end_wrong, lookup_format, lookup_words};

use crate::letters::{ASKED, BARE, BASE, LINK_COUNTS, VERIFY, matchpathcon};
use file_paths::NormPath;
use find_records::Format;
use label_base::{EntryKind, Fault, Name, OutOfMemory, Row};
use policy_files::DEFAULT_BASE;
use std::alloc::Global;
use tool_words::{
    Item, Usage, UsageWhy, has_flag, has_operand, kind_of, operands, read_items, value_of,
};

/// What matchpathcon(8) is asked for.
#[derive(Debug)]
pub struct LookupWords {
    /// The name of the file of specifications.
    pub base: Name,
    /// The type of files that the paths are looked up for; any where there is none.
    pub asked: Option<EntryKind>,
    /// The lines are without the paths.
    pub bare: bool,
    /// What the paths should have is compared to what they have.
    pub verify: bool,
    /// The paths, in the order of the words.
    pub paths: Row<NormPath>,
    /// The format of the records, where they are read.
    pub format: Format,
}

// By hand: one call for an owner, where a derived drop is a step for each field.
impl Drop for LookupWords {
    fn drop(self) {
        let LookupWords {
            base: _,
            asked: _,
            bare: _,
            verify: _,
            paths: _,
            format: _,
        } = self;
    }
}

fn base_of(alloc: Global, items: &[Item<'_>]) -> Result<Name, OutOfMemory>
    ensures { IfOk result (λ name. name ≡ lookup_base items.now) }
{
    match value_of(BASE, items) {
        Some(text) => Name::copy_of(alloc, text),
        None => Name::copy_of(alloc, DEFAULT_BASE),
    }
}

// The format of the records.
fn format_of(items: &[Item<'_>]) -> Format
    ensures { result ≡ lookup_format items.now }
{
    if has_flag(LINK_COUNTS, items) {
        Format::Two
    } else {
        Format::One
    }
}

// What the words ask for, where nothing is wrong with them.
fn asked_by(alloc: Global, items: &[Item<'_>]) -> Result<LookupWords, OutOfMemory>
    ensures { IfOk result (λ words. words ≡ lookup_words_by items.now) }
{
    Ok(LookupWords {
        base: base_of(alloc, items)?,
        asked: kind_of(ASKED, items),
        bare: has_flag(BARE, items),
        verify: has_flag(VERIFY, items),
        format: format_of(items),
        paths: operands(alloc, items)?,
    })
}

// What is missing at the end of the words, whose number this is.
fn end_wrong(items: &[Item<'_>], count: u32) -> Option<Usage>
    ensures { result ≡ lookup_end_wrong items.now count }
{
    if has_operand(items) {
        return None;
    }
    Some(Usage {
        index: count,
        why: UsageWhy::MissingOperand,
    })
}

// What words ask for that say this.
fn asked_in(alloc: Global, items: &[Item<'_>], count: u32) -> Result<LookupWords, Fault<Usage>>
    ensures meant { Answers (λ words. words) fault_cause result (lookup_words_in items.now count) }
    ensures operands { IfOk result (λ words. words.paths ≡ operand_paths items.now) }
{
    match end_wrong(items, count) {
        Some(wrong) => Err(Fault::Why(wrong)),
        None => Ok(asked_by(alloc, items)?),
    }
}

/// Reads the words of matchpathcon behind its name, the first of which has this index.
///
/// The error is the first word that is wrong, with its index; where none is, what is missing, with
/// the index behind the last.
pub fn read_lookup(alloc: Global, words: &[String], first: u32) -> Result<LookupWords, Fault<Usage>>
    requires { length words.now + first < 2 ^ 31 }
    ensures meant { Answers (λ words. words) fault_cause result
        (lookup_words first (word_texts words.now)) }
    ensures few { IfOk result (λ asked. length asked.paths < 2 ^ 31) }
{
    let items = read_items(alloc, &matchpathcon(), words, first)?;
    asked_in(alloc, items.as_slice(), words.len() as u32 + first)
}
