ghost use Rattle.std.specs.Prelude.{◌≡◌, ◌<◌, ◌+◌, ◌^◌, ◌||◌, IfOk, length};
ghost use Rattle.label_base.specs.Answers.{Answers, fault_cause};
ghost use Rattle.tool_words.specs.Words.{has_flag, operand_paths, word_texts};
ghost use Rattle.tree_relabelling.specs.Words.{relabel_words_by, relabel_words_in, relabel_base};
ghost use Rattle.tree_relabelling.specs.Words.{relabel_choice, relabel_end_wrong, relabel_format};
ghost use Rattle.tree_relabelling.specs.Words.{lacks_output, relabel_options, relabel_words};
ghost use Rattle.tree_relabelling.specs.Words.{restorecon_words, setfiles_words, workers_of};

use crate::letters::{
    BASE, DIGESTS, DRY, EXCLUDED, FORCE, IGNORE_ABSENT, IGNORE_DIGESTS, LINK_COUNTS, MOST_WORKERS,
    ONE_DEVICE, OUTPUT, RECURSE, RECURSE_TOO, SOFT_ERRORS, STORED, STRICT_LINKS, VERBOSE,
    WARN_UNMATCHED, WORKERS, restorecon, setfiles,
};
use find_records::Format;
use label_base::{Fault, Name, OutOfMemory};
use policy_files::DEFAULT_BASE;
use relabel_core::Options;
use std::alloc::Global;
use tool_words::{
    Item, ToolLetters, Usage, UsageWhy, has_flag, has_operand, has_value, name_of, number_of,
    operands, paths_given, read_items, value_of,
};
use tree_model::Choice;

/// The number of workers where the words name none.
const DEFAULT_WORKERS: u32 = 1;

/// What setfiles(8) or restorecon(8) is asked for.
#[derive(Debug)]
pub struct RelabelWords {
    /// The name of the file of specifications.
    pub base: Name,
    /// The entries that are meant.
    pub choice: Choice,
    /// How they are walked.
    pub options: Options,
    /// How many workers walk, at most [`MOST_WORKERS`](crate::MOST_WORKERS); 0 is the number of
    /// cores.
    pub workers: u32,
    /// Errors of the walk end the run with status 1.
    pub soft_errors: bool,
    /// The name of the file of stored digests.
    pub stored: Option<Name>,
    /// The name of the file that gets the dump.
    pub output: Option<Name>,
}

// By hand: one call for an owner, where a derived drop is a step for each field.
impl Drop for RelabelWords {
    fn drop(self) {
        let RelabelWords {
            base: _,
            choice: _,
            options: _,
            workers: _,
            soft_errors: _,
            stored: _,
            output: _,
        } = self;
    }
}

// The format of the records.
fn format_of(items: &[Item<'_>]) -> Format
    ensures { result ≡ relabel_format items.now }
{
    if has_flag(LINK_COUNTS, items) {
        Format::Two
    } else {
        Format::One
    }
}

fn options_of(items: &[Item<'_>]) -> Options
    ensures { result ≡ relabel_options items.now }
{
    Options {
        force: has_flag(FORCE, items),
        dry: has_flag(DRY, items),
        digests: has_flag(DIGESTS, items),
        ignore_digests: has_flag(IGNORE_DIGESTS, items),
        verbose: has_flag(VERBOSE, items),
        warn_unmatched: has_flag(WARN_UNMATCHED, items),
        strict_links: has_flag(STRICT_LINKS, items),
        ignore_absent: has_flag(IGNORE_ABSENT, items),
        format: format_of(items),
    }
}

fn base_of(alloc: Global, items: &[Item<'_>]) -> Result<Name, OutOfMemory>
    ensures { IfOk result (λ name. name ≡ relabel_base items.now) }
{
    match value_of(BASE, items) {
        Some(text) => Name::copy_of(alloc, text),
        None => Name::copy_of(alloc, DEFAULT_BASE),
    }
}

fn workers_of(items: &[Item<'_>]) -> u32
    ensures { result ≡ workers_of items.now }
{
    number_of(WORKERS, MOST_WORKERS, items).unwrap_or(DEFAULT_WORKERS)
}

fn does_recurse(items: &[Item<'_>]) -> bool
    ensures { result ≡ (has_flag RECURSE items.now || has_flag RECURSE_TOO items.now) }
{
    has_flag(RECURSE, items) || has_flag(RECURSE_TOO, items)
}

// What is meant of a tree, where `always` says that what lies below the operands is meant too.
fn choice_of(alloc: Global, always: bool, items: &[Item<'_>]) -> Result<Choice, OutOfMemory>
    ensures { IfOk result (λ choice. choice ≡ relabel_choice always items.now) }
{
    Ok(Choice {
        operands: operands(alloc, items)?,
        excluded: paths_given(alloc, EXCLUDED, items)?,
        recurse: always || does_recurse(items),
        one_device: has_flag(ONE_DEVICE, items),
    })
}

// What the words ask for, where nothing is wrong with them.
fn asked_by(alloc: Global, always: bool, items: &[Item<'_>]) -> Result<RelabelWords, OutOfMemory>
    ensures { IfOk result (λ words. words ≡ relabel_words_by always items.now) }
{
    Ok(RelabelWords {
        base: base_of(alloc, items)?,
        choice: choice_of(alloc, always, items)?,
        options: options_of(items),
        workers: workers_of(items),
        soft_errors: has_flag(SOFT_ERRORS, items),
        stored: name_of(alloc, STORED, items)?,
        output: name_of(alloc, OUTPUT, items)?,
    })
}

fn lacks_output(items: &[Item<'_>]) -> bool
    ensures { result ≡ lacks_output items.now }
{
    !(has_flag(DRY, items) || has_value(OUTPUT, items))
}

// What is missing at the end of the words, whose number this is.
#[tactic(auto, unfolding(crate::specs::Words::relabel_end_wrong))]
fn end_wrong(items: &[Item<'_>], count: u32) -> Option<Usage>
    ensures { result ≡ relabel_end_wrong items.now count }
{
    if !has_operand(items) {
        return Some(Usage {
            index: count,
            why: UsageWhy::MissingOperand,
        });
    }
    if lacks_output(items) {
        return Some(Usage {
            index: count,
            why: UsageWhy::NoOutput,
        });
    }
    None
}

// What words ask for that say this.
fn asked_in(
    alloc: Global,
    always: bool,
    items: &[Item<'_>],
    count: u32,
) -> Result<RelabelWords, Fault<Usage>>
    ensures meant { Answers (λ words. words) fault_cause result
        (relabel_words_in always items.now count) }
    ensures operands { IfOk result (λ words.
        words.choice.operands ≡ operand_paths items.now) }
{
    match end_wrong(items, count) {
        Some(wrong) => Err(Fault::Why(wrong)),
        None => Ok(asked_by(alloc, always, items)?),
    }
}

// Reads the words behind a tool's name, the first of which has this index.
fn read_words(
    alloc: Global,
    tool: &ToolLetters<'_>,
    always: bool,
    words: &[String],
    first: u32,
) -> Result<RelabelWords, Fault<Usage>>
    requires { length words.now + first < 2 ^ 31 }
    ensures meant { Answers (λ words. words) fault_cause result
        (relabel_words tool.now always first (word_texts words.now)) }
    ensures few { IfOk result (λ asked. length asked.choice.operands < 2 ^ 31) }
{
    let items = read_items(alloc, tool, words, first)?;
    asked_in(alloc, always, items.as_slice(), words.len() as u32 + first)
}

/// Reads the words of setfiles behind its name, the first of which has this index.
///
/// The error is the first word that is wrong, with its index; where none is, what is missing, with
/// the index behind the last.
pub fn read_setfiles(
    alloc: Global,
    words: &[String],
    first: u32,
) -> Result<RelabelWords, Fault<Usage>>
    requires { length words.now + first < 2 ^ 31 }
    ensures meant { Answers (λ words. words) fault_cause result
        (setfiles_words first (word_texts words.now)) }
    ensures few { IfOk result (λ asked. length asked.choice.operands < 2 ^ 31) }
{
    read_words(alloc, &setfiles(), true, words, first)
}

/// Reads the words of restorecon behind its name, as [`read_setfiles`] does those of setfiles.
pub fn read_restorecon(
    alloc: Global,
    words: &[String],
    first: u32,
) -> Result<RelabelWords, Fault<Usage>>
    requires { length words.now + first < 2 ^ 31 }
    ensures meant { Answers (λ words. words) fault_cause result
        (restorecon_words first (word_texts words.now)) }
    ensures few { IfOk result (λ asked. length asked.choice.operands < 2 ^ 31) }
{
    read_words(alloc, &restorecon(), false, words, first)
}
