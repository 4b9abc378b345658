ghost use Rattle.std.specs.Prelude.{◌≡◌, ◌<◌, ◌≤◌, ◌+◌, ◌^◌, IfOk, false, length};
ghost use Rattle.label_base.specs.Answers.{Answers, fault_cause};
ghost use Rattle.tool_words.specs.Words.{operand_paths, values_of, word_texts};
ghost use Rattle.policy_rehearsal.specs.Words.{AreFew, rehearse_words_by, rehearse_words_in};
ghost use Rattle.policy_rehearsal.specs.Words.{rehearse_choice, rehearse_end_wrong};
ghost use Rattle.policy_rehearsal.specs.Words.{rehearse_format, rehearse_options, rehearse_words};

use crate::letters::{
    BASE, DIGESTS, EXCLUDED, FORCE, IGNORE_ABSENT, IGNORE_DIGESTS, LINK_COUNTS, MOST_POLICIES,
    ONE_DEVICE, rehearse,
};
use find_records::Format;
use label_base::{Fault, Name, OutOfMemory, Row};
use relabel_core::Options;
use std::alloc::Global;
use tool_words::{
    Item, Usage, UsageWhy, has_flag, has_operand, has_value, names_of, operands, paths_given,
    read_items_within,
};
use tree_model::Choice;

/// What rehearse is asked for.
#[derive(Debug)]
pub struct RehearseWords {
    /// The names of the files of specifications, one for each version, at most
    /// [`MOST_POLICIES`](crate::MOST_POLICIES).
    pub bases: Row<Name>,
    /// The entries that are meant.
    pub choice: Choice,
    /// How they are walked.
    pub options: Options,
}

// By hand: one call for an owner, where a derived drop is a step for each field.
impl Drop for RehearseWords {
    fn drop(self) {
        let RehearseWords {
            bases: _,
            choice: _,
            options: _,
        } = self;
    }
}

// The format of the records.
fn format_of(items: &[Item<'_>]) -> Format
    ensures { result ≡ rehearse_format items.now }
{
    if has_flag(LINK_COUNTS, items) {
        Format::Two
    } else {
        Format::One
    }
}

fn options_of(items: &[Item<'_>]) -> Options
    ensures { result ≡ rehearse_options items.now }
{
    Options {
        force: has_flag(FORCE, items),
        dry: false,
        digests: has_flag(DIGESTS, items),
        ignore_digests: has_flag(IGNORE_DIGESTS, items),
        verbose: false,
        warn_unmatched: false,
        strict_links: false,
        ignore_absent: has_flag(IGNORE_ABSENT, items),
        format: format_of(items),
    }
}

fn choice_of(alloc: Global, items: &[Item<'_>]) -> Result<Choice, OutOfMemory>
    ensures { IfOk result (λ choice. choice ≡ rehearse_choice items.now) }
{
    Ok(Choice {
        operands: operands(alloc, items)?,
        excluded: paths_given(alloc, EXCLUDED, items)?,
        recurse: true,
        one_device: has_flag(ONE_DEVICE, items),
    })
}

// What the words ask for, where nothing is wrong with them.
fn asked_by(alloc: Global, items: &[Item<'_>]) -> Result<RehearseWords, OutOfMemory>
    ensures { IfOk result (λ words. words ≡ rehearse_words_by items.now) }
{
    Ok(RehearseWords {
        bases: names_of(alloc, BASE, items)?,
        choice: choice_of(alloc, items)?,
        options: options_of(items),
    })
}

// What is missing at the end of the words, whose number this is.
fn end_wrong(items: &[Item<'_>], count: u32) -> Option<Usage>
    ensures { result ≡ rehearse_end_wrong items.now count }
{
    if has_value(BASE, items) && has_operand(items) {
        return None;
    }
    Some(Usage {
        index: count,
        why: UsageWhy::MissingOperand,
    })
}

// What words ask for that say this.
fn asked_in(alloc: Global, items: &[Item<'_>], count: u32) -> Result<RehearseWords, Fault<Usage>>
    ensures meant { Answers (λ words. words) fault_cause result
        (rehearse_words_in items.now count) }
    ensures policies { IfOk result (λ words. words.bases ≡ values_of BASE items.now) }
    ensures operands { IfOk result (λ words.
        words.choice.operands ≡ operand_paths items.now) }
    ensures wet { IfOk result (λ words. words.options.dry ≡ false) }
{
    match end_wrong(items, count) {
        Some(wrong) => Err(Fault::Why(wrong)),
        None => Ok(asked_by(alloc, items)?),
    }
}

/// Reads the words of rehearse behind its name, the first of which has this index.
///
/// The error is the first word that is wrong, with its index; where none is, what is missing, with
/// the index behind the last.
pub fn read_rehearse(
    alloc: Global,
    words: &[String],
    first: u32,
) -> Result<RehearseWords, Fault<Usage>>
    requires { length words.now + first < 2 ^ 31 }
    ensures meant { Answers (λ words. words) fault_cause result
        (rehearse_words first (word_texts words.now)) }
    ensures few { IfOk result AreFew }
{
    let items = read_items_within(alloc, &rehearse(), words, first, BASE, MOST_POLICIES)?;
    asked_in(alloc, items.as_slice(), words.len() as u32 + first)
}
