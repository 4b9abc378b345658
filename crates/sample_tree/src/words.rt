ghost use Rattle.std.specs.Prelude.{◌≡◌, ◌<◌, ◌+◌, ◌^◌, length};
ghost use Rattle.label_base.specs.Answers.{Answers, fault_cause};
ghost use Rattle.tool_words.specs.Words.{word_texts};
ghost use Rattle.sample_tree.specs.Words.{sample_words_in, sample_count, sample_end_wrong, sample};
ghost use Rattle.sample_tree.specs.Words.{sample_words};

use label_base::Fault;
use std::alloc::Global;
use tool_words::{
    Form, Item, Others, ToolLetters, Usage, UsageWhy, Valued, has_value, number_of, read_items,
};

/// The most files that a sample can have.
pub const MOST_FILES: u32 = 1_000_000;

/// The number of files. It is no option: the one operand counts as its value.
const COUNT: u8 = b'N';

/// What sample is asked for.
#[derive(Debug, Drop)]
pub struct SampleWords {
    /// The number of files, at most [`MOST_FILES`].
    pub count: u32,
}

// The words of sample: one operand, a number.
fn sample() -> ToolLetters<'static>
    ensures { result ≡ sample }
{
    ToolLetters {
        letters: &[],
        first: Some(Valued {
            letter: COUNT,
            form: Form::Number { most: MOST_FILES },
        }),
        others: Others::Refused(UsageWhy::BadNumber),
    }
}

fn count_of(items: &[Item<'_>]) -> u32
    ensures { result ≡ sample_count items.now }
{
    number_of(COUNT, MOST_FILES, items).unwrap_or(0)
}

// What is missing at the end of the words, whose number this is.
fn end_wrong(items: &[Item<'_>], count: u32) -> Option<Usage>
    ensures { result ≡ sample_end_wrong items.now count }
{
    if has_value(COUNT, items) {
        return None;
    }
    Some(Usage {
        index: count,
        why: UsageWhy::MissingOperand,
    })
}

// What words ask for that say this.
fn asked_in(items: &[Item<'_>], count: u32) -> Result<SampleWords, Fault<Usage>>
    ensures { Answers (λ words. words) fault_cause result (sample_words_in items.now count) }
{
    match end_wrong(items, count) {
        Some(wrong) => Err(Fault::Why(wrong)),
        None => Ok(SampleWords {
            count: count_of(items),
        }),
    }
}

/// Reads the words of sample behind its name, the first of which has this index.
///
/// The error is the first word that is wrong, with its index; where none is, what is missing, with
/// the index behind the last.
pub fn read_sample(alloc: Global, words: &[String], first: u32) -> Result<SampleWords, Fault<Usage>>
    requires { length words.now + first < 2 ^ 31 }
    ensures { Answers (λ words. words) fault_cause result
        (sample_words first (word_texts words.now)) }
{
    let items = read_items(alloc, &sample(), words, first)?;
    asked_in(items.as_slice(), words.len() as u32 + first)
}
