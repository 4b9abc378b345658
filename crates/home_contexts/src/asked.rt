ghost use Rattle.std.specs.Prelude.{◌≡◌, ◌<◌, ◌+◌, ◌^◌, IfOk, length};
ghost use Rattle.std.specs.Option.{option_copied};
ghost use Rattle.label_base.specs.Answers.{Answers, fault_cause};
ghost use Rattle.tool_words.specs.Words.{usage, word_texts};
ghost use Rattle.home_contexts.specs.Asked.{homes_words_in, homes_words, named_by};

use crate::letters::{OUTPUT, TEMPLATE, USERS, genhomedircon};
use label_base::{Fault, Name, OutOfMemory};
use std::alloc::Global;
use tool_words::{Item, Usage, UsageWhy, read_items, value_of};

/// What genhomedircon is asked for.
#[derive(Debug)]
pub struct HomesWords {
    /// The name of the template.
    pub template: Name,
    /// The name of the file of users.
    pub users: Name,
    /// The name of the file that gets the contexts of homes.
    pub output: Name,
}

// By hand: one call for an owner, where a derived drop is a step for each field.
impl Drop for HomesWords {
    fn drop(self) {
        let HomesWords {
            template: _,
            users: _,
            output: _,
        } = self;
    }
}

// What is missing at the end of the words, whose number this is.
fn missing(count: u32, why: UsageWhy) -> Usage
    ensures { result ≡ usage count why }
{
    Usage { index: count, why }
}

fn names_copied(
    alloc: Global,
    template: &str,
    users: &str,
    output: &str,
) -> Result<HomesWords, OutOfMemory>
    ensures { IfOk result (λ words. words ≡ record {
      template = template.now;
      users = users.now;
      output = output.now;
    }) }
{
    Ok(HomesWords {
        template: Name::copy_of(alloc, template)?,
        users: Name::copy_of(alloc, users)?,
        output: Name::copy_of(alloc, output)?,
    })
}

// The files that are named, or what is missing.
fn named_by(
    alloc: Global,
    count: u32,
    template: Option<&str>,
    users: Option<&str>,
    output: Option<&str>,
) -> Result<HomesWords, Fault<Usage>>
    ensures { Answers (λ words. words) fault_cause result (named_by count
        (option_copied template.entry) (option_copied users.entry) (option_copied output.entry)) }
{
    let Some(template) = template else {
        return Err(Fault::Why(missing(count, UsageWhy::MissingOperand)));
    };
    let Some(users) = users else {
        return Err(Fault::Why(missing(count, UsageWhy::MissingOperand)));
    };
    let Some(output) = output else {
        return Err(Fault::Why(missing(count, UsageWhy::NoOutput)));
    };
    Ok(names_copied(alloc, template, users, output)?)
}

// What words ask for that say this.
fn asked_in(alloc: Global, items: &[Item<'_>], count: u32) -> Result<HomesWords, Fault<Usage>>
    ensures { Answers (λ words. words) fault_cause result (homes_words_in items.now count) }
{
    named_by(
        alloc,
        count,
        value_of(TEMPLATE, items),
        value_of(USERS, items),
        value_of(OUTPUT, items),
    )
}

/// Reads the words of genhomedircon behind its name, the first of which has this index.
///
/// The error is the first word that is wrong, with its index; where none is, what is missing, with
/// the index behind the last.
pub fn read_homes(alloc: Global, words: &[String], first: u32) -> Result<HomesWords, Fault<Usage>>
    requires { length words.now + first < 2 ^ 31 }
    ensures { Answers (λ words. words) fault_cause result
        (homes_words first (word_texts words.now)) }
{
    let items = read_items(alloc, &genhomedircon(), words, first)?;
    asked_in(alloc, items.as_slice(), words.len() as u32 + first)
}
