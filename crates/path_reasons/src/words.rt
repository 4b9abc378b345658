ghost use Rattle.std.specs.Prelude.{◌≡◌, ◌<◌, ◌+◌, ◌^◌, IfOk, length};
ghost use Rattle.label_base.specs.Answers.{Answers, fault_cause};
ghost use Rattle.tool_words.specs.Words.{operand_paths, word_texts};
ghost use Rattle.path_reasons.specs.Words.{base_end, base_named, explain_base, explain_end_wrong};
ghost use Rattle.path_reasons.specs.Words.{explain_words, explain_words_by, explain_words_in};
ghost use Rattle.path_reasons.specs.Words.{is_folder};

use crate::letters::{ASKED, BASE, BRIEF, explain};
use file_paths::NormPath;
use label_base::{EntryKind, Fault, Name, OutOfMemory, Row};
use policy_files::DEFAULT_BASE;
use std::alloc::Global;
use tool_words::{
    Item, Usage, UsageWhy, has_flag, has_operand, kind_of, operands, read_items, value_of,
};

// The name of the file of specifications in the folder of an installed policy.
const FILE_CONTEXTS: &str = "file_contexts";

const SLASH: u8 = b'/';

/// What explain is asked for.
#[derive(Debug)]
pub struct ExplainWords {
    /// The name of the file of specifications.
    pub base: Name,
    /// The kind that the paths are looked up for; each kind where there is none.
    pub asked: Option<EntryKind>,
    /// One line for each path and kind.
    pub brief: bool,
    /// The paths, in the order of the words.
    pub paths: Row<NormPath>,
}

// By hand: one call for an owner, where a derived drop is a step for each field.
impl Drop for ExplainWords {
    fn drop(self) {
        let ExplainWords {
            base: _,
            asked: _,
            brief: _,
            paths: _,
        } = self;
    }
}

// Whether a name is a folder's: it ends with a slash.
fn is_folder(name: &[u8]) -> bool
    ensures { result ≡ is_folder name.now }
{
    if name.is_empty() {
        return false;
    }
    name[name.len() - 1] == SLASH
}

// What stands behind a name to make it that of a file of specifications.
fn end_of(name: &str) -> &'static str
    ensures { result.now ≡ base_end name.now }
{
    if is_folder(name.as_bytes()) {
        FILE_CONTEXTS
    } else {
        ""
    }
}

// The file of specifications that a name means.
fn base_named(alloc: Global, name: &str) -> Result<Name, OutOfMemory>
    ensures { IfOk result (λ base. base ≡ base_named name.now) }
{
    let mut base = Name::copy_of(alloc, name)?;
    base.push(end_of(name))?;
    Ok(base)
}

fn base_of(alloc: Global, items: &[Item<'_>]) -> Result<Name, OutOfMemory>
    ensures { IfOk result (λ name. name ≡ explain_base items.now) }
{
    match value_of(BASE, items) {
        Some(text) => base_named(alloc, text),
        None => Name::copy_of(alloc, DEFAULT_BASE),
    }
}

// What the words ask for, where nothing is wrong with them.
fn asked_by(alloc: Global, items: &[Item<'_>]) -> Result<ExplainWords, OutOfMemory>
    ensures { IfOk result (λ words. words ≡ explain_words_by items.now) }
{
    Ok(ExplainWords {
        base: base_of(alloc, items)?,
        asked: kind_of(ASKED, items),
        brief: has_flag(BRIEF, items),
        paths: operands(alloc, items)?,
    })
}

// What is missing at the end of the words, whose number this is.
fn end_wrong(items: &[Item<'_>], count: u32) -> Option<Usage>
    ensures { result ≡ explain_end_wrong items.now count }
{
    if has_operand(items) {
        return None;
    }
    Some(Usage {
        index: count,
        why: UsageWhy::MissingOperand,
    })
}

// What words ask for that say this.
fn asked_in(alloc: Global, items: &[Item<'_>], count: u32) -> Result<ExplainWords, Fault<Usage>>
    ensures meant { Answers (λ words. words) fault_cause result (explain_words_in items.now count) }
{
    match end_wrong(items, count) {
        Some(wrong) => Err(Fault::Why(wrong)),
        None => Ok(asked_by(alloc, items)?),
    }
}

/// Reads the words of explain behind its name, the first of which has this index.
///
/// The error is the first word that is wrong, with its index; where none is, what is missing, with
/// the index behind the last.
pub fn read_explain(
    alloc: Global,
    words: &[String],
    first: u32,
) -> Result<ExplainWords, Fault<Usage>>
    requires { length words.now + first < 2 ^ 31 }
    ensures { Answers (λ words. words) fault_cause result
        (explain_words first (word_texts words.now)) }
{
    let items = read_items(alloc, &explain(), words, first)?;
    asked_in(alloc, items.as_slice(), words.len() as u32 + first)
}
