ghost use Rattle.std.specs.Prelude.{◌≡◌, ◌<◌, ◌+◌, ◌^◌, IfOk, Some, length};
ghost use Rattle.label_base.specs.Answers.{Answers, fault_cause};
ghost use Rattle.tool_words.specs.Words.{usage, word_texts};
ghost use Rattle.label_audit.specs.Words.{audit_words, run_words, tool_words};

use label_base::{Fault, Name};
use std::alloc::Global;
use tool_words::{Usage, UsageWhy};
use tree_relabelling::{RESTORECON, RelabelWords, SETFILES, read_restorecon, read_setfiles};

/// What audit is asked for.
#[derive(Debug)]
pub struct AuditWords {
    /// The name of the file that has the report.
    pub report: Name,
    /// What the run was asked for.
    pub inner: RelabelWords,
}

// By hand: one call for an owner, where a derived drop is a step for each field.
impl Drop for AuditWords {
    fn drop(self) {
        let AuditWords {
            report: _,
            inner: _,
        } = self;
    }
}

fn wrong(index: u32, why: UsageWhy) -> Fault<Usage>
    ensures { fault_cause result ≡ Some (usage index why) }
{
    Fault::Why(Usage { index, why })
}

// Reads the words behind the name of the run's tool, which has this index.
fn read_tool(
    alloc: Global,
    tool: &str,
    words: &[String],
    index: u32,
) -> Result<RelabelWords, Fault<Usage>>
    requires { length words.now + (index + 1) < 2 ^ 31 }
    ensures meant { Answers (λ words. words) fault_cause result
        (tool_words tool.now index (word_texts words.now)) }
    ensures few { IfOk result (λ asked. length asked.choice.operands < 2 ^ 31) }
{
    if tool == SETFILES {
        return read_setfiles(alloc, words, index + 1);
    }
    if tool == RESTORECON {
        return read_restorecon(alloc, words, index + 1);
    }
    Err(wrong(index, UsageWhy::UnknownTool))
}

// Reads the words of the run, the first of which has this index and names its tool.
fn read_run(alloc: Global, words: &[String], first: u32) -> Result<RelabelWords, Fault<Usage>>
    requires { length words.now + first < 2 ^ 31 }
    ensures meant { Answers (λ words. words) fault_cause result
        (run_words first (word_texts words.now)) }
    ensures few { IfOk result (λ asked. length asked.choice.operands < 2 ^ 31) }
{
    let [tool, rest @ ..] = words else {
        return Err(wrong(first, UsageWhy::UnknownTool));
    };
    read_tool(alloc, tool.as_str(), rest, first)
}

/// Reads the words of audit behind its name, the first of which has this index: the name of the
/// file that has the report, as it stands, then the words of a run of setfiles or restorecon.
///
/// The error is the first word that is wrong, with its index; where none is, what is missing, with
/// the index behind the last.
pub fn read_audit(alloc: Global, words: &[String], first: u32) -> Result<AuditWords, Fault<Usage>>
    requires { length words.now + first < 2 ^ 31 }
    ensures meant { Answers (λ words. words) fault_cause result
        (audit_words first (word_texts words.now)) }
    ensures few { IfOk result (λ asked. length asked.inner.choice.operands < 2 ^ 31) }
{
    let [report, rest @ ..] = words else {
        return Err(wrong(first, UsageWhy::MissingOperand));
    };
    if report.is_empty() {
        return Err(wrong(first, UsageWhy::BadPath));
    }
    let inner = read_run(alloc, rest, first + 1)?;
    let report = Name::copy_of(alloc, report.as_str())?;
    Ok(AuditWords { report, inner })
}
