ghost use Rattle.std.specs.Prelude.{◌≡◌, ◌+◌, ◌<◌, ◌^◌, Err, Some, length};
ghost use Rattle.label_base.specs.Answers.{fault_cause};
ghost use Rattle.tool_words.specs.Words.{usage, word_texts};
ghost use Rattle.tool_words.specs.declared.usage.UsageWhy.TheVariants.{UnknownTool};
ghost use Rattle.run_faults.specs.Faults.{status_of};
ghost use Rattle.tool_runs.specs.Complete.{Complete};
ghost use Rattle.tool_runs.specs.Outside.{outside};
ghost use Rattle.tool_runs.specs.Plan.{is_soft_in, planned};
ghost use Rattle.tool_runs.specs.Run.{Run};
ghost use Rattle.path_reasons.specs.Plan.{explain_plan};
ghost use Rattle.path_reasons.specs.Words.{explain_words};
ghost use Rattle.policy_commands.specs.Tools.{asked_for, plan_of, tool_named};

use input_output::{Sink, Source, Store};
use label_base::Fault;
use path_reasons::{EXPLAIN, ExplainWords, read_explain};
use run_faults::Outcome;
use std::alloc::Global;
use tool_runs::run_words;
use tool_words::{Usage, UsageWhy};

// The index of the first word behind a tool's name.
const FIRST: u32 = 1;

// The tools.
#[derive(Clone, Copy)]
enum ToolName {
    Explain,
}

// The tool that a word names.
fn tool_named(word: &str) -> Option<ToolName>
    ensures { result ≡ tool_named word.now }
{
    if word == EXPLAIN {
        Some(ToolName::Explain)
    } else {
        None
    }
}

fn unknown_tool() -> Fault<Usage>
    ensures { fault_cause result ≡ Some (usage 0 UnknownTool) }
{
    Fault::Why(Usage {
        index: 0,
        why: UsageWhy::UnknownTool,
    })
}

// Runs explain by the words behind its name.
fn run_explain<S: Store, I: Source, O: Sink>(
    alloc: Global,
    words: &[String],
    store: &mut S,
    input: &mut I,
    out: &mut O,
) -> Outcome
    requires { length words.now + FIRST < 2 ^ 31 }
    ensures status { result.status
        ≡ status_of (is_soft_in
        (planned explain_plan (explain_words FIRST (word_texts words.now)))) result.cause }
    ensures run { Run (planned explain_plan (explain_words FIRST (word_texts words.now)))
        (outside S.Store I.Source O.Sink store.old input.old out.old)
        (outside S.Store I.Source O.Sink store.new input.new out.new) result.cause }
{
    run_words(alloc, read_explain(alloc, words, FIRST), store, input, out)
}

// Refuses words that name no tool: any tool's words would do.
fn refuse_tool<S: Store, I: Source, O: Sink>(
    alloc: Global,
    store: &mut S,
    input: &mut I,
    out: &mut O,
) -> Outcome
    ensures status { result.status
        ≡ status_of (is_soft_in (Err (usage 0 UnknownTool))) result.cause }
    ensures run { Run (Err (usage 0 UnknownTool))
        (outside S.Store I.Source O.Sink store.old input.old out.old)
        (outside S.Store I.Source O.Sink store.new input.new out.new) result.cause }
{
    let refused: Result<ExplainWords, Fault<Usage>> = Err(unknown_tool());
    run_words(alloc, refused, store, input, out)
}

// Runs a tool by the words behind its name.
fn run_named<S: Store, I: Source, O: Sink>(
    alloc: Global,
    tool: Option<ToolName>,
    words: &[String],
    store: &mut S,
    input: &mut I,
    out: &mut O,
) -> Outcome
    requires { length words.now + FIRST < 2 ^ 31 }
    ensures status { result.status ≡ status_of (is_soft_in (asked_for tool (word_texts words.now)))
        result.cause }
    ensures run { Run (asked_for tool (word_texts words.now))
        (outside S.Store I.Source O.Sink store.old input.old out.old)
        (outside S.Store I.Source O.Sink store.new input.new out.new) result.cause }
{
    match tool {
        Some(ToolName::Explain) => run_explain(alloc, words, store, input, out),
        None => refuse_tool(alloc, store, input, out),
    }
}

// Runs the tool that the first word names.
fn run_asked<S: Store, I: Source, O: Sink>(
    alloc: Global,
    words: &[String],
    store: &mut S,
    input: &mut I,
    out: &mut O,
) -> Outcome
    requires { length words.now < 2 ^ 31 }
    ensures status { result.status ≡ status_of (is_soft_in (plan_of (word_texts words.now)))
        result.cause }
    ensures run { Run (plan_of (word_texts words.now))
        (outside S.Store I.Source O.Sink store.old input.old out.old)
        (outside S.Store I.Source O.Sink store.new input.new out.new) result.cause }
{
    let [word, rest @ ..] = words else {
        return refuse_tool(alloc, store, input, out);
    };
    run_named(alloc, tool_named(word.as_str()), rest, store, input, out)
}

/// Runs the tool that the first word names. There are fewer than 2^31 words.
pub fn plain<S: Store, I: Source, O: Sink>(
    alloc: Global,
    words: &[String],
    store: &mut S,
    input: &mut I,
    out: &mut O,
) -> Outcome
    requires { length words.now < 2 ^ 31 }
    ensures status { result.status
        ≡ status_of (is_soft_in (plan_of (word_texts words.now))) result.cause }
    ensures run { Run (plan_of (word_texts words.now))
        (outside S.Store I.Source O.Sink store.old input.old out.old)
        (outside S.Store I.Source O.Sink store.new input.new out.new) result.cause }
    ensures complete { Complete (plan_of (word_texts words.now))
        (outside S.Store I.Source O.Sink store.old input.old out.old)
        (outside S.Store I.Source O.Sink store.new input.new out.new)
        result.status result.cause }
{
    run_asked(alloc, words, store, input, out)
}
