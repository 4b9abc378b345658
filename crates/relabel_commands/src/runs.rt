ghost use Rattle.std.specs.Prelude.{◌≡◌, ◌+◌, ◌<◌, ◌^◌, Err, IfOk, IfSome, Ok, Option, Result};
ghost use Rattle.std.specs.Prelude.{Some, length};
ghost use Rattle.label_base.specs.Answers.{Answers, fault_cause};
ghost use Rattle.tool_words.specs.Words.{usage, word_texts};
ghost use Rattle.tool_words.specs.declared.usage.Usage.{Usage};
ghost use Rattle.tool_words.specs.declared.usage.UsageWhy.TheVariants.{UnknownTool};
ghost use Rattle.run_faults.specs.Faults.{status_of};
ghost use Rattle.tool_runs.specs.Plan.{is_soft_in, planned};
ghost use Rattle.tool_runs.specs.Complete.{Complete};
ghost use Rattle.tool_runs.specs.Outside.{outside};
ghost use Rattle.tool_runs.specs.Run.{Run};
ghost use Rattle.tree_relabelling.specs.Plan.{relabel_plan};
ghost use Rattle.tree_relabelling.specs.declared.words.RelabelWords.{RelabelWords};
ghost use Rattle.policy_rehearsal.specs.Reported.{ReportKeepsLabels};
ghost use Rattle.relabel_commands.specs.Samples.{RunsSample};
ghost use Rattle.relabel_commands.specs.Tools.{asked_for, plan_of, rehearse_asked, tool_named};

use home_contexts::{GENHOMEDIRCON, read_homes};
use input_output::{Sink, Source, Store};
use label_audit::{AUDIT, read_audit};
use label_base::Fault;
use path_lookups::{MATCHPATHCON, read_lookup};
use policy_rehearsal::{REHEARSE_TOOL, read_rehearse};
use run_faults::Outcome;
use sample_tree::{SAMPLE, SampleWords, read_sample};
use std::alloc::Global;
use std::sync::Wait;
use std::thread::Threads;
use threaded_relabelling::{ByWorkers, Workers, workers_for};
use tool_runs::run_words;
use tool_words::{Usage, UsageWhy};
use tree_relabelling::{RESTORECON, RelabelWords, SETFILES, read_restorecon, read_setfiles};

// The index of the first word behind a tool's name.
const FIRST: u32 = 1;

// The tools.
#[derive(Clone, Copy)]
enum ToolName {
    Setfiles,
    Restorecon,
    Matchpathcon,
    Genhomedircon,
    Rehearse,
    Sample,
    Audit,
}

// The tool that a word names.
fn tool_named(word: &str) -> Option<ToolName>
    ensures { result ≡ tool_named word.now }
{
    if word == SETFILES {
        Some(ToolName::Setfiles)
    } else if word == RESTORECON {
        Some(ToolName::Restorecon)
    } else if word == MATCHPATHCON {
        Some(ToolName::Matchpathcon)
    } else if word == GENHOMEDIRCON {
        Some(ToolName::Genhomedircon)
    } else if word == REHEARSE_TOOL {
        Some(ToolName::Rehearse)
    } else if word == SAMPLE {
        Some(ToolName::Sample)
    } else if word == AUDIT {
        Some(ToolName::Audit)
    } else {
        None
    }
}

fn unknown_tool() -> Fault<Usage>
    ensures { fault_cause result ≡ Some (usage 0 UnknownTool) }
{
    Fault::Why(Usage {
        index: 0,
        why: UsageWhy::UnknownTool,
    })
}

// Refuses words that name no tool: any tool's words would do.
fn refuse_tool<S: Store, I: Source, O: Sink>(
    alloc: Global,
    store: &mut S,
    input: &mut I,
    out: &mut O,
) -> Outcome
    ensures status { result.status
        ≡ status_of (is_soft_in (Err (usage 0 UnknownTool))) result.cause }
    ensures run { Run (Err (usage 0 UnknownTool))
        (outside S.Store I.Source O.Sink store.old input.old out.old)
        (outside S.Store I.Source O.Sink store.new input.new out.new) result.cause }
{
    let refused: Result<SampleWords, Fault<Usage>> = Err(unknown_tool());
    run_words(alloc, refused, store, input, out)
}

// Runs a tool by the words behind its name.
fn run_named<S: Store, I: Source, O: Sink>(
    alloc: Global,
    tool: ToolName,
    words: &[String],
    store: &mut S,
    input: &mut I,
    out: &mut O,
) -> Outcome
    requires { length words.now + FIRST < 2 ^ 31 }
    ensures status { result.status
        ≡ status_of (is_soft_in (asked_for (Some tool) (word_texts words.now))) result.cause }
    ensures run { Run (asked_for (Some tool) (word_texts words.now))
        (outside S.Store I.Source O.Sink store.old input.old out.old)
        (outside S.Store I.Source O.Sink store.new input.new out.new) result.cause }
{
    match tool {
        ToolName::Setfiles => {
            let asked = read_setfiles(alloc, words, FIRST);
            run_words(alloc, asked, store, input, out)
        }
        ToolName::Restorecon => {
            let asked = read_restorecon(alloc, words, FIRST);
            run_words(alloc, asked, store, input, out)
        }
        ToolName::Matchpathcon => {
            let asked = read_lookup(alloc, words, FIRST);
            run_words(alloc, asked, store, input, out)
        }
        ToolName::Genhomedircon => {
            let asked = read_homes(alloc, words, FIRST);
            run_words(alloc, asked, store, input, out)
        }
        ToolName::Rehearse => {
            let asked = read_rehearse(alloc, words, FIRST);
            run_words(alloc, asked, store, input, out)
        }
        ToolName::Sample => {
            let asked = read_sample(alloc, words, FIRST);
            run_words(alloc, asked, store, input, out)
        }
        ToolName::Audit => {
            let asked = read_audit(alloc, words, FIRST);
            run_words(alloc, asked, store, input, out)
        }
    }
}

// Runs the tool that the first word names.
fn run_asked<S: Store, I: Source, O: Sink>(
    alloc: Global,
    words: &[String],
    store: &mut S,
    input: &mut I,
    out: &mut O,
) -> Outcome
    requires { length words.now < 2 ^ 31 }
    ensures status { result.status ≡ status_of (is_soft_in (plan_of (word_texts words.now)))
        result.cause }
    ensures run { Run (plan_of (word_texts words.now))
        (outside S.Store I.Source O.Sink store.old input.old out.old)
        (outside S.Store I.Source O.Sink store.new input.new out.new) result.cause }
{
    let [word, rest @ ..] = words else {
        return refuse_tool(alloc, store, input, out);
    };
    match tool_named(word.as_str()) {
        Some(tool) => run_named(alloc, tool, rest, store, input, out),
        None => refuse_tool(alloc, store, input, out),
    }
}

/// Runs the tool that the first word names, with one worker, whatever number its words ask for.
/// There are fewer than 2^31 words.
pub fn plain<S: Store, I: Source, O: Sink>(
    alloc: Global,
    words: &[String],
    store: &mut S,
    input: &mut I,
    out: &mut O,
) -> Outcome
    requires { length words.now < 2 ^ 31 }
    ensures status { result.status
        ≡ status_of (is_soft_in (plan_of (word_texts words.now))) result.cause }
    ensures run { Run (plan_of (word_texts words.now))
        (outside S.Store I.Source O.Sink store.old input.old out.old)
        (outside S.Store I.Source O.Sink store.new input.new out.new) result.cause }
    ensures complete { Complete (plan_of (word_texts words.now))
        (outside S.Store I.Source O.Sink store.old input.old out.old)
        (outside S.Store I.Source O.Sink store.new input.new out.new)
        result.status result.cause }
    ensures sample { RunsSample (word_texts words.now) (S.read_faults store.old)
        (I.faults input.old)
        result.cause }
    ensures keeps { IfSome (rehearse_asked (word_texts words.now)) (λ asked.
        ReportKeepsLabels asked (S.files store.old) (I.left input.old) (O.written out.old)
        (O.written out.new) result.cause) }
{
    run_asked(alloc, words, store, input, out)
}

// Runs setfiles or restorecon by its words, by as many workers as they ask for.
fn run_relabelling<R: Threads + Wait + Sync, S: Store, I: Source, O: Sink>(
    rt: &R,
    alloc: Global,
    words: RelabelWords,
    cores: u32,
    store: &mut S,
    input: &mut I,
    out: &mut O,
) -> Outcome
    requires { length words.choice.operands < 2 ^ 31 }
    ensures status { result.status ≡ status_of words.soft_errors result.cause }
    ensures run { Run (Ok (relabel_plan words))
        (outside S.Store I.Source O.Sink store.old input.old out.old)
        (outside S.Store I.Source O.Sink store.new input.new out.new) result.cause }
{
    let count = workers_for(words.workers, cores);
    if count == 1 {
        return run_words(alloc, Ok(words), store, input, out);
    }
    let workers = Workers::new(rt, count);
    run_words(alloc, Ok(ByWorkers { words, workers }), store, input, out)
}

// Runs setfiles or restorecon by what its words were read as.
fn run_read<R: Threads + Wait + Sync, S: Store, I: Source, O: Sink>(
    rt: &R,
    alloc: Global,
    asked: Result<RelabelWords, Fault<Usage>>,
    cores: u32,
    store: &mut S,
    input: &mut I,
    out: &mut O,
) -> Outcome
    requires { IfOk asked (λ words. length words.choice.operands < 2 ^ 31) }
    ensures status { (meant : Result RelabelWords Usage)
        → Answers (λ words. words) fault_cause asked meant
        → result.status ≡ status_of (is_soft_in (planned relabel_plan meant)) result.cause }
    ensures run { (meant : Result RelabelWords Usage)
        → Answers (λ words. words) fault_cause asked meant
        → Run (planned relabel_plan meant)
        (outside S.Store I.Source O.Sink store.old input.old out.old)
        (outside S.Store I.Source O.Sink store.new input.new out.new) result.cause }
{
    match asked {
        Ok(words) => run_relabelling(rt, alloc, words, cores, store, input, out),
        Err(fault) => run_words::<RelabelWords, S, I, O>(alloc, Err(fault), store, input, out),
    }
}

// Runs a tool by the words behind its name. Those that walk a tree do so by as many workers as
// their words ask for.
fn run_named_by<R: Threads + Wait + Sync, S: Store, I: Source, O: Sink>(
    rt: &R,
    alloc: Global,
    tool: ToolName,
    words: &[String],
    cores: u32,
    store: &mut S,
    input: &mut I,
    out: &mut O,
) -> Outcome
    requires { length words.now + FIRST < 2 ^ 31 }
    ensures status { result.status
        ≡ status_of (is_soft_in (asked_for (Some tool) (word_texts words.now))) result.cause }
    ensures run { Run (asked_for (Some tool) (word_texts words.now))
        (outside S.Store I.Source O.Sink store.old input.old out.old)
        (outside S.Store I.Source O.Sink store.new input.new out.new) result.cause }
{
    match tool {
        ToolName::Setfiles => {
            let asked = read_setfiles(alloc, words, FIRST);
            run_read(rt, alloc, asked, cores, store, input, out)
        }
        ToolName::Restorecon => {
            let asked = read_restorecon(alloc, words, FIRST);
            run_read(rt, alloc, asked, cores, store, input, out)
        }
        _ => run_named(alloc, tool, words, store, input, out),
    }
}

// Runs the tool that the first word names, by as many workers as its words ask for.
fn run_asked_by<R: Threads + Wait + Sync, S: Store, I: Source, O: Sink>(
    rt: &R,
    alloc: Global,
    words: &[String],
    cores: u32,
    store: &mut S,
    input: &mut I,
    out: &mut O,
) -> Outcome
    requires { length words.now < 2 ^ 31 }
    ensures status { result.status ≡ status_of (is_soft_in (plan_of (word_texts words.now)))
        result.cause }
    ensures run { Run (plan_of (word_texts words.now))
        (outside S.Store I.Source O.Sink store.old input.old out.old)
        (outside S.Store I.Source O.Sink store.new input.new out.new) result.cause }
{
    let [word, rest @ ..] = words else {
        return refuse_tool(alloc, store, input, out);
    };
    match tool_named(word.as_str()) {
        Some(tool) => run_named_by(rt, alloc, tool, rest, cores, store, input, out),
        None => refuse_tool(alloc, store, input, out),
    }
}

/// Runs the tool that the first word names. `cores` is the number of processors, which is the
/// number of workers where the words ask for none; what is read and written is the same for every
/// number. There are fewer than 2^31 words. It may wait, where several workers are asked for.
pub fn top<R: Threads + Wait + Sync, S: Store, I: Source, O: Sink>(
    rt: &R,
    alloc: Global,
    words: &[String],
    cores: u32,
    store: &mut S,
    input: &mut I,
    out: &mut O,
) -> Outcome
    requires few { length words.now < 2 ^ 31 }
    ensures status { result.status
        ≡ status_of (is_soft_in (plan_of (word_texts words.now))) result.cause }
    ensures run { Run (plan_of (word_texts words.now))
        (outside S.Store I.Source O.Sink store.old input.old out.old)
        (outside S.Store I.Source O.Sink store.new input.new out.new) result.cause }
    ensures complete { Complete (plan_of (word_texts words.now))
        (outside S.Store I.Source O.Sink store.old input.old out.old)
        (outside S.Store I.Source O.Sink store.new input.new out.new)
        result.status result.cause }
    ensures sample { RunsSample (word_texts words.now) (S.read_faults store.old)
        (I.faults input.old)
        result.cause }
    ensures keeps { IfSome (rehearse_asked (word_texts words.now)) (λ asked.
        ReportKeepsLabels asked (S.files store.old) (I.left input.old) (O.written out.old)
        (O.written out.new) result.cause) }
{
    run_asked_by(rt, alloc, words, cores, store, input, out)
}
