ghost use Rattle.std.specs.Prelude.{◌≡◌, ◌<◌, ◌^◌, [], IfOk, Ok, Result, length};
ghost use Rattle.label_base.specs.Answers.{Answers, fault_cause};
ghost use Rattle.input_output.specs.Store.{Files};
ghost use Rattle.tool_words.specs.declared.usage.Usage.{Usage};
ghost use Rattle.run_faults.specs.Faults.{status_of};
ghost use Rattle.run_input.specs.Files.{Reads};
ghost use Rattle.run_input.specs.Records.{AreTaken};
ghost use Rattle.tool_runs.specs.Outside.{outside, sink_seen, store_seen};
ghost use Rattle.tool_runs.specs.Plan.{is_soft_in, plan_by, planned};
ghost use Rattle.tool_runs.specs.Run.{Run};
ghost use Rattle.tool_runs.specs.Stages.{Ended};

use crate::tool::Tool;
use file_roles::FileList;
use input_output::{SaveFault, Sink, Source, Store};
use label_base::Fault;
use run_endings::{Ending, finish, give_up, lose_dump, outcome, refuse, refuse_words, save};
use run_faults::{Cause, Outcome};
use run_input::read_entries;
use std::alloc::Global;
use std::mem::forget;
use tool_words::Usage;
use tree_model::Tree;

// A tool that runs, and the files that it reads.
#[derive(Drop)]
struct Running<'r, T> {
    alloc: Global,
    tool: &'r T,
    list: &'r FileList,
}

// Asks a tool, and writes its answer: all texts are made before the first byte is written, and the
// file is written before the report.
fn end_run<T: Tool, S: Store, O: Sink>(
    run: &Running<'_, T>,
    found: &T::Found,
    tree: &Tree,
    store: &mut S,
    out: &mut O,
) -> Cause
    requires fit { T.IsFit run.now.tool.now }
    requires tree { length tree.now < 2 ^ 31 }
    requires of_format { AreTaken (T.records run.now.tool.now) tree.now }
    requires list { run.now.list.now ≡ T.reads run.now.tool.now }
    ensures { Ended (T.reads run.now.tool.now) (T.output run.now.tool.now)
        (T.answered run.now.tool.now found.now tree.now)
        (store_seen S.Store store.old) (store_seen S.Store store.new)
        (sink_seen O.Sink out.old) (sink_seen O.Sink out.new) result }
{
    let ending = match run.tool.answer(run.alloc, found, tree) {
        Ok(ending) => ending,
        Err(refusal) => return refuse(run.alloc, run.list, refusal, out),
    };
    match save(run.alloc, &ending, store) {
        Ok(()) => finish(&ending, out),
        Err(SaveFault::Failed) => lose_dump(out),
        Err(SaveFault::OutOfMemory) => give_up(out),
    }
}

// Runs a tool whose files were read and say this: reads the input, then asks the tool.
fn run_found<T: Tool, S: Store, I: Source, O: Sink>(
    run: &Running<'_, T>,
    found: &T::Found,
    store: &mut S,
    input: &mut I,
    out: &mut O,
) -> Cause
    requires fit { T.IsFit run.now.tool.now }
    requires list { run.now.list.now ≡ T.reads run.now.tool.now }
    ensures { (before : S)
        → Reads S.files S.calls S.read_faults S.write_faults (T.files_say run.now.tool.now)
        before store.old (Ok found.now)
        → (T.reads run.now.tool.now ≡ [] → store.old ≡ before)
        → (T.reads run.now.tool.now ≡ [] → (known : Files)
        → (T.files_say run.now.tool.now known).says ≡ Ok found.now)
        → Run (Ok (plan_by (T.reads run.now.tool.now) (T.records run.now.tool.now)
        (T.is_soft run.now.tool.now) (T.output run.now.tool.now) (T.files_say run.now.tool.now)
        (T.answered run.now.tool.now)))
        (outside S.Store I.Source O.Sink before input.old out.old)
        (outside S.Store I.Source O.Sink store.new input.new out.new) result }
{
    let tree = match read_entries(run.alloc, run.tool.record_format(), input) {
        Ok(tree) => tree,
        Err(refusal) => return refuse(run.alloc, run.list, refusal, out),
    };
    end_run(run, found, &tree, store, out)
}

// Runs a tool that reads these files: reads them before the input.
fn run_listed<T: Tool, S: Store, I: Source, O: Sink>(
    run: &Running<'_, T>,
    store: &mut S,
    input: &mut I,
    out: &mut O,
) -> Cause
    requires fit { T.IsFit run.now.tool.now }
    requires list { run.now.list.now ≡ T.reads run.now.tool.now }
    ensures { Run (Ok (plan_by (T.reads run.now.tool.now) (T.records run.now.tool.now)
        (T.is_soft run.now.tool.now) (T.output run.now.tool.now) (T.files_say run.now.tool.now)
        (T.answered run.now.tool.now)))
        (outside S.Store I.Source O.Sink store.old input.old out.old)
        (outside S.Store I.Source O.Sink store.new input.new out.new) result }
{
    let found = match run.tool.read_files(run.alloc, run.list, store) {
        Ok(found) => found,
        Err(refusal) => return refuse(run.alloc, run.list, refusal, out),
    };
    let cause = run_found(run, &found, store, input, out);
    // The process ends behind this, and takes the memory of a whole policy back at once.
    forget(found);
    cause
}

// Runs a tool. Each function from here inwards owns one value.
fn run_tool<T: Tool, S: Store, I: Source, O: Sink>(
    alloc: Global,
    tool: &T,
    store: &mut S,
    input: &mut I,
    out: &mut O,
) -> Cause
    requires fit { T.IsFit tool.now }
    ensures { Run (Ok (plan_by (T.reads tool.now) (T.records tool.now) (T.is_soft tool.now)
        (T.output tool.now) (T.files_say tool.now) (T.answered tool.now)))
        (outside S.Store I.Source O.Sink store.old input.old out.old)
        (outside S.Store I.Source O.Sink store.new input.new out.new) result }
{
    let list = match tool.file_list(alloc) {
        Ok(list) => list,
        Err(_) => return give_up(out),
    };
    let run = Running {
        alloc,
        tool,
        list: &list,
    };
    run_listed(&run, store, input, out)
}

/// Runs a tool by what its words were read as: what they ask for, or the first that is wrong.
///
/// The status and all that is read and written are those of the tool's plan, whatever fails when.
pub fn run_words<T: Tool + Drop, S: Store, I: Source, O: Sink>(
    alloc: Global,
    words: Result<T, Fault<Usage>>,
    store: &mut S,
    input: &mut I,
    out: &mut O,
) -> Outcome
    requires fit { IfOk words (λ tool. T.IsFit tool) }
    ensures status { (meant : Result T Usage) → Answers (λ tool. tool) fault_cause words meant
        → result.status ≡ status_of (is_soft_in (planned (λ tool. plan_by (T.reads tool)
        (T.records tool) (T.is_soft tool) (T.output tool) (T.files_say tool) (T.answered tool))
        meant)) result.cause }
    ensures run { (meant : Result T Usage) → Answers (λ tool. tool) fault_cause words meant
        → Run (planned (λ tool. plan_by (T.reads tool) (T.records tool) (T.is_soft tool)
        (T.output tool) (T.files_say tool) (T.answered tool)) meant)
        (outside S.Store I.Source O.Sink store.old input.old out.old)
        (outside S.Store I.Source O.Sink store.new input.new out.new) result.cause }
{
    match words {
        Ok(tool) => outcome(
            run_tool(alloc, &tool, store, input, out),
            tool.has_soft_errors(),
        ),
        Err(fault) => outcome(refuse_words(alloc, fault, out), false),
    }
}
