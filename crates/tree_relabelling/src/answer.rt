ghost use Rattle.std.specs.Prelude.{◌≡◌, ◌<◌, ◌^◌, IfOk, length};
ghost use Rattle.find_records.specs.Record.{AreOfFormat};
ghost use Rattle.setfattr_dump.specs.Texts.{dump_text};
ghost use Rattle.relabel_core.specs.Answer.{walk_in};
ghost use Rattle.relabel_core.specs.Changes.{changes};
ghost use Rattle.relabel_core.specs.Stored.{digests_of};
ghost use Rattle.relabel_core.specs.Walked.{IsFit, walk_for, walk_of};
ghost use Rattle.tree_relabelling.specs.Answer.{relabelling_of, relabel_ending, saved_as, walk_end};

use crate::found::RelabelFiles;
use crate::walker::Walker;
use crate::words::RelabelWords;
use label_base::{Name, OutOfMemory};
use relabel_core::{Stored, WalkInput, Walked, walk_input};
use run_endings::{End, Ending, Saved};
use std::alloc::Global;
use tree_model::Tree;

fn walk_end(errors: u32) -> End
    ensures { result ≡ walk_end errors }
{
    if errors == 0 {
        End::Done
    } else {
        End::WalkErrors { count: errors }
    }
}

// The dump of a walk, for the file of `-o`.
fn saved_by<W: Walker>(
    walker: &W,
    alloc: Global,
    output: &Name,
    walked: &Walked<'_>,
) -> Result<Saved, OutOfMemory>
    requires { W.IsReady walker.now }
    ensures { IfOk result (λ saved. saved ≡ record {
      name = output.now;
      text = dump_text (changes (walk_in walked.now));
    }) }
{
    let text = walker.dump(alloc, walked)?;
    Ok(Saved {
        name: Name::copy_of(alloc, output.as_str())?,
        text,
    })
}

fn saved_as<W: Walker>(
    walker: &W,
    alloc: Global,
    output: &Option<Name>,
    walked: &Walked<'_>,
) -> Result<Option<Saved>, OutOfMemory>
    requires { W.IsReady walker.now }
    ensures { IfOk result (λ saved. saved
        ≡ saved_as output.now (dump_text (changes (walk_in walked.now)))) }
{
    match output {
        None => Ok(None),
        Some(name) => Ok(Some(saved_by(walker, alloc, name, walked)?)),
    }
}

// What is written of a walk.
fn ending_of<W: Walker>(
    walker: &W,
    alloc: Global,
    output: &Option<Name>,
    walked: &Walked<'_>,
) -> Result<Ending, OutOfMemory>
    requires { W.IsReady walker.now }
    ensures { IfOk result (λ ending. ending ≡ relabel_ending output.now (walk_in walked.now)) }
{
    let report = walker.report(alloc, walked)?;
    let saved = saved_as(walker, alloc, output, walked)?;
    Ok(Ending {
        report,
        end: walk_end(walked.errors()),
        saved,
    })
}

// What is written of a walk over this input.
fn ending_over<W: Walker>(
    walker: &W,
    alloc: Global,
    output: &Option<Name>,
    input: &WalkInput<'_>,
) -> Result<Ending, OutOfMemory>
    requires ready { W.IsReady walker.now }
    requires fit { IsFit input.now }
    ensures { IfOk result (λ ending. ending ≡ relabel_ending output.now (walk_of input.now)) }
{
    let walked = walker.walk(alloc, input)?;
    ending_of(walker, alloc, output, &walked)
}

// What is written of a walk over a tree whose directories have these digests.
fn ending_stored<W: Walker>(
    walker: &W,
    alloc: Global,
    words: &RelabelWords,
    found: &RelabelFiles,
    tree: &Tree,
    stored: &Stored,
) -> Result<Ending, OutOfMemory>
    requires ready { W.IsReady walker.now }
    requires tree { length tree.now < 2 ^ 31 }
    requires words { length words.now.choice.operands < 2 ^ 31 }
    requires format { AreOfFormat words.now.options.format tree.now }
    ensures { IfOk result (λ ending. ending
        ≡ relabel_ending words.now.output (walk_for tree.now words.now.choice found.now.rules
        words.now.options (digests_of stored.now))) }
{
    let chosen = tree.select(alloc, &words.choice)?;
    let input = walk_input(
        tree,
        &words.choice,
        &chosen,
        &found.rules,
        words.options,
        stored,
    );
    ending_over(walker, alloc, &words.output, &input)
}

/// What setfiles and restorecon write: the report of a walk, and its dump where one is asked for,
/// whoever walks. It fails for want of memory alone.
#[tactic(auto, unfolding(crate::specs::Answer::relabelling_of))]
pub fn answer_of<W: Walker>(
    walker: &W,
    alloc: Global,
    words: &RelabelWords,
    found: &RelabelFiles,
    tree: &Tree,
) -> Result<Ending, OutOfMemory>
    requires ready { W.IsReady walker.now }
    requires tree { length tree.now < 2 ^ 31 }
    requires words { length words.now.choice.operands < 2 ^ 31 }
    requires format { AreOfFormat words.now.options.format tree.now }
    ensures { IfOk result (λ ending. ending ≡ relabelling_of words.now found.now tree.now) }
{
    let stored = Stored::new(alloc, tree, &found.stored)?;
    ending_stored(walker, alloc, words, found, tree, &stored)
}
