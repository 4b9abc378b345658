ghost use Rattle.std.specs.Prelude.{◌≡◌, ◌<◌, IfOk};
ghost use Rattle.setfattr_dump.specs.Texts.{dump_text};
ghost use Rattle.report_text.specs.Texts.{report_of};
ghost use Rattle.relabel_core.specs.Answer.{walk_in};
ghost use Rattle.relabel_core.specs.Changes.{changes};
ghost use Rattle.relabel_core.specs.Walk.{messages};
ghost use Rattle.relabel_core.specs.Walked.{IsFit, walk_of};

use label_base::{OutOfMemory, PiecedText, Steps};
use relabel_core::{WalkInput, Walked, walk};
use std::alloc::Global;
use std::marker::Brand;
use std::sync::ledger::{Blank, Ledger};
use threaded_texts::text_for;

/// Who walks, and makes the texts of a walk: one worker, or several. What is found and made is the
/// same.
pub trait Walker {
    /// What it works by may be shared, where that is needed.
    ghost IsReady: { Self → Type 0 };

    /// Walks over a tree.
    fn walk<'a>(&self, alloc: Global, input: &WalkInput<'a>) -> Result<Walked<'a>, OutOfMemory>
        requires ready { IsReady self.now }
        requires fit { IsFit input.now }
        ensures { IfOk result (λ walked. walk_in walked ≡ walk_of input.now) };

    /// The report of a walk.
    fn report(&self, alloc: Global, walked: &Walked<'_>) -> Result<PiecedText, OutOfMemory>
        requires { IsReady self.now }
        ensures { IfOk result (λ report. report ≡ report_of (messages (walk_in walked.now))) };

    /// The dump of a walk.
    fn dump(&self, alloc: Global, walked: &Walked<'_>) -> Result<PiecedText, OutOfMemory>
        requires { IsReady self.now }
        ensures { IfOk result (λ dump. dump ≡ dump_text (changes (walk_in walked.now))) };
}

/// One worker.
#[derive(Drop)]
pub struct OneWorker;

// The walk over this input, whose look-ups nobody counts.
fn walk_by<'a, L: Ledger>(
    alloc: Global,
    input: &WalkInput<'a>,
    blank: Blank,
) -> Result<Walked<'a>, OutOfMemory>
    requires fit { IsFit input.now }
    requires name { blank.name ≡ L.name }
    requires parts { blank.parts ≡ L.parts }
    requires some { 0 < blank.parts }
    ensures { IfOk result (λ walked. walk_in walked ≡ walk_of input.now) }
{
    let mut steps = Steps::<L>::open(blank);
    walk(alloc, input, &mut steps)
}

impl Walker for OneWorker {
    ghost IsReady = { λ walker. Unit {0} };

    fn walk<'a>(&self, alloc: Global, input: &WalkInput<'a>) -> Result<Walked<'a>, OutOfMemory> {
        walk_by::<Brand>(alloc, input, Blank::new(1))
    }

    fn report(&self, alloc: Global, walked: &Walked<'_>) -> Result<PiecedText, OutOfMemory> {
        let mut report = text_for(alloc, walked.len());
        walked.add_report(alloc, &mut report)?;
        PiecedText::of(alloc, report)
    }

    fn dump(&self, alloc: Global, walked: &Walked<'_>) -> Result<PiecedText, OutOfMemory> {
        let mut dump = text_for(alloc, walked.len());
        walked.add_dump(alloc, &mut dump)?;
        PiecedText::of(alloc, dump)
    }
}
