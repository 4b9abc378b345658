ghost use Rattle.std.specs.Prelude.{◌≡◌, ◌<◌, ◌≤◌, IfOk};
ghost use Rattle.tree_relabelling.specs.declared.letters.TheConstants.{MOST_WORKERS};
ghost use Rattle.report_text.specs.Texts.{report_of};
ghost use Rattle.setfattr_dump.specs.Texts.{dump_text};
ghost use Rattle.relabel_core.specs.Changes.{changes};
ghost use Rattle.threaded_relabelling.specs.Counts.{count_for};
ghost use Rattle.relabel_core.specs.Answer.{walk_in};
ghost use Rattle.relabel_core.specs.Walk.{messages};
ghost use Rattle.relabel_core.specs.Walked.{IsFit, walk_of};

use crate::entry_texts::{add_lines, add_sections};
use label_base::{Bytes, OutOfMemory, PiecedText};
use relabel_core::{WalkInput, Walked};
use relabel_workers::{OpenGate, walk_threads};
use std::alloc::Global;
use std::sync::Wait;
use std::thread::Threads;
use tree_relabelling::{OneWorker, Walker};

/// A number of workers, who walk a tree and write its texts at once.
#[derive(Drop)]
pub struct Workers<'r, R: Threads + Wait + Sync> {
    rt: &'r R,
    count: u32,
    ghost some: { 0 < count },
    ghost few: { count ≤ MOST_WORKERS },
}

impl<'r, R: Threads + Wait + Sync> Workers<'r, R> {
    /// As many workers as the count says, or as a tree has entries where that is fewer.
    pub fn new(rt: &'r R, count: u32) -> Workers<'r, R>
        requires some { 0 < count }
        requires few { count ≤ MOST_WORKERS }
    {
        Workers { rt, count }
    }

    // How many work for a tree of so many entries.
    fn count_for(&self, entries: u32) -> u32
        ensures value { result ≡ count_for self.now.count entries }
        ensures some { 0 < result }
        ensures few { result ≤ MOST_WORKERS }
    {
        let _ = &self.count;
        if entries == 0 {
            return 1;
        }
        if entries < self.count {
            return entries;
        }
        self.count
    }
}

/// Walks over a tree by so many workers.
pub fn walk_shared<'a, R: Threads + Wait + Sync>(
    rt: &R,
    alloc: Global,
    input: &WalkInput<'a>,
    workers: u32,
) -> Result<Walked<'a>, OutOfMemory>
    requires fit { IsFit input.now }
    requires some { 0 < workers }
    requires few { workers ≤ MOST_WORKERS }
    ensures { IfOk result (λ walked. walk_in walked ≡ walk_of input.now) }
{
    let (walked, _) = walk_threads(rt, alloc, input, workers, &OpenGate)?;
    Ok(walked)
}

// The report of a walk, whose lines so many workers make.
fn report_by<R: Threads + Sync>(
    rt: &R,
    alloc: Global,
    walked: &Walked<'_>,
    workers: u32,
) -> Result<PiecedText, OutOfMemory>
    ensures { IfOk result (λ report. report ≡ report_of (messages (walk_in walked.now))) }
{
    let mut absent = Bytes::new(alloc);
    walked.add_absent(alloc, &mut absent)?;
    let before = PiecedText::of(alloc, absent)?;
    let mut report = add_lines(rt, alloc, walked, workers, before)?;
    let mut unmatched = Bytes::new(alloc);
    walked.add_unmatched(alloc, &mut unmatched)?;
    report.push(unmatched)?;
    Ok(report)
}

// The dump of a walk, whose sections so many workers make.
fn dump_by<R: Threads + Sync>(
    rt: &R,
    alloc: Global,
    walked: &Walked<'_>,
    workers: u32,
) -> Result<PiecedText, OutOfMemory>
    ensures { IfOk result (λ dump. dump ≡ dump_text (changes (walk_in walked.now))) }
{
    let digests = walked.digests(alloc)?;
    let empty = PiecedText::of(alloc, Bytes::new(alloc))?;
    let dump = add_sections(rt, alloc, &digests, workers, empty)?;
    Ok(dump)
}

impl<'r, R: Threads + Wait + Sync> Walker for Workers<'r, R> {
    ghost use Rattle.std.specs.Thread.{IsSync};

    ghost IsReady = { λ workers. IsSync R.row };

    fn walk<'a>(&self, alloc: Global, input: &WalkInput<'a>) -> Result<Walked<'a>, OutOfMemory> {
        let workers = self.count_for(input.tree.len());
        if workers == 1 {
            return OneWorker.walk(alloc, input);
        }
        walk_shared(self.rt, alloc, input, workers)
    }

    fn report(&self, alloc: Global, walked: &Walked<'_>) -> Result<PiecedText, OutOfMemory> {
        report_by(self.rt, alloc, walked, self.count_for(walked.len()))
    }

    fn dump(&self, alloc: Global, walked: &Walked<'_>) -> Result<PiecedText, OutOfMemory> {
        dump_by(self.rt, alloc, walked, self.count_for(walked.len()))
    }
}
