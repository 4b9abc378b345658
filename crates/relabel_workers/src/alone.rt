ghost use Rattle.std.specs.Prelude.{◌≡◌, ◌≤◌, ◌⊎◌, IfOk, OnOk, length};
ghost use Rattle.dir_queue.specs.Answers.{one_worker, passes_of_queue, queue_view, queue_shape};
ghost use Rattle.walk_steps.specs.Sound.{Sound};
ghost use Rattle.spec_match.specs.Scratches.{IsScratchOf};
ghost use Rattle.tree_model.specs.Jobs.{directories_in, entries_of_job};
ghost use Rattle.relabel_core.specs.Walked.{walk_of};
ghost use Rattle.relabel_workers.specs.Held.{AreDone, HasWorked, IsHandReady, IsReady};
ghost use Rattle.relabel_workers.specs.Held.{IsShareOf, IsSite, IsWorkerFor, common, queue_stands};

use crate::gate::Gate;
use crate::job::do_entries;
use crate::share::{Hand, Share};
use crate::site::{Site, Worker};
use crate::work::{step, worker_with};
use label_base::OutOfMemory;
use std::sync::Wait;

/// Takes jobs by the caller alone, until as many wait as there are workers, or none. It answers how
/// many wait.
pub fn start_alone<R: Wait, G: Gate>(
    site: &Site<'_, '_, R, G>,
    workers: u32,
    worker: &mut Worker<'_>,
    share: &mut Share,
) -> Result<u32, OutOfMemory>
    requires site { IsSite (common site.now) }
    requires worker { IsWorkerFor site.now.input.now worker.old }
    requires ready { IsReady (common site.now) share.old }
    ensures worker { IsWorkerFor site.now.input.now worker.new }
    ensures number { worker.new.number ≡ worker.old.number }
    ensures waiting { IfOk result (λ waiting. (waiting ≡ 0) ⊎ (workers ≤ waiting)) }
    ensures worked { OnOk result (HasWorked (common site.now) share.old 0 share.new) }
{
    // Job 0.
    let mut waiting = 1u32;
    'steps: for _ in site.rt.forever() {
        if waiting == 0 {
            return Ok(waiting);
        }
        if waiting >= workers {
            return Ok(waiting);
        }
        let found = step(site, worker, share)?;
        waiting = waiting_behind(waiting, found);
    }
    unreachable!()
}

// How many jobs wait after one was taken, and so many were given.
fn waiting_behind(waiting: u32, found: Option<u32>) -> u32 {
    match found {
        Some(given) => waiting.saturating_sub(1).saturating_add(given),
        None => 0,
    }
}

// Takes jobs until none waits.
fn drain_with<R: Wait, G: Gate>(
    site: &Site<'_, '_, R, G>,
    worker: &mut Worker<'_>,
    share: &mut Share,
) -> Result<(), OutOfMemory>
    requires site { IsSite (common site.now) }
    requires worker { IsWorkerFor site.now.input.now worker.old }
    requires ready { IsReady (common site.now) share.old }
    requires whole { queue_stands share.old ≡ passes_of_queue site.now.queue.now }
    ensures worked { OnOk result (HasWorked (common site.now) share.old 0 share.new) }
    ensures sound { OnOk result
        (Sound (queue_shape site.now.queue.now) (one_worker (queue_view share.new.queue))) }
{
    'steps: for _ in site.rt.forever() {
        let found = step(site, worker, share)?;
        if found.is_none() {
            return Ok(());
        }
    }
    unreachable!()
}

// Does what is to be done for a job that was taken, and takes what jobs are left.
fn drain_from<R: Wait, G: Gate>(
    site: &Site<'_, '_, R, G>,
    number: u32,
    job: u32,
    hand: Hand,
) -> Result<Share, OutOfMemory>
    requires site { IsSite (common site.now) }
    requires job { job ≤ length (directories_in site.now.input.now.tree.now) }
    requires own { IsScratchOf site.now.input.now.rules.now.rules hand.buffers.scratch }
    requires share { IsShareOf (common site.now) hand.share }
    requires left { AreDone (walk_of site.now.input.now)
        (entries_of_job site.now.input.now.tree.now job) hand.share }
    requires whole { queue_stands hand.share ≡ passes_of_queue site.now.queue.now }
    ensures worked { IfOk result (λ after. HasWorked (common site.now) hand.share 0 after) }
    ensures sound { IfOk result (λ after.
        Sound (queue_shape site.now.queue.now) (one_worker (queue_view after.queue))) }
{
    let Hand { mut share, buffers } = hand;
    let mut worker = worker_with(site.alloc, site.input, number, buffers)?;
    do_entries(site, &mut worker, job, &mut share)?;
    drain_with(site, &mut worker, &mut share)?;
    Ok(share)
}

/// Takes what jobs are left, by the caller alone, into whose passes all others were joined. Where
/// none is left, which is nearly always so, it makes nothing to work by.
pub fn drain<R: Wait, G: Gate>(
    site: &Site<'_, '_, R, G>,
    number: u32,
    hand: Hand,
) -> Result<Share, OutOfMemory>
    requires site { IsSite (common site.now) }
    requires ready { IsHandReady (common site.now) hand }
    requires whole { queue_stands hand.share ≡ passes_of_queue site.now.queue.now }
    ensures worked { IfOk result (λ after. HasWorked (common site.now) hand.share 0 after) }
    ensures sound { IfOk result (λ after.
        Sound (queue_shape site.now.queue.now) (one_worker (queue_view after.queue))) }
{
    let Hand { mut share, buffers } = hand;
    let Some(job) = site.queue.drain(site.rt, &mut share.queue) else {
        return Ok(share);
    };
    drain_from(site, number, job, Hand { share, buffers })
}
