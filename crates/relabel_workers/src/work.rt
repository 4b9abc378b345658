ghost use Rattle.std.specs.Prelude.{◌≡◌, IfNone, IfOk, OnOk};
ghost use Rattle.dir_queue.specs.Answers.{one_worker, passes_of_queue, queue_view, queue_shape};
ghost use Rattle.spec_match.specs.Scratches.{IsScratchOf};
ghost use Rattle.walk_steps.specs.Sound.{Sound};
ghost use Rattle.relabel_workers.specs.Alone.{AreListingsFor};
ghost use Rattle.relabel_core.specs.Walked.{walk_of};
ghost use Rattle.relabel_workers.specs.Held.{HasHandWorked, HasWorked, IsHandReady, IsReady};
ghost use Rattle.relabel_workers.specs.Held.{IsSite, IsWorkerFor, TakesOne, common, queue_stands};

use crate::gate::Gate;
use crate::job::do_entries;
use crate::share::{Hand, Share};
use crate::site::{Site, Worker};
use dir_digest::Listings;
use label_base::OutOfMemory;
use relabel_core::{Buffers, WalkInput, buffers_for, listings_by, uses_digests};
use std::alloc::Global;
use std::sync::Wait;
use std::thread::yield_now;

/// How often in a row a worker takes nothing before it ends. Each time it gives its turn away, which
/// on a busy machine takes as long as others' turns last: 64 of them some 50 ms, 4,096 three seconds.
const MOST_EMPTY_TAKES: u32 = 64;

// What makes the listings of directories, where digests count for the run.
fn listings_for<'a>(
    alloc: Global,
    input: &WalkInput<'a>,
) -> Result<Option<Listings<'a>>, OutOfMemory>
    ensures { IfOk result (λ listings. AreListingsFor input.now listings) }
{
    if !uses_digests(&input.options) {
        return Ok(None);
    }
    let listings = listings_by(alloc, input.rules, &input.options)?;
    Ok(Some(listings))
}

/// What the worker of a number works by, with buffers that may have learned from other entries.
pub fn worker_with<'a>(
    alloc: Global,
    input: &WalkInput<'a>,
    number: u32,
    buffers: Buffers,
) -> Result<Worker<'a>, OutOfMemory>
    requires own { IsScratchOf input.now.rules.now.rules buffers.scratch }
    ensures worker { IfOk result (λ worker. IsWorkerFor input.now worker) }
    ensures number { IfOk result (λ worker. worker.number ≡ number) }
{
    let listings = listings_for(alloc, input)?;
    Ok(Worker {
        number,
        listings,
        buffers,
    })
}

/// Takes a job and does what is to be done for its entries. It answers how many jobs were given,
/// and none if no job waits.
pub fn step<R: Wait, G: Gate>(
    site: &Site<'_, '_, R, G>,
    worker: &mut Worker<'_>,
    share: &mut Share,
) -> Result<Option<u32>, OutOfMemory>
    requires site { IsSite (common site.now) }
    requires worker { IsWorkerFor site.now.input.now worker.old }
    requires ready { IsReady (common site.now) share.old }
    ensures worker { IsWorkerFor site.now.input.now worker.new }
    ensures number { worker.new.number ≡ worker.old.number }
    ensures worked { OnOk result (HasWorked (common site.now) share.old 0 share.new) }
    ensures taken { IfOk result (λ found.
        TakesOne (walk_of site.now.input.now) share.old share.new found) }
    ensures sound { queue_stands share.old ≡ passes_of_queue site.now.queue.now
        → IfOk result (λ found. IfNone found
        (Sound (queue_shape site.now.queue.now) (one_worker (queue_view share.new.queue)))) }
{
    let Some(job) = site.queue.take(site.rt, &mut share.queue) else {
        return Ok(None);
    };
    let given = do_entries(site, worker, job, share)?;
    Ok(Some(given))
}

// Whether a worker ends: it took nothing for long, or another one gave up.
fn is_over<R, G>(site: &Site<'_, '_, R, G>, idle: u32) -> bool {
    idle >= MOST_EMPTY_TAKES || site.queue.is_stopped()
}

// Takes jobs until there were none for long, or a worker gave up.
fn work_with<R: Wait, G: Gate>(
    site: &Site<'_, '_, R, G>,
    worker: &mut Worker<'_>,
    share: &mut Share,
) -> Result<(), OutOfMemory>
    requires site { IsSite (common site.now) }
    requires worker { IsWorkerFor site.now.input.now worker.old }
    requires ready { IsReady (common site.now) share.old }
    ensures worker { IsWorkerFor site.now.input.now worker.new }
    ensures worked { OnOk result (HasWorked (common site.now) share.old 0 share.new) }
{
    let mut idle = 0u32;
    'steps: for _ in site.rt.forever() {
        if is_over(site, idle) {
            return Ok(());
        }
        let found = step(site, worker, share)?;
        idle = idle_behind(idle, found);
    }
    unreachable!()
}

// How often in a row nothing was taken, after one take more. Where nothing was, another thread gets
// its turn.
fn idle_behind(idle: u32, found: Option<u32>) -> u32 {
    if found.is_some() {
        return 0;
    }
    yield_now();
    idle.saturating_add(1)
}

// Takes jobs by the buffers in the hand.
fn work_by<R: Wait, G: Gate>(
    site: &Site<'_, '_, R, G>,
    number: u32,
    hand: Hand,
) -> Result<Hand, OutOfMemory>
    requires site { IsSite (common site.now) }
    requires ready { IsHandReady (common site.now) hand }
    ensures { IfOk result (λ after. HasHandWorked (common site.now) hand 0 after) }
{
    let Hand { mut share, buffers } = hand;
    let mut worker = worker_with(site.alloc, site.input, number, buffers)?;
    work_with(site, &mut worker, &mut share)?;
    let Worker {
        number: _,
        listings: _,
        buffers,
    } = worker;
    Ok(Hand { share, buffers })
}

/// What the worker of a number does: it takes jobs, until there were none for long. Where it has no
/// memory, it tells the others.
pub fn work<R: Wait, G: Gate>(
    site: &Site<'_, '_, R, G>,
    number: u32,
    hand: Hand,
) -> Result<Hand, OutOfMemory>
    requires site { IsSite (common site.now) }
    requires ready { IsHandReady (common site.now) hand }
    ensures { IfOk result (λ after. HasHandWorked (common site.now) hand 0 after) }
{
    let worked = work_by(site, number, hand);
    if worked.is_err() {
        site.queue.stop();
    }
    worked
}

// The same with buffers of its own.
fn work_by_own<R: Wait, G: Gate>(
    site: &Site<'_, '_, R, G>,
    number: u32,
    share: Share,
) -> Result<Share, OutOfMemory>
    requires site { IsSite (common site.now) }
    requires ready { IsReady (common site.now) share }
    ensures { IfOk result (λ after. HasWorked (common site.now) share 0 after) }
{
    let buffers = buffers_for(site.alloc, site.input.rules)?;
    let hand = work_by(site, number, Hand { share, buffers })?;
    let Hand { share, buffers: _ } = hand;
    Ok(share)
}

/// What a worker does that has learned nothing.
pub fn work_anew<R: Wait, G: Gate>(
    site: &Site<'_, '_, R, G>,
    number: u32,
    share: Share,
) -> Result<Share, OutOfMemory>
    requires site { IsSite (common site.now) }
    requires ready { IsReady (common site.now) share }
    ensures { IfOk result (λ after. HasWorked (common site.now) share 0 after) }
{
    let worked = work_by_own(site, number, share);
    if worked.is_err() {
        site.queue.stop();
    }
    worked
}
