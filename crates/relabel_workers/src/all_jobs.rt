ghost use Rattle.std.specs.Prelude.{◌≡◌, ◌<◌, length, IfOk};
ghost use Rattle.inode_claims.specs.Answers.{passes_of_claims as claim_passes_of};
ghost use Rattle.dir_queue.specs.Answers.{one_worker, passes_of_queue, queue_view, queue_shape};
ghost use Rattle.walk_steps.specs.Sound.{Sound};
ghost use Rattle.relabel_workers.specs.Held.{AreFreshPasses, IsReady, IsSite, claims_stand};
ghost use Rattle.relabel_workers.specs.Held.{common, queue_stands};

use crate::alone::{drain, start_alone};
use crate::gate::Gate;
use crate::running::run_if_any;
use crate::share::{Hand, Share, next_share};
use crate::site::{CALLER, Passes, Site, Worker};
use crate::work::worker_with;
use label_base::OutOfMemory;
use relabel_core::buffers_for;
use std::sync::Wait;
use std::thread::Threads;

/// Lets as many workers as there are passes take all jobs: the caller alone first, then all of
/// them, the caller with what it learned, and what is left by the caller. It answers what they did, by passes that stand for all.
pub fn take_all_jobs<R: Threads + Wait + Sync, G: Gate + Sync>(
    site: &Site<'_, '_, R, G>,
    workers: u32,
    mut passes: Passes,
) -> Result<Share, OutOfMemory>
    requires site { IsSite (common site.now) }
    requires rows { AreFreshPasses (common site.now) passes.queue passes.claims }
    requires some { 0 < length passes.queue }
    requires queues { passes_of_queue site.now.queue.now ≡ length passes.queue }
    requires claimers { claim_passes_of site.now.claims.now ≡ length passes.queue }
    ensures ready { IfOk result (λ share. IsReady (common site.now) share) }
    ensures all { IfOk result (λ share.
        claims_stand share ≡ claim_passes_of site.now.claims.now) }
    ensures sound { IfOk result (λ share.
        Sound (queue_shape site.now.queue.now) (one_worker (queue_view share.queue))) }
{
    let Some(mut share) = next_share(site, &mut passes) else {
        unreachable!()
    };
    let buffers = buffers_for(site.alloc, site.input.rules)?;
    let mut worker = worker_with(site.alloc, site.input, CALLER, buffers)?;
    let waiting = start_alone(site, workers, &mut worker, &mut share)?;
    let Worker {
        number: _,
        listings: _,
        buffers,
    } = worker;
    let hand = run_if_any(site, waiting, passes, Hand { share, buffers })?;
    drain(site, CALLER, hand)
}
