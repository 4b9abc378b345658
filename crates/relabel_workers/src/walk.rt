ghost use Rattle.std.specs.Prelude.{◌≡◌, ◌<◌, ◌≤◌, [], IfOk};
ghost use Rattle.inode_claims.specs.Answers.{IsPassOf, groups_of};
ghost use Rattle.inode_claims.specs.Answers.{passes_of_claims as claim_passes_of};
ghost use Rattle.dir_queue.specs.Answers.{one_worker, queue_view};
ghost use Rattle.walk_steps.specs.Shaped.{IsValid};
ghost use Rattle.walk_steps.specs.Sound.{Sound};
ghost use Rattle.tree_model.specs.Groups.{groups_in};
ghost use Rattle.tree_model.specs.Jobs.{shape_of};
ghost use Rattle.relabel_core.specs.Answer.{walk_in};
ghost use Rattle.relabel_core.specs.Walk.{count_wanted};
ghost use Rattle.relabel_core.specs.Walked.{IsFit, walk_of};
ghost use Rattle.relabel_workers.specs.Held.{AreDone, claims_stand};
ghost use Rattle.relabel_workers.specs.PutBack.{AreAllNoted, AreWinnersClaimed};

use crate::all_jobs::take_all_jobs;
use crate::gate::Gate;
use crate::notes::Notes;
use crate::put_back::walk_of_notes;
use crate::share::Share;
use crate::site::{Passes, Site};
use dir_queue::DirQueue;
use inode_claims::{Claims, Winners};
use label_base::OutOfMemory;
use relabel_core::{WalkInput, Walked};
use std::alloc::Global;
use std::sync::Wait;
use std::thread::Threads;
use walk_steps::{Shape, ends_are_one};

// What workers did, at their end.
#[derive(Drop)]
struct Closed {
    winners: Winners,
    notes: Notes,
}

// Closes the claims of workers that left no job.
fn close(input: &WalkInput<'_>, shape: &Shape, claims: Claims, share: Share) -> Closed
    requires fit { IsFit input.now }
    requires shape { (shape.now ≡ shape_of input.now.tree.now) × IsValid shape.now }
    requires groups { groups_of claims ≡ groups_in input.now.tree.now }
    requires pass { IsPassOf claims share.claims }
    requires all { claims_stand share ≡ claim_passes_of claims }
    requires done { AreDone (walk_of input.now) [] share }
    requires sound { Sound shape.now (one_worker (queue_view share.queue)) }
    ensures notes { AreAllNoted (walk_of input.now) result.notes }
    ensures winners { AreWinnersClaimed (walk_of input.now) result.winners }
    ensures claims { result.winners.claims ≡ count_wanted (walk_of input.now) }
{
    ends_are_one(shape);
    input.tree.rises();
    let Share {
        queue: _queue,
        claims: pass,
        notes,
    } = share;
    let winners = claims.close(pass);
    Closed { winners, notes }
}

// Lets workers walk over a tree of this shape.
fn close_all<R: Threads + Wait + Sync, G: Gate + Sync>(
    rt: &R,
    alloc: Global,
    input: &WalkInput<'_>,
    shape: &Shape,
    workers: u32,
    gate: &G,
) -> Result<Closed, OutOfMemory>
    requires fit { IsFit input.now }
    requires shape { (shape.now ≡ shape_of input.now.tree.now) × IsValid shape.now }
    requires some { 0 < workers }
    ensures notes { IfOk result (λ closed. AreAllNoted (walk_of input.now) closed.notes) }
    ensures winners { IfOk result (λ closed. AreWinnersClaimed (walk_of input.now) closed.winners) }
    ensures claims { IfOk result (λ closed.
        closed.winners.claims ≡ count_wanted (walk_of input.now)) }
{
    let (queue, queue_passes) = DirQueue::new(rt, alloc, shape, workers)?;
    let (claims, claim_passes) = Claims::new(alloc, input.tree.groups(), workers)?;
    let site = Site {
        rt,
        alloc,
        input,
        queue: &queue,
        claims: &claims,
        gate,
    };
    let passes = Passes {
        queue: queue_passes,
        claims: claim_passes,
    };
    let share = take_all_jobs(&site, workers, passes)?;
    Ok(close(input, shape, claims, share))
}

/// Walks over a tree by so many workers, and finds what the walk of one worker finds, whatever each
/// of them does when. It answers the winners that were claimed beside it: the first name of each
/// inode for which a context is decided. The gate is told of each job that a worker takes, and of
/// each claim.
///
/// It fails for want of memory alone, and a worker's counts as its own. Where no thread can be
/// started, one worker after the other does its work.
pub fn walk_threads<'a, R: Threads + Wait + Sync, G: Gate + Sync>(
    rt: &R,
    alloc: Global,
    input: &WalkInput<'a>,
    workers: u32,
    gate: &G,
) -> Result<(Walked<'a>, Winners), OutOfMemory>
    requires fit { IsFit input.now }
    requires workers { (0 < workers) × (workers ≤ 64) }
    ensures walk { IfOk result (λ found. walk_in found.0 ≡ walk_of input.now) }
    ensures winners { IfOk result (λ found. AreWinnersClaimed (walk_of input.now) found.1) }
    ensures claims { IfOk result (λ found. found.1.claims ≡ count_wanted (walk_of input.now)) }
{
    let shape = input.tree.shape(alloc)?;
    let closed = close_all(rt, alloc, input, &shape, workers, gate)?;
    let walked = walk_of_notes(alloc, input, &closed.winners, &closed.notes)?;
    let Closed { winners, notes: _ } = closed;
    Ok((walked, winners))
}
