ghost use Rattle.std.specs.Prelude.{◌≡◌, ◌≢◌, ℕ, ◌+◌, ◌<◌};
ghost use Rattle.walk_steps.specs.Lists.{times};
ghost use Rattle.dir_queue.specs.Passes.{parent_in};
ghost use Rattle.dir_queue.specs.Answers.{IsQueuePassOf, queue_view, queue_shape, passes_of_queue};

use crate::{DirQueue, QueuePass};
use label_base::{OutOfMemory, Row};
use std::alloc::{AllocError, Global};
use std::sync::Wait;
use std::test::Fail;
use std::thread::{Threads, join, yield_now};
use walk_steps::Shape;

// The shape of the jobs from 0 to `last`, in which job j's parent is (j - 1) / 2.
fn halving(alloc: Global, last: u32) -> Result<Shape, OutOfMemory> {
    let mut parents = Row::new(alloc);
    for below in 0..last {
        parents.push(below / 2)?;
    }
    Ok(Shape {
        parents,
        homes: Row::new(alloc),
        group_of: Row::new(alloc),
        groups: 0,
    })
}

// Offers the job if it is a child of one that was taken.
#[tactic(auto, using(crate::proofs::OneMore::given_else))]
fn offer_child<R: Wait>(
    rt: &R,
    queue: &DirQueue,
    shape: &Shape,
    pass: &mut QueuePass,
    job: u32,
    child: u32,
)
    requires pass { IsQueuePassOf queue.now pass.old × (queue_shape queue.now ≡ shape.now) }
    requires taken { 0 < times job (queue_view pass.old).taken }
    requires new { parent_in shape.now.parents child ≡ job
        → times child (queue_view pass.old).given ≡ 0 }
    ensures pass { IsQueuePassOf queue.now pass.new }
    ensures taken { (queue_view pass.new).taken ≡ (queue_view pass.old).taken }
    ensures given { (other : ℕ) → other ≢ child
        → times other (queue_view pass.new).given ≡ times other (queue_view pass.old).given }
    ensures stands { (queue_view pass.new).stands_for ≡ (queue_view pass.old).stands_for }
{
    if child > 0
        && child as usize <= shape.parents.len()
        && *shape.parents.get(child as usize - 1) == job
    {
        queue.offer(rt, pass, child);
    }
}

// Takes a job, where another one was taken before whose children were not given.
#[tactic(auto, using(crate::proofs::OneMore::still_taken, crate::proofs::OneMore::same_given))]
fn take_or_stay<R: Wait>(rt: &R, queue: &DirQueue, pass: &mut QueuePass, job: u32) -> Option<u32>
    requires pass { IsQueuePassOf queue.now pass.old }
    requires taken { 0 < times job (queue_view pass.old).taken }
    ensures pass { IsQueuePassOf queue.now pass.new }
    ensures taken { 0 < times job (queue_view pass.new).taken }
    ensures given { (queue_view pass.new).given ≡ (queue_view pass.old).given }
    ensures stands { (queue_view pass.new).stands_for ≡ (queue_view pass.old).stands_for }
{
    queue.take(rt, pass)
}

// Takes a job and offers its children.
#[tactic(auto, using(crate::proofs::OneMore::just_taken, crate::proofs::OneMore::ungiven_child))]
fn work_once<R: Wait>(rt: &R, queue: &DirQueue, shape: &Shape, pass: &mut QueuePass) -> Option<u32>
    requires { IsQueuePassOf queue.now pass.old × (queue_shape queue.now ≡ shape.now) }
    ensures pass { IsQueuePassOf queue.now pass.new }
    ensures stands { (queue_view pass.new).stands_for ≡ (queue_view pass.old).stands_for }
{
    let Some(job) = queue.take(rt, pass) else {
        return None;
    };
    if job < 1000 {
        offer_child(rt, queue, shape, pass, job, 2 * job + 1);
        offer_child(rt, queue, shape, pass, job, 2 * job + 2);
    }
    Some(job)
}

// A pass, and the jobs that it took, for which there is room.
#[derive(Drop)]
struct QueueWorker {
    pass: QueuePass,
    jobs: Vec<u32>,
}

// Takes and offers for a number of turns.
fn work<R: Wait>(rt: &R, queue: &DirQueue, shape: &Shape, worker: QueueWorker) -> QueueWorker
    requires { IsQueuePassOf queue.now worker.pass × (queue_shape queue.now ≡ shape.now) }
    ensures pass { IsQueuePassOf queue.now result.pass }
    ensures stands { (queue_view result.pass).stands_for ≡ (queue_view worker.pass).stands_for }
{
    let QueueWorker { mut pass, mut jobs } = worker;
    'turns: for _ in 0..4000u32 {
        match work_once(rt, queue, shape, &mut pass) {
            Some(job) => {
                let _ = jobs.push(job);
            }
            None => yield_now(),
        }
    }
    QueueWorker { pass, jobs }
}

// How many of the jobs 0 to `last` stand in the lists exactly once.
fn once_each(alloc: Global, last: u32, lists: &[Vec<u32>]) -> Result<usize, AllocError> {
    let mut counts = Vec::from_elem(alloc, 0u32, last as usize + 1)?;
    for list in lists {
        for job in list {
            if let Some(count) = counts.get_mut(*job as usize) {
                *count = count.saturating_add(1);
            }
        }
    }
    Ok(counts.iter().filter(|count| **count == 1).count())
}

// Offers job 1 once job 0 is taken, and takes what is there.
#[tactic(auto, using(crate::proofs::OneMore::just_taken, crate::proofs::OneMore::ungiven_child))]
fn one_after_another<R: Wait>(
    rt: &R,
    queue: &DirQueue,
    shape: &Shape,
    pass: &mut QueuePass,
) -> [Option<u32>; 4]
    requires pass { IsQueuePassOf queue.now pass.old × (queue_shape queue.now ≡ shape.now) }
    requires whole { (queue_view pass.old).stands_for ≡ passes_of_queue queue.now }
{
    let first = queue.take(rt, pass);
    let Some(job) = first else {
        return [first, None, None, None];
    };
    if job > 0 {
        return [first, None, None, None];
    }
    let second = take_or_stay(rt, queue, pass, job);
    offer_child(rt, queue, shape, pass, job, 1);
    let third = take_or_stay(rt, queue, pass, job);
    [first, second, third, queue.drain(rt, pass)]
}

#[test]
fn one_pass_takes_what_it_gives(rt: HostRuntime) -> Result<(), Fail> {
    let shape = halving(rt.alloc(), 2)?;
    let (queue, mut passes) = DirQueue::new(&rt, rt.alloc(), &shape, 1)?;
    let Some(mut pass) = passes.pop() else {
        unreachable!()
    };
    let found = one_after_another(&rt, &queue, &shape, &mut pass);
    assert!(rt; found == [Some(0), None, Some(1), None]);
    Ok(())
}

#[test]
fn one_pass_takes_what_another_gives(rt: HostRuntime) -> Result<(), Fail> {
    let shape = halving(rt.alloc(), 2)?;
    let (queue, mut passes) = DirQueue::new(&rt, rt.alloc(), &shape, 2)?;
    let (Some(mut first), Some(mut second)) = (passes.pop(), passes.pop()) else {
        unreachable!()
    };
    assert!(rt; work_once(&rt, &queue, &shape, &mut first) == Some(0));
    assert!(rt; queue.take(&rt, &mut second) == Some(1));
    assert!(rt; queue.take(&rt, &mut second) == Some(2));
    assert!(rt; queue.take(&rt, &mut second) == None);
    Ok(())
}

fn two_workers<R: Threads + Wait + Sync>(
    rt: &R,
    queue: &DirQueue,
    shape: &Shape,
    a: QueueWorker,
    b: QueueWorker,
) -> (QueueWorker, QueueWorker)
    requires shape { queue_shape queue.now ≡ shape.now }
    requires a { IsQueuePassOf queue.now a.pass × ((queue_view a.pass).stands_for ≡ 1) }
    requires b { IsQueuePassOf queue.now b.pass × ((queue_view b.pass).stands_for ≡ 1) }
    ensures a { IsQueuePassOf queue.now result.0.pass
        × ((queue_view result.0.pass).stands_for ≡ 1) }
    ensures b { IsQueuePassOf queue.now result.1.pass
        × ((queue_view result.1.pass).stands_for ≡ 1) }
{
    join(
        rt,
        || -> QueueWorker
            requires { IsQueuePassOf queue.now a.pass × (queue_shape queue.now ≡ shape.now)
                × ((queue_view a.pass).stands_for ≡ 1) }
            ensures { IsQueuePassOf queue.entry.now result.pass
                × ((queue_view result.pass).stands_for ≡ 1) }
        { work(rt, queue, shape, a) },
        || -> QueueWorker
            requires { IsQueuePassOf queue.now b.pass × (queue_shape queue.now ≡ shape.now)
                × ((queue_view b.pass).stands_for ≡ 1) }
            ensures { IsQueuePassOf queue.entry.now result.pass
                × ((queue_view result.pass).stands_for ≡ 1) }
        { work(rt, queue, shape, b) },
    )
}

#[test]
fn two_threads_take_each_job_once(rt: HostRuntime) -> Result<(), Fail> {
    let alloc = rt.alloc();
    let shape = halving(alloc, 1000)?;
    let (queue, mut passes) = DirQueue::new(&rt, alloc, &shape, 2)?;
    let (Some(a), Some(b)) = (passes.pop(), passes.pop()) else {
        unreachable!()
    };
    let first = QueueWorker {
        pass: a,
        jobs: Vec::with_capacity(alloc, 2000)?,
    };
    let second = QueueWorker {
        pass: b,
        jobs: Vec::with_capacity(alloc, 2000)?,
    };
    let (first, second) = two_workers(&rt, &queue, &shape, first, second);
    let QueueWorker {
        pass: mut all,
        jobs,
    } = first;
    queue.join(&rt, &mut all, second.pass);
    let rest = QueueWorker {
        pass: all,
        jobs: Vec::with_capacity(alloc, 2000)?,
    };
    let QueueWorker {
        pass: mut all,
        jobs: rest,
    } = work(&rt, &queue, &shape, rest);
    let lists = vec![in alloc; jobs, second.jobs, rest]?;
    assert!(rt; once_each(alloc, 1000, lists.as_slice())? == 1001);
    assert!(rt; queue.drain(&rt, &mut all) == None);
    Ok(())
}
