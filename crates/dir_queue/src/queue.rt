ghost use Rattle.std.specs.Prelude.{◌≡◌, ◌+◌, ◌-◌, ◌<◌, false, length, All, IfOk, IfNone};
ghost use Rattle.crossbeam_queue.specs.Passes.{view, IsPassOf, ruled_capacity};
ghost use Rattle.dir_queue.specs.Passes.{not_set_up, fresh_queue, with_job_given, queues_joined};
ghost use Rattle.dir_queue.specs.Passes.{queue_for_one_less, MayOffer, ParentsAreTaken};
ghost use Rattle.dir_queue.specs.Passes.{HoldsEachOnce};
ghost use Rattle.walk_steps.specs.Sound.{Sound};

use crate::rule::{
    Job, NothingLostOrDoubled, Offering, QueueJoin, QueuePlan, QueueSplit, QueueView, SettingUp,
    Taking,
};
use crossbeam_queue::{Pass, RuledArrayQueue};
use label_base::{OutOfMemory, Row};
use std::alloc::{AllocError, Global};
use std::snapshot::Snapshot;
use std::sync::Wait;
use std::sync::atomic::{AtomicBool, Ordering};
use walk_steps::Shape;

/// The right to take and to give, one for each thread. It has no bytes.
#[derive(Drop)]
pub struct QueuePass {
    pass: Pass<Job, QueueView>,
    pub ghost live: { 0 < (view pass).stands_for },
    pub ghost begun: { (view pass).is_new ≡ false },
    pub ghost under: { ParentsAreTaken (view pass) },
}

/// The queue, which threads share by reference.
#[derive(Drop)]
pub struct DirQueue {
    queue: RuledArrayQueue<Job, QueueView, NothingLostOrDoubled>,
    plan: QueuePlan,
    // Whether somebody gave up. No clause speaks of it.
    stopped: AtomicBool,
    pub ghost roomy: { ruled_capacity queue ≡ length plan.shape.value.parents + 1 },
}

impl DirQueue {
    ghost use Rattle.dir_queue.specs.Answers.{
      IsQueuePassOf,
      queue_view,
      queue_shape,
      passes_of_queue,
      TakesJob,
      NoneIfAllTaken,
      one_worker,
    };

    /// A queue for the jobs of the shape, in which job 0 waits, and so many passes, at least one.
    /// Each stands for one.
    pub fn new<R: Wait>(
        rt: &R,
        alloc: Global,
        shape: &Shape,
        passes: u32,
    ) -> Result<(DirQueue, Row<QueuePass>), OutOfMemory>
        requires { 0 < passes }
        ensures shape { IfOk result (λ made. queue_shape made.0 ≡ shape.now) }
        ensures passes { IfOk result
            (λ made. (passes_of_queue made.0 ≡ passes) × (length made.1 ≡ passes)) }
        ensures each { IfOk result
            (λ made. All (λ p. IsQueuePassOf made.0 p
            × (queue_view p ≡ fresh_queue shape.now.parents passes 1)) made.1) }
    {
        let (queue, pass) = DirQueue::open(alloc, shape, passes)?;
        let pass = queue.set_up(rt, pass);
        let all = queue.deal(alloc, pass, passes)?;
        Ok((queue, all))
    }

    fn open(
        alloc: Global,
        shape: &Shape,
        passes: u32,
    ) -> Result<(DirQueue, Pass<Job, QueueView>), AllocError>
        ensures made { IfOk result
            (λ made. (queue_shape made.0 ≡ shape.now) × (passes_of_queue made.0 ≡ passes)) }
        ensures pass { IfOk result
            (λ made. IsPassOf made.0.queue made.1 × (view made.1 ≡ not_set_up)) }
    {
        let plan = QueuePlan {
            shape: Snapshot::of(shape),
            passes,
        };
        let (queue, pass) = RuledArrayQueue::ruled(alloc, shape.parents.as_slice().len() + 1)?;
        let queue = DirQueue {
            queue,
            plan,
            stopped: AtomicBool::new(false),
        };
        Ok((queue, pass))
    }

    fn job(&self, number: u32) -> Job
        ensures { (result.number ≡ number) × (result.plan.value ≡ self.now.plan) }
    {
        Job {
            number,
            plan: Snapshot::of(&self.plan),
        }
    }

    fn set_up<R: Wait>(&self, rt: &R, mut pass: Pass<Job, QueueView>) -> QueuePass
        requires { IsPassOf self.now.queue pass × (view pass ≡ not_set_up)
            × (0 < passes_of_queue self.now) }
        ensures pass { IsQueuePassOf self.now result }
        ensures view { queue_view result
            ≡ fresh_queue (queue_shape self.now).parents (passes_of_queue self.now)
            (passes_of_queue self.now) }
    {
        let job = self.job(0);
        if self
            .queue
            .push_as::<SettingUp, R>(rt, &mut pass, job)
            .is_err()
        {
            unreachable!()
        }
        QueuePass { pass }
    }

    fn another(&self, pass: &mut QueuePass) -> QueuePass
        requires { IsQueuePassOf self.now pass.old × (1 < (queue_view pass.old).stands_for) }
        ensures old { IsQueuePassOf self.now pass.new
            × (queue_view pass.new ≡ queue_for_one_less (queue_view pass.old)) }
        ensures new { IsQueuePassOf self.now result
            × (queue_view result ≡ fresh_queue (queue_shape self.now).parents
            (passes_of_queue self.now) 1) }
    {
        let pass = self.queue.another::<QueueSplit>(&mut pass.pass);
        QueuePass { pass }
    }

    fn deal(
        &self,
        alloc: Global,
        mut pass: QueuePass,
        passes: u32,
    ) -> Result<Row<QueuePass>, OutOfMemory>
        requires some { 0 < passes }
        requires pass { IsQueuePassOf self.now pass
            × (queue_view pass ≡ fresh_queue (queue_shape self.now).parents
            (passes_of_queue self.now)
            passes) }
        ensures len { IfOk result (λ all. length all ≡ passes) }
        ensures each { IfOk result
            (λ all. All (λ p. IsQueuePassOf self.now p
            × (queue_view p ≡ fresh_queue (queue_shape self.now).parents (passes_of_queue self.now)
            1)) all) }
    {
        let mut all = Row::new(alloc);
        'passes: for _ in 1..passes {
            all.push(self.another(&mut pass))?;
        }
        all.push(pass)?;
        Ok(all)
    }

    /// Tells all who share the queue that somebody gave up, so that they can end early. Whoever takes
    /// jobs all the same finds them as before.
    pub fn stop(&self) {
        self.stopped.store(true, Ordering::SeqCst);
    }

    /// Whether [`stop`](DirQueue::stop) was called.
    pub fn is_stopped(&self) -> bool {
        self.stopped.load(Ordering::SeqCst)
    }

    /// Gives a job whose parent this pass took and that it did not give yet. There is always room.
    pub fn offer<R: Wait>(&self, rt: &R, pass: &mut QueuePass, job: u32)
        requires pass { IsQueuePassOf self.now pass.old }
        requires may { MayOffer (queue_view pass.old) job }
        ensures pass { IsQueuePassOf self.now pass.new }
        ensures given { queue_view pass.new ≡ with_job_given (queue_view pass.old) job }
    {
        let job = self.job(job);
        if self
            .queue
            .push_as::<Offering, R>(rt, &mut pass.pass, job)
            .is_err()
        {
            unreachable!()
        }
    }

    /// Takes the job that waits longest. None comes only where the queue was empty at a step of
    /// this call.
    pub fn take<R: Wait>(&self, rt: &R, pass: &mut QueuePass) -> Option<u32>
        requires { IsQueuePassOf self.now pass.old }
        ensures pass { IsQueuePassOf self.now pass.new }
        ensures taken { TakesJob (queue_shape self.now) (queue_view pass.old) (queue_view pass.new)
            result }
        ensures each { (queue_view pass.old).stands_for ≡ passes_of_queue self.now
            → HoldsEachOnce (queue_view pass.new) }
        ensures none { (queue_view pass.old).stands_for ≡ passes_of_queue self.now
            → NoneIfAllTaken (queue_view pass.old) result }
        ensures sound { (queue_view pass.old).stands_for ≡ passes_of_queue self.now
            → IfNone result (Sound (queue_shape self.now) (one_worker (queue_view pass.old))) }
    {
        match self.queue.pop_as::<Taking, R>(rt, &mut pass.pass) {
            Some(job) => Some(job.number),
            None => None,
        }
    }

    /// Adds the lists of one pass to those of another, which then stands for both.
    pub fn join<R: Wait>(&self, _rt: &R, into: &mut QueuePass, from: QueuePass)
        requires { IsQueuePassOf self.now into.old × IsQueuePassOf self.now from }
        ensures pass { IsQueuePassOf self.now into.new }
        ensures view { queue_view into.new ≡ queues_joined (queue_view into.old) (queue_view from) }
        ensures each { (queue_view into.new).stands_for ≡ passes_of_queue self.now
            → HoldsEachOnce (queue_view into.new) }
    {
        let QueuePass { pass } = from;
        self.queue.absorb::<QueueJoin>(&mut into.pass, pass);
        self.queue.learn_as::<Taking>(&mut into.pass);
    }

    /// Takes a job by a pass into which all others were joined. None comes exactly where job 0 and
    /// every job that was given are taken.
    pub fn drain<R: Wait>(&self, rt: &R, pass: &mut QueuePass) -> Option<u32>
        requires pass { IsQueuePassOf self.now pass.old }
        requires whole { (queue_view pass.old).stands_for ≡ passes_of_queue self.now }
        ensures pass { IsQueuePassOf self.now pass.new }
        ensures taken { TakesJob (queue_shape self.now) (queue_view pass.old) (queue_view pass.new)
            result }
        ensures each { HoldsEachOnce (queue_view pass.new) }
        ensures none { NoneIfAllTaken (queue_view pass.old) result }
        ensures sound { IfNone result
            (Sound (queue_shape self.now) (one_worker (queue_view pass.old))) }
    {
        self.take(rt, pass)
    }
}
