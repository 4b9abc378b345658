ghost use Rattle.std.specs.Prelude.{◌≡◌, ◌<◌, [], length, OnOk, IfOk, IfErr, true, replicate, min};
ghost use Rattle.walk_steps.specs.Lists.{is_in, list_of, added_to, lowered};

use crate::shape::Shape;
use crate::steps::{Step, StepsFault};
use label_base::{OutOfMemory, Row};
use std::alloc::Global;
use std::collections::VecDeque;

/// The word of a group that no entry was claimed for.
pub const NONE_WORD: u64 = u64::MAX;

/// Where a list of steps leads.
#[derive(Debug, Drop)]
pub struct WalkState {
    /// The jobs that wait, the first in front.
    pub queue: Row<u32>,
    /// The jobs that each worker took.
    pub taken: Row<Row<u32>>,
    /// The jobs that each worker gave.
    pub given: Row<Row<u32>>,
    /// The least entry that was claimed for each group, or `u64::MAX`.
    pub words: Row<u64>,
}

/// The state while it changes.
#[derive(Drop)]
pub(crate) struct RunningState {
    queue: VecDeque<u32>,
    taken: Vec<Row<u32>>,
    given: Vec<Row<u32>>,
    words: Vec<u64>,
}

// One empty list for each worker.
fn empty_lists(alloc: Global, workers: u32) -> Result<Vec<Row<u32>>, OutOfMemory>
    ensures { IfOk result (λ lists. lists.items ≡ replicate workers []) }
{
    let mut lists = Vec::new(alloc);
    'lists: for _ in 0..workers {
        lists.push(Row::new(alloc))?;
    }
    Ok(lists)
}

fn row_of<T: Drop>(alloc: Global, items: Vec<T>) -> Result<Row<T>, OutOfMemory>
    ensures { IfOk result (λ row. row ≡ items.items) }
{
    let mut row = Row::new(alloc);
    'items: for item in items {
        row.push(item)?;
    }
    Ok(row)
}

fn row_of_queue(alloc: Global, mut queue: VecDeque<u32>) -> Result<Row<u32>, OutOfMemory>
    ensures { IfOk result (λ row. row ≡ queue.items) }
{
    let mut row = Row::new(alloc);
    'jobs: while let Some(job) = queue.pop_front() {
        row.push(job)?;
    }
    Ok(row)
}

// Whether the number stands in the list of the worker.
fn has(lists: &[Row<u32>], worker: u32, number: u32) -> bool
    ensures { result ≡ is_in number (list_of lists.now worker) }
{
    match lists.get(worker as usize) {
        Some(list) => list.as_slice().contains(&number),
        None => false,
    }
}

// Adds the number at the end of the list of the worker, if there is such a worker.
fn add(lists: &mut Vec<Row<u32>>, worker: u32, number: u32) -> Result<(), OutOfMemory>
    ensures { OnOk result (lists.new.items ≡ added_to lists.old.items worker number) }
{
    match lists.get_mut(worker as usize) {
        Some(list) => list.push(number),
        None => Ok(()),
    }
}

// Brings the word of the group down to the entry, if there is such a group.
fn lower(words: &mut Vec<u64>, group: u32, entry: u32)
    ensures { words.new.items ≡ lowered words.old.items group entry }
{
    if let Some(word) = words.get_mut(group as usize) {
        *word = (*word).min(u64::from(entry));
    }
}

impl RunningState {
    ghost use Rattle.walk_steps.specs.Shaped.{IsValid};
    ghost use Rattle.walk_steps.specs.Machine.{
      state_of,
      first_state,
      may_take,
      may_offer,
      may_claim,
      is_allowed,
      after_take,
      after_offer,
      after_claim,
      step_after,
      Refuses,
    };

    /// Job 0 waits, nothing is taken, given or claimed.
    pub(crate) fn new(
        alloc: Global,
        shape: &Shape,
        workers: u32,
    ) -> Result<RunningState, OutOfMemory>
        ensures { IfOk result (λ machine. state_of machine ≡ first_state shape.now workers) }
    {
        let mut queue = VecDeque::new(alloc);
        queue.push_back(0)?;
        Ok(RunningState {
            queue,
            taken: empty_lists(alloc, workers)?,
            given: empty_lists(alloc, workers)?,
            words: Vec::from_elem(alloc, NONE_WORD, shape.groups as usize)?,
        })
    }

    fn may_take(&self, worker: u32) -> bool
        ensures { result ≡ may_take (state_of self.now) worker }
    {
        (worker as usize) < self.taken.len() && !self.queue.is_empty()
    }

    fn may_offer(&self, shape: &Shape, worker: u32, job: u32) -> bool
        ensures { result ≡ may_offer shape.now (state_of self.now) worker job }
    {
        if job == 0 || job as usize > shape.parents.len() {
            return false;
        }
        let parent = *shape.parents.get(job as usize - 1);
        has(self.taken.as_slice(), worker, parent) && !has(self.given.as_slice(), worker, job)
    }

    fn may_claim(&self, shape: &Shape, worker: u32, entry: u32) -> bool
        ensures { result ≡ may_claim shape.now (state_of self.now) worker entry }
    {
        if entry as usize >= shape.homes.len() {
            return false;
        }
        has(
            self.taken.as_slice(),
            worker,
            *shape.homes.get(entry as usize),
        )
    }

    fn may(&self, shape: &Shape, step: &Step) -> bool
        ensures { result ≡ is_allowed shape.now (state_of self.now) step.now }
    {
        match *step {
            Step::Take { worker } => self.may_take(worker),
            Step::Offer { worker, job } => self.may_offer(shape, worker, job),
            Step::Claim { worker, entry } => self.may_claim(shape, worker, entry),
        }
    }

    fn take(&mut self, worker: u32) -> Result<(), OutOfMemory>
        ensures { OnOk result
            (state_of self.new ≡ after_take (state_of self.old) (state_of self.old).queue worker) }
    {
        match self.queue.pop_front() {
            Some(job) => add(&mut self.taken, worker, job),
            None => Ok(()),
        }
    }

    fn offer(&mut self, worker: u32, job: u32) -> Result<(), OutOfMemory>
        ensures { OnOk result (state_of self.new ≡ after_offer (state_of self.old) worker job) }
    {
        self.queue.push_back(job)?;
        add(&mut self.given, worker, job)
    }

    fn claim(&mut self, shape: &Shape, entry: u32)
        requires { entry < length shape.now.group_of }
        ensures { state_of self.new ≡ after_claim shape.now (state_of self.old) entry }
    {
        lower(&mut self.words, *shape.group_of.get(entry as usize), entry);
    }

    fn make(&mut self, shape: &Shape, step: &Step) -> Result<(), OutOfMemory>
        requires valid { IsValid shape.now }
        requires allowed { is_allowed shape.now (state_of self.old) step.now ≡ true }
        ensures { OnOk result
            (state_of self.new ≡ step_after shape.now (state_of self.old) step.now) }
    {
        match *step {
            Step::Take { worker } => self.take(worker),
            Step::Offer { worker, job } => self.offer(worker, job),
            Step::Claim { worker: _, entry } => {
                self.claim(shape, entry);
                Ok(())
            }
        }
    }

    /// Makes a step, or refuses it where it is not allowed.
    pub(crate) fn step(&mut self, shape: &Shape, step: &Step, index: u32) -> Result<(), StepsFault>
        requires valid { IsValid shape.now }
        ensures ok { OnOk result (is_allowed shape.now (state_of self.old) step.now ≡ true) }
        ensures after { OnOk result
            (state_of self.new ≡ step_after shape.now (state_of self.old) step.now) }
        ensures err { IfErr result
            (Refuses index (is_allowed shape.now (state_of self.old) step.now)) }
    {
        if !self.may(shape, step) {
            return Err(StepsFault::NotAllowed { index });
        }
        self.make(shape, step)?;
        Ok(())
    }

    /// The state, in rows.
    pub(crate) fn finish(self, alloc: Global) -> Result<WalkState, OutOfMemory>
        ensures { IfOk result (λ state. state ≡ state_of self) }
    {
        let RunningState {
            queue,
            taken,
            given,
            words,
        } = self;
        Ok(WalkState {
            queue: row_of_queue(alloc, queue)?,
            taken: row_of(alloc, taken)?,
            given: row_of(alloc, given)?,
            words: row_of(alloc, words)?,
        })
    }
}
