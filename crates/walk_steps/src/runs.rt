ghost use Rattle.std.specs.Prelude.{◌^◌, ◌<◌, length, IfOk};
ghost use Rattle.label_base.specs.Answers.{Answers};
ghost use Rattle.walk_steps.specs.Shaped.{IsValid};
ghost use Rattle.walk_steps.specs.Machine.{steps_from, index_of};
ghost use Rattle.walk_steps.specs.Sound.{Sound, WordsAreLeast, claimed_by};

use crate::machine::{RunningState, WalkState};
use crate::shape::Shape;
use crate::steps::{Step, StepsFault};
use std::alloc::Global;

#[tactic(auto, using(crate::proofs::Running::allowed_goes_on, crate::proofs::Running::refused_ends))]
fn end_of(
    alloc: Global,
    shape: &Shape,
    workers: u32,
    steps: &[Step],
) -> Result<WalkState, StepsFault>
    requires valid { IsValid shape.now }
    requires count { length steps.now < 2 ^ 32 }
    ensures { Answers (λ state. state) index_of result (steps_from shape.now workers steps.now) }
{
    let mut machine = RunningState::new(alloc, shape, workers)?;
    'steps: for index in 0..steps.len() {
        machine.step(shape, &steps[index], index as u32)?;
    }
    Ok(machine.finish(alloc)?)
}

/// Where the steps lead so many workers from the start: job 0 waits, nothing is taken, given or
/// claimed. Refuses at the first step that is not allowed: a worker, job or entry out of range, a
/// take of an empty queue, an offer of job 0, of a job whose parent this worker did not take or
/// that it gave, a claim of an entry whose home it did not take.
#[tactic(auto, using(crate::proofs::Reached::reached_is_sound, crate::proofs::Reached::reached_is_least))]
pub fn run(
    alloc: Global,
    shape: &Shape,
    workers: u32,
    steps: &[Step],
) -> Result<WalkState, StepsFault>
    requires valid { IsValid shape.now }
    requires count { length steps.now < 2 ^ 32 }
    ensures end { Answers (λ state. state) index_of result
        (steps_from shape.now workers steps.now) }
    ensures sound { IfOk result (λ state. Sound shape.now state) }
    ensures least { IfOk result
        (λ state. WordsAreLeast shape.now (claimed_by steps.now) state.words) }
{
    end_of(alloc, shape, workers, steps)
}
