ghost use Rattle.std.specs.Prelude.{◌≡◌};
ghost use Rattle.walk_steps.specs.declared.steps.StepsFault.TheVariants.{OutOfMemory};

use std::alloc::AllocError;

/// What a worker does.
#[derive(Clone, Copy, Debug, PartialEq, Eq)]
pub enum Step {
    /// Takes the job at the front of the queue.
    Take { worker: u32 },
    /// Gives a child of a job that it took to the back of the queue.
    Offer { worker: u32, job: u32 },
    /// Claims an entry of a job that it took for the entry's group.
    Claim { worker: u32, entry: u32 },
}

/// Why a list of steps has no end state.
#[derive(Clone, Copy, Debug, PartialEq, Eq)]
pub enum StepsFault {
    /// The first step that is not allowed.
    NotAllowed { index: u32 },
    OutOfMemory,
}

impl From<AllocError> for StepsFault {
    ghost from_gives = { λ _ e. e ≡ OutOfMemory };

    fn from(_refused: AllocError) -> StepsFault {
        StepsFault::OutOfMemory
    }
}

impl From<label_base::OutOfMemory> for StepsFault {
    ghost from_gives = { λ _ e. e ≡ OutOfMemory };

    fn from(_refused: label_base::OutOfMemory) -> StepsFault {
        StepsFault::OutOfMemory
    }
}
