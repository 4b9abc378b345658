use crossbeam_queue::protocol::{Join, Lesson, Outcome, Protocol, Split};
use std::collections::LinkedList;
use std::snapshot::Snapshot;
use walk_steps::Shape;

/// What a queue was made for. The first job brings it to the rule, which has no other way to know
/// it.
#[derive(Drop)]
pub struct QueuePlan {
    pub shape: Snapshot<Shape>,
    pub passes: u32,
}

/// A job in the queue. When the program runs it is its number alone.
#[derive(Drop)]
pub struct Job {
    pub number: u32,
    pub plan: Snapshot<QueuePlan>,
}

/// What a pass shows: the jobs that it took and those that it gave, and how many passes it stands
/// for. It knows the parents of all jobs and the number of all passes, once the queue is set up. No
/// value of it is made.
pub struct QueueView {
    pub is_new: bool,
    pub parents: LinkedList<u32>,
    pub passes: u32,
    pub taken: LinkedList<u32>,
    pub given: LinkedList<u32>,
    pub stands_for: u32,
}

/// The rule of the queue.
pub(crate) struct NothingLostOrDoubled;

impl Protocol<Job, QueueView> for NothingLostOrDoubled {
    ghost use Rattle.dir_queue.specs.Rule.{IsJobKept};
    ghost use Rattle.dir_queue.specs.Passes.{not_set_up};

    ghost holds = { IsJobKept };

    ghost first = { not_set_up };
}

/// The push of job 0, which sets the queue up.
pub(crate) struct SettingUp;

impl Outcome<Job, QueueView> for SettingUp {
    ghost use Rattle.dir_queue.specs.Rule.{IsSetUp};

    ghost then = { IsSetUp };
}

impl Lesson<Job, QueueView> for SettingUp {
    ghost use Rattle.dir_queue.specs.Rule.{NothingWaits};

    ghost fact = { NothingWaits };
}

/// One offer.
pub(crate) struct Offering;

impl Outcome<Job, QueueView> for Offering {
    ghost use Rattle.dir_queue.specs.Rule.{IsOfferOf};

    ghost then = { IsOfferOf };
}

impl Lesson<Job, QueueView> for Offering {
    ghost use Rattle.dir_queue.specs.Rule.{HasQueueRoom};

    ghost fact = { HasQueueRoom };
}

/// One take.
pub(crate) struct Taking;

impl Outcome<Job, QueueView> for Taking {
    ghost use Rattle.dir_queue.specs.Rule.{IsTakeOf};

    ghost then = { IsTakeOf };
}

impl Lesson<Job, QueueView> for Taking {
    ghost use Rattle.dir_queue.specs.Rule.{Accounts};

    ghost fact = { Accounts };
}

/// One pass more, cut from a pass that stands for several.
pub(crate) struct QueueSplit;

impl Split<QueueView> for QueueSplit {
    ghost use Rattle.dir_queue.specs.Passes.{queue_for_one_less, for_one};

    ghost left = { queue_for_one_less };

    ghost right = { for_one };
}

/// Two passes made one.
pub(crate) struct QueueJoin;

impl Join<QueueView> for QueueJoin {
    ghost use Rattle.dir_queue.specs.Passes.{queues_joined, spent};

    ghost both = { queues_joined };

    ghost spent = { spent };
}
