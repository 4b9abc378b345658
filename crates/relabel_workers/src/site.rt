use dir_digest::Listings;
use dir_queue::{DirQueue, QueuePass};
use inode_claims::{ClaimPass, Claims};
use label_base::Row;
use relabel_core::{Buffers, WalkInput};
use std::alloc::Global;

/// The number that the caller has as a worker.
pub const CALLER: u32 = 0;

/// What all workers of a walk share.
#[derive(Clone, Copy)]
pub struct Site<'s, 'a, R, G> {
    pub rt: &'s R,
    pub alloc: Global,
    pub input: &'s WalkInput<'a>,
    pub queue: &'s DirQueue,
    pub claims: &'s Claims,
    /// Who is told of each job that a worker takes, and of each claim.
    pub gate: &'s G,
}

/// What one worker works by.
#[derive(Drop)]
pub struct Worker<'a> {
    pub number: u32,
    /// What makes the listings of directories, where digests count for the run.
    pub listings: Option<Listings<'a>>,
    pub buffers: Buffers,
}

/// The passes of workers that aren't at work yet, as many of the one kind as of the other.
#[derive(Drop)]
pub struct Passes {
    pub queue: Row<QueuePass>,
    pub claims: Row<ClaimPass>,
}
