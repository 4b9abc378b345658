//! The queue of directories that workers share. Each job is given once, by a pass that took its
//! parent, and taken once, whatever the threads do when; and a pass that stands for all passes
//! knows what is left.
#![tactic(auto)]

mod queue;
mod rule;
#[cfg(test)]
mod tests;

pub use queue::{DirQueue, QueuePass};
pub use rule::QueueView;
