//! The walk over a tree by several workers. They share a queue of directories and one word for each
//! inode, and find what the walk of one worker finds, whatever each of them does when.
#![tactic(auto)]

mod all_jobs;
mod alone;
mod gate;
mod job;
mod note;
mod notes;
mod put_back;
mod running;
mod share;
mod site;
mod walk;
mod work;

pub use gate::{Gate, OpenGate};
pub use walk::walk_threads;
