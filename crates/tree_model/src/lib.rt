//! The tree of the entries that records tell, and which of them a choice of paths means.
#![tactic(auto)]

mod above;
mod admit;
mod building;
mod choice;
mod closed;
mod counted;
mod exclude;
mod extents;
mod fault;
mod firsts;
mod groups;
mod guess;
mod job_entries;
mod jobs;
mod laws;
mod marks;
mod numbered;
mod same;
mod search;
mod selection;
mod sorted;
mod tree;

pub use choice::Choice;
pub use fault::TreeFault;
pub use job_entries::JobEntries;
pub use laws::{absent_have_no_entry, groups_are_inodes, jobs_are_directories};
pub use selection::Selected;
pub use tree::Tree;
