//! setfiles(8) and restorecon(8) by several workers: they walk the tree, and write the lines
//! of its report and the sections of its dump, at once. What is written is the same for every number
//! of workers.
#![tactic(auto)]

mod counts;
mod entry_texts;
mod next;
mod tool;
mod workers;

pub use counts::workers_for;
pub use next::next_walk_shared;
pub use tool::ByWorkers;
pub use workers::Workers;
