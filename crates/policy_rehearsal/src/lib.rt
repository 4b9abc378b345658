//! The tool rehearse: what several versions of a policy change in one tree, one after the other.
//! Each walks over the labels and digests that those before it leave, and nothing is written.
#![tactic(auto)]

mod answer;
mod files;
mod groups;
mod laws;
mod letters;
mod rehearsal;
mod rehearsed;
mod seen;
mod texts;
mod tool;
mod turn;
mod words;

pub use laws::{
    answers_keep_labels, changes_lead_there, constants_are_stated, read_files_give_listings,
    read_policies_are_runs, read_runs_are_runs,
};
pub use letters::MOST_POLICIES;
pub use rehearsal::{RehearsalInput, rehearse};
pub use rehearsed::{Change, Rehearsed, VersionChanges};
pub use texts::text;
pub use words::{RehearseWords, read_rehearse};

/// The name of the tool.
pub const REHEARSE_TOOL: &str = "rehearse";
