//! The writes at a run's end: a text to its file, then the report; or the fault line of a refusal.
#![tactic(auto)]

mod ending;
mod refusing;
mod writing;

pub use ending::{End, Ending, Saved};
pub use refusing::{finish, give_up, lose_dump, outcome, refuse, refuse_words};
pub use writing::save;
