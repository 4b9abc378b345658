//! The tools setfiles(8) and restorecon(8): their words, the files that they read, and the report
//! and the dump of the walk that they make.
#![tactic(auto)]

mod answer;
mod found;
mod laws;
mod letters;
mod tool;
mod walker;
mod words;

pub use answer::answer_of;
pub use found::RelabelFiles;
pub use laws::constants_are_stated;
pub use letters::MOST_WORKERS;
pub use walker::{OneWorker, Walker};
pub use words::{RelabelWords, read_restorecon, read_setfiles};

/// The name of the tool that always goes below its paths.
pub const SETFILES: &str = "setfiles";

/// The name of the tool that goes below its paths where it is asked to.
pub const RESTORECON: &str = "restorecon";
