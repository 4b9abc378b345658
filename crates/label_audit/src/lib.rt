//! The tool audit: whether the report and the dump of a run of setfiles or restorecon are the right
//! ones, or the first piece that isn't. It goes entry by entry, makes one piece at a time, and
//! compares its bytes with those of the file.
#![tactic(auto)]

mod ahead;
mod answer;
mod auditing;
mod compared;
mod deciding;
mod digests;
mod entries;
mod found;
mod laws;
mod lines;
mod looking;
mod skipping;
mod tool;
mod winners;
mod words;

pub use auditing::audit;
pub use found::AuditFiles;
pub use laws::{agrees_where_whole, audit_tells_of_run, constants_are_stated};
pub use run_faults::{Finding, Piece};
pub use words::{AuditWords, read_audit};

/// The name of the tool.
pub const AUDIT: &str = "audit";
