//! The files that a run reads: the role of each, how long it may be, whether it may be absent, and
//! the list of those that a tool reads, in order.
#![tactic(auto)]

mod laws;
mod list;
mod role;

pub use laws::constants_are_stated;
pub use list::{FileList, NamedFile};
pub use role::{FileRole, Part};
