//! Paths of files: read, written, compared, kept and lent, seen by contracts as the lists of their
//! names.
#![tactic(auto)]

mod laws;
mod path;
mod path_fault;
mod path_key;
mod path_ref;
mod path_text;

pub use laws::constants_are_stated;
pub use path::{MOST_PATH_BYTES, NormPath, SLASH};
pub use path_fault::{PathFault, PathWhy};
pub use path_key::PathKey;
pub use path_ref::PathRef;
pub use path_text::add_path;
