//! What a run reads: a file by its role, at most so many bytes as it may have, and the input, as
//! the tree of its records.
#![tactic(auto)]

mod files;
mod laws;
mod records;

pub use files::read_part;
pub use laws::constants_are_stated;
pub use records::{MOST_RECORD_BYTES, MOST_RECORDS, read_entries, read_tree};
