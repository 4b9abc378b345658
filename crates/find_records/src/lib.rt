//! The records of a tree, as `find -printf '%y %D %i %Z %p\0'` writes them, or with link counts
//! `find -printf '%y %D %i %n %Z %p\0'`.
#![tactic(auto)]

mod all_labels;
mod entry;
mod fault;
mod format;
mod guesses;
mod labelled;
mod labels;
mod laws;
mod lay;
mod profile_row;
mod profiles;
mod reading;
mod record;
mod records;
mod row;
mod so_far;

pub use entry::{Entry, RawRecord};
pub use fault::{RecordWhy, RecordsFault};
pub use file_paths::PathWhy;
pub use format::Format;
pub use laws::constants_are_stated;
pub use reading::{RecordLimits, read_records, records_follow_grammar};
pub use records::Records;
