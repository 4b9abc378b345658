//! The walk over a tree with one worker: which label each entry is to have, the report that tells
//! it, and the dump of what changes. What is done for one entry, one group or one directory is a
//! call of its own, over which the walk only loops.
#![tactic(auto)]

mod after;
mod counts;
mod deciding;
mod digesting;
mod digests;
mod directories;
mod dump;
mod errors;
mod finding;
mod input;
mod known;
mod laws;
mod next;
mod noting;
mod numbers;
mod options;
mod report;
mod stored;
mod swept;
mod walked;
mod walking;

pub use after::{DigestAfter, digest_after, digest_change, unless_stored};
pub use counts::{LabelChanges, count_at, count_changed};
pub use deciding::{Visit, decide_entry, is_walked};
pub use digesting::{Buffers, buffers_for, digest_of, listings_by};
pub use digests::Digests;
pub use directories::sweep_directories;
pub use dump::{PathChanges, add_section_of};
pub use finding::{DirectoryFinding, find_directory, renewed_digest, uses_digests};
pub use input::{WalkInput, walk_input};
pub use known::{EntryFound, Known, group_change, group_label, group_verdict, is_found_at};
pub use laws::table_walk_is_walk;
pub use next::{label_of, next_digests, next_labels};
pub use noting::{Noted, note_entry};
pub use options::Options;
pub use report::{add_absent_of, no_flags, operand_at, raise, unflagged_line};
pub use stored::Stored;
pub use swept::{Cursor, Skip, Swept, does_skip, is_first, is_skipped};
pub use walked::Walked;
pub use walking::walk;
