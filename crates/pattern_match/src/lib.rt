//! Matchers of the patterns of file_contexts, which match a whole path (selabel_file(5)):
//! Glushkov's position automaton, run by sets of states, without going back in the text and without
//! memory taken while it reads.
#![tactic(auto)]

mod bits;
mod class;
mod compile;
mod copying;
mod entry;
mod fragment;
mod layout;
mod loops;
mod machine;
mod marks;
mod matcher;
mod one_text;
mod operation;
mod over;
mod part;
mod passing;
mod position;
mod readying;
mod segment;
mod settling;
mod skipping;
mod spelling;
mod states;
mod steady;
mod tables;
mod taking;

pub use matcher::{Matcher, every_cut_is_membership, may_hold, quotients_show_what_is_below};
pub use one_text::{accepts_text, is_one_text, is_text_alive, stays_text, step_text};
pub use part::PatternPart;
pub use readying::PatternTables;
pub use spelling::{MOST_LEVELS, operations_of};
pub use states::States;
