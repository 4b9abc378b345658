//! A tool, and a run of one: its words are read, then its files, then the input where it takes
//! records, then it is asked, and its answer written.
#![tactic(auto)]

mod runs;
mod tool;

pub use runs::run_words;
pub use tool::Tool;
