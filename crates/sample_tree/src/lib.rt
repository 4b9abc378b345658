//! The tool sample: a tree made from a number, walked twice, and a summary of what was counted. Its
//! file of specifications and its records are made as bytes, and read by the readers of any others.
#![tactic(auto)]

mod choice;
mod laws;
mod records;
mod summary;
mod tool;
mod walks;
mod words;

pub use laws::constants_are_stated;
pub use records::{SPECS, sample_records};
pub use summary::Summary;
pub use walks::sample_ending;
pub use words::{MOST_FILES, SampleWords, read_sample};

/// The name of the tool.
pub const SAMPLE: &str = "sample";
