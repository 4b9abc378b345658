//! Look-ups of single paths, and the tool matchpathcon(8), which makes them: which context is
//! decided for a path, and whether its inode has that label.
#![tactic(auto)]

mod answer;
mod finder;
mod found;
mod laws;
mod letters;
mod path_rules;
mod tool;
mod verified;
mod words;

pub use finder::Finder;
pub use found::{Lookup, add_found_report};
pub use laws::constants_are_stated;
pub use path_rules::PathRules;
pub use verified::{Verification, add_verified_report, is_unverified, verify};
pub use words::{LookupWords, read_lookup};

/// The name of the tool.
pub const MATCHPATHCON: &str = "matchpathcon";
