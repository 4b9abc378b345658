//! The commands of relabel-policy: which tool the first word names, and its run.
#![tactic(auto)]

mod laws;
mod runs;

pub use laws::constants_are_stated;
pub use runs::plain;
