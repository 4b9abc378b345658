//! The one list of specifications that files are looked up in.
#![tactic(auto)]

mod order;

pub use order::ordered;
