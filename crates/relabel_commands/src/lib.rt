//! The commands: which tool the first word names, and its run by one worker or by as many as the
//! words ask for.
#![tactic(auto)]

mod laws;
mod runs;

pub use laws::constants_are_stated;
pub use runs::{plain, top};
