//! The messages of a run and the lines of its report, in the words of setfiles(8), restorecon(8)
//! and matchpathcon(8).
#![tactic(auto)]

mod laws;
mod lines;
mod message;
mod words;

pub use laws::constants_are_stated;
pub use lines::{add_line, line, report};
pub use message::Message;
