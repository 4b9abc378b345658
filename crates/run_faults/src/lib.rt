//! Why and how a run ends: the causes, and of each the exit status and the fault line.
#![tactic(auto)]

mod cause;
mod fault;
mod finding;
mod laws;

pub use cause::{Cause, LimitKind, Outcome};
pub use fault::{fault_line, status};
pub use finding::{Finding, Piece};
pub use laws::constants_are_stated;
