//! The specifications of a file_contexts file, as selabel_file(5) describes its lines.
#![tactic(auto)]

mod laws;
mod line;
mod reading;
mod spec;
mod spec_fault;

pub use laws::constants_are_stated;
pub use line::NO_CONTEXT;
pub use reading::{read_specs, specs_follow_grammar};
pub use spec::{Decision, Spec};
pub use spec_fault::{SpecFault, SpecWhy};
