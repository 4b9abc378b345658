//! The files of a policy, each by its role: their names, and what they say, each read whole before
//! the next.
#![tactic(auto)]

mod laws;
mod names;
mod reading;
mod rules;

pub use laws::constants_are_stated;
pub use names::{CUSTOMIZABLE_TYPES, DEFAULT_BASE, add_policy, add_types};
pub use reading::{read_spec_list, read_specifications, read_substitutions, read_types, types_in};
pub use rules::read_rules;
