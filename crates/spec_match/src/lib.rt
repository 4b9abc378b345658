//! The last specification that applies to a path, in a list of specifications.
#![tactic(auto)]

mod answering;
mod carried;
mod carrying;
mod compiled_spec;
mod direct;
mod fronts;
mod lists;
mod members;
mod membership;
mod relevant;
mod rule_set;
mod scratch;
mod starts;
mod stepping;
mod table;
mod trail;
mod trials;
mod workspace;

pub use carried::Carried;
pub use direct::find_last;
pub use rule_set::RuleSet;
pub use scratch::Scratch;
