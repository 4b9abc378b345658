//! The patterns of file_contexts, as PCRE reads them: their trees, their languages and their
//! reader.
#![tactic(auto)]

mod bracket;
mod builder;
mod byte_set;
mod classes;
mod counts;
mod cutting;
mod escape;
mod exact;
mod item;
mod kept;
mod laws;
mod limits;
mod node;
mod pattern;
mod pattern_fault;
mod placed;
mod quick;
mod refusal;
mod rest;
mod token;

pub use byte_set::ByteSet;
pub use exact::is_exact;
pub use laws::constants_are_stated;
pub use limits::{MOST_GROUPS, MOST_POSITIONS, MOST_TIMES};
pub use node::Node;
pub use pattern::Pattern;
pub use pattern_fault::{PatternFault, PatternWhy};
