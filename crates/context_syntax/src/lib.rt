//! Security contexts, the labels of inodes, and sets of type names.
#![tactic(auto)]

mod context;
mod context_ref;
mod customizable;
mod label;
mod laws;
mod type_names;

pub use context::{Context, ContextFault};
pub use context_ref::ContextRef;
pub use customizable::{CustomFault, NoTypeName, read_customizable, types_follow_grammar};
pub use label::Label;
pub use laws::constants_are_stated;
pub use type_names::TypeNames;
