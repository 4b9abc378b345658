//! Why a path has its label: the lines of a policy that speak for it, which of them decides, and why
//! each of the others loses. And the tool that reports it, explain.
#![tactic(auto)]

mod answer;
mod blocks;
mod covering;
mod laws;
mod letters;
mod members;
mod naming;
mod policy;
mod sub_line;
mod texts;
mod tool;
mod words;

pub use answer::{Explaining, add_explanations};
pub use covering::{Route, route_of};
pub use laws::{constants_are_stated, decided_is_last_match, numbered_are_substitutions};
pub use members::{Member, decided_by, members_of, place_for};
pub use policy::{PolicyLines, read_policy_lines};
pub use sub_line::{SubLine, read_sub_lines};
pub use words::{ExplainWords, read_explain};

/// The name of the tool.
pub const EXPLAIN: &str = "explain";
