//! The rules that decide labels, and what is done by them for one path: which specification decides
//! it, what becomes of the label that is there, and the lines that tell it.
#![tactic(auto)]

mod given;
mod label_after;
mod lines;
mod listed;
mod looking_up;
mod rules;
mod verdict;

pub use given::{does_give, given_at, given_by, spec_at};
pub use label_after::LabelAfter;
pub use lines::{conflict_line, given_in, label_by, verdict_line};
pub use listed::ListedRules;
pub use looking_up::{look_up, look_up_path};
pub use rules::Rules;
pub use verdict::{Verdict, decide};
