//! One word for each group of paths that share an inode. Threads lower the words in single steps,
//! in any order and without a wait, so that in the end each word is the least position that was
//! claimed for its group.
#![tactic(auto)]

mod claims;
mod rule;
#[cfg(test)]
mod tests;
mod winners;

pub use claims::{ClaimPass, Claims};
pub use rule::{Call, ClaimView, ClaimsPlan};
pub use walk_steps::NONE_WORD;
pub use winners::Winners;
