//! The machine of steps that workers take on a tree: which directories are taken, which are
//! offered, and which entry each group of names has so far. It runs on one thread and says what any
//! schedule of the workers may lead to.
#![tactic(auto)]

mod law;
mod machine;
mod runs;
mod shape;
mod steps;
#[cfg(test)]
mod tests;

pub use law::{constants_are_stated, ends_are_one};
pub use machine::{NONE_WORD, WalkState};
pub use runs::run;
pub use shape::Shape;
pub use steps::{Step, StepsFault};
