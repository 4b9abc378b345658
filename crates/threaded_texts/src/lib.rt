//! One text made of many, by several workers at once: each makes a stretch of them, and the
//! stretches are its pieces, in order, so that the text is the same for every number of workers.
#![tactic(auto)]

mod adding;
#[cfg(test)]
mod tests;
mod texts;

pub use adding::{add_texts, text_for};
pub use texts::Texts;
