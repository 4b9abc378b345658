//! A search over all texts of paths: which lists of two policies they lead to, breadth first, each
//! with a shortest text.
#![tactic(auto)]

mod place;
mod search;
mod stage;

pub use place::Place;
pub use search::{Aims, Search, Wanted};
pub use stage::Stage;
