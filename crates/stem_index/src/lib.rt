//! An index of texts by their first names: which of many patterns can stand for a path at all.
#![tactic(auto)]

mod candidates;
mod laws;
mod stem;
mod stem_index;

pub use candidates::Candidates;
pub use laws::candidates_fit;
pub use stem_index::StemIndex;
