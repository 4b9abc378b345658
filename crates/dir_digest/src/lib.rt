//! The listing of a directory, which tells all that decides the labels at and below it but the tree
//! itself, and its digest, by which a later run knows that nothing of that has changed.
#![tactic(auto)]

mod fields;
mod laws;
mod listings;
mod mode;
mod twenty_bytes;

pub use laws::{
    accepted_files_give_listings, constants_are_stated, equal_listings_decide_alike,
    listings_read_back,
};
pub use listings::{Listings, digest, listing};
pub use mode::Mode;
pub use twenty_bytes::Digest;
