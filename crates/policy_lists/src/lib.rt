//! Lists of the lines of a policy that can still decide behind a text, each with states of its
//! pattern, and the steps by bytes from one to another.
#![tactic(auto)]

mod line;
mod lists;
mod nodes;
mod numbered;
mod policy;
mod rows;

pub use line::Line;
pub use numbered::Lists;
pub use policy::lines_of;
pub use rows::Rows;
