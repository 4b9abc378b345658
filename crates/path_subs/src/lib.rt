//! The substitution of the front of a path, as selabel_file(5) describes it for file_contexts.subs
//! and file_contexts.subs_dist.
#![tactic(auto)]

mod below;
mod line;
mod reading;
mod stage;
mod sub;
mod sub_fault;
mod sub_list;
mod subs;

pub use reading::{read_subs, subs_follow_grammar};
pub use sub::Sub;
pub use sub_fault::{NoSub, SubFault};
pub use sub_list::SubList;
pub use subs::Subs;
