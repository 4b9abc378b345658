//! The dump of extended attributes, as getfattr(1) writes it and setfattr(1) takes it with
//! `--restore`.
#![tactic(auto)]

mod dump;
mod fault;
mod laws;
mod line;
mod marks;
mod quoting;
mod reading;
mod value;
mod writing;

pub use dump::{Attr, Dump, Section, dumps_follow_grammar, read_dumps_can_be_written};
pub use fault::{DumpFault, DumpWhy};
pub use laws::constants_are_stated;
pub use marks::{DIGEST_KEY, FILE_MARK, LABEL_KEY};
pub use writing::{add_attr, add_name, end_section};
