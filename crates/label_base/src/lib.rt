//! What all crates of `relabel` stand on: values that contracts see as lists, numbers, escapes, and
//! the cutting of lines and fields.
#![tactic(auto)]

mod bytes;
mod cut;
mod escape;
mod fault;
mod greatest;
mod kind;
mod laws;
mod lines;
mod memory;
mod name;
mod number;
mod pieced_text;
mod row;
mod steps;

pub use bytes::Bytes;
pub use cut::{
    BLANK, LINE_FEED, TAB, cut_at, cut_at_blank, cuts_follow_grammar, next_field, next_line,
};
pub use escape::{EscapeFault, octal_byte, read_escaped, write_escaped};
pub use fault::Fault;
pub use greatest::greater;
pub use kind::{Asked, EntryKind};
pub use laws::constants_are_stated;
pub use lines::{COMMENT_MARK, LineReader, LinesWhy, RefusedLine, read_lines, read_lines_within};
pub use memory::OutOfMemory;
pub use name::Name;
pub use number::read_number;
pub use pieced_text::PiecedText;
pub use row::Row;
pub use steps::Steps;
