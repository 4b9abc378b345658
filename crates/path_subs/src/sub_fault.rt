use label_base::{Fault, RefusedLine};

/// A line is no substitution.
#[derive(Clone, Copy, Debug, PartialEq, Eq)]
pub struct NoSub;

/// Why a file gave no substitutions: its first line that is none, or want of memory.
pub type SubFault = Fault<RefusedLine<NoSub>>;
