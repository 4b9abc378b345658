use label_base::{Fault, RefusedLine};

/// A line is no user.
#[derive(Clone, Copy, Debug, PartialEq, Eq)]
pub struct NoUser;

/// Why a file gave no users: its first line that is none, or want of memory.
pub type UsersFault = Fault<RefusedLine<NoUser>>;
