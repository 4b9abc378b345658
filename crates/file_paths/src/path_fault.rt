use label_base::Fault;

/// What is wrong with bytes that are no path.
#[derive(Clone, Copy, Debug, PartialEq, Eq)]
pub enum PathWhy {
    /// There are no bytes.
    Empty,
    /// There are more than 4,095 bytes.
    PathTooLong,
    /// A byte is NUL.
    HasNul,
    /// The first byte is no slash.
    NotAbsolute,
    /// A component is `.` or `..`.
    DotPart,
}

/// Why bytes gave no path.
pub type PathFault = Fault<PathWhy>;
