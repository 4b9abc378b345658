use file_paths::NormPath;
use label_base::Row;

/// Which entries of a tree are meant.
#[derive(Debug, Drop)]
pub struct Choice {
    /// The paths that are named.
    pub operands: Row<NormPath>,
    /// The paths that are left out, with all below them.
    pub excluded: Row<NormPath>,
    /// Whether what lies below an operand is meant too.
    pub recurse: bool,
    /// Whether an entry is meant only where all from its operand down to it lie on the operand's
    /// device.
    pub one_device: bool,
}
