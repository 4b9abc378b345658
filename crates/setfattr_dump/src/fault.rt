use label_base::{Fault, RefusedLine};

/// Why a line of a dump is refused. On one line the first of `NoSection`, `NoValue` and `BadValue`
/// is told.
#[derive(Clone, Copy, Debug, PartialEq, Eq)]
pub enum DumpWhy {
    /// An attribute stands outside a section.
    NoSection,
    /// What names a file has a bad escape, or is no path.
    BadName,
    /// An attribute has no key, or no `=` behind it.
    NoValue,
    /// The value is neither a text between quotes nor pairs of hexadecimal digits behind `0x`.
    BadValue,
}

/// Why bytes gave no dump: the first line that is refused, or want of memory.
pub type DumpFault = Fault<RefusedLine<DumpWhy>>;
