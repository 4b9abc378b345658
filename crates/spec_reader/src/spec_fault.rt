use label_base::{Fault, LinesWhy};
use pattern_syntax::PatternWhy;

/// What is wrong with a line that is no specification. Where several things are, the first of these
/// is told.
#[derive(Clone, Copy, Debug, PartialEq, Eq)]
pub enum SpecWhy {
    /// The line has one field.
    MissingContext,
    /// The second of three or more fields is no type.
    BadKind,
    /// The context field is neither `<<none>>` nor a context.
    BadContext,
    /// The first field is no pattern.
    BadPattern(PatternWhy),
}

/// Why a file gave no specifications: its first refused line, more specifications than there is
/// room for, or want of memory.
pub type SpecFault = Fault<LinesWhy<SpecWhy>>;
