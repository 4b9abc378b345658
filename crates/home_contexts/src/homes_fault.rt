use label_base::{Fault, RefusedLine};
use spec_reader::SpecWhy;

/// Why a template gives no text.
#[derive(Clone, Copy, Debug, PartialEq, Eq)]
pub enum HomesWhy {
    /// A line that is given isn't one of file_contexts. Told are the first line of the template
    /// that gives such a line, and what is wrong with the first that it gives.
    Refused(RefusedLine<SpecWhy>),
    /// More lines are given than a file may have specifications.
    TooManySpecs,
    /// The text is too long, or a given line alone.
    TooLong,
}

/// Why a template gave no text, or want of memory.
pub type HomesFault = Fault<HomesWhy>;
