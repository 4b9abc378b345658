use crate::stage::Stage;

/// Where texts lead to: a stage of a path and a list of each of two policies; and how it was
/// reached first.
#[derive(Clone, Copy)]
pub struct Place {
    pub stage: Stage,
    pub first: usize,
    pub second: usize,
    /// From which place, by which byte. The first place has none, and these are 0.
    pub parent: usize,
    pub byte: u8,
    /// Behind how many bytes.
    pub depth: usize,
}
