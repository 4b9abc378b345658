use context_syntax::{ContextRef, Label};

/// The label of an entry after a walk.
#[derive(Clone, Copy, Debug)]
pub enum LabelAfter<'a> {
    /// The one that it has.
    Kept(&'a Label),
    /// A context.
    Given(ContextRef<'a>),
}
