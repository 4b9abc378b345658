use crate::byte_set::ByteSet;

/// What an escape or an item of a bracket set stands for.
#[derive(Clone, Copy)]
pub(crate) enum Item {
    /// This byte.
    One(u8),
    /// These bytes.
    Class(ByteSet),
}
