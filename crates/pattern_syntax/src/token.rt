use crate::byte_set::ByteSet;

/// A token of a pattern.
#[derive(Clone, Copy)]
pub(crate) enum Token {
    /// This byte.
    Byte(u8),
    /// A set of bytes.
    Set(ByteSet),
    Open,
    Close,
    Bar,
    /// An anchor, without effect where it may stand.
    Anchor,
    /// A repeat, from `least` to `most` times, or without an upper number.
    Times { least: u32, most: Option<u32> },
}
