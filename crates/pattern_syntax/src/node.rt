use crate::byte_set::ByteSet;

/// A node of a pattern's tree. A list of nodes in postfix order is a tree: a node stands behind its
/// parts.
#[derive(Clone, Copy, Debug, PartialEq, Eq)]
pub enum Node {
    /// The set of this byte alone; it isn't 0.
    Byte(u8),
    /// A set of bytes.
    Set(ByteSet),
    /// The empty sequence.
    Nothing,
    /// The sequence of the two parts before it, the first of which is a sequence.
    Both,
    /// The choice between the two parts before it.
    Either,
    /// The part before it, from `least` to `most` times, or without an upper number.
    Repeat { least: u32, most: Option<u32> },
}
