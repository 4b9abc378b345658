use pattern_syntax::Node;

/// The most places that a pattern over operations has.
pub const MOST_PLACES: usize = 65_535;

/// A node of a pattern in postfix order, and what is known of the part that it ends: how many nodes
/// and places it has, how deep they are nested, and whether it holds the empty text.
#[derive(Clone, Copy)]
pub struct Operation {
    pub(crate) node: Node,
    pub(crate) nodes: u32,
    pub(crate) places: u16,
    pub(crate) levels: u16,
    pub(crate) holds_nothing: bool,
}
