//! Patterns that are read without a builder: plain bytes alone, or before `(/.*)?`.
ghost use Rattle.std.specs.Prelude.{◌≡◌, ◌≤◌, length, take, true, IfOk};
ghost use Rattle.std.specs.List.{list_all};
ghost use Rattle.pattern_syntax.specs.Exact.{is_itself};
ghost use Rattle.pattern_syntax.specs.Shape.{are_text_bytes};
ghost use Rattle.pattern_syntax.specs.Quick.{IsPlain, IsBelow, AreNodesBelow};

use crate::classes::text_bytes;
use crate::limits::MOST_POSITIONS;
use crate::node::Node;
use label_base::OutOfMemory;
use std::alloc::Global;

/// What stands behind a path in a pattern that holds it and all that lies below it.
const BELOW: &[u8] = b"(/.*)?";

// How many positions BELOW has.
const POSITIONS_BELOW: u32 = 2;

/// Whether a text has plain bytes alone, where it begins with so many.
pub(crate) fn is_run_alone(text: &[u8], run: usize) -> bool
    requires within { run ≤ length text.now }
    requires plain { list_all is_itself (take run text.now) ≡ true }
    requires proper { are_text_bytes (take run text.now) ≡ true }
    ensures { result ≡ true → IsPlain text.now }
{
    if run > MOST_POSITIONS as usize {
        return false;
    }
    run == text.len()
}

/// Whether a text is plain bytes and then `(/.*)?`, where it begins with so many plain ones.
pub(crate) fn has_all_below(text: &[u8], run: usize) -> bool
    requires within { run ≤ length text.now }
    requires plain { list_all is_itself (take run text.now) ≡ true }
    requires proper { are_text_bytes (take run text.now) ≡ true }
    ensures { result ≡ true → IsBelow text.now (take run text.now) }
{
    if run > (MOST_POSITIONS - POSITIONS_BELOW) as usize {
        return false;
    }
    &text[run..] == BELOW
}

/// The nodes of `(/.*)?` behind a sequence.
pub(crate) fn nodes_below(alloc: Global) -> Result<Vec<Node>, OutOfMemory>
    ensures { IfOk result (λ nodes. AreNodesBelow nodes.items) }
{
    let below = [
        Node::Nothing,
        Node::Byte(b'/'),
        Node::Both,
        Node::Set(text_bytes()),
        Node::Repeat {
            least: 0,
            most: None,
        },
        Node::Both,
        Node::Repeat {
            least: 0,
            most: Some(1),
        },
        Node::Both,
    ];
    // Room for the empty sequence that is put before them where they are a sequence of their own.
    let mut nodes = Vec::with_capacity(alloc, below.len() + 1)?;
    nodes.extend_from_slice(&below)?;
    Ok(nodes)
}
