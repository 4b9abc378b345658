ghost use Rattle.std.specs.Prelude.{◌≡◌, ◌++◌, ◌∷◌, ◌+◌, ◌<◌, [], true, IfOk, OnOk, length};
ghost use Rattle.std.specs.Prelude.{slice_index};
ghost use Rattle.std.specs.List.{slice_index_or};
ghost use Rattle.pattern_syntax.specs.declared.node.Node.TheVariants as node;
ghost use Rattle.pattern_match.specs.Skipping.{is_zero_repeat, AreSkips, IsSkipNoted};

use label_base::OutOfMemory;
use pattern_syntax::Node;
use std::alloc::Global;

// Whether the node repeats its piece zero times.
fn is_zero_repeat(node: &Node) -> bool
    ensures { result ≡ is_zero_repeat node.now }
{
    match node {
        Node::Repeat {
            least,
            most: Some(most),
        } => *least == 0 && *most == 0,
        _ => false,
    }
}

// Whether some node does.
fn has_zero_repeat(nodes: &[Node]) -> bool {
    for node in nodes {
        if is_zero_repeat(node) {
            return true;
        }
    }
    false
}

// A tree of one node begins at a place.
fn note_leaf(starts: &mut Vec<usize>, at: usize) -> Result<(), OutOfMemory>
    ensures { OnOk result (starts.new.items ≡ starts.old.items ++ at ∷ []) }
{
    starts.push(at)?;
    Ok(())
}

// The last tree ends at a repeat of zero times.
fn note_repeat(starts: &[usize], skips: &mut Vec<usize>, nodes: &[Node], at: usize)
    requires within { at < length nodes.now }
    requires noted { IsSkipNoted nodes.now starts.now skips.old.items at }
    requires zero { is_zero_repeat (slice_index_or nodes.now at node.Nothing) ≡ true }
    ensures { IsSkipNoted nodes.now starts.now skips.new.items (at + 1) }
{
    if let Some(start) = starts.last() {
        skips[*start] = at;
    }
}

// What is known behind the node at a place.
fn note(
    starts: &mut Vec<usize>,
    skips: &mut Vec<usize>,
    nodes: &[Node],
    at: usize,
) -> Result<(), OutOfMemory>
    requires within { at < length nodes.now }
    requires noted { IsSkipNoted nodes.now starts.old.items skips.old.items at }
    ensures { OnOk result (IsSkipNoted nodes.now starts.new.items skips.new.items (at + 1)) }
{
    match &nodes[at] {
        Node::Byte(_) => {
            note_leaf(starts, at)?;
            Ok(())
        }
        Node::Set(_) => {
            note_leaf(starts, at)?;
            Ok(())
        }
        Node::Nothing => {
            note_leaf(starts, at)?;
            Ok(())
        }
        Node::Both => {
            let _ = starts.pop();
            Ok(())
        }
        Node::Either => {
            let _ = starts.pop();
            Ok(())
        }
        Node::Repeat { .. } => {
            if is_zero_repeat(&nodes[at]) {
                note_repeat(starts.as_slice(), skips, nodes, at);
            }
            Ok(())
        }
    }
}

/// For each node the index of the repeat of zero times whose piece begins there, of several the
/// last one. Such a piece is nothing, however long it is. Where there is no such repeat the list is
/// empty.
pub fn skips_of(alloc: Global, nodes: &[Node]) -> Result<Vec<usize>, OutOfMemory>
    ensures { IfOk result (λ skips. AreSkips nodes.now skips.items) }
{
    if !has_zero_repeat(nodes) {
        return Ok(Vec::new(alloc));
    }
    let mut skips = vec![in alloc; 0usize; nodes.len()]?;
    let mut starts = Vec::new(alloc);
    'nodes: for at in 0..nodes.len() {
        note(&mut starts, &mut skips, nodes, at)?;
    }
    Ok(skips)
}

/// The entry of a node.
pub fn skip_at(skips: &[usize], at: usize) -> usize
    ensures { result ≡ slice_index skips.now at }
{
    match skips.get(at) {
        Some(end) => *end,
        None => 0,
    }
}
