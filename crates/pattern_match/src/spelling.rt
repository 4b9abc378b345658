ghost use Rattle.std.specs.Prelude.{◌≡◌, ◌∷◌, ◌+◌, ◌<◌, ◌≤◌, true, List, [], IfOk, OnOk, IfSome};
ghost use Rattle.std.specs.Prelude.{Some, None, length, nat_lt, if◌then◌else◌};
ghost use Rattle.pattern_syntax.specs.ByteSet.{bytes_with, has_byte};
ghost use Rattle.pattern_syntax.specs.Nodes.{after_nodes, nodes_tree};
ghost use Rattle.pattern_syntax.specs.Tree as tree;
ghost use Rattle.pattern_syntax.specs.Tree.{Tree};
ghost use Rattle.pattern_syntax.specs.declared.node.Node.TheVariants as nodes;
ghost use Rattle.pattern_match.specs.Operations.{AreOperationsOf, seen_node, seen_operation};
ghost use Rattle.pattern_match.specs.Skipping.{AreSkips, trees_before};
ghost use Rattle.pattern_match.specs.Spelling.{EndWithTwo, EndsPart, IsNodeSpelled, Leaves};
ghost use Rattle.pattern_match.specs.Spelling.{SpellTrees, SpellsNode, StandBehind, StandForTrees};
ghost use Rattle.pattern_match.specs.Spelling.{adds_nothing, seen_behind};

use crate::class::Class;
use crate::copying::copies_of;
use crate::operation::{MOST_PLACES, Operation};
use crate::part::{last_part_start, split_last_part};
use crate::skipping::{skip_at, skips_of};
use label_base::OutOfMemory;
use pattern_syntax::{ByteSet, Node};
use std::alloc::Global;

/// How deep the parts of a pattern over operations may be nested, each part of a sequence being one
/// level more: a call of a pass is inside another for each.
///
/// No pattern within the limits has more: each level has a place of its own beside the part below
/// it, but for three in each group, a sequence behind its empty start, an empty side of a choice
/// and a repeat.
pub const MOST_LEVELS: u16 = 2_200;

// The operation of a node that has no parts.
fn leaf(node: Node, places: u16, holds_nothing: bool) -> Operation
    ensures { seen_operation result ≡ (seen_node node, (1, (places, holds_nothing))) }
{
    Operation {
        node,
        nodes: 1,
        places,
        levels: 1,
        holds_nothing,
    }
}

fn spell_set(set: &ByteSet) -> Option<Operation>
    ensures { IfSome result (λ made. EndsPart made (tree.Set (bytes_with (has_byte set.now)))) }
{
    if !Class::Set(*set).is_some() {
        return None;
    }
    Some(leaf(Node::Set(*set), 1, false))
}

// One level more, if there may be.
fn level_above(levels: u16) -> Option<u16>
    ensures { result ≡ (if nat_lt levels MOST_LEVELS then Some (levels + 1) else None) }
{
    if levels >= MOST_LEVELS {
        return None;
    }
    Some(levels + 1)
}

// The operation of a node behind its two parts, which end with these operations.
fn joined(
    first: &Operation,
    second: &Operation,
    node: Node,
    holds_nothing: bool,
) -> Option<Operation>
    ensures seen { IfSome result (λ made. seen_operation made
        ≡ seen_behind node first.now second.now holds_nothing) }
    ensures few { IfSome result (λ made. first.now.places + second.now.places ≤ MOST_PLACES) }
{
    let nodes = first.nodes.checked_add(second.nodes)?.checked_add(1)?;
    let places = first.places.checked_add(second.places)?;
    let levels = level_above(first.levels.max(second.levels))?;
    Some(Operation {
        node,
        nodes,
        places,
        levels,
        holds_nothing,
    })
}

// The last operations of the last two parts.
fn last_two(operations: &[Operation]) -> Option<(&Operation, &Operation)>
    ensures { IfSome result (λ two. (trees : List Tree) → SpellTrees operations.now trees
        → EndWithTwo trees two.0.now two.1.now) }
{
    let second = operations.last()?;
    let (before, _) = split_last_part(operations);
    let first = before.last()?;
    Some((first, second))
}

fn spell_both(operations: &[Operation]) -> Option<Operation>
    ensures { IfSome result (λ made. SpellsNode nodes.Both operations.now made) }
{
    let (first, second) = last_two(operations)?;
    let holds_nothing = first.holds_nothing && second.holds_nothing;
    joined(first, second, Node::Both, holds_nothing)
}

fn spell_either(operations: &[Operation]) -> Option<Operation>
    ensures { IfSome result (λ made. SpellsNode nodes.Either operations.now made) }
{
    let (left, right) = last_two(operations)?;
    let holds_nothing = left.holds_nothing || right.holds_nothing;
    joined(left, right, Node::Either, holds_nothing)
}

// The operation of a repeat behind its piece, which ends with this operation.
fn repeated(piece: &Operation, node: Node, places: u16, holds_nothing: bool) -> Option<Operation>
    ensures { IfSome result (λ made. seen_operation made
        ≡ (seen_node node, (piece.now.nodes + 1, (places, holds_nothing)))) }
{
    let nodes = piece.nodes.checked_add(1)?;
    let levels = level_above(piece.levels)?;
    Some(Operation {
        node,
        nodes,
        places,
        levels,
        holds_nothing,
    })
}

fn spell_repeat(operations: &[Operation], least: u32, most: Option<u32>) -> Option<Operation>
    ensures { IfSome result (λ made. SpellsNode (nodes.Repeat least most) operations.now made) }
{
    let piece = operations.last()?;
    let copies = copies_of(least, most);
    if copies == 0 {
        return None;
    }
    if copies < least {
        return None;
    }
    let places = usize::from(piece.places) * copies as usize;
    if places > MOST_PLACES {
        return None;
    }
    let holds_nothing = least == 0 || piece.holds_nothing;
    repeated(
        piece,
        Node::Repeat { least, most },
        places as u16,
        holds_nothing,
    )
}

// The operation of a node behind those before it, if it can be one.
fn spell(operations: &[Operation], node: &Node) -> Option<Operation>
    ensures { IfSome result (λ made. SpellsNode node.now operations.now made) }
{
    match node {
        Node::Byte(_) => Some(leaf(*node, 1, false)),
        Node::Set(set) => spell_set(set),
        Node::Nothing => Some(leaf(*node, 0, true)),
        Node::Both => spell_both(operations),
        Node::Either => spell_either(operations),
        Node::Repeat { least, most } => spell_repeat(operations, *least, *most),
    }
}

// Whether operations are one part, and it has a place.
fn is_one_part(operations: &[Operation]) -> bool
    ensures { result ≡ true → (trees : List Tree) → StandForTrees operations.now trees
        → AreOperationsOf operations.now (tree.tree_from trees) }
{
    match operations.last() {
        Some(last) => last.nodes as usize == operations.len() && last.places > 0,
        None => false,
    }
}

// Whether the node leaves the first of two parts as it is, since the second has no place.
fn adds_nothing(first: &Operation, second: &Operation, node: &Node) -> bool
    ensures { result ≡ adds_nothing node.now first.now second.now }
{
    match node {
        Node::Both => second.places == 0,
        Node::Either => second.places == 0 && first.holds_nothing,
        _ => false,
    }
}

// How many of the operations are left behind a node that adds nothing to the part before the last.
fn left_behind(operations: &[Operation], node: &Node) -> Option<usize>
    ensures { IfSome result (λ kept. Leaves node.now operations.now kept) }
{
    let (first, second) = last_two(operations)?;
    if !adds_nothing(first, second, node) {
        return None;
    }
    Some(last_part_start(operations))
}

// Spells the node behind the operations, and says whether it could be.
fn put(operations: &mut Vec<Operation>, node: &Node) -> Result<bool, OutOfMemory>
    ensures { IfOk result (λ done. done ≡ true
        → StandBehind node.now operations.old.items operations.new.items) }
{
    if let Some(kept) = left_behind(operations.as_slice(), node) {
        operations.truncate(kept);
        return Ok(true);
    }
    let Some(operation) = spell(operations.as_slice(), node) else {
        return Ok(false);
    };
    operations.push(operation)?;
    Ok(true)
}

// Spells a part that is repeated zero times, which is nothing.
fn put_none(operations: &mut Vec<Operation>) -> Result<(), OutOfMemory>
    ensures { OnOk result ((trees : List Tree) (part : Tree)
        → StandForTrees operations.old.items trees
        → StandForTrees operations.new.items (tree.Repeat 0 (Some 0) part ∷ trees)) }
{
    operations.push(leaf(Node::Nothing, 0, true))?;
    Ok(())
}

// Spells the node at a place, or a part that is repeated zero times, and gives the place behind it;
// none where the node can't be spelled.
fn put_next(
    operations: &mut Vec<Operation>,
    nodes: &[Node],
    skips: &[usize],
    at: usize,
) -> Result<Option<usize>, OutOfMemory>
    requires within { at < length nodes.now }
    requires skips { AreSkips nodes.now skips.now }
    requires stand { StandForTrees operations.old.items (trees_before nodes.now at) }
    ensures { IfOk result (λ found. IfSome found (λ next.
        IsNodeSpelled nodes.now operations.new.items at next)) }
{
    let end = skip_at(skips, at);
    if at < end {
        put_none(operations)?;
        return Ok(Some(end + 1));
    }
    if !put(operations, &nodes[at])? {
        return Ok(None);
    }
    Ok(Some(at + 1))
}

// Spells the nodes one by one, and says whether each could be.
fn spell_all(
    operations: &mut Vec<Operation>,
    nodes: &[Node],
    skips: &[usize],
) -> Result<bool, OutOfMemory>
    requires skips { AreSkips nodes.now skips.now }
    requires stand { StandForTrees operations.old.items [] }
    ensures { IfOk result (λ done. done ≡ true
        → StandForTrees operations.new.items (after_nodes nodes.now [])) }
{
    let mut at = 0;
    'nodes: while at < nodes.len() {
        let Some(next) = put_next(operations, nodes, skips, at)? else {
            return Ok(false);
        };
        at = next;
    }
    Ok(true)
}

/// Operations with the automaton of nodes in postfix order, those of parts without places left out
/// where they add nothing; none where the nodes' tree isn't plain, has no place or too many, or is
/// nested too deep.
pub fn operations_of(alloc: Global, nodes: &[Node]) -> Result<Option<Vec<Operation>>, OutOfMemory>
    ensures { IfOk result (λ found. IfSome found (λ operations.
        AreOperationsOf operations.items (nodes_tree nodes.now))) }
{
    let skips = skips_of(alloc, nodes)?;
    let mut operations = Vec::with_capacity(alloc, nodes.len())?;
    if !spell_all(&mut operations, nodes, skips.as_slice())? {
        return Ok(None);
    }
    if !is_one_part(operations.as_slice()) {
        return Ok(None);
    }
    Ok(Some(operations))
}
