ghost use Rattle.std.specs.Prelude.{◌≡◌, ◌∷◌, ◌<◌, List, Some, IfOk, OnOk, length};
ghost use Rattle.pattern_syntax.specs.Nodes.{nodes_tree};
ghost use Rattle.pattern_syntax.specs.declared.node.Node.TheVariants as nodes;
ghost use Rattle.pattern_match.specs.Automaton.{automaton};
ghost use Rattle.pattern_syntax.specs.Tree as tree;
ghost use Rattle.pattern_syntax.specs.Tree.{Tree};
ghost use Rattle.pattern_match.specs.Building.{Builds, HoldsTrees, IsNodePut};
ghost use Rattle.pattern_match.specs.Skipping.{AreSkips, trees_before};

use crate::class::Class;
use crate::fragment::Fragment;
use crate::skipping::{skip_at, skips_of};
use label_base::OutOfMemory;
use pattern_syntax::{ByteSet, Node};
use std::alloc::Global;

fn put_byte(alloc: Global, stack: &mut Vec<Fragment>, b: u8) -> Result<(), OutOfMemory>
    ensures { OnOk result (Builds (nodes.Byte b) stack.old.items stack.new.items) }
{
    stack.push(Fragment::single(alloc, Class::Byte(b))?)?;
    Ok(())
}

fn put_set(alloc: Global, stack: &mut Vec<Fragment>, set: &ByteSet) -> Result<(), OutOfMemory>
    ensures { OnOk result (Builds (nodes.Set set.now) stack.old.items stack.new.items) }
{
    stack.push(Fragment::single(alloc, Class::Set(*set))?)?;
    Ok(())
}

fn put_nothing(alloc: Global, stack: &mut Vec<Fragment>) -> Result<(), OutOfMemory>
    ensures { OnOk result (Builds nodes.Nothing stack.old.items stack.new.items) }
{
    stack.push(Fragment::bare(alloc, true))?;
    Ok(())
}

fn put_both(alloc: Global, stack: &mut Vec<Fragment>) -> Result<(), OutOfMemory>
    ensures { OnOk result (Builds nodes.Both stack.old.items stack.new.items) }
{
    let Some(second) = stack.pop() else {
        return Ok(());
    };
    let Some(first) = stack.pop() else {
        stack.push(second)?;
        return Ok(());
    };
    stack.push(first.both(alloc, second)?)?;
    Ok(())
}

fn put_either(alloc: Global, stack: &mut Vec<Fragment>) -> Result<(), OutOfMemory>
    ensures { OnOk result (Builds nodes.Either stack.old.items stack.new.items) }
{
    let Some(right) = stack.pop() else {
        return Ok(());
    };
    let Some(left) = stack.pop() else {
        stack.push(right)?;
        return Ok(());
    };
    stack.push(left.either(alloc, right)?)?;
    Ok(())
}

fn put_repeat(
    alloc: Global,
    stack: &mut Vec<Fragment>,
    least: u32,
    most: Option<u32>,
) -> Result<(), OutOfMemory>
    ensures { OnOk result (Builds (nodes.Repeat least most) stack.old.items stack.new.items) }
{
    let Some(piece) = stack.pop() else {
        return Ok(());
    };
    stack.push(piece.repeated(alloc, least, most)?)?;
    Ok(())
}

fn put(alloc: Global, stack: &mut Vec<Fragment>, node: &Node) -> Result<(), OutOfMemory>
    ensures { OnOk result (Builds node.now stack.old.items stack.new.items) }
{
    match node {
        Node::Byte(b) => put_byte(alloc, stack, *b),
        Node::Set(set) => put_set(alloc, stack, set),
        Node::Nothing => put_nothing(alloc, stack),
        Node::Both => put_both(alloc, stack),
        Node::Either => put_either(alloc, stack),
        Node::Repeat { least, most } => put_repeat(alloc, stack, *least, *most),
    }
}

// A part that is repeated zero times.
fn put_none(alloc: Global, stack: &mut Vec<Fragment>) -> Result<(), OutOfMemory>
    ensures { OnOk result ((trees : List Tree) (part : Tree) → HoldsTrees stack.old.items trees
        → HoldsTrees stack.new.items (tree.Repeat 0 (Some 0) part ∷ trees)) }
{
    stack.push(Fragment::bare(alloc, true))?;
    Ok(())
}

// Puts the node at a place, or in place of a part that is repeated zero times nothing, and gives
// the place behind it.
fn put_next(
    alloc: Global,
    stack: &mut Vec<Fragment>,
    nodes: &[Node],
    skips: &[usize],
    at: usize,
) -> Result<usize, OutOfMemory>
    requires within { at < length nodes.now }
    requires skips { AreSkips nodes.now skips.now }
    requires holds { HoldsTrees stack.old.items (trees_before nodes.now at) }
    ensures { IfOk result (λ next. IsNodePut nodes.now stack.new.items at next) }
{
    let end = skip_at(skips, at);
    if at < end {
        put_none(alloc, stack)?;
        return Ok(end + 1);
    }
    put(alloc, stack, &nodes[at])?;
    Ok(at + 1)
}

/// The automaton of a pattern, given as its nodes in postfix order.
pub fn compiled(alloc: Global, nodes: &[Node]) -> Result<Fragment, OutOfMemory>
    ensures { IfOk result (λ fragment. fragment ≡ automaton (nodes_tree nodes.now)) }
{
    let skips = skips_of(alloc, nodes)?;
    let mut stack = Vec::new(alloc);
    let mut at = 0;
    'nodes: while at < nodes.len() {
        at = put_next(alloc, &mut stack, nodes, skips.as_slice(), at)?;
    }
    match stack.pop() {
        Some(fragment) => Ok(fragment),
        None => Ok(Fragment::bare(alloc, true)),
    }
}
