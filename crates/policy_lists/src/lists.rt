ghost use Rattle.std.specs.Prelude.{◌≡◌, ◌<◌, ℕ, List, [], length, IfOk, OnOk};
ghost use Rattle.policy_lists.specs.Lines.{decided, line_fits};
ghost use Rattle.policy_lists.specs.Lists.{AreWithin, IsListOf, IsOneStepped, ListLeadsTo};
ghost use Rattle.policy_lists.specs.Nodes.{AreNodes, StandsAt, line_of};
ghost use Rattle.policy_lists.specs.Rows.{AreMore, AreRowNumbers, row_at, rows_at};

use crate::line::Line;
use crate::nodes::Nodes;
use label_base::{Asked, OutOfMemory};
use std::alloc::Global;

/// Writes the list of a policy before the first byte of a text: the nodes of its lines, which are
/// given in the order in which they decide.
pub fn start_list(
    alloc: Global,
    lines: &[Line],
    nodes: &mut Nodes,
    order: &[u32],
    list: &mut Vec<u64>,
) -> Result<(), OutOfMemory>
    requires nodes { AreNodes lines.now nodes.old }
    requires order { AreWithin (length lines.now) order.now }
    ensures nodes { OnOk result (AreNodes lines.now nodes.new) }
    ensures more { OnOk result (AreMore nodes.old.rows nodes.new.rows) }
    ensures within { OnOk result (AreRowNumbers nodes.new.rows list.new.items) }
    ensures list { OnOk result (IsListOf lines.now order.now []
        (rows_at nodes.new.rows list.new.items)) }
{
    list.clear();
    'order: for line in order {
        let node = nodes.begin(alloc, lines, *line as usize)?;
        list.push(node as u64)?;
    }
    Ok(())
}

// Writes the node to which a byte leads, if it leads to one. Answers whether its line fits whatever
// follows.
fn step_one(
    alloc: Global,
    lines: &[Line],
    nodes: &mut Nodes,
    from: usize,
    byte: u8,
    list: &mut Vec<u64>,
) -> Result<bool, OutOfMemory>
    requires nodes { AreNodes lines.now nodes.old }
    requires from { from < length nodes.old.rows }
    ensures nodes { OnOk result (AreNodes lines.now nodes.new) }
    ensures more { OnOk result (AreMore nodes.old.rows nodes.new.rows) }
    ensures stepped { IfOk result (λ ends. IsOneStepped lines.now byte (row_at nodes.old.rows from)
        nodes.new.rows list.old.items list.new.items ends) }
{
    let Some(node) = nodes.step(alloc, lines, from, byte)? else {
        return Ok(false);
    };
    list.push(node as u64)?;
    Ok(nodes.covers[node])
}

/// Writes the list to which a byte other than 0 leads from a list.
pub fn step_list(
    alloc: Global,
    lines: &[Line],
    nodes: &mut Nodes,
    from: &[u64],
    byte: u8,
    list: &mut Vec<u64>,
) -> Result<(), OutOfMemory>
    requires nodes { AreNodes lines.now nodes.old }
    requires from { AreRowNumbers nodes.old.rows from.now }
    requires some { 0 < byte }
    ensures nodes { OnOk result (AreNodes lines.now nodes.new) }
    ensures more { OnOk result (AreMore nodes.old.rows nodes.new.rows) }
    ensures within { OnOk result (AreRowNumbers nodes.new.rows list.new.items) }
    ensures leads { OnOk result (ListLeadsTo lines.now byte (rows_at nodes.old.rows from.now)
        (rows_at nodes.new.rows list.new.items)) }
{
    list.clear();
    'nodes: for node in from {
        let ends = step_one(alloc, lines, nodes, *node as usize, byte, list)?;
        if ends {
            return Ok(());
        }
    }
    Ok(())
}

// Whether the line of a node applies, and its language holds the text for which the node stands.
fn does_fit(lines: &[Line], nodes: &Nodes, node: usize, asked: Asked) -> bool
    requires nodes { AreNodes lines.now nodes.now }
    requires node { node < length nodes.now.rows }
    ensures { (text : List ℕ) → StandsAt lines.now text (row_at nodes.now.rows node)
        → result ≡ line_fits lines.now asked text (line_of (row_at nodes.now.rows node)) }
{
    let accepts = nodes.accepts[node];
    if !accepts {
        return false;
    }
    let number = nodes.line(node);
    let line = &lines[number];
    line.applies(asked)
}

/// The line that decides: that of the first node of a list that fits.
pub fn first_fit(lines: &[Line], nodes: &Nodes, list: &[u64], asked: Asked) -> Option<usize>
    requires nodes { AreNodes lines.now nodes.now }
    requires list { AreRowNumbers nodes.now.rows list.now }
    ensures { (order text : List ℕ) → IsListOf lines.now order text
        (rows_at nodes.now.rows list.now)
        → result ≡ decided lines.now order asked text }
{
    'nodes: for node in list {
        if does_fit(lines, nodes, *node as usize, asked) {
            return Some(nodes.line(*node as usize));
        }
    }
    None
}
