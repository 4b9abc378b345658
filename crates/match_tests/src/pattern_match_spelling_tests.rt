ghost use Rattle.pattern_syntax.specs.declared.node.Node.TheVariants as nodes;
ghost use Rattle.std.specs.Prelude.{◌<◌, Some, None};

use pattern_match::{MOST_LEVELS, operations_of};
use pattern_syntax::Node;
use std::alloc::Global;

// How many operations the nodes have, if they have any.
fn count(alloc: Global, nodes: &[Node]) -> Option<usize> {
    match operations_of(alloc, nodes) {
        Ok(Some(operations)) => Some(operations.len()),
        _ => None,
    }
}

#[test]
fn one_for_each_node(rt: HostRuntime) {
    let nodes = [
        Node::Byte(b'a'),
        Node::Nothing,
        Node::Either,
        Node::Repeat {
            least: 2,
            most: Some(3),
        },
    ];
    assert_eq!(rt; count(rt.alloc(), &nodes), Some(4));
}

#[test]
fn no_more_for_a_part_of_no_times(rt: HostRuntime) {
    let nodes = [
        Node::Byte(b'a'),
        Node::Byte(b'b'),
        Node::Repeat {
            least: 0,
            most: Some(0),
        },
        Node::Both,
    ];
    assert_eq!(rt; count(rt.alloc(), &nodes), Some(1));
}

#[test]
fn no_more_for_a_second_empty_side(rt: HostRuntime) {
    let nodes = [
        Node::Byte(b'a'),
        Node::Nothing,
        Node::Either,
        Node::Nothing,
        Node::Either,
    ];
    assert_eq!(rt; count(rt.alloc(), &nodes), Some(3));
}

// The same of a byte and so many empty groups.
fn count_before(alloc: Global, groups: usize) -> Option<usize> {
    let mut nodes = Vec::new(alloc);
    nodes.push(Node::Byte(b'a')).ok()?;
    for _ in 0..groups {
        nodes.push(Node::Nothing).ok()?;
        nodes.push(Node::Both).ok()?;
    }
    count(alloc, nodes.as_slice())
}

#[test]
fn no_more_for_empty_groups(rt: HostRuntime) {
    assert_eq!(rt; count_before(rt.alloc(), 3_000), Some(1));
}

// The same of a byte under so many repeats, one around the other.
fn count_under(alloc: Global, repeats: usize) -> Option<usize> {
    let mut nodes = Vec::new(alloc);
    nodes.push(Node::Byte(b'a')).ok()?;
    let repeat = Node::Repeat {
        least: 1,
        most: None,
    };
    for _ in 0..repeats {
        nodes.push(repeat).ok()?;
    }
    count(alloc, nodes.as_slice())
}

#[test]
fn no_more_levels_than_there_may_be(rt: HostRuntime) {
    let most = usize::from(MOST_LEVELS);
    assert_eq!(rt; count_under(rt.alloc(), most - 1), Some(most));
    assert_eq!(rt; count_under(rt.alloc(), most), None);
}
