use pattern_match::{PatternPart, operations_of};
use pattern_syntax::Node;
use std::alloc::Global;

// How many places the part has that the nodes are.
fn places(alloc: Global, nodes: &[Node]) -> Option<usize> {
    match operations_of(alloc, nodes) {
        Ok(Some(operations)) => Some(PatternPart::of(operations.as_slice()).places()),
        _ => None,
    }
}

#[test]
fn places_of_copies(rt: HostRuntime) {
    let nodes = [
        Node::Byte(b'a'),
        Node::Byte(b'b'),
        Node::Both,
        Node::Repeat {
            least: 0,
            most: Some(3),
        },
    ];
    assert_eq!(rt; places(rt.alloc(), &nodes), Some(6));
}
