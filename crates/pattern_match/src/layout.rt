ghost use Rattle.std.specs.Prelude.{◌≡◌, ◌∷◌, true, ℕ, List, [], IfOk, map};
ghost use Rattle.pattern_syntax.specs.Nodes.{after_nodes};
ghost use Rattle.pattern_syntax.specs.declared.node.Node.TheVariants as nodes;
ghost use Rattle.pattern_syntax.specs.Tree as tree;
ghost use Rattle.pattern_syntax.specs.Tree.{Tree};
ghost use Rattle.pattern_match.specs.Automaton.{Automaton, automaton};
ghost use Rattle.pattern_match.specs.Class.{class_bytes};
ghost use Rattle.pattern_match.specs.Layouts.{IsLaid, Lays};
ghost use Rattle.pattern_match.specs.declared.class.Class as kind;

use crate::class::Class;
use crate::copying::{can_repeat, repeated};
use crate::segment::Segment;
use label_base::OutOfMemory;
use pattern_syntax::Node;

/// How many places there may be, beside that before the first byte, for a row of them to be a word.
pub const MOST_PLACES: usize = 63;

// One place.
fn put_class(
    rows: &mut Vec<u64>,
    classes: &mut Vec<Class>,
    segments: &mut Vec<Segment>,
    class: Class,
) -> Result<bool, OutOfMemory>
    ensures { IfOk result (λ done. done ≡ true → (trees : List Tree)
        → IsLaid rows.old.items classes.old.items segments.old.items (map automaton trees)
        → IsLaid rows.new.items classes.new.items segments.new.items
        (map automaton (tree.Set (class_bytes class) ∷ trees))) }
{
    let start = rows.len();
    if start >= MOST_PLACES {
        return Ok(false);
    }
    if !class.is_some() {
        return Ok(false);
    }
    rows.push(0)?;
    classes.push(class)?;
    segments.push(Segment::single(start))?;
    Ok(true)
}

fn put_nothing(rows: &[u64], segments: &mut Vec<Segment>) -> Result<bool, OutOfMemory>
    ensures { IfOk result (λ done. done ≡ true → (classes : List kind.Class)
        → Lays nodes.Nothing rows.now classes segments.old.items
        rows.now classes segments.new.items) }
{
    segments.push(Segment::bare(rows.len(), true))?;
    Ok(true)
}

fn put_both(rows: &mut Vec<u64>, segments: &mut Vec<Segment>) -> Result<bool, OutOfMemory>
    requires { (classes : List kind.Class) × ((automata : List Automaton)
        × IsLaid rows.old.items classes segments.old.items automata) }
    ensures { IfOk result (λ done. done ≡ true → (classes : List kind.Class)
        → Lays nodes.Both rows.old.items classes segments.old.items
        rows.new.items classes segments.new.items) }
{
    let Some(second) = segments.pop() else {
        return Ok(false);
    };
    let Some(first) = segments.pop() else {
        return Ok(false);
    };
    if !first.is_live {
        return Ok(false);
    }
    if !second.is_live {
        return Ok(false);
    }
    let both = first.both(rows, &second);
    segments.push(both)?;
    Ok(true)
}

fn put_either(segments: &mut Vec<Segment>) -> Result<bool, OutOfMemory>
    ensures { IfOk result (λ done. done ≡ true → (rows : List ℕ) (classes : List kind.Class)
        → Lays nodes.Either rows classes segments.old.items rows classes segments.new.items) }
{
    let Some(right) = segments.pop() else {
        return Ok(false);
    };
    let Some(left) = segments.pop() else {
        return Ok(false);
    };
    let either = left.either(&right);
    segments.push(either)?;
    Ok(true)
}

fn put_repeat(
    rows: &mut Vec<u64>,
    classes: &mut Vec<Class>,
    segments: &mut Vec<Segment>,
    least: u32,
    most: Option<u32>,
) -> Result<bool, OutOfMemory>
    requires { (automata : List Automaton)
        × IsLaid rows.old.items classes.old.items segments.old.items automata }
    ensures { IfOk result (λ done. done ≡ true
        → Lays (nodes.Repeat least most) rows.old.items classes.old.items segments.old.items
        rows.new.items classes.new.items segments.new.items) }
{
    let Some(piece) = segments.pop() else {
        return Ok(false);
    };
    let places = rows.len() - piece.start;
    if !can_repeat(piece.start, places, least, most) {
        return Ok(false);
    }
    let whole = repeated(rows, classes, &piece, places, least, most)?;
    segments.push(whole)?;
    Ok(true)
}

fn put(
    rows: &mut Vec<u64>,
    classes: &mut Vec<Class>,
    segments: &mut Vec<Segment>,
    node: &Node,
) -> Result<bool, OutOfMemory>
    requires { (automata : List Automaton)
        × IsLaid rows.old.items classes.old.items segments.old.items automata }
    ensures { IfOk result (λ done. done ≡ true
        → Lays node.now rows.old.items classes.old.items segments.old.items
        rows.new.items classes.new.items segments.new.items) }
{
    match node {
        Node::Byte(b) => put_class(rows, classes, segments, Class::Byte(*b)),
        Node::Set(set) => put_class(rows, classes, segments, Class::Set(*set)),
        Node::Nothing => put_nothing(rows.as_slice(), segments),
        Node::Both => put_both(rows, segments),
        Node::Either => put_either(segments),
        Node::Repeat { least, most } => put_repeat(rows, classes, segments, *least, *most),
    }
}

/// Lays the places of nodes in postfix order, and says whether it could: there may be too many
/// places, or a part that isn't laid here, as one that is repeated zero times.
pub fn lay(
    rows: &mut Vec<u64>,
    classes: &mut Vec<Class>,
    segments: &mut Vec<Segment>,
    nodes: &[Node],
) -> Result<bool, OutOfMemory>
    requires { IsLaid rows.old.items classes.old.items segments.old.items [] }
    ensures { IfOk result (λ done. done ≡ true
        → IsLaid rows.new.items classes.new.items segments.new.items
        (map automaton (after_nodes nodes.now []))) }
{
    'nodes: for at in 0..nodes.len() {
        if !put(rows, classes, segments, &nodes[at])? {
            return Ok(false);
        }
    }
    Ok(true)
}
