ghost use Rattle.std.specs.Prelude.{◌≡◌, ◌∷◌, ◌≤◌, List, [], length};
ghost use Rattle.pattern_syntax.specs.Reading.{positions};
ghost use Rattle.pattern_syntax.specs.Shape.{tree_size};
ghost use Rattle.pattern_syntax.specs.Tree.{Tree};
ghost use Rattle.pattern_match.specs.Operations.{SpellTree, operations_tree};
ghost use Rattle.pattern_match.specs.Passes.{holds_nothing};
ghost use Rattle.pattern_match.specs.Shapes.{shape_tree};
ghost use Rattle.pattern_match.specs.Spelling.{SpellTrees, stack_operations};

use crate::class::Class;
use crate::operation::Operation;
use pattern_syntax::Node;
use std::marker::Model;

/// A part of a pattern, as its operations, seen as its tree.
#[derive(Drop)]
pub struct PatternPart<'a> {
    operations: &'a [Operation],
}

impl<'a> Model for PatternPart<'a> {
    ghost use Rattle.pattern_syntax.specs.Tree.{Tree, tree_code};

    ghost Value = { Tree };

    ghost coded = { tree_code };

    ghost use Rattle.pattern_match.specs.Operations.{SpellTree, operations_tree};

    ghost view = { λ p. operations_tree p.operations.now };

    ghost invariant = { λ p. SpellTree p.operations.now (operations_tree p.operations.now) };
}

/// What a part is made of.
#[derive(Drop)]
pub enum PartKind<'a> {
    /// A place of these bytes.
    Set(Class),
    /// The empty sequence.
    Nothing,
    /// One part and then another.
    Both(PatternPart<'a>, PatternPart<'a>),
    /// The choice between two parts.
    Either(PatternPart<'a>, PatternPart<'a>),
    /// A part, from `least` to `most` times, or without an upper number.
    Repeat {
        least: u32,
        most: Option<u32>,
        piece: PatternPart<'a>,
    },
}

impl<'a> PatternPart<'a> {
    /// The part that all of the operations are.
    pub fn of(operations: &'a [Operation]) -> PatternPart<'a>
        requires { SpellTree operations.now (operations_tree operations.now) }
        ensures { result ≡ operations_tree operations.now }
    {
        PatternPart { operations }
    }

    /// How many places it has, repeats written out.
    pub fn places(&self) -> usize
        ensures { result ≡ positions self.now }
    {
        match self.operations.last() {
            Some(last) => usize::from(last.places),
            None => 0,
        }
    }

    /// Whether it holds the empty text.
    pub fn holds_nothing(&self) -> bool
        ensures { result ≡ holds_nothing self.now }
    {
        match self.operations.last() {
            Some(last) => last.holds_nothing,
            None => true,
        }
    }

    /// What it is made of.
    pub fn shape(&self) -> PartKind<'a>
        ensures { shape_tree result ≡ self.now }
    {
        let operations = self.operations;
        let Some((last, before)) = operations.split_last() else {
            return PartKind::Nothing;
        };
        match last.node {
            Node::Byte(byte) => PartKind::Set(Class::Byte(byte)),
            Node::Set(set) => PartKind::Set(Class::Set(set)),
            Node::Nothing => PartKind::Nothing,
            Node::Both => {
                let (first, second) = halves(before);
                PartKind::Both(first, second)
            }
            Node::Either => {
                let (left, right) = halves(before);
                PartKind::Either(left, right)
            }
            Node::Repeat { least, most } => {
                let piece = PatternPart { operations: before };
                PartKind::Repeat { least, most, piece }
            }
        }
    }
}

// How many nodes the part has that ends the operations.
fn last_nodes(operations: &[Operation]) -> usize
    ensures { (t : Tree) (trees : List Tree) → SpellTrees operations.now (t ∷ trees)
        → result ≡ tree_size t }
{
    match operations.last() {
        Some(last) => last.nodes as usize,
        None => 0,
    }
}

/// How many operations stand before the part that ends them.
pub(crate) fn last_part_start(operations: &[Operation]) -> usize
    ensures start { (t : Tree) (trees : List Tree) → SpellTrees operations.now (t ∷ trees)
        → result ≡ length (stack_operations trees) }
    ensures within { result ≤ length operations.now }
{
    operations.len().saturating_sub(last_nodes(operations))
}

/// The operations before the part that ends them, and those of that part.
pub(crate) fn split_last_part(operations: &[Operation]) -> (&[Operation], &[Operation])
    ensures { (t : Tree) (trees : List Tree) → SpellTrees operations.now (t ∷ trees)
        → SpellTrees result.0.now trees × SpellTree result.1.now t }
{
    operations.split_at(last_part_start(operations))
}

// The two parts that operations are, one behind the other.
fn halves<'a>(operations: &'a [Operation]) -> (PatternPart<'a>, PatternPart<'a>)
    requires { (first : Tree) × ((second : Tree)
        × SpellTrees operations.now (second ∷ first ∷ [])) }
    ensures { (first second : Tree) → SpellTrees operations.now (second ∷ first ∷ [])
        → (result.0 ≡ first) × (result.1 ≡ second) }
{
    let (first, second) = split_last_part(operations);
    (
        PatternPart { operations: first },
        PatternPart { operations: second },
    )
}
