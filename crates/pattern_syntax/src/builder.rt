//! The nodes of a pattern, built as its tokens are read.
ghost use Rattle.std.specs.Prelude.{◌≡◌, ◌==◌, ◌+◌, ◌*◌, ◌∷◌, ◌++◌, [], length, ◌<◌, ◌^◌, min};
ghost use Rattle.std.specs.Prelude.{IfOk, OnOk, Some, None, ℕ, List, true, false, is_some};
ghost use Rattle.std.specs.Prelude.{◌↔◌, IsTrue};
ghost use Rattle.pattern_syntax.specs.Tokens as tokens;
ghost use Rattle.pattern_syntax.specs.Nodes.{after_node, after_nodes};
ghost use Rattle.pattern_syntax.specs.Literal.{node_code, code_byte};
ghost use Rattle.pattern_syntax.specs.Parts.{start_nodes, start_trees, lead_of, lone_byte};
ghost use Rattle.pattern_syntax.specs.declared.node.Node.TheVariants as node_of;
ghost use Rattle.pattern_syntax.specs.Reading.{Reading, new_level, new_reading, sequence_of};
ghost use Rattle.pattern_syntax.specs.Reading.{sides_of, after_token};
ghost use Rattle.pattern_syntax.specs.Reading as reading;
ghost use Rattle.pattern_syntax.specs.Building.{capped, level_counts, tree_on, outer_trees};
ghost use Rattle.pattern_syntax.specs.Building.{IsBuilderOf, Ends, Steps, Finishes, IsProperToken};
ghost use Rattle.pattern_syntax.specs.Building.{IsSetNode, base_positions, after_bytes};
ghost use Rattle.pattern_syntax.specs.Shape.{is_proper_set, are_text_bytes};
ghost use Rattle.pattern_syntax.specs.Views.{token_of};
ghost use Rattle.pattern_syntax.specs.declared.limits.TheConstants.{MOST_POSITIONS};

use crate::limits::{MOST_GROUPS, MOST_POSITIONS};
use crate::node::Node;
use crate::pattern_fault::PatternFault;
use crate::token::Token;
use label_base::{Bytes, OutOfMemory};
use std::alloc::Global;

/// What most patterns need behind their start; a row that needs more grows.
const NODES_ROOM: usize = 24;

/// What is read of a choice, by its positions, counted up to one more than a pattern may have: its
/// sides before the last bar, the sequence since, and the piece that a repeat may follow.
#[derive(Clone, Copy)]
pub(crate) struct Level {
    sides: Option<u32>,
    sequence: u32,
    piece: Option<u32>,
}

impl Level {
    fn new() -> Level
        ensures { result ≡ level_counts new_level }
    {
        Level {
            sides: None,
            sequence: 0,
            piece: None,
        }
    }
}

/// The nodes so far, in postfix order, behind an empty sequence, but for those that join a level's
/// parts; the innermost choice, and those around it. Bytes that come first, joined one after
/// another, are kept as bytes, and have no nodes.
#[derive(Drop)]
pub(crate) struct Builder {
    start: Bytes,
    nodes: Vec<Node>,
    level: Level,
    outer: Vec<Level>,
}

fn sum(a: u32, b: u32) -> u32
    ensures { result ≡ capped (a + b) }
{
    a.saturating_add(b).min(MOST_POSITIONS + 1)
}

fn product(a: u32, b: u32) -> u32
    ensures { result ≡ capped (a * b) }
{
    a.saturating_mul(b).min(MOST_POSITIONS + 1)
}

fn factor(least: u32, most: Option<u32>) -> u32
    ensures { result ≡ reading.factor least most }
{
    match most {
        Some(most) => most,
        None => least.max(1),
    }
}

/// The byte of a node of a single byte.
fn byte_of(node: &Node) -> Option<u8>
    ensures { result ≡ code_byte (node_code node.now) }
{
    match node {
        Node::Byte(b) => Some(*b),
        Node::Set(set) => set.only(),
        _ => None,
    }
}

/// The byte of the only node, if that is of a single byte.
fn lone_byte(nodes: &[Node]) -> Option<u8>
    ensures { result ≡ lone_byte nodes.now }
{
    match nodes {
        [node] => byte_of(node),
        _ => None,
    }
}

/// Adds the nodes of bytes that are joined to a sequence, one after another.
pub(crate) fn push_bytes(nodes: &mut Vec<Node>, bytes: &[u8]) -> Result<(), OutOfMemory>
    ensures { OnOk result (nodes.new.items ≡ nodes.old.items ++ start_nodes bytes.now) }
{
    'bytes: for b in bytes {
        nodes.push(Node::Byte(*b))?;
        nodes.push(Node::Both)?;
    }
    Ok(())
}

impl Builder {
    /// Nothing read yet.
    pub(crate) fn new(alloc: Global) -> Result<Builder, OutOfMemory>
        ensures { IfOk result (λ builder. IsBuilderOf builder new_reading) }
    {
        Ok(Builder {
            start: Bytes::new(alloc),
            nodes: Vec::with_capacity(alloc, NODES_ROOM)?,
            level: Level::new(),
            outer: Vec::new(alloc),
        })
    }

    /// Adds a node that joins nothing.
    #[tactic(auto, using(crate::proofs::StartLemmas::trees_put))]
    fn put(&mut self, node: Node) -> Result<(), OutOfMemory>
        ensures size { OnOk result (length self.new.nodes.items ≡ length self.old.nodes.items + 1) }
        ensures start { self.new.start ≡ self.old.start }
        ensures trees { OnOk result (start_trees self.new.start self.new.nodes.items
            ≡ after_node node (start_trees self.old.start self.old.nodes.items)) }
        ensures led { OnOk result (((node_code node).0 == 2) ≡ false
            → lead_of self.old.nodes.items ≡ None → lead_of self.new.nodes.items ≡ None) }
        ensures level { self.new.level ≡ self.old.level }
        ensures outer { self.new.outer ≡ self.old.outer }
    {
        self.nodes.push(node)?;
        Ok(())
    }

    /// Joins the last piece to the sequence before it. A byte right behind the start becomes its
    /// last one.
    fn join(&mut self) -> Result<(), OutOfMemory>
        ensures size { OnOk result (2 * length self.new.start + length self.new.nodes.items
            ≡ 2 * length self.old.start + length self.old.nodes.items + 1) }
        ensures trees { OnOk result (start_trees self.new.start self.new.nodes.items
            ≡ after_node node_of.Both (start_trees self.old.start self.old.nodes.items)) }
        ensures led { OnOk result
            (lead_of self.old.nodes.items ≡ None → lead_of self.new.nodes.items ≡ None) }
        ensures level { self.new.level ≡ self.old.level }
        ensures outer { self.new.outer ≡ self.old.outer }
    {
        match lone_byte(self.nodes.as_slice()) {
            None => self.nodes.push(Node::Both)?,
            Some(b) => {
                self.start.push_byte(b)?;
                self.nodes.clear();
            }
        }
        Ok(())
    }

    /// Joins bytes to the sequence, one after another.
    fn join_bytes(&mut self, bytes: &[u8]) -> Result<(), OutOfMemory>
        ensures size { OnOk result (2 * length self.new.start + length self.new.nodes.items
            ≡ 2 * length self.old.start + length self.old.nodes.items + 2 * length bytes.now) }
        ensures trees { OnOk result (start_trees self.new.start self.new.nodes.items
            ≡ after_nodes (start_nodes bytes.now)
            (start_trees self.old.start self.old.nodes.items)) }
        ensures led { OnOk result
            (lead_of self.old.nodes.items ≡ None → lead_of self.new.nodes.items ≡ None) }
        ensures level { self.new.level ≡ self.old.level }
        ensures outer { self.new.outer ≡ self.old.outer }
    {
        let nodes = self.nodes.len();
        if nodes == 0 {
            self.start.push(bytes)?;
        } else {
            push_bytes(&mut self.nodes, bytes)?;
        }
        Ok(())
    }

    /// Goes into a new level within this one.
    fn enter(&mut self, around: Level) -> Result<(), OutOfMemory>
        ensures start { self.new.start ≡ self.old.start }
        ensures nodes { self.new.nodes ≡ self.old.nodes }
        ensures level { OnOk result (self.new.level ≡ level_counts new_level) }
        ensures outer { OnOk result (self.new.outer.items ≡ self.old.outer.items ++ around ∷ []) }
    {
        self.outer.push(around)?;
        self.level = Level::new();
        Ok(())
    }

    /// Ends the sequence of the level, and gives its positions.
    fn end_sequence(&mut self) -> Result<u32, OutOfMemory>
        ensures ends { IfOk result
            (λ count. (read : Reading) → IsBuilderOf self.old read
            → Ends self.new (tree_on read.level.sides (outer_trees read.outer))
            (sequence_of read.level) count) }
        ensures level { self.new.level ≡ self.old.level }
        ensures outer { self.new.outer ≡ self.old.outer }
    {
        match self.level.piece {
            None => Ok(self.level.sequence),
            Some(piece) => {
                self.join()?;
                Ok(sum(self.level.sequence, piece))
            }
        }
    }

    /// Ends the choice of the level, and gives its positions.
    fn end_choice(&mut self) -> Result<u32, OutOfMemory>
        ensures ends { IfOk result
            (λ count. (read : Reading) → IsBuilderOf self.old read
            → Ends self.new (outer_trees read.outer) (sides_of read.level) count) }
        ensures level { self.new.level ≡ self.old.level }
        ensures outer { self.new.outer ≡ self.old.outer }
    {
        let sequence = self.end_sequence()?;
        match self.level.sides {
            None => Ok(sequence),
            Some(sides) => {
                self.put(Node::Either)?;
                Ok(sum(sides, sequence))
            }
        }
    }

    /// Adds a byte or set, of which `node` is the node.
    fn add_piece(&mut self, node: Node) -> Result<(), OutOfMemory>
        ensures { OnOk result
            ((read : Reading) (bytes : List ℕ) → IsBuilderOf self.old read
            → is_proper_set bytes ≡ true
            → IsSetNode node bytes → IsBuilderOf self.new (after_token read (tokens.Bytes bytes))) }
    {
        let count = self.end_sequence()?;
        self.put(node)?;
        self.level = Level {
            sides: self.level.sides,
            sequence: count,
            piece: Some(1),
        };
        Ok(())
    }

    /// Adds bytes that stand for themselves.
    pub(crate) fn add_bytes(&mut self, bytes: &[u8]) -> Result<(), OutOfMemory>
        requires { length bytes.now < 2 ^ 32 }
        ensures { OnOk result
            ((read : Reading) → IsBuilderOf self.old read → are_text_bytes bytes.now ≡ true
            → IsBuilderOf self.new (after_bytes read bytes.now)) }
    {
        let length = bytes.len();
        if length == 0 {
            return Ok(());
        }
        let last = length - 1;
        let count = self.end_sequence()?;
        self.join_bytes(&bytes[..last])?;
        self.put(Node::Byte(bytes[last]))?;
        self.level = Level {
            sides: self.level.sides,
            sequence: sum(count, last as u32),
            piece: Some(1),
        };
        Ok(())
    }

    /// Lets no repeat follow.
    fn settle(&mut self) -> Result<(), OutOfMemory>
        ensures { OnOk result
            ((read : Reading) → IsBuilderOf self.old read
            → IsBuilderOf self.new (after_token read tokens.Anchor)) }
    {
        let count = self.end_sequence()?;
        self.level = Level {
            sides: self.level.sides,
            sequence: count,
            piece: None,
        };
        Ok(())
    }

    fn open(&mut self, at: u32) -> Result<(), PatternFault>
        ensures { Steps result self.old self.new at tokens.Open }
    {
        if self.outer.len() >= MOST_GROUPS as usize {
            return Err(PatternFault::TooDeep { at });
        }
        let count = self.end_sequence()?;
        self.put(Node::Nothing)?;
        self.enter(Level {
            sides: self.level.sides,
            sequence: count,
            piece: None,
        })?;
        Ok(())
    }

    fn close(&mut self, at: u32) -> Result<(), PatternFault>
        ensures { Steps result self.old self.new at tokens.Close }
    {
        let count = self.end_choice()?;
        match self.outer.pop() {
            None => Err(PatternFault::Syntax { at }),
            Some(around) => {
                self.level = Level {
                    sides: around.sides,
                    sequence: around.sequence,
                    piece: Some(count),
                };
                Ok(())
            }
        }
    }

    fn begin_side(&mut self) -> Result<(), OutOfMemory>
        ensures { OnOk result
            ((read : Reading) → IsBuilderOf self.old read
            → IsBuilderOf self.new (after_token read tokens.Bar)) }
    {
        let count = self.end_choice()?;
        self.put(Node::Nothing)?;
        self.level = Level {
            sides: Some(count),
            sequence: 0,
            piece: None,
        };
        Ok(())
    }

    fn repeat(&mut self, least: u32, most: Option<u32>, at: u32) -> Result<(), PatternFault>
        ensures { Steps result self.old self.new at (tokens.Times least most) }
    {
        match self.level.piece {
            None => Err(PatternFault::Syntax { at }),
            Some(piece) => {
                self.put(Node::Repeat { least, most })?;
                self.join()?;
                let count = product(piece, factor(least, most));
                self.level = Level {
                    sides: self.level.sides,
                    sequence: sum(self.level.sequence, count),
                    piece: None,
                };
                Ok(())
            }
        }
    }

    /// Adds the token that stands at a place.
    pub(crate) fn add(&mut self, token: Token, at: u32) -> Result<(), PatternFault>
        requires { IsProperToken (token_of token) }
        ensures { Steps result self.old self.new at (token_of token) }
    {
        match token {
            Token::Byte(b) => Ok(self.add_piece(Node::Byte(b))?),
            Token::Set(set) => Ok(self.add_piece(Node::Set(set))?),
            Token::Open => self.open(at),
            Token::Close => self.close(at),
            Token::Bar => Ok(self.begin_side()?),
            Token::Anchor => Ok(self.settle()?),
            Token::Times { least, most } => self.repeat(least, most, at),
        }
    }

    /// The start and the nodes behind it, where the text ends here, which is at most 2^32 - 1.
    pub(crate) fn finish(mut self, at: u32) -> Result<(Bytes, Vec<Node>), PatternFault>
        ensures { (read : Reading) → IsBuilderOf self read → Finishes result read at }
    {
        let count = self.end_choice()?;
        let open_groups = self.outer.len();
        if open_groups > 0 {
            return Err(PatternFault::Syntax { at });
        }
        if count > MOST_POSITIONS {
            return Err(PatternFault::TooManyPositions);
        }
        let Builder {
            start,
            nodes,
            level: _,
            outer: _,
        } = self;
        Ok((start, nodes))
    }

    /// Whether a repeat may follow.
    pub(crate) fn is_after_piece(&self) -> bool
        ensures { (read : Reading) → IsBuilderOf self.now read → result ≡ is_some read.level.piece }
    {
        self.level.piece.is_some()
    }

    /// Whether no group is open, and the positions are too many, whatever follows.
    pub(crate) fn is_full(&self) -> bool
        ensures { (read : Reading) → IsBuilderOf self.now read → IsTrue result
            ↔ ((length read.outer ≡ 0) × (MOST_POSITIONS < base_positions read.level)) }
    {
        let open_groups = self.outer.len();
        if open_groups > 0 {
            return false;
        }
        sum(self.level.sides.unwrap_or(0), self.level.sequence) > MOST_POSITIONS
    }
}
