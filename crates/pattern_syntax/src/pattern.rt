ghost use Rattle.std.specs.Prelude.{◌≡◌, ◌==◌, ◌∷◌, ◌++◌, [], ◌<◌, ◌^◌, length, IfOk, Ok, Err};
ghost use Rattle.std.specs.Prelude.{◌≤◌, true, ℕ, List, ◌↔◌, is_some, take};
ghost use Rattle.label_base.specs.Answers.{Answers};
ghost use Rattle.pattern_syntax.specs.Nodes.{after_nodes, trees_behind, rest_tree};
ghost use Rattle.pattern_syntax.specs.Literal.{node_code, is_several};
ghost use Rattle.pattern_syntax.specs.Parts.{AreParts, IsPattern, pattern_tree, start_nodes};
ghost use Rattle.pattern_syntax.specs.Reading.{pattern_of};
ghost use Rattle.pattern_syntax.specs.Building.{ReadsOn, ReadsParts};
ghost use Rattle.pattern_syntax.specs.PatternValue.{IsReadPattern, as_read};

use crate::builder::{Builder, push_bytes};
use crate::kept::{start_in, text_and_start, text_in};
use crate::node::Node;
use crate::pattern_fault::PatternFault;
use crate::placed::{run_length, token_from};
use crate::quick::{has_all_below, is_run_alone, nodes_below};
use crate::rest::refuse_rest;
use label_base::{Bytes, OutOfMemory};
use std::alloc::Global;
use std::marker::Model;

/// A pattern of a file_contexts specification: its text, seen with the tree that this reads as. It
/// keeps no nodes: they are read again where they are wanted, which for most patterns of a long
/// list is never.
#[derive(Debug)]
pub struct Pattern {
    // The text, and behind it the bytes that each text of its language begins with, where the text
    // doesn't begin with these itself.
    bytes: Vec<u8>,
    start_length: u32,
    is_start_behind: bool,
    // Whether the pattern has nothing behind its start.
    is_start_alone: bool,
}

// By hand: one call for an owner, where a derived drop is a step for each field.
impl Drop for Pattern {
    fn drop(self) {
        let Pattern {
            bytes: _,
            start_length: _,
            is_start_behind: _,
            is_start_alone: _,
        } = self;
    }
}

impl Model for Pattern {
    ghost use Rattle.std.specs.Prelude.{take};
    ghost use Rattle.std.specs.Coded.{codes};
    ghost use Rattle.pattern_syntax.specs.Tree.{tree_code};
    ghost use Rattle.pattern_syntax.specs.PatternValue.{PatternValue, as_read, IsKept};
    ghost use Rattle.pattern_syntax.specs.PatternValue.{text_end, start_place};

    ghost Value = { PatternValue };

    ghost coded = { Prim.hlevel (codes, tree_code) };

    ghost view = { λ p.
        as_read (take (text_end p.bytes.items p.start_length p.is_start_behind) p.bytes.items) };

    ghost invariant = { λ p. IsKept p.bytes.items
        (text_end p.bytes.items p.start_length p.is_start_behind)
        (start_place p.bytes.items p.start_length p.is_start_behind)
        p.start_length p.is_start_alone };
}

fn is_either(node: &Node) -> bool
    ensures { result ≡ ((node_code node.now).0 == 3) }
{
    matches!(node, Node::Either)
}

/// Whether the nodes behind a start make a choice of several sides.
fn have_sides(start: &[u8], nodes: &[Node]) -> bool
    requires { AreParts start.now nodes.now }
    ensures { result ≡ is_several (pattern_tree start.now nodes.now) }
{
    nodes.len() > 0 && is_either(&nodes[nodes.len() - 1])
}

/// The nodes of a start, and those behind it.
fn all_nodes(alloc: Global, start: &[u8], nodes: &[Node]) -> Result<Vec<Node>, OutOfMemory>
    ensures { IfOk result (λ all. all.items ≡ start_nodes start.now ++ nodes.now) }
{
    let room = start.len().saturating_mul(2).saturating_add(nodes.len());
    let mut all = Vec::with_capacity(alloc, room)?;
    push_bytes(&mut all, start)?;
    all.extend_from_slice(nodes)?;
    Ok(all)
}

/// Reads the bytes that stand for themselves at a place, or else the token there, and gives the
/// place behind.
fn read_on(builder: &mut Builder, bytes: &[u8], at: usize) -> Result<usize, PatternFault>
    requires room { length bytes.now < 2 ^ 32 }
    requires before_end { at < length bytes.now }
    ensures { ReadsOn result builder.old builder.new bytes.now at }
{
    let run = run_length(&bytes[at..]);
    if run > 0 {
        builder.add_bytes(&bytes[at..at + run])?;
        return Ok(at + run);
    }
    let (token, length) = token_from(bytes, at)?;
    builder.add(token, at as u32)?;
    Ok(at + length)
}

/// The start and the nodes behind it; of a tree of several sides all nodes, behind no start.
fn parted(alloc: Global, start: Bytes, nodes: Vec<Node>) -> Result<(Bytes, Vec<Node>), OutOfMemory>
    requires { AreParts start nodes.items }
    ensures { IfOk result (λ parts. IsPattern parts.0 parts.1.items
        × (pattern_tree parts.0 parts.1.items ≡ pattern_tree start nodes.items)) }
{
    if have_sides(start.as_slice(), nodes.as_slice()) {
        let all = all_nodes(alloc, start.as_slice(), nodes.as_slice())?;
        return Ok((Bytes::new(alloc), all));
    }
    Ok((start, nodes))
}

/// Reads a pattern's literal start, and the nodes behind it.
fn start_and_rest(alloc: Global, bytes: &[u8]) -> Result<(Bytes, Vec<Node>), PatternFault>
    requires { length bytes.now < 2 ^ 32 }
    ensures { ReadsParts result (pattern_of bytes.now) }
{
    let mut builder = Builder::new(alloc)?;
    let mut at = 0;
    'tokens: while at < bytes.len() {
        if builder.is_full() {
            return Err(refuse_rest(bytes, at, builder.is_after_piece()));
        }
        at = read_on(&mut builder, bytes, at)?;
    }
    let (start, nodes) = builder.finish(at as u32)?;
    Ok(parted(alloc, start, nodes)?)
}

impl Pattern {
    ghost use Rattle.pattern_syntax.specs.PatternCause.{pattern_cause};
    ghost use Rattle.pattern_syntax.specs.Shape.{HasNoEmptySet, is_proper};
    ghost use Rattle.pattern_syntax.specs.Grammar.{Spells, Choice};
    ghost use Rattle.pattern_syntax.specs.Tokens.{Token};
    ghost use Rattle.pattern_syntax.specs.Faults.{IsPatternText, IsRefusedFor};
    ghost use Rattle.pattern_syntax.specs.declared.pattern_fault.PatternWhy.{PatternWhy};
    ghost use Rattle.pattern_syntax.specs.Tree.{Tree};
    ghost use Rattle.pattern_syntax.specs.Language.{In};
    ghost use Rattle.pattern_syntax.specs.Literal.{literal_start_of, single_bytes};
    ghost use Rattle.pattern_syntax.specs.Parts.{bytes_tree, Follows};

    /// Reads a pattern, in the dialect of pcrepattern(3) that selabel_file(5) needs: sets, groups,
    /// choices, repeats, and anchors at the ends. The fault at the least place decides; a pattern
    /// has at most `MOST_POSITIONS` positions.
    pub fn read(alloc: Global, bytes: &[u8]) -> Result<Pattern, PatternFault>
        requires { length bytes.now < 2 ^ 32 }
        ensures read { Answers (λ pattern. pattern.tree) pattern_cause result
            (pattern_of bytes.now) }
        ensures text { IfOk result (λ pattern. pattern.text ≡ bytes.now) }
    {
        let run = run_length(bytes);
        if is_run_alone(bytes, run) {
            return Ok(Pattern::begun(alloc, bytes, bytes.len(), true)?);
        }
        if has_all_below(bytes, run) {
            return Ok(Pattern::begun(alloc, bytes, run, false)?);
        }
        let (start, rest) = start_and_rest(alloc, bytes)?;
        let (kept, is_behind) = text_and_start(alloc, bytes, start.as_slice())?;
        Ok(Pattern {
            bytes: kept,
            start_length: start.len() as u32,
            is_start_behind: is_behind,
            is_start_alone: rest.is_empty(),
        })
    }

    // The pattern of a text that begins with its start, of so many bytes.
    fn begun(
        alloc: Global,
        text: &[u8],
        count: usize,
        is_alone: bool,
    ) -> Result<Pattern, OutOfMemory>
        requires within { count ≤ length text.now }
        requires read { IsReadPattern text.now (take count text.now) is_alone }
        ensures { IfOk result (λ pattern. pattern ≡ as_read text.now) }
    {
        Ok(Pattern {
            bytes: Vec::from_slice(alloc, text)?,
            start_length: count as u32,
            is_start_behind: false,
            is_start_alone: is_alone,
        })
    }

    /// The text that it was read from.
    pub fn text(&self) -> &[u8]
        ensures { result.now ≡ self.now.text }
    {
        text_in(
            self.bytes.as_slice(),
            self.start_length as usize,
            self.is_start_behind,
        )
    }

    /// The bytes of the single bytes that the pattern begins with; none where a bar stands outside
    /// of all groups.
    pub fn start(&self) -> &[u8]
        ensures { result.now ≡ literal_start_of self.now.tree }
    {
        start_in(
            self.bytes.as_slice(),
            self.start_length as usize,
            self.is_start_behind,
        )
    }

    /// Whether the pattern is single bytes alone, which are its start.
    pub fn is_start_alone(&self) -> bool
        ensures { result ≡ is_some (single_bytes self.now.tree) }
    {
        self.is_start_alone
    }

    /// Reads the nodes behind the start, in postfix order. The texts of the language are the start
    /// and then a text of the rest.
    pub fn rest(&self, alloc: Global) -> Result<Vec<Node>, OutOfMemory>
        ensures whole { IfOk result (λ rest.
            after_nodes rest.items (bytes_tree (literal_start_of self.now.tree) ∷ [])
            ≡ self.now.tree ∷ []) }
        ensures alone { IfOk result
            (λ rest. trees_behind rest.items ≡ rest_tree rest.items ∷ []) }
        ensures language { IfOk result (λ rest. (text : List ℕ) → In self.now.tree text
            ↔ Follows (literal_start_of self.now.tree) (rest_tree rest.items) text) }
    {
        let text = text_in(
            self.bytes.as_slice(),
            self.start_length as usize,
            self.is_start_behind,
        );
        if has_all_below(text, run_length(text)) {
            let nodes = nodes_below(alloc)?;
            return Ok(nodes);
        }
        match start_and_rest(alloc, text) {
            Ok((_, rest)) => Ok(rest),
            Err(_) => Err(OutOfMemory),
        }
    }

    /// A law on every pattern: each of its sets has a byte, and none of them 0; what stands before
    /// the last piece of a sequence is a sequence.
    #[tactic(auto, using(crate::proofs::ShapeLemmas::no_empty_set))]
    pub fn has_no_empty_set(&self)
        ensures nonempty { HasNoEmptySet self.now.tree }
        ensures proper { is_proper self.now.tree ≡ true }
    {
        let _bytes = &self.bytes;
    }

    /// A law on every text. It is read where it is a pattern of the grammar within the limits, and
    /// its tree is the only one. It is refused for what stands amiss at the first place where
    /// anything does, and for too many positions where nothing stands amiss and the tree has them.
    #[tactic(auto, using(crate::proofs::FaultLemmas::reads_as_grammar, crate::proofs::FaultLemmas::refuses_as_grammar, crate::proofs::GrammarLemmas::grammar_single))]
    pub fn follows_grammar(_bytes: &[u8])
        ensures read { (tree : Tree) → pattern_of _bytes.now ≡ Ok tree
            ↔ IsPatternText _bytes.now tree }
        ensures single { (tokens : List Token) (a b : Tree) → Spells Choice tokens a
            → Spells Choice tokens b → a ≡ b }
        ensures refused { (why : PatternWhy) → pattern_of _bytes.now ≡ Err why
            ↔ IsRefusedFor _bytes.now why }
    {}

    /// A copy of the start. Every text of the pattern's language begins with it.
    pub fn literal_start(&self, alloc: Global) -> Result<Bytes, OutOfMemory>
        ensures value { IfOk result (λ start. start ≡ literal_start_of self.now.tree) }
        ensures begins { IfOk result
            (λ start. (text : List ℕ) → In self.now.tree text → (rest : List ℕ)
            × (text ≡ start ++ rest)) }
    {
        let start = Bytes::copy_of(alloc, self.start())?;
        Ok(start)
    }
}
