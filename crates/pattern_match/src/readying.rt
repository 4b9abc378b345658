ghost use Rattle.std.specs.Prelude.{◌≡◌, ◌+◌, ◌<◌, ◌≤◌, ◌==◌, ◌&&◌, ◌||◌, ◌/◌, ◌∷◌, true, ℕ, []};
ghost use Rattle.std.specs.Prelude.{IfOk, IfSome, length};
ghost use Rattle.pattern_syntax.specs.Nodes.{nodes_tree, rest_tree};
ghost use Rattle.pattern_syntax.specs.Tree.{Tree};
ghost use Rattle.pattern_syntax.specs.Starts.{behind_start};
ghost use Rattle.pattern_match.specs.Compiled.{AreTablesOf, IsReadyFor};
ghost use Rattle.pattern_match.specs.Operations.{AreOperationsOf};
ghost use Rattle.pattern_match.specs.States.{HasRoomFor, words_for};
ghost use Rattle.pattern_match.specs.Segments.{in_word};
ghost use Rattle.pattern_match.specs.Whole.{IsWholeSegment};

use crate::bits::with_bit_if;
use crate::class::Class;
use crate::compile::compiled;
use crate::layout::lay;
use crate::operation::Operation;
use crate::part::PatternPart;
use crate::segment::Segment;
use crate::spelling::operations_of;
use crate::tables::{accept_row, classes_of, follow_table};
use label_base::OutOfMemory;
use pattern_syntax::{Node, Pattern};
use std::alloc::Global;

/// The tables of the automaton of what stands behind a pattern's literal start. One that holds the
/// empty text alone has none, and one of many states may have operations in place of rows.
#[derive(Drop)]
pub struct PatternTables {
    pub(crate) is_bare: bool,
    // How many states there are, and in how many words they are kept.
    pub(crate) rows: usize,
    pub(crate) width: usize,
    // A row for each state: those that may follow it.
    pub(crate) follow: Vec<u64>,
    // The states behind which a text may end.
    pub(crate) accept: Vec<u64>,
    // The bytes that lead to each state.
    pub(crate) classes: Vec<Class>,
    // The operations that are gone over, where there are no rows.
    pub(crate) operations: Vec<Operation>,
}

impl PatternTables {
    /// The tables of a pattern. There may be too little memory for them.
    pub fn new(alloc: Global, pattern: &Pattern) -> Result<PatternTables, OutOfMemory>
        ensures { IfOk result (AreTablesOf pattern.now.tree) }
    {
        let rest = rest_of(alloc, pattern)?;
        let tables = made_of_rest(alloc, rest)?;
        Ok(tables)
    }

    /// For how many words of marks states must have room.
    pub fn words(&self) -> usize
        ensures value { (tree : Tree) → AreTablesOf tree self.now
            → result ≡ words_for (behind_start tree) }
        ensures room { (tree : Tree) → AreTablesOf tree self.now → HasRoomFor tree result }
    {
        self.width
    }

    // No table.
    fn bare(alloc: Global) -> PatternTables
        ensures bare { result.is_bare ≡ true }
        ensures width { result.width ≡ 0 }
        ensures operations { result.operations.items ≡ [] }
    {
        PatternTables {
            is_bare: true,
            rows: 0,
            width: 0,
            follow: Vec::new(alloc),
            accept: Vec::new(alloc),
            classes: Vec::new(alloc),
            operations: Vec::new(alloc),
        }
    }
}

// Whether so many places hold the empty text alone.
fn is_bare(places: usize, holds_empty: bool) -> bool
    ensures { result ≡ ((places == 0) && holds_empty) }
{
    places == 0 && holds_empty
}

// A row of one word.
fn one_word(alloc: Global, word: u64) -> Result<Vec<u64>, OutOfMemory>
    ensures { IfOk result (λ words. words.items ≡ word ∷ []) }
{
    let mut words = Vec::with_capacity(alloc, 1)?;
    words.push(word)?;
    Ok(words)
}

// The tables of the places that were laid, with the one before the first byte behind them.
fn closed(
    alloc: Global,
    rows: Vec<u64>,
    classes: Vec<Class>,
    whole: &Segment,
) -> Result<PatternTables, OutOfMemory>
    requires { length rows.items ≤ 63 }
    ensures { IfOk result (λ ready. (tree : Tree)
        → IsWholeSegment rows.items classes.items whole.now tree → IsReadyFor tree ready) }
{
    let places = rows.len();
    if is_bare(places, whole.holds_empty) {
        return Ok(PatternTables::bare(alloc));
    }
    let mut follow = rows;
    follow.push(whole.first)?;
    let mut all = classes;
    all.push(Class::Byte(0))?;
    let last = with_bit_if(whole.last, places, whole.holds_empty);
    Ok(PatternTables {
        is_bare: false,
        rows: places + 1,
        width: 1,
        follow,
        accept: one_word(alloc, last)?,
        classes: all,
        operations: Vec::new(alloc),
    })
}

// The segment of the nodes' tree, if its places were laid.
fn laid(
    alloc: Global,
    rows: &mut Vec<u64>,
    classes: &mut Vec<Class>,
    nodes: &[Node],
) -> Result<Option<Segment>, OutOfMemory>
    requires rows { rows.old.items ≡ [] }
    requires classes { classes.old.items ≡ [] }
    ensures { IfOk result (λ found. IfSome found (λ whole.
        IsWholeSegment rows.new.items classes.new.items whole (nodes_tree nodes.now))) }
{
    let mut segments = Vec::new(alloc);
    if !lay(rows, classes, &mut segments, nodes)? {
        return Ok(None);
    }
    let Some(whole) = segments.pop() else {
        return Ok(None);
    };
    if whole.start != 0 {
        return Ok(None);
    }
    if !whole.is_live {
        return Ok(None);
    }
    Ok(Some(whole))
}

// The tables of the nodes' automaton, where its places are few.
fn of_few(alloc: Global, nodes: &[Node]) -> Result<Option<PatternTables>, OutOfMemory>
    ensures { IfOk result (λ found. IfSome found (IsReadyFor (nodes_tree nodes.now))) }
{
    let mut rows = Vec::with_capacity(alloc, nodes.len() / 2 + 2)?;
    let mut classes = Vec::with_capacity(alloc, nodes.len() / 2 + 2)?;
    match laid(alloc, &mut rows, &mut classes, nodes)? {
        Some(whole) => Ok(Some(closed(alloc, rows, classes, &whole)?)),
        None => Ok(None),
    }
}

// In how many words so many bits are kept.
fn words_for(bits: usize) -> Result<usize, OutOfMemory>
    ensures { IfOk result (λ words. words ≡ (bits + 63) / 64) }
{
    if bits > usize::MAX - 63 {
        return Err(OutOfMemory);
    }
    Ok((bits + 63) / 64)
}

// No rows, but the operations.
fn with_operations(alloc: Global, operations: Vec<Operation>) -> Result<PatternTables, OutOfMemory>
    requires { (tree : Tree) × AreOperationsOf operations.items tree }
    ensures { IfOk result (λ ready. (tree : Tree)
        → AreOperationsOf operations.items tree → IsReadyFor tree ready) }
{
    let rows = PatternPart::of(operations.as_slice()).places() + 1;
    Ok(PatternTables {
        is_bare: false,
        rows,
        width: words_for(rows)?,
        follow: Vec::new(alloc),
        accept: Vec::new(alloc),
        classes: Vec::new(alloc),
        operations,
    })
}

// What the nodes' automaton has in place of rows, where it can be gone over.
fn of_operations(alloc: Global, nodes: &[Node]) -> Result<Option<PatternTables>, OutOfMemory>
    ensures { IfOk result (λ found. IfSome found (IsReadyFor (nodes_tree nodes.now))) }
{
    match operations_of(alloc, nodes)? {
        Some(operations) => Ok(Some(with_operations(alloc, operations)?)),
        None => Ok(None),
    }
}

// The tables of the nodes' automaton, however many places it has.
fn of_many(alloc: Global, nodes: &[Node]) -> Result<PatternTables, OutOfMemory>
    ensures { IfOk result (IsReadyFor (nodes_tree nodes.now)) }
{
    let fragment = compiled(alloc, nodes)?;
    if fragment.is_bare() {
        return Ok(PatternTables::bare(alloc));
    }
    let positions = fragment.into_positions(alloc)?;
    let width = words_for(positions.len())?;
    Ok(PatternTables {
        is_bare: false,
        rows: positions.len(),
        width,
        follow: follow_table(alloc, positions.as_slice(), width)?,
        accept: accept_row(alloc, positions.as_slice(), width)?,
        classes: classes_of(alloc, positions.as_slice())?,
        operations: Vec::new(alloc),
    })
}

// The nodes behind a pattern's literal start.
fn rest_of(alloc: Global, pattern: &Pattern) -> Result<Vec<Node>, OutOfMemory>
    ensures { IfOk result (λ rest. rest_tree rest.items ≡ behind_start pattern.now.tree) }
{
    pattern.has_no_empty_set();
    let rest = pattern.rest(alloc)?;
    Ok(rest)
}

// The nodes behind a start, as a sequence of their own.
fn sequence(rest: Vec<Node>) -> Result<Vec<Node>, OutOfMemory>
    ensures { IfOk result (λ nodes. nodes_tree nodes.items ≡ rest_tree rest.items) }
{
    if rest.is_empty() {
        return Ok(rest);
    }
    let mut nodes = rest;
    nodes.insert(0, Node::Nothing)?;
    Ok(nodes)
}

// The tables of the nodes' automaton, where its places aren't few.
fn of_others(alloc: Global, nodes: &[Node]) -> Result<PatternTables, OutOfMemory>
    ensures { IfOk result (IsReadyFor (nodes_tree nodes.now)) }
{
    match of_operations(alloc, nodes)? {
        Some(ready) => Ok(ready),
        None => of_many(alloc, nodes),
    }
}

// The tables of the automaton of nodes in postfix order.
fn made_ready(alloc: Global, nodes: &[Node]) -> Result<PatternTables, OutOfMemory>
    ensures { IfOk result (IsReadyFor (nodes_tree nodes.now)) }
{
    match of_few(alloc, nodes)? {
        Some(ready) => Ok(ready),
        None => of_others(alloc, nodes),
    }
}

// The tables of nodes behind an empty sequence.
fn made_of_rest(alloc: Global, rest: Vec<Node>) -> Result<PatternTables, OutOfMemory>
    ensures { IfOk result (IsReadyFor (rest_tree rest.items)) }
{
    let nodes = sequence(rest)?;
    let tables = made_ready(alloc, nodes.as_slice())?;
    Ok(tables)
}
