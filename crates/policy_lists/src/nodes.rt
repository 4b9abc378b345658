ghost use Rattle.std.specs.Prelude.{◌≡◌, ◌<◌, ◌≤◌, ◌++◌, ◌∷◌, ℕ, [], suc, true, length, replicate};
ghost use Rattle.std.specs.Prelude.{IfOk, OnOk};
ghost use Rattle.pattern_match.specs.States.{AreStatesOf};
ghost use Rattle.policy_lists.specs.Lines.{pattern_at};
ghost use Rattle.policy_lists.specs.Nodes.{AreNodes, IsBegun, IsStepped, decoded, line_of};
ghost use Rattle.policy_lists.specs.Nodes.{node_of, states_of};
ghost use Rattle.policy_lists.specs.Rows.{IsAdded, row_at};

use crate::line::Line;
use crate::policy::widest;
use crate::rows::Rows;
use label_base::OutOfMemory;
use pattern_match::States;
use std::alloc::Global;

/// Lines with states of their patterns, numbered in the order in which they came; which node each
/// byte leads to from which, as far as it was asked for; and for each node whether a text may end
/// there, and whether its line fits whatever follows.
#[derive(Drop)]
pub struct Nodes {
    pub(crate) rows: Rows,
    // For each node and each byte: 0 where it isn't known, 1 where the line is dead, or two more
    // than the number of the node that the byte leads to.
    pub(crate) next: Vec<u32>,
    pub(crate) accepts: Vec<bool>,
    pub(crate) covers: Vec<bool>,
    // In which lines are gone on with.
    pub(crate) states: States,
}

// A node as a row.
fn row_of(alloc: Global, line: usize, states: &States) -> Result<Vec<u64>, OutOfMemory>
    ensures { IfOk result (λ row. row.items ≡ node_of line states.now.known) }
{
    let mut row = Vec::with_capacity(alloc, 2)?;
    row.push(line as u64)?;
    row.push(states.seen() as u64)?;
    row.extend_from_slice(states.marks())?;
    Ok(row)
}

// What an entry of the steps that is known says.
fn decoded(code: u32) -> Option<usize>
    ensures { result ≡ decoded code }
{
    if code == 0 {
        return None;
    }
    Some(code as usize - 1)
}

// The entry for a step, or 0 for a number that is too great for it.
fn coded(to: Option<usize>) -> u32
    ensures { (v : ℕ) → result ≡ suc v → to ≡ decoded v }
{
    match to {
        None => 1,
        Some(node) => {
            if node > u32::MAX as usize - 2 {
                return 0;
            }
            node as u32 + 2
        }
    }
}

impl Nodes {
    /// No nodes.
    pub fn new(alloc: Global, lines: &[Line]) -> Result<Nodes, OutOfMemory>
        ensures nodes { IfOk result (λ nodes. AreNodes lines.now nodes) }
        ensures none { IfOk result (λ nodes. nodes.rows ≡ []) }
    {
        Ok(Nodes {
            next: Vec::new(alloc),
            accepts: Vec::new(alloc),
            covers: Vec::new(alloc),
            states: States::with_room(alloc, widest(lines))?,
            rows: Rows::new(alloc),
        })
    }

    /// How many nodes there are.
    pub fn len(&self) -> usize
        ensures { result ≡ length self.now.rows }
    {
        self.rows.len()
    }

    /// Which line a node is of.
    pub fn line(&self, node: usize) -> usize
        requires within { node < length self.now.rows }
        requires long { 2 ≤ length (row_at self.now.rows node) }
        ensures { result ≡ line_of (row_at self.now.rows node) }
    {
        self.rows.row(node)[0] as usize
    }

    // Makes the states those of a node.
    fn load(&mut self, node: usize)
        requires within { node < length self.old.rows }
        requires long { 2 ≤ length (row_at self.old.rows node) }
        requires room { length (states_of (row_at self.old.rows node)).marks
            ≤ self.old.states.room }
        ensures known { self.new.states.known ≡ states_of (row_at self.old.rows node) }
        ensures room { self.new.states.room ≡ self.old.states.room }
        ensures rows { self.new.rows ≡ self.old.rows }
        ensures next { self.new.next ≡ self.old.next }
        ensures accepts { self.new.accepts ≡ self.old.accepts }
        ensures covers { self.new.covers ≡ self.old.covers }
    {
        let row = self.rows.row(node);
        self.states.set(row[1] as usize, &row[2..]);
    }

    // Adds what is known of the node that was added last.
    fn complete(&mut self, accepts: bool, covers: bool) -> Result<(), OutOfMemory>
        ensures next { OnOk result (self.new.next.items ≡ self.old.next.items ++ replicate 256 0) }
        ensures accepts { OnOk result (self.new.accepts.items
            ≡ self.old.accepts.items ++ accepts ∷ []) }
        ensures covers { OnOk result (self.new.covers.items
            ≡ self.old.covers.items ++ covers ∷ []) }
        ensures rows { self.new.rows ≡ self.old.rows }
        ensures states { self.new.states ≡ self.old.states }
    {
        self.next.resize(self.next.len() + 256, 0u32)?;
        self.accepts.push(accepts)?;
        self.covers.push(covers)?;
        Ok(())
    }

    // The number of the node of a line with the states of now.
    fn number_of(
        &mut self,
        alloc: Global,
        lines: &[Line],
        line: usize,
    ) -> Result<usize, OutOfMemory>
        requires nodes { AreNodes lines.now self.old }
        requires within { line < length lines.now }
        requires own { AreStatesOf (pattern_at lines.now line) self.old.states.known }
        ensures nodes { OnOk result (AreNodes lines.now self.new) }
        ensures added { IfOk result (λ number. IsAdded self.old.rows
            (node_of line self.old.states.known) number self.new.rows) }
    {
        let ready = &lines[line];
        let accepts = ready.accepts(&self.states);
        let covers = ready.covers(&mut self.states);
        let row = row_of(alloc, line, &self.states)?;
        let before = self.rows.len();
        let number = self.rows.number_of(alloc, row.as_slice())?;
        if number < before {
            return Ok(number);
        }
        self.complete(accepts, covers)?;
        Ok(number)
    }

    /// The node of a line before the first byte of a text.
    pub fn begin(
        &mut self,
        alloc: Global,
        lines: &[Line],
        line: usize,
    ) -> Result<usize, OutOfMemory>
        requires nodes { AreNodes lines.now self.old }
        requires within { line < length lines.now }
        ensures nodes { OnOk result (AreNodes lines.now self.new) }
        ensures begun { IfOk result (λ node. IsBegun lines.now line self.old.rows node
            self.new.rows) }
    {
        lines[line].restart(&mut self.states);
        let node = self.number_of(alloc, lines, line)?;
        Ok(node)
    }

    // Goes on from a node by a byte.
    fn learn(
        &mut self,
        alloc: Global,
        lines: &[Line],
        from: usize,
        byte: u8,
    ) -> Result<Option<usize>, OutOfMemory>
        requires nodes { AreNodes lines.now self.old }
        requires from { from < length self.old.rows }
        ensures nodes { OnOk result (AreNodes lines.now self.new) }
        ensures stepped { IfOk result (λ to. IsStepped lines.now byte from self.old.rows to
            self.new.rows) }
    {
        let number = self.line(from);
        self.load(from);
        let line = &lines[number];
        line.step(&mut self.states, byte);
        if !line.alive(&self.states) {
            return Ok(None);
        }
        let to = self.number_of(alloc, lines, number)?;
        Ok(Some(to))
    }

    /// The node to which a byte leads from a node, or none where its line is dead behind it.
    pub fn step(
        &mut self,
        alloc: Global,
        lines: &[Line],
        from: usize,
        byte: u8,
    ) -> Result<Option<usize>, OutOfMemory>
        requires nodes { AreNodes lines.now self.old }
        requires from { from < length self.old.rows }
        ensures nodes { OnOk result (AreNodes lines.now self.new) }
        ensures stepped { IfOk result (λ to. IsStepped lines.now byte from self.old.rows to
            self.new.rows) }
    {
        let place = 256 * from + byte as usize;
        let known = self.next[place];
        if known > 0 {
            return Ok(decoded(known - 1));
        }
        let to = self.learn(alloc, lines, from, byte)?;
        self.next[place] = coded(to);
        Ok(to)
    }
}
