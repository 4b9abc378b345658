ghost use Rattle.std.specs.Prelude.{◌≡◌, ◌<◌, ℕ, List, [], true, length, IfOk, OnOk};
ghost use Rattle.policy_lists.specs.Lines.{decided};
ghost use Rattle.policy_lists.specs.Lists.{AreWithin, IsListOf};
ghost use Rattle.policy_lists.specs.Numbered.{AreLists, IsLed, IsStarted, list_at, lists_in};
ghost use Rattle.policy_lists.specs.Rows.{IsNumbered};

use crate::line::Line;
use crate::lists::{first_fit, start_list, step_list};
use crate::nodes::Nodes;
use crate::rows::Rows;
use label_base::{Asked, OutOfMemory};
use std::alloc::Global;

/// Lists of policies, numbered in the order in which they came, each list once as a rule.
#[derive(Drop)]
pub struct Lists {
    pub(crate) nodes: Nodes,
    pub(crate) rows: Rows,
    // The list that is being written.
    draft: Vec<u64>,
    // The number of the list that was found last.
    last: usize,
}

fn are_same(row: &[u64], other: &[u64]) -> bool
    ensures { result ≡ true → row.now ≡ other.now }
{
    row == other
}

impl Lists {
    /// No lists.
    pub fn new(alloc: Global, lines: &[Line]) -> Result<Lists, OutOfMemory>
        ensures lists { IfOk result (λ lists. AreLists lines.now lists) }
        ensures none { IfOk result (λ lists. lists_in lists ≡ []) }
    {
        Ok(Lists {
            rows: Rows::new(alloc),
            draft: Vec::new(alloc),
            last: 0,
            nodes: Nodes::new(alloc, lines)?,
        })
    }

    /// How many lists there are.
    pub fn len(&self) -> usize
        ensures { result ≡ length (lists_in self.now) }
    {
        self.rows.len()
    }

    /// How many nodes all of them have, each once.
    pub fn nodes(&self) -> usize
        ensures { result ≡ length self.now.nodes.rows }
    {
        self.nodes.len()
    }

    // The number of the list that was written.
    fn number_draft(&mut self, alloc: Global) -> Result<usize, OutOfMemory>
        ensures nodes { self.new.nodes ≡ self.old.nodes }
        ensures numbered { IfOk result (λ number. IsNumbered self.old.rows self.old.draft.items
            number self.new.rows) }
    {
        if self.last < self.rows.len() {
            if are_same(self.rows.row(self.last), self.draft.as_slice()) {
                return Ok(self.last);
            }
        }
        let number = self.rows.number_of(alloc, self.draft.as_slice())?;
        self.last = number;
        Ok(number)
    }

    /// The number of the list of a policy before the first byte of a text. Its lines are given in
    /// the order in which they decide.
    pub fn start(
        &mut self,
        alloc: Global,
        lines: &[Line],
        order: &[u32],
    ) -> Result<usize, OutOfMemory>
        requires lists { AreLists lines.now self.old }
        requires order { AreWithin (length lines.now) order.now }
        ensures lists { OnOk result (AreLists lines.now self.new) }
        ensures started { IfOk result (λ number. IsStarted lines.now order.now number
            (lists_in self.old) (lists_in self.new)) }
    {
        start_list(alloc, lines, &mut self.nodes, order, &mut self.draft)?;
        let number = self.number_draft(alloc)?;
        Ok(number)
    }

    /// The number of the list to which a byte other than 0 leads.
    pub fn step(
        &mut self,
        alloc: Global,
        lines: &[Line],
        list: usize,
        byte: u8,
    ) -> Result<usize, OutOfMemory>
        requires lists { AreLists lines.now self.old }
        requires list { list < length (lists_in self.old) }
        requires some { 0 < byte }
        ensures lists { OnOk result (AreLists lines.now self.new) }
        ensures led { IfOk result (λ number. IsLed lines.now byte list number (lists_in self.old)
            (lists_in self.new)) }
    {
        let from = self.rows.row(list);
        step_list(alloc, lines, &mut self.nodes, from, byte, &mut self.draft)?;
        let number = self.number_draft(alloc)?;
        Ok(number)
    }

    /// Whether a list has no line.
    pub fn has_none(&self, list: usize) -> bool
        requires { list < length (lists_in self.now) }
        ensures { result ≡ true → list_at (lists_in self.now) list ≡ [] }
    {
        self.rows.row(list).is_empty()
    }

    /// The line that decides behind the texts of a list.
    pub fn decides(&self, lines: &[Line], list: usize, asked: Asked) -> Option<usize>
        requires lists { AreLists lines.now self.now }
        requires list { list < length (lists_in self.now) }
        ensures { (order text : List ℕ) → IsListOf lines.now order text
            (list_at (lists_in self.now) list)
            → result ≡ decided lines.now order asked text }
    {
        first_fit(lines, &self.nodes, self.rows.row(list), asked)
    }
}
