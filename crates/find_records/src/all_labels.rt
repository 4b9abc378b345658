ghost use Rattle.std.specs.Prelude.{◌≡◌, ◌<◌, ◌+◌, ◌++◌, ◌^◌, [], get_or, length, slice_get, Some};
ghost use Rattle.std.specs.Prelude.{IfOk, OnErr};
ghost use Rattle.context_syntax.specs.Label.{label_of, same_label};
ghost use Rattle.context_syntax.specs.declared.label.Label.TheVariants.{Absent};
ghost use Rattle.find_records.specs.Labels.{Extends};

use crate::labels::Labels;
use context_syntax::Label;
use label_base::OutOfMemory;
use std::alloc::Global;
use std::marker::Model;

// Labels, seen as their list: some that were given as they are, and behind them those that were
// read. A label is found by its number, from 0 on.
#[derive(Drop)]
pub struct AllLabels {
    given: Vec<Label>,
    read: Labels,
}

impl Model for AllLabels {
    ghost use Rattle.std.specs.Prelude.{List, ◌++◌};
    ghost use Rattle.context_syntax.specs.declared.label.Label.{Label};

    ghost Value = { List Label };

    ghost view = { λ l. l.given.items ++ l.read };
}

// The label with a number, among those given and those read.
fn label_at<'a>(given: &'a [Label], read: &'a Labels, number: u32) -> &'a Label
    requires { number < length (given.now ++ read.now) }
    ensures { slice_get (given.now ++ read.now) number ≡ Some result.now }
{
    let first = given.len();
    let place = number as usize;
    if place < first {
        &given[place]
    } else {
        read.get((place - first) as u32)
    }
}

impl AllLabels {
    // No labels.
    pub fn new(alloc: Global) -> AllLabels
        ensures { result ≡ [] }
    {
        AllLabels {
            given: Vec::new(alloc),
            read: Labels::new(alloc),
        }
    }

    // These labels.
    pub fn of_given(alloc: Global, given: Vec<Label>) -> AllLabels
        ensures { result ≡ given.items }
    {
        AllLabels {
            given,
            read: Labels::new(alloc),
        }
    }

    // The label with a number.
    pub fn get(&self, number: u32) -> &Label
        requires { number < length self.now }
        ensures { slice_get self.now number ≡ Some result.now }
    {
        label_at(self.given.as_slice(), &self.read, number)
    }

    // Whether the labels with two numbers are the same.
    pub fn is_same(&self, first: u32, second: u32) -> bool
        requires first { first < length self.now }
        requires second { second < length self.now }
        ensures { result
            ≡ same_label (get_or self.now first Absent) (get_or self.now second Absent) }
    {
        if first == second {
            return true;
        }
        *self.get(first) == *self.get(second)
    }

    // The number of the label that the bytes spell, which is added if it is new. There is no memory
    // for more labels than there are numbers.
    #[tactic(auto, using(crate::proofs::LabelledLemmas::extends_behind))]
    pub fn number_of(&mut self, alloc: Global, bytes: &[u8]) -> Result<u32, OutOfMemory>
        requires { length self.old < 2 ^ 32 }
        ensures number { IfOk result (λ number.
            slice_get self.new number ≡ Some (label_of bytes.now)) }
        ensures extends { Extends self.old self.new }
        ensures same { OnErr result (self.new ≡ self.old) }
        ensures few { length self.new < 2 ^ 32 }
    {
        let first = self.given.len();
        if first + self.read.len() >= u32::MAX as usize {
            return Err(OutOfMemory);
        }
        let number = self.read.number_of(alloc, bytes)?;
        Ok((first + number as usize) as u32)
    }
}
