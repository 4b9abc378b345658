ghost use Rattle.std.specs.Prelude.{◌≡◌, ◌+◌, ◌∷◌, true, IfOk, OnOk, []};
ghost use Rattle.pattern_match.specs.Automaton.{Place, moved, followed, same_numbers, added};

use crate::class::Class;
use label_base::OutOfMemory;
use std::alloc::Global;
use std::marker::Model;

/// A state of an automaton under construction: the bytes that lead into it, whether a text may end
/// behind it, and the numbers of the positions that may take the next byte.
#[derive(Drop)]
pub struct Position {
    class: Class,
    is_last: bool,
    next: Vec<u32>,
}

impl Model for Position {
    ghost use Rattle.pattern_match.specs.Automaton.{Place};

    ghost Value = { Place };

    ghost use Rattle.pattern_match.specs.Class.{class_bytes};

    ghost view = { λ p. record {
      bytes = class_bytes p.class;
      is_last = p.is_last;
      next = p.next.items;
    } };
}

impl Position {
    ghost use Rattle.pattern_match.specs.Class.{class_bytes};

    /// A position that ends its pattern.
    pub fn new(alloc: Global, class: Class) -> Position
        ensures { result ≡ record { bytes = class_bytes class; is_last = true; next = [] } }
    {
        Position {
            class,
            is_last: true,
            next: Vec::new(alloc),
        }
    }

    /// The same position.
    pub fn copy(&self, alloc: Global) -> Result<Position, OutOfMemory>
        ensures { IfOk result (λ copy. copy ≡ self.now) }
    {
        Ok(Position {
            class: self.class,
            is_last: self.is_last,
            next: Vec::from_slice(alloc, self.next.as_slice())?,
        })
    }

    /// Counts the numbers from a later place on. A number past the machine's is want of memory.
    pub fn move_up(&mut self, by: u32) -> Result<(), OutOfMemory>
        ensures { OnOk result (self.new ≡ moved by self.old) }
    {
        for number in self.next.iter_mut() {
            *number = sum(*number, by)?;
        }
        Ok(())
    }

    /// Lets another part follow, of which the first positions are given.
    pub fn follow(&mut self, holds_empty: bool, first: &[u32]) -> Result<(), OutOfMemory>
        ensures { OnOk result (self.new ≡ followed holds_empty first.now self.old) }
    {
        if self.is_last {
            add_numbers(&mut self.next, first)?;
        }
        self.is_last = self.is_last && holds_empty;
        Ok(())
    }

    /// The position before the first byte, with the numbers of those that may take it.
    pub fn start(holds_empty: bool, first: Vec<u32>) -> Position
        ensures { result ≡ record { bytes = 0 ∷ []; is_last = holds_empty; next = first.items } }
    {
        Position {
            class: Class::Byte(0),
            is_last: holds_empty,
            next: first,
        }
    }

    /// Whether a text may end behind the position.
    pub fn is_last(&self) -> bool
        ensures { result ≡ self.now.is_last }
    {
        self.is_last
    }

    /// The numbers of the positions that may take the next byte.
    pub fn next(&self) -> &[u32]
        ensures { result.now ≡ self.now.next }
    {
        self.next.as_slice()
    }

    /// The bytes that lead to the position.
    pub fn class(&self) -> Class
        ensures { class_bytes result ≡ self.now.bytes }
    {
        self.class
    }
}

// Whether the numbers are the same, one by one.
fn are_same(numbers: &[u32], others: &[u32]) -> bool
    ensures { result ≡ same_numbers numbers.now others.now }
{
    numbers == others
}

// Adds numbers, if they are not the same.
fn add_numbers(next: &mut Vec<u32>, first: &[u32]) -> Result<(), OutOfMemory>
    ensures { OnOk result (next.new.items ≡ added next.old.items first.now) }
{
    if are_same(next.as_slice(), first) {
        return Ok(());
    }
    next.extend_from_slice(first)?;
    Ok(())
}

/// The sum, if positions can be counted so far.
pub fn sum(a: u32, b: u32) -> Result<u32, OutOfMemory>
    ensures { IfOk result (λ sum. sum ≡ a + b) }
{
    if a > u32::MAX - b {
        return Err(OutOfMemory);
    }
    Ok(a + b)
}

/// A count of positions, if they can be counted so far.
pub fn count(positions: usize) -> Result<u32, OutOfMemory>
    ensures { IfOk result (λ count. count ≡ positions) }
{
    if positions > u32::MAX as usize {
        return Err(OutOfMemory);
    }
    Ok(positions as u32)
}
