ghost use Rattle.std.specs.Prelude.{◌≡◌, ◌<◌, [], true, length, IfOk};
ghost use Rattle.policy_lists.specs.Rows.{IsNumbered, row_at, rows_in};

use label_base::OutOfMemory;
use std::alloc::Global;
use std::marker::Model;

// How many slots there are at first.
const FIRST_SLOTS: usize = 64;

/// Rows of numbers, numbered in the order in which they came, each row once as a rule. Seen as the
/// list of them.
#[derive(Drop)]
pub struct Rows {
    rows: Vec<Vec<u64>>,
    // Guesses at where a row is, by its hash: one more than its number, or 0.
    slots: Vec<u32>,
}

impl Model for Rows {
    ghost use Rattle.std.specs.Prelude.{List, ℕ};

    ghost Value = { List (List ℕ) };

    ghost use Rattle.policy_lists.specs.Rows.{rows_in};

    ghost view = { λ r. rows_in r.rows.items };
}

fn mixed(hash: u64, number: u64) -> u64 {
    (hash.rotate_left(23) ^ number).wrapping_mul(0x9e37_79b9_7f4a_7c15)
}

fn hash_of(row: &[u64]) -> u64 {
    let mut hash = 0;
    'numbers: for number in row {
        hash = mixed(hash, *number);
    }
    hash ^ hash >> 32
}

// The first slot for a hash.
fn slot_of(slots: &[u32], hash: u64) -> usize
    requires { 0 < length slots.now }
    ensures { result < length slots.now }
{
    (hash % slots.len() as u64) as usize
}

fn are_same(row: &[u64], other: &[u64]) -> bool
    ensures { result ≡ true → row.now ≡ other.now }
{
    row == other
}

// Whether the row of a number is this one.
fn is_row(rows: &[Vec<u64>], number: usize, row: &[u64]) -> bool
    requires { number < length rows.now }
    ensures { result ≡ true → row_at (rows_in rows.now) number ≡ row.now }
{
    are_same(rows[number].as_slice(), row)
}

// The number of a row that is there, or a slot for it.
fn find(rows: &[Vec<u64>], slots: &[u32], row: &[u64]) -> Result<usize, usize>
    ensures within { IfOk result (λ number. number < length rows.now) }
    ensures found { IfOk result (λ number. row_at (rows_in rows.now) number ≡ row.now) }
{
    if slots.is_empty() {
        return Err(0);
    }
    let mut slot = slot_of(slots, hash_of(row));
    'slots: for _ in 0..slots.len() {
        let known = slots[slot] as usize;
        if known == 0 {
            return Err(slot);
        }
        if known <= rows.len() {
            if is_row(rows, known - 1, row) {
                return Ok(known - 1);
            }
        }
        slot = (slot + 1) % slots.len();
    }
    Err(slot)
}

// Notes where a row may be found.
fn note_guess(slots: &mut Vec<u32>, slot: usize, number: usize) {
    if slot < slots.len() {
        if number < u32::MAX as usize {
            slots[slot] = number as u32 + 1;
        }
    }
}

// Twice as many slots, and where the rows are.
fn spread(alloc: Global, rows: &[Vec<u64>], count: usize) -> Result<Vec<u32>, OutOfMemory> {
    let mut slots = vec![in alloc; 0u32; count]?;
    'rows: for i in 0..rows.len() {
        if let Err(slot) = find(rows, slots.as_slice(), rows[i].as_slice()) {
            note_guess(&mut slots, slot, i);
        }
    }
    Ok(slots)
}

fn copied(alloc: Global, row: &[u64]) -> Result<Vec<u64>, OutOfMemory>
    ensures { IfOk result (λ copy. copy.items ≡ row.now) }
{
    let mut copy = Vec::with_capacity(alloc, row.len())?;
    copy.extend_from_slice(row)?;
    Ok(copy)
}

impl Rows {
    /// No rows.
    pub fn new(alloc: Global) -> Rows
        ensures { result ≡ [] }
    {
        Rows {
            rows: Vec::new(alloc),
            slots: Vec::new(alloc),
        }
    }

    /// How many rows there are.
    pub fn len(&self) -> usize
        ensures { result ≡ length self.now }
    {
        self.rows.len()
    }

    /// The row of a number.
    pub fn row(&self, number: usize) -> &[u64]
        requires { number < length self.now }
        ensures { result.now ≡ row_at self.now number }
    {
        self.rows[number].as_slice()
    }

    // Makes room for guesses, where it is short.
    fn make_room(&mut self, alloc: Global) -> Result<(), OutOfMemory>
        ensures { self.new ≡ self.old }
    {
        let count = self.slots.len();
        if self.rows.len() < count / 2 {
            return Ok(());
        }
        let wanted = count.saturating_mul(2).max(FIRST_SLOTS);
        self.slots = spread(alloc, self.rows.as_slice(), wanted)?;
        Ok(())
    }

    /// The number of a row, which is added if it isn't there.
    pub fn number_of(&mut self, alloc: Global, row: &[u64]) -> Result<usize, OutOfMemory>
        ensures { IfOk result (λ number. IsNumbered self.old row.now number self.new) }
    {
        self.make_room(alloc)?;
        match find(self.rows.as_slice(), self.slots.as_slice(), row) {
            Ok(number) => Ok(number),
            Err(slot) => {
                let number = self.rows.len();
                self.rows.push(copied(alloc, row)?)?;
                note_guess(&mut self.slots, slot, number);
                Ok(number)
            }
        }
    }
}
