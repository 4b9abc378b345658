use label_base::OutOfMemory;
use std::alloc::Global;

// How many guesses are kept: so many that a few hundred things seldom share one.
const GUESSES: usize = 4_096;

// An odd number with its bits in no order.
const MIX: u64 = 0x9E37_79B9_7F4A_7C15;

/// What was mixed so far, and a word more.
pub fn mix(mixed: u64, word: u64) -> u64 {
    let product = (mixed ^ word).wrapping_mul(MIX);
    // A product carries what differs upwards alone, so its upper half goes into the lower one.
    product ^ product >> 32
}

// Guesses of numbers, by what the thing that has a number mixes to. Nothing is claimed of them:
// what they give is compared.
#[derive(Drop)]
pub struct Guesses {
    numbers: Vec<u32>,
}

// The uppermost bits: each bit of what was mixed reaches these.
fn slot_of(mixed: u64) -> usize {
    ((mixed >> 52) as usize) % GUESSES
}

impl Guesses {
    /// No guesses, and no room for them.
    pub fn new(alloc: Global) -> Guesses {
        Guesses {
            numbers: Vec::new(alloc),
        }
    }

    /// Makes room for guesses, unless there is some.
    pub fn make_room(&mut self, alloc: Global) -> Result<(), OutOfMemory> {
        if self.numbers.is_empty() {
            self.numbers = vec![in alloc; 0u32; GUESSES]?;
        }
        Ok(())
    }

    /// A guess.
    pub fn get(&self, mixed: u64) -> u32 {
        match self.numbers.get(slot_of(mixed)) {
            Some(number) => *number,
            None => 0,
        }
    }

    /// Keeps a number where it is guessed, if there is room.
    pub fn keep(&mut self, mixed: u64, number: u32) {
        if let Some(guess) = self.numbers.get_mut(slot_of(mixed)) {
            *guess = number;
        }
    }
}
