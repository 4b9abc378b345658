ghost use Rattle.std.specs.Prelude.{◌≡◌, ◌++◌, ◌∷◌, ◌<◌, ◌≤◌, ◌+◌, ◌-◌, ◌^◌, [], true, length};
ghost use Rattle.std.specs.Prelude.{slice_get, Some, IfOk, IfSome, OnOk, OnErr};
ghost use Rattle.context_syntax.specs.Label.{label_of};
ghost use Rattle.find_records.specs.Labels.{AreLabelsSpelled, Extends, labels_in};

use crate::guesses::{Guesses, mix};
use context_syntax::Label;
use label_base::OutOfMemory;
use std::alloc::Global;
use std::collections::BTreeMap;
use std::marker::Model;

// A label, and the bytes that spell it.
#[derive(Drop)]
pub struct Spelled {
    pub text: Vec<u8>,
    pub label: Label,
}

// Labels, seen as their list: each spelling once. A label is found by its number, from 0 on.
#[derive(Drop)]
pub struct Labels {
    known: Vec<Spelled>,
    // The number of each spelling. These are in order, since whoever chooses labels could choose
    // what a hash puts together. Nothing is claimed of them: what they give is compared.
    numbers: BTreeMap<Vec<u8>, u32>,
    // Guesses of numbers, by what bytes mix to, and the number that was last asked for.
    guesses: Guesses,
    last: u32,
}

impl Model for Labels {
    ghost use Rattle.std.specs.Prelude.{List};
    ghost use Rattle.context_syntax.specs.declared.label.Label.{Label};
    ghost use Rattle.find_records.specs.Labels.{AreLabelsSpelled, labels_in};

    ghost Value = { List Label };

    ghost view = { λ l. labels_in l.known.items };

    ghost invariant = { λ l. AreLabelsSpelled l.known.items };
}

// Whether the bytes spell the label with a number, as it is kept.
fn is_spelled(known: &[Spelled], number: u32, bytes: &[u8]) -> bool
    ensures { result ≡ true → AreLabelsSpelled known.now
        → slice_get (labels_in known.now) number ≡ Some (label_of bytes.now) }
{
    match known.get(number as usize) {
        Some(found) => found.text.as_slice() == bytes,
        None => false,
    }
}

// Bytes, mixed to one word.
fn mix_bytes(bytes: &[u8]) -> u64 {
    let mut mixed = 0u64;
    let mut left = bytes;
    'words: while let Some((word, rest)) = left.split_first_chunk::<8>() {
        mixed = mix(mixed, u64::from_le_bytes(*word));
        left = rest;
    }
    'bytes: for byte in left {
        mixed = mix(mixed, u64::from(*byte));
    }
    mixed
}

// The number, if the bytes spell the label that it has.
fn number_known(known: &[Spelled], number: Option<u32>, bytes: &[u8]) -> Option<u32>
    ensures { IfSome result (λ number. AreLabelsSpelled known.now
        → slice_get (labels_in known.now) number ≡ Some (label_of bytes.now)) }
{
    let number = number?;
    if is_spelled(known, number, bytes) {
        return Some(number);
    }
    None
}

// The number of a spelling that is there: the last one, or one that is guessed or found.
fn number_in(
    known: &[Spelled],
    numbers: &BTreeMap<Vec<u8>, u32>,
    guesses: &mut Guesses,
    last: u32,
    bytes: &[u8],
) -> Option<u32>
    ensures { IfSome result (λ number. AreLabelsSpelled known.now
        → slice_get (labels_in known.now) number ≡ Some (label_of bytes.now)) }
{
    if is_spelled(known, last, bytes) {
        return Some(last);
    }
    let mixed = mix_bytes(bytes);
    let guess = guesses.get(mixed);
    if is_spelled(known, guess, bytes) {
        return Some(guess);
    }
    let number = number_known(known, numbers.get(bytes).copied(), bytes)?;
    guesses.keep(mixed, number);
    Some(number)
}

// Notes the number of a spelling.
fn note(
    alloc: Global,
    numbers: &mut BTreeMap<Vec<u8>, u32>,
    bytes: &[u8],
    number: u32,
) -> Result<(), OutOfMemory> {
    let _ = numbers.insert(Vec::from_slice(alloc, bytes)?, number)?;
    Ok(())
}

// The label that the bytes spell, beside them.
fn spell(alloc: Global, bytes: &[u8]) -> Result<Spelled, OutOfMemory>
    ensures text { IfOk result (λ spelled. spelled.text.items ≡ bytes.now) }
    ensures label { IfOk result (λ spelled. spelled.label ≡ label_of bytes.now) }
{
    let text = Vec::from_slice(alloc, bytes)?;
    let label = Label::read(alloc, bytes)?;
    Ok(Spelled { text, label })
}

// Adds the label that the bytes spell behind the others: its number.
fn add_label(
    alloc: Global,
    known: &mut Vec<Spelled>,
    numbers: &mut BTreeMap<Vec<u8>, u32>,
    bytes: &[u8],
) -> Result<u32, OutOfMemory>
    requires { length known.old.items < 2 ^ 32 - 1 }
    ensures number { IfOk result (λ number. number ≡ length known.old.items) }
    ensures added { OnOk result (labels_in known.new.items
        ≡ labels_in known.old.items ++ label_of bytes.now ∷ []) }
    ensures spelled { AreLabelsSpelled known.old.items → AreLabelsSpelled known.new.items }
    ensures err { OnErr result (known.new.items ≡ known.old.items) }
{
    let number = known.len() as u32;
    note(alloc, numbers, bytes, number)?;
    let spelled = spell(alloc, bytes)?;
    known.push(spelled)?;
    Ok(number)
}

impl Labels {
    // No labels.
    pub fn new(alloc: Global) -> Labels
        ensures { result ≡ [] }
    {
        Labels {
            known: Vec::new(alloc),
            numbers: BTreeMap::new(alloc),
            guesses: Guesses::new(alloc),
            last: 0,
        }
    }

    // How many labels there are.
    pub fn len(&self) -> usize
        ensures { result ≡ length self.now }
    {
        self.known.len()
    }

    // The label with a number.
    pub fn get(&self, number: u32) -> &Label
        requires { number < length self.now }
        ensures { slice_get self.now number ≡ Some result.now }
    {
        &self.known[number as usize].label
    }

    // The number of the label that the bytes spell, which is added if it is new. There is no memory
    // for more labels than there are numbers.
    pub fn number_of(&mut self, alloc: Global, bytes: &[u8]) -> Result<u32, OutOfMemory>
        requires { length self.old < 2 ^ 32 }
        ensures number { IfOk result (λ number.
            slice_get self.new number ≡ Some (label_of bytes.now)) }
        ensures extends { Extends self.old self.new }
        ensures same { OnErr result (self.new ≡ self.old) }
        ensures few { length self.new < 2 ^ 32 }
        ensures one_more { length self.new ≤ length self.old + 1 }
    {
        let known = self.known.as_slice();
        let numbers = &self.numbers;
        if let Some(number) = number_in(known, numbers, &mut self.guesses, self.last, bytes) {
            self.last = number;
            return Ok(number);
        }
        if self.known.len() >= u32::MAX as usize {
            return Err(OutOfMemory);
        }
        self.guesses.make_room(alloc)?;
        let number = add_label(alloc, &mut self.known, &mut self.numbers, bytes)?;
        self.last = number;
        Ok(number)
    }
}
