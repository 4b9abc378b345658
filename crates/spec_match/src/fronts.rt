ghost use Rattle.std.specs.Prelude.{◌≡◌, ◌<◌, ◌≤◌, ◌/◌, ◌^◌, ◌++◌, ℕ, false, IfOk, OnOk, length};
ghost use Rattle.std.specs.Prelude.{slice_index};
ghost use Rattle.std.specs.List.Sorted.{IsNonDecreasing};
ghost use Rattle.file_paths.specs.PathRef.{path_of};
ghost use Rattle.spec_match.specs.Found.{AreAddedBelow, IsAddedOf};
ghost use Rattle.spec_match.specs.Fronts.{AreFronts, AreFrontsIf, all_keys};
ghost use Rattle.spec_match.specs.Fronts.{front_key, front_keys, key_if};
ghost use Rattle.spec_match.specs.StatesFor.{AreStatesFor, patterns_of};

use crate::compiled_spec::CompiledSpec;
use crate::relevant::{Sought, try_rule};
use crate::starts::mixed;
use crate::trials::Trials;
use label_base::OutOfMemory;
use std::alloc::Global;

// A hash is below it, and so is an index.
const SPAN: u64 = 4_294_967_296;

/// Specifications by the fronts of their literal starts that end with a slash, so that those are
/// found whose texts all lie below a path: for each front its hash and the specification's index as
/// one number. They are made where they are first wanted.
#[derive(Drop)]
pub struct Fronts {
    pub(crate) are_made: bool,
    // In ascending order.
    pub(crate) keys: Vec<u64>,
}

fn key(hash: u64, i: usize) -> u64
    requires hash { hash < 2 ^ 32 }
    requires index { i < 2 ^ 32 }
    ensures { result ≡ front_key hash i }
{
    hash * SPAN + i as u64
}

// Adds the key of a front with a hash, if it ends with a slash.
fn add_if_front(keys: &mut Vec<u64>, byte: u8, hash: u64, i: usize) -> Result<(), OutOfMemory>
    requires hash { hash < 2 ^ 32 }
    requires index { i < 2 ^ 32 }
    ensures { OnOk result (keys.new.items ≡ keys.old.items ++ key_if byte hash i) }
{
    if byte == b'/' {
        keys.push(key(hash, i))?;
    }
    Ok(())
}

// Adds the keys of a literal start.
fn add_fronts(keys: &mut Vec<u64>, start: &[u8], i: usize) -> Result<(), OutOfMemory>
    requires { i < 2 ^ 32 }
    ensures { OnOk result (keys.new.items ≡ keys.old.items ++ front_keys i 0 start.now) }
{
    let mut hash = 0;
    'bytes: for byte in start {
        hash = mixed(hash, *byte);
        add_if_front(keys, *byte, hash, i)?;
    }
    Ok(())
}

fn all_keys(alloc: Global, rules: &[CompiledSpec]) -> Result<Vec<u64>, OutOfMemory>
    requires { length rules.now < 2 ^ 32 }
    ensures { IfOk result (λ keys. keys.items ≡ all_keys 0 (patterns_of rules.now)) }
{
    let mut keys = Vec::new(alloc);
    'rules: for i in 0..rules.len() {
        add_fronts(&mut keys, rules[i].start(), i)?;
    }
    Ok(keys)
}

fn sorted_keys(alloc: Global, rules: &[CompiledSpec]) -> Result<Vec<u64>, OutOfMemory>
    requires { length rules.now < 2 ^ 32 }
    ensures { IfOk result (λ keys. AreFronts (patterns_of rules.now) keys.items) }
{
    let mut keys = all_keys(alloc, rules)?;
    keys.sort_unstable();
    Ok(keys)
}

// How many keys have a lower hash.
fn count_before(keys: &[u64], hash: u64) -> usize
    requires { IsNonDecreasing keys.now }
    ensures { (k : ℕ) → k < length keys.now
        → (k < result → slice_index keys.now k / SPAN < hash)
        × (result ≤ k → hash ≤ slice_index keys.now k / SPAN) }
{
    keys.partition_point(|key| *key / SPAN < hash)
}

// How many have no higher one.
fn count_to(keys: &[u64], hash: u64) -> usize
    requires { IsNonDecreasing keys.now }
    ensures bound { result ≤ length keys.now }
    ensures parted { (k : ℕ) → k < length keys.now
        → (k < result → slice_index keys.now k / SPAN ≤ hash)
        × (result ≤ k → hash < slice_index keys.now k / SPAN) }
{
    keys.partition_point(|key| *key / SPAN <= hash)
}

// Adds the specification of a key, if it can decide at or below a path.
fn try_key(
    sought: &Sought<'_, '_>,
    trials: &mut Trials,
    key: u64,
    found: &mut Vec<u32>,
) -> Result<(), OutOfMemory>
    requires count { length sought.now.rules.now < 2 ^ 32 }
    requires states { AreStatesFor (patterns_of sought.now.rules.now) trials.old.states }
    ensures states { AreStatesFor (patterns_of sought.now.rules.now) trials.new.states }
    ensures added { OnOk result (IsAddedOf (path_of sought.now.path) sought.now.rules.now key
        found.old.items found.new.items) }
{
    let rules = sought.rules;
    let i = (key % SPAN) as usize;
    if i >= rules.len() {
        return Ok(());
    }
    try_rule(sought, trials, i, found)
}

/// Adds the specifications that can decide at or below a path, of those that have a front with a
/// hash.
pub fn add_below(
    keys: &[u64],
    sought: &Sought<'_, '_>,
    trials: &mut Trials,
    hash: u64,
    found: &mut Vec<u32>,
) -> Result<(), OutOfMemory>
    requires count { length sought.now.rules.now < 2 ^ 32 }
    requires fronts { AreFronts (patterns_of sought.now.rules.now) keys.now }
    requires states { AreStatesFor (patterns_of sought.now.rules.now) trials.old.states }
    ensures states { AreStatesFor (patterns_of sought.now.rules.now) trials.new.states }
    ensures added { OnOk result (AreAddedBelow (path_of sought.now.path) sought.now.rules.now
        keys.now hash found.old.items found.new.items) }
{
    let first = count_before(keys, hash);
    let end = count_to(keys, hash);
    'keys: for at in first..end {
        try_key(sought, trials, keys[at], found)?;
    }
    Ok(())
}

impl Fronts {
    /// None were made yet.
    pub fn new(alloc: Global) -> Fronts
        ensures { result.are_made ≡ false }
    {
        Fronts {
            are_made: false,
            keys: Vec::new(alloc),
        }
    }

    /// Makes them, if they aren't made yet.
    pub fn prepare(&mut self, alloc: Global, rules: &[CompiledSpec]) -> Result<(), OutOfMemory>
        requires count { length rules.now < 2 ^ 32 }
        requires own { AreFrontsIf (patterns_of rules.now) self.old.are_made self.old.keys.items }
        ensures own { AreFrontsIf (patterns_of rules.now) self.new.are_made self.new.keys.items }
        ensures made { OnOk result (AreFronts (patterns_of rules.now) self.new.keys.items) }
    {
        if self.are_made {
            return Ok(());
        }
        self.keys = sorted_keys(alloc, rules)?;
        self.are_made = true;
        Ok(())
    }
}
