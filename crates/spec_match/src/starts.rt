ghost use Rattle.std.specs.Prelude.{◌≡◌, ◌<◌, ◌%◌, ◌^◌, ◌&&◌, ◌==◌, IfOk, OnOk, length, map};
ghost use Rattle.file_paths.specs.PathRef.{path_of};
ghost use Rattle.label_base.specs.Bounded.{greatest_below};
ghost use Rattle.spec_match.specs.Chains.{AreStartsOf, fits_from, hashed, is_in_bucket, mixed};
ghost use Rattle.pattern_match.specs.States.{HasRoomFor};
ghost use Rattle.pattern_syntax.specs.Literal.{literal_start_of};
ghost use Rattle.spec_match.specs.Found.{AreAddedAbove, AreAddedIn};
ghost use Rattle.spec_match.specs.LastMatch.{fits};
ghost use Rattle.spec_match.specs.Remembering.{IsAnswer};
ghost use Rattle.spec_match.specs.StatesFor.{AreStatesFor, patterns_of, spec_in};

use crate::answering::{Query, is_fit};
use crate::compiled_spec::CompiledSpec;
use crate::relevant::{Sought, try_from};
use crate::trials::Trials;
use label_base::{OutOfMemory, greater};
use std::alloc::Global;

// A text's hash is that of a number whose digits are the bytes, in this base, up to a prime below
// 2^32.
const BASE: u64 = 257;

const MODULUS: u64 = 4_294_967_291;

/// Which specifications are gone through: those in a bucket whose literal start has so many bytes.
#[derive(Clone, Copy)]
struct Chain {
    bucket: usize,
    at: usize,
}

/// Specifications by the bytes that every text of their pattern begins with, so that a text that
/// begins otherwise needn't be compared to them: for each bucket of hashes its specifications, from
/// the last one back.
#[derive(Drop)]
pub struct Starts {
    // For each bucket one more than the index of its last specification, or 0.
    pub(crate) heads: Vec<u32>,
    // For each specification the same of the one before it in its bucket.
    pub(crate) previous: Vec<u32>,
}

// The hash of a text with a byte more.
#[tactic(auto, unfolding(crate::specs::Chains::mixed))]
pub fn mixed(hash: u64, byte: u8) -> u64
    requires { hash < 2 ^ 32 }
    ensures value { result ≡ mixed hash byte }
    ensures bound { result < 2 ^ 32 }
{
    (hash * BASE + byte as u64) % MODULUS
}

fn hash_of(text: &[u8]) -> u64
    ensures { result ≡ hashed 0 text.now }
{
    let mut hash = 0;
    'bytes: for i in 0..text.len() {
        hash = mixed(hash, text[i]);
    }
    hash
}

// Whether a specification fits a text, and its pattern's literal start has so many bytes.
fn does_fit_from(rule: &CompiledSpec, trials: &mut Trials, at: usize, query: &Query<'_>) -> bool
    requires { HasRoomFor rule.now.spec.pattern trials.old.states.room }
    ensures room { trials.new.states.room ≡ trials.old.states.room }
    ensures value { result ≡ ((length (literal_start_of rule.now.spec.pattern) == at)
        && fits query.now.asked query.now.text.now rule.now.spec) }
{
    if rule.start().len() != at {
        return false;
    }
    is_fit(rule, trials, query)
}

impl Starts {
    /// The starts of the patterns of a list.
    pub fn new(alloc: Global, rules: &[CompiledSpec]) -> Result<Starts, OutOfMemory>
        requires { length rules.now < 2 ^ 32 }
        ensures { IfOk result (λ starts. AreStartsOf rules.now starts) }
    {
        let count = 2 * rules.len() + 1;
        let mut heads = vec![in alloc; 0u32; count]?;
        let mut previous = Vec::with_capacity(alloc, rules.len())?;
        'rules: for i in 0..rules.len() {
            let rule = &rules[i];
            let hash = hash_of(rule.start());
            let bucket = (hash % count as u64) as usize;
            let last = heads[bucket];
            previous.push(last)?;
            heads[bucket] = i as u32 + 1;
        }
        Ok(Starts { heads, previous })
    }

    // The last specification of a chain that fits.
    fn last_in(
        &self,
        rules: &[CompiledSpec],
        trials: &mut Trials,
        chain: Chain,
        query: &Query<'_>,
    ) -> Option<usize>
        requires starts { AreStartsOf rules.now self.now }
        requires bucket { chain.bucket < length self.now.heads.items }
        requires states { AreStatesFor (patterns_of rules.now) trials.old.states }
        ensures states { AreStatesFor (patterns_of rules.now) trials.new.states }
        ensures found { result ≡ greatest_below (length rules.now)
            (λ i. is_in_bucket rules.now (length self.now.heads.items) chain.bucket i
            && fits_from chain.at query.now.asked query.now.text.now rules.now i) }
    {
        let mut next = self.heads[chain.bucket] as usize;
        'chain: while next > 0 {
            let i = next - 1;
            let rule = &rules[i];
            if does_fit_from(rule, trials, chain.at, query) {
                return Some(i);
            }
            next = self.previous[i] as usize;
        }
        None
    }

    /// The last of all specifications that fits: those are tried with whose pattern's start the
    /// text begins.
    pub fn last_fit(
        &self,
        rules: &[CompiledSpec],
        trials: &mut Trials,
        query: &Query<'_>,
    ) -> Option<usize>
        requires starts { AreStartsOf rules.now self.now }
        requires states { AreStatesFor (patterns_of rules.now) trials.old.states }
        ensures states { AreStatesFor (patterns_of rules.now) trials.new.states }
        ensures answer { IsAnswer query.now.asked query.now.text.now (map spec_in rules.now)
            result }
    {
        let text = query.text;
        let count = self.heads.len() as u64;
        let mut hash = 0u64;
        let mut found = self.last_in(rules, trials, Chain { bucket: 0, at: 0 }, query);
        'bytes: for k in 0..text.len() {
            hash = mixed(hash, text[k]);
            let bucket = (hash % count) as usize;
            let other = self.last_in(rules, trials, Chain { bucket, at: k + 1 }, query);
            found = greater(found, other);
        }
        found
    }

    // Adds those of a chain that can decide at or below a path.
    fn add_in(
        &self,
        sought: &Sought<'_, '_>,
        trials: &mut Trials,
        chain: Chain,
        found: &mut Vec<u32>,
    ) -> Result<(), OutOfMemory>
        requires count { length sought.now.rules.now < 2 ^ 32 }
        requires starts { AreStartsOf sought.now.rules.now self.now }
        requires bucket { chain.bucket < length self.now.heads.items }
        requires states { AreStatesFor (patterns_of sought.now.rules.now) trials.old.states }
        ensures states { AreStatesFor (patterns_of sought.now.rules.now) trials.new.states }
        ensures added { OnOk result (AreAddedIn (path_of sought.now.path) sought.now.rules.now
            (length self.now.heads.items) chain.bucket chain.at
            found.old.items found.new.items) }
    {
        let mut next = self.heads[chain.bucket] as usize;
        'chain: while next > 0 {
            let i = next - 1;
            try_from(sought, trials, chain.at, i, found)?;
            next = self.previous[i] as usize;
        }
        Ok(())
    }

    /// Adds the specifications that can decide at or below a path, of those with whose pattern's
    /// start a text begins. Answers the text's hash.
    pub fn add_above(
        &self,
        sought: &Sought<'_, '_>,
        trials: &mut Trials,
        text: &[u8],
        found: &mut Vec<u32>,
    ) -> Result<u64, OutOfMemory>
        requires count { length sought.now.rules.now < 2 ^ 32 }
        requires starts { AreStartsOf sought.now.rules.now self.now }
        requires states { AreStatesFor (patterns_of sought.now.rules.now) trials.old.states }
        ensures states { AreStatesFor (patterns_of sought.now.rules.now) trials.new.states }
        ensures added { OnOk result (AreAddedAbove (path_of sought.now.path) sought.now.rules.now
            text.now found.old.items found.new.items) }
        ensures hash { IfOk result (λ hash. hash ≡ hashed 0 text.now) }
        ensures bound { IfOk result (λ hash. hash < 2 ^ 32) }
    {
        let count = self.heads.len() as u64;
        let mut hash = 0u64;
        self.add_in(sought, trials, Chain { bucket: 0, at: 0 }, found)?;
        'bytes: for k in 0..text.len() {
            hash = mixed(hash, text[k]);
            let bucket = (hash % count) as usize;
            self.add_in(sought, trials, Chain { bucket, at: k + 1 }, found)?;
        }
        Ok(hash)
    }
}
