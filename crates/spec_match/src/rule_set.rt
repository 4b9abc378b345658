ghost use Rattle.std.specs.Prelude.{◌≡◌, ◌+◌, ◌<◌, ◌≤◌, ◌^◌, [], false, IfOk, IfSome, Some};
ghost use Rattle.std.specs.Prelude.{length, map};
ghost use Rattle.std.specs.Prelude.{option_and_then, slice_get};
ghost use Rattle.file_paths.specs.Path.{path_text};
ghost use Rattle.file_paths.specs.PathRef.{path_of};
ghost use Rattle.spec_match.specs.LastMatch.{Decides, last_index, last_match};
ghost use Rattle.spec_match.specs.Relevant.{relevant_at};
ghost use Rattle.spec_match.specs.Remembering.{kept};
ghost use Rattle.spec_match.specs.StatesFor.{AreStatesFor, HasRoomForEach, patterns_of, spec_in};
ghost use Rattle.spec_match.specs.Scratches.{IsScratchOf};
ghost use Rattle.spec_match.specs.Tables.{kept_in};

use crate::answering::Query;
use crate::compiled_spec::CompiledSpec;
use crate::fronts::Fronts;
use crate::relevant::Sought;
use crate::scratch::Scratch;
use crate::starts::Starts;
use crate::table::Table;
use crate::trials::Trials;
use crate::workspace::Workspace;
use file_paths::PathRef;
use label_base::{Asked, OutOfMemory, Row, Steps};
use pattern_match::States;
use spec_reader::Spec;
use std::alloc::Global;
use std::marker::Model;
use std::sync::ledger::Ledger;

// For how many lists, specifications in all of them, and words of their marks a scratch reserves
// room: 18 MB, of which only what is used is touched.
const MOST_LISTS: usize = 16384;

const MOST_MEMBERS: usize = 262_144;

const MOST_WORDS: usize = 524_288;

// For how many at most where lists are whole: 11 MB more.
const MOST_WHOLE_LISTS: usize = 8192;

const MOST_WHOLE_MEMBERS: usize = 262_144;

const MOST_WHOLE_WORDS: usize = 262_144;

/// A list of specifications in which the last match is looked for, seen as that list.
pub struct RuleSet {
    pub(crate) rules: Vec<CompiledSpec>,
    // Where those are found whose literal start a text begins with.
    starts: Starts,
}

// By hand: one call for an owner, where a derived drop is a step for each field.
impl Drop for RuleSet {
    fn drop(self) {
        let RuleSet {
            rules: _,
            starts: _,
        } = self;
    }
}

impl Model for RuleSet {
    ghost use Rattle.std.specs.Prelude.{List, length, map, ◌<◌, ◌^◌};
    ghost use Rattle.std.specs.Coded.{codes};
    ghost use Rattle.pattern_syntax.specs.Tree.{tree_code};
    ghost use Rattle.spec_reader.specs.SpecValue.{SpecValue};

    ghost Value = { List SpecValue };

    ghost coded = { Prim.hlevel (codes, tree_code) };

    ghost use Rattle.spec_match.specs.StatesFor.{spec_in};
    ghost use Rattle.spec_match.specs.Chains.{AreStartsOf};

    ghost view = { λ s. map spec_in s.rules.items };

    ghost invariant = { λ s. record {
      count : length s.rules.items < 2 ^ 32;
      starts : AreStartsOf s.rules.items s.starts;
    } };
}

fn rules_of(alloc: Global, specs: Vec<Spec>) -> Result<Vec<CompiledSpec>, OutOfMemory>
    ensures { IfOk result (λ rules. map spec_in rules.items ≡ specs.items) }
{
    let mut rules = Vec::with_capacity(alloc, specs.len())?;
    'specs: for spec in specs {
        rules.push(CompiledSpec::new(alloc, spec)?)?;
    }
    Ok(rules)
}

fn wider(one: usize, other: usize) -> usize
    ensures one { one ≤ result }
    ensures other { other ≤ result }
{
    if one < other { other } else { one }
}

// For how many words of marks there must be room.
fn widest(rules: &[CompiledSpec]) -> usize
    ensures { HasRoomForEach rules.now (length rules.now) result }
{
    let mut most = 0;
    'rules: for rule in rules {
        most = wider(most, rule.words());
    }
    most
}

fn trials_of(alloc: Global, rules: &[CompiledSpec]) -> Result<Trials, OutOfMemory>
    ensures { IfOk result (λ trials. AreStatesFor (patterns_of rules.now) trials.states) }
{
    let states = States::with_room(alloc, widest(rules))?;
    Ok(Trials { states, tried: 0 })
}

// A table with whole lists, with room for so many lists, specifications and words, as far as it may
// have it.
fn whole_table(
    alloc: Global,
    lists: usize,
    members: usize,
    words: usize,
) -> Result<Table, OutOfMemory>
    ensures kept { IfOk result (λ table. kept_in table ≡ kept false [] [] [] []) }
    ensures draft { IfOk result (λ table. table.lists.draft ≡ []) }
    ensures trail { IfOk result (λ table. table.trail.known ≡ 0) }
{
    Table::new(
        alloc,
        false,
        lists.min(MOST_WHOLE_LISTS),
        members.min(MOST_WHOLE_MEMBERS),
        words.min(MOST_WHOLE_WORDS),
    )
}

impl RuleSet {
    /// Makes a list of specifications ready.
    pub fn new(alloc: Global, specs: Row<Spec>) -> Result<RuleSet, OutOfMemory>
        requires { length specs < 2 ^ 32 }
        ensures { IfOk result (λ rules. rules ≡ specs) }
    {
        let rules = rules_of(alloc, specs.into_vec())?;
        let starts = Starts::new(alloc, rules.as_slice())?;
        Ok(RuleSet { rules, starts })
    }

    /// How many specifications there are.
    pub fn len(&self) -> u32
        ensures { result ≡ length self.now }
    {
        self.rules.len() as u32
    }

    /// The specification at a place.
    pub fn spec(&self, i: u32) -> &Spec
        requires { i < length self.now }
        ensures { slice_get self.now i ≡ Some result.now }
    {
        &self.rules[i as usize].spec
    }

    /// The index of the last specification whose kind applies to what is asked and whose language
    /// holds the path's text, or none where there is no such specification. It takes no memory, and
    /// counts one step.
    ///
    /// A specification without a kind applies always, one with a kind to it and to [`Asked::Any`].
    pub fn last_match<L: Ledger>(
        &self,
        scratch: &mut Scratch,
        path: &PathRef<'_>,
        asked: Asked,
        steps: &mut Steps<L>,
    ) -> Option<u32>
        requires { IsScratchOf self.now scratch.old }
        ensures own { IsScratchOf self.now scratch.new }
        ensures within { IfSome result (λ i. i < length self.now) }
        ensures index { result ≡ last_index asked (path_text (path_of path.now)) self.now }
        ensures member { option_and_then (slice_get self.now) result
            ≡ last_match asked (path_text (path_of path.now)) self.now }
        ensures decides { Decides asked (path_text (path_of path.now)) self.now result }
        ensures count { steps.new ≡ steps.old + 1 }
    {
        steps.tick();
        let query = Query {
            text: path.as_text(),
            asked,
        };
        match scratch
            .room
            .look_up(self.rules.as_slice(), &self.starts, &query)
        {
            Some(i) => Some(i as u32),
            None => None,
        }
    }

    /// The indices of the specifications that can decide at or below a path, in ascending order:
    /// those whose language holds the path's text or a text that begins with it and a slash, and
    /// for `/` a text that begins with a slash.
    pub fn relevant(
        &self,
        alloc: Global,
        scratch: &mut Scratch,
        path: &PathRef<'_>,
    ) -> Result<Vec<u32>, OutOfMemory>
        requires { IsScratchOf self.now scratch.old }
        ensures own { IsScratchOf self.now scratch.new }
        ensures value { IfOk result (λ found.
            found.items ≡ relevant_at (path_of path.now) self.now) }
    {
        let sought = Sought {
            rules: self.rules.as_slice(),
            path: *path,
        };
        scratch.room.relevant(alloc, &sought, &self.starts)
    }
}

impl Scratch {
    /// Reserves the states in which the patterns of a list are matched.
    pub fn new(alloc: Global, rules: &RuleSet) -> Result<Scratch, OutOfMemory>
        ensures { IfOk result (λ scratch. IsScratchOf rules.now scratch) }
    {
        Scratch::with_room(alloc, rules, MOST_LISTS, MOST_MEMBERS, MOST_WORDS)
    }

    /// The same with room for so many lists, so many specifications in all of them, and so many
    /// words of marks, in each table.
    pub fn with_room(
        alloc: Global,
        rules: &RuleSet,
        lists: usize,
        members: usize,
        words: usize,
    ) -> Result<Scratch, OutOfMemory>
        ensures { IfOk result (λ scratch. IsScratchOf rules.now scratch) }
    {
        let room = Workspace {
            trials: trials_of(alloc, rules.rules.as_slice())?,
            table: Table::new(alloc, true, lists, members, words)?,
            whole: whole_table(alloc, lists, members, words)?,
            fronts: Fronts::new(alloc),
        };
        Ok(Scratch {
            room: Box::new(alloc, room)?,
        })
    }
}
