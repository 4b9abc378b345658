ghost use Rattle.std.specs.Prelude.{◌≡◌, ◌<◌, ◌^◌, ◌++◌, ◌∷◌, [], false, IfOk, IfSome, OnOk};
ghost use Rattle.std.specs.Prelude.{length, map};
ghost use Rattle.std.specs.List.{All};
ghost use Rattle.file_paths.specs.Path.{Path, is_root_path, path_text};
ghost use Rattle.pattern_match.specs.States.{AreStatesOf, HasRoomFor, StandsFor};
ghost use Rattle.spec_match.specs.Alive.{AreAlive, IsOwn, Leads, alive_at};
ghost use Rattle.spec_match.specs.Carrying.{IsAliveAt};
ghost use Rattle.spec_match.specs.LastMatch.{fits};
ghost use Rattle.spec_match.specs.Relevant.{can_decide, relevant_at};
ghost use Rattle.spec_match.specs.Remembering.{IsAnswer};
ghost use Rattle.spec_match.specs.StatesFor.{AreStatesFor, patterns_of, spec_in};
ghost use Rattle.spec_match.specs.Stepping.{GoesOn, IsBegun};

use crate::compiled_spec::CompiledSpec;
use crate::members::Members;
use crate::relevant::add_if;
use crate::trials::Trials;
use label_base::{Asked, OutOfMemory};
use pattern_match::States;
use std::alloc::Global;

/// What is looked up for a child of the path for which a list is, by its name.
#[derive(Clone, Copy)]
pub struct ChildQuery<'a> {
    /// Whether the path is `/`.
    pub is_root: bool,
    pub name: &'a [u8],
    pub asked: Asked,
}

// A member of a list.
#[derive(Clone, Copy)]
struct MemberRef<'a> {
    list: &'a Members,
    k: usize,
}

// Adds a specification in the states before the first byte of a text.
fn start_one(
    alloc: Global,
    rule: &CompiledSpec,
    index: usize,
    to: &mut Members,
) -> Result<(), OutOfMemory>
    ensures { OnOk result (IsBegun rule.now.spec.pattern index to.old to.new) }
{
    let mut states = rule.states(alloc)?;
    rule.restart(&mut states);
    to.add(index, &states, rule.wants(states.seen()))
}

/// All specifications, before the first byte of a text, from the last one back.
pub fn start(alloc: Global, rules: &[CompiledSpec]) -> Result<Members, OutOfMemory>
    ensures own { IfOk result (λ to. All (IsOwn (patterns_of rules.now)) to) }
    ensures alive { IfOk result (λ to.
        AreAlive (patterns_of rules.now) [] (length (patterns_of rules.now)) to) }
{
    let mut to = Members::empty(alloc);
    let mut left = rules.len();
    'rules: while left > 0 {
        left -= 1;
        start_one(alloc, &rules[left], left, &mut to)?;
    }
    Ok(to)
}

// Makes states those of a member of a list.
fn load(member: &MemberRef<'_>, rule: &CompiledSpec, states: &mut States)
    requires within { member.now.k < length member.now.list.now }
    requires room { HasRoomFor rule.now.spec.pattern states.old.room }
    requires kept { AreStatesOf rule.now.spec.pattern
        (alive_at member.now.list.now member.now.k).states }
    ensures room { states.new.room ≡ states.old.room }
    ensures value { states.new.known ≡ (alive_at member.now.list.now member.now.k).states }
{
    member.list.load(member.k, states);
}

// Adds a member of a list as it is behind a text more, if it is still alive there.
fn go_on_one(
    alloc: Global,
    rule: &CompiledSpec,
    member: &MemberRef<'_>,
    text: &[u8],
    to: &mut Members,
) -> Result<(), OutOfMemory>
    requires within { member.now.k < length member.now.list.now }
    requires kept { AreStatesOf rule.now.spec.pattern
        (alive_at member.now.list.now member.now.k).states }
    ensures { OnOk result (GoesOn rule.now.spec.pattern text.now
        (alive_at member.now.list.now member.now.k) to.old to.new) }
{
    let mut states = rule.states(alloc)?;
    load(member, rule, &mut states);
    if !rule.read_on(&mut states, text) {
        return Ok(());
    }
    let index = member.list.index(member.k);
    to.add(index, &states, rule.wants(states.seen()))
}

/// The members of a list that are alive behind a text more.
pub fn go_on(
    alloc: Global,
    rules: &[CompiledSpec],
    from: &Members,
    text: &[u8],
) -> Result<Members, OutOfMemory>
    requires { All (IsOwn (patterns_of rules.now)) from.now }
    ensures own { IfOk result (λ to. All (IsOwn (patterns_of rules.now)) to) }
    ensures leads { IfOk result (λ to. Leads (patterns_of rules.now) text.now from.now to) }
{
    let mut to = Members::empty(alloc);
    'alive: for k in 0..from.len() {
        let i = from.index(k);
        let member = MemberRef { list: from, k };
        go_on_one(alloc, &rules[i], &member, text, &mut to)?;
    }
    Ok(to)
}

/// The members of a list that are alive behind the text of a child of the path for which they are.
pub fn enter(
    alloc: Global,
    rules: &[CompiledSpec],
    from: &Members,
    is_root: bool,
    name: &[u8],
) -> Result<Members, OutOfMemory>
    requires { All (IsOwn (patterns_of rules.now)) from.now }
    ensures own { IfOk result (λ to. All (IsOwn (patterns_of rules.now)) to) }
    ensures alive { IfOk result (λ to. (path : Path) → IsAliveAt rules.now is_root from.now path
        → IsAliveAt rules.now false to (path ++ name.now ∷ [])) }
{
    if is_root {
        return go_on(alloc, rules, from, name);
    }
    let below = go_on(alloc, rules, from, b"/")?;
    go_on(alloc, rules, &below, name)
}

// Whether a specification fits the text of a child of the path for which its states are. It counts
// as tried where the whole text can be read.
fn does_fit_child(rule: &CompiledSpec, trials: &mut Trials, query: &ChildQuery<'_>) -> bool
    requires { AreStatesOf rule.now.spec.pattern trials.old.states.known }
    ensures room { trials.new.states.room ≡ trials.old.states.room }
    ensures value { (path : Path) → query.now.is_root ≡ is_root_path path
        → StandsFor rule.now.spec.pattern trials.old.states.known (path_text path)
        → result ≡ fits query.now.asked (path_text (path ++ query.now.name.now ∷ []))
        rule.now.spec }
{
    if !rule.read_child(&mut trials.states, query.is_root, query.name) {
        return false;
    }
    trials.tried = trials.tried.saturating_add(1);
    rule.fits_read(&mut trials.states, query.asked)
}

/// The first member of a list that fits the text of a child of the path for which the list is. The
/// list goes from the last one back, so it is the last match.
pub fn first_child_fit(
    rules: &[CompiledSpec],
    trials: &mut Trials,
    from: &Members,
    query: &ChildQuery<'_>,
) -> Option<usize>
    requires states { AreStatesFor (patterns_of rules.now) trials.old.states }
    requires own { All (IsOwn (patterns_of rules.now)) from.now }
    ensures states { AreStatesFor (patterns_of rules.now) trials.new.states }
    ensures within { IfSome result (λ i. i < length rules.now) }
    ensures answer { (path : Path) → IsAliveAt rules.now query.now.is_root from.now path
        → IsAnswer query.now.asked (path_text (path ++ query.now.name.now ∷ []))
        (map spec_in rules.now) result }
{
    'alive: for k in 0..from.len() {
        let i = from.index(k);
        let rule = &rules[i];
        load(&MemberRef { list: from, k }, rule, &mut trials.states);
        if does_fit_child(rule, trials, query) {
            return Some(i);
        }
    }
    None
}

// Whether a member of a list can decide at or below the path for which the list is.
fn can_member_decide(
    alloc: Global,
    rule: &CompiledSpec,
    member: &MemberRef<'_>,
    is_root: bool,
) -> Result<bool, OutOfMemory>
    requires within { member.now.k < length member.now.list.now }
    requires kept { AreStatesOf rule.now.spec.pattern
        (alive_at member.now.list.now member.now.k).states }
    ensures { IfOk result (λ can. (path : Path) → is_root ≡ is_root_path path
        → StandsFor rule.now.spec.pattern (alive_at member.now.list.now member.now.k).states
        (path_text path)
        → can ≡ can_decide path rule.now.spec) }
{
    let mut states = rule.states(alloc)?;
    load(member, rule, &mut states);
    Ok(rule.can_decide_behind(&mut states, is_root))
}

/// The indices of the members of a list that can decide at or below the path for which it is, in
/// ascending order.
pub fn relevant_members(
    alloc: Global,
    rules: &[CompiledSpec],
    from: &Members,
    is_root: bool,
) -> Result<Vec<u32>, OutOfMemory>
    requires count { length rules.now < 2 ^ 32 }
    requires own { All (IsOwn (patterns_of rules.now)) from.now }
    ensures { IfOk result (λ found. (path : Path) → IsAliveAt rules.now is_root from.now path
        → found.items ≡ relevant_at path (map spec_in rules.now)) }
{
    let mut found = Vec::new(alloc);
    let mut left = from.len();
    'alive: while left > 0 {
        left -= 1;
        let i = from.index(left);
        let member = MemberRef {
            list: from,
            k: left,
        };
        let is_found = can_member_decide(alloc, &rules[i], &member, is_root)?;
        add_if(&mut found, i as u32, is_found)?;
    }
    Ok(found)
}
