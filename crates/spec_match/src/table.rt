ghost use Rattle.std.specs.Prelude.{◌≡◌, ◌<◌, ◌≤◌, ◌+◌, ◌++◌, ◌∷◌, ℕ, List, [], true, IfOk, IfSome};
ghost use Rattle.std.specs.Prelude.{IfNone, length, map, replicate, suc};
ghost use Rattle.std.specs.List.{All};
ghost use Rattle.std.specs.Vec.{vec_capacity, vec_len};
ghost use Rattle.pattern_syntax.specs.Tree.{Tree};
ghost use Rattle.spec_reader.specs.SpecValue.{SpecValue};
ghost use Rattle.spec_match.specs.Alive.{IsOwn, LeadsBy, alive_list};
ghost use Rattle.spec_match.specs.Remembering.{CanBeAdded, IsAnswer, IsGrown, IsTableOf, decoded};
ghost use Rattle.spec_match.specs.Remembering.{kept, with_list};
ghost use Rattle.spec_match.specs.StatesFor.{AreStatesFor, patterns_of, spec_in};
ghost use Rattle.spec_match.specs.Tables.{IsOnWayFor, IsTableFor, IsTrailFor, kept_in, list_for};
ghost use Rattle.spec_match.specs.Trail.{trace_in};

use crate::answering::{Query, asked_number, first_fit};
use crate::compiled_spec::CompiledSpec;
use crate::lists::{ListRef, Lists};
use crate::stepping::{ByteStep, list_stays, start_all, step_all};
use crate::trail::{Reached, Trail, follow, has_no_zero, list_behind, note};
use label_base::{Asked, OutOfMemory};
use pattern_match::States;
use std::alloc::Global;

// In how many slots a list is looked for.
const TRIES: usize = 8;

// After how many look-ups the lists are begun. Fewer are found sooner without them.
const FIRST_LOOK_UPS: u64 = 32;

// How many look-ups there are for each list at least, before all lists are forgotten. There is
// another for each of their members, since to write them anew takes as long.
const LOOK_UPS_A_LIST: u64 = 16;

// How many bytes of the last text are kept.
const LONGEST_TRAIL: usize = 4096;

/// Which list of specifications each byte leads to from which, and what is answered where, as far
/// as earlier look-ups found out. All memory is reserved when it is made.
pub struct Table {
    // Whether lists end at the first specification that covers whatever follows.
    pub(crate) cuts: bool,
    pub(crate) lists: Lists,
    // For each list and each byte the number of the list that the byte leads to, or 0 where it
    // isn't known.
    pub(crate) next: Vec<u16>,
    // For each list and each kind that may be asked for one more than the code of the answer, or 0
    // where it isn't known.
    pub(crate) answers: Vec<u32>,
    // For each list whether whatever follows leaves it as it is. No byte is read behind such a
    // list.
    pub(crate) stays: Vec<bool>,
    // Guesses at which list may be one, by its hash.
    slots: Vec<u32>,
    pub(crate) trail: Trail,
    // How many specifications of lists were looked at.
    pub(crate) tried: u64,
    // How many look-ups there were since all was forgotten.
    look_ups: u64,
    is_full: bool,
    // At how many look-ups all may be forgotten, if it is full.
    due: u64,
}

// By hand: one call for an owner, where a derived drop is a step for each field.
impl Drop for Table {
    fn drop(self) {
        let Table {
            cuts: _,
            lists: _,
            next: _,
            answers: _,
            stays: _,
            slots: _,
            trail: _,
            tried: _,
            look_ups: _,
            is_full: _,
            due: _,
        } = self;
    }
}

// Copies of a value behind the others, for which there is room.
fn add_copies<T: Copy>(row: &mut Vec<T>, n: usize, value: T)
    requires { vec_len row.old + n ≤ vec_capacity row.old }
    ensures { row.new.items ≡ row.old.items ++ replicate n value }
{
    let Ok(()) = row.resize(row.len() + n, value) else {
        unreachable!()
    };
}

// The number of a list that equals the one that is being written, or a slot for its number. What
// the slots hold is but a guess.
fn find(lists: &Lists, slots: &[u32]) -> Result<usize, usize>
    ensures within { IfOk result (λ number. number < length lists.now.lists) }
    ensures found { IfOk result (λ number. alive_list lists.now.lists number ≡ lists.now.draft) }
{
    let n = slots.len();
    if n == 0 {
        return Err(0);
    }
    let first = (lists.hash() % n as u64) as usize;
    let mut slot = first;
    'tries: for _ in 0..TRIES {
        let known = slots[slot] as usize;
        if known == 0 {
            return Err(slot);
        }
        if known <= lists.len() {
            if lists.is_draft(known - 1) {
                return Ok(known - 1);
            }
        }
        slot = (slot + 1) % n;
    }
    Err(first)
}

// Notes where a list may be found.
fn note_guess(slots: &mut Vec<u32>, slot: usize, number: usize) {
    if slot < slots.len() {
        if number < u32::MAX as usize {
            slots[slot] = number as u32 + 1;
        }
    }
}

// Forgets where lists may be found. Before it was called there is no slot, so the memory that is
// reserved for them isn't touched.
fn forget(slots: &mut Vec<u32>) {
    slots.clear();
    let room = slots.capacity();
    add_copies(slots, room, 0u32);
}

// The answer with a code.
fn decoded(code: u32) -> Option<usize>
    ensures { result ≡ decoded code }
{
    if code == 0 {
        return None;
    }
    Some(code as usize - 1)
}

// One more than the code of an answer, or 0 for an index that is too great for it.
fn coded(found: Option<usize>) -> u32
    ensures { (v : ℕ) → result ≡ suc v → found ≡ decoded v }
{
    match found {
        None => 1,
        Some(i) => {
            if i > u32::MAX as usize - 2 {
                return 0;
            }
            i as u32 + 2
        }
    }
}

impl Table {
    /// ScratchParts for so many lists, so many specifications in all of them, and so many words of
    /// marks. Where it `cuts`, lists end at the first specification that covers whatever follows.
    pub fn new(
        alloc: Global,
        cuts: bool,
        lists: usize,
        members: usize,
        words: usize,
    ) -> Result<Table, OutOfMemory>
        ensures kept { IfOk result (λ table. kept_in table ≡ kept cuts [] [] [] []) }
        ensures draft { IfOk result (λ table. table.lists.draft ≡ []) }
        ensures trail { IfOk result (λ table. table.trail.known ≡ 0) }
    {
        let Some(steps) = lists.checked_mul(256) else {
            return Err(OutOfMemory);
        };
        let Some(answers) = lists.checked_mul(9) else {
            return Err(OutOfMemory);
        };
        let Some(slots) = lists.checked_mul(2) else {
            return Err(OutOfMemory);
        };
        Ok(Table {
            cuts,
            next: Vec::with_capacity(alloc, steps)?,
            answers: Vec::with_capacity(alloc, answers)?,
            stays: Vec::with_capacity(alloc, lists)?,
            slots: Vec::with_capacity(alloc, slots)?,
            trail: Trail::new(alloc, LONGEST_TRAIL)?,
            // Last of what may fail, since it has most to drop.
            lists: Lists::new(alloc, lists, members, words)?,
            tried: 0,
            look_ups: 0,
            is_full: true,
            due: FIRST_LOOK_UPS,
        })
    }

    // Completes the list that was written, of which nothing is known yet. Where there is no room,
    // it is lost.
    fn add(&mut self) -> Option<usize>
        ensures none { IfNone result (kept_in self.new ≡ kept_in self.old) }
        ensures some { IfSome result (λ number. kept_in self.new
            ≡ with_list (kept_in self.old) self.old.lists.draft) }
        ensures number { IfSome result (λ number. number ≡ length self.old.lists.lists) }
        ensures cuts { self.new.cuts ≡ self.old.cuts }
        ensures draft { self.new.lists.draft ≡ [] }
        ensures trail { trace_in self.new.trail ≡ trace_in self.old.trail }
        ensures table { (patterns : List Tree) (specs : List SpecValue)
            → IsTableOf patterns specs (kept_in self.old)
            → CanBeAdded patterns self.old.lists
            → IsTableOf patterns specs (kept_in self.new) }
    {
        let number = self.lists.len();
        if self.next.capacity() - self.next.len() < 256 {
            self.lists.drop_draft();
            return None;
        }
        if self.answers.capacity() - self.answers.len() < 9 {
            self.lists.drop_draft();
            return None;
        }
        if self.stays.capacity() - self.stays.len() < 1 {
            self.lists.drop_draft();
            return None;
        }
        if !self.lists.close() {
            return None;
        }
        add_copies(&mut self.next, 256, 0u16);
        add_copies(&mut self.answers, 9, 0u32);
        add_copies(&mut self.stays, 1, false);
        Some(number)
    }

    // Notes whether whatever follows leaves a list as it is.
    fn note_stays(&mut self, rules: &[CompiledSpec], states: &mut States, number: usize)
        requires states { AreStatesFor (patterns_of rules.now) states.old }
        requires table { IsTableFor rules.now self.old }
        requires number { number < length self.old.lists.lists }
        ensures states { AreStatesFor (patterns_of rules.now) states.new }
        ensures table { IsTableFor rules.now self.new }
        ensures cuts { self.new.cuts ≡ self.old.cuts }
        ensures lists { self.new.lists ≡ self.old.lists }
        ensures trail { trace_in self.new.trail ≡ trace_in self.old.trail }
    {
        let list = ListRef {
            lists: &self.lists,
            number,
        };
        let stays = list_stays(&list, rules, states);
        self.stays[number] = stays;
    }

    // The number of the list that was written, where it is there or there is room for it.
    fn number_of(&mut self, rules: &[CompiledSpec], states: &mut States) -> Option<usize>
        requires states { AreStatesFor (patterns_of rules.now) states.old }
        requires table { IsTableFor rules.now self.old }
        requires own { All (IsOwn (patterns_of rules.now)) self.old.lists.draft }
        requires begun { 0 < length self.old.lists.lists }
        ensures states { AreStatesFor (patterns_of rules.now) states.new }
        ensures table { IsTableFor rules.now self.new }
        ensures cuts { self.new.cuts ≡ self.old.cuts }
        ensures draft { self.new.lists.draft ≡ [] }
        ensures trail { trace_in self.new.trail ≡ trace_in self.old.trail }
        ensures grown { IsGrown self.old.lists.lists self.new.lists.lists }
        ensures within { IfSome result (λ number. number < length self.new.lists.lists) }
        ensures found { IfSome result (λ number.
            alive_list self.new.lists.lists number ≡ self.old.lists.draft) }
    {
        match find(&self.lists, self.slots.as_slice()) {
            Ok(number) => {
                self.lists.drop_draft();
                Some(number)
            }
            Err(slot) => {
                note_guess(&mut self.slots, slot, self.lists.len());
                let number = self.add()?;
                self.note_stays(rules, states, number);
                Some(number)
            }
        }
    }

    // Learns no more until it was asked often enough.
    fn fill(&mut self)
        ensures kept { kept_in self.new ≡ kept_in self.old }
        ensures draft { self.new.lists.draft ≡ self.old.lists.draft }
        ensures trail { trace_in self.new.trail ≡ trace_in self.old.trail }
    {
        self.is_full = true;
        let lists = (self.lists.len() as u64).saturating_mul(LOOK_UPS_A_LIST);
        self.due = lists.saturating_add(self.lists.members() as u64);
    }

    // The list that a byte other than 0 leads to, where there is room for it.
    fn learn(
        &mut self,
        rules: &[CompiledSpec],
        states: &mut States,
        from: usize,
        byte: u8,
    ) -> Option<usize>
        requires states { AreStatesFor (patterns_of rules.now) states.old }
        requires table { IsTableFor rules.now self.old }
        requires draft { self.old.lists.draft ≡ [] }
        requires begun { 0 < length self.old.lists.lists }
        requires from { from < length self.old.lists.lists }
        ensures states { AreStatesFor (patterns_of rules.now) states.new }
        ensures table { IsTableFor rules.now self.new }
        ensures cuts { self.new.cuts ≡ self.old.cuts }
        ensures draft { self.new.lists.draft ≡ [] }
        ensures begun { 0 < length self.new.lists.lists }
        ensures grown { IsGrown self.old.lists.lists self.new.lists.lists }
        ensures trail { trace_in self.new.trail ≡ trace_in self.old.trail }
        ensures within { IfSome result (λ to. to < length self.new.lists.lists) }
        ensures leads { IfSome result (λ to. LeadsBy (list_for rules.now self.old) (byte ∷ [])
            (alive_list self.old.lists.lists from) (alive_list self.new.lists.lists to)) }
    {
        if byte == 0 {
            return None;
        }
        if self.is_full {
            return None;
        }
        let members = self.lists.list_len(from) as u64;
        self.tried = self.tried.saturating_add(members);
        let step = ByteStep {
            from,
            byte,
            cuts: self.cuts,
        };
        if !step_all(&mut self.lists, rules, states, step) {
            self.lists.drop_draft();
            self.fill();
            return None;
        }
        match self.number_of(rules, states) {
            Some(to) => {
                let Ok(noted) = u16::try_from(to) else {
                    return Some(to);
                };
                self.next[256 * from + byte as usize] = noted;
                Some(to)
            }
            None => {
                self.fill();
                None
            }
        }
    }

    // Begins a text behind what it has in common with the one that was read last.
    fn begin(&mut self, rules: &[CompiledSpec], text: &[u8]) -> Reached
        requires table { IsTableFor rules.now self.old }
        requires begun { 0 < length self.old.lists.lists }
        requires trail { IsTrailFor rules.now self.old }
        ensures table { IsTableFor rules.now self.new }
        ensures cuts { self.new.cuts ≡ self.old.cuts }
        ensures begun { 0 < length self.new.lists.lists }
        ensures draft { self.new.lists.draft ≡ self.old.lists.draft }
        ensures way { IsOnWayFor rules.now self.new text.now result }
    {
        let at = self.trail.common(text);
        let list = list_behind(self.trail.lists.as_slice(), at);
        self.trail.begin(text, at);
        Reached { at, list }
    }

    // Reads a text on while it is known where to.
    fn follow(&mut self, rules: &[CompiledSpec], text: &[u8], from: Reached) -> Reached
        requires table { IsTableFor rules.now self.old }
        requires begun { 0 < length self.old.lists.lists }
        requires way { IsOnWayFor rules.now self.old text.now from }
        ensures table { IsTableFor rules.now self.new }
        ensures cuts { self.new.cuts ≡ self.old.cuts }
        ensures begun { 0 < length self.new.lists.lists }
        ensures draft { self.new.lists.draft ≡ self.old.lists.draft }
        ensures low { from.at ≤ result.at }
        ensures way { IsOnWayFor rules.now self.new text.now result }
    {
        let count = self.lists.len();
        let reached = follow(
            self.next.as_slice(),
            count,
            &mut self.trail.lists,
            text,
            from,
        );
        self.trail.reach(reached.at);
        reached
    }

    // Reads one byte of a text, where there is room for the list to which it leads.
    fn read_byte(
        &mut self,
        rules: &[CompiledSpec],
        states: &mut States,
        text: &[u8],
        from: Reached,
    ) -> Option<Reached>
        requires states { AreStatesFor (patterns_of rules.now) states.old }
        requires table { IsTableFor rules.now self.old }
        requires draft { self.old.lists.draft ≡ [] }
        requires begun { 0 < length self.old.lists.lists }
        requires inside { from.at < length text.now }
        requires way { IsOnWayFor rules.now self.old text.now from }
        ensures states { AreStatesFor (patterns_of rules.now) states.new }
        ensures table { IsTableFor rules.now self.new }
        ensures cuts { self.new.cuts ≡ self.old.cuts }
        ensures draft { self.new.lists.draft ≡ [] }
        ensures begun { 0 < length self.new.lists.lists }
        ensures trail { IsTrailFor rules.now self.new }
        ensures at { IfSome result (λ to. to.at ≡ from.at + 1) }
        ensures way { IfSome result (IsOnWayFor rules.now self.new text.now) }
    {
        let to = self.learn(rules, states, from.list, text[from.at])?;
        note(&mut self.trail.lists, from.at, to);
        Some(Reached {
            at: from.at + 1,
            list: to,
        })
    }

    // What is answered at a list.
    fn answer(
        &mut self,
        rules: &[CompiledSpec],
        states: &mut States,
        list: usize,
        asked: Asked,
    ) -> Option<usize>
        requires states { AreStatesFor (patterns_of rules.now) states.old }
        requires table { IsTableFor rules.now self.old }
        requires draft { self.old.lists.draft ≡ [] }
        requires list { list < length self.old.lists.lists }
        ensures states { AreStatesFor (patterns_of rules.now) states.new }
        ensures table { IsTableFor rules.now self.new }
        ensures cuts { self.new.cuts ≡ self.old.cuts }
        ensures draft { self.new.lists.draft ≡ [] }
        ensures lists { self.new.lists.lists ≡ self.old.lists.lists }
        ensures trail { trace_in self.new.trail ≡ trace_in self.old.trail }
        ensures answer { (text : List ℕ)
            → list_for rules.now self.old text (alive_list self.old.lists.lists list)
            → IsAnswer asked text (map spec_in rules.now) result }
    {
        let place = 9 * list + asked_number(asked);
        let known = self.answers[place];
        if known > 0 {
            return decoded(known - 1);
        }
        let members = self.lists.list_len(list) as u64;
        self.tried = self.tried.saturating_add(members);
        let alive = ListRef {
            lists: &self.lists,
            number: list,
        };
        let found = first_fit(&alive, rules, states, asked);
        self.answers[place] = coded(found);
        found
    }

    // Forgets everything.
    fn clear(&mut self)
        ensures kept { kept_in self.new ≡ kept self.old.cuts [] [] [] [] }
        ensures draft { self.new.lists.draft ≡ [] }
        ensures trail { self.new.trail.known ≡ 0 }
    {
        self.trail.clear();
        self.lists.clear();
        self.next.clear();
        self.answers.clear();
        self.stays.clear();
        forget(&mut self.slots);
        self.look_ups = 0;
        self.is_full = false;
    }

    // Adds the list of all specifications, where there is room.
    fn add_first(&mut self, rules: &[CompiledSpec], states: &mut States) -> bool
        requires states { AreStatesFor (patterns_of rules.now) states.old }
        requires kept { kept_in self.old ≡ kept self.old.cuts [] [] [] [] }
        requires draft { self.old.lists.draft ≡ [] }
        ensures states { AreStatesFor (patterns_of rules.now) states.new }
        ensures table { IsTableFor rules.now self.new }
        ensures cuts { self.new.cuts ≡ self.old.cuts }
        ensures draft { self.new.lists.draft ≡ [] }
        ensures trail { trace_in self.new.trail ≡ trace_in self.old.trail }
    {
        if !start_all(&mut self.lists, rules, states) {
            self.lists.drop_draft();
            return false;
        }
        self.add().is_some()
    }

    // Begins anew where it is full and was asked often enough.
    fn prepare(&mut self, rules: &[CompiledSpec], states: &mut States)
        requires states { AreStatesFor (patterns_of rules.now) states.old }
        requires table { IsTableFor rules.now self.old }
        requires draft { self.old.lists.draft ≡ [] }
        requires trail { IsTrailFor rules.now self.old }
        ensures states { AreStatesFor (patterns_of rules.now) states.new }
        ensures table { IsTableFor rules.now self.new }
        ensures cuts { self.new.cuts ≡ self.old.cuts }
        ensures draft { self.new.lists.draft ≡ [] }
        ensures trail { IsTrailFor rules.now self.new }
    {
        self.look_ups = self.look_ups.saturating_add(1);
        if !self.is_full {
            return;
        }
        if self.look_ups < self.due {
            return;
        }
        self.clear();
        if !self.add_first(rules, states) {
            self.is_full = true;
            self.due = u64::MAX;
        }
    }

    /// The number of the list behind a text, or `None` where there is no room to find it out.
    pub fn reach(
        &mut self,
        rules: &[CompiledSpec],
        states: &mut States,
        text: &[u8],
    ) -> Option<usize>
        requires states { AreStatesFor (patterns_of rules.now) states.old }
        requires table { IsTableFor rules.now self.old }
        requires draft { self.old.lists.draft ≡ [] }
        requires trail { IsTrailFor rules.now self.old }
        ensures states { AreStatesFor (patterns_of rules.now) states.new }
        ensures table { IsTableFor rules.now self.new }
        ensures cuts { self.new.cuts ≡ self.old.cuts }
        ensures draft { self.new.lists.draft ≡ [] }
        ensures trail { IsTrailFor rules.now self.new }
        ensures within { IfSome result (λ list. list < length self.new.lists.lists) }
        ensures alive { IfSome result (λ list.
            list_for rules.now self.old text.now (alive_list self.new.lists.lists list)) }
    {
        self.prepare(rules, states);
        if self.lists.len() == 0 {
            return None;
        }
        let mut way = self.begin(rules, text);
        'text: while way.at < text.len() {
            way = self.follow(rules, text, way);
            if way.at == text.len() {
                return Some(way.list);
            }
            if self.stays[way.list] {
                // Nothing is learned for a byte 0.
                if !has_no_zero(&text[way.at..]) {
                    return None;
                }
                return Some(way.list);
            }
            let Some(next) = self.read_byte(rules, states, text, way) else {
                return None;
            };
            way = next;
        }
        Some(way.list)
    }

    /// The last match of a text, or `None` where there is no room to find it out.
    pub fn look_up(
        &mut self,
        rules: &[CompiledSpec],
        states: &mut States,
        query: &Query<'_>,
    ) -> Option<Option<usize>>
        requires states { AreStatesFor (patterns_of rules.now) states.old }
        requires table { IsTableFor rules.now self.old }
        requires draft { self.old.lists.draft ≡ [] }
        requires trail { IsTrailFor rules.now self.old }
        ensures states { AreStatesFor (patterns_of rules.now) states.new }
        ensures table { IsTableFor rules.now self.new }
        ensures cuts { self.new.cuts ≡ self.old.cuts }
        ensures draft { self.new.lists.draft ≡ [] }
        ensures trail { IsTrailFor rules.now self.new }
        ensures answer { IfSome result (λ found.
            IsAnswer query.now.asked query.now.text.now (map spec_in rules.now) found) }
    {
        match self.reach(rules, states, query.text) {
            Some(list) => Some(self.answer(rules, states, list, query.asked)),
            None => None,
        }
    }
}
