ghost use Rattle.std.specs.Prelude.{◌≡◌, ◌<◌, ◌≤◌, ◌+◌, ◌++◌, ◌∷◌, [], true, IfOk, IfSome, OnOk};
ghost use Rattle.std.specs.Prelude.{drop, length, take, if◌then◌else◌};
ghost use Rattle.spec_match.specs.Alive.{WantsOther, alive, alive_at, wants_other};

use label_base::OutOfMemory;
use pattern_match::States;
use std::alloc::Global;
use std::marker::Model;

/// A specification that is alive, where its marks stand among the words, how many bytes of its
/// literal start were read, and which byte that wants next, where one is lacking. By that byte most
/// members are dropped when a list is stepped.
#[derive(Clone, Copy)]
pub struct Member {
    index: u32,
    start: u32,
    seen: u16,
    width: u16,
    wants: Option<u8>,
}

impl Member {
    // A member, where the numbers fit.
    fn new(
        index: usize,
        seen: usize,
        start: usize,
        width: usize,
        wants: Option<u8>,
    ) -> Option<Member>
        ensures index { IfSome result (λ member. member.index ≡ index) }
        ensures seen { IfSome result (λ member. member.seen ≡ seen) }
        ensures start { IfSome result (λ member. member.start ≡ start) }
        ensures width { IfSome result (λ member. member.width ≡ width) }
        ensures wants { IfSome result (λ member. member.wants ≡ wants) }
    {
        Some(Member {
            index: u32::try_from(index).ok()?,
            start: u32::try_from(start).ok()?,
            seen: u16::try_from(seen).ok()?,
            width: u16::try_from(width).ok()?,
            wants,
        })
    }
}

/// Specifications with the states of their patterns, in memory that was reserved for them.
#[derive(Drop)]
pub struct Members {
    words: Vec<u64>,
    members: Vec<Member>,
}

impl Model for Members {
    ghost use Rattle.std.specs.Prelude.{List, length, map};
    ghost use Rattle.spec_match.specs.Alive.{Alive};
    ghost use Rattle.spec_match.specs.Members.{AreLaidOut, alive_in};

    ghost Value = { List Alive };

    ghost view = { λ m. map (alive_in m.words.items) m.members.items };

    ghost invariant = { λ m. AreLaidOut (length m.words.items) 0 m.members.items };
}

impl Members {
    /// No members, with room for so many, and for so many words of marks.
    pub fn new(alloc: Global, members: usize, words: usize) -> Result<Members, OutOfMemory>
        ensures { IfOk result (λ members. members ≡ []) }
    {
        Ok(Members {
            words: Vec::with_capacity(alloc, words)?,
            members: Vec::with_capacity(alloc, members)?,
        })
    }

    /// No members, with no room.
    pub fn empty(alloc: Global) -> Members
        ensures { result ≡ [] }
    {
        Members {
            words: Vec::new(alloc),
            members: Vec::new(alloc),
        }
    }

    /// How many members there are.
    pub fn len(&self) -> usize
        ensures { result ≡ length self.now }
    {
        self.members.len()
    }

    /// Which specification a member is.
    pub fn index(&self, k: usize) -> usize
        requires { k < length self.now }
        ensures { result ≡ (alive_at self.now k).index }
    {
        self.members[k].index as usize
    }

    /// How many bytes of the literal start a member has read.
    pub fn seen(&self, k: usize) -> usize
        requires { k < length self.now }
        ensures { result ≡ (alive_at self.now k).states.seen }
    {
        self.members[k].seen as usize
    }

    /// The byte that the literal start of a member wants next.
    pub fn wants(&self, k: usize) -> Option<u8>
        requires { k < length self.now }
        ensures { result ≡ (alive_at self.now k).wants }
    {
        self.members[k].wants
    }

    /// Whether the literal start of a member goes on with another byte.
    pub fn wants_other(&self, k: usize, byte: u8) -> bool
        requires { k < length self.now }
        ensures value { result ≡ wants_other (alive_at self.now k).wants byte }
        ensures other { result ≡ true → WantsOther (alive_at self.now k) byte }
    {
        match self.wants(k) {
            None => false,
            Some(next) => next != byte,
        }
    }

    /// The marks of a member.
    pub fn marks(&self, k: usize) -> &[u64]
        requires { k < length self.now }
        ensures { result.now ≡ (alive_at self.now k).states.marks }
    {
        let member = self.members[k];
        let start = member.start as usize;
        &self.words[start..start + member.width as usize]
    }

    /// Makes states those of a member.
    pub fn load(&self, k: usize, states: &mut States)
        requires within { k < length self.now }
        requires width { length (alive_at self.now k).states.marks ≤ states.old.room }
        ensures known { states.new.known ≡ (alive_at self.now k).states }
        ensures room { states.new.room ≡ states.old.room }
    {
        states.set(self.seen(k), self.marks(k));
    }

    /// Adds a specification, where there is room.
    pub fn push(&mut self, index: usize, states: &States, wants: Option<u8>) -> bool
        ensures { self.new
            ≡ (if result then self.old ++ alive index states.now.known wants ∷ [] else self.old) }
    {
        let marks = states.marks();
        if self.members.len() == self.members.capacity() {
            return false;
        }
        if marks.len() > self.words.capacity() - self.words.len() {
            return false;
        }
        let start = self.words.len();
        let Some(member) = Member::new(index, states.seen(), start, marks.len(), wants) else {
            return false;
        };
        let Ok(()) = self.words.extend_from_slice(marks) else {
            unreachable!()
        };
        let Ok(()) = self.members.push(member) else {
            unreachable!()
        };
        true
    }

    /// Adds a specification, and takes memory for it where there is no room. It may have none for
    /// an index or a number of words past 32 bits, and for states past 16 bits.
    pub fn add(
        &mut self,
        index: usize,
        states: &States,
        wants: Option<u8>,
    ) -> Result<(), OutOfMemory>
        ensures { OnOk result (self.new ≡ self.old ++ alive index states.now.known wants ∷ []) }
    {
        self.members.reserve(1)?;
        self.words.reserve(states.marks().len())?;
        if !self.push(index, states, wants) {
            return Err(OutOfMemory);
        }
        Ok(())
    }

    /// Leaves the first of so many members alone. The room for the others stays.
    pub fn truncate(&mut self, n: usize)
        ensures { self.new ≡ take n self.old }
    {
        if n >= self.members.len() {
            return;
        }
        let words = self.members[n].start as usize;
        self.members.truncate(n);
        self.words.truncate(words);
    }
}

// Whether two members are one specification in one state.
fn is_same(members: &Members, i: usize, j: usize) -> bool
    requires i { i < length members.now }
    requires j { j < length members.now }
    ensures from { result ≡ true → alive_at members.now i ≡ alive_at members.now j }
    ensures onto { alive_at members.now i ≡ alive_at members.now j → result ≡ true }
{
    if members.index(i) != members.index(j) {
        return false;
    }
    if members.seen(i) != members.seen(j) {
        return false;
    }
    if members.wants(i) != members.wants(j) {
        return false;
    }
    members.marks(i) == members.marks(j)
}

/// Whether so many members from one place on are those from another on.
pub fn have_same(members: &Members, a: usize, b: usize, n: usize) -> bool
    requires a { a + n ≤ length members.now }
    requires b { b + n ≤ length members.now }
    ensures from { result ≡ true → take n (drop a members.now) ≡ take n (drop b members.now) }
    ensures onto { take n (drop a members.now) ≡ take n (drop b members.now) → result ≡ true }
{
    let _ = members.len();
    'members: for k in 0..n {
        if !is_same(members, a + k, b + k) {
            return false;
        }
    }
    true
}
