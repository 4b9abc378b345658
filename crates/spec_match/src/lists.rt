ghost use Rattle.std.specs.Prelude.{◌≡◌, ◌<◌, ◌≤◌, ◌++◌, ◌∷◌, [], true, IfOk, length};
ghost use Rattle.std.specs.Prelude.{if◌then◌else◌};
ghost use Rattle.spec_match.specs.Alive.{WantsOther, alive, alive_at, alive_list, wants_other};
ghost use Rattle.spec_match.specs.Written.{lists_written};

use crate::members::{Members, have_same};
use label_base::OutOfMemory;
use pattern_match::States;
use std::alloc::Global;
use std::marker::Model;

/// Where a list stands among the members.
#[derive(Clone, Copy)]
pub struct Span {
    start: usize,
    len: usize,
}

/// Lists of specifications that are alive, and one that is being written, in memory that was
/// reserved for them.
#[derive(Drop)]
pub struct Lists {
    members: Members,
    spans: Vec<Span>,
    // How many members are in lists that are complete.
    done: usize,
}

/// One of the lists that are complete.
#[derive(Clone, Copy)]
pub struct ListRef<'a> {
    pub lists: &'a Lists,
    pub number: usize,
}

impl Model for Lists {
    ghost use Rattle.spec_match.specs.Written.{Written, written_in, AreListsWritten};

    ghost Value = { Written };

    ghost view = { written_in };

    ghost invariant = { AreListsWritten };
}

fn mixed(hash: u64, number: u64) -> u64 {
    (hash.rotate_left(23) ^ number).wrapping_mul(0x9e37_79b9_7f4a_7c15)
}

fn hash_of(hash: u64, members: &Members, k: usize) -> u64
    requires { k < length members.now }
{
    let mut hash = mixed(hash, members.index(k) as u64);
    hash = mixed(hash, members.seen(k) as u64);
    'words: for word in members.marks(k) {
        hash = mixed(hash, *word);
    }
    hash ^ hash >> 32
}

impl Lists {
    /// No lists, with room for so many, for so many members of all of them, and so many words of
    /// marks.
    pub fn new(
        alloc: Global,
        lists: usize,
        members: usize,
        words: usize,
    ) -> Result<Lists, OutOfMemory>
        ensures { IfOk result (λ lists. lists ≡ lists_written [] []) }
    {
        Ok(Lists {
            members: Members::new(alloc, members, words)?,
            spans: Vec::with_capacity(alloc, lists)?,
            done: 0,
        })
    }

    /// How many lists are complete.
    pub fn len(&self) -> usize
        ensures { result ≡ length self.now.lists }
    {
        self.spans.len()
    }

    /// How many members all lists have.
    pub fn members(&self) -> usize {
        self.members.len()
    }

    /// How many specifications a list has.
    pub fn list_len(&self, i: usize) -> usize
        requires { i < length self.now.lists }
        ensures { result ≡ length (alive_list self.now.lists i) }
    {
        self.spans[i].len
    }

    /// Which specification is at a place of a list.
    pub fn index(&self, i: usize, k: usize) -> usize
        requires list { i < length self.now.lists }
        requires within { k < length (alive_list self.now.lists i) }
        ensures { result ≡ (alive_at (alive_list self.now.lists i) k).index }
    {
        let _ = self.members.len();
        self.members.index(self.spans[i].start + k)
    }

    /// Whether the literal start of the specification at a place of a list goes on with another
    /// byte.
    pub fn wants_other(&self, i: usize, k: usize, byte: u8) -> bool
        requires list { i < length self.now.lists }
        requires within { k < length (alive_list self.now.lists i) }
        ensures value { result
            ≡ wants_other (alive_at (alive_list self.now.lists i) k).wants byte }
        ensures other { result ≡ true
            → WantsOther (alive_at (alive_list self.now.lists i) k) byte }
    {
        let _ = self.members.len();
        self.members.wants_other(self.spans[i].start + k, byte)
    }

    /// Makes states those at a place of a list.
    pub fn load(&self, i: usize, k: usize, states: &mut States)
        requires list { i < length self.now.lists }
        requires within { k < length (alive_list self.now.lists i) }
        requires width { length (alive_at (alive_list self.now.lists i) k).states.marks
            ≤ states.old.room }
        ensures known { states.new.known ≡ (alive_at (alive_list self.now.lists i) k).states }
        ensures room { states.new.room ≡ states.old.room }
    {
        let _ = self.members.len();
        self.members.load(self.spans[i].start + k, states);
    }

    /// Writes a specification to the end of the list that is being written, where there is room.
    pub fn push(&mut self, index: usize, states: &States, wants: Option<u8>) -> bool
        ensures { self.new ≡ (if result
            then lists_written self.old.lists
            (self.old.draft ++ alive index states.now.known wants ∷ [])
            else self.old) }
    {
        self.members.push(index, states, wants)
    }

    /// Completes the list that is being written, and begins the next. Where there is no room for
    /// it, it is lost.
    pub fn close(&mut self) -> bool
        ensures { self.new ≡ (if result
            then lists_written (self.old.lists ++ self.old.draft ∷ []) []
            else lists_written self.old.lists []) }
    {
        if self.spans.len() == self.spans.capacity() {
            self.members.truncate(self.done);
            return false;
        }
        let span = Span {
            start: self.done,
            len: self.members.len() - self.done,
        };
        let Ok(()) = self.spans.push(span) else {
            unreachable!()
        };
        self.done = self.members.len();
        true
    }

    /// Begins the list that is being written anew.
    pub fn drop_draft(&mut self)
        ensures { self.new ≡ lists_written self.old.lists [] }
    {
        self.members.truncate(self.done);
    }

    /// Forgets all lists. The room for them stays.
    pub fn clear(&mut self)
        ensures { self.new ≡ lists_written [] [] }
    {
        self.spans.clear();
        self.members.truncate(0);
        self.done = 0;
    }

    /// Whether a list is the one that is being written.
    pub fn is_draft(&self, i: usize) -> bool
        requires { i < length self.now.lists }
        ensures from { result ≡ true → alive_list self.now.lists i ≡ self.now.draft }
        ensures onto { alive_list self.now.lists i ≡ self.now.draft → result ≡ true }
    {
        let span = self.spans[i];
        if span.len != self.members.len() - self.done {
            return false;
        }
        have_same(&self.members, span.start, self.done, span.len)
    }

    /// A number by which a list that was written before is looked for.
    pub fn hash(&self) -> u64 {
        let mut hash = 0;
        'members: for k in self.done..self.members.len() {
            hash = hash_of(hash, &self.members, k);
        }
        hash
    }
}
