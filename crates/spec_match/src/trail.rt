ghost use Rattle.std.specs.Prelude.{◌≡◌, ◌≤◌, ◌<◌, ◌+◌, ◌++◌, ◌*◌, ℕ, Bool, List, length, min};
ghost use Rattle.std.specs.Prelude.{take, set, true, IfOk, if◌then◌else◌, nat_lt, replicate};
ghost use Rattle.std.specs.Prelude.{[], slice_index};
ghost use Rattle.pattern_match.specs.Onwards.{AreTextBytes};
ghost use Rattle.pattern_syntax.specs.Tree.{Tree};
ghost use Rattle.spec_reader.specs.SpecValue.{SpecValue};
ghost use Rattle.spec_match.specs.Alive.{Alive};
ghost use Rattle.spec_match.specs.Listed.{IsListed};
ghost use Rattle.spec_match.specs.Remembering.{IsStep, Remembers};
ghost use Rattle.spec_match.specs.Trail.{AreNumbers, IsTrailRead, list_behind};

use label_base::OutOfMemory;
use std::alloc::Global;

// How many bytes are compared at once.
const CHUNK: usize = 16;

/// The text that was read last, and the number of the list behind each of its bytes.
#[derive(Drop)]
pub struct Trail {
    pub(crate) text: Vec<u8>,
    // As many numbers as are ever kept.
    pub(crate) lists: Vec<usize>,
    // Behind how many bytes the numbers are right.
    pub(crate) known: usize,
}

/// How many bytes of a text were read, and the number of the list behind them.
#[derive(Clone, Copy)]
pub struct Reached {
    pub at: usize,
    pub list: usize,
}

// Whether two texts have the same first bytes, as many as are compared at once.
fn is_same_chunk(a: &[u8], b: &[u8]) -> bool
    ensures { result ≡ true → take CHUNK a.now ≡ take CHUNK b.now }
{
    let Some((front, _)) = a.split_first_chunk::<CHUNK>() else {
        return false;
    };
    let Some((other, _)) = b.split_first_chunk::<CHUNK>() else {
        return false;
    };
    front == other
}

// How many bytes two texts have in common, at least, in chunks.
fn common_chunks(a: &[u8], b: &[u8]) -> usize
    ensures a { result ≤ length a.now }
    ensures b { result ≤ length b.now }
    ensures same { take result a.now ≡ take result b.now }
{
    let chunks = a.len().min(b.len()) / CHUNK;
    'chunks: for i in 0..chunks {
        if !is_same_chunk(&a[CHUNK * i..], &b[CHUNK * i..]) {
            return CHUNK * i;
        }
    }
    CHUNK * chunks
}

/// How many bytes two texts have in common.
pub fn common(a: &[u8], b: &[u8]) -> usize
    ensures a { result ≤ length a.now }
    ensures b { result ≤ length b.now }
    ensures same { take result a.now ≡ take result b.now }
    ensures most { (k : ℕ) → k ≤ length a.now → k ≤ length b.now
        → take k a.now ≡ take k b.now → k ≤ result }
{
    let most = a.len().min(b.len());
    let front = common_chunks(a, b);
    'bytes: for k in front..most {
        if a[k] != b[k] {
            return k;
        }
    }
    most
}

/// Whether a text has no byte 0. The loop goes to the end, so that it takes many bytes at once.
pub fn has_no_zero(text: &[u8]) -> bool
    ensures from { result ≡ true → AreTextBytes text.now }
    ensures onto { AreTextBytes text.now → result ≡ true }
{
    let mut least = u8::MAX;
    'bytes: for byte in text {
        least = least.min(*byte);
    }
    least > 0
}

/// The number of the list behind so many bytes. Behind none it is 0.
pub fn list_behind(lists: &[usize], k: usize) -> usize
    requires { k ≤ length lists.now }
    ensures { result ≡ list_behind lists.now k }
{
    if k == 0 {
        return 0;
    }
    lists[k - 1]
}

/// Notes the list behind a byte, where there is room for its number.
pub fn note(lists: &mut Vec<usize>, at: usize, list: usize)
    ensures { lists.new.items ≡ (if nat_lt at (length lists.old.items)
        then set lists.old.items at list else lists.old.items) }
{
    if at < lists.len() {
        lists[at] = list;
    }
}

/// Reads a text on from a place while it is known where to, and notes the lists. `next` has a row
/// of 256 numbers for each of so many lists.
pub fn follow(
    next: &[u16],
    count: usize,
    lists: &mut Vec<usize>,
    text: &[u8],
    from: Reached,
) -> Reached
    requires rows { length next.now ≡ 256 * count }
    requires numbers { AreNumbers count next.now }
    requires list { from.list < count }
    requires from { from.at ≤ length text.now }
    ensures low { from.at ≤ result.at }
    ensures stop { result.at < length text.now
        → slice_index next.now (256 * result.list + slice_index text.now result.at) ≡ 0 }
    ensures read { (cuts : Bool) (patterns : List Tree) (specs : List SpecValue)
        (all : List (List Alive)) → length all ≡ count
        → Remembers (IsStep (IsListed cuts patterns specs) all) next.now
        → IsTrailRead (IsListed cuts patterns specs) all text.now lists.old.items from.at from.list
        → IsTrailRead (IsListed cuts patterns specs) all text.now lists.new.items result.at
        result.list }
{
    let mut list = from.list;
    'text: for i in from.at..text.len() {
        // The byte first, so that what depends on the list before is short.
        let column = &next[text[i] as usize..];
        let known = column[256 * list] as usize;
        if known == 0 {
            return Reached { at: i, list };
        }
        list = known;
        note(lists, i, list);
    }
    Reached {
        at: text.len(),
        list,
    }
}

impl Trail {
    /// No text, with room for one of so many bytes.
    pub fn new(alloc: Global, room: usize) -> Result<Trail, OutOfMemory>
        ensures text { IfOk result (λ trail. trail.text.items ≡ []) }
        ensures lists { IfOk result (λ trail. trail.lists.items ≡ replicate room 0) }
        ensures known { IfOk result (λ trail. trail.known ≡ 0) }
    {
        Ok(Trail {
            text: Vec::with_capacity(alloc, room)?,
            lists: vec![in alloc; 0usize; room]?,
            known: 0,
        })
    }

    /// How many bytes a text has in common with the one that was read last, as far as the lists are
    /// known.
    pub fn common(&self, text: &[u8]) -> usize
        ensures known { result ≤ self.now.known }
        ensures lists { result ≤ length self.now.lists.items }
        ensures own { result ≤ length self.now.text.items }
        ensures text { result ≤ length text.now }
        ensures same { take result self.now.text.items ≡ take result text.now }
        ensures most { (k : ℕ) → k ≤ self.now.known → k ≤ length self.now.lists.items
            → k ≤ length self.now.text.items → k ≤ length text.now
            → take k self.now.text.items ≡ take k text.now → k ≤ result }
    {
        let most = common(self.text.as_slice(), text);
        most.min(self.known).min(self.lists.len())
    }

    /// Takes another text in place of the last one, with which it has so many bytes in common. What
    /// there is no room for is left out.
    pub fn begin(&mut self, text: &[u8], start: usize)
        requires own { start ≤ length self.old.text.items }
        requires text { start ≤ length text.now }
        requires same { take start self.old.text.items ≡ take start text.now }
        ensures lists { self.new.lists.items ≡ self.old.lists.items }
        ensures known { self.new.known ≡ start }
        ensures same { self.new.text.items ≡ take (length self.new.text.items) text.now }
        ensures short { start ≤ length self.new.text.items }
    {
        self.text.truncate(start);
        add_front(&mut self.text, &text[start..]);
        self.known = start;
    }

    /// Notes that the text was read up to a place.
    pub fn reach(&mut self, at: usize)
        ensures lists { self.new.lists.items ≡ self.old.lists.items }
        ensures text { self.new.text.items ≡ self.old.text.items }
        ensures known { self.new.known ≡ min at (length self.old.text.items) }
    {
        self.known = at.min(self.text.len());
    }

    /// Forgets the text.
    pub fn clear(&mut self)
        ensures text { self.new.text.items ≡ self.old.text.items }
        ensures lists { self.new.lists.items ≡ self.old.lists.items }
        ensures known { self.new.known ≡ 0 }
    {
        self.known = 0;
    }
}

// Adds as much of the front of a text as there is room for.
fn add_front(to: &mut Vec<u8>, text: &[u8])
    ensures front { (n : ℕ) → length to.new.items ≡ length to.old.items + n
        → to.new.items ≡ to.old.items ++ take n text.now }
    ensures grown { length to.old.items ≤ length to.new.items }
{
    let n = text.len().min(to.capacity() - to.len());
    let Ok(()) = to.extend_from_slice(&text[..n]) else {
        unreachable!()
    };
}
