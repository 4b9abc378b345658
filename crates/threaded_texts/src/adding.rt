ghost use Rattle.std.specs.Prelude.{◌≡◌, ◌+◌, ◌<◌, ◌≤◌, ◌^◌, ◌++◌, [], IfOk};
ghost use Rattle.std.specs.Thread.{IsSync};
ghost use Rattle.threaded_texts.specs.Stretch.{stretch};

use crate::texts::Texts;
use label_base::{Bytes, OutOfMemory, PiecedText};
use std::alloc::Global;
use std::thread::{Threads, join};

// About as many bytes as a text has.
const TEXT_ROOM: usize = 64;

/// The most workers that are at work at once: each is a call deep on the caller's stack.
pub const MOST_AT_ONCE: u32 = 256;

/// An empty text, with room for so many if there is: a text that grows step by step leaves its
/// earlier places behind.
pub fn text_for(alloc: Global, texts: u32) -> Bytes
    ensures { result ≡ [] }
{
    match Bytes::with_capacity(alloc, texts as usize * TEXT_ROOM) {
        Ok(text) => text,
        Err(_) => Bytes::new(alloc),
    }
}

// Texts in a row, and by how many workers at once they are made.
#[derive(Clone, Copy)]
struct Stretch {
    first: u32,
    count: u32,
    workers: u32,
}

// Adds the texts of a stretch, one after the other.
fn add_stretch<T: Texts>(
    alloc: Global,
    texts: &T,
    part: Stretch,
    mut to: Bytes,
) -> Result<Bytes, OutOfMemory>
    requires within { part.first + part.count ≤ T.count texts.now }
    requires few { part.first + part.count < 2 ^ 32 }
    ensures { IfOk result (λ made. made ≡ to ++ stretch (T.text texts.now) part.first part.count) }
{
    let mut buffer = Bytes::new(alloc);
    'texts: for i in 0..part.count {
        texts.add(alloc, part.first + i, &mut buffer, &mut to)?;
    }
    Ok(to)
}

// Adds the texts of a stretch, one after the other, as one piece.
fn add_piece<T: Texts>(
    alloc: Global,
    texts: &T,
    part: Stretch,
    mut to: PiecedText,
) -> Result<PiecedText, OutOfMemory>
    requires within { part.first + part.count ≤ T.count texts.now }
    requires few { part.first + part.count < 2 ^ 32 }
    ensures { IfOk result (λ made. made ≡ to ++ stretch (T.text texts.now) part.first part.count) }
{
    to.push(add_stretch(alloc, texts, part, text_for(alloc, part.count))?)?;
    Ok(to)
}

// How many of so many texts fall to the last of the workers.
fn last_share(count: u32, workers: u32) -> u32
    requires workers { 0 < workers }
    ensures { result ≤ count }
{
    count / workers
}

// Adds the texts of a stretch: a thread makes those of the last worker, as one piece, while the
// caller sees to those of the others.
#[cycle(stretches)]
fn add_parted<R: Threads + Sync, T: Texts + Sync>(
    rt: &R,
    alloc: Global,
    texts: &T,
    part: Stretch,
    to: PiecedText,
) -> Result<PiecedText, OutOfMemory>
    requires within { part.first + part.count ≤ T.count texts.now }
    requires few { part.first + part.count < 2 ^ 32 }
    requires workers { 1 < part.workers }
    ensures { IfOk result (λ made. made ≡ to ++ stretch (T.text texts.now) part.first part.count) }
{
    let Stretch {
        first,
        count,
        workers,
    } = part;
    let others = workers - 1;
    let back = last_share(count, workers);
    let front = count - back;
    let middle = first + front;
    let (made_behind, made) = join(
        rt,
        || -> Result<Bytes, OutOfMemory>
            requires { IsSync T.row × (middle + back ≤ T.count texts.now)
                × (middle + back < 2 ^ 32) }
            ensures { IfOk result (λ made. made ≡ stretch (T.text texts.entry.now) middle back) }
        {
            let behind = Stretch {
                first: middle,
                count: back,
                workers: 1,
            };
            add_stretch(alloc, texts, behind, text_for(alloc, back))
        },
        || -> Result<PiecedText, OutOfMemory>
            requires { IsSync R.row × IsSync T.row × (first + front ≤ T.count texts.now)
                × (first + front < 2 ^ 32) }
            ensures { IfOk result (λ made.
                made ≡ to ++ stretch (T.text texts.entry.now) first front) }
        {
            let before = Stretch {
                first,
                count: front,
                workers: others,
            };
            add_stretches(rt, alloc, texts, before, to)
        },
    );
    let mut made = made?;
    made.push(made_behind?)?;
    Ok(made)
}

// Adds the texts of a stretch, by its workers at once.
#[cycle(stretches)]
fn add_stretches<R: Threads + Sync, T: Texts + Sync>(
    rt: &R,
    alloc: Global,
    texts: &T,
    part: Stretch,
    to: PiecedText,
) -> Result<PiecedText, OutOfMemory>
    requires within { part.first + part.count ≤ T.count texts.now }
    requires few { part.first + part.count < 2 ^ 32 }
    ensures { IfOk result (λ made. made ≡ to ++ stretch (T.text texts.now) part.first part.count) }
{
    if part.workers < 2 {
        return add_piece(alloc, texts, part, to);
    }
    add_parted(rt, alloc, texts, part, to)
}

/// Adds so many texts at the end of one, in the order of their numbers, by so many workers at once,
/// or [`MOST_AT_ONCE`]: each makes a stretch of them, which is a piece. Where no thread can be
/// started, one after the other makes its own. It fails for want of memory alone.
pub fn add_texts<R: Threads + Sync, T: Texts + Sync>(
    rt: &R,
    alloc: Global,
    texts: &T,
    count: u32,
    workers: u32,
    to: PiecedText,
) -> Result<PiecedText, OutOfMemory>
    requires { count ≤ T.count texts.now }
    ensures { IfOk result (λ made. made ≡ to ++ stretch (T.text texts.now) 0 count) }
{
    let part = Stretch {
        first: 0,
        count,
        workers: workers.min(MOST_AT_ONCE),
    };
    add_stretches(rt, alloc, texts, part, to)
}
