ghost use Rattle.std.specs.Prelude.{◌≡◌, ◌<◌, ◌+◌, ◌^◌, IfOk, IfSome, get_or, length};
ghost use Rattle.tree_model.specs.Extents.{EndsFrom, ParentsTo, before, extent_of, is_above};
ghost use Rattle.tree_model.specs.Extents.{is_inside, parent_of, parent_read};
ghost use Rattle.tree_model.specs.Tree.{ByPath};

use crate::sorted::Sorted;
use label_base::OutOfMemory;
use std::alloc::Global;

/// The word of an entry that has no parent.
pub const NO_PARENT: u32 = u32::MAX;

/// The word with an index.
pub fn word_at(words: &[u32], i: u32) -> u32
    requires { i < length words.now }
    ensures { result ≡ get_or words.now i 0 }
{
    words[i as usize]
}

/// The parent that a word tells.
pub fn parent_read(word: u32) -> Option<u32>
    ensures { result ≡ parent_read word }
{
    if word == NO_PARENT { None } else { Some(word) }
}

// The word that tells a parent.
fn word_of(parent: Option<u32>) -> u32
    requires { IfSome parent (λ d. d < NO_PARENT) }
    ensures { parent_read result ≡ parent }
{
    match parent {
        Some(d) => d,
        None => NO_PARENT,
    }
}

// Whether the index is an entry's, and that entry is d or lies below it.
fn is_inside(sorted: &Sorted, d: u32, c: u32) -> bool
    requires { d < length sorted.now }
    ensures { result ≡ is_inside sorted.now d c }
{
    c < sorted.len() && sorted.is_in_extent(d, c)
}

// The index behind the entries at or below d, by those of the entries behind it.
fn end_of(sorted: &Sorted, ends: &[u32], d: u32) -> u32
    requires by_path { ByPath sorted.now }
    requires known { d < length sorted.now }
    requires behind { EndsFrom (d + 1) sorted.now ends.now }
    requires few { length sorted.now < 2 ^ 32 }
    ensures { result ≡ extent_of sorted.now d }
{
    let mut c = d + 1;
    'below: while is_inside(sorted, d, c) {
        c = word_at(ends, c);
    }
    c
}

/// The extent of each entry.
pub fn all_ends(alloc: Global, sorted: &Sorted) -> Result<Vec<u32>, OutOfMemory>
    requires { ByPath sorted.now }
    ensures { IfOk result (λ ends. EndsFrom 0 sorted.now ends.items) }
{
    let count = sorted.len();
    let mut ends = vec![in alloc; 0; count as usize]?;
    'entries: for i in 0..count {
        let d = count - 1 - i;
        ends[d as usize] = end_of(sorted, ends.as_slice(), d);
    }
    Ok(ends)
}

// The index before.
fn before(e: u32) -> Option<u32>
    ensures { result ≡ before e }
{
    if e == 0 { None } else { Some(e - 1) }
}

// Whether an entry before e is a directory that e lies below.
fn is_above(sorted: &Sorted, ends: &[u32], e: u32, d: u32) -> bool
    requires by_path { ByPath sorted.now }
    requires ends { EndsFrom 0 sorted.now ends.now }
    requires before { d < e }
    requires known { e < length sorted.now }
    ensures { result ≡ is_above sorted.now e d }
{
    e < word_at(ends, d) && sorted.is_directory(d)
}

// The nearest directory above e, by those of the entries before it.
fn parent_at(sorted: &Sorted, ends: &[u32], parents: &[u32], e: u32) -> Option<u32>
    requires by_path { ByPath sorted.now }
    requires ends { EndsFrom 0 sorted.now ends.now }
    requires parents { ParentsTo e sorted.now parents.now }
    requires known { e < length sorted.now }
    ensures value { result ≡ parent_of sorted.now e }
    ensures before { IfSome result (λ d. d < e) }
{
    let mut above = before(e);
    'above: while let Some(d) = above {
        if is_above(sorted, ends, e, d) {
            return Some(d);
        }
        above = parent_read(word_at(parents, d));
    }
    None
}

/// A word for each entry, which tells its parent.
pub fn all_parents(alloc: Global, sorted: &Sorted, ends: &[u32]) -> Result<Vec<u32>, OutOfMemory>
    requires by_path { ByPath sorted.now }
    requires ends { EndsFrom 0 sorted.now ends.now }
    ensures { IfOk result (λ parents. ParentsTo (length sorted.now) sorted.now parents.items) }
{
    let mut parents = Vec::with_capacity(alloc, sorted.len() as usize)?;
    'entries: for e in 0..sorted.len() {
        let parent = parent_at(sorted, ends, parents.as_slice(), e);
        parents.push(word_of(parent))?;
    }
    Ok(parents)
}
