ghost use Rattle.std.specs.Prelude.{◌≡◌, ◌<◌, ◌≤◌, ◌-◌, ◌^◌, ℕ, if◌then◌else◌, List, true, false};
ghost use Rattle.std.specs.Prelude.{length, min, drop, get_or, Some, IfOk, IfSome, OnOk};
ghost use Rattle.std.specs.Option.{option_copied};
ghost use Rattle.label_base.specs.Bounded.{greatest_below};
ghost use Rattle.label_base.specs.NumberUnder.{number_under};
ghost use Rattle.file_paths.specs.Path.{are_names, with_slashes};
ghost use Rattle.file_paths.specs.PathRef.{path_of};
ghost use Rattle.file_paths.specs.PathText.{ends_name};
ghost use Rattle.path_subs.specs.Listed.{AreSubsListed, sub_fits_at, has_text, last_covering, mark};
ghost use Rattle.path_subs.specs.Listed.{mark_by, sub_at};
ghost use Rattle.path_subs.specs.Subs.{SubValue, covering, covers};

use crate::sub::Sub;
use file_paths::{PathRef, SLASH};
use indexmap::IndexMap;
use label_base::{OutOfMemory, Row, greater};
use std::alloc::Global;
use std::marker::Model;

// What marks tell apart: lengths of texts, and last bytes.
const LENGTHS: usize = 4096;

const BYTES: usize = 64;

/// The lines of one substitution file, seen as their list, and what finds the last one that covers
/// a path without a look at the others.
#[derive(Debug, Drop)]
pub struct SubList {
    lines: Row<Sub>,
    // Under the text of each source the index of the last line that has it.
    last: IndexMap<Vec<u8>, usize>,
    // The marks of the sources' texts: a text without one is no source's, and isn't looked up.
    marks: Vec<bool>,
    // The length of the longest source's text.
    longest: usize,
}

impl Model for SubList {
    ghost use Rattle.std.specs.Prelude.{List, length};
    ghost use Rattle.path_subs.specs.Listed.{AreSubsListed};
    ghost use Rattle.path_subs.specs.Subs.{SubValue};

    ghost Value = { List SubValue };

    ghost view = { λ s. s.lines };

    ghost invariant = { λ s.
        AreSubsListed s.lines (length s.lines) s.last.entries s.marks.items s.longest };
}

// The number under a text.
fn number_under(last: &IndexMap<Vec<u8>, usize>, text: &[u8]) -> Option<usize>
    ensures { result ≡ number_under text.now last.now.entries }
{
    match last.get(text) {
        Some(number) => Some(*number),
        None => None,
    }
}

// The mark of the text of so many bytes that ends with this one. Paths are shorter than the lengths
// that are told apart.
fn mark_of(length: usize, byte: u8) -> usize
    ensures { result ≡ mark_by length byte }
{
    length % LENGTHS * BYTES + byte as usize % BYTES
}

// Whether a name ends at a place.
fn ends_name_at(text: &[u8], end: usize) -> bool
    requires { end ≤ length text.now }
    ensures { result ≡ ends_name (drop end text.now) }
{
    end == text.len() || text[end] == SLASH
}

fn is_marked(marks: &[bool], text: &[u8], end: usize) -> bool
    requires above { 0 < end }
    requires within { end ≤ length text.now }
    ensures { result ≡ get_or marks.now (mark_by end (get_or text.now (end - 1) 0)) false }
{
    let mark = mark_of(end, text[end - 1]);
    mark < marks.len() && marks[mark]
}

// The last line whose source's text is what stands before a place.
fn number_at(
    last: &IndexMap<Vec<u8>, usize>,
    marks: &[bool],
    text: &[u8],
    end: usize,
) -> Option<usize>
    requires above { 0 < end }
    requires within { end ≤ length text.now }
    ensures { (subs : List SubValue) → (longest : ℕ)
        → AreSubsListed subs (length subs) last.now.entries marks.now longest
        → result ≡ greatest_below (length subs) (λ i. sub_fits_at text.now end (sub_at subs i)) }
{
    if !ends_name_at(text, end) {
        return None;
    }
    if !is_marked(marks, text, end) {
        return None;
    }
    number_under(last, &text[..end])
}

// At how many places of a text a source's can end.
fn places_within(text: &[u8], longest: usize) -> usize
    ensures { result ≡ min (length text.now) longest }
{
    text.len().min(longest)
}

// The index of the last line that covers a path.
fn last_covering(
    last: &IndexMap<Vec<u8>, usize>,
    marks: &[bool],
    longest: usize,
    path: &PathRef<'_>,
) -> Option<usize>
    ensures { (subs : List SubValue)
        → AreSubsListed subs (length subs) last.now.entries marks.now longest
        → result ≡ last_covering subs (path_of path.now) }
{
    let text = path.as_text();
    let most = places_within(text, longest);
    let mut found = None;
    'ends: for place in 0..most {
        found = greater(found, number_at(last, marks, text, place + 1));
    }
    found
}

// Puts a line under its source's text, behind all lines that have it.
fn list_line(
    alloc: Global,
    last: &mut IndexMap<Vec<u8>, usize>,
    sub: &Sub,
    i: usize,
) -> Result<(), OutOfMemory>
    ensures { OnOk result ((text : List ℕ) → number_under text last.new.entries
        ≡ (if has_text text sub.now then Some i else number_under text last.old.entries)) }
{
    let key = Vec::from_slice(alloc, sub.source.path().as_text())?;
    last.insert(key, i)?;
    Ok(())
}

// Makes room for a mark.
fn room_for(marks: &mut Vec<bool>, mark: usize) -> Result<(), OutOfMemory>
    requires { mark < 2 ^ 20 }
    ensures room { OnOk result (mark < length marks.new.items) }
    ensures keeps { (m : ℕ) → get_or marks.new.items m false ≡ get_or marks.old.items m false }
{
    if marks.len() <= mark {
        marks.resize(mark + 1, false)?;
    }
    Ok(())
}

fn add_mark(marks: &mut Vec<bool>, mark: usize) -> Result<(), OutOfMemory>
    requires { mark < 2 ^ 20 }
    ensures marks { OnOk result (get_or marks.new.items mark false ≡ true) }
    ensures keeps { (m : ℕ) → get_or marks.old.items m false ≡ true
        → get_or marks.new.items m false ≡ true }
{
    room_for(marks, mark)?;
    marks[mark] = true;
    Ok(())
}

// The text of a line's source.
fn source_text(sub: &Sub) -> &[u8]
    ensures value { result.now ≡ with_slashes sub.now.source }
    ensures some { 0 < length result.now }
    ensures below_root { 0 < length sub.now.source }
    ensures named { are_names sub.now.source ≡ true }
{
    sub.source.path().as_text()
}

// Marks the text of a line's source, and answers how long it is.
fn mark_line(marks: &mut Vec<bool>, sub: &Sub) -> Result<usize, OutOfMemory>
    ensures length { IfOk result (λ long. long ≡ length (with_slashes sub.now.source)) }
    ensures below_root { IfOk result (λ _. 0 < length sub.now.source) }
    ensures named { IfOk result (λ _. are_names sub.now.source ≡ true) }
    ensures marks { OnOk result
        (get_or marks.new.items (mark (with_slashes sub.now.source)) false ≡ true) }
    ensures keeps { (m : ℕ) → get_or marks.old.items m false ≡ true
        → get_or marks.new.items m false ≡ true }
{
    let text = source_text(sub);
    add_mark(marks, mark_of(text.len(), text[text.len() - 1]))?;
    Ok(text.len())
}

// What finds the lines: under the text of each source its last line, the marks of all, and how long
// the longest is.
#[derive(Drop)]
struct Listing {
    last: IndexMap<Vec<u8>, usize>,
    marks: Vec<bool>,
    longest: usize,
}

fn list_all(alloc: Global, lines: &[Sub]) -> Result<Listing, OutOfMemory>
    ensures { IfOk result (λ listing. AreSubsListed lines.now (length lines.now)
        listing.last.entries listing.marks.items listing.longest) }
{
    let mut last = IndexMap::new(alloc);
    let mut marks = Vec::new(alloc);
    let mut longest = 0;
    'lines: for i in 0..lines.len() {
        let sub = &lines[i];
        list_line(alloc, &mut last, sub, i)?;
        longest = mark_line(&mut marks, sub)?.max(longest);
    }
    Ok(Listing {
        last,
        marks,
        longest,
    })
}

impl SubList {
    /// The lines, made ready to be found.
    pub fn new(alloc: Global, lines: Row<Sub>) -> Result<SubList, OutOfMemory>
        ensures { IfOk result (λ list. list ≡ lines) }
    {
        let listing = list_all(alloc, lines.as_slice())?;
        Ok(SubList {
            lines,
            last: listing.last,
            marks: listing.marks,
            longest: listing.longest,
        })
    }

    /// The lines, in their order.
    pub fn lines(&self) -> &Row<Sub>
        ensures { result.now ≡ self.now }
    {
        &self.lines
    }

    /// The last line that covers the path. It looks at the front of the path alone, up to the
    /// length of the longest source, and looks up what stands before a slash where some source is
    /// as long.
    pub fn last_cover(&self, path: &PathRef<'_>) -> Option<&Sub>
        ensures value { option_copied result ≡ covering self.now (path_of path.now) }
        ensures covers { IfSome result (λ sub. covers (path_of path.now) sub.now ≡ true) }
    {
        match last_covering(&self.last, self.marks.as_slice(), self.longest, path) {
            Some(index) => Some(self.lines.get(index)),
            None => None,
        }
    }
}
