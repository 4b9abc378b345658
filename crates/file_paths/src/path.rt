ghost use Rattle.std.specs.Cmp.{partial_equiv_from_equiv, partial_order_from_own_ties};
ghost use Rattle.std.specs.Cmp.Rules.{comparing};
ghost use Rattle.std.specs.Cmp.Lexicographic.{pointwise, lists_total, lists_ties, texts_ties};
ghost use Rattle.std.specs.Cmp.Lexicographic.{lists_equiv, slice_cmp, nat_list_cmp_total};
ghost use Rattle.std.specs.Cmp.Lexicographic.{nat_list_eq_equiv};
ghost use Rattle.std.specs.Ordering.{as_partial_cmp, nat_cmp};
ghost use Rattle.std.specs.Str.{bytes_eq};
ghost use Rattle.std.proofs.Common.{rules};
ghost use Rattle.file_paths.specs.Path.{path_cmp};
ghost use Rattle.std.specs.Prelude.{◌≡◌, ◌++◌, ◌∷◌, ◌<◌, ◌≤◌, [], true, IfOk, IfSome, IfNone, OnOk};
ghost use Rattle.std.specs.Prelude.{OnErr, length, take, drop, Ok, Some, slice_get, false, ◌==◌};
ghost use Rattle.std.specs.Prelude.{if◌then◌else◌};
ghost use Rattle.std.specs.List.{list_any, slice_split, count_by};
ghost use Rattle.label_base.specs.Text.{is_nonempty};
ghost use Rattle.file_paths.specs.Path.{are_names, path_names, path_or, path_read, path_text};
ghost use Rattle.file_paths.specs.Path.{is_dot_part, is_name, at_or_below, with_slashes, is_slash};
ghost use Rattle.file_paths.specs.PathText.{text_at_or_below, ends_name, byte_rank, text_cmp};
ghost use Rattle.file_paths.specs.PathText.{IsNormal, begins_plainly, is_plain_path};
ghost use Rattle.label_base.specs.Answers.{Answers, fault_cause};
ghost use Rattle.file_paths.specs.PathRef.{path_of};

use crate::path_fault::{PathFault, PathWhy};
use crate::path_key::PathKey;
use crate::path_ref::PathRef;
use label_base::{Bytes, Fault, OutOfMemory, cut_at};
use std::alloc::Global;
use std::cmp::Ordering;
use std::marker::Model;

/// What stands before each name of a path.
pub const SLASH: u8 = b'/';

/// What the components `.` and `..` are made of.
pub const DOT: u8 = b'.';

/// The most bytes that spell a path: `PATH_MAX` of limits.h(0p), less its NUL.
pub const MOST_PATH_BYTES: usize = 4095;

/// An absolute path, seen as its names: what stands between the slashes, as path_resolution(7)
/// says.
///
/// It is kept as one text, with a slash before each name and none for the path `/`. Its order is
/// that of lists of names, so that a directory comes just before all that is below it.
#[derive(Debug, Drop)]
pub struct NormPath {
    text: Vec<u8>,
}

impl Model for NormPath {
    ghost use Rattle.std.specs.Prelude.{List, ℕ};
    ghost use Rattle.file_paths.specs.Path.{path_names};
    ghost use Rattle.file_paths.specs.PathText.{IsNormal};

    ghost Value = { List (List ℕ) };

    ghost view = { λ p. path_names p.text.items };

    ghost invariant = { λ p. IsNormal p.text.items };
}

fn is_dots(name: &[u8]) -> bool
    ensures { result ≡ is_dot_part name.now }
{
    name == b".".as_slice() || name == b"..".as_slice()
}

// Whether a component is `.` or `..`.
fn has_dots(bytes: &[u8]) -> bool
    ensures { result ≡ list_any is_dot_part (path_names bytes.now) }
{
    let mut left = Some(bytes);
    while let Some(text) = left {
        let (name, after) = cut_at(SLASH, text);
        if is_dots(name) {
            return true;
        }
        left = after;
    }
    false
}

// Whether a name that begins with no dot stands behind each slash: such a text needs no cutting.
pub(crate) fn is_plain(bytes: &[u8]) -> bool
    ensures { result ≡ is_plain_path bytes.now }
{
    for i in 0..bytes.len() {
        if bytes[i] == SLASH && !begins_plainly(bytes, i + 1) {
            return false;
        }
    }
    true
}

fn begins_plainly(bytes: &[u8], at: usize) -> bool
    requires { at ≤ length bytes.now }
    ensures { result ≡ begins_plainly (drop at bytes.now) }
{
    at < bytes.len() && bytes[at] != SLASH && bytes[at] != DOT
}

fn copy_of_text(alloc: Global, text: &[u8]) -> Result<Vec<u8>, OutOfMemory>
    ensures { IfOk result (λ copy. copy.items ≡ text.now) }
{
    Ok(Vec::from_slice(alloc, text)?)
}

// A slash before each name that stands between the slashes.
fn normal_text(alloc: Global, bytes: &[u8]) -> Result<Vec<u8>, OutOfMemory>
    requires { list_any (λ b. b == 0) bytes.now ≡ false }
    ensures names { IfOk result (λ text. path_names text.items ≡ path_names bytes.now) }
    ensures normal { IfOk result (λ text. IsNormal text.items) }
{
    let mut text = Vec::with_capacity(alloc, bytes.len())?;
    let mut left = Some(bytes);
    while let Some(rest) = left {
        let (name, after) = cut_at(SLASH, rest);
        add_part(&mut text, name)?;
        left = after;
    }
    Ok(text)
}

// Adds a component, if there is something in it.
fn add_part(text: &mut Vec<u8>, name: &[u8]) -> Result<(), OutOfMemory>
    ensures { OnOk result (text.new.items ≡ text.old.items
        ++ with_slashes (if is_nonempty name.now then name.now ∷ [] else [])) }
{
    if !name.is_empty() {
        text.push(SLASH)?;
        text.extend_from_slice(name)?;
    }
    Ok(())
}

pub(crate) fn text_or_slash(text: &[u8]) -> &[u8]
    requires { IsNormal text.now }
    ensures { result.now ≡ path_text (path_names text.now) }
{
    if text.is_empty() { b"/" } else { text }
}

// Whether a path's text is the top's, or goes on with another name.
pub(crate) fn is_text_at_or_below(text: &[u8], top: &[u8]) -> bool
    ensures { result ≡ text_at_or_below text.now top.now }
{
    text.starts_with(top) && ends_name_at(text, top.len())
}

fn ends_name_at(text: &[u8], at: usize) -> bool
    requires { at ≤ length text.now }
    ensures { result ≡ ends_name (drop at text.now) }
{
    at == text.len() || text[at] == SLASH
}

// Adds a last name, or nothing.
fn push_part(text: &mut Vec<u8>, name: &[u8]) -> Result<(), OutOfMemory>
    ensures ok { OnOk result (text.new.items ≡ text.old.items ++ SLASH ∷ name.now) }
    ensures err { OnErr result (text.new.items ≡ text.old.items) }
{
    text.reserve(name.len() + 1)?;
    text.push(SLASH)?;
    text.extend_from_slice(name)?;
    Ok(())
}

// A text with another behind it.
fn joined(alloc: Global, front: &[u8], end: &[u8]) -> Result<Vec<u8>, OutOfMemory>
    ensures { IfOk result (λ joined. joined.items ≡ front.now ++ end.now) }
{
    let mut joined = Vec::with_capacity(alloc, front.len() + end.len())?;
    joined.extend_from_slice(front)?;
    joined.extend_from_slice(end)?;
    Ok(joined)
}

pub(crate) fn count_slashes(text: &[u8]) -> usize
    ensures { result ≡ count_by is_slash text.now }
{
    text.iter().filter(|byte| **byte == SLASH).count()
}

// The piece at a place of those between the slashes.
pub(crate) fn piece_at(text: &[u8], i: usize) -> &[u8]
    requires { i < length (slice_split is_slash text.now) }
    ensures { slice_get (slice_split is_slash text.now) i ≡ Some result.now }
{
    let mut rest = text;
    for passed in 0..i {
        let (_, after) = cut_at(SLASH, rest);
        let Some(after) = after else { unreachable!() };
        rest = after;
    }
    cut_at(SLASH, rest).0
}

pub(crate) fn rank(byte: u8) -> u16
    ensures { result ≡ byte_rank byte }
{
    if byte == SLASH { 0 } else { byte as u16 + 1 }
}

// What stands behind the first 16 bytes of two texts, if these are the same.
fn behind_same<'a>(text: &'a [u8], other: &'a [u8]) -> Option<(&'a [u8], &'a [u8])>
    ensures same { IfSome result (λ behind. text_cmp text.now other.now
        ≡ text_cmp behind.0.now behind.1.now) }
    ensures shorter { IfSome result (λ behind. length behind.0.now < length text.now) }
    ensures none { IfNone result (take 16 text.now ≡ take 16 other.now → length text.now < 16) }
{
    let (front, rest) = text.split_first_chunk::<16>()?;
    let (other_front, other_rest) = other.split_first_chunk::<16>()?;
    if front == other_front {
        Some((rest, other_rest))
    } else {
        None
    }
}

// The order of paths' texts. Paths of one tree have long fronts in common.
pub(crate) fn cmp_texts(text: &[u8], other: &[u8]) -> Ordering
    ensures { result ≡ text_cmp text.now other.now }
{
    let mut left = text;
    let mut other_left = other;
    'chunks: while let Some((rest, other_rest)) = behind_same(left, other_left) {
        left = rest;
        other_left = other_rest;
    }
    cmp_bytes(left, other_left)
}

fn cmp_bytes(text: &[u8], other: &[u8]) -> Ordering
    ensures { result ≡ text_cmp text.now other.now }
{
    let common = text.len().min(other.len());
    for i in 0..common {
        if text[i] != other[i] {
            return rank(text[i]).cmp(&rank(other[i]));
        }
    }
    text.len().cmp(&other.len())
}

impl NormPath {
    /// The path `/`.
    pub fn root(alloc: Global) -> NormPath
        ensures { result ≡ [] }
    {
        NormPath {
            text: Vec::new(alloc),
        }
    }

    /// Reads an absolute path. Runs of slashes count as one, and slashes at the end as none.
    ///
    /// The first fault in the order of [`PathWhy`] is told: no bytes, more than 4,095 of them, a
    /// NUL, another first byte than a slash, a component `.` or `..`.
    pub fn read(alloc: Global, bytes: &[u8]) -> Result<NormPath, PathFault>
        ensures { Answers (λ path. path) fault_cause result (path_read bytes.now) }
    {
        if bytes.is_empty() {
            return Err(Fault::Why(PathWhy::Empty));
        }
        if bytes.len() > MOST_PATH_BYTES {
            return Err(Fault::Why(PathWhy::PathTooLong));
        }
        if bytes.contains(&0) {
            return Err(Fault::Why(PathWhy::HasNul));
        }
        if bytes[0] != SLASH {
            return Err(Fault::Why(PathWhy::NotAbsolute));
        }
        if is_plain(bytes) {
            return Ok(NormPath {
                text: copy_of_text(alloc, bytes)?,
            });
        }
        if has_dots(bytes) {
            return Err(Fault::Why(PathWhy::DotPart));
        }
        Ok(NormPath {
            text: normal_text(alloc, bytes)?,
        })
    }

    /// The same, where it doesn't matter what is wrong with the bytes: this reason stands for all.
    pub fn read_or<W: Copy>(alloc: Global, bytes: &[u8], why: W) -> Result<NormPath, Fault<W>>
        ensures { Answers (λ path. path) fault_cause result (path_or why bytes.now) }
    {
        match NormPath::read(alloc, bytes) {
            Ok(path) => Ok(path),
            Err(fault) => Err(fault.because(why)),
        }
    }

    /// The same path.
    pub fn copy(&self, alloc: Global) -> Result<NormPath, OutOfMemory>
        ensures { IfOk result (λ copy. copy ≡ self.now) }
    {
        Ok(NormPath {
            text: copy_of_text(alloc, self.text.as_slice())?,
        })
    }

    /// Adds a last name. The path knows no limit of length.
    ///
    /// After a refusal the path is as it was.
    pub fn push_name(&mut self, name: &[u8]) -> Result<(), OutOfMemory>
        requires { is_name name.now ≡ true }
        ensures ok { OnOk result (self.new ≡ self.old ++ name.now ∷ []) }
        ensures err { OnErr result (self.new ≡ self.old) }
    {
        push_part(&mut self.text, name)?;
        Ok(())
    }

    /// How many names the path has: none for `/`.
    pub fn names(&self) -> usize
        ensures { result ≡ length self.now }
    {
        self.path().names()
    }

    /// The name at a place, counted from 0 at the top.
    pub fn name(&self, i: usize) -> &[u8]
        requires { i < length self.now }
        ensures value { slice_get self.now i ≡ Some result.now }
        ensures named { is_name result.now ≡ true }
    {
        self.path().name(i)
    }

    /// Whether the path is the other one or below it.
    pub fn is_at_or_below(&self, top: &NormPath) -> bool
        ensures { result ≡ at_or_below self.now top.now }
    {
        self.path().is_at_or_below(&top.path())
    }

    /// The text of the path: `/` for no names, else a slash before each name.
    ///
    /// [`NormPath::read`] reads it back as this path, unless it is too long or a name is `.` or
    /// `..`.
    pub fn as_text(&self) -> &[u8]
        ensures value { result.now ≡ path_text self.now }
        ensures read_back { length result.now ≤ MOST_PATH_BYTES
            → list_any is_dot_part self.now ≡ false
            → path_read result.now ≡ Ok self.now }
    {
        self.path().as_text()
    }

    /// The path, made ready to be sorted among many.
    pub fn key(&self) -> PathKey<'_>
        ensures { result ≡ self.now }
    {
        self.path().key()
    }

    /// A path's names behind a target's, in place of the source's, which the path is at or below.
    pub fn replaced(
        alloc: Global,
        path: &PathRef<'_>,
        source: &PathRef<'_>,
        target: &PathRef<'_>,
    ) -> Result<NormPath, OutOfMemory>
        requires { at_or_below (path_of path.now) (path_of source.now) ≡ true }
        ensures { IfOk result (λ changed. changed
            ≡ path_of target.now ++ drop (length (path_of source.now)) (path_of path.now)) }
    {
        let behind = path.behind(source);
        Ok(NormPath {
            text: joined(alloc, target.kept_text(), behind.kept_text())?,
        })
    }

    // The text that is kept.
    pub(crate) fn kept_text(&self) -> &[u8]
        ensures text { result.now ≡ with_slashes self.now }
        ensures names { are_names self.now ≡ true }
    {
        self.text.as_slice()
    }

    /// The path, borrowed.
    pub fn path(&self) -> PathRef<'_>
        ensures { path_of result ≡ self.now }
    {
        PathRef::of_text(self.text.as_slice())
    }

    /// A copy of the text of the path.
    pub fn text(&self, alloc: Global) -> Result<Bytes, OutOfMemory>
        ensures { IfOk result (λ text. text ≡ path_text self.now) }
    {
        Bytes::copy_of(alloc, self.as_text())
    }
}

impl PartialEq for NormPath {
    ghost eq = { pointwise bytes_eq };

    ghost laws = { partial_equiv_from_equiv (lists_equiv nat_list_eq_equiv) };

    fn eq(&self, other: &NormPath) -> bool {
        self.text == other.text
    }
}

impl Eq for NormPath {
    ghost laws = { lists_equiv nat_list_eq_equiv };
}

impl PartialOrd for NormPath {
    ghost partial_cmp = { as_partial_cmp path_cmp };

    ghost laws = { partial_order_from_own_ties (Prim.search (comparing, rules))
        (λ x y. lists_ties (slice_cmp nat_cmp) texts_ties x y) };

    fn partial_cmp(&self, other: &NormPath) -> Option<Ordering> {
        Some(self.cmp(other))
    }
}

impl Ord for NormPath {
    ghost cmp = { path_cmp };

    ghost total = { lists_total nat_list_cmp_total };

    ghost matches_partial_cmp = { Prim.search (comparing, rules) };

    ghost matches_eq = { λ x y. lists_ties (slice_cmp nat_cmp) texts_ties x y };

    fn cmp(&self, other: &NormPath) -> Ordering {
        cmp_texts(self.text.as_slice(), other.text.as_slice())
    }
}
