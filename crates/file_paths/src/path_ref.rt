ghost use Rattle.file_paths.specs.PathText.{IsNormal};
ghost use Rattle.std.specs.Prelude.{◌≡◌, ◌≤◌, drop, length};

use crate::path::{
    MOST_PATH_BYTES, cmp_texts, count_slashes, is_text_at_or_below, piece_at, text_or_slash,
};
use crate::path_key::PathKey;
use std::cmp::Ordering;

/// A borrowed absolute path, as `str` stands beside `String`.
#[derive(Clone, Copy, Debug)]
pub struct PathRef<'a> {
    // A slash before each name, and nothing for the path `/`.
    text: &'a [u8],
    ghost normal: { IsNormal text.now },
}

// What of a text is behind another's length.
fn text_behind<'a>(text: &'a [u8], top: &[u8]) -> &'a [u8]
    requires { length top.now ≤ length text.now }
    ensures { result.now ≡ drop (length top.now) text.now }
{
    &text[top.len()..]
}

impl<'a> PathRef<'a> {
    ghost use Rattle.std.specs.Prelude.{◌<◌, Ok, Some, false, true, slice_get};
    ghost use Rattle.std.specs.List.{list_any};
    ghost use Rattle.std.specs.Cmp.Lexicographic.{pointwise};
    ghost use Rattle.label_base.specs.Text.{same_bytes};
    ghost use Rattle.file_paths.specs.Path.{
      at_or_below,
      is_dot_part,
      is_name,
      path_cmp,
      path_names,
      path_read,
      path_text,
    };
    ghost use Rattle.file_paths.specs.PathRef.{path_of};

    /// The path that is kept as this text.
    pub fn of_text(text: &'a [u8]) -> PathRef<'a>
        requires { IsNormal text.now }
        ensures { path_of result ≡ path_names text.now }
    {
        PathRef { text }
    }

    /// How many names the path has: none for `/`.
    pub fn names(&self) -> usize
        ensures { result ≡ length (path_of self.now) }
    {
        count_slashes(self.text)
    }

    /// The name at a place, counted from 0 at the top.
    pub fn name(&self, i: usize) -> &'a [u8]
        requires { i < length (path_of self.now) }
        ensures value { slice_get (path_of self.now) i ≡ Some result.now }
        ensures named { is_name result.now ≡ true }
    {
        piece_at(&self.text[1..], i)
    }

    /// Whether the path is the other one or below it.
    pub fn is_at_or_below(&self, top: &PathRef<'_>) -> bool
        ensures { result ≡ at_or_below (path_of self.now) (path_of top.now) }
    {
        is_text_at_or_below(self.text, top.text)
    }

    /// The text of the path: `/` for no names, else a slash before each name.
    pub fn as_text(&self) -> &'a [u8]
        ensures value { result.now ≡ path_text (path_of self.now) }
        ensures read_back { length result.now ≤ MOST_PATH_BYTES
            → list_any is_dot_part (path_of self.now) ≡ false
            → path_read result.now ≡ Ok (path_of self.now) }
    {
        text_or_slash(self.text)
    }

    /// The path, made ready to be sorted among many.
    pub fn key(&self) -> PathKey<'a>
        ensures { result ≡ path_of self.now }
    {
        PathKey::of_text(self.text)
    }

    /// What of the path is behind the other one, which it is at or below.
    pub fn behind(&self, top: &PathRef<'_>) -> PathRef<'a>
        requires { at_or_below (path_of self.now) (path_of top.now) ≡ true }
        ensures { path_of result ≡ drop (length (path_of top.now)) (path_of self.now) }
    {
        PathRef {
            text: text_behind(self.text, top.text),
        }
    }

    /// Whether the paths are the same.
    pub fn is_same(&self, other: &PathRef<'_>) -> bool
        ensures { result ≡ pointwise same_bytes (path_of self.now) (path_of other.now) }
    {
        self.text == other.text
    }

    // The text that is kept.
    pub(crate) fn kept_text(&self) -> &'a [u8]
        ensures names { path_names result.now ≡ path_of self.now }
        ensures normal { IsNormal result.now }
    {
        self.text
    }

    /// How the paths are ordered: a directory comes just before all that is below it.
    pub fn compare(&self, other: &PathRef<'_>) -> Ordering
        ensures { result ≡ path_cmp (path_of self.now) (path_of other.now) }
    {
        cmp_texts(self.text, other.text)
    }
}
