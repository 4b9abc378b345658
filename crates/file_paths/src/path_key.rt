ghost use Rattle.std.specs.Cmp.{partial_equiv_from_equiv, partial_order_from_own_ties};
ghost use Rattle.std.specs.Cmp.Rules.{comparing};
ghost use Rattle.std.specs.Cmp.Lexicographic.{pointwise, lists_total, lists_ties, texts_ties};
ghost use Rattle.std.specs.Cmp.Lexicographic.{lists_equiv, slice_cmp, nat_list_cmp_total};
ghost use Rattle.std.specs.Cmp.Lexicographic.{nat_list_eq_equiv};
ghost use Rattle.std.specs.Ordering.{as_partial_cmp, nat_cmp};
ghost use Rattle.std.specs.Str.{bytes_eq};
ghost use Rattle.std.proofs.Common.{rules};
ghost use Rattle.std.specs.Prelude.{◌≡◌, ◌<◌, drop};
ghost use Rattle.file_paths.specs.Path.{path_cmp, path_names};
ghost use Rattle.file_paths.specs.PathFront.{digit, front_length};
ghost use Rattle.file_paths.specs.PathText.{IsNormal};

use crate::path::{cmp_texts, rank};
use std::cmp::Ordering;
use std::marker::Model;

// How many bytes a word holds, each as a digit to the base 512.
const DIGITS: usize = 7;

/// A path to be sorted among many, seen as the path.
///
/// The first 21 bytes of its text stand in words that are compared first, so that most comparisons
/// need not look at the text, which lies elsewhere in memory.
#[derive(Debug, Drop)]
pub struct PathKey<'a> {
    first: u64,
    second: u64,
    third: u64,
    text: &'a [u8],
}

impl<'a> Model for PathKey<'a> {
    ghost use Rattle.std.specs.Prelude.{List, ℕ};
    ghost use Rattle.file_paths.specs.Path.{path_names};
    ghost use Rattle.file_paths.specs.PathFront.{IsKey};

    ghost Value = { List (List ℕ) };

    ghost view = { λ k. path_names k.text.now };

    ghost invariant = { λ k. IsKey k.text.now k.first k.second k.third };
}

fn digit(text: &[u8], place: usize) -> u64
    ensures value { result ≡ digit (drop place text.now) }
    ensures small { result < 512 }
{
    if place < text.len() {
        u64::from(rank(text[place])) + 1
    } else {
        0
    }
}

// The digits of the first bytes.
fn front(text: &[u8]) -> u64
    ensures { result ≡ front_length text.now 7 }
{
    let mut word = 0;
    for place in 0..DIGITS {
        word = word * 512 + digit(text, place);
    }
    word
}

fn behind_front(text: &[u8]) -> &[u8]
    ensures { result.now ≡ drop 7 text.now }
{
    if text.len() < DIGITS {
        return &[];
    }
    &text[DIGITS..]
}

impl<'a> PathKey<'a> {
    // The key of a path that is kept as this text.
    pub(crate) fn of_text(text: &'a [u8]) -> PathKey<'a>
        requires { IsNormal text.now }
        ensures { result ≡ path_names text.now }
    {
        let behind = behind_front(text);
        PathKey {
            first: front(text),
            second: front(behind),
            third: front(behind_front(behind)),
            text,
        }
    }
}

impl<'a> PartialEq for PathKey<'a> {
    ghost eq = { pointwise bytes_eq };

    ghost laws = { partial_equiv_from_equiv (lists_equiv nat_list_eq_equiv) };

    fn eq(&self, other: &PathKey<'a>) -> bool {
        self.text == other.text
    }
}

impl<'a> Eq for PathKey<'a> {
    ghost laws = { lists_equiv nat_list_eq_equiv };
}

impl<'a> PartialOrd for PathKey<'a> {
    ghost partial_cmp = { as_partial_cmp path_cmp };

    ghost laws = { partial_order_from_own_ties (Prim.search (comparing, rules))
        (λ x y. lists_ties (slice_cmp nat_cmp) texts_ties x y) };

    fn partial_cmp(&self, other: &PathKey<'a>) -> Option<Ordering> {
        Some(self.cmp(other))
    }
}

impl<'a> Ord for PathKey<'a> {
    ghost cmp = { path_cmp };

    ghost total = { lists_total nat_list_cmp_total };

    ghost matches_partial_cmp = { Prim.search (comparing, rules) };

    ghost matches_eq = { λ x y. lists_ties (slice_cmp nat_cmp) texts_ties x y };

    fn cmp(&self, other: &PathKey<'a>) -> Ordering {
        let by_words = self
            .first
            .cmp(&other.first)
            .then(self.second.cmp(&other.second))
            .then(self.third.cmp(&other.third));
        if by_words.is_ne() {
            return by_words;
        }
        cmp_texts(self.text, other.text)
    }
}
