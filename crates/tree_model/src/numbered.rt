ghost use Rattle.std.specs.Cmp.{eq_by_cmp_equiv, partial_equiv_from_equiv, po};
ghost use Rattle.std.specs.Ordering.{as_partial_cmp, eq_by_cmp};
ghost use Rattle.std.specs.Prelude.{◌≡◌, ◌<◌, ◌≤◌, length, refl};
ghost use Rattle.tree_model.specs.Numbered.{numbered_cmp, numbered_total};
ghost use Rattle.tree_model.specs.Doubled.{same_place};
ghost use Rattle.find_records.specs.Entry.{entry_of};
ghost use Rattle.tree_model.specs.Known.{with_number};

use file_paths::PathKey;
use find_records::{Entry, Records};
use std::cmp::Ordering;
use std::marker::Model;

/// A record and its number, from 1 on. Such are ordered by their paths, and those of one path by
/// their numbers.
#[derive(Drop)]
pub struct Numbered<'a> {
    // The record's path.
    key: PathKey<'a>,
    number: u32,
    records: &'a Records,
}

impl<'a> Model for Numbered<'a> {
    ghost use Rattle.tree_model.specs.Numbered.{Numbered};
    ghost use Rattle.tree_model.specs.Known.{IsPathKnown, with_number};

    ghost Value = { Numbered };

    ghost view = { λ n. with_number n.records.now n.number };

    ghost invariant = { λ n. IsPathKnown n.key n.number n.records.now };
}

impl<'a> Numbered<'a> {
    pub fn new(records: &'a Records, number: u32) -> Numbered<'a>
        requires low { 1 ≤ number }
        requires high { number ≤ length records.now }
        ensures { result ≡ with_number records.now number }
    {
        let entry = records.entry(number - 1);
        Numbered {
            key: entry.path.key(),
            number,
            records,
        }
    }

    pub fn number(&self) -> u32
        ensures value { result ≡ self.now.number }
        ensures low { 1 ≤ result }
    {
        self.number
    }

    pub fn entry(&self) -> Entry<'a>
        ensures { entry_of result ≡ self.now.item }
    {
        self.records.entry(self.number - 1)
    }

    pub fn is_same_place(&self, other: &Numbered<'a>) -> bool
        ensures { result ≡ same_place self.now other.now }
    {
        self.key == other.key
    }
}

impl<'a> PartialEq for Numbered<'a> {
    ghost eq = { eq_by_cmp numbered_cmp };

    ghost laws = { partial_equiv_from_equiv (eq_by_cmp_equiv numbered_total) };

    fn eq(&self, other: &Numbered<'a>) -> bool {
        self.cmp(other).is_eq()
    }
}

impl<'a> Eq for Numbered<'a> {
    ghost laws = { eq_by_cmp_equiv numbered_total };
}

impl<'a> PartialOrd for Numbered<'a> {
    ghost partial_cmp = { as_partial_cmp numbered_cmp };

    ghost laws = { po numbered_total (λ x y. refl) };

    fn partial_cmp(&self, other: &Numbered<'a>) -> Option<Ordering> {
        Some(self.cmp(other))
    }
}

impl<'a> Ord for Numbered<'a> {
    ghost cmp = { numbered_cmp };

    ghost total = { numbered_total };

    ghost matches_partial_cmp = { λ x y. refl };

    ghost matches_eq = { λ x y. refl };

    fn cmp(&self, other: &Numbered<'a>) -> Ordering {
        let by_path = self.key.cmp(&other.key);
        by_path.then(self.number.cmp(&other.number))
    }
}
