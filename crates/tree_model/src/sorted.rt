ghost use Rattle.std.specs.Prelude.{◌≡◌, ◌↔◌, ◌<◌, ◌^◌, ◌-◌, IfOk, Some, length, slice_get};
ghost use Rattle.std.specs.List.{Contains};
ghost use Rattle.label_base.specs.Answers.{Answers};
ghost use Rattle.file_paths.specs.PathRef.{path_of};
ghost use Rattle.find_records.specs.Entry.{entry_of};
ghost use Rattle.find_records.specs.Record.{Record};
ghost use Rattle.find_records.specs.Labelled.{with_labels};
ghost use Rattle.find_records.specs.Places.{ArePlaces};
ghost use Rattle.tree_model.specs.Entries.{tree_of};
ghost use Rattle.tree_model.specs.Extents.{in_extent, is_directory};
ghost use Rattle.tree_model.specs.Tree.{ByPath, IsFrom, tree_cause, find_in};

use crate::building::put_in_order;
use crate::fault::TreeFault;
use crate::search::{first_from, stands_at};
use context_syntax::Label;
use file_paths::PathRef;
use find_records::{Entry, Records};
use label_base::{EntryKind, OutOfMemory, Row};
use std::alloc::Global;
use std::marker::Model;

/// The entries of a tree by themselves, seen as their list in the order of their paths.
#[derive(Drop)]
pub struct Sorted {
    records: Records,
}

impl Model for Sorted {
    ghost use Rattle.std.specs.Prelude.{List};
    ghost use Rattle.find_records.specs.Record.{Record};
    ghost use Rattle.tree_model.specs.Tree.{IsTree};

    ghost Value = { List Record };

    ghost view = { λ t. t.records };

    ghost invariant = { λ t. IsTree t.records };
}

impl Sorted {
    /// The entries of records: in the order of their paths, and each record once, however often it
    /// is given.
    pub fn new(alloc: Global, records: Records) -> Result<Sorted, TreeFault>
        requires { length records < 2 ^ 32 }
        ensures answer { Answers (λ sorted. sorted) tree_cause result (tree_of records) }
        ensures by_path { IfOk result (λ sorted. ByPath sorted) }
        ensures same { IfOk result (λ sorted. (r : Record)
            → Contains sorted r ↔ Contains records r) }
    {
        let records = put_in_order(alloc, records)?;
        Ok(Sorted { records })
    }

    /// The same entries with other labels: each has the one among these whose number stands at its
    /// place.
    pub fn with_labels(
        &self,
        alloc: Global,
        numbers: &[u32],
        labels: &Row<Label>,
    ) -> Result<Sorted, OutOfMemory>
        requires counted { length numbers.now ≡ length self.now }
        requires known { ArePlaces (length labels.now) numbers.now }
        requires few { length labels.now < 2 ^ 32 }
        ensures { IfOk result (λ sorted. sorted ≡ with_labels labels.now numbers.now self.now) }
    {
        let records = self.records.with_labels(alloc, numbers, labels)?;
        Ok(Sorted { records })
    }

    /// How many entries there are.
    pub fn len(&self) -> u32
        ensures { result ≡ length self.now }
    {
        self.records.len()
    }

    /// The entry with an index.
    pub fn entry(&self, e: u32) -> Entry<'_>
        requires { e < length self.now }
        ensures { slice_get self.now e ≡ Some (entry_of result) }
    {
        self.records.entry(e)
    }

    /// The index of the entry with a path.
    #[tactic(auto, using(crate::proofs::FindLemmas::found_where, crate::proofs::FindLemmas::found_nowhere))]
    pub fn find(&self, path: &PathRef<'_>) -> Option<u32>
        ensures { result ≡ find_in (path_of path.now) self.now }
    {
        let at = first_from(&self.records, path);
        if stands_at(&self.records, path, at) {
            Some(at)
        } else {
            None
        }
    }

    /// Whether the entry e is d, or lies below it.
    #[tactic(auto, using(crate::proofs::KnownLemmas::entry_is))]
    pub fn is_in_extent(&self, d: u32, e: u32) -> bool
        requires above { d < length self.now }
        requires below { e < length self.now }
        ensures { result ≡ in_extent self.now d e }
    {
        self.entry(e).path.is_at_or_below(&self.entry(d).path)
    }

    /// Whether the entry is a directory.
    #[tactic(auto, using(crate::proofs::KnownLemmas::entry_is))]
    pub fn is_directory(&self, d: u32) -> bool
        requires { d < length self.now }
        ensures { result ≡ is_directory self.now d }
    {
        self.entry(d).kind as u8 == EntryKind::Directory as u8
    }

    /// The index of the first entry whose path is not before this one; without one, the number of
    /// entries.
    pub fn first_from(&self, path: &PathRef<'_>) -> u32
        ensures { IsFrom (path_of path.now) self.now result }
    {
        first_from(&self.records, path)
    }
}
