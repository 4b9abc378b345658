ghost use Rattle.std.specs.Prelude.{◌≡◌, ◌↔◌, ℕ, ◌<◌, ◌≤◌, ◌^◌, ◌&&◌, ◌+◌, nat_le, nat_lt, true};
ghost use Rattle.std.specs.Prelude.{if◌then◌else◌, IfOk, IfSome, Some, length, slice_get};
ghost use Rattle.std.specs.List.{Contains};
ghost use Rattle.label_base.specs.Answers.{Answers};
ghost use Rattle.file_paths.specs.PathRef.{path_of};
ghost use Rattle.find_records.specs.Entry.{entry_of};
ghost use Rattle.find_records.specs.Record.{AreOfFormat, Record};
ghost use Rattle.find_records.specs.declared.format.Format.{Format};
ghost use Rattle.tree_model.specs.Entries.{tree_of};
ghost use Rattle.tree_model.specs.Extents.{extent_of, in_extent, is_directory, parent_of};
ghost use Rattle.tree_model.specs.Groups.{closed_at, group_of, groups_in, label_in, names_in};
ghost use Rattle.tree_model.specs.Jobs.{directories_in, entries_of_job, job_directory, job_of};
ghost use Rattle.tree_model.specs.Jobs.{shape_of};
ghost use Rattle.tree_model.specs.Kept.{IsTreeKept};
ghost use Rattle.tree_model.specs.Labelled.{DifferInLabels, labelled};
ghost use Rattle.tree_model.specs.Selection.{selected_by};
ghost use Rattle.tree_model.specs.Tree.{ByPath, tree_cause, find_in};
ghost use Rattle.walk_steps.specs.Shaped.{IsValid};

use crate::above::parent_by_path;
use crate::choice::Choice;
use crate::extents::{all_ends, all_parents, word_at};
use crate::fault::TreeFault;
use crate::groups::{Groups, flag_at, make_groups, number_groups, part_at};
use crate::job_entries::JobEntries;
use crate::jobs::{all_directories, directory_at, job_in, shape_in};
use crate::selection::{Selected, select_in};
use crate::sorted::Sorted;
use context_syntax::Label;
use file_paths::PathRef;
use find_records::{Entry, Records};
use label_base::{OutOfMemory, Row};
use std::alloc::Global;
use std::marker::Model;
use walk_steps::Shape;

/// The entries of a tree, seen as their list in the order of their paths.
pub struct Tree {
    sorted: Sorted,
    // The extent of each entry.
    ends: Vec<u32>,
    groups: Groups,
    // The directories, in ascending order.
    directories: Vec<u32>,
}

// By hand: one call for an owner, where a derived drop is a step for each field.
impl Drop for Tree {
    fn drop(self) {
        let Tree {
            sorted: _,
            ends: _,
            groups: _,
            directories: _,
        } = self;
    }
}

impl Model for Tree {
    ghost use Rattle.std.specs.Prelude.{List};
    ghost use Rattle.find_records.specs.Record.{AreOfFormat, Record};
    ghost use Rattle.find_records.specs.declared.format.Format.{Format};
    ghost use Rattle.tree_model.specs.Kept.{IsTreeKept};

    ghost Value = { List Record };

    ghost view = { λ t. t.sorted };

    ghost invariant = { λ t. IsTreeKept t.sorted t.ends.items t.groups t.directories.items };
}

// What a tree keeps beside its entries.
#[derive(Drop)]
struct Kept {
    ends: Vec<u32>,
    groups: Groups,
    directories: Vec<u32>,
}

// Where the extent of each entry ends, the groups of entries by their inodes, and the directories.
fn keep_beside(alloc: Global, sorted: &Sorted) -> Result<Kept, OutOfMemory>
    requires { ByPath sorted.now }
    ensures { IfOk result (λ kept.
        IsTreeKept sorted.now kept.ends.items kept.groups kept.directories.items) }
{
    // First of all that is made, since what numbers the inodes is dropped then.
    let numbering = number_groups(alloc, sorted)?;
    let ends = all_ends(alloc, sorted)?;
    let groups = make_groups(alloc, sorted, numbering, ends.as_slice())?;
    let directories = all_directories(alloc, sorted)?;
    Ok(Kept {
        ends,
        groups,
        directories,
    })
}

impl Tree {
    /// The tree of records, as find(1) finds them: in the order of their paths, and each record
    /// once, however often it is given. There must be fewer than 2^32 of them.
    ///
    /// Two records of one path that differ make no tree: [`TreeFault::Doubled`]. Want of memory is
    /// the only other fault.
    pub fn new(alloc: Global, records: Records) -> Result<Tree, TreeFault>
        requires { length records < 2 ^ 32 }
        ensures answer { Answers (λ tree. tree) tree_cause result (tree_of records) }
        ensures by_path { IfOk result (λ tree. ByPath tree) }
        ensures of_format { IfOk result (λ tree. (format : Format)
            → AreOfFormat format records → AreOfFormat format tree) }
        ensures same { IfOk result (λ tree. (r : Record) → Contains tree r ↔ Contains records r) }
    {
        let sorted = Sorted::new(alloc, records)?;
        let Kept {
            ends,
            groups,
            directories,
        } = keep_beside(alloc, &sorted)?;
        Ok(Tree {
            sorted,
            ends,
            groups,
            directories,
        })
    }

    /// A law: the path of each entry is before those of the entries behind it. It does nothing.
    pub fn rises(&self)
        ensures { ByPath self.now }
    {
        let _ = &self.sorted;
    }

    /// The same tree with other labels, one for each group: every entry has that of its group.
    ///
    /// What was made of the one tree serves the other: the number of an entry or a group, what was
    /// selected, and what is kept for an entry.
    pub fn with_labels(&self, alloc: Global, labels: &Row<Label>) -> Result<Tree, OutOfMemory>
        requires { length labels.now ≡ groups_in self.now }
        ensures value { IfOk result (λ tree. tree ≡ labelled labels.now self.now) }
        ensures same { IfOk result (λ tree. DifferInLabels self.now tree) }
    {
        let _count = self.groups();
        let numbers = self.groups.group_of.as_slice();
        let ends = Vec::from_slice(alloc, self.ends.as_slice())?;
        let groups = self.groups.copy(alloc)?;
        let directories = Vec::from_slice(alloc, self.directories.as_slice())?;
        Ok(Tree {
            sorted: self.sorted.with_labels(alloc, numbers, labels)?,
            ends,
            groups,
            directories,
        })
    }

    /// How many entries there are.
    pub fn len(&self) -> u32
        ensures { result ≡ length self.now }
    {
        self.sorted.len()
    }

    /// The entry with an index.
    pub fn entry(&self, e: u32) -> Entry<'_>
        requires { e < length self.now }
        ensures { slice_get self.now e ≡ Some (entry_of result) }
    {
        self.sorted.entry(e)
    }

    /// The index of the entry with a path.
    pub fn find(&self, path: &PathRef<'_>) -> Option<u32>
        ensures { result ≡ find_in (path_of path.now) self.now }
    {
        self.sorted.find(path)
    }

    /// The index of the nearest directory above an entry, if the tree has one. This looks for each
    /// path above the entry's, from the longest on.
    pub fn parent(&self, e: u32) -> Option<u32>
        requires { e < length self.now }
        ensures value { result ≡ parent_of self.now e }
        ensures before { IfSome result (λ d. d < e) }
    {
        parent_by_path(&self.sorted, e)
    }

    /// One more than the index of the last entry at or below an entry: those from it up to there
    /// are just the entries at or below it. It is made once, and this looks at it.
    pub fn extent(&self, d: u32) -> u32
        requires { d < length self.now }
        ensures value { result ≡ extent_of self.now d }
        ensures behind { d < result }
        ensures within { result ≤ length self.now }
        ensures run { (e : ℕ) → e < length self.now
            → in_extent self.now d e ≡ (nat_le d e && nat_lt e result) }
    {
        word_at(self.ends.as_slice(), d)
    }

    /// How many groups there are. A group is all entries of one device and one inode.
    pub fn groups(&self) -> u32
        ensures { result ≡ groups_in self.now }
    {
        self.groups.total
    }

    /// The group of an entry. Groups are numbered by their first entries.
    pub fn group(&self, e: u32) -> u32
        requires { e < length self.now }
        ensures value { result ≡ group_of self.now e }
        ensures within { result < groups_in self.now }
    {
        word_at(self.groups.group_of.as_slice(), e)
    }

    /// The entries of a group, which are the names of its inode, in ascending order. There is one
    /// at least.
    pub fn names_of(&self, g: u32) -> &[u32]
        requires { g < groups_in self.now }
        ensures value { result.now ≡ names_in self.now g }
        ensures some { 0 < length result.now }
    {
        part_at(
            self.groups.names.as_slice(),
            self.groups.starts.as_slice(),
            g,
        )
    }

    /// The label of a group, which is that of its first entry.
    pub fn label(&self, g: u32) -> &Label
        requires { g < groups_in self.now }
        ensures { result.now ≡ label_in self.now g }
    {
        let first = word_at(self.names_of(g), 0);
        self.entry(first).label
    }

    /// Whether all entries of the groups that have one at or below an entry are at or below it, and
    /// no link count there tells of more names than its group has entries. That of a directory
    /// counts no names, and isn't asked for.
    pub fn closed(&self, d: u32) -> bool
        requires { d < length self.now }
        ensures { result ≡ closed_at self.now d }
    {
        flag_at(self.groups.closed.as_slice(), d)
    }

    /// The entries that a choice means.
    pub fn select(&self, alloc: Global, choice: &Choice) -> Result<Selected, OutOfMemory>
        requires { length choice.now.operands < 2 ^ 32 }
        ensures value { IfOk result (λ selected. selected ≡ selected_by choice.now self.now) }
        ensures count { IfOk result (λ selected. length selected.live ≡ length self.now) }
    {
        select_in(alloc, &self.sorted, self.ends.as_slice(), choice)
    }

    /// The tree as workers see it: a job for each directory, numbered from 1 in their order, and
    /// job 0, which holds all entries without a parent.
    pub fn shape(&self, alloc: Global) -> Result<Shape, OutOfMemory>
        ensures value { IfOk result (λ shape. shape ≡ shape_of self.now) }
        ensures valid { IfOk result (λ shape. IsValid shape) }
    {
        let parents = all_parents(alloc, &self.sorted, self.ends.as_slice())?;
        let directories = self.directories.as_slice();
        shape_in(
            alloc,
            &self.sorted,
            parents.as_slice(),
            directories,
            &self.groups,
        )
    }

    /// Whether an entry is a directory.
    pub fn is_directory(&self, e: u32) -> bool
        requires { e < length self.now }
        ensures { result ≡ is_directory self.now e }
    {
        self.sorted.is_directory(e)
    }

    /// How many directories there are: as many jobs there are beside job 0.
    pub fn directories(&self) -> u32
        ensures { result ≡ length (directories_in self.now) }
    {
        let _count = self.sorted.len();
        self.directories.len() as u32
    }

    /// The directory of a job, in the shape of the tree; job 0 has none.
    pub fn job_directory(&self, job: u32) -> Option<u32>
        ensures value { result ≡ job_directory self.now job }
        ensures known { IfSome result (λ d. d < length self.now) }
    {
        directory_at(&self.sorted, self.directories.as_slice(), job)
    }

    /// The job of a directory, in the shape of the tree.
    pub fn job_of(&self, d: u32) -> u32
        requires known { d < length self.now }
        requires directory { is_directory self.now d ≡ true }
        ensures { result ≡ job_of self.now d }
    {
        job_in(&self.sorted, self.directories.as_slice(), d)
    }

    /// The entries that a job holds, in ascending order: those right below its directory, or for
    /// job 0 those without a parent.
    pub fn entries_of_job(&self, job: u32) -> JobEntries<'_>
        requires { job ≤ length (directories_in self.now) }
        ensures { result ≡ entries_of_job self.now job }
    {
        JobEntries::new(self, job)
    }

    // The index behind an entry, and behind all below it if it is a directory.
    pub(crate) fn behind(&self, e: u32) -> u32
        requires { e < length self.now }
        ensures { result
            ≡ (if is_directory self.now e then extent_of self.now e else e + 1) }
    {
        let _count = self.sorted.len();
        if self.sorted.is_directory(e) {
            word_at(self.ends.as_slice(), e)
        } else {
            e + 1
        }
    }
}
