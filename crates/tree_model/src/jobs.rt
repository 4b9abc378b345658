ghost use Rattle.std.specs.Prelude.{◌≡◌, ◌+◌, ◌<◌, ◌^◌, ◌++◌, ◌∷◌, [], true, if◌then◌else◌, length};
ghost use Rattle.std.specs.Prelude.{map, filter, IfOk, OnOk, slice_get};
ghost use Rattle.label_base.specs.Bounded.{all_numbers};
ghost use Rattle.tree_model.specs.Extents.{ParentsTo, is_directory};
ghost use Rattle.tree_model.specs.Jobs.{AreJobs, directories_below, directories_in, entry_home};
ghost use Rattle.tree_model.specs.Jobs.{job_directory, job_of, shape_of};
ghost use Rattle.tree_model.specs.Kept.{KeepsGroups};
ghost use Rattle.tree_model.specs.Tree.{ByPath};
ghost use Rattle.walk_steps.specs.Shaped.{IsValid};

use crate::extents::{parent_read, word_at};
use crate::groups::Groups;
use crate::sorted::Sorted;
use label_base::{OutOfMemory, Row};
use std::alloc::Global;
use walk_steps::Shape;

// The number at a place, if there is one.
fn number_at(numbers: &[u32], i: u32) -> Option<u32>
    ensures { result ≡ slice_get numbers.now i }
{
    numbers.get(i as usize).copied()
}

// Whether an entry is a directory, by all directories and how many of them are before it.
fn is_next(sorted: &Sorted, directories: &[u32], before: u32, e: u32) -> bool
    requires all { directories.now ≡ directories_in sorted.now }
    requires known { e < length sorted.now }
    requires before { before ≡ directories_below sorted.now e }
    ensures { result ≡ is_directory sorted.now e }
{
    let _ = sorted;
    match number_at(directories, before) {
        Some(d) => d == e,
        None => false,
    }
}

// How many directories there are up to an entry, by how many there are before it.
#[tactic(auto, using(crate::proofs::JobLemmas::below_more, crate::proofs::JobLemmas::below_same, crate::proofs::JobLemmas::below_few))]
fn count_with(sorted: &Sorted, directories: &[u32], e: u32, before: u32) -> u32
    requires all { directories.now ≡ directories_in sorted.now }
    requires known { e < length sorted.now }
    requires few { length sorted.now < 2 ^ 32 }
    requires before { before ≡ directories_below sorted.now e }
    ensures { result ≡ directories_below sorted.now (e + 1) }
{
    if is_next(sorted, directories, before, e) {
        before + 1
    } else {
        before
    }
}

// For each entry how many directories there are up to it, by all directories.
#[tactic(auto, using(crate::proofs::JobLemmas::jobs_next))]
fn all_jobs(alloc: Global, sorted: &Sorted, directories: &[u32]) -> Result<Vec<u32>, OutOfMemory>
    requires { directories.now ≡ directories_in sorted.now }
    ensures { IfOk result (λ jobs. AreJobs sorted.now (length sorted.now) jobs.items) }
{
    let mut jobs = Vec::with_capacity(alloc, sorted.len() as usize)?;
    let mut count = 0u32;
    'entries: for e in 0..sorted.len() {
        count = count_with(sorted, directories, e, count);
        jobs.push(count)?;
    }
    Ok(jobs)
}

// The job that holds an entry.
fn home_of(sorted: &Sorted, parents: &[u32], jobs: &[u32], e: u32) -> u32
    requires by_path { ByPath sorted.now }
    requires known { e < length sorted.now }
    requires parents { ParentsTo (length sorted.now) sorted.now parents.now }
    requires jobs { AreJobs sorted.now (length sorted.now) jobs.now }
    ensures { result ≡ entry_home sorted.now e }
{
    match parent_read(word_at(parents, e)) {
        Some(d) => word_at(jobs, d),
        None => 0,
    }
}

// The job that holds each entry.
#[tactic(auto, using(crate::proofs::JobLemmas::homes_more))]
fn all_homes(
    alloc: Global,
    sorted: &Sorted,
    parents: &[u32],
    jobs: &[u32],
) -> Result<Row<u32>, OutOfMemory>
    requires by_path { ByPath sorted.now }
    requires parents { ParentsTo (length sorted.now) sorted.now parents.now }
    requires jobs { AreJobs sorted.now (length sorted.now) jobs.now }
    ensures { IfOk result (λ homes.
        homes ≡ map (entry_home sorted.now) (all_numbers (length sorted.now))) }
{
    let mut homes = Row::with_capacity(alloc, sorted.len() as usize)?;
    'entries: for e in 0..sorted.len() {
        homes.push(home_of(sorted, parents, jobs, e))?;
    }
    Ok(homes)
}

// The job that holds each directory.
fn all_parents(
    alloc: Global,
    sorted: &Sorted,
    parents: &[u32],
    directories: &[u32],
    jobs: &[u32],
) -> Result<Row<u32>, OutOfMemory>
    requires by_path { ByPath sorted.now }
    requires parents { ParentsTo (length sorted.now) sorted.now parents.now }
    requires all { directories.now ≡ directories_in sorted.now }
    requires jobs { AreJobs sorted.now (length sorted.now) jobs.now }
    ensures { IfOk result (λ all.
        all ≡ map (entry_home sorted.now) (directories_in sorted.now)) }
{
    let mut all = Row::with_capacity(alloc, directories.len())?;
    'directories: for d in directories {
        all.push(home_of(sorted, parents, jobs, *d))?;
    }
    Ok(all)
}

// A row with these words.
fn row_of(alloc: Global, words: &[u32]) -> Result<Row<u32>, OutOfMemory>
    ensures { IfOk result (λ row. row ≡ words.now) }
{
    let mut row = Row::with_capacity(alloc, words.len())?;
    'words: for word in words {
        row.push(*word)?;
    }
    Ok(row)
}

// Adds an entry that is a directory.
fn push_directory(sorted: &Sorted, e: u32, to: &mut Vec<u32>) -> Result<(), OutOfMemory>
    requires { e < length sorted.now }
    ensures { OnOk result (to.new.items ≡ (if is_directory sorted.now e
        then to.old.items ++ e ∷ [] else to.old.items)) }
{
    if !sorted.is_directory(e) {
        return Ok(());
    }
    to.push(e)?;
    Ok(())
}

/// The directories, in ascending order.
#[tactic(auto, using(crate::proofs::JobLaws::directories_more))]
pub fn all_directories(alloc: Global, sorted: &Sorted) -> Result<Vec<u32>, OutOfMemory>
    ensures { IfOk result (λ directories. directories.items ≡ directories_in sorted.now) }
{
    let mut directories = Vec::new(alloc);
    'entries: for e in 0..sorted.len() {
        push_directory(sorted, e, &mut directories)?;
    }
    Ok(directories)
}

/// The directory of a job, by all directories.
pub fn directory_at(sorted: &Sorted, directories: &[u32], job: u32) -> Option<u32>
    requires { directories.now ≡ directories_in sorted.now }
    ensures { result ≡ job_directory sorted.now job }
{
    if job == 0 {
        return None;
    }
    directories.get(job as usize - 1).copied()
}

/// The job of a directory, by all directories.
pub fn job_in(sorted: &Sorted, directories: &[u32], d: u32) -> u32
    requires all { directories.now ≡ directories_in sorted.now }
    requires known { d < length sorted.now }
    requires directory { is_directory sorted.now d ≡ true }
    ensures { result ≡ job_of sorted.now d }
{
    let _count = sorted.len();
    match directories.binary_search(&d) {
        Ok(index) => index as u32 + 1,
        Err(_) => unreachable!(),
    }
}

/// The tree as workers see it, by the parents of its entries, its directories and the groups.
pub fn shape_in(
    alloc: Global,
    sorted: &Sorted,
    parents: &[u32],
    directories: &[u32],
    groups: &Groups,
) -> Result<Shape, OutOfMemory>
    requires by_path { ByPath sorted.now }
    requires parents { ParentsTo (length sorted.now) sorted.now parents.now }
    requires all { directories.now ≡ directories_in sorted.now }
    requires groups { KeepsGroups sorted.now groups.now.total groups.now.group_of.items
        groups.now.names.items groups.now.starts.items groups.now.closed.items }
    ensures value { IfOk result (λ shape. shape ≡ shape_of sorted.now) }
    ensures valid { IfOk result (λ shape. IsValid shape) }
{
    let jobs = all_jobs(alloc, sorted, directories)?;
    Ok(Shape {
        parents: all_parents(alloc, sorted, parents, directories, jobs.as_slice())?,
        homes: all_homes(alloc, sorted, parents, jobs.as_slice())?,
        group_of: row_of(alloc, groups.group_of.as_slice())?,
        groups: groups.total,
    })
}
