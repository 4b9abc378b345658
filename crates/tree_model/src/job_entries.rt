ghost use Rattle.std.specs.Prelude.{◌≡◌, ◌≤◌, length, nat_lt, Some, None, if◌then◌else◌};
ghost use Rattle.std.specs.Iterator.{YieldsFirst, item_count};
ghost use Rattle.tree_model.specs.Jobs.{IsPlaced, directories_in, children_from, entries_of_job};

use crate::tree::Tree;
use std::marker::Model;

/// The entries that a job holds, seen as the list of those that are left, in ascending order. It
/// takes no memory, and passes over what is below a directory at once.
#[derive(Drop)]
pub struct JobEntries<'a> {
    tree: &'a Tree,
    job: u32,
    // The first one that is left, if it is before the end.
    next: u32,
    // Behind all that is below the job's directory.
    end: u32,
}

impl<'a> Model for JobEntries<'a> {
    ghost use Rattle.std.specs.Prelude.{List, ℕ};
    ghost use Rattle.tree_model.specs.Jobs.{IsPlaced, children_from};

    ghost Value = { List ℕ };

    ghost view = { λ c. children_from c.tree.now c.job c.next };

    ghost invariant = { λ c. IsPlaced c.tree.now c.job c.next c.end };
}

// The next entry, if it is before the end.
fn before_end(next: u32, end: u32) -> Option<u32>
    ensures { result ≡ (if nat_lt next end then Some next else None) }
{
    if next < end { Some(next) } else { None }
}

// Where those of a job begin, and where what is below its directory ends.
fn bounds_of(tree: &Tree, job: u32) -> (u32, u32)
    requires { job ≤ length (directories_in tree.now) }
    ensures placed { IsPlaced tree.now job result.0 result.1 }
    ensures whole { children_from tree.now job result.0 ≡ entries_of_job tree.now job }
{
    tree.rises();
    match tree.job_directory(job) {
        Some(d) => {
            let end = tree.extent(d);
            (d + 1, end)
        }
        None => (0, tree.len()),
    }
}

impl<'a> JobEntries<'a> {
    // Those of a job of a tree.
    pub fn new(tree: &'a Tree, job: u32) -> JobEntries<'a>
        requires { job ≤ length (directories_in tree.now) }
        ensures { result ≡ entries_of_job tree.now job }
    {
        let (next, end) = bounds_of(tree, job);
        JobEntries {
            tree,
            job,
            next,
            end,
        }
    }
}

impl<'a> Iterator for JobEntries<'a> {
    type Item = u32;

    ghost next_gives = { YieldsFirst (λ c. c) };

    ghost remaining = { item_count (λ c. c) };

    fn next(&mut self) -> Option<u32> {
        let tree = self.tree;
        tree.rises();
        match before_end(self.next, self.end) {
            Some(e) => {
                self.next = tree.behind(e);
                Some(e)
            }
            None => None,
        }
    }
}
