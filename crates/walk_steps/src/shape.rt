use label_base::Row;

/// A tree as workers see it. Job 0 is the root of all, and job j from 1 on a directory.
#[derive(Debug, Drop)]
pub struct Shape {
    /// The parents of the jobs 1, 2 and so on, each less than its job.
    pub parents: Row<u32>,
    /// The job that holds each entry.
    pub homes: Row<u32>,
    /// The group of each entry: those of one group share an inode.
    pub group_of: Row<u32>,
    /// How many groups there are.
    pub groups: u32,
}
