ghost use Rattle.std.specs.Prelude.{List};
ghost use Rattle.file_paths.specs.Path.{Path};
ghost use Rattle.find_records.specs.Record.{Record};
ghost use Rattle.tree_model.specs.Jobs.{JobsAreDirectories};
ghost use Rattle.tree_model.specs.Laws.{AreAbsent, GroupsAreInodes};
ghost use Rattle.tree_model.specs.Selection.{absent_from};

/// A law on all entries: two have one group exactly where they have one inode on one device. Each
/// group has an entry, and before an entry stands one of each lesser group, so that groups are
/// numbered by their first entries. It does nothing.
#[tactic(auto, using(crate::proofs::GroupLaws::groups_are_inodes))]
pub fn groups_are_inodes()
    ensures { (entries : List Record) → GroupsAreInodes entries }
{}

/// A law on all entries and operands: the indices that
/// [`Selected::absent`](crate::Selected::absent) tells are those of the operands that no entry has,
/// in ascending order. It does nothing.
pub fn absent_have_no_entry()
    ensures { (entries : List Record) (operands : List Path)
        → AreAbsent entries operands (absent_from 0 entries operands) }
{}

/// A law on all entries: in the shape of a tree job j is the j-th directory, and job 0 the root of
/// all that has no parent; an entry's home is its parent's job, and jobs and directories are one to
/// one. It does nothing.
#[tactic(auto, using(crate::proofs::JobLaws::jobs_are))]
pub fn jobs_are_directories()
    ensures { (entries : List Record) → JobsAreDirectories entries }
{}
