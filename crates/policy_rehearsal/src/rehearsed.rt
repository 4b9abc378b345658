use context_syntax::ContextRef;
use label_base::Row;
use label_rules::LabelAfter;

/// A label that a version changes.
#[derive(Clone, Copy)]
pub struct Change<'a> {
    /// The entry: of the names of its inode the first for which a context is decided.
    pub entry: u32,
    pub from: LabelAfter<'a>,
    pub to: ContextRef<'a>,
}

/// What one version does.
pub struct VersionChanges<'a> {
    /// The labels that it changes, in the order of the entries.
    pub changes: Row<Change<'a>>,
    /// How many directories it skips, without those below them.
    pub skipped: u32,
}

// By hand: one call for an owner, where a derived drop is a step for each field.
impl Drop for VersionChanges<'_> {
    fn drop(self) {
        let VersionChanges {
            changes: _,
            skipped: _,
        } = self;
    }
}

/// What several versions do, one after the other. It borrows from the tree and from the policies.
pub struct Rehearsed<'a> {
    /// One for each version.
    pub turns: Row<VersionChanges<'a>>,
    /// The labels at the end, one for each group of names of one inode.
    pub labels: Row<LabelAfter<'a>>,
}

// By hand: one call for an owner, where a derived drop is a step for each field.
impl Drop for Rehearsed<'_> {
    fn drop(self) {
        let Rehearsed {
            turns: _,
            labels: _,
        } = self;
    }
}
