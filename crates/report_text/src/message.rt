use context_syntax::{Context, ContextRef, Label};
use file_paths::PathRef;
use label_base::EntryKind;

/// What a run tells. It borrows its parts from the tree and the rules that it is about.
///
/// A context that is `None` is `<<none>>`: files keep the labels that they have.
#[derive(Clone, Copy, Debug)]
pub enum Message<'a> {
    /// The label of the path changes, or with `dry` would change.
    Relabel {
        path: PathRef<'a>,
        from: &'a Label,
        to: ContextRef<'a>,
        dry: bool,
    },
    /// The path keeps its label, since its type is customizable.
    Customized {
        path: PathRef<'a>,
        label: &'a Context,
    },
    /// Two names of one inode are given different contexts. The first name's is used.
    Conflict {
        first: PathRef<'a>,
        second: PathRef<'a>,
        used: &'a Context,
    },
    /// No specification decides the path.
    NoDefault {
        path: PathRef<'a>,
    },
    /// The directory is skipped with all that lies below it, since its stored digest is the one
    /// that it has.
    Skipped {
        path: PathRef<'a>,
    },
    /// The tree has no entry for a path that was asked for.
    Absent {
        path: PathRef<'a>,
    },
    /// A specification of this text, kind and context decided no entry.
    NoMatches {
        text: &'a [u8],
        kind: Option<EntryKind>,
        context: Option<&'a Context>,
    },
    /// The context that the path should have, told with `bare` without the path.
    Found {
        path: PathRef<'a>,
        context: Option<&'a Context>,
        bare: bool,
    },
    /// The path has the context that it should have.
    Verified {
        path: PathRef<'a>,
    },
    /// The path has another label than it should have.
    Differs {
        path: PathRef<'a>,
        has: &'a Label,
        wants: &'a Context,
    },
    /// The tree has no entry for a path that was to be verified.
    NoRecord {
        path: PathRef<'a>,
    },
}
