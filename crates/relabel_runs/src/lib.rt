//! Runs over one tree, one after the other, and why skipping directories by their digests changes
//! no label. But for [`next_walk`] the functions do nothing: their contracts are laws on what a
//! walk means.
#![tactic(auto)]

mod walking;

ghost use Rattle.relabel_runs.specs.Laws.{NoneSkipped, OneMoreRunKeepsLabels, SkippingKeepsLabels};
ghost use Rattle.relabel_runs.specs.Witness.{TreeRunsHappen};

pub use walking::next_walk;

/// On a tree that starts without digests, and that nothing else relabels, any list of runs leaves
/// the labels that the same runs leave with skipping off, whatever their files, operands,
/// exclusions and options are.
///
/// That no two different listings have one digest is asked of the listings that these runs digest,
/// and no more.
pub fn skipping_keeps_labels()
    ensures { SkippingKeepsLabels }
{}

/// Where a tree has the labels and the digests that such runs left, one more walk leaves the labels
/// that all of them leave with skipping off.
pub fn one_more_run_keeps_labels()
    ensures { OneMoreRunKeepsLabels }
{}

/// With skipping off, no directory is skipped.
pub fn none_is_skipped()
    ensures { NoneSkipped }
{}

/// There are runs over a tree that meet all that is asked of runs: each digests a directory, and the
/// first changes a label. So nothing that is asked rules all runs out.
pub fn tree_runs_happen()
    ensures { TreeRunsHappen }
{}
