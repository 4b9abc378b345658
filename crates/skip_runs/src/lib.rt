//! Runs that relabel one tree, and why skipping directories by their digests changes no label. The
//! functions do nothing: their contracts are laws on the definitions of `specs/`, which are read in
//! the order `Relabel`, `Skipping`, `Ways`.
//!
//! A tree, its runs and its states are plain functions here. What labels, listings and digests are
//! is left open, so that a crate above says it of its own.
#![tactic(auto)]

ghost use Rattle.skip_runs.specs.Relabel.{HoldsOf};
ghost use Rattle.skip_runs.specs.Skipping.{AlikeStaysAlike, OneMoreKeepsLabels};
ghost use Rattle.skip_runs.specs.Skipping.{SkippingKeepsLabelsOf};
ghost use Rattle.skip_runs.specs.Ways.{Breaks, DifferByClash, DifferByClosed, DifferByListings};
ghost use Rattle.skip_runs.specs.Ways.{DifferByOldDigests, DifferByUnsettled, Happens, dry_renews};
ghost use Rattle.skip_runs.specs.Ways.{DifferComparing, left_standing, loose_digests, loose_labels};
ghost use Rattle.skip_runs.specs.Ways.{names_outside, numbers, right_way, with_exclusions};
ghost use Rattle.skip_runs.specs.Ways.{zero_counts};

/// From a state without digests, runs leave the labels that the same runs leave with skipping off.
///
/// Each run may skip, store digests, be dry, or none of these, and has entries that it is asked
/// for, decisions, listings, a way to change labels and directories that it takes as closed of its
/// own. Asked of the runs: a label that was given is kept where the same is wanted; each group that
/// has a name in the extent of a directory which a run takes as closed lies in it; runs with equal
/// listings of a directory decide the same in its extent, and change labels alike; and no two
/// listings that are digested differ and have one digest. Nothing is asked of the tree.
pub fn skipping_keeps_labels<Label, Context, Listing, Digest>()
    ensures { HoldsOf SkippingKeepsLabelsOf Label Context Listing Digest }
{}

/// After runs that began without digests, one more run leaves the labels that all of them leave
/// with skipping off. Of the state before it only the labels of the tree's groups and the digests
/// of its directories are asked.
pub fn one_more_run_keeps_labels<Label, Context, Listing, Digest>()
    ensures { HoldsOf OneMoreKeepsLabels Label Context Listing Digest }
{}

/// From states that are alike on a tree, a run leaves states that are alike on it.
pub fn alike_stays_alike<Label, Context, Listing, Digest>()
    ensures { HoldsOf AlikeStaysAlike Label Context Listing Digest }
{}

/// The premises are met by runs of which the second skips a directory.
pub fn skipping_happens()
    ensures { Happens }
{}

/// Were a directory skipped though a group in it has a name outside, labels would differ.
pub fn names_outside_matter()
    ensures { Breaks names_outside }
{}

/// Were a digest stored though the run isn't asked for an entry of the extent, labels would differ.
pub fn exclusions_matter()
    ensures { Breaks with_exclusions }
{}

/// Were digests left standing above a changed label, labels would differ.
pub fn changed_labels_matter()
    ensures { Breaks left_standing }
{}

/// Did the zero digest count as one, labels would differ.
pub fn zero_digests_matter()
    ensures { Breaks zero_counts }
{}

/// Did a dry run store digests, labels would differ.
pub fn dry_runs_matter()
    ensures { Breaks dry_renews }
{}

/// The right way, of which each of these changes one rule, leaves no other labels.
pub fn the_right_way_keeps_labels()
    ensures { Breaks (right_way numbers) → ⊥ }
{}

/// Did two listings clash, labels would differ.
pub fn clashes_matter()
    ensures { DifferByClash }
{}

/// Were a directory taken as closed though a group in it has a name outside, labels would differ.
pub fn closed_directories_matter()
    ensures { DifferByClosed }
{}

/// Did equal listings tell different things, labels would differ.
pub fn listings_matter()
    ensures { DifferByListings }
{}

/// Were labels that were given not kept, labels would differ.
pub fn settling_matters()
    ensures { DifferByUnsettled }
{}

/// Were there digests to begin with, labels would differ.
pub fn old_digests_matter()
    ensures { DifferByOldDigests }
{}

/// Were labels not compared exactly, labels would differ: a change isn't noticed.
pub fn exact_labels_matter()
    ensures { DifferComparing loose_labels }
{}

/// Were digests not compared exactly, labels would differ: an old one counts.
pub fn exact_digests_matter()
    ensures { DifferComparing loose_digests }
{}
