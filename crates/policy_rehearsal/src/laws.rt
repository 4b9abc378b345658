//! Laws on what rehearse means: the functions do nothing, and their contracts say them.
ghost use Rattle.policy_rehearsal.specs.Accepted.{ReadFilesGiveListings, ReadPoliciesAreRuns};
ghost use Rattle.policy_rehearsal.specs.Accepted.{ReadRunsAreRuns};
ghost use Rattle.policy_rehearsal.specs.Constants.{ConstantsAreStated};
ghost use Rattle.policy_rehearsal.specs.Laws.{AnswersKeepLabels, ChangesLeadThere};

/// The changes that the turns of a rehearsal tell, made one after the other in the tree, leave the
/// labels at its end.
pub fn changes_lead_there()
    ensures { ChangesLeadThere }
{}

/// Whatever words ask of rehearse, and whatever its files and its input say: where no two different
/// listings that the versions digest have one digest, the changes that its report tells lead to the
/// labels that the same versions leave with skipping off. Nothing else is supposed.
pub fn answers_keep_labels()
    ensures { AnswersKeepLabels }
{}

/// Runs over a tree whose records were accepted, each by files of its own that were accepted, are
/// runs as [`skipping_keeps_labels`](relabel_runs::skipping_keeps_labels) asks for them, where no
/// two different listings that they digest have one digest. So nothing else has to be supposed of
/// runs of setfiles and restorecon one after the other.
pub fn read_runs_are_runs()
    ensures { ReadRunsAreRuns }
{}

/// So are the runs of several versions of a policy, whose files and records were accepted.
pub fn read_policies_are_runs()
    ensures { ReadPoliciesAreRuns }
{}

/// The listings of directories by accepted files are such of which the bytes tell each field.
pub fn read_files_give_listings()
    ensures { ReadFilesGiveListings }
{}

/// A law: the constants are those of `specs/Constants.antt`. It does nothing.
pub fn constants_are_stated()
    ensures { ConstantsAreStated }
{}
