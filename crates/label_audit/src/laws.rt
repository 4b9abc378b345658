ghost use Rattle.std.specs.Prelude.{◌≡◌, ◌↔◌, ℕ, List, Option};
ghost use Rattle.file_paths.specs.Path.{Path};
ghost use Rattle.run_faults.specs.declared.finding.Finding.TheVariants.{Agrees};
ghost use Rattle.relabel_core.specs.Walk.{Walk};
ghost use Rattle.relabel_core.specs.Walked.{operands_indexed};
ghost use Rattle.label_audit.specs.Agreement.{AuditTellsOfRun};
ghost use Rattle.label_audit.specs.Constants.{ConstantsAreStated};
ghost use Rattle.label_audit.specs.Finding.{finding_of};
ghost use Rattle.label_audit.specs.Whole.{AreWhole};

/// A law: an audit agrees exactly where the report is the whole report of the walk, and the dump,
/// where there is one, the whole dump. It does nothing.
#[tactic(auto, using(crate::proofs::WholeLemmas::agrees_where_whole))]
pub fn agrees_where_whole()
    ensures { (w : Walk) → (operands : List Path) → (absent : List ℕ) → (report : List ℕ)
        → (dump : Option (List ℕ)) → w.absent ≡ operands_indexed operands absent
        → (finding_of w operands absent report dump ≡ Agrees) ↔ AreWhole w report dump }
{}

/// A law: where a run and its audit both answer, over the same files and the same input, audit ends
/// well exactly where the report is all of the run's report and the file of `-o` all of its dump,
/// whatever the options of the run are. It does nothing.
pub fn audit_tells_of_run()
    ensures { AuditTellsOfRun }
{}

/// A law: the constants are those of `specs/Constants.antt`. It does nothing.
pub fn constants_are_stated()
    ensures { ConstantsAreStated }
{}
