use label_base::{Name, PiecedText};
use run_faults::Finding;

/// How a run ends that writes its report.
#[derive(Clone, Copy)]
pub enum End {
    /// Nothing was amiss.
    Done,
    /// The walk met so many errors.
    WalkErrors { count: u32 },
    /// So many paths have another label than they should have, or no record.
    Differs { count: u32 },
    /// What was audited differs from what it should be: this finding isn't [`Finding::Agrees`].
    Denied { finding: Finding },
}

/// A text that goes to a file.
#[derive(Drop)]
pub struct Saved {
    /// The name of the file.
    pub name: Name,
    /// All that the file holds then.
    pub text: PiecedText,
}

/// What a run writes at its end.
pub struct Ending {
    /// The lines of the report.
    pub report: PiecedText,
    /// How the run ends once the report is written.
    pub end: End,
    /// The text that is saved before, where a file is asked for.
    pub saved: Option<Saved>,
}

// By hand: one call for an owner, where a derived drop is a step for each field.
impl Drop for Ending {
    fn drop(self) {
        let Ending {
            report: _,
            end: _,
            saved: _,
        } = self;
    }
}
