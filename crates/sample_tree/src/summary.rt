ghost use Rattle.std.specs.Prelude.{◌≡◌, ◌++◌, IfOk, OnOk};
ghost use Rattle.sample_tree.specs.Summary.{number_line, summary_text};

use crate::records::add_number;
use label_base::{Bytes, OutOfMemory};
use std::alloc::Global;

// What stands before the numbers of the summary.
const ENTRIES: &str = "entries ";

const RELABELLED: &str = "relabelled ";

const CONFLICTS: &str = "conflicts ";

const ERRORS: &str = "errors ";

const SKIPPED_AGAIN: &str = "skipped again ";

const RELABELLED_AGAIN: &str = "relabelled again ";

const LINE_END: &str = "\n";

/// What is counted of two walks over a sample: of the first one the entries, the labels that
/// change, the conflicts and the errors, and of the second one the directories that are skipped and
/// the labels that change.
#[derive(Clone, Copy)]
pub struct Summary {
    pub entries: u32,
    pub relabelled: u32,
    pub conflicts: u32,
    pub errors: u32,
    pub skipped_again: u32,
    pub relabelled_again: u32,
}

#[tactic(auto, unfolding(crate::specs::Summary::number_line))]
fn add_line(alloc: Global, name: &str, number: u32, text: &mut Bytes) -> Result<(), OutOfMemory>
    ensures { OnOk result (text.new ≡ text.old ++ number_line name.now number) }
{
    text.push(name.as_bytes())?;
    add_number(alloc, number, text)?;
    text.push(LINE_END.as_bytes())
}

impl Summary {
    /// A line for each number, behind its name.
    #[tactic(auto, unfolding(crate::specs::Summary::summary_text))]
    pub fn text(&self, alloc: Global) -> Result<Bytes, OutOfMemory>
        ensures { IfOk result (λ text. text ≡ summary_text self.now) }
    {
        let mut text = Bytes::new(alloc);
        add_line(alloc, ENTRIES, self.entries, &mut text)?;
        add_line(alloc, RELABELLED, self.relabelled, &mut text)?;
        add_line(alloc, CONFLICTS, self.conflicts, &mut text)?;
        add_line(alloc, ERRORS, self.errors, &mut text)?;
        add_line(alloc, SKIPPED_AGAIN, self.skipped_again, &mut text)?;
        add_line(alloc, RELABELLED_AGAIN, self.relabelled_again, &mut text)?;
        Ok(text)
    }
}
