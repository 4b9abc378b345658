ghost use Rattle.std.specs.Prelude.{◌≡◌, ◌++◌, ◌∷◌, ◌+◌, [], List, min, OnOk};
ghost use Rattle.label_base.specs.Answers.{Answers, fault_cause};
ghost use Rattle.home_contexts.specs.Homes.{Given, home_line, within_limits};
ghost use Rattle.home_contexts.specs.Making.{IsMade};

use crate::homes_fault::{HomesFault, HomesWhy};
use crate::limits::{MOST_SPECS, MOST_TEXT_BYTES};
use crate::value::capped;
use label_base::{Bytes, Fault, OutOfMemory};
use std::alloc::Global;

/// The lines that were given so far. Past a limit the text isn't kept any more.
pub(crate) struct Made {
    /// How many lines, up to one more than there may be.
    pub lines: u32,
    /// How many bytes, up to one more than there may be.
    pub bytes: u64,
    pub text: Bytes,
}

// By hand: one call for an owner, where a derived drop is a step for each field.
impl Drop for Made {
    fn drop(self) {
        let Made {
            lines: _,
            bytes: _,
            text: _,
        } = self;
    }
}

fn one_more(lines: u32) -> u32
    ensures { result ≡ min (MOST_SPECS + 1) (lines + 1) }
{
    lines.saturating_add(1).min(MOST_SPECS + 1)
}

impl Made {
    /// No lines.
    pub fn new(alloc: Global) -> Made
        ensures { IsMade result [] }
    {
        Made {
            lines: 0,
            bytes: 0,
            text: Bytes::new(alloc),
        }
    }

    /// Adds a line. After a refusal nothing is known of the text.
    pub fn add(&mut self, line: &[u8]) -> Result<(), OutOfMemory>
        ensures { OnOk result ((given : List Given) → (next : Given)
            → line.now ≡ home_line next
            → IsMade self.old given
            → IsMade self.new (given ++ next ∷ [])) }
    {
        self.lines = one_more(self.lines);
        self.bytes = capped(self.bytes, line.len());
        if self.lines > MOST_SPECS {
            return Ok(());
        }
        if self.bytes > MOST_TEXT_BYTES {
            return Ok(());
        }
        self.text.push(line)
    }

    /// The text, where it is within the limits.
    pub fn finish(self) -> Result<Bytes, HomesFault>
        ensures { (given : List Given) → IsMade self given
            → Answers (λ text. text) fault_cause result (within_limits given) }
    {
        if self.lines > MOST_SPECS {
            return Err(Fault::Why(HomesWhy::TooManySpecs));
        }
        if self.bytes > MOST_TEXT_BYTES {
            return Err(Fault::Why(HomesWhy::TooLong));
        }
        Ok(self.into_text())
    }

    fn into_text(self) -> Bytes
        ensures { result ≡ self.text }
    {
        let Made {
            lines: _,
            bytes: _,
            text,
        } = self;
        text
    }
}
