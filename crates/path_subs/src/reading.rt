ghost use Rattle.std.specs.Prelude.{◌≡◌, ◌↔◌, ◌<◌, ◌^◌, length};
ghost use Rattle.label_base.specs.Answers.{Answers, fault_cause};
ghost use Rattle.path_subs.specs.SubGrammar.{SubsMean};
ghost use Rattle.path_subs.specs.SubLines.{subs_of};

use crate::line::SubReader;
use crate::sub::Sub;
use crate::sub_fault::SubFault;
use label_base::{Row, read_lines};
use std::alloc::Global;

/// Reads the lines of a substitution file (selabel_file(5)), in their order.
///
/// A line's first two fields are the source and the target, and what follows is passed over. The
/// first line that has one field alone, a field that is no path, or `/` as its source is refused.
/// Comments and blank lines are skipped.
pub fn read_subs(alloc: Global, bytes: &[u8]) -> Result<Row<Sub>, SubFault>
    requires { length bytes.now < 2 ^ 32 }
    ensures { Answers (λ subs. subs) fault_cause result (subs_of bytes.now) }
{
    read_lines(alloc, &SubReader, bytes)
}

/// A law on all bytes: what [`read_subs`] reads of them is what the grammar of selabel_file(5)
/// says, the first refused line included. It does nothing.
#[tactic(auto, using(crate::proofs::SubsMeant::subs_mean))]
pub fn subs_follow_grammar(_bytes: &[u8])
    ensures { (meant : _) → (subs_of _bytes.now ≡ meant) ↔ SubsMean _bytes.now meant }
{}
