ghost use Rattle.std.specs.Prelude.{◌≡◌, ◌↔◌, ◌<◌, ◌≤◌, ◌^◌, length, IfOk};
ghost use Rattle.label_base.specs.Answers.{Answers, fault_cause};
ghost use Rattle.spec_reader.specs.SpecGrammar.{SpecsMean};
ghost use Rattle.spec_reader.specs.SpecLines.{specs_of};

use crate::line::SpecReader;
use crate::spec::Spec;
use crate::spec_fault::SpecFault;
use file_roles::Part;
use label_base::{Row, read_lines_within};
use std::alloc::Global;

/// Reads the specifications of a file_contexts file (selabel_file(5)), in the order of its lines.
///
/// Lines count from 1 and are looked at in order. The first that is no specification, no comment
/// and not blank is refused. There may be at most `room` specifications, so the first line that
/// would give one more answers [`LinesWhy::TooMany`](label_base::LinesWhy::TooMany). A line that is
/// refused and past the room is refused.
pub fn read_specs(
    alloc: Global,
    bytes: &[u8],
    part: Part,
    room: u32,
) -> Result<Row<Spec>, SpecFault>
    requires { length bytes.now < 2 ^ 32 }
    ensures read { Answers (λ specs. specs) fault_cause result (specs_of part room bytes.now) }
    ensures within { IfOk result (λ specs. length specs ≤ room) }
{
    read_lines_within(alloc, &SpecReader { part }, bytes, room)
}

/// A law on all bytes: what [`read_specs`] reads of them is what the grammar of selabel_file(5)
/// says, the first line that is refused or gives one specification too many included. It does
/// nothing.
#[tactic(auto, using(crate::proofs::SpecsMeant::specs_mean))]
pub fn specs_follow_grammar(_bytes: &[u8], _part: Part, _room: u32)
    ensures { (meant : _)
        → (specs_of _part _room _bytes.now ≡ meant) ↔ SpecsMean _part _room _bytes.now meant }
{}
