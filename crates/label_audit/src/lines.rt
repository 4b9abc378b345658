ghost use Rattle.std.specs.Prelude.{◌≡◌, ◌++◌, ◌∷◌, List, OnOk, length, map, option_map};
ghost use Rattle.label_base.specs.Bounded.{all_numbers};
ghost use Rattle.report_text.specs.Message.{message_of};
ghost use Rattle.relabel_core.specs.Report.{AreRaised, optional_text};
ghost use Rattle.relabel_core.specs.Walk.{walk_count};
ghost use Rattle.relabel_core.specs.Walked.{walk_of};
ghost use Rattle.label_audit.specs.Compared.{next_behind, unflagged_piece};
ghost use Rattle.label_audit.specs.Pieces.{PlacedPiece, operand_piece, operand_pieces};
ghost use Rattle.label_audit.specs.Pieces.{piece_placed};
ghost use Rattle.label_audit.specs.Pieces.{spec_pieces};

use crate::compared::Compared;
use file_paths::NormPath;
use label_base::{Bytes, OutOfMemory};
use label_rules::Rules;
use relabel_core::{WalkInput, operand_at, unflagged_line};
use report_text::{Message, add_line};
use run_faults::Piece;
use std::alloc::Global;

/// A report that is compared with lines, one after the other.
#[derive(Drop)]
pub struct ComparedReport<'f> {
    pub file: Compared<'f>,
    /// What the line at hand is made in.
    pub line: Bytes,
}

// Makes the line of a message in a buffer, or nothing where there is none.
fn make_line(
    alloc: Global,
    message: &Option<Message<'_>>,
    line: &mut Bytes,
) -> Result<(), OutOfMemory>
    ensures { OnOk result (line.new ≡ optional_text (option_map message_of message.now)) }
{
    line.clear();
    match message {
        None => Ok(()),
        Some(message) => add_line(alloc, message, line),
    }
}

/// Compares the line of a message, or nothing where there is none.
pub fn compare_line(
    alloc: Global,
    piece: Piece,
    message: &Option<Message<'_>>,
    report: &mut ComparedReport<'_>,
) -> Result<(), OutOfMemory>
    ensures { OnOk result ((rest : List PlacedPiece)
        → next_behind report.new.file rest ≡ next_behind report.old.file
        (piece_placed piece (optional_text (option_map message_of message.now)) ∷ rest)) }
{
    make_line(alloc, message, &mut report.line)?;
    report.file.compare(piece, report.line.as_slice());
    Ok(())
}

// Compares the line of an operand that has no entry.
fn compare_operand(
    alloc: Global,
    operands: &[NormPath],
    i: u32,
    report: &mut ComparedReport<'_>,
) -> Result<(), OutOfMemory>
    ensures { OnOk result ((rest : List PlacedPiece)
        → next_behind report.new.file rest ≡ next_behind report.old.file
        (operand_piece operands.now i ∷ rest)) }
{
    let message = Message::Absent {
        path: operand_at(operands, i),
    };
    compare_line(alloc, Piece::Operand(i), &Some(message), report)?;
    Ok(())
}

fn compare_absent(
    alloc: Global,
    operands: &[NormPath],
    indices: &[u32],
    report: &mut ComparedReport<'_>,
) -> Result<(), OutOfMemory>
    ensures { OnOk result ((rest : List PlacedPiece) → next_behind report.new.file rest
        ≡ next_behind report.old.file (map (operand_piece operands.now) indices.now ++ rest)) }
{
    'operands: for i in indices {
        compare_operand(alloc, operands, *i, report)?;
    }
    Ok(())
}

/// Compares the lines of the operands that have no entry.
pub fn compare_operands(
    alloc: Global,
    input: &WalkInput<'_>,
    report: &mut ComparedReport<'_>,
) -> Result<(), OutOfMemory>
    ensures { OnOk result ((rest : List PlacedPiece) → next_behind report.new.file rest
        ≡ next_behind report.old.file (operand_pieces (walk_of input.now) input.now.operands.now
        input.now.chosen.now.absent ++ rest)) }
{
    if input.options.ignore_absent {
        return Ok(());
    }
    compare_absent(
        alloc,
        input.operands.as_slice(),
        input.chosen.absent().as_slice(),
        report,
    )
}

// Compares the line of a specification, unless its flag is raised.
fn compare_spec(
    alloc: Global,
    rules: &Rules,
    flags: &[bool],
    i: u32,
    report: &mut ComparedReport<'_>,
) -> Result<(), OutOfMemory>
    ensures { OnOk result ((rest : List PlacedPiece) → next_behind report.new.file rest
        ≡ next_behind report.old.file (unflagged_piece rules.now flags.now i ∷ rest)) }
{
    compare_line(
        alloc,
        Piece::Rule(i),
        &unflagged_line(rules, flags, i),
        report,
    )?;
    Ok(())
}

fn compare_unflagged(
    alloc: Global,
    rules: &Rules,
    flags: &[bool],
    report: &mut ComparedReport<'_>,
) -> Result<(), OutOfMemory>
    ensures { OnOk result ((rest : List PlacedPiece) → next_behind report.new.file rest
        ≡ next_behind report.old.file (map (unflagged_piece rules.now flags.now)
        (all_numbers (length rules.now.rules)) ++ rest)) }
{
    'specs: for i in 0..rules.rules.len() {
        compare_spec(alloc, rules, flags, i, report)?;
    }
    Ok(())
}

/// Compares the lines of the specifications that decide no entry, whose flags are not raised.
#[tactic(auto, using(crate::proofs::CompareLemmas::specs_are))]
pub fn compare_specs(
    alloc: Global,
    input: &WalkInput<'_>,
    flags: &[bool],
    report: &mut ComparedReport<'_>,
) -> Result<(), OutOfMemory>
    requires { AreRaised (walk_of input.now) (walk_count (walk_of input.now)) flags.now }
    ensures { OnOk result ((rest : List PlacedPiece) → next_behind report.new.file rest
        ≡ next_behind report.old.file (spec_pieces (walk_of input.now) ++ rest)) }
{
    if !input.options.warn_unmatched {
        return Ok(());
    }
    compare_unflagged(alloc, input.rules, flags, report)
}
