ghost use Rattle.std.specs.Prelude.{◌≡◌, ◌++◌, ◌<◌, ◌+◌, ◌^◌, IfOk, OnOk, length, slice_get};
ghost use Rattle.std.specs.Option.{option_copied};
ghost use Rattle.file_paths.specs.PathRef.{path_of};
ghost use Rattle.find_records.specs.Record.{AreOfFormat};
ghost use Rattle.report_text.specs.Texts.{shown_path};
ghost use Rattle.tree_model.specs.Selection.{selected_by};
ghost use Rattle.relabel_core.specs.Stored.{digests_of};
ghost use Rattle.relabel_core.specs.Walked.{IsFit, walk_for, walk_of};
ghost use Rattle.label_audit.specs.Answer.{audit_of, audit_ending, finding_end, finding_line};
ghost use Rattle.label_audit.specs.Answer.{finding_text, pattern_text, audit_piece_text};

use crate::auditing::audit;
use crate::entries::entry_path;
use crate::found::AuditFiles;
use crate::words::AuditWords;
use file_paths::PathRef;
use label_base::{Bytes, OutOfMemory, PiecedText, write_escaped};
use label_rules::{Rules, spec_at};
use relabel_core::{Stored, WalkInput, operand_at, walk_input};
use run_endings::{End, Ending};
use run_faults::{Finding, Piece};
use std::alloc::Global;
use tree_model::Tree;

// What is told of a finding.
const AGREES: &str = "agrees";

const REPORT_DIFFERS: &str = "report differs at ";

const DUMP_DIFFERS: &str = "dump differs at ";

const OPERAND: &str = "operand ";

const SPECIFICATION: &str = "specification ";

const ITS_END: &str = "its end";

const LINE_FEED: &str = "\n";

fn add_path(alloc: Global, path: &PathRef<'_>, text: &mut Bytes) -> Result<(), OutOfMemory>
    ensures { OnOk result (text.new ≡ text.old ++ shown_path (path_of path.now)) }
{
    write_escaped(alloc, path.as_text(), text)
}

fn add_operand(alloc: Global, path: &PathRef<'_>, text: &mut Bytes) -> Result<(), OutOfMemory>
    ensures { OnOk result (text.new ≡ text.old ++ (OPERAND.now ++ shown_path (path_of path.now))) }
{
    text.push(OPERAND.as_bytes())?;
    add_path(alloc, path, text)
}

// Adds the text of a specification's pattern.
fn add_pattern(rules: &Rules, i: u32, text: &mut Bytes) -> Result<(), OutOfMemory>
    ensures { OnOk result (text.new ≡ text.old ++ pattern_text (slice_get rules.now.rules i)) }
{
    match spec_at(rules, Some(i)) {
        None => Ok(()),
        Some(spec) => text.push(spec.text()),
    }
}

fn add_spec(rules: &Rules, i: u32, text: &mut Bytes) -> Result<(), OutOfMemory>
    ensures { OnOk result (text.new
        ≡ text.old ++ (SPECIFICATION.now ++ pattern_text (slice_get rules.now.rules i))) }
{
    text.push(SPECIFICATION.as_bytes())?;
    add_pattern(rules, i, text)
}

fn add_piece(
    alloc: Global,
    input: &WalkInput<'_>,
    piece: Piece,
    text: &mut Bytes,
) -> Result<(), OutOfMemory>
    ensures { OnOk result (text.new
        ≡ text.old ++ audit_piece_text (walk_of input.now) input.now.operands.now piece) }
{
    match piece {
        Piece::Operand(i) => { add_operand(alloc, &operand_at(input.operands.as_slice(), i), text) }
        Piece::Entry(e) => add_path(alloc, &entry_path(input.tree, e), text),
        Piece::Rule(i) => add_spec(input.rules, i, text),
        Piece::End => text.push(ITS_END.as_bytes()),
    }
}

// Adds where a file differs, behind words that tell which.
fn add_difference(
    alloc: Global,
    input: &WalkInput<'_>,
    words: &str,
    piece: Piece,
    text: &mut Bytes,
) -> Result<(), OutOfMemory>
    ensures { OnOk result (text.new ≡ text.old
        ++ (words.now ++ audit_piece_text (walk_of input.now) input.now.operands.now piece)) }
{
    text.push(words.as_bytes())?;
    add_piece(alloc, input, piece, text)
}

fn add_finding(
    alloc: Global,
    input: &WalkInput<'_>,
    finding: Finding,
    text: &mut Bytes,
) -> Result<(), OutOfMemory>
    ensures { OnOk result (text.new
        ≡ text.old ++ finding_text (walk_of input.now) input.now.operands.now finding) }
{
    match finding {
        Finding::Agrees => text.push(AGREES.as_bytes()),
        Finding::InReport(piece) => add_difference(alloc, input, REPORT_DIFFERS, piece, text),
        Finding::InDump(piece) => add_difference(alloc, input, DUMP_DIFFERS, piece, text),
    }
}

// The line that tells a finding.
fn finding_line(
    alloc: Global,
    input: &WalkInput<'_>,
    finding: Finding,
) -> Result<Bytes, OutOfMemory>
    ensures { IfOk result (λ text. text
        ≡ finding_line (walk_of input.now) input.now.operands.now finding) }
{
    let mut text = Bytes::new(alloc);
    add_finding(alloc, input, finding, &mut text)?;
    text.push(LINE_FEED.as_bytes())?;
    Ok(text)
}

fn finding_end(finding: Finding) -> End
    ensures { result ≡ finding_end finding }
{
    match finding {
        Finding::Agrees => End::Done,
        Finding::InReport(_) => End::Denied { finding },
        Finding::InDump(_) => End::Denied { finding },
    }
}

fn dump_of(dump: &Option<Bytes>) -> Option<&[u8]>
    ensures { option_copied result ≡ dump.now }
{
    match dump {
        None => None,
        Some(bytes) => Some(bytes.as_slice()),
    }
}

// What is written of the audit of a walk over this input.
fn ending_over(
    alloc: Global,
    input: &WalkInput<'_>,
    found: &AuditFiles,
) -> Result<Ending, OutOfMemory>
    requires { IsFit input.now }
    ensures { IfOk result (λ ending. ending ≡ audit_ending (walk_of input.now)
        input.now.operands.now input.now.chosen.now.absent found.now) }
{
    let finding = audit(alloc, input, found.report.as_slice(), dump_of(&found.dump))?;
    Ok(Ending {
        report: PiecedText::of(alloc, finding_line(alloc, input, finding)?)?,
        end: finding_end(finding),
        saved: None,
    })
}

// What is written of the audit of a walk over a tree whose directories have these digests.
fn ending_stored(
    alloc: Global,
    words: &AuditWords,
    found: &AuditFiles,
    tree: &Tree,
    stored: &Stored,
) -> Result<Ending, OutOfMemory>
    requires tree { length tree.now < 2 ^ 31 }
    requires words { length words.now.inner.choice.operands < 2 ^ 31 }
    requires format { AreOfFormat words.now.inner.options.format tree.now }
    ensures { IfOk result (λ ending. ending
        ≡ audit_ending (walk_for tree.now words.now.inner.choice found.now.run.rules
        words.now.inner.options (digests_of stored.now)) words.now.inner.choice.operands
        (selected_by words.now.inner.choice tree.now).absent found.now) }
{
    let run = &words.inner;
    let chosen = tree.select(alloc, &run.choice)?;
    let input = walk_input(
        tree,
        &run.choice,
        &chosen,
        &found.run.rules,
        run.options,
        stored,
    );
    ending_over(alloc, &input, found)
}

/// What audit writes: the line that tells its finding. It fails for want of memory alone.
#[tactic(auto, unfolding(crate::specs::Answer::audit_of))]
pub fn answer_of(
    alloc: Global,
    words: &AuditWords,
    found: &AuditFiles,
    tree: &Tree,
) -> Result<Ending, OutOfMemory>
    requires tree { length tree.now < 2 ^ 31 }
    requires words { length words.now.inner.choice.operands < 2 ^ 31 }
    requires format { AreOfFormat words.now.inner.options.format tree.now }
    ensures { IfOk result (λ ending. ending ≡ audit_of words.now found.now tree.now) }
{
    let stored = Stored::new(alloc, tree, &found.run.stored)?;
    ending_stored(alloc, words, found, tree, &stored)
}
