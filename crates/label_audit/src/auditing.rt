ghost use Rattle.std.specs.Prelude.{◌≡◌, [], IfOk, List, OnOk};
ghost use Rattle.std.specs.Option.{option_copied};
ghost use Rattle.relabel_core.specs.Report.{AreRaised};
ghost use Rattle.relabel_core.specs.Walked.{IsFit, walk_of};
ghost use Rattle.label_audit.specs.Ahead.{IsAhead};
ghost use Rattle.label_audit.specs.Compared.{IsOpened, next_behind, behind_of};
ghost use Rattle.label_audit.specs.Finding.{finding_by, finding_of};
ghost use Rattle.label_audit.specs.Looking.{AreReady};
ghost use Rattle.label_audit.specs.Pieces.{PlacedPiece, differing_in, dump_pieces, report_pieces};

use crate::ahead::Ahead;
use crate::compared::Compared;
use crate::entries::{Audit, SectionTexts, audit_entries};
use crate::lines::{ComparedReport, compare_operands, compare_specs};
use crate::looking::look_ups;
use label_base::{Bytes, OutOfMemory};
use relabel_core::{WalkInput, no_flags};
use run_faults::{Finding, Piece};
use std::alloc::Global;

fn dump_of<'f>(dump: Option<&'f [u8]>) -> Option<Compared<'f>>
    ensures { (pieces : List PlacedPiece)
        → behind_of result pieces ≡ differing_in pieces (option_copied dump.entry) }
{
    match dump {
        None => None,
        Some(bytes) => Some(Compared::new(bytes)),
    }
}

// An audit before its first piece.
fn audit_of<'a, 'f>(
    alloc: Global,
    input: &WalkInput<'a>,
    report: &'f [u8],
    dump: Option<&'f [u8]>,
) -> Result<Audit<'a, 'f>, OutOfMemory>
    ensures { IfOk result (IsOpened (walk_of input.now) report.now (option_copied dump.entry)) }
{
    let flags = no_flags(alloc, input.rules.rules.len())?;
    let lookups = look_ups(alloc, input)?;
    Ok(Audit {
        report: ComparedReport {
            file: Compared::new(report),
            line: Bytes::new(alloc),
        },
        dump: dump_of(dump),
        ahead: Ahead::new(),
        flags,
        texts: SectionTexts {
            section: Bytes::new(alloc),
            spelled: Bytes::new(alloc),
        },
        lookups,
    })
}

fn compare_all(
    alloc: Global,
    input: &WalkInput<'_>,
    audit: &mut Audit<'_, '_>,
) -> Result<(), OutOfMemory>
    requires fit { IsFit input.now }
    requires ready { AreReady (walk_of input.now) audit.old.lookups }
    requires ahead { IsAhead (walk_of input.now) 0 audit.old.ahead }
    requires flags { AreRaised (walk_of input.now) 0 audit.old.flags.items }
    ensures report { OnOk result (next_behind audit.new.report.file []
        ≡ next_behind audit.old.report.file (report_pieces (walk_of input.now)
        input.now.operands.now input.now.chosen.now.absent)) }
    ensures dump { OnOk result (behind_of audit.new.dump []
        ≡ behind_of audit.old.dump (dump_pieces (walk_of input.now))) }
{
    compare_operands(alloc, input, &mut audit.report)?;
    audit_entries(alloc, input, audit)?;
    compare_specs(alloc, input, audit.flags.as_slice(), &mut audit.report)?;
    Ok(())
}

fn end_of(dump: &Option<Compared<'_>>) -> Option<Piece>
    ensures { result ≡ behind_of dump.now [] }
{
    match dump {
        None => None,
        Some(dump) => dump.end(),
    }
}

fn finding_by(report: Option<Piece>, dump: Option<Piece>) -> Finding
    ensures { result ≡ finding_by report dump }
{
    match report {
        Some(piece) => Finding::InReport(piece),
        None => match dump {
            Some(piece) => Finding::InDump(piece),
            None => Finding::Agrees,
        },
    }
}

/// Compares a report, and a dump where there is one, with those of a walk, piece by piece: it
/// answers the first piece of the report that doesn't stand where those before it end, else the
/// same of the dump. It takes memory for the piece at hand, and for the winner of each inode whose
/// first name isn't it.
pub fn audit(
    alloc: Global,
    input: &WalkInput<'_>,
    report: &[u8],
    dump: Option<&[u8]>,
) -> Result<Finding, OutOfMemory>
    requires { IsFit input.now }
    ensures { IfOk result (λ finding. finding ≡ finding_of (walk_of input.now)
        input.now.operands.now input.now.chosen.now.absent report.now (option_copied dump.entry)) }
{
    let mut audit = audit_of(alloc, input, report, dump)?;
    compare_all(alloc, input, &mut audit)?;
    Ok(finding_by(audit.report.file.end(), end_of(&audit.dump)))
}
