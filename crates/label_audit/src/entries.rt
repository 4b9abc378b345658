ghost use Rattle.std.specs.Prelude.{◌≡◌, ◌+◌, ◌++◌, ◌∷◌, ◌<◌, false, IfOk, List, OnOk, option_map};
ghost use Rattle.context_syntax.specs.ContextRef.{context_lent};
ghost use Rattle.file_paths.specs.PathRef.{path_of};
ghost use Rattle.tree_model.specs.Extents.{entry_at};
ghost use Rattle.relabel_core.specs.Changes.{optional_section, section_by};
ghost use Rattle.relabel_core.specs.KnownEntry.{index_known, walk_known};
ghost use Rattle.relabel_core.specs.Swept.{SkipEndsAt, renewal};
ghost use Rattle.relabel_core.specs.Report.{AreRaised};
ghost use Rattle.relabel_core.specs.Walk.{walk_count};
ghost use Rattle.relabel_core.specs.Walked.{IsFit, walk_of};
ghost use Rattle.label_audit.specs.Ahead.{IsAhead};
ghost use Rattle.label_audit.specs.Compared.{next_behind, behind_of, is_compared_open};
ghost use Rattle.label_audit.specs.Looking.{AreReady};
ghost use Rattle.label_audit.specs.Pieces.{PlacedPiece, dump_pieces, entry_piece, entry_pieces};
ghost use Rattle.label_audit.specs.Pieces.{piece_placed, section_piece};

use crate::ahead::Ahead;
use crate::compared::Compared;
use crate::deciding::LookedUp;
use crate::digests::digest_at;
use crate::lines::{ComparedReport, compare_line};
use crate::looking::{FoundEntry, LookUps, decide_at, known_of, skip_at};
use file_paths::PathRef;
use label_base::{Bytes, OutOfMemory};
use relabel_core::{Cursor, Known, PathChanges, WalkInput, add_section_of, raise};
use run_faults::Piece;
use std::alloc::Global;
use tree_model::Tree;

/// What the section at hand is made in.
#[derive(Drop)]
pub struct SectionTexts {
    pub section: Bytes,
    /// The context in it.
    pub spelled: Bytes,
}

/// How far an audit has come.
#[derive(Drop)]
pub struct Audit<'a, 'f> {
    pub report: ComparedReport<'f>,
    /// The dump, where the run writes one.
    pub dump: Option<Compared<'f>>,
    pub ahead: Ahead,
    /// For each specification whether it decides an entry before.
    pub flags: Vec<bool>,
    pub texts: SectionTexts,
    pub lookups: LookUps<'a>,
}

// Compares the line of an entry.
fn compare_known(
    alloc: Global,
    e: u32,
    known: &Known<'_>,
    report: &mut ComparedReport<'_>,
) -> Result<(), OutOfMemory>
    requires { index_known known.now ≡ e }
    ensures { OnOk result ((rest : List PlacedPiece)
        → next_behind report.new.file rest ≡ next_behind report.old.file
        (entry_piece (walk_known known.now) e ∷ rest)) }
{
    compare_line(alloc, Piece::Entry(e), &known.message(), report)?;
    Ok(())
}

/// The path of an entry, or the empty one.
pub fn entry_path<'a>(tree: &'a Tree, e: u32) -> PathRef<'a>
    ensures { path_of result ≡ (entry_at tree.now e).path }
{
    if e < tree.len() {
        return tree.entry(e).path;
    }
    PathRef::of_text(b"")
}

// Makes the section of a path.
fn make_section(
    alloc: Global,
    changes: &PathChanges<'_, '_>,
    texts: &mut SectionTexts,
) -> Result<(), OutOfMemory>
    ensures { OnOk result (texts.new.section ≡ optional_section
        (section_by (path_of changes.now.path.now)
        (option_map context_lent changes.now.label.now) changes.now.digest.now)) }
{
    texts.section.clear();
    add_section_of(alloc, changes, &mut texts.spelled, &mut texts.section)?;
    Ok(())
}

// Whether there is a dump, all pieces of which stood so far.
fn is_open(dump: &Option<Compared<'_>>) -> bool
    ensures { result ≡ is_compared_open dump.now }
{
    match dump {
        None => false,
        Some(dump) => !dump.has_differed(),
    }
}

// Compares a piece with the dump, where there is one.
fn compare_dump(dump: &mut Option<Compared<'_>>, piece: Piece, text: &[u8])
    ensures { (rest : List PlacedPiece)
        → behind_of dump.new rest ≡ behind_of dump.old (piece_placed piece text.now ∷ rest) }
{
    match dump {
        None => {}
        Some(dump) => dump.compare(piece, text),
    }
}

// Compares the section of an entry. Nothing is made where there is no dump, or a piece of it didn't
// stand.
#[tactic(auto, using(crate::proofs::CompareLemmas::shut))]
fn compare_section(
    alloc: Global,
    input: &WalkInput<'_>,
    found: &FoundEntry<'_>,
    audit: &mut Audit<'_, '_>,
) -> Result<(), OutOfMemory>
    requires fit { IsFit input.now }
    requires entry { found.now.at.entry < walk_count (walk_of input.now) }
    requires covers { SkipEndsAt (walk_of input.now) found.now.at.entry found.now.at.end }
    requires walk { walk_known found.now.known ≡ walk_of input.now }
    requires index { index_known found.now.known ≡ found.now.at.entry }
    requires renewed { found.now.renewed ≡ renewal (walk_of input.now) found.now.at.entry }
    requires ready { AreReady (walk_of input.now) audit.old.lookups }
    requires ahead { IsAhead (walk_of input.now) found.now.at.entry audit.old.ahead }
    ensures ready { OnOk result (AreReady (walk_of input.now) audit.new.lookups) }
    ensures ahead { OnOk result (IsAhead (walk_of input.now) found.now.at.entry audit.new.ahead) }
    ensures dump { OnOk result ((rest : List PlacedPiece) → behind_of audit.new.dump rest
        ≡ behind_of audit.old.dump (section_piece (walk_of input.now) found.now.at.entry ∷ rest)) }
    ensures report { audit.new.report ≡ audit.old.report }
    ensures flags { audit.new.flags ≡ audit.old.flags }
{
    if !is_open(&audit.dump) {
        return Ok(());
    }
    let digest = digest_at(alloc, input, found, &mut audit.lookups, &mut audit.ahead)?;
    let change = found.known.change();
    let path = entry_path(input.tree, found.at.entry);
    let changes = PathChanges {
        path: &path,
        label: &change,
        digest: &digest,
    };
    make_section(alloc, &changes, &mut audit.texts)?;
    compare_dump(
        &mut audit.dump,
        Piece::Entry(found.at.entry),
        audit.texts.section.as_slice(),
    );
    Ok(())
}

// Compares the line and the section of an entry. It answers where, behind it, the entries end that
// are below a directory that is skipped.
#[tactic(auto, using(crate::proofs::AheadLemmas::ahead_on, crate::proofs::CompareLemmas::raised_more))]
fn audit_entry(
    alloc: Global,
    input: &WalkInput<'_>,
    at: Cursor,
    audit: &mut Audit<'_, '_>,
) -> Result<u32, OutOfMemory>
    requires fit { IsFit input.now }
    requires entry { at.entry < walk_count (walk_of input.now) }
    requires covers { SkipEndsAt (walk_of input.now) at.entry at.end }
    requires ready { AreReady (walk_of input.now) audit.old.lookups }
    requires ahead { IsAhead (walk_of input.now) at.entry audit.old.ahead }
    requires flags { AreRaised (walk_of input.now) at.entry audit.old.flags.items }
    ensures ready { OnOk result (AreReady (walk_of input.now) audit.new.lookups) }
    ensures covers { IfOk result (λ end. SkipEndsAt (walk_of input.now) (at.entry + 1) end) }
    ensures ahead { OnOk result (IsAhead (walk_of input.now) (at.entry + 1) audit.new.ahead) }
    ensures flags { OnOk result
        (AreRaised (walk_of input.now) (at.entry + 1) audit.new.flags.items) }
    ensures report { OnOk result ((rest : List PlacedPiece) → next_behind audit.new.report.file rest
        ≡ next_behind audit.old.report.file (entry_piece (walk_of input.now) at.entry ∷ rest)) }
    ensures dump { OnOk result ((rest : List PlacedPiece) → behind_of audit.new.dump rest
        ≡ behind_of audit.old.dump (section_piece (walk_of input.now) at.entry ∷ rest)) }
{
    let entry = at.entry;
    let skipped = skip_at(alloc, input, at, &mut audit.lookups)?;
    let spec = decide_at(alloc, input, entry, skipped.skip, &mut audit.lookups)?;
    let own = LookedUp { entry, spec };
    let known = known_of(alloc, input, own, skipped.skip, &mut audit.lookups)?;
    compare_known(alloc, entry, &known, &mut audit.report)?;
    raise(&mut audit.flags, spec);
    let found = FoundEntry {
        at,
        known,
        renewed: skipped.renewed,
    };
    compare_section(alloc, input, &found, audit)?;
    Ok(skipped.end)
}

/// Compares the line and the section of each entry.
pub fn audit_entries(
    alloc: Global,
    input: &WalkInput<'_>,
    audit: &mut Audit<'_, '_>,
) -> Result<(), OutOfMemory>
    requires fit { IsFit input.now }
    requires ready { AreReady (walk_of input.now) audit.old.lookups }
    requires ahead { IsAhead (walk_of input.now) 0 audit.old.ahead }
    requires flags { AreRaised (walk_of input.now) 0 audit.old.flags.items }
    ensures flags { OnOk result (AreRaised (walk_of input.now) (walk_count (walk_of input.now))
        audit.new.flags.items) }
    ensures report { OnOk result ((rest : List PlacedPiece) → next_behind audit.new.report.file rest
        ≡ next_behind audit.old.report.file (entry_pieces (walk_of input.now) ++ rest)) }
    ensures dump { OnOk result ((rest : List PlacedPiece) → behind_of audit.new.dump rest
        ≡ behind_of audit.old.dump (dump_pieces (walk_of input.now) ++ rest)) }
{
    let mut end = 0;
    'entries: for entry in 0..input.tree.len() {
        end = audit_entry(alloc, input, Cursor { entry, end }, audit)?;
    }
    Ok(())
}
