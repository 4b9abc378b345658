ghost use Rattle.std.specs.Prelude.{◌≡◌, ℕ, ◌+◌, ◌<◌, ◌^◌, ◌++◌, ◌∷◌, [], true, false, All, List};
ghost use Rattle.std.specs.Prelude.{IfOk, IfSome, None, OnOk, length};
ghost use Rattle.std.specs.List.{flat_map};
ghost use Rattle.inode_claims.specs.Answers.{group_count, winner_of};
ghost use Rattle.tree_model.specs.Extents.{extent_of};
ghost use Rattle.tree_model.specs.Groups.{groups_in};
ghost use Rattle.relabel_core.specs.Answer.{walk_in};
ghost use Rattle.relabel_core.specs.Numbers.{IsNumberPut, found_in};
ghost use Rattle.relabel_core.specs.Swept.{AreSwept, renewal};
ghost use Rattle.relabel_core.specs.Walk.{walk_count, skippable, winner};
ghost use Rattle.relabel_core.specs.Walked.{AreWalkAnswers, IsFit, walk_of};
ghost use Rattle.relabel_workers.specs.Alone.{IsNoteOf};
ghost use Rattle.relabel_workers.specs.PutBack.{AreAllNoted, ArePutBack, AreSkippedTo};
ghost use Rattle.relabel_workers.specs.PutBack.{AreWinnersClaimed, IsOpenNote, KeepsFirst};
ghost use Rattle.relabel_workers.specs.declared.note.Note.{Note};

use crate::note::Note;
use crate::notes::Notes;
use dir_digest::Digest;
use inode_claims::Winners;
use label_base::OutOfMemory;
use relabel_core::{Noted, Skip, Swept, WalkInput, Walked, renewed_digest};
use std::alloc::Global;

// Notes of a directory that it is skipped, and of all below it before a place.
#[tactic(auto, using(crate::proofs::SkipLemmas::first_skipped, crate::proofs::SkipLemmas::more_skipped))]
fn skip_to(swept: &mut Swept, d: u32, end: u32)
    requires { d < end }
    ensures skips { AreSkippedTo swept.old.skips.items d end swept.new.skips.items }
    ensures made { swept.new.made ≡ swept.old.made }
{
    swept.put_skip(d, Skip::First);
    'below: for e in d + 1..end {
        swept.put_skip(e, Skip::Below);
    }
}

// Keeps the digest that a directory gets anew, if it gets one.
#[tactic(auto, using(crate::proofs::SkipLemmas::kept_none, crate::proofs::SkipLemmas::kept_before, crate::proofs::SkipLemmas::kept_first))]
fn keep_renewed(swept: &mut Swept, d: u32, renewed: Option<Digest>) -> Result<(), OutOfMemory>
    ensures made { OnOk result (KeepsFirst swept.old.made swept.new.made d renewed) }
    ensures skips { swept.new.skips.items ≡ swept.old.skips.items }
{
    let Some(digest) = renewed else {
        return Ok(());
    };
    if swept.renewed(d).is_some() {
        return Ok(());
    }
    swept.put_renewed(d, digest)
}

// Puts a directory back that is skipped by itself.
fn put_skipped(input: &WalkInput<'_>, d: u32, swept: &mut Swept)
    requires entry { d < walk_count (walk_of input.now) }
    ensures skips { AreSkippedTo swept.old.skips.items d (extent_of input.now.tree.now d)
        swept.new.skips.items }
    ensures made { swept.new.made ≡ swept.old.made }
{
    let end = input.tree.extent(d);
    skip_to(swept, d, end);
}

// Puts back the digest that an entry gets anew.
#[tactic(auto, using(crate::proofs::SkipLemmas::skipped_alone))]
fn put_digest(input: &WalkInput<'_>, note: &Note, swept: &mut Swept) -> Result<(), OutOfMemory>
    requires fit { IsFit input.now }
    requires note { IsOpenNote (walk_of input.now) note.now }
    ensures made { OnOk result (KeepsFirst swept.old.made swept.new.made note.now.entry
        (renewal (walk_of input.now) note.now.entry)) }
    ensures skips { swept.new.skips.items ≡ swept.old.skips.items }
{
    input.tree.rises();
    let finding = &note.finding;
    let renewed = renewed_digest(input, note.entry, finding.digest, finding.skippable);
    keep_renewed(swept, note.entry, renewed)
}

// Puts back what is noted of one entry.
fn put_note(
    input: &WalkInput<'_>,
    note: &Note,
    noted: &mut Noted,
    swept: &mut Swept,
) -> Result<(), OutOfMemory>
    requires fit { IsFit input.now }
    requires note { IsOpenNote (walk_of input.now) note.now }
    ensures put { (done : List Note) → ArePutBack (walk_of input.now) done noted.old swept.old
        → OnOk result (ArePutBack (walk_of input.now) (done ++ note.now ∷ []) noted.new swept.new) }
{
    input.tree.rises();
    let _ = input.rules.rules.len();
    noted.put_decided(note.entry, note.decided);
    if note.finding.skippable {
        put_skipped(input, note.entry, swept);
        return Ok(());
    }
    put_digest(input, note, swept)
}

fn put_row(
    input: &WalkInput<'_>,
    notes: &[Note],
    noted: &mut Noted,
    swept: &mut Swept,
) -> Result<(), OutOfMemory>
    requires fit { IsFit input.now }
    requires notes { All (IsOpenNote (walk_of input.now)) notes.now }
    ensures put { (done : List Note) → ArePutBack (walk_of input.now) done noted.old swept.old
        → OnOk result (ArePutBack (walk_of input.now) (done ++ notes.now) noted.new swept.new) }
{
    'notes: for note in notes {
        put_note(input, note, noted, swept)?;
    }
    Ok(())
}

fn put_rows(
    input: &WalkInput<'_>,
    rows: &[Vec<Note>],
    noted: &mut Noted,
    swept: &mut Swept,
) -> Result<(), OutOfMemory>
    requires fit { IsFit input.now }
    requires notes { All (IsOpenNote (walk_of input.now)) (flat_map (λ row. row.items) rows.now) }
    ensures put { (done : List Note) → ArePutBack (walk_of input.now) done noted.old swept.old
        → OnOk result (ArePutBack (walk_of input.now) (done ++ flat_map (λ row. row.items) rows.now)
        noted.new swept.new) }
{
    'rows: for row in rows {
        put_row(input, row.as_slice(), noted, swept)?;
    }
    Ok(())
}

// Puts back all that is noted.
fn put_notes(
    input: &WalkInput<'_>,
    notes: &Notes,
    noted: &mut Noted,
    swept: &mut Swept,
) -> Result<(), OutOfMemory>
    requires fit { IsFit input.now }
    requires notes { All (IsOpenNote (walk_of input.now)) notes.now }
    ensures put { (done : List Note) → ArePutBack (walk_of input.now) done noted.old swept.old
        → OnOk result (ArePutBack (walk_of input.now) (done ++ notes.now) noted.new swept.new) }
{
    put_rows(input, notes.full.as_slice(), noted, swept)?;
    put_row(input, notes.last.as_slice(), noted, swept)
}

// The winner of a group, whose position is few.
fn winner_in(winners: &Winners, g: u32) -> Option<u32>
    requires group { g < group_count winners.now }
    requires few { IfSome (winner_of winners.now g) (λ k. k < 2 ^ 32) }
    ensures { result ≡ winner_of winners.now g }
{
    match winners.get(g) {
        Some(position) => Some(position as u32),
        None => None,
    }
}

// Puts back the winners.
fn put_winners(input: &WalkInput<'_>, winners: &Winners, noted: &mut Noted)
    requires fit { IsFit input.now }
    requires winners { AreWinnersClaimed (walk_of input.now) winners.now }
    requires room { length noted.old.winners.items ≡ groups_in input.now.tree.now }
    ensures winners { (g : ℕ) → g < groups_in input.now.tree.now
        → found_in noted.new.winners.items g ≡ winner (walk_of input.now) g }
    ensures decided { noted.new.decided.items ≡ noted.old.decided.items }
{
    'groups: for g in 0..input.tree.groups() {
        noted.put_winner(g, winner_in(winners, g));
    }
}

/// What a walk answers of which workers noted this, and claimed these winners.
pub fn walk_of_notes<'a>(
    alloc: Global,
    input: &WalkInput<'a>,
    winners: &Winners,
    notes: &Notes,
) -> Result<Walked<'a>, OutOfMemory>
    requires fit { IsFit input.now }
    requires winners { AreWinnersClaimed (walk_of input.now) winners.now }
    requires notes { AreAllNoted (walk_of input.now) notes.now }
    ensures { IfOk result (λ walked. walk_in walked ≡ walk_of input.now) }
{
    let mut noted = Noted::none(alloc, input)?;
    let mut swept = Swept::with_room(alloc, input.tree.len())?;
    put_notes(input, notes, &mut noted, &mut swept)?;
    put_winners(input, winners, &mut noted);
    Ok(Walked::of_noted(input, swept, noted))
}
