ghost use Rattle.std.specs.Prelude.{◌≡◌, ◌++◌, OnOk};
ghost use Rattle.std.specs.Option.{option_copied};
ghost use Rattle.std.specs.List.{flat_map};
ghost use Rattle.path_reasons.specs.Blocks.{block, block_if_told, block_top, brief_block};
ghost use Rattle.path_reasons.specs.Blocks.{full_block};
ghost use Rattle.path_reasons.specs.Blocks.{heading, loser_lines, path_block, route_lines, told_of};
ghost use Rattle.path_reasons.specs.Blocks.{is_decided_exactly, looked_up};
ghost use Rattle.path_reasons.specs.Routes.{route_seen};

use crate::covering::Route;
use crate::members::{Member, decided_by, place_for};
use crate::naming::{TOLD_KINDS, begins_with, kind_letter, letters_alike};
use crate::texts::{
    BLANK, COLON, LINE_FEED, LOOKED_UP, MARK, add, add_brief_end, add_decided, add_losers,
    add_path, add_stage,
};
use file_paths::NormPath;
use file_roles::{FileList, Part};
use label_base::{Bytes, EntryKind, OutOfMemory};
use pattern_syntax::is_exact;
use spec_reader::Spec;
use std::alloc::Global;

/// What is known of a path, and how it is reported.
#[derive(Clone, Copy)]
pub(crate) struct Told<'a> {
    pub names: &'a FileList,
    pub path: &'a NormPath,
    /// How it is substituted.
    pub route: &'a Route<'a>,
    /// The specifications that match what it is substituted by, the latest first.
    pub members: &'a [Member<'a>],
    /// In one line for each kind.
    pub brief: bool,
}

// Adds the path and the letters of the kinds.
fn add_heading(
    alloc: Global,
    told: &Told<'_>,
    letters: &[u8],
    text: &mut Bytes,
) -> Result<(), OutOfMemory>
    ensures { OnOk result (text.new ≡ text.old ++ heading (told_of told.now) letters.now) }
{
    add_path(alloc, &told.path.path(), text)?;
    add(BLANK, text)?;
    text.push(letters)
}

fn add_brief(
    alloc: Global,
    told: &Told<'_>,
    kind: EntryKind,
    letters: &[u8],
    text: &mut Bytes,
) -> Result<(), OutOfMemory>
    ensures { OnOk result (text.new ≡ text.old
        ++ brief_block (told_of told.now) kind letters.now) }
{
    add_heading(alloc, told, letters, text)?;
    add(MARK, text)?;
    add_brief_end(alloc, told.names, decided_by(told.members, kind), text)?;
    add(LINE_FEED, text)
}

// Adds the path that is looked up, where it isn't the path itself.
fn add_looked_up(alloc: Global, route: &Route<'_>, text: &mut Bytes) -> Result<(), OutOfMemory>
    ensures { OnOk result (text.new ≡ text.old ++ looked_up (route_seen route.now)) }
{
    if route.first.is_none() && route.second.is_none() {
        return Ok(());
    }
    add(LOOKED_UP, text)?;
    add_path(alloc, &route.path.path(), text)?;
    add(LINE_FEED, text)
}

// Adds the lines on how the path is substituted.
fn add_route(
    alloc: Global,
    names: &FileList,
    route: &Route<'_>,
    text: &mut Bytes,
) -> Result<(), OutOfMemory>
    ensures { OnOk result (text.new ≡ text.old
        ++ route_lines names.now (route_seen route.now)) }
{
    add_stage(alloc, names, Part::Subs, route.first, text)?;
    add_stage(alloc, names, Part::SubsDist, route.second, text)?;
    add_looked_up(alloc, route, text)
}

// Whether a specification decides that has no metacharacter.
fn is_decided_exactly(decided: Option<&Spec>) -> bool
    ensures { result ≡ is_decided_exactly (option_copied decided.entry) }
{
    match decided {
        None => false,
        Some(spec) => is_exact(spec.text()),
    }
}

// Adds the lines of all members but the one that decides, the latest first.
fn add_others(
    alloc: Global,
    told: &Told<'_>,
    kind: EntryKind,
    text: &mut Bytes,
) -> Result<(), OutOfMemory>
    ensures { OnOk result (text.new ≡ text.old ++ loser_lines (told_of told.now) kind) }
{
    let exact = is_decided_exactly(decided_by(told.members, kind));
    let place = place_for(told.members, kind);
    add_losers(alloc, told.names, kind, exact, &told.members[..place], text)?;
    if place >= told.members.len() {
        return Ok(());
    }
    add_losers(
        alloc,
        told.names,
        kind,
        exact,
        &told.members[place + 1..],
        text,
    )
}

// Adds what is reported before the line that decides.
fn add_top(
    alloc: Global,
    told: &Told<'_>,
    letters: &[u8],
    text: &mut Bytes,
) -> Result<(), OutOfMemory>
    ensures { OnOk result (text.new ≡ text.old ++ block_top (told_of told.now) letters.now) }
{
    add_heading(alloc, told, letters, text)?;
    add(COLON, text)?;
    add(LINE_FEED, text)?;
    add_route(alloc, told.names, told.route, text)
}

fn add_full(
    alloc: Global,
    told: &Told<'_>,
    kind: EntryKind,
    letters: &[u8],
    text: &mut Bytes,
) -> Result<(), OutOfMemory>
    ensures { OnOk result (text.new ≡ text.old
        ++ full_block (told_of told.now) kind letters.now) }
{
    add_top(alloc, told, letters, text)?;
    add_decided(alloc, told.names, decided_by(told.members, kind), text)?;
    add_others(alloc, told, kind, text)
}

// Adds what is reported for a kind, and for all that have the same answer.
#[tactic(auto, unfolding(crate::specs::Blocks::block))]
fn add_block(
    alloc: Global,
    told: &Told<'_>,
    kind: EntryKind,
    letters: &[u8],
    text: &mut Bytes,
) -> Result<(), OutOfMemory>
    ensures { OnOk result (text.new ≡ text.old ++ block (told_of told.now) kind letters.now) }
{
    if told.brief {
        return add_brief(alloc, told, kind, letters, text);
    }
    add_full(alloc, told, kind, letters, text)
}

// Adds what is reported for a kind, where no kind before it has the same answer.
#[tactic(auto, unfolding(crate::specs::Blocks::block_if_told))]
fn add_if_told(
    alloc: Global,
    told: &Told<'_>,
    kind: EntryKind,
    text: &mut Bytes,
) -> Result<(), OutOfMemory>
    ensures { OnOk result (text.new ≡ text.old ++ block_if_told (told_of told.now) kind) }
{
    let letters = letters_alike(alloc, told.members, kind)?;
    if !begins_with(kind_letter(kind), letters.as_slice()) {
        return Ok(());
    }
    add_block(alloc, told, kind, letters.as_slice(), text)
}

fn add_each(
    alloc: Global,
    told: &Told<'_>,
    kinds: &[EntryKind],
    text: &mut Bytes,
) -> Result<(), OutOfMemory>
    ensures { OnOk result (text.new ≡ text.old
        ++ flat_map (block_if_told (told_of told.now)) kinds.now) }
{
    'kinds: for kind in kinds {
        add_if_told(alloc, told, *kind, text)?;
    }
    Ok(())
}

/// Adds what is reported of a path, for one kind, or for each whose answer differs.
pub(crate) fn add_told(
    alloc: Global,
    told: &Told<'_>,
    asked: Option<EntryKind>,
    text: &mut Bytes,
) -> Result<(), OutOfMemory>
    ensures { OnOk result (text.new ≡ text.old ++ path_block (told_of told.now) asked) }
{
    match asked {
        Some(kind) => add_block(alloc, told, kind, &[kind_letter(kind)], text),
        None => add_each(alloc, told, &TOLD_KINDS, text),
    }
}
