ghost use Rattle.std.specs.Prelude.{◌≡◌, ◌++◌, [], false, IfOk, OnOk, get_or, map};
ghost use Rattle.std.specs.Fmt.{decimal};
ghost use Rattle.file_paths.specs.PathRef.{path_of};
ghost use Rattle.tree_model.specs.Extents.{entry_at};
ghost use Rattle.context_syntax.specs.ContextRef.{context_lent};
ghost use Rattle.report_text.specs.Message as value;
ghost use Rattle.report_text.specs.Texts.{message_line, report_of};
ghost use Rattle.policy_rehearsal.specs.Lent.{change_lent, rehearsed_lent, turn_lent};
ghost use Rattle.policy_rehearsal.specs.Text.{change_message, text_at, rehearsal_text, turn_head};
ghost use Rattle.policy_rehearsal.specs.Text.{turn_text};

use crate::rehearsed::{Change, Rehearsed, VersionChanges};
use context_syntax::{ContextRef, Label};
use file_paths::PathRef;
use label_base::{Bytes, Name, OutOfMemory, Row, write_escaped};
use label_rules::LabelAfter;
use relabel_core::label_of;
use report_text::{Message, add_line};
use std::alloc::Global;
use tree_model::Tree;

// What stands before a version's number, and from there to the counts.
const VERSION: &str = "version ";

const BEFORE_NAME: &str = ": ";

const COLON: &str = ": ";

// What stands behind the number of changes, and behind that of skipped directories.
const CHANGED: &str = " changed, ";

const SKIPPED: &str = " skipped\n";

fn add_number(alloc: Global, number: usize, text: &mut Bytes) -> Result<(), OutOfMemory>
    ensures { OnOk result (text.new ≡ text.old ++ decimal number) }
{
    text.push(format!(in alloc; "{number}")?.as_bytes())
}

// A version, by its number and its name.
#[derive(Clone, Copy)]
struct Version<'n> {
    number: usize,
    name: &'n str,
}

#[tactic(auto, unfolding(crate::specs::Text::turn_head))]
fn add_head(
    alloc: Global,
    version: &Version<'_>,
    changed: usize,
    skipped: usize,
    text: &mut Bytes,
) -> Result<(), OutOfMemory>
    ensures { OnOk result (text.new
        ≡ text.old ++ turn_head version.now.number version.now.name.now changed skipped) }
{
    text.push(VERSION.as_bytes())?;
    add_number(alloc, version.number, text)?;
    text.push(BEFORE_NAME.as_bytes())?;
    write_escaped(alloc, version.name.as_bytes(), text)?;
    text.push(COLON.as_bytes())?;
    add_number(alloc, changed, text)?;
    text.push(CHANGED.as_bytes())?;
    add_number(alloc, skipped, text)?;
    text.push(SKIPPED.as_bytes())
}

// The path of an entry.
fn path_at(tree: &Tree, e: u32) -> PathRef<'_>
    ensures { path_of result ≡ (entry_at tree.now e).path }
{
    if e < tree.len() {
        tree.entry(e).path
    } else {
        PathRef::of_text(b"")
    }
}

fn add_change_from(
    alloc: Global,
    path: &PathRef<'_>,
    from: &Label,
    to: &ContextRef<'_>,
    text: &mut Bytes,
) -> Result<(), OutOfMemory>
    ensures { OnOk result (text.new ≡ text.old
        ++ message_line (value.Relabel (path_of path.now) from.now (context_lent to.now) false)) }
{
    let message = Message::Relabel {
        path: *path,
        from,
        to: *to,
        dry: false,
    };
    add_line(alloc, &message, text)
}

fn add_change(
    alloc: Global,
    tree: &Tree,
    change: &Change<'_>,
    text: &mut Bytes,
) -> Result<(), OutOfMemory>
    ensures { OnOk result (text.new ≡ text.old
        ++ message_line (change_message tree.now (change_lent change.now))) }
{
    let path = path_at(tree, change.entry);
    match change.from {
        LabelAfter::Kept(label) => add_change_from(alloc, &path, label, &change.to, text),
        LabelAfter::Given(_) => {
            let label = label_of(alloc, &change.from)?;
            add_change_from(alloc, &path, &label, &change.to, text)
        }
    }
}

fn add_changes(
    alloc: Global,
    tree: &Tree,
    changes: &[Change<'_>],
    text: &mut Bytes,
) -> Result<(), OutOfMemory>
    ensures { OnOk result (text.new ≡ text.old
        ++ report_of (map (change_message tree.now) (map change_lent changes.now))) }
{
    'changes: for change in changes {
        add_change(alloc, tree, change, text)?;
    }
    Ok(())
}

#[tactic(auto, unfolding(crate::specs::Text::turn_text))]
fn add_turn(
    alloc: Global,
    tree: &Tree,
    version: &Version<'_>,
    turn: &VersionChanges<'_>,
    text: &mut Bytes,
) -> Result<(), OutOfMemory>
    ensures { OnOk result (text.new ≡ text.old
        ++ turn_text tree.now version.now.number version.now.name.now
        (turn_lent turn.now)) }
{
    let changed = turn.changes.len();
    add_head(alloc, version, changed, turn.skipped as usize, text)?;
    add_changes(alloc, tree, turn.changes.as_slice(), text)
}

fn name_at(names: &[Name], k: usize) -> &str
    ensures { result.now ≡ get_or names.now k [] }
{
    match names.get(k) {
        Some(name) => name.as_str(),
        None => "",
    }
}

/// Adds at the end the text of a rehearsal.
pub fn add_text(
    alloc: Global,
    tree: &Tree,
    names: &Row<Name>,
    rehearsed: &Rehearsed<'_>,
    text: &mut Bytes,
) -> Result<(), OutOfMemory>
    ensures { OnOk result (text.new ≡ text.old
        ++ rehearsal_text tree.now names.now (rehearsed_lent rehearsed.now).turns) }
{
    let turns = &rehearsed.turns;
    'versions: for k in 0..turns.len() {
        let name = name_at(names.as_slice(), k);
        let version = Version {
            number: k + 1,
            name,
        };
        add_turn(alloc, tree, &version, turns.get(k), text)?;
    }
    Ok(())
}

/// The text of a rehearsal: for each version its number, from 1 on, its name, and how many labels
/// it changes and directories it skips; behind that a line for each change. A name that lacks is no
/// bytes, and an entry beyond the tree has the path `/`.
pub fn text(
    alloc: Global,
    tree: &Tree,
    names: &Row<Name>,
    rehearsed: &Rehearsed<'_>,
) -> Result<Bytes, OutOfMemory>
    ensures { IfOk result (λ text. text
        ≡ rehearsal_text tree.now names.now (rehearsed_lent rehearsed.now).turns) }
{
    let mut text = Bytes::new(alloc);
    add_text(alloc, tree, names, rehearsed, &mut text)?;
    Ok(text)
}
