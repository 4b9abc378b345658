ghost use Rattle.std.specs.Prelude.{◌≡◌, ◌++◌, ◌+◌, OnOk, drop, take};
ghost use Rattle.std.specs.Fmt.{decimal};
ghost use Rattle.std.specs.Option.{option_copied};
ghost use Rattle.std.specs.List.{flat_map};
ghost use Rattle.file_paths.specs.PathRef.{path_of};
ghost use Rattle.report_text.specs.Texts.{given_text, shown_path};
ghost use Rattle.label_rules.specs.LookUp.{given_by};
ghost use Rattle.path_reasons.specs.Members.{specs_seen};
ghost use Rattle.path_reasons.specs.Texts.{decided_line, kind_field, loser_line, loss_words};
ghost use Rattle.path_reasons.specs.Texts.{place_text, spec_line, spec_place, spec_text};
ghost use Rattle.path_reasons.specs.Texts.{brief_end, stage_line, sub_text};

use crate::members::{Member, does_apply};
use crate::sub_line::SubLine;
use file_paths::PathRef;
use file_roles::{FileList, FileRole, Part};
use label_base::{Bytes, EntryKind, OutOfMemory, write_escaped};
use label_rules::given_by;
use pattern_syntax::is_exact;
use spec_reader::{NO_CONTEXT, Spec};
use std::alloc::Global;

pub(crate) const BLANK: &str = " ";

pub(crate) const COLON: &str = ":";

pub(crate) const MARK: &str = ": ";

pub(crate) const LINE_FEED: &str = "\n";

const NONE: &str = "none";

const SUBSTITUTED: &str = "  substituted by ";

pub(crate) const LOOKED_UP: &str = "  looked up as ";

const DECIDED: &str = "  decided by ";

const OTHER_KIND: &str = "  loses, of another kind: ";

const PATTERN: &str = "  loses to an exact line: ";

const EARLIER: &str = "  loses, earlier: ";

// After a refusal of these functions the text has a front of what was to be added.

pub(crate) fn add(words: &str, text: &mut Bytes) -> Result<(), OutOfMemory>
    ensures { OnOk result (text.new ≡ text.old ++ words.now) }
{
    text.push(words.as_bytes())
}

fn add_number(alloc: Global, number: u32, text: &mut Bytes) -> Result<(), OutOfMemory>
    ensures { OnOk result (text.new ≡ text.old ++ decimal number) }
{
    text.push(format!(in alloc; "{number}")?.as_bytes())
}

pub(crate) fn add_path(
    alloc: Global,
    path: &PathRef<'_>,
    text: &mut Bytes,
) -> Result<(), OutOfMemory>
    ensures { OnOk result (text.new ≡ text.old ++ shown_path (path_of path.now)) }
{
    write_escaped(alloc, path.as_text(), text)
}

// Adds a line's place in a file.
fn add_place(
    alloc: Global,
    names: &FileList,
    part: Part,
    line: u32,
    text: &mut Bytes,
) -> Result<(), OutOfMemory>
    ensures { OnOk result (text.new ≡ text.old ++ place_text names.now part line) }
{
    write_escaped(
        alloc,
        names.name_of(FileRole { part, version: 0 }).as_bytes(),
        text,
    )?;
    add(COLON, text)?;
    add_number(alloc, line, text)
}

fn add_spec_place(
    alloc: Global,
    names: &FileList,
    spec: &Spec,
    text: &mut Bytes,
) -> Result<(), OutOfMemory>
    ensures { OnOk result (text.new ≡ text.old ++ spec_place names.now spec.now) }
{
    add_place(alloc, names, spec.part, spec.line, text)
}

// Adds the context that a specification gives.
fn add_given(spec: &Spec, text: &mut Bytes) -> Result<(), OutOfMemory>
    ensures { OnOk result (text.new ≡ text.old ++ given_text (given_by spec.now)) }
{
    match given_by(spec) {
        None => text.push(NO_CONTEXT),
        Some(context) => text.push(context.as_text()),
    }
}

// Adds the type field of a specification, where it has one.
fn add_kind(kind: Option<EntryKind>, text: &mut Bytes) -> Result<(), OutOfMemory>
    ensures { OnOk result (text.new ≡ text.old ++ kind_field kind) }
{
    match kind {
        None => Ok(()),
        Some(kind) => {
            add(BLANK, text)?;
            text.push(kind.type_field())
        }
    }
}

// Adds the fields of a specification.
fn add_spec(spec: &Spec, text: &mut Bytes) -> Result<(), OutOfMemory>
    ensures { OnOk result (text.new ≡ text.old ++ spec_text spec.now) }
{
    text.push(spec.text())?;
    add_kind(spec.kind, text)?;
    add(BLANK, text)?;
    add_given(spec, text)
}

// Adds the place and the fields of a specification.
fn add_spec_line(
    alloc: Global,
    names: &FileList,
    spec: &Spec,
    text: &mut Bytes,
) -> Result<(), OutOfMemory>
    ensures { OnOk result (text.new ≡ text.old ++ spec_line names.now spec.now) }
{
    add_spec_place(alloc, names, spec, text)?;
    add(MARK, text)?;
    add_spec(spec, text)?;
    add(LINE_FEED, text)
}

/// Adds the place of the specification that decides and what it gives, or that none does.
pub(crate) fn add_brief_end(
    alloc: Global,
    names: &FileList,
    decided: Option<&Spec>,
    text: &mut Bytes,
) -> Result<(), OutOfMemory>
    ensures { OnOk result (text.new ≡ text.old
        ++ brief_end names.now (option_copied decided.entry)) }
{
    match decided {
        None => add(NONE, text),
        Some(spec) => {
            add_spec_place(alloc, names, spec, text)?;
            add(BLANK, text)?;
            add_given(spec, text)
        }
    }
}

/// Adds the line of the specification that decides, or that none does.
pub(crate) fn add_decided(
    alloc: Global,
    names: &FileList,
    decided: Option<&Spec>,
    text: &mut Bytes,
) -> Result<(), OutOfMemory>
    ensures { OnOk result (text.new ≡ text.old
        ++ decided_line names.now (option_copied decided.entry)) }
{
    add(DECIDED, text)?;
    match decided {
        None => {
            add(NONE, text)?;
            add(LINE_FEED, text)
        }
        Some(spec) => add_spec_line(alloc, names, spec, text),
    }
}

// Adds the place and the fields of a line of a substitution file.
fn add_sub(
    alloc: Global,
    names: &FileList,
    part: Part,
    line: &SubLine,
    text: &mut Bytes,
) -> Result<(), OutOfMemory>
    ensures { OnOk result (text.new ≡ text.old ++ sub_text names.now part line.now) }
{
    add_place(alloc, names, part, line.line, text)?;
    add(MARK, text)?;
    add_path(alloc, &line.sub.source.path(), text)?;
    add(BLANK, text)?;
    add_path(alloc, &line.sub.target.path(), text)?;
    add(LINE_FEED, text)
}

/// Adds the line of a stage of substitution, where one applied.
pub(crate) fn add_stage(
    alloc: Global,
    names: &FileList,
    part: Part,
    line: Option<&SubLine>,
    text: &mut Bytes,
) -> Result<(), OutOfMemory>
    ensures { OnOk result (text.new ≡ text.old
        ++ stage_line names.now part (option_copied line.entry)) }
{
    match line {
        None => Ok(()),
        Some(line) => {
            add(SUBSTITUTED, text)?;
            add_sub(alloc, names, part, line, text)
        }
    }
}

// Why a specification that matches doesn't decide for entries of a kind. The deciding one may be an
// exact text.
fn loss_words(asked: EntryKind, exact: bool, spec: &Spec) -> &'static str
    ensures { result.now ≡ loss_words asked exact spec.now }
{
    if !does_apply(spec.kind, asked) {
        return OTHER_KIND;
    }
    if !exact {
        return EARLIER;
    }
    if is_exact(spec.text()) {
        EARLIER
    } else {
        PATTERN
    }
}

// Adds the line of a specification that matches and doesn't decide.
fn add_loser(
    alloc: Global,
    names: &FileList,
    asked: EntryKind,
    exact: bool,
    spec: &Spec,
    text: &mut Bytes,
) -> Result<(), OutOfMemory>
    ensures { OnOk result (text.new ≡ text.old ++ loser_line names.now asked exact spec.now) }
{
    add(loss_words(asked, exact, spec), text)?;
    add_spec_line(alloc, names, spec, text)
}

/// Adds the lines of specifications that match and don't decide.
pub(crate) fn add_losers(
    alloc: Global,
    names: &FileList,
    asked: EntryKind,
    exact: bool,
    members: &[Member<'_>],
    text: &mut Bytes,
) -> Result<(), OutOfMemory>
    ensures { OnOk result (text.new ≡ text.old
        ++ flat_map (loser_line names.now asked exact) (specs_seen members.now)) }
{
    'members: for member in members {
        add_loser(alloc, names, asked, exact, member.spec, text)?;
    }
    Ok(())
}
