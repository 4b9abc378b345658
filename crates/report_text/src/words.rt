ghost use Rattle.std.specs.Prelude.{◌≡◌, ◌++◌, OnOk};
ghost use Rattle.std.specs.Option.{option_copied};
ghost use Rattle.file_paths.specs.PathRef.{path_of};
ghost use Rattle.context_syntax.specs.Context.{context_text};
ghost use Rattle.report_text.specs.Texts.{found_words, given_text, kind_words, label_text};
ghost use Rattle.report_text.specs.Texts.{relabelled_words, shown_path};

use context_syntax::{Context, Label};
use file_paths::PathRef;
use label_base::{Bytes, EntryKind, OutOfMemory, write_escaped};
use spec_reader::NO_CONTEXT;
use std::alloc::Global;

pub(crate) const NO_LABEL: &str = "<no context>";

pub(crate) const WOULD_RELABEL: &str = "Would relabel ";

pub(crate) const RELABELED: &str = "Relabeled ";

pub(crate) const FROM: &str = " from ";

pub(crate) const TO: &str = " to ";

pub(crate) const NOT_RESET: &str = " not reset as customized by admin to ";

pub(crate) const CONFLICTING: &str = "conflicting specifications for ";

pub(crate) const AND: &str = " and ";

pub(crate) const USING: &str = ", using ";

pub(crate) const FULL_STOP: &str = ".";

pub(crate) const NO_DEFAULT: &str = "Warning no default label for ";

pub(crate) const SKIPPING: &str = "Skipping restorecon on directory(";

pub(crate) const NO_RECORD_FOR: &str = "no record for ";

pub(crate) const NO_MATCHES: &str = "Warning! No matches for (";

pub(crate) const COMMA: &str = ", ";

pub(crate) const CLOSE: &str = ")";

pub(crate) const TAB: &str = "\t";

pub(crate) const VERIFIED: &str = " verified.";

pub(crate) const HAS_CONTEXT: &str = " has context ";

pub(crate) const SHOULD_BE: &str = ", should be ";

pub(crate) const HAS_NO_RECORD: &str = " has no record";

pub(crate) const LINE_FEED: &str = "\n";

// After a refusal of these functions the text has a front of what was to be added.

pub(crate) fn add(words: &str, text: &mut Bytes) -> Result<(), OutOfMemory>
    ensures { OnOk result (text.new ≡ text.old ++ words.now) }
{
    text.push(words.as_bytes())
}

pub(crate) fn add_path(
    alloc: Global,
    path: &PathRef<'_>,
    text: &mut Bytes,
) -> Result<(), OutOfMemory>
    ensures { OnOk result (text.new ≡ text.old ++ shown_path (path_of path.now)) }
{
    write_escaped(alloc, path.as_text(), text)
}

pub(crate) fn add_context(context: &Context, text: &mut Bytes) -> Result<(), OutOfMemory>
    ensures { OnOk result (text.new ≡ text.old ++ context_text context.now) }
{
    text.push(context.as_text())
}

pub(crate) fn add_label(alloc: Global, label: &Label, text: &mut Bytes) -> Result<(), OutOfMemory>
    ensures { OnOk result (text.new ≡ text.old ++ label_text label.now) }
{
    match label {
        Label::Absent => add(NO_LABEL, text),
        Label::Odd(bytes) => write_escaped(alloc, bytes.as_slice(), text),
        Label::Is(context) => add_context(context, text),
    }
}

// What a specification gives.
pub(crate) fn add_given(given: Option<&Context>, text: &mut Bytes) -> Result<(), OutOfMemory>
    ensures { OnOk result (text.new ≡ text.old ++ given_text (option_copied given.entry)) }
{
    match given {
        None => text.push(NO_CONTEXT),
        Some(context) => add_context(context, text),
    }
}

pub(crate) fn relabel_words(dry: bool) -> &'static str
    ensures { result.now ≡ relabelled_words dry }
{
    if dry { WOULD_RELABEL } else { RELABELED }
}

// The type field of a specification, where it has one.
pub(crate) fn add_kind(kind: Option<EntryKind>, text: &mut Bytes) -> Result<(), OutOfMemory>
    ensures { OnOk result (text.new ≡ text.old ++ kind_words kind) }
{
    match kind {
        None => Ok(()),
        Some(kind) => {
            text.push(kind.type_field())?;
            add(COMMA, text)
        }
    }
}

// The path before what was found.
pub(crate) fn add_place(
    alloc: Global,
    path: &PathRef<'_>,
    bare: bool,
    text: &mut Bytes,
) -> Result<(), OutOfMemory>
    ensures { OnOk result (text.new ≡ text.old ++ found_words (path_of path.now) bare) }
{
    if bare {
        return Ok(());
    }
    add_path(alloc, path, text)?;
    add(TAB, text)
}
