ghost use Rattle.std.specs.Prelude.{◌≡◌, ◌++◌, IfOk, OnErr, OnOk, map};
ghost use Rattle.std.specs.Option.{option_copied};
ghost use Rattle.file_paths.specs.PathRef.{path_of};
ghost use Rattle.context_syntax.specs.ContextRef.{context_lent};
ghost use Rattle.report_text.specs.Message.{message_of};
ghost use Rattle.report_text.specs.Message as value;
ghost use Rattle.report_text.specs.Texts.{message_line, message_text, report_of, shown_path};

use crate::message::Message;
use crate::words::*;
use context_syntax::{Context, ContextRef, Label};
use file_paths::PathRef;
use label_base::{Bytes, EntryKind, OutOfMemory};
use std::alloc::Global;

// A label that changes, or with `dry` would change.
#[derive(Clone, Copy)]
struct LabelChange<'s, 'a> {
    path: &'s PathRef<'a>,
    from: &'s Label,
    to: &'s ContextRef<'a>,
    dry: bool,
}

fn add_relabel(
    alloc: Global,
    change: &LabelChange<'_, '_>,
    text: &mut Bytes,
) -> Result<(), OutOfMemory>
    ensures { OnOk result (text.new ≡ text.old
        ++ message_text (value.Relabel (path_of change.now.path.now) change.now.from.now
        (context_lent change.now.to.now) change.now.dry)) }
{
    add(relabel_words(change.dry), text)?;
    add_path(alloc, change.path, text)?;
    add(FROM, text)?;
    add_label(alloc, change.from, text)?;
    add(TO, text)?;
    let to = change.to;
    to.add(text)
}

fn add_customized(
    alloc: Global,
    path: &PathRef<'_>,
    label: &Context,
    text: &mut Bytes,
) -> Result<(), OutOfMemory>
    ensures { OnOk result (text.new ≡ text.old
        ++ message_text (value.Customized (path_of path.now) label.now)) }
{
    add_path(alloc, path, text)?;
    add(NOT_RESET, text)?;
    add_context(label, text)
}

fn add_conflict(
    alloc: Global,
    first: &PathRef<'_>,
    second: &PathRef<'_>,
    used: &Context,
    text: &mut Bytes,
) -> Result<(), OutOfMemory>
    ensures { OnOk result (text.new ≡ text.old
        ++ message_text (value.Conflict (path_of first.now) (path_of second.now) used.now)) }
{
    add(CONFLICTING, text)?;
    add_path(alloc, first, text)?;
    add(AND, text)?;
    add_path(alloc, second, text)?;
    add(USING, text)?;
    add_context(used, text)?;
    add(FULL_STOP, text)
}

// Words and a path behind them.
fn add_before(
    alloc: Global,
    words: &str,
    path: &PathRef<'_>,
    text: &mut Bytes,
) -> Result<(), OutOfMemory>
    ensures { OnOk result (text.new ≡ text.old ++ words.now ++ shown_path (path_of path.now)) }
{
    add(words, text)?;
    add_path(alloc, path, text)
}

// A path and words behind it.
fn add_behind(
    alloc: Global,
    path: &PathRef<'_>,
    words: &str,
    text: &mut Bytes,
) -> Result<(), OutOfMemory>
    ensures { OnOk result (text.new ≡ text.old ++ shown_path (path_of path.now) ++ words.now) }
{
    add_path(alloc, path, text)?;
    add(words, text)
}

fn add_skipped(alloc: Global, path: &PathRef<'_>, text: &mut Bytes) -> Result<(), OutOfMemory>
    ensures { OnOk result (text.new ≡ text.old ++ message_text (value.Skipped (path_of path.now))) }
{
    add_before(alloc, SKIPPING, path, text)?;
    add(CLOSE, text)
}

fn add_no_matches(
    pattern: &[u8],
    kind: Option<EntryKind>,
    given: Option<&Context>,
    text: &mut Bytes,
) -> Result<(), OutOfMemory>
    ensures { OnOk result (text.new ≡ text.old
        ++ message_text (value.NoMatches pattern.now kind (option_copied given.entry))) }
{
    add(NO_MATCHES, text)?;
    text.push(pattern)?;
    add(COMMA, text)?;
    add_kind(kind, text)?;
    add_given(given, text)?;
    add(CLOSE, text)
}

fn add_found(
    alloc: Global,
    path: &PathRef<'_>,
    given: Option<&Context>,
    bare: bool,
    text: &mut Bytes,
) -> Result<(), OutOfMemory>
    ensures { OnOk result (text.new ≡ text.old
        ++ message_text (value.Found (path_of path.now) (option_copied given.entry) bare)) }
{
    add_place(alloc, path, bare, text)?;
    add_given(given, text)
}

fn add_differs(
    alloc: Global,
    path: &PathRef<'_>,
    has: &Label,
    wants: &Context,
    text: &mut Bytes,
) -> Result<(), OutOfMemory>
    ensures { OnOk result (text.new ≡ text.old
        ++ message_text (value.Differs (path_of path.now) has.now wants.now)) }
{
    add_path(alloc, path, text)?;
    add(HAS_CONTEXT, text)?;
    add_label(alloc, has, text)?;
    add(SHOULD_BE, text)?;
    add_context(wants, text)
}

fn add_message(alloc: Global, message: &Message<'_>, text: &mut Bytes) -> Result<(), OutOfMemory>
    ensures { OnOk result (text.new ≡ text.old ++ message_text (message_of message.now)) }
{
    match message {
        Message::Relabel {
            path,
            from,
            to,
            dry,
        } => {
            let change = LabelChange {
                path,
                from,
                to,
                dry: *dry,
            };
            add_relabel(alloc, &change, text)
        }
        Message::Customized { path, label } => add_customized(alloc, path, label, text),
        Message::Conflict {
            first,
            second,
            used,
        } => add_conflict(alloc, first, second, used, text),
        Message::NoDefault { path } => add_before(alloc, NO_DEFAULT, path, text),
        Message::Skipped { path } => add_skipped(alloc, path, text),
        Message::Absent { path } => add_before(alloc, NO_RECORD_FOR, path, text),
        Message::NoMatches {
            text: pattern,
            kind,
            context,
        } => add_no_matches(pattern, *kind, *context, text),
        Message::Found {
            path,
            context,
            bare,
        } => add_found(alloc, path, *context, *bare, text),
        Message::Verified { path } => add_behind(alloc, path, VERIFIED, text),
        Message::Differs { path, has, wants } => add_differs(alloc, path, has, wants, text),
        Message::NoRecord { path } => add_behind(alloc, path, HAS_NO_RECORD, text),
    }
}

/// Adds the line of a message at the end. Where memory runs out, a front of the line may have been
/// added.
pub fn add_line(alloc: Global, message: &Message<'_>, text: &mut Bytes) -> Result<(), OutOfMemory>
    ensures { OnOk result (text.new ≡ text.old ++ message_line (message_of message.now)) }
{
    add_message(alloc, message, text)?;
    add(LINE_FEED, text)
}

/// Adds the line of a message at the end. Where memory runs out, nothing is added.
pub fn line(alloc: Global, message: &Message<'_>, to: &mut Bytes) -> Result<(), OutOfMemory>
    ensures ok { OnOk result (to.new ≡ to.old ++ message_line (message_of message.now)) }
    ensures err { OnErr result (to.new ≡ to.old) }
{
    let mut text = Bytes::new(alloc);
    add_line(alloc, message, &mut text)?;
    to.push(text.as_slice())
}

/// The lines of all messages.
#[tactic(auto, unfolding(crate::specs::Texts::report_of))]
pub fn report(alloc: Global, messages: &[Message<'_>]) -> Result<Bytes, OutOfMemory>
    ensures { IfOk result (λ text. text ≡ report_of (map message_of messages.now)) }
{
    let mut text = Bytes::new(alloc);
    'messages: for message in messages {
        add_line(alloc, message, &mut text)?;
    }
    Ok(text)
}
