ghost use Rattle.std.specs.Prelude.{◌≡◌, ◌+◌, ◌++◌, ◌<◌, ◌≤◌, ◌^◌, IfOk, OnOk, Some, length};
ghost use Rattle.std.specs.Option.{option_copied};
ghost use Rattle.file_paths.specs.PathRef.{path_of};
ghost use Rattle.report_text.specs.Message.{message_of};
ghost use Rattle.report_text.specs.Texts.{report_of};
ghost use Rattle.path_lookups.specs.Finders.{IsFinderOf};
ghost use Rattle.path_lookups.specs.Verified.{count_unverified, entry_message, is_but_user};
ghost use Rattle.path_lookups.specs.Verified.{is_unverified, kind_or, label_message};
ghost use Rattle.path_lookups.specs.Verified.{verified_message, verified_messages};

use crate::finder::Finder;
use crate::path_rules::PathRules;
use context_syntax::{Context, Label};
use file_paths::{NormPath, PathRef};
use label_base::{Asked, Bytes, EntryKind, OutOfMemory, Steps};
use report_text::{Message, add_line};
use std::alloc::Global;
use std::marker::Brand;
use std::sync::ledger::{Blank, Ledger};
use tree_model::Tree;

/// By which rules and in which tree paths are verified, and as which kind.
#[derive(Clone, Copy)]
pub struct Verification<'a> {
    pub rules: &'a PathRules,
    pub tree: &'a Tree,
    /// Where none is told, it is the entry's.
    pub kind: Option<EntryKind>,
}

fn is_but_user(label: &Label, wanted: &Context) -> bool
    ensures { result ≡ is_but_user label.now wanted.now }
{
    match label {
        Label::Absent | Label::Odd(_) => false,
        Label::Is(context) => context.same_but_user(wanted),
    }
}

fn wanted_message<'a>(path: &PathRef<'a>, label: &'a Label, wanted: &'a Context) -> Message<'a>
    ensures { message_of result ≡ label_message (path_of path.now) label.now (Some wanted.now) }
{
    if is_but_user(label, wanted) {
        return Message::Verified { path: *path };
    }
    Message::Differs {
        path: *path,
        has: label,
        wants: wanted,
    }
}

fn label_message<'a>(
    path: &PathRef<'a>,
    label: &'a Label,
    wanted: Option<&'a Context>,
) -> Message<'a>
    ensures { message_of result
        ≡ label_message (path_of path.now) label.now (option_copied wanted.entry) }
{
    match wanted {
        None => Message::Verified { path: *path },
        Some(wanted) => wanted_message(path, label, wanted),
    }
}

fn kind_or(asked: Option<EntryKind>, kind: EntryKind) -> Asked
    ensures { result ≡ kind_or asked kind }
{
    match asked {
        None => Asked::Of(kind),
        Some(asked) => Asked::Of(asked),
    }
}

// Whether the path of an entry has the label that it should have.
fn entry_message<'a, L: Ledger>(
    alloc: Global,
    by: &Verification<'a>,
    path: &PathRef<'a>,
    e: u32,
    finder: &mut Finder<'a>,
    steps: &mut Steps<L>,
) -> Result<Message<'a>, OutOfMemory>
    requires entry { e < length by.now.tree.now }
    requires own { IsFinderOf by.now.rules.now finder.old }
    ensures own { IsFinderOf by.now.rules.now finder.new }
    ensures message { IfOk result (λ message. message_of message
        ≡ entry_message by.now.rules.now by.now.tree.now by.now.kind (path_of path.now) (Some e)) }
    ensures count { steps.new ≤ steps.old + 1 }
{
    let tree = by.tree;
    let asked = kind_or(by.kind, tree.entry(e).kind);
    let wanted = finder.find_context(alloc, path, asked, steps)?;
    Ok(label_message(path, tree.label(tree.group(e)), wanted))
}

/// Whether a path has the label that it should have (matchpathcon(8), `-V`): a path without an
/// entry has no record. The kind that is asked for is the one that is told, or else the entry's. It
/// is verified where no context is decided for it, or where its inode's label is a context that
/// equals the decided one but for the user. It counts at most one step.
pub fn verify<'a, L: Ledger>(
    alloc: Global,
    by: &Verification<'a>,
    path: &PathRef<'a>,
    finder: &mut Finder<'a>,
    steps: &mut Steps<L>,
) -> Result<Message<'a>, OutOfMemory>
    requires { IsFinderOf by.now.rules.now finder.old }
    ensures own { IsFinderOf by.now.rules.now finder.new }
    ensures message { IfOk result (λ message. message_of message
        ≡ verified_message by.now.rules.now by.now.tree.now by.now.kind (path_of path.now)) }
    ensures count { steps.new ≤ steps.old + 1 }
{
    match by.tree.find(path) {
        None => Ok(Message::NoRecord { path: *path }),
        Some(e) => entry_message(alloc, by, path, e, finder, steps),
    }
}

/// Whether a message says that a path has another label than it should have, or no record.
pub fn is_unverified(message: &Message<'_>) -> bool
    ensures { result ≡ is_unverified (message_of message.now) }
{
    match message {
        Message::Differs { .. } | Message::NoRecord { .. } => true,
        _ => false,
    }
}

fn add_all_verified<'a, L: Ledger>(
    alloc: Global,
    by: &Verification<'a>,
    paths: &'a [NormPath],
    to: &mut Bytes,
    blank: Blank,
) -> Result<u32, OutOfMemory>
    requires few { length paths.now < 2 ^ 32 }
    requires name { blank.name ≡ L.name }
    requires parts { blank.parts ≡ L.parts }
    requires some { 0 < blank.parts }
    ensures text { OnOk result (to.new ≡ to.old ++ report_of
        (verified_messages by.now.rules.now by.now.tree.now by.now.kind paths.now)) }
    ensures count { IfOk result (λ unverified. unverified ≡ count_unverified
        (verified_messages by.now.rules.now by.now.tree.now by.now.kind paths.now)) }
{
    let mut steps = Steps::<L>::open(blank);
    let mut finder = Finder::new(alloc, by.rules)?;
    let mut unverified = 0;
    'paths: for path in paths {
        let message = verify(alloc, by, &path.path(), &mut finder, &mut steps)?;
        add_line(alloc, &message, to)?;
        unverified += u32::from(is_unverified(&message));
    }
    Ok(unverified)
}

/// Adds at the end a line for each path that says whether it has the label that it should have, as
/// [`verify`] has it, and answers how many have another or no record. There must be fewer than 2^32
/// paths. After want of memory a front of the lines may have been added.
pub fn add_verified_report<'a>(
    alloc: Global,
    by: &Verification<'a>,
    paths: &'a [NormPath],
    to: &mut Bytes,
) -> Result<u32, OutOfMemory>
    requires { length paths.now < 2 ^ 32 }
    ensures text { OnOk result (to.new ≡ to.old ++ report_of
        (verified_messages by.now.rules.now by.now.tree.now by.now.kind paths.now)) }
    ensures count { IfOk result (λ unverified. unverified ≡ count_unverified
        (verified_messages by.now.rules.now by.now.tree.now by.now.kind paths.now)) }
{
    add_all_verified::<Brand>(alloc, by, paths, to, Blank::new(1))
}
