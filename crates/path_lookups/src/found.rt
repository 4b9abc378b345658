ghost use Rattle.std.specs.Prelude.{◌≡◌, ◌++◌, ◌<◌, IfOk, OnOk};
ghost use Rattle.report_text.specs.Message.{message_of};
ghost use Rattle.report_text.specs.Texts.{report_of};
ghost use Rattle.path_lookups.specs.Finders.{IsFinderOf};
ghost use Rattle.path_lookups.specs.Found.{any_or, found_message, found_messages};

use crate::finder::Finder;
use crate::path_rules::PathRules;
use file_paths::NormPath;
use label_base::{Asked, Bytes, EntryKind, OutOfMemory, Steps};
use report_text::{Message, add_line};
use std::alloc::Global;
use std::marker::Brand;
use std::sync::ledger::{Blank, Ledger};

/// By which rules paths are looked up, as which kind, and how they are told.
#[derive(Clone, Copy)]
pub struct Lookup<'a> {
    pub rules: &'a PathRules,
    /// Where none is told, specifications of every kind apply.
    pub kind: Option<EntryKind>,
    /// A bare line doesn't name its path.
    pub bare: bool,
}

fn any_or(kind: Option<EntryKind>) -> Asked
    ensures { result ≡ any_or kind }
{
    match kind {
        None => Asked::Any,
        Some(kind) => Asked::Of(kind),
    }
}

// What is found for a path.
fn find_path<'a, L: Ledger>(
    alloc: Global,
    lookup: &Lookup<'a>,
    path: &'a NormPath,
    finder: &mut Finder<'a>,
    steps: &mut Steps<L>,
) -> Result<Message<'a>, OutOfMemory>
    requires { IsFinderOf lookup.now.rules.now finder.old }
    ensures own { IsFinderOf lookup.now.rules.now finder.new }
    ensures message { IfOk result (λ message. message_of message
        ≡ found_message lookup.now.rules.now lookup.now.kind lookup.now.bare path.now) }
{
    let path = path.path();
    let context = finder.find_context(alloc, &path, any_or(lookup.kind), steps)?;
    Ok(Message::Found {
        path,
        context,
        bare: lookup.bare,
    })
}

fn add_all_found<'a, L: Ledger>(
    alloc: Global,
    lookup: &Lookup<'a>,
    paths: &'a [NormPath],
    to: &mut Bytes,
    blank: Blank,
) -> Result<(), OutOfMemory>
    requires name { blank.name ≡ L.name }
    requires parts { blank.parts ≡ L.parts }
    requires some { 0 < blank.parts }
    ensures { OnOk result (to.new ≡ to.old ++ report_of
        (found_messages lookup.now.rules.now lookup.now.kind lookup.now.bare paths.now)) }
{
    let mut steps = Steps::<L>::open(blank);
    let mut finder = Finder::new(alloc, lookup.rules)?;
    'paths: for path in paths {
        let message = find_path(alloc, lookup, path, &mut finder, &mut steps)?;
        add_line(alloc, &message, to)?;
    }
    Ok(())
}

/// Adds at the end a line for each path with the context that is decided for it, `<<none>>` where
/// none is (matchpathcon(8)). After want of memory a front of the lines may have been added.
pub fn add_found_report<'a>(
    alloc: Global,
    lookup: &Lookup<'a>,
    paths: &'a [NormPath],
    to: &mut Bytes,
) -> Result<(), OutOfMemory>
    ensures { OnOk result (to.new ≡ to.old ++ report_of
        (found_messages lookup.now.rules.now lookup.now.kind lookup.now.bare paths.now)) }
{
    add_all_found::<Brand>(alloc, lookup, paths, to, Blank::new(1))
}
