ghost use Rattle.std.specs.Prelude.{◌≡◌, ◌++◌, IfOk, OnOk};
ghost use Rattle.std.specs.List.{flat_map};
ghost use Rattle.path_reasons.specs.Answer.{explained_ending, path_report};

use crate::blocks::{Told, add_told};
use crate::covering::route_of;
use crate::members::members_of;
use crate::policy::PolicyLines;
use crate::words::ExplainWords;
use file_paths::NormPath;
use file_roles::FileList;
use label_base::{Bytes, EntryKind, OutOfMemory, PiecedText};
use run_endings::{End, Ending};
use std::alloc::Global;

/// By which lines paths are explained, and how.
#[derive(Clone, Copy)]
pub struct Explaining<'a> {
    pub names: &'a FileList,
    pub lines: &'a PolicyLines,
    /// The kind that is asked for; each kind whose answer differs where there is none.
    pub asked: Option<EntryKind>,
    /// One line for each path and kind.
    pub brief: bool,
}

// Adds what is reported of a path.
#[tactic(auto, unfolding(crate::specs::Answer::path_report))]
fn add_explanation(
    alloc: Global,
    by: &Explaining<'_>,
    path: &NormPath,
    text: &mut Bytes,
) -> Result<(), OutOfMemory>
    ensures { OnOk result (text.new ≡ text.old ++ path_report by.now.names.now by.now.lines.now
        by.now.asked by.now.brief path.now) }
{
    let lines = by.lines;
    let route = route_of(
        alloc,
        lines.first.as_slice(),
        lines.second.as_slice(),
        &path.path(),
    )?;
    let members = members_of(alloc, lines.specs.as_slice(), &route.path.path())?;
    let told = Told {
        names: by.names,
        path,
        route: &route,
        members: members.as_slice(),
        brief: by.brief,
    };
    add_told(alloc, &told, by.asked, text)
}

/// Adds at the end, for each path and for the kind that is asked for, or else for each kind whose
/// answer differs: the lines of substitutions that applied, the line that decides, and those that
/// match too, the latest first, each with why it loses; or one line, where that is asked for. After
/// want of memory a front of it may have been added.
pub fn add_explanations(
    alloc: Global,
    by: &Explaining<'_>,
    paths: &[NormPath],
    text: &mut Bytes,
) -> Result<(), OutOfMemory>
    ensures { OnOk result (text.new ≡ text.old ++ flat_map
        (path_report by.now.names.now by.now.lines.now by.now.asked by.now.brief) paths.now) }
{
    'paths: for path in paths {
        add_explanation(alloc, by, path, text)?;
    }
    Ok(())
}

/// What explain writes. It fails for want of memory alone.
pub(crate) fn answer_of(
    alloc: Global,
    names: &FileList,
    words: &ExplainWords,
    lines: &PolicyLines,
) -> Result<Ending, OutOfMemory>
    ensures { IfOk result (λ ending. ending
        ≡ explained_ending names.now words.now lines.now) }
{
    let by = Explaining {
        names,
        lines,
        asked: words.asked,
        brief: words.brief,
    };
    let mut report = Bytes::new(alloc);
    add_explanations(alloc, &by, words.paths.as_slice(), &mut report)?;
    Ok(Ending {
        report: PiecedText::of(alloc, report)?,
        end: End::Done,
        saved: None,
    })
}
