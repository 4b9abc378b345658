ghost use Rattle.std.specs.Prelude.{◌≡◌, true, IfOk, IfSome, Some, map, if◌then◌else◌};
ghost use Rattle.std.specs.Option.{option_copied};
ghost use Rattle.file_paths.specs.PathRef.{path_of};
ghost use Rattle.path_subs.specs.Subs.{covers, substituted};
ghost use Rattle.path_reasons.specs.Routes.{changed_by, covering_line, route_seen, route_through};
ghost use Rattle.path_reasons.specs.SubLines.{sub_of};

use crate::sub_line::SubLine;
use file_paths::{NormPath, PathRef};
use label_base::OutOfMemory;
use std::alloc::Global;

/// How a path is substituted: the line of each stage that applied, and the path behind both.
#[derive(Drop)]
pub struct Route<'a> {
    /// The line of file_contexts.subs.
    pub first: Option<&'a SubLine>,
    /// The line of file_contexts.subs_dist.
    pub second: Option<&'a SubLine>,
    /// The path that is looked up.
    pub path: NormPath,
}

// Whether a line covers a path.
fn is_covered(path: &PathRef<'_>, line: &SubLine) -> bool
    ensures { result ≡ covers (path_of path.now) line.now.sub }
{
    path.is_at_or_below(&line.sub.source.path())
}

// The later of two lines that covers the path.
fn later<'a>(
    found: Option<&'a SubLine>,
    line: &'a SubLine,
    path: &PathRef<'_>,
) -> Option<&'a SubLine>
    requires { IfSome (option_copied found) (λ l.
        covers (path_of path.now) l.sub ≡ true) }
    ensures value { option_copied result
        ≡ (if covers (path_of path.now) line.now.sub then Some line.now
        else option_copied found.entry) }
    ensures covers { IfSome (option_copied result) (λ l.
        covers (path_of path.now) l.sub ≡ true) }
{
    if is_covered(path, line) {
        return Some(line);
    }
    found
}

// The last line that covers the path.
fn last_cover<'a>(lines: &'a [SubLine], path: &PathRef<'_>) -> Option<&'a SubLine>
    ensures value { option_copied result ≡ covering_line lines.now (path_of path.now) }
    ensures covers { IfSome (option_copied result) (λ l.
        covers (path_of path.now) l.sub ≡ true) }
{
    let mut found = None;
    'lines: for line in lines {
        found = later(found, line, path);
    }
    found
}

fn copy_of(alloc: Global, path: &PathRef<'_>) -> Result<NormPath, OutOfMemory>
    ensures { IfOk result (λ copy. copy ≡ path_of path.now) }
{
    let root = NormPath::root(alloc);
    NormPath::replaced(alloc, path, &root.path(), &root.path())
}

// The path as a line changes it, if there is one.
fn changed_by(
    alloc: Global,
    path: &PathRef<'_>,
    line: Option<&SubLine>,
) -> Result<NormPath, OutOfMemory>
    requires { IfSome (option_copied line) (λ l.
        covers (path_of path.now) l.sub ≡ true) }
    ensures { IfOk result (λ changed.
        changed ≡ changed_by (path_of path.now) (option_copied line.entry)) }
{
    match line {
        Some(line) => NormPath::replaced(
            alloc,
            path,
            &line.sub.source.path(),
            &line.sub.target.path(),
        ),
        None => copy_of(alloc, path),
    }
}

/// How both stages substitute a path, the last line that covers it in each: the path behind them is
/// the one that look-ups go by.
pub fn route_of<'a>(
    alloc: Global,
    first: &'a [SubLine],
    second: &'a [SubLine],
    path: &PathRef<'_>,
) -> Result<Route<'a>, OutOfMemory>
    ensures route { IfOk result (λ route. route_seen route
        ≡ route_through first.now second.now (path_of path.now)) }
{
    let one = last_cover(first, path);
    let once = changed_by(alloc, path, one)?;
    let two = last_cover(second, &once.path());
    let twice = changed_by(alloc, &once.path(), two)?;
    Ok(Route {
        first: one,
        second: two,
        path: twice,
    })
}
