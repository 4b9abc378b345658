use context_syntax::{Context, ContextRef, Label};
use file_paths::{NormPath, PathRef};
use label_base::{Bytes, EntryKind, OutOfMemory};
use report_text::{Message, add_line, line, report};
use std::alloc::Global;
use std::test::Fail;

fn is_line(alloc: Global, message: &Message<'_>, wanted: &[u8]) -> Result<bool, OutOfMemory> {
    let mut text = Bytes::new(alloc);
    line(alloc, message, &mut text)?;
    Ok(text.as_slice() == wanted)
}

// Whether a change from a label to a whole context is told so.
fn is_change_from<'x>(
    alloc: Global,
    path: PathRef<'x>,
    from: &'x Label,
    wanted: &[u8],
) -> Result<bool, Fail> {
    let wants = Context::read(alloc, b"v:r:w")?;
    let relabel = Message::Relabel {
        path,
        from,
        to: ContextRef::whole(&wants),
        dry: false,
    };
    Ok(is_line(alloc, &relabel, wanted)?)
}

fn is_change(alloc: Global, path: &PathRef<'_>, from: &[u8], wanted: &[u8]) -> Result<bool, Fail> {
    let from = Label::read(alloc, from)?;
    is_change_from(alloc, *path, &from, wanted)
}

#[test]
fn a_change(rt: HostRuntime) -> Result<(), Fail> {
    let path = NormPath::read(rt.alloc(), b"/a\\b\n")?;
    let wanted = b"Relabeled /a\\134b\\012 from a\\177 to v:r:w\n".as_slice();
    assert!(rt; is_change(rt.alloc(), &path.path(), b"a\x7f", wanted)?);
    Ok(())
}

// Whether a change to one context with the type of another is told as one that would be made.
fn would_be_made(alloc: Global, rest: &Context, wanted: &[u8]) -> Result<bool, Fail> {
    let kind = Context::read(alloc, b"v:r:w")?;
    let path = NormPath::root(alloc);
    let relabel = Message::Relabel {
        path: path.path(),
        from: &Label::Absent,
        to: ContextRef { rest, kind: &kind },
        dry: true,
    };
    Ok(is_line(alloc, &relabel, wanted)?)
}

#[test]
fn a_change_that_would_be_made(rt: HostRuntime) -> Result<(), Fail> {
    let rest = Context::read(rt.alloc(), b"u:r:t:s0")?;
    let wanted = b"Would relabel / from <no context> to u:r:w:s0\n".as_slice();
    assert!(rt; would_be_made(rt.alloc(), &rest, wanted)?);
    Ok(())
}

fn is_customized(alloc: Global, path: &PathRef<'_>, wanted: &[u8]) -> Result<bool, Fail> {
    let label = Context::read(alloc, b"u:r:t")?;
    let customized = Message::Customized {
        path: *path,
        label: &label,
    };
    Ok(is_line(alloc, &customized, wanted)?)
}

#[test]
fn a_customized_label(rt: HostRuntime) -> Result<(), Fail> {
    let path = NormPath::read(rt.alloc(), b"/a")?;
    let wanted = b"/a not reset as customized by admin to u:r:t\n".as_slice();
    assert!(rt; is_customized(rt.alloc(), &path.path(), wanted)?);
    Ok(())
}

// Whether a conflict between a path and the root is told so.
fn is_conflict(alloc: Global, first: &PathRef<'_>, wanted: &[u8]) -> Result<bool, Fail> {
    let used = Context::read(alloc, b"u:r:t")?;
    let root = NormPath::root(alloc);
    let conflict = Message::Conflict {
        first: *first,
        second: root.path(),
        used: &used,
    };
    Ok(is_line(alloc, &conflict, wanted)?)
}

#[test]
fn a_conflict(rt: HostRuntime) -> Result<(), Fail> {
    let path = NormPath::read(rt.alloc(), b"/a")?;
    let wanted = b"conflicting specifications for /a and /, using u:r:t.\n".as_slice();
    assert!(rt; is_conflict(rt.alloc(), &path.path(), wanted)?);
    Ok(())
}

#[test]
fn a_specification_without_a_match(rt: HostRuntime) -> Result<(), Fail> {
    let context = Context::read(rt.alloc(), b"u:r:t")?;
    let typed = Message::NoMatches {
        text: b"/x\\.y".as_slice(),
        kind: Some(EntryKind::Block),
        context: Some(&context),
    };
    let wanted = b"Warning! No matches for (/x\\.y, -b, u:r:t)\n".as_slice();
    assert!(rt; is_line(rt.alloc(), &typed, wanted)?);
    Ok(())
}

#[test]
fn a_specification_without_context_or_match(rt: HostRuntime) -> Result<(), Fail> {
    let untyped = Message::NoMatches {
        text: b"/proc".as_slice(),
        kind: None,
        context: None,
    };
    let wanted = b"Warning! No matches for (/proc, <<none>>)\n".as_slice();
    assert!(rt; is_line(rt.alloc(), &untyped, wanted)?);
    Ok(())
}

fn is_found(alloc: Global, path: &PathRef<'_>, wanted: &[u8]) -> Result<bool, Fail> {
    let context = Context::read(alloc, b"u:r:t")?;
    let found = Message::Found {
        path: *path,
        context: Some(&context),
        bare: false,
    };
    Ok(is_line(alloc, &found, wanted)?)
}

fn is_bare(alloc: Global, path: &PathRef<'_>, wanted: &[u8]) -> Result<bool, OutOfMemory> {
    let bare = Message::Found {
        path: *path,
        context: None,
        bare: true,
    };
    is_line(alloc, &bare, wanted)
}

fn differs(alloc: Global, path: &PathRef<'_>, wanted: &[u8]) -> Result<bool, Fail> {
    let wants = Context::read(alloc, b"u:r:t")?;
    let differs = Message::Differs {
        path: *path,
        has: &Label::Absent,
        wants: &wants,
    };
    Ok(is_line(alloc, &differs, wanted)?)
}

#[test]
fn lines_of_a_look_up(rt: HostRuntime) -> Result<(), Fail> {
    let alloc = rt.alloc();
    let path = NormPath::read(alloc, b"/a")?;
    assert!(rt; is_found(alloc, &path.path(), b"/a\tu:r:t\n")?);
    assert!(rt; is_bare(alloc, &path.path(), b"<<none>>\n")?);
    let wanted = b"/a has context <no context>, should be u:r:t\n".as_slice();
    assert!(rt; differs(alloc, &path.path(), wanted)?);
    Ok(())
}

fn is_report(alloc: Global, path: &PathRef<'_>, wanted: &[u8]) -> Result<bool, OutOfMemory> {
    let path = *path;
    let messages = [
        Message::NoDefault { path },
        Message::Skipped { path },
        Message::Absent { path },
        Message::Verified { path },
    ];
    let mut text = report(alloc, messages.as_slice())?;
    add_line(alloc, &Message::NoRecord { path }, &mut text)?;
    Ok(text.as_slice() == wanted)
}

#[test]
fn lines_of_paths_alone(rt: HostRuntime) -> Result<(), Fail> {
    let path = NormPath::root(rt.alloc());
    let wanted =
        b"Warning no default label for /\nSkipping restorecon on directory(/)\nno record for /\n\
            / verified.\n/ has no record\n"
            .as_slice();
    assert!(rt; is_report(rt.alloc(), &path.path(), wanted)?);
    Ok(())
}
