use crate::test_walks::{Digest, EntryShown, Given, NOTHING, PLAIN, answer};
use label_base::{Bytes, OutOfMemory};
use relabel_core::{Options, Skip, Swept, does_skip, is_first, table_walk_is_walk};
use std::alloc::Global;
use std::test::Fail;

// `-n -v -F`.
const FORCED: Options = Options {
    force: true,
    dry: true,
    verbose: true,
    ..PLAIN
};

// `-v -F`, where links are strict.
const STRICT: Options = Options {
    dry: false,
    strict_links: true,
    ..FORCED
};

// Two names of one inode, in two directories.
const LINKED: Given<'static> = Given {
    specs: b"/[ab] -d u:r:dir_t:s0\n/a/x u:r:a_t:s0\n/b/x u:r:b_t:s0\n",
    records: b"d 1 2 u:r:dir_t:s0 /a\0f 1 10 u:r:old_t:s0 /a/x\0d 1 3 u:r:dir_t:s0 /b\0\
        f 1 10 u:r:old_t:s0 /b/x\0",
    operands: (b"/a", b"/b"),
    options: FORCED,
    ..NOTHING
};

// Operands without an entry.
const ABSENT: Given<'static> = Given {
    operands: (b"/etc", b"/opt"),
    options: FORCED,
    ..NOTHING
};

// A type that may be an administrator's.
const CHOSEN: Given<'static> = Given {
    specs: b"/srv/.* u:r:var_t:s0\n",
    records: b"f 1 20 w:r:public_content_t:s0 /srv/a\0",
    operands: (b"/srv/a", b"/srv/a"),
    options: FORCED,
    ..NOTHING
};

fn text(alloc: Global, given: &Given<'_>) -> Result<Bytes, Fail> {
    let answered = answer(alloc, given)?;
    Ok(answered.text)
}

#[test]
fn absent_operands_are_told(rt: HostRuntime) -> Result<(), Fail> {
    let text = text(rt.alloc(), &ABSENT)?;
    assert_eq!(rt;
        text.as_slice(),
        b"no record for /etc\nno record for /opt\n".as_slice()
    );
    Ok(())
}

#[test]
fn absent_operands_are_ignored(rt: HostRuntime) -> Result<(), Fail> {
    let ignoring = Options {
        ignore_absent: true,
        ..FORCED
    };
    let text = text(
        rt.alloc(),
        &Given {
            options: ignoring,
            ..ABSENT
        },
    )?;
    assert_eq!(rt; text.len(), 0);
    Ok(())
}

#[test]
fn a_name_that_is_left_alone_does_not_win(rt: HostRuntime) -> Result<(), Fail> {
    let text = text(
        rt.alloc(),
        &Given {
            specs: b"/[ab] -d u:r:dir_t:s0\n/a/x <<none>>\n/b/x u:r:b_t:s0\n",
            ..LINKED
        },
    )?;
    assert_eq!(rt;
        text.as_slice(),
        b"Would relabel /b/x from u:r:old_t:s0 to u:r:b_t:s0\n".as_slice()
    );
    Ok(())
}

#[test]
fn the_first_name_wins(rt: HostRuntime) -> Result<(), Fail> {
    let text = text(rt.alloc(), &LINKED)?;
    assert_eq!(rt;
        text.as_slice(),
        b"Would relabel /a/x from u:r:old_t:s0 to u:r:a_t:s0\n\
            conflicting specifications for /a/x and /b/x, using u:r:a_t:s0.\n"
            .as_slice()
    );
    Ok(())
}

#[test]
fn a_customizable_type_is_forced(rt: HostRuntime) -> Result<(), Fail> {
    let text = text(rt.alloc(), &CHOSEN)?;
    assert_eq!(rt;
        text.as_slice(),
        b"Would relabel /srv/a from w:r:public_content_t:s0 to u:r:var_t:s0\n".as_slice()
    );
    Ok(())
}

#[test]
fn a_customizable_type_is_kept(rt: HostRuntime) -> Result<(), Fail> {
    let by_kind = Options {
        force: false,
        ..FORCED
    };
    let text = text(
        rt.alloc(),
        &Given {
            options: by_kind,
            ..CHOSEN
        },
    )?;
    assert_eq!(rt;
        text.as_slice(),
        b"/srv/a not reset as customized by admin to w:r:public_content_t:s0\n".as_slice()
    );
    Ok(())
}

#[test]
fn an_inode_has_the_label_of_its_first_record(rt: HostRuntime) -> Result<(), Fail> {
    let warned = Options {
        warn_unmatched: true,
        ..FORCED
    };
    let text = text(
        rt.alloc(),
        &Given {
            specs: b"/b -d u:r:dir_t:s0\n/b/x u:r:q_t:s0\n/opt -d u:r:o_t:s0\n",
            records: b"f 1 10 u:r:p_t:s0 /a/x\0d 1 3 u:r:dir_t:s0 /b\0f 1 10 u:r:q_t:s0 /b/x\0",
            operands: (b"/b", b"/b"),
            options: warned,
            ..NOTHING
        },
    )?;
    assert_eq!(rt;
        text.as_slice(),
        b"Would relabel /b/x from u:r:p_t:s0 to u:r:q_t:s0\n\
            Warning! No matches for (/opt, -d, u:r:o_t:s0)\n"
            .as_slice()
    );
    Ok(())
}

// What is shown of the entry, and what becomes of its digest.
fn shown(
    alloc: Global,
    given: &Given<'_>,
) -> Result<(Option<EntryShown>, Option<(Digest, bool)>), Fail> {
    let answered = answer(alloc, given)?;
    Ok((answered.shown, answered.digest))
}

// How many labels and digests a walk leaves, and how many errors and entries decided to a context
// it has.
fn counted(alloc: Global, given: &Given<'_>) -> Result<((usize, usize), u32, u32), Fail> {
    let answered = answer(alloc, given)?;
    Ok((answered.left, answered.errors, answered.wanted))
}

#[test]
fn entries_are_told_one_by_one(rt: HostRuntime) -> Result<(), Fail> {
    table_walk_is_walk();
    let of_entry = EntryShown {
        winner: Some(1),
        deciding: Some(2),
        wants: true,
        given: false,
        is_changed: true,
        does_change: false,
        has_message: true,
        has_conflict: true,
        is_walked: true,
        is_skipped_first: false,
    };
    let shown = shown(
        rt.alloc(),
        &Given {
            options: STRICT,
            entry: 3,
            ..LINKED
        },
    )?;
    assert!(rt; shown == (Some(of_entry), Some((Digest::Stays, false))));
    Ok(())
}

#[test]
fn a_walk_is_counted(rt: HostRuntime) -> Result<(), Fail> {
    let counted = counted(
        rt.alloc(),
        &Given {
            options: STRICT,
            ..LINKED
        },
    )?;
    assert!(rt; counted == ((3, 4), 1, 4));
    Ok(())
}

#[test]
fn what_is_put_at_a_position_is_there(rt: HostRuntime) -> Result<(), Fail> {
    let answered = answer(rt.alloc(), &LINKED)?;
    assert!(rt; answered.noted == (Some(7), Some(5)));
    Ok(())
}

// What is found of an entry of which it is noted.
fn passed_at(alloc: Global) -> Result<(bool, bool, bool), OutOfMemory> {
    let mut swept = Swept::with_room(alloc, 2)?;
    swept.put_skip(1, Skip::First);
    swept.put_renewed(1, dir_digest::Digest::VOID)?;
    let skip = swept.skip(1);
    Ok((does_skip(skip), is_first(skip), swept.renewed(1).is_some()))
}

#[test]
fn what_is_noted_of_a_directory_is_found(rt: HostRuntime) -> Result<(), Fail> {
    assert!(rt; passed_at(rt.alloc())? == (true, true, true));
    Ok(())
}
