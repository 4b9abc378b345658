use crate::test_walks::{Given, NOTHING, PLAIN, answer, stored_of, tree_of};
use find_records::Format;
use label_base::{Bytes, OutOfMemory, Row};
use relabel_core::{Options, Stored};
use std::alloc::Global;
use std::test::Fail;
use tree_model::Tree;

// A directory, and a file in it whose label changes.
const SRV: Given<'static> = Given {
    specs: b"/srv/.* u:r:var_t:s0\n",
    records: b"d 1 9 u:r:var_t:s0 /srv\0f 1 21 w:r:tmp_t:s0-s0:c0.c1023 /srv/b\0",
    operands: (b"/srv/b", b"/srv/b"),
    ..NOTHING
};

fn dump(alloc: Global, given: &Given<'_>) -> Result<Bytes, Fail> {
    let answered = answer(alloc, given)?;
    Ok(answered.text)
}

#[test]
fn a_label_that_changes_is_dumped(rt: HostRuntime) -> Result<(), Fail> {
    let dump = dump(rt.alloc(), &SRV)?;
    assert_eq!(rt;
        dump.as_slice(),
        b"# file: /srv/b\nsecurity.selinux=\"w:r:var_t:s0-s0:c0.c1023\"\n\n".as_slice()
    );
    Ok(())
}

#[test]
fn a_name_is_escaped(rt: HostRuntime) -> Result<(), Fail> {
    let dump = dump(
        rt.alloc(),
        &Given {
            records: b"f 1 22  /srv/c\nd\\e\0",
            operands: (b"/srv/c\nd\\e", b"/srv/c\nd\\e"),
            ..SRV
        },
    )?;
    assert_eq!(rt;
        dump.as_slice(),
        b"# file: /srv/c\\012d\\134e\nsecurity.selinux=\"u:r:var_t:s0\"\n\n".as_slice()
    );
    Ok(())
}

#[test]
fn all_digests_above_a_changed_label_are_voided(rt: HostRuntime) -> Result<(), Fail> {
    let dump = dump(
        rt.alloc(),
        &Given {
            specs: b"/a(/s)? -d u:r:dir_t:s0\n/a/s/f u:r:g_t:s0\n",
            records: b"d 1 50 u:r:dir_t:s0 /a\0d 1 51 u:r:dir_t:s0 /a/s\0f 1 52 u:r:f_t:s0 /a/s/f\0\
                d 1 53 u:r:dir_t:s0 /b\0",
            operands: (b"/a/s", b"/a/s"),
            stored: b"# file: /a\nsecurity.sehash=0x01\n\n# file: /b\nsecurity.sehash=0x02\n\n\
                # file: /a/s\nsecurity.sehash=0x03\n",
            ..NOTHING
        },
    )?;
    assert_eq!(rt;
        dump.as_slice(),
        b"# file: /a\nsecurity.sehash=0x0000000000000000000000000000000000000000\n\n# file: /a/s\n\
            security.sehash=0x0000000000000000000000000000000000000000\n\n# file: /a/s/f\n\
            security.selinux=\"u:r:g_t:s0\"\n\n"
            .as_slice()
    );
    Ok(())
}

#[test]
fn a_run_that_changes_nothing_voids_nothing(rt: HostRuntime) -> Result<(), Fail> {
    let dry = Options { dry: true, ..PLAIN };
    let dump = dump(
        rt.alloc(),
        &Given {
            stored: b"# file: srv\nsecurity.sehash=0xAB\n\n",
            options: dry,
            ..SRV
        },
    )?;
    assert_eq!(rt; dump.len(), 0);
    Ok(())
}

#[test]
fn a_void_digest_is_not_told_again(rt: HostRuntime) -> Result<(), Fail> {
    let dump = dump(
        rt.alloc(),
        &Given {
            stored: b"# file: /srv\nsecurity.sehash=0x0000000000000000000000000000000000000000\n",
            ..SRV
        },
    )?;
    assert_eq!(rt;
        dump.as_slice(),
        b"# file: /srv/b\nsecurity.selinux=\"w:r:var_t:s0-s0:c0.c1023\"\n\n".as_slice()
    );
    Ok(())
}

fn length_of(digest: Option<&[u8]>) -> Option<usize> {
    match digest {
        None => None,
        Some(digest) => Some(digest.len()),
    }
}

fn stored_lengths(
    alloc: Global,
    tree: &Tree,
    dump: &[u8],
) -> Result<(Option<usize>, Option<usize>), Fail> {
    let stored = stored_of(alloc, tree, dump)?;
    Ok((length_of(stored.get(0)), length_of(stored.get(1))))
}

// The lengths of the digests that a dump stores for the first two entries.
fn lengths_of(
    alloc: Global,
    records: &[u8],
    dump: &[u8],
) -> Result<(Option<usize>, Option<usize>), Fail> {
    let tree = tree_of(alloc, records, Format::One)?;
    stored_lengths(alloc, &tree, dump)
}

#[test]
fn the_last_digest_of_a_directory_is_stored(rt: HostRuntime) -> Result<(), Fail> {
    let lengths = lengths_of(
        rt.alloc(),
        SRV.records,
        b"# file: srv\nsecurity.sehash=0x01\nuser.x=\"abc\"\nsecurity.sehash=0x0102\n\n\
            # file: srv/b\nsecurity.sehash=0x010203\n\n# file: srv\nsecurity.sehash=0x01020304\n\n\
            # file: other\nsecurity.sehash=0x0102030405\n",
    )?;
    assert!(rt; lengths == (Some(4), None));
    Ok(())
}

fn nothing_listed(alloc: Global, tree: &Tree) -> Result<bool, OutOfMemory> {
    if tree.len() != 0 {
        return Ok(false);
    }
    Ok(Stored::of(alloc, tree, &Row::new(alloc))?.is_empty())
}

#[test]
fn digests_are_listed(rt: HostRuntime) -> Result<(), Fail> {
    let tree = tree_of(rt.alloc(), b"", Format::One)?;
    assert!(rt; nothing_listed(rt.alloc(), &tree)?);
    Ok(())
}

#[test]
fn no_digest_is_stored(rt: HostRuntime) {
    assert!(rt; Stored::none(rt.alloc()).is_empty());
}
