use crate::test_walks::{Given, NOTHING, PLAIN, answer};
use find_records::Format;
use label_base::Bytes;
use relabel_core::Options;
use std::alloc::Global;
use std::test::Fail;

// The digests of these tests were made by another program, from the format of listings.

// `-D -v`.
const SKIPPING: Options = Options {
    digests: true,
    verbose: true,
    ..PLAIN
};

// Three directories, in which all labels are right.
const SRV: Given<'static> = Given {
    specs: b"/srv(/.*)? u:r:var_t:s0\n",
    records: b"d 1 30 u:r:var_t:s0 /srv\0d 1 33 u:r:var_t:s0 /srv/other\0\
        d 1 31 u:r:var_t:s0 /srv/sub\0f 1 32 u:r:var_t:s0 /srv/sub/f\0",
    operands: (b"/srv", b"/srv"),
    options: SKIPPING,
    ..NOTHING
};

// Their digests.
const SRV_DIGESTS: &[u8] =
    b"# file: /srv\nsecurity.sehash=0x2f409ad7b5704325f609fc499a6af2db7062c720\n\n\
        # file: /srv/other\nsecurity.sehash=0xa0084f1d891eb1355975ea05799e8507dcde9544\n\n\
        # file: /srv/sub\nsecurity.sehash=0x8c9c9fd4b3aa017aaa3acb63fc8b547cd50f05c1\n\n";

// The same with link counts.
const SRV_COUNTED: Given<'static> = Given {
    records: b"d 1 30 4 u:r:var_t:s0 /srv\0d 1 33 2 u:r:var_t:s0 /srv/other\0\
        d 1 31 2 u:r:var_t:s0 /srv/sub\0f 1 32 1 u:r:var_t:s0 /srv/sub/f\0",
    options: Options {
        format: Format::Two,
        ..SKIPPING
    },
    ..SRV
};

// Two directories, and an inode with a name in each.
const LINKED: Given<'static> = Given {
    specs: b"/[ab] -d u:r:dir_t:s0\n/a/x u:r:a_t:s0\n/b/x u:r:b_t:s0\n",
    records: b"d 1 40 u:r:dir_t:s0 /a\0f 1 41 u:r:a_t:s0 /a/x\0d 1 42 u:r:dir_t:s0 /b\0\
        f 1 41 u:r:a_t:s0 /b/x\0",
    operands: (b"/a", b"/b"),
    options: SKIPPING,
    ..NOTHING
};

// A directory, and an inode with two names in it.
const NAMED_TWICE: Given<'static> = Given {
    specs: b"/a -d u:r:dir_t:s0\n/a/p u:r:p_t:s0\n/a/q u:r:q_t:s0\n",
    records: b"d 1 40 u:r:dir_t:s0 /a\0f 1 41 u:r:p_t:s0 /a/p\0f 1 41 u:r:p_t:s0 /a/q\0",
    operands: (b"/a", b"/a"),
    options: SKIPPING,
    ..NOTHING
};

// A directory in another.
const NESTED: Given<'static> = Given {
    specs: b"/a(/s)? -d u:r:dir_t:s0\n/a/s/f u:r:f_t:s0\n",
    records: b"d 1 50 u:r:dir_t:s0 /a\0d 1 51 u:r:dir_t:s0 /a/s\0f 1 52 u:r:f_t:s0 /a/s/f\0",
    operands: (b"/a", b"/a"),
    options: SKIPPING,
    ..NOTHING
};

fn text(alloc: Global, given: &Given<'_>) -> Result<Bytes, Fail> {
    let answered = answer(alloc, given)?;
    Ok(answered.text)
}

// What a run with these options writes, where stored digests are these.
fn text_with(alloc: Global, stored: &[u8], options: Options) -> Result<Bytes, Fail> {
    text(
        alloc,
        &Given {
            stored,
            options,
            ..SRV
        },
    )
}

#[test]
fn a_first_run_digests(rt: HostRuntime) -> Result<(), Fail> {
    let text = text(rt.alloc(), &SRV)?;
    assert_eq!(rt;
        text.as_slice(),
        b"# file: /srv\nsecurity.sehash=0x2f409ad7b5704325f609fc499a6af2db7062c720\n\n\
            # file: /srv/other\nsecurity.sehash=0xa0084f1d891eb1355975ea05799e8507dcde9544\n\n\
            # file: /srv/sub\n\
            security.sehash=0x8c9c9fd4b3aa017aaa3acb63fc8b547cd50f05c1\n\n"
            .as_slice()
    );
    Ok(())
}

#[test]
fn a_run_with_link_counts_digests(rt: HostRuntime) -> Result<(), Fail> {
    let text = text(rt.alloc(), &SRV_COUNTED)?;
    assert_eq!(rt;
        text.as_slice(),
        b"# file: /srv\nsecurity.sehash=0x09b9aa04dff4795bb9bc69c6a9232c2e26df35ba\n\n\
            # file: /srv/other\nsecurity.sehash=0x74e04ad7999d56a5d30b0f4ae946db2dc0fa8287\n\n\
            # file: /srv/sub\n\
            security.sehash=0x8a41eee7ca64ddbaf0ab184e6ae07fdfdf481a67\n\n"
            .as_slice()
    );
    Ok(())
}

// The file has a second name, which no record has.
#[test]
fn a_name_outside_the_records_is_counted(rt: HostRuntime) -> Result<(), Fail> {
    let text = text(
        rt.alloc(),
        &Given {
            records: b"d 1 30 4 u:r:var_t:s0 /srv\0d 1 33 2 u:r:var_t:s0 /srv/other\0\
                d 1 31 2 u:r:var_t:s0 /srv/sub\0f 1 32 2 u:r:var_t:s0 /srv/sub/f\0",
            ..SRV_COUNTED
        },
    )?;
    assert_eq!(rt;
        text.as_slice(),
        b"# file: /srv/other\n\
            security.sehash=0x74e04ad7999d56a5d30b0f4ae946db2dc0fa8287\n\n"
            .as_slice()
    );
    Ok(())
}

// Nothing is skipped by the digests of a run without link counts.
#[test]
fn digests_without_link_counts_do_not_count(rt: HostRuntime) -> Result<(), Fail> {
    let text = text(
        rt.alloc(),
        &Given {
            stored: SRV_DIGESTS,
            ..SRV_COUNTED
        },
    )?;
    assert_eq!(rt;
        text.as_slice(),
        b"# file: /srv\nsecurity.sehash=0x09b9aa04dff4795bb9bc69c6a9232c2e26df35ba\n\n\
            # file: /srv/other\nsecurity.sehash=0x74e04ad7999d56a5d30b0f4ae946db2dc0fa8287\n\n\
            # file: /srv/sub\n\
            security.sehash=0x8a41eee7ca64ddbaf0ab184e6ae07fdfdf481a67\n\n"
            .as_slice()
    );
    Ok(())
}

#[test]
fn a_second_run_skips_all(rt: HostRuntime) -> Result<(), Fail> {
    let text = text(
        rt.alloc(),
        &Given {
            stored: SRV_DIGESTS,
            ..SRV
        },
    )?;
    assert_eq!(rt;
        text.as_slice(),
        b"Skipping restorecon on directory(/srv)\n".as_slice()
    );
    Ok(())
}

#[test]
fn a_new_specification_is_looked_at_where_it_reaches(rt: HostRuntime) -> Result<(), Fail> {
    let text = text(
        rt.alloc(),
        &Given {
            specs: b"/srv(/.*)? u:r:var_t:s0\n/srv/sub/g.* u:r:tmp_t:s0\n",
            stored: SRV_DIGESTS,
            ..SRV
        },
    )?;
    assert_eq!(rt;
        text.as_slice(),
        b"Skipping restorecon on directory(/srv/other)\n# file: /srv\n\
            security.sehash=0x21f10ec272649659777ded856da876dda091cf07\n\n# file: /srv/sub\n\
            security.sehash=0xb369fcd5af4221260f1819610b1846732d498953\n\n"
            .as_slice()
    );
    Ok(())
}

#[test]
fn digests_are_ignored(rt: HostRuntime) -> Result<(), Fail> {
    let options = Options {
        ignore_digests: true,
        ..SKIPPING
    };
    let text = text_with(rt.alloc(), SRV_DIGESTS, options)?;
    assert_eq!(rt; text.as_slice(), b"".as_slice());
    Ok(())
}

#[test]
fn a_dry_run_makes_no_digest(rt: HostRuntime) -> Result<(), Fail> {
    let options = Options {
        dry: true,
        ..SKIPPING
    };
    let text = text_with(rt.alloc(), b"", options)?;
    assert_eq!(rt; text.as_slice(), b"".as_slice());
    Ok(())
}

#[test]
fn a_name_elsewhere_keeps_a_directory_from_being_skipped(rt: HostRuntime) -> Result<(), Fail> {
    let text = text(
        rt.alloc(),
        &Given {
            stored: b"# file: /a\nsecurity.sehash=0xb95be37b22f870ba1b82fa3785b9a1a67cbd177d\n",
            ..LINKED
        },
    )?;
    assert_eq!(rt;
        text.as_slice(),
        b"conflicting specifications for /a/x and /b/x, using u:r:a_t:s0.\n".as_slice()
    );
    Ok(())
}

#[test]
fn two_names_in_a_directory_are_in_its_digest(rt: HostRuntime) -> Result<(), Fail> {
    let text = text(rt.alloc(), &NAMED_TWICE)?;
    assert_eq!(rt;
        text.as_slice(),
        b"conflicting specifications for /a/p and /a/q, using u:r:p_t:s0.\n# file: /a\n\
            security.sehash=0x97e02ea9dfddce6546971cdb1c2fd723242dd18e\n\n"
            .as_slice()
    );
    Ok(())
}

#[test]
fn an_excluded_entry_keeps_a_directory_from_being_skipped(rt: HostRuntime) -> Result<(), Fail> {
    let text = text(
        rt.alloc(),
        &Given {
            excluded: Some(b"/a/p".as_slice()),
            stored: b"# file: /a\nsecurity.sehash=0x97e02ea9dfddce6546971cdb1c2fd723242dd18e\n",
            ..NAMED_TWICE
        },
    )?;
    assert_eq!(rt;
        text.as_slice(),
        b"Relabeled /a/q from u:r:p_t:s0 to u:r:q_t:s0\n# file: /a\n\
            security.sehash=0x0000000000000000000000000000000000000000\n\n# file: /a/q\n\
            security.selinux=\"u:r:q_t:s0\"\n\n"
            .as_slice()
    );
    Ok(())
}

#[test]
fn another_policy_voids_digests(rt: HostRuntime) -> Result<(), Fail> {
    let text = text(
        rt.alloc(),
        &Given {
            specs: b"/a(/s)? -d u:r:dir_t:s0\n/a/s/f u:r:g_t:s0\n",
            operands: (b"/a/s", b"/a/s"),
            stored: b"# file: /a\nsecurity.sehash=0x230da7ded08590bc99efc3c99bff224f03468a36\n\n\
                # file: /a/s\nsecurity.sehash=0xceade0fa86b41540a9d4810c13b375e90f2ffa75\n",
            options: Options {
                digests: false,
                ..SKIPPING
            },
            ..NESTED
        },
    )?;
    assert_eq!(rt;
        text.as_slice(),
        b"Relabeled /a/s/f from u:r:f_t:s0 to u:r:g_t:s0\n# file: /a\n\
            security.sehash=0x0000000000000000000000000000000000000000\n\n# file: /a/s\n\
            security.sehash=0x0000000000000000000000000000000000000000\n\n# file: /a/s/f\n\
            security.selinux=\"u:r:g_t:s0\"\n\n"
            .as_slice()
    );
    Ok(())
}

#[test]
fn void_digests_are_made_anew(rt: HostRuntime) -> Result<(), Fail> {
    let text = text(
        rt.alloc(),
        &Given {
            records: b"d 1 50 u:r:dir_t:s0 /a\0d 1 51 u:r:dir_t:s0 /a/s\0\
                f 1 52 u:r:g_t:s0 /a/s/f\0",
            stored: b"# file: /a\nsecurity.sehash=0x0000000000000000000000000000000000000000\n\n\
                # file: /a/s\nsecurity.sehash=0x0000000000000000000000000000000000000000\n",
            ..NESTED
        },
    )?;
    assert_eq!(rt;
        text.as_slice(),
        b"Relabeled /a/s/f from u:r:g_t:s0 to u:r:f_t:s0\n# file: /a\n\
            security.sehash=0x230da7ded08590bc99efc3c99bff224f03468a36\n\n# file: /a/s\n\
            security.sehash=0xceade0fa86b41540a9d4810c13b375e90f2ffa75\n\n# file: /a/s/f\n\
            security.selinux=\"u:r:f_t:s0\"\n\n"
            .as_slice()
    );
    Ok(())
}
