use crate::whole_tests::{RECORDS, SPECS, VAR_SPECS};
use crate::worked_tests::{Case, LINKED_SPECS, first_other, first_other_by};
use std::test::Fail;

// ---- digests that are made, that skip, and that are renewed

const SRV_SPECS: &[u8] = b"/srv(/.*)? system_u:object_r:var_t:s0\n";

const SRV: &[u8] = b"\
    d 1 30 system_u:object_r:var_t:s0 /srv\0\
    d 1 33 system_u:object_r:var_t:s0 /srv/other\0\
    d 1 31 system_u:object_r:var_t:s0 /srv/sub\0\
    f 1 32 system_u:object_r:var_t:s0 /srv/sub/f\0";

const SRV_DIGESTS: &[u8] = b"\
    # file: /srv\n\
    security.sehash=0x8c82de1118bd4789fa613269b6de865ad8d063d8\n\
    \n\
    # file: /srv/other\n\
    security.sehash=0x202000a9fba40348e538f42486a0317222cbf932\n\
    \n\
    # file: /srv/sub\n\
    security.sehash=0xeaae5678c177e249d30ba4679a56aad9b56b51ff\n\
    \n";

const LINKED_OUT: &[u8] = b"\
    d 1 40 system_u:object_r:dir_t:s0 /a\0\
    f 1 41 system_u:object_r:a_t:s0 /a/x\0\
    d 1 42 system_u:object_r:dir_t:s0 /b\0\
    f 1 41 system_u:object_r:a_t:s0 /b/x\0";

const LINKED_OUT_REPORT: &[u8] =
    b"conflicting specifications for /a/x and /b/x, using system_u:object_r:a_t:s0.\n";

/// A first run, one that skips all, and one by a further specification; a directory with a name
/// elsewhere, twice.
const RENEWED: &[Case] = &[
    Case {
        words: "restorecon -R -v -D -S fc -o d1 /srv",
        files: &[("fc", SRV_SPECS)],
        input: Some(SRV),
        status: 0,
        text: b"",
        written: Some(("d1", SRV_DIGESTS)),
    },
    Case {
        words: "restorecon -R -v -D -S fc -K d1 -o d2 /srv",
        files: &[("d1", SRV_DIGESTS), ("fc", SRV_SPECS)],
        input: Some(SRV),
        status: 0,
        text: b"Skipping restorecon on directory(/srv)\n",
        written: Some(("d2", b"")),
    },
    Case {
        words: "restorecon -R -v -D -S fc -K d1 -o d3 /srv",
        files: &[
            ("d1", SRV_DIGESTS),
            (
                "fc",
                b"/srv(/.*)? system_u:object_r:var_t:s0\n\
                /srv/sub/g.* system_u:object_r:tmp_t:s0\n",
            ),
        ],
        input: Some(SRV),
        status: 0,
        text: b"Skipping restorecon on directory(/srv/other)\n",
        written: Some((
            "d3",
            b"# file: /srv\n\
                security.sehash=0x6bb425fff7c327a102ede93fdf83ebb4bb1228c5\n\
                \n\
                # file: /srv/sub\n\
                security.sehash=0x90e97789734b12c3522249534b9dd7172f133f74\n\
                \n",
        )),
    },
    Case {
        words: "restorecon -R -v -D -S fc -o d1 /a /b",
        files: &[("fc", LINKED_SPECS)],
        input: Some(LINKED_OUT),
        status: 0,
        text: LINKED_OUT_REPORT,
        written: Some(("d1", b"")),
    },
    Case {
        words: "restorecon -R -v -D -S fc -K d1 -o d1 /a /b",
        files: &[("d1", b""), ("fc", LINKED_SPECS)],
        input: Some(LINKED_OUT),
        status: 0,
        text: LINKED_OUT_REPORT,
        written: Some(("d1", b"")),
    },
];

#[test]
fn digests_skip_what_they_tell(rt: HostRuntime) -> Result<(), Fail> {
    assert_eq!(rt; first_other(rt.alloc(), RENEWED)?, None);
    Ok(())
}

#[test]
fn digests_skip_what_they_tell_by_several_workers(rt: HostRuntime) -> Result<(), Fail> {
    assert_eq!(rt; first_other_by(&rt, rt.alloc(), RENEWED)?, None);
    Ok(())
}

// ---- digests that are voided

const NAMED_TWICE_SPECS: &[u8] = b"\
    /a -d system_u:object_r:dir_t:s0\n\
    /a/p system_u:object_r:p_t:s0\n\
    /a/q system_u:object_r:q_t:s0\n";

const NAMED_TWICE: &[u8] = b"\
    d 1 40 system_u:object_r:dir_t:s0 /a\0\
    f 1 41 system_u:object_r:p_t:s0 /a/p\0\
    f 1 41 system_u:object_r:p_t:s0 /a/q\0";

const NAMED_TWICE_DIGEST: &[u8] = b"\
    # file: /a\n\
    security.sehash=0x3822652d5e9c5c31aaf4c1d8398c492a54c260b4\n\
    \n";

const FIRST_POLICY: &[u8] = b"\
    /a(/s)? -d system_u:object_r:dir_t:s0\n\
    /a/s/f system_u:object_r:f_t:s0\n";

const OTHER_POLICY: &[u8] = b"\
    /a(/s)? -d system_u:object_r:dir_t:s0\n\
    /a/s/f system_u:object_r:g_t:s0\n";

const NESTED: &[u8] = b"\
    d 1 50 system_u:object_r:dir_t:s0 /a\0\
    d 1 51 system_u:object_r:dir_t:s0 /a/s\0\
    f 1 52 system_u:object_r:f_t:s0 /a/s/f\0";

const NESTED_DIGESTS: &[u8] = b"\
    # file: /a\n\
    security.sehash=0x168c3e8750d989e4c85eca37e91bc20736c20929\n\
    \n\
    # file: /a/s\n\
    security.sehash=0xb50c95a06700fce00a33cf4eb32ee345dcf42f91\n\
    \n";

const PARTIAL_DUMP: &[u8] = b"\
    # file: /a\n\
    security.sehash=0x0000000000000000000000000000000000000000\n\
    \n\
    # file: /a/s\n\
    security.sehash=0x0000000000000000000000000000000000000000\n\
    \n\
    # file: /a/s/f\n\
    security.selinux=\"system_u:object_r:g_t:s0\"\n\
    \n";

/// Before and behind an exclusion; before, in and behind a run of a part by another policy; and by
/// the change of a label below.
const VOIDED: &[Case] = &[
    Case {
        words: "restorecon -R -v -D -S fc -o d1 /a",
        files: &[("fc", NAMED_TWICE_SPECS)],
        input: Some(NAMED_TWICE),
        status: 0,
        text: b"conflicting specifications for /a/p and /a/q, using system_u:object_r:p_t:s0.\n",
        written: Some(("d1", NAMED_TWICE_DIGEST)),
    },
    Case {
        words: "restorecon -R -v -D -S fc -e /a/p -K d1 -o d2 /a",
        files: &[("d1", NAMED_TWICE_DIGEST), ("fc", NAMED_TWICE_SPECS)],
        input: Some(NAMED_TWICE),
        status: 0,
        text: b"Relabeled /a/q from system_u:object_r:p_t:s0 to system_u:object_r:q_t:s0\n",
        written: Some((
            "d2",
            b"# file: /a\n\
                security.sehash=0x0000000000000000000000000000000000000000\n\
                \n\
                # file: /a/q\n\
                security.selinux=\"system_u:object_r:q_t:s0\"\n\
                \n",
        )),
    },
    Case {
        words: "restorecon -R -v -D -S fc -o d1 /a",
        files: &[("fc", FIRST_POLICY), ("fd", OTHER_POLICY)],
        input: Some(NESTED),
        status: 0,
        text: b"",
        written: Some(("d1", NESTED_DIGESTS)),
    },
    Case {
        words: "restorecon -R -v -S fd -K d1 -o d2 /a/s",
        files: &[
            ("d1", NESTED_DIGESTS),
            ("fc", FIRST_POLICY),
            ("fd", OTHER_POLICY),
        ],
        input: Some(NESTED),
        status: 0,
        text: b"Relabeled /a/s/f from system_u:object_r:f_t:s0 to system_u:object_r:g_t:s0\n",
        written: Some(("d2", PARTIAL_DUMP)),
    },
    Case {
        words: "restorecon -R -v -D -S fc -K d2 -o d3 /a",
        files: &[
            ("d2", PARTIAL_DUMP),
            ("fc", FIRST_POLICY),
            ("fd", OTHER_POLICY),
        ],
        input: Some(
            b"d 1 50 system_u:object_r:dir_t:s0 /a\0\
            d 1 51 system_u:object_r:dir_t:s0 /a/s\0\
            f 1 52 system_u:object_r:g_t:s0 /a/s/f\0",
        ),
        status: 0,
        text: b"Relabeled /a/s/f from system_u:object_r:g_t:s0 to system_u:object_r:f_t:s0\n",
        written: Some((
            "d3",
            b"# file: /a\n\
                security.sehash=0x168c3e8750d989e4c85eca37e91bc20736c20929\n\
                \n\
                # file: /a/s\n\
                security.sehash=0xb50c95a06700fce00a33cf4eb32ee345dcf42f91\n\
                \n\
                # file: /a/s/f\n\
                security.selinux=\"system_u:object_r:f_t:s0\"\n\
                \n",
        )),
    },
    Case {
        words: "restorecon -S fc -K k -o out /srv/b",
        files: &[
            ("fc", VAR_SPECS),
            (
                "k",
                b"# file: srv\n\
                security.sehash=0xAB\n\
                \n",
            ),
        ],
        input: Some(
            b"f 1 21 unconfined_u:object_r:tmp_t:s0-s0:c0.c1023 /srv/b\0\
            d 1 9 system_u:object_r:var_t:s0 /srv\0",
        ),
        status: 0,
        text: b"",
        written: Some((
            "out",
            b"# file: /srv\n\
                security.sehash=0x0000000000000000000000000000000000000000\n\
                \n\
                # file: /srv/b\n\
                security.selinux=\"unconfined_u:object_r:var_t:s0-s0:c0.c1023\"\n\
                \n",
        )),
    },
];

#[test]
fn digests_are_voided_where_a_label_below_changes(rt: HostRuntime) -> Result<(), Fail> {
    assert_eq!(rt; first_other(rt.alloc(), VOIDED)?, None);
    Ok(())
}

#[test]
fn several_workers_void_the_same_digests(rt: HostRuntime) -> Result<(), Fail> {
    assert_eq!(rt; first_other_by(&rt, rt.alloc(), VOIDED)?, None);
    Ok(())
}

// ---- records with link counts

const COUNTED: &[u8] = b"\
    d 1 30 4 system_u:object_r:var_t:s0 /srv\0\
    d 1 33 2 system_u:object_r:var_t:s0 /srv/other\0\
    d 1 31 2 system_u:object_r:var_t:s0 /srv/sub\0\
    f 1 32 1 system_u:object_r:var_t:s0 /srv/sub/f\0";

const COUNTED_DIGESTS: &[u8] = b"\
    # file: /srv\n\
    security.sehash=0x2b70dcbe37e2e06d5c0b4cb1c7544d0d93e7a411\n\
    \n\
    # file: /srv/other\n\
    security.sehash=0x59076af7fc99826a80271548dd014c5fa8f72780\n\
    \n\
    # file: /srv/sub\n\
    security.sehash=0x7d9617ff1c50dac3728492f5972b41e4bcb3b303\n\
    \n";

/// All names seen, a name unseen, digests of records without counts, counts that are missing, and
/// counts that weren't asked for.
const LINK_COUNTS: &[Case] = &[
    Case {
        words: "restorecon -R -v -D -2 -S fc -o e1 /srv",
        files: &[("fc", SRV_SPECS)],
        input: Some(COUNTED),
        status: 0,
        text: b"",
        written: Some(("e1", COUNTED_DIGESTS)),
    },
    Case {
        words: "restorecon -R -v -D -2 -S fc -o e1 /srv",
        files: &[("fc", SRV_SPECS)],
        input: Some(
            b"d 1 30 4 system_u:object_r:var_t:s0 /srv\0\
            d 1 33 2 system_u:object_r:var_t:s0 /srv/other\0\
            d 1 31 2 system_u:object_r:var_t:s0 /srv/sub\0\
            f 1 32 2 system_u:object_r:var_t:s0 /srv/sub/f\0",
        ),
        status: 0,
        text: b"",
        written: Some((
            "e1",
            b"# file: /srv/other\n\
                security.sehash=0x59076af7fc99826a80271548dd014c5fa8f72780\n\
                \n",
        )),
    },
    Case {
        words: "restorecon -R -v -D -2 -S fc -K d1 -o e2 /srv",
        files: &[("d1", SRV_DIGESTS), ("fc", SRV_SPECS)],
        input: Some(COUNTED),
        status: 0,
        text: b"",
        written: Some(("e2", COUNTED_DIGESTS)),
    },
    Case {
        words: "setfiles -n -2 fc /",
        files: &[("fc", SPECS)],
        input: Some(RECORDS),
        status: 255,
        text: b"relabel: record 1: missing field\n",
        written: None,
    },
    Case {
        words: "setfiles -n fc /",
        files: &[("fc", SPECS)],
        input: Some(b"d 2049 2 5 system_u:object_r:root_t:s0 /\0"),
        status: 255,
        text: b"relabel: record 1: path: not absolute\n",
        written: None,
    },
];

#[test]
fn link_counts_tell_names_that_are_not_there(rt: HostRuntime) -> Result<(), Fail> {
    assert_eq!(rt; first_other(rt.alloc(), LINK_COUNTS)?, None);
    Ok(())
}

// ---- versions of a policy

/// Four versions, and one without its file.
const REHEARSALS: &[Case] = &[
    Case {
        words: "rehearse -D -S fc -S fd -S fc -S fc /a",
        files: &[("fc", FIRST_POLICY), ("fd", OTHER_POLICY)],
        input: Some(NESTED),
        status: 0,
        text: b"version 1: fc: 0 changed, 0 skipped\n\
            version 2: fd: 1 changed, 0 skipped\n\
            Relabeled /a/s/f from system_u:object_r:f_t:s0 to system_u:object_r:g_t:s0\n\
            version 3: fc: 1 changed, 0 skipped\n\
            Relabeled /a/s/f from system_u:object_r:g_t:s0 to system_u:object_r:f_t:s0\n\
            version 4: fc: 0 changed, 1 skipped\n",
        written: None,
    },
    Case {
        words: "rehearse -S fc -S fe /a",
        files: &[("fc", FIRST_POLICY), ("fd", OTHER_POLICY)],
        input: None,
        status: 255,
        text: b"relabel: fe: not found\n",
        written: None,
    },
];

#[test]
fn each_version_begins_where_the_one_before_it_ends(rt: HostRuntime) -> Result<(), Fail> {
    assert_eq!(rt; first_other(rt.alloc(), REHEARSALS)?, None);
    Ok(())
}
