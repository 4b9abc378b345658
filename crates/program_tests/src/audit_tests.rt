use crate::whole_tests::{NONE_FAILS, ROW_DUMP, ROW_RECORDS, ROW_REPORT, VAR_SPECS, run};
use std::test::Fail;

const AUDIT_WORDS: &[&str] = &[
    "audit",
    "rep",
    "restorecon",
    "-v",
    "-S",
    "fc",
    "-o",
    "out",
    "/srv/b",
];

const TURNED_REPORT: &[u8] = b"Relabeled /srv/b from unconfined_u:object_r:usr_t:s0-s0:c0.c1023 to \
        unconfined_u:object_r:var_t:s0-s0:c0.c1023\n";

const LONGER_DUMP: &[u8] =
    b"# file: /srv/b\nsecurity.selinux=\"unconfined_u:object_r:var_t:s0-s0:c0.c1023\"\n\n\n";

/// Reports and dumps of one run, and what an audit tells of them.
const AUDITED: &[(&[u8], &[u8], u8, &[u8])] = &[
    (ROW_REPORT, ROW_DUMP, 0, b"agrees\n"),
    (TURNED_REPORT, ROW_DUMP, 1, b"report differs at /srv/b\n"),
    (b"", ROW_DUMP, 1, b"report differs at /srv/b\n"),
    (ROW_REPORT, LONGER_DUMP, 1, b"dump differs at its end\n"),
];

#[test]
fn an_audit_tells_the_first_piece_that_differs(rt: HostRuntime) -> Result<(), Fail> {
    for (report, dump, status, line) in AUDITED {
        let files: &[(&str, &[u8])] = &[("fc", VAR_SPECS), ("rep", *report), ("out", *dump)];
        let ran = run(rt.alloc(), AUDIT_WORDS, files, ROW_RECORDS, &NONE_FAILS)?;
        assert!(rt; ran.ended(*status, *line), "at {line:?}");
    }
    Ok(())
}

#[test]
fn an_absent_report_is_told_before_the_input(rt: HostRuntime) -> Result<(), Fail> {
    let files: &[(&str, &[u8])] = &[("fc", VAR_SPECS), ("out", ROW_DUMP)];
    let ran = run(rt.alloc(), AUDIT_WORDS, files, ROW_RECORDS, &NONE_FAILS)?;
    assert!(rt; ran.refused(255, b"relabel: rep: not found\n"));
    Ok(())
}
