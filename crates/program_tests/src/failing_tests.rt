use crate::whole_tests::{
    Failing, NONE_FAILS, RECORDS, ROW_DUMP, ROW_REPORT, VAR_SPECS, WORDS, dumped, first, run,
};
use run_faults::Cause;
use std::test::Fail;

const NOT_READ: &[u8] = b"relabel: read failed\n";

// The store is asked for six files, and then to write one.
#[test]
fn each_failing_read_of_a_file_is_told_before_the_input(rt: HostRuntime) -> Result<(), Fail> {
    for call in 1..7u64 {
        let failing = Failing {
            store: call,
            ..NONE_FAILS
        };
        let ran = dumped(rt.alloc(), &failing)?;
        assert!(rt;
            ran.refused(253, NOT_READ) && ran.has("out", b"old"),
            "at {call}"
        );
    }
    Ok(())
}

#[test]
fn a_failing_write_of_the_dump_is_told_in_place_of_the_report(rt: HostRuntime) -> Result<(), Fail> {
    let seventh = Failing {
        store: 7,
        ..NONE_FAILS
    };
    let ran = dumped(rt.alloc(), &seventh)?;
    assert!(rt; ran.ended(252, b"relabel: write failed\n") && ran.has("other", b"kept"));
    Ok(())
}

#[test]
fn there_is_no_eighth_call_of_the_store(rt: HostRuntime) -> Result<(), Fail> {
    let eighth = Failing {
        store: 8,
        ..NONE_FAILS
    };
    let ran = dumped(rt.alloc(), &eighth)?;
    assert!(rt; ran.ended(0, ROW_REPORT) && ran.has("out", ROW_DUMP));
    Ok(())
}

// The line of the base file is told, though the read of the next file would fail.
#[test]
fn an_earlier_refusal_is_not_hidden_by_a_failing_read(rt: HostRuntime) -> Result<(), Fail> {
    let second = Failing {
        store: 2,
        ..NONE_FAILS
    };
    let ran = run(rt.alloc(), WORDS, &[("fc", b"/a")], RECORDS, &second)?;
    assert!(rt; ran.refused(255, b"relabel: fc: line 1: missing context\n"));
    Ok(())
}

// The records are nine pieces; the tenth call finds the end.
#[test]
fn each_failing_read_of_the_input_is_told(rt: HostRuntime) -> Result<(), Fail> {
    for call in 1..11u64 {
        let failing = Failing {
            input: call,
            ..NONE_FAILS
        };
        assert!(rt;
            first(rt.alloc(), &failing)?.ended(253, NOT_READ),
            "at {call}"
        );
    }
    Ok(())
}

/// The report is ten pieces: a write that fails, and what stands before it.
const FRONTS: &[(u64, &[u8])] = &[
    (1, b""),
    (2, b"Would rela"),
    (3, b"Would relabel /etc/p"),
    (4, b"Would relabel /etc/passwd from"),
    (5, b"Would relabel /etc/passwd from system_u:"),
    (6, b"Would relabel /etc/passwd from system_u:object_r:e"),
    (
        7,
        b"Would relabel /etc/passwd from system_u:object_r:etc_t:s0 to",
    ),
    (
        8,
        b"Would relabel /etc/passwd from system_u:object_r:etc_t:s0 to system_u:",
    ),
    (
        9,
        b"Would relabel /etc/passwd from system_u:object_r:etc_t:s0 to system_u:object_r:p",
    ),
    (
        10,
        b"Would relabel /etc/passwd from system_u:object_r:etc_t:s0 to \
            system_u:object_r:passwd_file",
    ),
];

#[test]
fn each_failing_write_of_the_report_leaves_a_front_of_it(rt: HostRuntime) -> Result<(), Fail> {
    for (call, front) in FRONTS {
        let failing = Failing {
            out: *call,
            ..NONE_FAILS
        };
        assert!(rt;
            first(rt.alloc(), &failing)?.ended(252, *front),
            "at {call}"
        );
    }
    Ok(())
}

#[test]
fn a_dump_stands_where_the_report_is_not_written(rt: HostRuntime) -> Result<(), Fail> {
    let first = Failing {
        out: 1,
        ..NONE_FAILS
    };
    let ran = dumped(rt.alloc(), &first)?;
    assert!(rt; ran.ended(252, b"") && ran.has("out", ROW_DUMP));
    Ok(())
}

#[test]
fn a_failing_write_of_a_fault_line_changes_nothing_else(rt: HostRuntime) -> Result<(), Fail> {
    let first = Failing {
        out: 1,
        ..NONE_FAILS
    };
    let ran = run(rt.alloc(), &["setfiles"], &[], RECORDS, &first)?;
    assert!(rt; ran.refused(255, b""));
    assert!(rt; matches!(ran.outcome.cause, Cause::Usage { index: 1, .. }));
    Ok(())
}

/// Base files that are accepted, at the limits of groups and of positions.
const ACCEPTED: &[&[u8]] = &[
    b"/((((((((((((((((((((((((((((((((((((((((((((((((((a))))))))))))))))))))))))))))))))))))))))\
        )))))))))) <<none>>",
    b"(.{50}){40} <<none>>",
];

#[test]
fn patterns_at_their_limits_are_accepted(rt: HostRuntime) -> Result<(), Fail> {
    for specs in ACCEPTED {
        let ran = run(rt.alloc(), WORDS, &[("fc", *specs)], b"", &NONE_FAILS)?;
        assert!(rt;
            matches!(ran.outcome.cause, Cause::WalkErrors { count: 1 }),
            "at {specs:?}"
        );
    }
    Ok(())
}

#[test]
fn a_section_without_attributes_is_accepted(rt: HostRuntime) -> Result<(), Fail> {
    let words = &["restorecon", "-n", "-S", "fc", "-K", "k", "/srv/b"];
    let files: &[(&str, &[u8])] = &[("fc", VAR_SPECS), ("k", b"# file: a")];
    let ran = run(rt.alloc(), words, files, b"d 1 2 ? /srv/b\0", &NONE_FAILS)?;
    assert!(rt; ran.ended(0, b""));
    Ok(())
}
