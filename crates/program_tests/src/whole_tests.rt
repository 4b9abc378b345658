ghost use Rattle.std.specs.Prelude.{◌<◌, ◌^◌, IfOk, length};

use input_output::{MemSink, MemSource, MemStore};
use label_base::{Bytes, OutOfMemory, Row};
use relabel_commands::{plain, top};
use run_faults::{Cause, Outcome};
use std::alloc::Global;
use std::sync::Wait;
use std::test::Fail;
use std::thread::Threads;

pub(crate) const WORDS: &[&str] = &["setfiles", "-n", "-v", "-F", "fc", "/"];

pub(crate) const TYPES: &str = "/etc/selinux/targeted/contexts/customizable_types";

pub(crate) const SPECS: &[u8] =
    b"/ -d system_u:object_r:root_t:s0\n/etc/passwd system_u:object_r:passwd_file_t:s0\n";

pub(crate) const RECORDS: &[u8] =
    b"d 2049 2 system_u:object_r:root_t:s0 /\0f 2049 131 system_u:object_r:etc_t:s0 /etc/passwd\0";

const REPORT: &[u8] = b"Would relabel /etc/passwd from system_u:object_r:etc_t:s0 to \
        system_u:object_r:passwd_file_t:s0\n";

/// The calls that fail: 0 for none.
#[derive(Clone, Copy, Debug)]
pub(crate) struct Failing {
    pub(crate) store: u64,
    pub(crate) input: u64,
    pub(crate) out: u64,
}

pub(crate) const NONE_FAILS: Failing = Failing {
    store: 0,
    input: 0,
    out: 0,
};

/// What a run ended with, what it left in the store and wrote, and whether it left the input as it
/// was.
#[derive(Drop)]
pub(crate) struct Ran {
    pub(crate) outcome: Outcome,
    store: MemStore,
    out: MemSink,
    is_unread: bool,
}

impl Ran {
    pub(crate) fn ended(&self, status: u8, text: &[u8]) -> bool {
        self.outcome.status == status && self.out.written() == text
    }

    pub(crate) fn refused(&self, status: u8, text: &[u8]) -> bool {
        self.ended(status, text) && self.is_unread
    }

    pub(crate) fn has(&self, name: &str, text: &[u8]) -> bool {
        self.store.file(name) == Some(text)
    }

    pub(crate) fn lacks(&self, name: &str) -> bool {
        self.store.file(name).is_none()
    }

    pub(crate) fn report(&self) -> &[u8] {
        self.out.written()
    }

    /// What the file of `-o` has.
    pub(crate) fn dump(&self) -> &[u8] {
        match self.store.file("out") {
            Some(dump) => dump,
            None => b"",
        }
    }
}

fn failing_at(alloc: Global, number: u64) -> Result<Row<u64>, OutOfMemory> {
    let mut numbers = Row::new(alloc);
    if number > 0 {
        numbers.push(number)?;
    }
    Ok(numbers)
}

fn words_of(alloc: Global, words: &[&str]) -> Result<Vec<String>, OutOfMemory>
    ensures { IfOk result (λ made. length made.items < 2 ^ 31) }
{
    let mut made = Vec::new(alloc);
    'words: for word in words {
        made.push(String::from_str(alloc, word)?)?;
    }
    if made.len() >= 1 << 31 {
        return Err(OutOfMemory);
    }
    Ok(made)
}

fn store_of(alloc: Global, files: &[(&str, &[u8])], failing: u64) -> Result<MemStore, OutOfMemory> {
    let mut store = MemStore::new(alloc, failing_at(alloc, failing)?);
    'files: for file in files {
        store.put(alloc, file.0, file.1)?;
    }
    Ok(store)
}

fn input_of(alloc: Global, records: &[u8], failing: u64) -> Result<MemSource, OutOfMemory> {
    let bytes = Bytes::copy_of(alloc, records)?;
    Ok(MemSource::new(bytes, 10, failing_at(alloc, failing)?))
}

pub(crate) fn run(
    alloc: Global,
    words: &[&str],
    files: &[(&str, &[u8])],
    records: &[u8],
    failing: &Failing,
) -> Result<Ran, OutOfMemory> {
    let mut store = store_of(alloc, files, failing.store)?;
    let mut input = input_of(alloc, records, failing.input)?;
    let mut out = MemSink::new(alloc, 10, failing_at(alloc, failing.out)?);
    let words = words_of(alloc, words)?;
    let outcome = plain(alloc, words.as_slice(), &mut store, &mut input, &mut out);
    let is_unread = input.left() == records;
    Ok(Ran {
        outcome,
        store,
        out,
        is_unread,
    })
}

/// A run by the top call, with as many workers as the words ask for.
pub(crate) fn run_by<R: Threads + Wait + Sync>(
    rt: &R,
    alloc: Global,
    words: &[&str],
    files: &[(&str, &[u8])],
    records: &[u8],
) -> Result<Ran, OutOfMemory> {
    let mut store = store_of(alloc, files, 0)?;
    let mut input = input_of(alloc, records, 0)?;
    let mut out = MemSink::new(alloc, 1000, Row::new(alloc));
    let words = words_of(alloc, words)?;
    let outcome = top(
        rt,
        alloc,
        words.as_slice(),
        4,
        &mut store,
        &mut input,
        &mut out,
    );
    let is_unread = input.left() == records;
    Ok(Ran {
        outcome,
        store,
        out,
        is_unread,
    })
}

// A run of the first example with one of its calls failing.
pub(crate) fn first(alloc: Global, failing: &Failing) -> Result<Ran, OutOfMemory> {
    run(alloc, WORDS, &[("fc", SPECS)], RECORDS, failing)
}

/// Words that are refused, and what stands behind `relabel: usage: word `.
const REFUSED_WORDS: &[(&[&str], &[u8])] = &[
    (
        &["audit", "rep", "matchpathcon", "/a"],
        b"relabel: usage: word 2: unknown tool\n",
    ),
    (&["audit"], b"relabel: usage: word 1: missing operand\n"),
    (
        &["audit", "", "setfiles"],
        b"relabel: usage: word 1: bad path\n",
    ),
    (
        &["audit", "--", "setfiles", "-n", "-q", "fc", "/"],
        b"relabel: usage: word 4: unknown option\n",
    ),
    (&[], b"relabel: usage: word 0: unknown tool\n"),
    (&["setfile"], b"relabel: usage: word 0: unknown tool\n"),
    (
        &["setfiles", "-n", "-q", "fc", "/"],
        b"relabel: usage: word 2: unknown option\n",
    ),
    (
        &["setfiles", "-ne"],
        b"relabel: usage: word 1: missing value\n",
    ),
    (
        &["setfiles", "-n", "-T", "65", "fc", "/"],
        b"relabel: usage: word 3: bad number\n",
    ),
    (
        &["restorecon", "-n", "etc"],
        b"relabel: usage: word 2: bad path\n",
    ),
    (
        &["matchpathcon", "-m", "door", "/"],
        b"relabel: usage: word 2: bad type\n",
    ),
    (
        &["setfiles", "-n", "fc"],
        b"relabel: usage: word 3: missing operand\n",
    ),
    (
        &["setfiles", "fc", "/"],
        b"relabel: usage: word 3: needs -n or -o\n",
    ),
    (
        &["sample", "1000001"],
        b"relabel: usage: word 1: bad number\n",
    ),
    (
        &["genhomedircon", "-t", "tpl", "users", "-o", "out"],
        b"relabel: usage: word 3: unknown option\n",
    ),
    (
        &["genhomedircon", "-u", "users"],
        b"relabel: usage: word 3: missing operand\n",
    ),
    (
        &["genhomedircon", "-t", "tpl", "-u", "users"],
        b"relabel: usage: word 5: needs -n or -o\n",
    ),
];

#[test]
fn each_refusal_of_words_is_told_before_all_else(rt: HostRuntime) -> Result<(), Fail> {
    for (words, line) in REFUSED_WORDS {
        let ran = run(rt.alloc(), *words, &[], RECORDS, &NONE_FAILS)?;
        assert!(rt; ran.refused(255, *line), "at {line:?}");
    }
    Ok(())
}

/// Base files that are refused, and their line.
const REFUSED: &[(&[u8], &[u8])] = &[
    (
        b"[ system_u:object_r:a_t:s0\n",
        b"relabel: fc: line 1: pattern: syntax at 0\n",
    ),
    (
        b"# x\na{2,1} system_u:object_r:a_t:s0\n",
        b"relabel: fc: line 2: pattern: syntax at 1\n",
    ),
    (
        b"# x\n# y\n(?=x) system_u:object_r:a_t:s0\n",
        b"relabel: fc: line 3: pattern: unsupported at 0\n",
    ),
    (
        b"/a <<none>>\n/((((((((((((((((((((((((((((((((((((((((((((((((((( <<none>>",
        b"relabel: fc: line 2: pattern: too deep at 51\n",
    ),
    (
        b".{2001} <<none>>",
        b"relabel: fc: line 1: pattern: too many positions\n",
    ),
    (b"/a", b"relabel: fc: line 1: missing context\n"),
    (
        b"(.{50}){41} <<none>>",
        b"relabel: fc: line 1: pattern: too many positions\n",
    ),
    (b"/a -x u:r:a_t", b"relabel: fc: line 1: bad type\n"),
    (b"/a u:r", b"relabel: fc: line 1: bad context\n"),
];

#[test]
fn each_refused_base_file_is_told_before_the_input(rt: HostRuntime) -> Result<(), Fail> {
    for (specs, line) in REFUSED {
        let ran = run(rt.alloc(), WORDS, &[("fc", *specs)], RECORDS, &NONE_FAILS)?;
        assert!(rt; ran.refused(255, *line), "at {line:?}");
    }
    Ok(())
}

/// Files that are refused, and their line.
const REFUSED_FILES: &[(&[(&str, &[u8])], &[u8])] = &[
    (&[], b"relabel: fc: not found\n"),
    (
        &[("fc", SPECS), ("fc.subs", b"/a\n")],
        b"relabel: fc.subs: line 1: not a substitution\n",
    ),
    (
        &[("fc", SPECS), ("fc.subs", b"/ /b\n")],
        b"relabel: fc.subs: line 1: not a substitution\n",
    ),
    (
        &[("fc", SPECS), ("fc.subs", b"a /b\n")],
        b"relabel: fc.subs: line 1: not a substitution\n",
    ),
    (
        &[("fc", SPECS), ("fc.subs_dist", b"/a /b\n/ /c\n")],
        b"relabel: fc.subs_dist: line 2: not a substitution\n",
    ),
    (
        &[("fc", SPECS), (TYPES, b"# types\nhome_t\nhome_t etc_t\n")],
        b"relabel: /etc/selinux/targeted/contexts/customizable_types: line 3: not a type\n",
    ),
];

#[test]
fn other_refused_files_are_told_before_the_input(rt: HostRuntime) -> Result<(), Fail> {
    for (files, line) in REFUSED_FILES {
        let ran = run(rt.alloc(), WORDS, *files, RECORDS, &NONE_FAILS)?;
        assert!(rt; ran.refused(255, *line), "at {line:?}");
    }
    Ok(())
}

const KEPT_WORDS: &[&str] = &["restorecon", "-S", "fc", "-K", "k", "-o", "out", "/srv/b"];

pub(crate) const VAR_SPECS: &[u8] = b"/srv/.* system_u:object_r:var_t:s0\n";

/// Files of stored digests that are refused, and their line.
const REFUSED_DUMPS: &[(&[u8], &[u8])] = &[
    (b"# file:", b"relabel: k: line 1: no section\n"),
    (b"# file: a\\8", b"relabel: k: line 1: bad name\n"),
    (
        b"# file: a\nsecurity.selinux",
        b"relabel: k: line 2: no value\n",
    ),
    (
        b"# file: a\nsecurity.sehash=0xA",
        b"relabel: k: line 2: bad value\n",
    ),
];

#[test]
fn each_refused_dump_is_told_before_the_input(rt: HostRuntime) -> Result<(), Fail> {
    for (dump, line) in REFUSED_DUMPS {
        let files: &[(&str, &[u8])] = &[("fc", VAR_SPECS), ("k", *dump)];
        let ran = run(rt.alloc(), KEPT_WORDS, files, RECORDS, &NONE_FAILS)?;
        assert!(rt; ran.refused(255, *line), "at {line:?}");
    }
    Ok(())
}

#[test]
fn stored_digests_are_read_last_and_must_be_there(rt: HostRuntime) -> Result<(), Fail> {
    let files: &[(&str, &[u8])] = &[("fc", VAR_SPECS)];
    let ran = run(rt.alloc(), KEPT_WORDS, files, RECORDS, &NONE_FAILS)?;
    assert!(rt; ran.refused(255, b"relabel: k: not found\n") && ran.lacks("out"));
    Ok(())
}

const ROW_WORDS: &[&str] = &["restorecon", "-v", "-S", "fc", "-o", "out", "/srv/b"];

pub(crate) const ROW_RECORDS: &[u8] = b"f 1 21 unconfined_u:object_r:tmp_t:s0-s0:c0.c1023 /srv/b\0";

pub(crate) const ROW_REPORT: &[u8] =
    b"Relabeled /srv/b from unconfined_u:object_r:tmp_t:s0-s0:c0.c1023 to \
        unconfined_u:object_r:var_t:s0-s0:c0.c1023\n";

pub(crate) const ROW_DUMP: &[u8] =
    b"# file: /srv/b\nsecurity.selinux=\"unconfined_u:object_r:var_t:s0-s0:c0.c1023\"\n\n";

// A run that writes a dump over an old one, beside another file.
pub(crate) fn dumped(alloc: Global, failing: &Failing) -> Result<Ran, OutOfMemory> {
    let files: &[(&str, &[u8])] = &[("fc", VAR_SPECS), ("out", b"old"), ("other", b"kept")];
    run(alloc, ROW_WORDS, files, ROW_RECORDS, failing)
}

#[test]
fn a_dump_is_written_to_its_file_alone(rt: HostRuntime) -> Result<(), Fail> {
    let ran = dumped(rt.alloc(), &NONE_FAILS)?;
    assert!(rt; ran.ended(0, ROW_REPORT) && ran.has("out", ROW_DUMP));
    assert!(rt; ran.has("other", b"kept"));
    Ok(())
}

#[test]
fn a_dry_run_writes_an_empty_dump(rt: HostRuntime) -> Result<(), Fail> {
    let words = &["restorecon", "-n", "-S", "fc", "-o", "out", "/srv/b"];
    let files: &[(&str, &[u8])] = &[("fc", VAR_SPECS), ("out", b"old")];
    let ran = run(rt.alloc(), words, files, ROW_RECORDS, &NONE_FAILS)?;
    assert!(rt; ran.ended(0, b"") && ran.has("out", b""));
    Ok(())
}

#[test]
fn labels_that_stay_give_an_empty_dump(rt: HostRuntime) -> Result<(), Fail> {
    let words = &["restorecon", "-R", "-v", "-S", "fc", "-o", "d1", "/srv"];
    let files: &[(&str, &[u8])] = &[("fc", b"/srv(/.*)? system_u:object_r:var_t:s0\n")];
    let records =
        b"d 1 30 system_u:object_r:var_t:s0 /srv\0f 1 32 system_u:object_r:var_t:s0 /srv/f\0";
    let ran = run(rt.alloc(), words, files, records, &NONE_FAILS)?;
    assert!(rt; ran.ended(0, b"") && ran.has("d1", b""));
    Ok(())
}

#[test]
fn types_are_read_last(rt: HostRuntime) -> Result<(), Fail> {
    let sixth = Failing {
        store: 6,
        ..NONE_FAILS
    };
    let ran = first(rt.alloc(), &sixth)?;
    assert!(rt; ran.refused(253, b"relabel: read failed\n"));
    Ok(())
}

const LOOKUP_SPECS: &[u8] = b"/etc/foo\\.conf u:r:foo_t:s0\n/etc/.* u:r:etc_t:s0\n";

// Matchpathcon, of which only the first five reads of the store may fail.
#[test]
fn a_lookup_reads_no_types_and_no_records(rt: HostRuntime) -> Result<(), Fail> {
    let words = &["matchpathcon", "-f", "fc", "/etc/foo.conf", "/x"];
    let files: &[(&str, &[u8])] = &[("fc", LOOKUP_SPECS), (TYPES, b"not a type\n")];
    let later = Failing {
        store: 6,
        input: 1,
        ..NONE_FAILS
    };
    let ran = run(rt.alloc(), words, files, RECORDS, &later)?;
    let lines = b"/etc/foo.conf\tu:r:foo_t:s0\n/x\t<<none>>\n".as_slice();
    assert!(rt; ran.refused(0, lines));
    Ok(())
}

const HOMES_WORDS: &[&str] = &[
    "genhomedircon",
    "-t",
    "tpl",
    "-u",
    "users",
    "-o",
    "fc.homedirs",
];

const USERS: &[u8] = b"ana\tuser\t/home/ana\nb.o\tstaff\t/home/b.o\n";

const TEMPLATE: &[u8] = b"# homes
HOME_ROOT\t-d\tsystem_u:object_r:home_root_t:s0
HOME_DIR\t-d\tunconfined_u:object_r:ROLE_home_dir_t:s0
HOME_DIR/.+\tunconfined_u:object_r:ROLE_home_t:s0
/srv\tsystem_u:object_r:srv_t:s0
";

pub(crate) const HOMES: &[u8] = b"/home\t-d\tsystem_u:object_r:home_root_t:s0
/home/ana\t-d\tunconfined_u:object_r:user_home_dir_t:s0
/home/b\\.o\t-d\tunconfined_u:object_r:staff_home_dir_t:s0
/home/ana/.+\tunconfined_u:object_r:user_home_t:s0
/home/b\\.o/.+\tunconfined_u:object_r:staff_home_t:s0
";

#[test]
fn a_file_of_homes_is_made(rt: HostRuntime) -> Result<(), Fail> {
    let files: &[(&str, &[u8])] = &[("users", USERS), ("tpl", TEMPLATE)];
    let ran = run(rt.alloc(), HOMES_WORDS, files, RECORDS, &NONE_FAILS)?;
    assert!(rt; ran.refused(0, b"") && ran.has("fc.homedirs", HOMES));
    Ok(())
}

/// Templates and users that are refused, and their line.
const REFUSED_HOMES: &[(&[(&str, &[u8])], &[u8])] = &[
    (&[("users", USERS)], b"relabel: tpl: not found\n"),
    (
        &[
            ("tpl", b"# x\nHOME_DIR[\tunconfined_u:object_r:x_t:s0\n"),
            ("users", USERS),
        ],
        b"relabel: tpl: line 2: pattern: syntax at 9\n",
    ),
    (
        &[("tpl", TEMPLATE), ("users", b"ana user /root\n")],
        b"relabel: users: line 1: not a user\n",
    ),
];

#[test]
fn refused_homes_are_not_written(rt: HostRuntime) -> Result<(), Fail> {
    for (files, line) in REFUSED_HOMES {
        let ran = run(rt.alloc(), HOMES_WORDS, *files, RECORDS, &NONE_FAILS)?;
        assert!(rt;
            ran.refused(255, *line) && ran.lacks("fc.homedirs"),
            "at {line:?}"
        );
    }
    Ok(())
}

// A sample looks at no file and no record: no call of the store or the input may fail.
#[test]
fn a_sample_is_walked_twice(rt: HostRuntime) -> Result<(), Fail> {
    let first = Failing {
        store: 1,
        input: 1,
        ..NONE_FAILS
    };
    for (count, lines) in [
        (
            "0",
            b"entries 1\nrelabelled 0\nconflicts 0\nerrors 0\nskipped again 1\n\
                relabelled again 0\n"
                .as_slice(),
        ),
        (
            "7",
            b"entries 15\nrelabelled 2\nconflicts 3\nerrors 0\nskipped again 1\n\
                relabelled again 0\n",
        ),
        (
            "1000",
            b"entries 1101\nrelabelled 333\nconflicts 500\nerrors 0\nskipped again 1\n\
            relabelled again 0\n",
        ),
    ] {
        let ran = run(rt.alloc(), &["sample", count], &[], RECORDS, &first)?;
        assert!(rt; ran.refused(0, lines), "at {count}");
    }
    Ok(())
}

#[test]
fn a_lookup_compares_with_the_records(rt: HostRuntime) -> Result<(), Fail> {
    let words = &[
        "matchpathcon",
        "-V",
        "-f",
        "fc",
        "/srv/a",
        "/srv/b",
        "/srv/c",
    ];
    let files: &[(&str, &[u8])] = &[("fc", VAR_SPECS)];
    let records =
        b"f 1 60 unconfined_u:object_r:var_t:s0 /srv/a\0f 1 61 system_u:object_r:tmp_t:s0 /srv/b\0";
    let ran = run(rt.alloc(), words, files, records, &NONE_FAILS)?;
    let lines = b"/srv/a verified.\n\
            /srv/b has context system_u:object_r:tmp_t:s0, should be system_u:object_r:var_t:s0\n\
            /srv/c has no record\n"
        .as_slice();
    assert!(rt; ran.ended(1, lines));
    assert!(rt; matches!(&ran.outcome.cause, Cause::Differs { count: 2 }));
    Ok(())
}

#[test]
fn options_may_stand_in_one_word(rt: HostRuntime) -> Result<(), Fail> {
    let words = &["setfiles", "-nvFT2", "fc", "/"];
    let ran = run(rt.alloc(), words, &[("fc", SPECS)], RECORDS, &NONE_FAILS)?;
    assert!(rt; ran.ended(0, REPORT));
    Ok(())
}

/// Words of runs that meet an error, and their status.
const ERRORS: &[(&[&str], u8)] = &[
    (&["setfiles", "-n", "fc", "/etc"], 255),
    (&["setfiles", "-n", "-C", "fc", "/etc"], 1),
];

#[test]
fn errors_of_the_walk_may_be_soft(rt: HostRuntime) -> Result<(), Fail> {
    for (words, status) in ERRORS {
        let ran = run(
            rt.alloc(),
            *words,
            &[("fc", b"# nothing\n")],
            b"",
            &NONE_FAILS,
        )?;
        assert!(rt; ran.ended(*status, b"no record for /etc\n"), "at {status}");
        assert!(rt; matches!(&ran.outcome.cause, Cause::WalkErrors { count: 1 }));
    }
    Ok(())
}

/// Inputs that are refused, and their line.
const REFUSED_RECORDS: &[(&[u8], &[u8])] = &[
    (
        b"f 1 5 system_u:object_r:a_t:s0 /a",
        b"relabel: record 1: not ended\n",
    ),
    (
        b"Q 1 5 system_u:object_r:a_t:s0 /a\0",
        b"relabel: record 1: bad type\n",
    ),
    (
        b"f 18446744073709551616 5 system_u:object_r:a_t:s0 /a\0",
        b"relabel: record 1: bad number\n",
    ),
    (
        b"d 1 2 ? /\0f 1 x ? /a\0",
        b"relabel: record 2: bad number\n",
    ),
    (b"f 1 5 /a\0", b"relabel: record 1: missing field\n"),
    (b"f 1 5 ? \0", b"relabel: record 1: path: empty\n"),
    (
        b"f 1 5 system_u:object_r:a_t:s0 a\0",
        b"relabel: record 1: path: not absolute\n",
    ),
    (
        b"f 1 5 system_u:object_r:a_t:s0 /a/../b\0",
        b"relabel: record 1: path: dot part\n",
    ),
    (
        b"f 1 5 system_u:object_r:a_t:s0 /a\0\
        f 1 5 system_u:object_r:a_t:s0 //a/\0\
        f 1 5 system_u:object_r:b_t:s0 /a\0",
        b"relabel: records 1 and 3: one path, two entries\n",
    ),
];

#[test]
fn each_refused_input_is_told(rt: HostRuntime) -> Result<(), Fail> {
    for (records, line) in REFUSED_RECORDS {
        let ran = run(rt.alloc(), WORDS, &[("fc", SPECS)], *records, &NONE_FAILS)?;
        assert!(rt; ran.ended(255, *line), "at {line:?}");
    }
    Ok(())
}

fn long_record(alloc: Global) -> Result<Bytes, OutOfMemory> {
    let mut record = Bytes::copy_of(alloc, b"f 1 5 system_u:object_r:a_t:s0 /")?;
    record.push([b'x'; 4095].as_slice())?;
    record.push(b"\0")?;
    Ok(record)
}

#[test]
fn a_path_of_a_record_past_its_limit(rt: HostRuntime) -> Result<(), Fail> {
    let records = long_record(rt.alloc())?;
    let files: &[(&str, &[u8])] = &[("fc", SPECS)];
    let ran = run(rt.alloc(), WORDS, files, records.as_slice(), &NONE_FAILS)?;
    assert!(rt; ran.ended(255, b"relabel: record 1: path: too long\n"));
    Ok(())
}

#[test]
fn records_past_their_limit(rt: HostRuntime) -> Result<(), Fail> {
    let files: &[(&str, &[u8])] = &[("fc", SPECS)];
    let records = repeated(rt.alloc(), b"d 1 2 ? /\0", 2_097_153)?;
    let ran = run(rt.alloc(), WORDS, files, records.as_slice(), &NONE_FAILS)?;
    assert!(rt; ran.ended(255, b"relabel: limit: records\n"));
    Ok(())
}

fn repeated(alloc: Global, line: &[u8], count: u32) -> Result<Bytes, OutOfMemory> {
    let mut text = Bytes::new(alloc);
    'lines: for _ in 0..count {
        text.push(line)?;
    }
    Ok(text)
}

// A run over so many specifications in the base file, and one of the local file.
fn with_specs(alloc: Global, count: u32) -> Result<Ran, OutOfMemory> {
    let base = repeated(alloc, b"/.* system_u:object_r:root_t:s0\n", count)?;
    let files: &[(&str, &[u8])] = &[
        ("fc", base.as_slice()),
        ("fc.local", b"/etc/.* system_u:object_r:passwd_file_t:s0\n"),
    ];
    run(alloc, WORDS, files, RECORDS, &NONE_FAILS)
}

#[test]
fn specifications_of_three_files_are_counted_together(rt: HostRuntime) -> Result<(), Fail> {
    let ran = with_specs(rt.alloc(), 65_536)?;
    assert!(rt; ran.refused(255, b"relabel: limit: specifications\n"));
    Ok(())
}

#[test]
fn as_many_specifications_as_there_may_be(rt: HostRuntime) -> Result<(), Fail> {
    assert!(rt; with_specs(rt.alloc(), 65_535)?.ended(0, REPORT));
    Ok(())
}

const RUN_SPECS: &[u8] = b"/var/run(/.*)? system_u:object_r:var_run_t:s0\n";

// A run with so many empty lines in the first file of substitutions.
fn with_feeds(alloc: Global, words: &[&str], count: u32) -> Result<Ran, OutOfMemory> {
    let feeds = repeated(alloc, b"\n", count)?;
    let files: &[(&str, &[u8])] = &[
        ("fc", RUN_SPECS),
        ("fc.subs", feeds.as_slice()),
        ("fc.subs_dist", b"/run /var/run\n"),
    ];
    run(alloc, words, files, RECORDS, &NONE_FAILS)
}

const RUN_WORDS: &[&str] = &[
    "matchpathcon",
    "-n",
    "-f",
    "fc",
    "/run/x",
    "/run",
    "/runner",
    "/myweb/a",
];

#[test]
fn a_substitution_file_past_its_limit(rt: HostRuntime) -> Result<(), Fail> {
    for words in [WORDS, RUN_WORDS] {
        let ran = with_feeds(rt.alloc(), words, 1_048_577)?;
        assert!(rt; ran.refused(255, b"relabel: limit: bytes of fc.subs\n"));
    }
    Ok(())
}

#[test]
fn a_substitution_file_at_its_limit(rt: HostRuntime) -> Result<(), Fail> {
    let lines = b"system_u:object_r:var_run_t:s0\nsystem_u:object_r:var_run_t:s0\n\
        <<none>>\n<<none>>\n"
        .as_slice();
    let ran = with_feeds(rt.alloc(), RUN_WORDS, 1_048_576)?;
    assert!(rt; ran.refused(0, lines));
    Ok(())
}

// The status of the first example by the top call with so many workers, or none where it wrote
// something else. All that is left is handed to the sink at once, so there is no second call, which
// would fail.
fn by_top<R: Threads + Wait + Sync>(
    rt: &R,
    alloc: Global,
    workers: &str,
) -> Result<Option<u8>, OutOfMemory> {
    let mut store = store_of(alloc, &[("fc", SPECS)], 0)?;
    let mut input = input_of(alloc, RECORDS, 0)?;
    let mut out = MemSink::new(alloc, 1000, failing_at(alloc, 2)?);
    let words = words_of(
        alloc,
        &["setfiles", "-n", "-v", "-F", "-T", workers, "fc", "/"],
    )?;
    let outcome = top(
        rt,
        alloc,
        words.as_slice(),
        4,
        &mut store,
        &mut input,
        &mut out,
    );
    if out.written() == REPORT {
        return Ok(Some(outcome.status));
    }
    Ok(None)
}

#[test]
fn the_top_call_answers_as_the_plain_one(rt: HostRuntime) -> Result<(), Fail> {
    assert_eq!(rt; by_top(&rt, rt.alloc(), "1")?, Some(0));
    Ok(())
}

#[test]
fn the_top_call_answers_the_same_by_two_workers(rt: HostRuntime) -> Result<(), Fail> {
    assert_eq!(rt; by_top(&rt, rt.alloc(), "2")?, Some(0));
    Ok(())
}

#[test]
fn the_top_call_answers_the_same_by_as_many_workers_as_cores(rt: HostRuntime) -> Result<(), Fail> {
    assert_eq!(rt; by_top(&rt, rt.alloc(), "0")?, Some(0));
    Ok(())
}
