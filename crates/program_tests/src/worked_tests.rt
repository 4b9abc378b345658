use crate::whole_tests::{HOMES, NONE_FAILS, RECORDS, Ran, SPECS, TYPES, VAR_SPECS, run, run_by};
use label_base::{Bytes, OutOfMemory};
use std::alloc::Global;
use std::sync::Wait;
use std::test::Fail;
use std::thread::Threads;

/// The numbers of workers by which each worked run of a walk is made.
const WORKERS: &[&str] = &["2", "4", "64"];

/// A run and its end.
#[derive(Clone, Copy)]
pub(crate) struct Case {
    /// The words, parted by spaces.
    pub(crate) words: &'static str,
    pub(crate) files: &'static [(&'static str, &'static [u8])],
    /// The records, none where the input is left unread.
    pub(crate) input: Option<&'static [u8]>,
    pub(crate) status: u8,
    pub(crate) text: &'static [u8],
    /// The file that is written.
    pub(crate) written: Option<(&'static str, &'static [u8])>,
}

fn words_of<'a>(alloc: Global, line: &'a str) -> Result<Vec<&'a str>, OutOfMemory> {
    let mut words = Vec::new(alloc);
    'words: for word in line.split(' ') {
        words.push(word)?;
    }
    Ok(words)
}

// The words, with a number of workers behind the tool's name.
fn words_by<'a>(
    alloc: Global,
    line: &'a str,
    workers: &'a str,
) -> Result<Vec<&'a str>, OutOfMemory> {
    let mut words = Vec::new(alloc);
    'words: for word in line.split(' ') {
        words.push(word)?;
        if words.len() == 1 {
            words.push("-T")?;
            words.push(workers)?;
        }
    }
    Ok(words)
}

// Where the input is to be left unread, it has records.
fn run_case(alloc: Global, case: &Case) -> Result<Ran, OutOfMemory> {
    let words = words_of(alloc, case.words)?;
    let input = match case.input {
        Some(input) => input,
        None => RECORDS,
    };
    run(alloc, words.as_slice(), case.files, input, &NONE_FAILS)
}

fn is_end(case: &Case, ran: &Ran) -> bool {
    let is_written = match case.written {
        Some((name, text)) => ran.has(name, text),
        None => true,
    };
    match case.input {
        Some(_) => is_written && ran.ended(case.status, case.text),
        None => is_written && ran.refused(case.status, case.text),
    }
}

pub(crate) fn ends_so(alloc: Global, case: &Case) -> Result<bool, OutOfMemory> {
    let ran = run_case(alloc, case)?;
    Ok(is_end(case, &ran))
}

/// The index of the first case that ends otherwise.
pub(crate) fn first_other(alloc: Global, cases: &[Case]) -> Result<Option<usize>, OutOfMemory> {
    for (i, case) in cases.iter().enumerate() {
        if !ends_so(alloc, case)? {
            return Ok(Some(i));
        }
    }
    Ok(None)
}

/// A run by so many workers, whether or not it ends as the case says.
pub(crate) fn ends_so_by<R: Threads + Wait + Sync>(
    rt: &R,
    alloc: Global,
    case: &Case,
    workers: &str,
) -> Result<bool, OutOfMemory> {
    let words = words_by(alloc, case.words, workers)?;
    let input = match case.input {
        Some(input) => input,
        None => RECORDS,
    };
    let ran = run_by(rt, alloc, words.as_slice(), case.files, input)?;
    Ok(is_end(case, &ran))
}

/// Whether a walk ends as the case says with each of the numbers of workers.
fn ends_so_by_all<R: Threads + Wait + Sync>(
    rt: &R,
    alloc: Global,
    case: &Case,
) -> Result<bool, OutOfMemory> {
    for workers in WORKERS {
        if !ends_so_by(rt, alloc, case, workers)? {
            return Ok(false);
        }
    }
    Ok(true)
}

/// The index of the first walk that ends otherwise with some number of workers.
pub(crate) fn first_other_by<R: Threads + Wait + Sync>(
    rt: &R,
    alloc: Global,
    cases: &[Case],
) -> Result<Option<usize>, OutOfMemory> {
    for (i, case) in cases.iter().enumerate() {
        if !ends_so_by_all(rt, alloc, case)? {
            return Ok(Some(i));
        }
    }
    Ok(None)
}

// ---- look-ups

const KIND_SPECS: &[u8] = b"\
    /x/.* -l system_u:object_r:link_t:s0\n\
    /x/.* -d system_u:object_r:dir_t:s0\n";

/// An exact name before the local file, an escaped name, two stages of substitution, each kind, and
/// a home whose point is escaped.
const LOOK_UPS: &[Case] = &[
    Case {
        words: "matchpathcon -f fc -m file /usr/bin/ls /usr/bin/cat /usr/lib /usr",
        files: &[
            (
                "fc",
                b"/usr/.* system_u:object_r:usr_t:s0\n\
                /usr/bin/ls -- system_u:object_r:ls_exec_t:s0\n",
            ),
            ("fc.local", b"/usr/bin/.* system_u:object_r:bin_t:s0\n"),
        ],
        input: None,
        status: 0,
        text: b"/usr/bin/ls\tsystem_u:object_r:ls_exec_t:s0\n\
            /usr/bin/cat\tsystem_u:object_r:bin_t:s0\n\
            /usr/lib\tsystem_u:object_r:usr_t:s0\n\
            /usr\t<<none>>\n",
        written: None,
    },
    Case {
        words: "matchpathcon -n -f fc /etc/foo.conf /etc/fooxconf",
        files: &[(
            "fc",
            b"/etc/foo\\.conf system_u:object_r:foo_conf_t:s0\n\
                /etc/.* system_u:object_r:etc_t:s0\n",
        )],
        input: None,
        status: 0,
        text: b"system_u:object_r:foo_conf_t:s0\n\
            system_u:object_r:etc_t:s0\n",
        written: None,
    },
    Case {
        words: "matchpathcon -n -f fc /run/x /run /runner /myweb/a",
        files: &[
            ("fc", b"/var/run(/.*)? system_u:object_r:var_run_t:s0\n"),
            ("fc.subs", b"/myweb /run/web\n"),
            ("fc.subs_dist", b"/run /var/run\n"),
        ],
        input: None,
        status: 0,
        text: b"system_u:object_r:var_run_t:s0\n\
            system_u:object_r:var_run_t:s0\n\
            <<none>>\n\
            system_u:object_r:var_run_t:s0\n",
        written: None,
    },
    Case {
        words: "matchpathcon -n -f fc -m lnk_file /x/a",
        files: &[("fc", KIND_SPECS)],
        input: None,
        status: 0,
        text: b"system_u:object_r:link_t:s0\n",
        written: None,
    },
    Case {
        words: "matchpathcon -n -f fc -m dir /x/a",
        files: &[("fc", KIND_SPECS)],
        input: None,
        status: 0,
        text: b"system_u:object_r:dir_t:s0\n",
        written: None,
    },
    Case {
        words: "matchpathcon -n -f fc -m file /x/a",
        files: &[("fc", KIND_SPECS)],
        input: None,
        status: 0,
        text: b"<<none>>\n",
        written: None,
    },
    Case {
        words: "matchpathcon -n -f fc /x/a",
        files: &[("fc", KIND_SPECS)],
        input: None,
        status: 0,
        text: b"system_u:object_r:dir_t:s0\n",
        written: None,
    },
    Case {
        words: "matchpathcon -n -f fc /home/b.o/x",
        files: &[("fc", b"# none\n"), ("fc.homedirs", HOMES)],
        input: None,
        status: 0,
        text: b"unconfined_u:object_r:staff_home_t:s0\n",
        written: None,
    },
];

#[test]
fn the_last_match_is_told(rt: HostRuntime) -> Result<(), Fail> {
    assert_eq!(rt; first_other(rt.alloc(), LOOK_UPS)?, None);
    Ok(())
}

// ---- walks

const CUSTOMIZED: &[u8] = b"f 1 20 unconfined_u:object_r:public_content_t:s0 /srv/a\0";

/// An absent operand, customizable types, a name that is escaped, one entry given twice, the label
/// of an inode's first record, a specification that decides nothing, and a substitution with spare
/// slashes.
const WALKS: &[Case] = &[
    Case {
        words: "setfiles -n -i fc /etc",
        files: &[("fc", b"# nothing\n")],
        input: Some(b""),
        status: 0,
        text: b"",
        written: None,
    },
    Case {
        words: "restorecon -n -v -S fc /srv/a",
        files: &[(TYPES, b"public_content_t\n"), ("fc", VAR_SPECS)],
        input: Some(CUSTOMIZED),
        status: 0,
        text: b"/srv/a not reset as customized by admin to \
            unconfined_u:object_r:public_content_t:s0\n",
        written: None,
    },
    Case {
        words: "restorecon -n -v -F -S fc /srv/a",
        files: &[(TYPES, b"public_content_t\n"), ("fc", VAR_SPECS)],
        input: Some(CUSTOMIZED),
        status: 0,
        text: b"Would relabel /srv/a from unconfined_u:object_r:public_content_t:s0 to \
            system_u:object_r:var_t:s0\n",
        written: None,
    },
    Case {
        words: "restorecon -v -S fc -o out /srv/c\nd\\e",
        files: &[("fc", VAR_SPECS)],
        input: Some(b"f 1 22  /srv/c\nd\\e\0"),
        status: 0,
        text: b"Relabeled /srv/c\\012d\\134e from <no context> to system_u:object_r:var_t:s0\n",
        written: Some((
            "out",
            b"# file: /srv/c\\012d\\134e\n\
                security.selinux=\"system_u:object_r:var_t:s0\"\n\
                \n",
        )),
    },
    Case {
        words: "setfiles -n -v -F fc /",
        files: &[("fc", SPECS)],
        input: Some(
            b"d 1 2 system_u:object_r:root_t:s0 /\0\
            f 1 5 system_u:object_r:a_t:s0 /a\0\
            f 1 5 system_u:object_r:a_t:s0 //a/\0",
        ),
        status: 0,
        text: b"Warning no default label for /a\n",
        written: None,
    },
    Case {
        words: "setfiles -n -v fc /b",
        files: &[(
            "fc",
            b"/b -d system_u:object_r:dir_t:s0\n\
                /b/x system_u:object_r:q_t:s0\n",
        )],
        input: Some(
            b"f 1 10 system_u:object_r:p_t:s0 /a/x\0\
            d 1 3 system_u:object_r:dir_t:s0 /b\0\
            f 1 10 system_u:object_r:q_t:s0 /b/x\0",
        ),
        status: 0,
        text: b"Would relabel /b/x from system_u:object_r:p_t:s0 to system_u:object_r:q_t:s0\n",
        written: None,
    },
    Case {
        words: "setfiles -n -W fc /etc",
        files: &[(
            "fc",
            b"/etc(/.*)? system_u:object_r:etc_t:s0\n\
                /opt/.* -d system_u:object_r:opt_t:s0\n",
        )],
        input: Some(b"d 1 7 system_u:object_r:etc_t:s0 /etc\0"),
        status: 0,
        text: b"Warning! No matches for (/opt/.*, -d, system_u:object_r:opt_t:s0)\n",
        written: None,
    },
    Case {
        words: "setfiles -n -v -F fc /",
        files: &[
            (
                "fc",
                b"/ -d system_u:object_r:root_t:s0\n\
                /b/x system_u:object_r:new_t:s0\n",
            ),
            ("fc.subs", b"/a/ //b x\n"),
        ],
        input: Some(
            b"d 1 2 system_u:object_r:root_t:s0 /\0\
            f 1 5 system_u:object_r:old_t:s0 /a/x\0",
        ),
        status: 0,
        text: b"Would relabel /a/x from system_u:object_r:old_t:s0 to system_u:object_r:new_t:s0\n",
        written: None,
    },
];

#[test]
fn each_entry_is_told(rt: HostRuntime) -> Result<(), Fail> {
    assert_eq!(rt; first_other(rt.alloc(), WALKS)?, None);
    Ok(())
}

#[test]
fn each_entry_is_told_by_several_workers(rt: HostRuntime) -> Result<(), Fail> {
    assert_eq!(rt; first_other_by(&rt, rt.alloc(), WALKS)?, None);
    Ok(())
}

// ---- hard links

pub(crate) const LINKED_SPECS: &[u8] = b"\
    /[ab] -d system_u:object_r:dir_t:s0\n\
    /a/x system_u:object_r:a_t:s0\n\
    /b/x system_u:object_r:b_t:s0\n";

const LINKED: &[u8] = b"\
    d 1 2 system_u:object_r:dir_t:s0 /a\0\
    f 1 10 system_u:object_r:old_t:s0 /a/x\0\
    d 1 3 system_u:object_r:dir_t:s0 /b\0\
    f 1 10 system_u:object_r:old_t:s0 /b/x\0";

const CONFLICT: &[u8] = b"\
    Would relabel /a/x from system_u:object_r:old_t:s0 to system_u:object_r:a_t:s0\n\
    conflicting specifications for /a/x and /b/x, using system_u:object_r:a_t:s0.\n";

/// A first name that gets no context, and two names that are decided otherwise: a warning, an
/// error, and a soft one.
const HARD_LINKS: &[Case] = &[
    Case {
        words: "setfiles -n -v -F fc /a /b",
        files: &[(
            "fc",
            b"/[ab] -d system_u:object_r:dir_t:s0\n\
                /a/x <<none>>\n\
                /b/x system_u:object_r:b_t:s0\n",
        )],
        input: Some(LINKED),
        status: 0,
        text: b"Would relabel /b/x from system_u:object_r:old_t:s0 to system_u:object_r:b_t:s0\n",
        written: None,
    },
    Case {
        words: "setfiles -n -v -F fc /a /b",
        files: &[("fc", LINKED_SPECS)],
        input: Some(LINKED),
        status: 0,
        text: CONFLICT,
        written: None,
    },
    Case {
        words: "setfiles -n -v -F -E fc /a /b",
        files: &[("fc", LINKED_SPECS)],
        input: Some(LINKED),
        status: 255,
        text: CONFLICT,
        written: None,
    },
    Case {
        words: "setfiles -n -v -F -E -C fc /a /b",
        files: &[("fc", LINKED_SPECS)],
        input: Some(LINKED),
        status: 1,
        text: CONFLICT,
        written: None,
    },
];

#[test]
fn names_of_one_inode_have_one_label(rt: HostRuntime) -> Result<(), Fail> {
    assert_eq!(rt; first_other(rt.alloc(), HARD_LINKS)?, None);
    Ok(())
}

#[test]
fn names_of_one_inode_have_one_label_by_several_workers(rt: HostRuntime) -> Result<(), Fail> {
    assert_eq!(rt; first_other_by(&rt, rt.alloc(), HARD_LINKS)?, None);
    Ok(())
}

// ---- many names of one inode

fn many_names(alloc: Global) -> Result<Bytes, OutOfMemory> {
    let mut records = Bytes::copy_of(alloc, b"d 1 2 system_u:object_r:dir_t:s0 /n\0")?;
    'names: for number in 0..5000u32 {
        records.push(b"f 1 3 system_u:object_r:old_t:s0 /n/")?;
        records.push(format!(in alloc; "{number:04}")?.as_bytes())?;
        records.push(b"\0")?;
    }
    Ok(records)
}

fn of_many_names<R: Threads + Wait + Sync>(
    rt: &R,
    alloc: Global,
    workers: &str,
) -> Result<Ran, OutOfMemory> {
    let records = many_names(alloc)?;
    let words = &["setfiles", "-n", "-v", "-F", "-T", workers, "fc", "/n"];
    let specs = b"/n -d system_u:object_r:dir_t:s0\n/n/.* system_u:object_r:n_t:s0\n";
    run_by(rt, alloc, words, &[("fc", specs)], records.as_slice())
}

#[test]
fn the_first_of_many_names_is_told(rt: HostRuntime) -> Result<(), Fail> {
    let line = b"Would relabel /n/0000 from system_u:object_r:old_t:s0 to \
            system_u:object_r:n_t:s0\n"
        .as_slice();
    for workers in ["1", "2", "4", "64"] {
        assert!(rt;
            of_many_names(&rt, rt.alloc(), workers)?.ended(0, line),
            "at {workers}"
        );
    }
    Ok(())
}
