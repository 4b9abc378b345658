use crate::whole_tests::{NONE_FAILS, Ran, run, run_by};
use crate::worked_tests::{Case, ends_so, ends_so_by};
use label_base::OutOfMemory;
use run_faults::Cause;
use std::alloc::Global;
use std::sync::Wait;
use std::test::Fail;
use std::thread::Threads;

const BASE: &[u8] = b"# base policy
/.*\tsystem_u:object_r:default_t:s0
/\t-d\tsystem_u:object_r:root_t:s0
/etc/.*\tsystem_u:object_r:etc_t:s0
/etc\t-d\tsystem_u:object_r:etc_t:s0
/etc/shadow.*\t--\tsystem_u:object_r:shadow_t:s0
/etc/passwd[-\\+]?\t--\tsystem_u:object_r:passwd_file_t:s0
/etc/localtime\t-l\tsystem_u:object_r:locale_t:s0
/etc/mtab\t--\tsystem_u:object_r:etc_runtime_t:s0
/usr(/.*)?\tsystem_u:object_r:usr_t:s0
/usr/lib(64)?(/.*)?\tsystem_u:object_r:lib_t:s0
/usr/(.*/)?bin(/.*)?\tsystem_u:object_r:bin_t:s0
/dev/[shmx]d[^/]*\t-b\tsystem_u:object_r:fixed_disk_device_t:s0
/dev/null\t-c\tsystem_u:object_r:null_device_t:s0
/var(/.*)?\tsystem_u:object_r:var_t:s0
/var/log(/.*)?\tsystem_u:object_r:var_log_t:s0
/var/log/.*\\.log.*\t--\tsystem_u:object_r:var_log_t:s0
/var/log/audit(/.*)?\tsystem_u:object_r:auditd_log_t:s0
/var/run(/.*)?\tsystem_u:object_r:var_run_t:s0
/var/run/.*\\.*pid\t<<none>>
/proc\t-d\t<<none>>
/proc/.*\t<<none>>
";

const HOMEDIRS: &[u8] = b"/home\t-d\tsystem_u:object_r:home_root_t:s0
/home/[^/]+/.+\tunconfined_u:object_r:user_home_t:s0
/home/[^/]+\t-d\tunconfined_u:object_r:user_home_dir_t:s0
/home/[^/]+/\\.ssh(/.*)?\tunconfined_u:object_r:ssh_home_t:s0
";

const RECORDS: &[u8] = b"d 64768 128 system_u:object_r:root_t:s0 /\0\
d 64768 200 system_u:object_r:etc_t:s0 /etc\0\
f 64768 201 system_u:object_r:etc_t:s0 /etc/shadow\0\
f 64768 202 system_u:object_r:passwd_file_t:s0 /etc/passwd\0\
f 64768 203 unconfined_u:object_r:etc_t:s0 /etc/passwd-\0\
l 64768 204 system_u:object_r:etc_t:s0 /etc/localtime\0\
f 64768 205 system_u:object_r:etc_t:s0 /etc/hosts\0\
d 64768 300 system_u:object_r:usr_t:s0 /usr\0\
f 64768 301 system_u:object_r:tmp_t:s0 /usr/lib64\0\
d 64768 400 system_u:object_r:var_t:s0 /var\0\
d 64768 401 system_u:object_r:var_t:s0 /var/log\0\
f 64768 402 system_u:object_r:var_log_t:s0 /var/log/messages\0\
d 64768 403 system_u:object_r:auditd_log_t:s0 /var/log/audit\0\
f 64768 404 system_u:object_r:var_log_t:s0 /var/log/audit/audit.log\0\
d 64768 410 system_u:object_r:var_t:s0 /var/cache\0\
f 64768 411 system_u:object_r:tmp_t:s0 /var/cache/x\0\
d 64769 2 system_u:object_r:unlabeled_t:s0 /var/spool\0\
f 64769 7 system_u:object_r:unlabeled_t:s0 /var/spool/m\0\
l 64768 420 system_u:object_r:var_t:s0 /var/run\0\
d 64768 500 system_u:object_r:home_root_t:s0 /home\0\
d 64768 501 unconfined_u:object_r:user_home_dir_t:s0 /home/ana\0\
d 64768 502 unconfined_u:object_r:user_home_t:s0 /home/ana/.ssh\0\
f 64768 503 unconfined_u:object_r:ssh_home_t:s0 /home/ana/.ssh/id\0\
f 64768 504  /home/ana/new\0";

const REPORT: &[u8] = b"\
    Relabeled /etc/localtime from system_u:object_r:etc_t:s0 to system_u:object_r:locale_t:s0\n\
    Relabeled /etc/passwd- from unconfined_u:object_r:etc_t:s0 to \
    unconfined_u:object_r:passwd_file_t:s0\n\
    Relabeled /etc/shadow from system_u:object_r:etc_t:s0 to system_u:object_r:shadow_t:s0\n\
    Relabeled /home/ana/.ssh from unconfined_u:object_r:user_home_t:s0 to \
    unconfined_u:object_r:ssh_home_t:s0\n\
    Relabeled /home/ana/new from <no context> to unconfined_u:object_r:user_home_t:s0\n\
    Relabeled /var/log from system_u:object_r:var_t:s0 to system_u:object_r:var_log_t:s0\n\
    Relabeled /var/log/audit/audit.log from system_u:object_r:var_log_t:s0 to \
    system_u:object_r:auditd_log_t:s0\n\
    Relabeled /var/run from system_u:object_r:var_t:s0 to system_u:object_r:var_run_t:s0\n";

const DUMP: &[u8] = b"\
    # file: /etc/localtime\n\
    security.selinux=\"system_u:object_r:locale_t:s0\"\n\
    \n\
    # file: /etc/passwd-\n\
    security.selinux=\"unconfined_u:object_r:passwd_file_t:s0\"\n\
    \n\
    # file: /etc/shadow\n\
    security.selinux=\"system_u:object_r:shadow_t:s0\"\n\
    \n\
    # file: /home/ana/.ssh\n\
    security.selinux=\"unconfined_u:object_r:ssh_home_t:s0\"\n\
    \n\
    # file: /home/ana/new\n\
    security.selinux=\"unconfined_u:object_r:user_home_t:s0\"\n\
    \n\
    # file: /var/log\n\
    security.selinux=\"system_u:object_r:var_log_t:s0\"\n\
    \n\
    # file: /var/log/audit/audit.log\n\
    security.selinux=\"system_u:object_r:auditd_log_t:s0\"\n\
    \n\
    # file: /var/run\n\
    security.selinux=\"system_u:object_r:var_run_t:s0\"\n\
    \n";

const FILES: &[(&str, &[u8])] = &[
    ("fc", BASE),
    ("fc.homedirs", HOMEDIRS),
    ("fc.subs_dist", b"/run /var/run\n"),
];

const WORDS: &str = "restorecon -R -x -v -e /var/cache -S fc -o out /etc /home /var";

const BY_FOUR: &[&str] = &[
    "restorecon",
    "-T",
    "4",
    "-R",
    "-x",
    "-v",
    "-e",
    "/var/cache",
    "-S",
    "fc",
    "-o",
    "out",
    "/etc",
    "/home",
    "/var",
];

const AUDIT_OF_FOUR: &[&str] = &[
    "audit",
    "rep",
    "restorecon",
    "-T",
    "4",
    "-R",
    "-x",
    "-v",
    "-e",
    "/var/cache",
    "-S",
    "fc",
    "-o",
    "out",
    "/etc",
    "/home",
    "/var",
];

fn writes(words: &'static str) -> Case {
    Case {
        words,
        files: FILES,
        input: Some(RECORDS),
        status: 0,
        text: REPORT,
        written: Some(("out", DUMP)),
    }
}

#[test]
fn one_worker_writes_it(rt: HostRuntime) -> Result<(), Fail> {
    assert!(rt; ends_so(rt.alloc(), &writes(WORDS))?);
    Ok(())
}

#[test]
fn any_number_of_workers_writes_the_same(rt: HostRuntime) -> Result<(), Fail> {
    for workers in ["2", "4", "64", "0"] {
        assert!(rt;
            ends_so_by(&rt, rt.alloc(), &writes(WORDS), workers)?,
            "at {workers}"
        );
    }
    Ok(())
}

// What four workers wrote, audited.
fn audited<R: Threads + Wait + Sync>(rt: &R, alloc: Global) -> Result<Ran, OutOfMemory> {
    let ran = run_by(rt, alloc, BY_FOUR, FILES, RECORDS)?;
    let files: &[(&str, &[u8])] = &[
        ("fc", BASE),
        ("fc.homedirs", HOMEDIRS),
        ("fc.subs_dist", b"/run /var/run\n"),
        ("rep", ran.report()),
        ("out", ran.dump()),
    ];
    run(alloc, AUDIT_OF_FOUR, files, RECORDS, &NONE_FAILS)
}

#[test]
fn what_four_workers_write_agrees(rt: HostRuntime) -> Result<(), Fail> {
    assert!(rt; audited(&rt, rt.alloc())?.ended(0, b"agrees\n"));
    Ok(())
}

// ---- records that are cut

fn of_cut_records(alloc: Global, records: &[u8]) -> Result<Ran, OutOfMemory> {
    run(
        alloc,
        &["setfiles", "-n", "fc", "/"],
        &[("fc", b"# nothing\n")],
        records,
        &NONE_FAILS,
    )
}

// The number of the record that isn't ended, 0 where all are accepted.
fn unended(ran: &Ran) -> u32 {
    match ran.outcome.cause {
        Cause::Unended { number } => number,
        Cause::Done | Cause::WalkErrors { .. } => 0,
        _ => u32::MAX,
    }
}

#[test]
fn a_record_that_is_cut_is_not_ended(rt: HostRuntime) -> Result<(), Fail> {
    let mut number = 1u32;
    let mut wanted = 0;
    'cuts: for size in 0..RECORDS.len() {
        let ran = of_cut_records(rt.alloc(), &RECORDS[..size])?;
        assert_eq!(rt; unended(&ran), wanted, "at {size}");
        let is_end = RECORDS[size] == 0;
        number = number.saturating_add(u32::from(is_end));
        wanted = if is_end { 0 } else { number };
    }
    Ok(())
}
