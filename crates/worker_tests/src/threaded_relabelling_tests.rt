ghost use Rattle.std.specs.Prelude.{◌<◌, ◌≤◌, ◌^◌, IfOk, length};
ghost use Rattle.tree_relabelling.specs.declared.letters.TheConstants.{MOST_WORKERS};

use input_output::{MemSink, MemSource, MemStore};
use label_base::{Bytes, Fault, OutOfMemory, Row};
use policy_files::CUSTOMIZABLE_TYPES;
use run_faults::Outcome;
use std::alloc::Global;
use std::sync::Wait;
use std::test::Fail;
use std::thread::Threads;
use threaded_relabelling::{ByWorkers, Workers, workers_for};
use tool_runs::run_words;
use tool_words::Usage;
use tree_relabelling::{RelabelWords, read_restorecon};

const WORDS: &[&str] = &["-R", "-v", "-D", "-S", "fc", "-o", "out", "/srv"];

const SPECS: &[u8] = b"/srv(/.*)? u:r:var_t:s0\n";

const SUBS: &[u8] = b"/data /srv\n";

const RECORDS: &[u8] =
    b"d 1 30 u:r:var_t:s0 /srv\0d 1 33 u:r:var_t:s0 /srv/other\0d 1 31 u:r:var_t:s0 /srv/sub\0\
        f 1 32 u:r:old_t:s0 /srv/sub/f\0";

const REPORT: &[u8] = b"Relabeled /srv/sub/f from u:r:old_t:s0 to u:r:var_t:s0\n";

// The digests were made by another program, from the format of listings.
const DUMP: &[u8] = b"# file: /srv\nsecurity.sehash=0x2f409ad7b5704325f609fc499a6af2db7062c720\n\n\
        # file: /srv/other\nsecurity.sehash=0xa0084f1d891eb1355975ea05799e8507dcde9544\n\n\
        # file: /srv/sub\nsecurity.sehash=0x8c9c9fd4b3aa017aaa3acb63fc8b547cd50f05c1\n\n\
        # file: /srv/sub/f\nsecurity.selinux=\"u:r:var_t:s0\"\n\n";

fn words_of(alloc: Global) -> Result<Vec<String>, OutOfMemory>
    ensures { IfOk result (λ made. length made.items < 2 ^ 30) }
{
    let mut made = Vec::new(alloc);
    'words: for word in WORDS {
        made.push(String::from_str(alloc, word)?)?;
    }
    if made.len() >= 1 << 30 {
        return Err(OutOfMemory);
    }
    Ok(made)
}

fn asked(alloc: Global) -> Result<RelabelWords, Fault<Usage>>
    ensures { IfOk result (λ words. length words.choice.operands < 2 ^ 31) }
{
    let words = words_of(alloc)?;
    read_restorecon(alloc, words.as_slice(), 1)
}

// What a run left in the store and wrote.
#[derive(Drop)]
struct Ran {
    outcome: Outcome,
    store: MemStore,
    out: MemSink,
}

// Runs the tool by so many workers, at once.
fn run_by<R: Threads + Wait + Sync>(rt: &R, alloc: Global, count: u32) -> Result<Ran, Fault<Usage>>
    requires { (0 < count) × (count ≤ MOST_WORKERS) }
{
    let by = ByWorkers {
        words: asked(alloc)?,
        workers: Workers::new(rt, count),
    };
    let mut store = MemStore::new(alloc, Row::new(alloc));
    store.put(alloc, "fc", SPECS)?;
    store.put(alloc, "fc.subs", SUBS)?;
    store.put(alloc, CUSTOMIZABLE_TYPES, b"public_content_t\n")?;
    let mut input = MemSource::new(Bytes::copy_of(alloc, RECORDS)?, 1000, Row::new(alloc));
    let mut out = MemSink::new(alloc, 1000, Row::new(alloc));
    let outcome = run_words(alloc, Ok(by), &mut store, &mut input, &mut out);
    Ok(Ran {
        outcome,
        store,
        out,
    })
}

// Whether a run by so many workers writes what it is to write.
fn is_right<R: Threads + Wait + Sync>(
    rt: &R,
    alloc: Global,
    count: u32,
) -> Result<bool, Fault<Usage>>
    requires { (0 < count) × (count ≤ MOST_WORKERS) }
{
    let ran = run_by(rt, alloc, count)?;
    Ok(
        ran.outcome.status == 0
            && ran.out.written() == REPORT
            && ran.store.file("out") == Some(DUMP),
    )
}

#[test]
fn two_workers_write_what_one_does(rt: HostRuntime) -> Result<(), Fail> {
    assert!(rt; matches!(is_right(&rt, rt.alloc(), 1), Ok(true)));
    assert!(rt; matches!(is_right(&rt, rt.alloc(), 2), Ok(true)));
    Ok(())
}

#[test]
fn more_workers_than_entries_write_the_same(rt: HostRuntime) -> Result<(), Fail> {
    assert!(rt; matches!(is_right(&rt, rt.alloc(), 64), Ok(true)));
    Ok(())
}

#[test]
fn as_many_workers_as_cores_where_none_are_asked_for(rt: HostRuntime) -> Result<(), Fail> {
    for (asked, cores, count) in [(0, 0, 1), (0, 4, 4), (0, 65, 64), (1, 4, 1), (64, 1, 64)] {
        assert_eq!(rt; workers_for(asked, cores), count);
    }
    Ok(())
}
