ghost use Rattle.std.specs.Prelude.{◌<◌, ◌≤◌};

use crate::test_worlds::{Given, VERBOSE, answer};
use relabel_core::Options;
use relabel_workers::{Gate, OpenGate};
use std::alloc::Global;
use std::sync::Wait;
use std::sync::atomic::{AtomicU64, Ordering};
use std::test::Fail;
use std::thread::{Threads, yield_now};
use walk_steps::NONE_WORD;

// Two directories, and an inode with a name in each, which get different contexts.
const LINKED: Given<'static> = Given {
    specs: b"/[ab] -d u:r:dir_t:s0\n/a/x u:r:a_t:s0\n/b/x u:r:b_t:s0\n",
    records: b"d 1 2 u:r:dir_t:s0 /a\0f 1 10 u:r:old_t:s0 /a/x\0d 1 3 u:r:dir_t:s0 /b\0\
        f 1 10 u:r:old_t:s0 /b/x\0",
    operands: (b"/a", b"/b"),
    stored: b"",
    options: Options {
        force: true,
        dry: true,
        ..VERBOSE
    },
};

const LINKED_REPORT: &[u8] = b"Would relabel /a/x from u:r:old_t:s0 to u:r:a_t:s0\n\
        conflicting specifications for /a/x and /b/x, using u:r:a_t:s0.\n";

// Counts what it is told.
#[derive(Drop)]
struct Counting {
    entered: AtomicU64,
    claimed: AtomicU64,
    // Of claims for the inode of the entries 1 and 3 those that found no other.
    first: AtomicU64,
}

impl Counting {
    fn new() -> Counting {
        Counting {
            entered: AtomicU64::new(0),
            claimed: AtomicU64::new(0),
            first: AtomicU64::new(0),
        }
    }
}

impl Gate for Counting {
    fn enter(&self, _worker: u32, _job: u32) {
        self.entered.fetch_add(1, Ordering::SeqCst);
    }

    fn claimed(&self, _worker: u32, entry: u32, before: u64) {
        self.claimed
            .fetch_add(1 << (8 * (entry % 8)), Ordering::SeqCst);
        if before == NONE_WORD && (entry == 1 || entry == 3) {
            self.first.fetch_add(1, Ordering::SeqCst);
        }
    }
}

#[test]
fn each_entry_is_claimed_once(rt: HostRuntime) -> Result<(), Fail> {
    let gate = Counting::new();
    let answered = answer(&rt, rt.alloc(), &LINKED, 2, &gate)?;
    assert!(rt; answered.text.as_slice() == LINKED_REPORT);
    assert!(rt; answered.claims == 4 && answered.first_winner == Some(0));
    assert!(rt; gate.claimed.load(Ordering::SeqCst) == 0x0101_0101);
    assert!(rt; gate.first.load(Ordering::SeqCst) == 1);
    Ok(())
}

#[test]
fn any_number_of_workers_finds_the_same(rt: HostRuntime) -> Result<(), Fail> {
    for workers in [1, 3, 4, 64] {
        let answered = answer(&rt, rt.alloc(), &LINKED, workers, &OpenGate)?;
        assert!(rt; answered.text.as_slice() == LINKED_REPORT);
    }
    Ok(())
}

// A directory whose stored digest is the one that it has, and two below it.
const SKIPPED: Given<'static> = Given {
    specs: b"/srv(/.*)? u:r:var_t:s0\n",
    records: b"d 1 30 u:r:var_t:s0 /srv\0d 1 33 u:r:var_t:s0 /srv/other\0\
        d 1 31 u:r:var_t:s0 /srv/sub\0f 1 32 u:r:var_t:s0 /srv/sub/f\0",
    operands: (b"/srv", b"/srv"),
    stored: b"# file: /srv\nsecurity.sehash=0x2f409ad7b5704325f609fc499a6af2db7062c720\n\n",
    options: Options {
        digests: true,
        ..VERBOSE
    },
};

#[test]
fn nothing_is_taken_below_a_skipped_directory(rt: HostRuntime) -> Result<(), Fail> {
    let gate = Counting::new();
    let answered = answer(&rt, rt.alloc(), &SKIPPED, 2, &gate)?;
    assert!(rt; answered.text.as_slice() == b"Skipping restorecon on directory(/srv)\n".as_slice());
    assert!(rt; gate.entered.load(Ordering::SeqCst) == 1);
    Ok(())
}

#[test]
fn digests_are_those_of_one_worker(rt: HostRuntime) -> Result<(), Fail> {
    let given = Given {
        stored: b"",
        ..SKIPPED
    };
    let answered = answer(&rt, rt.alloc(), &given, 2, &OpenGate)?;
    assert!(rt;
        answered.text.as_slice()
            == b"# file: /srv\nsecurity.sehash=0x2f409ad7b5704325f609fc499a6af2db7062c720\n\n\
                # file: /srv/other\nsecurity.sehash=0xa0084f1d891eb1355975ea05799e8507dcde9544\n\n\
                # file: /srv/sub\n\
                security.sehash=0x8c9c9fd4b3aa017aaa3acb63fc8b547cd50f05c1\n\n"
                .as_slice()
    );
    Ok(())
}

// Ten sibling directories, of which one has a stored digest, and hard links across them.
const SIBLINGS: Given<'static> = Given {
    specs: b"/.* u:r:any_t:s0\n/b/x u:r:b_t:s0\n",
    records: b"d 1 1 u:r:any_t:s0 /\0d 1 2 u:r:any_t:s0 /a\0d 1 3 u:r:any_t:s0 /b\0\
        f 1 20 u:r:old_t:s0 /b/x\0d 1 4 u:r:any_t:s0 /c\0f 1 20 u:r:old_t:s0 /c/x\0\
        d 1 5 u:r:any_t:s0 /d\0d 1 6 u:r:any_t:s0 /e\0f 1 21 u:r:old_t:s0 /e/x\0\
        d 1 7 u:r:any_t:s0 /f\0d 1 8 u:r:any_t:s0 /g\0f 1 21 u:r:old_t:s0 /g/x\0\
        d 1 9 u:r:any_t:s0 /h\0d 1 10 u:r:any_t:s0 /i\0d 1 11 u:r:any_t:s0 /j\0",
    operands: (b"/", b"/"),
    stored: b"# file: /a\nsecurity.sehash=0x2f409ad7b5704325f609fc499a6af2db7062c720\n\n",
    options: Options {
        digests: true,
        ..VERBOSE
    },
};

// Holds each worker in a job below the root until so many workers are in one.
#[derive(Drop)]
struct Meeting {
    wanted: u64,
    inside: AtomicU64,
    met: AtomicU64,
}

const MOST_TURNS: u32 = 50_000_000;

impl Meeting {
    fn of(wanted: u64) -> Meeting {
        Meeting {
            wanted,
            inside: AtomicU64::new(0),
            met: AtomicU64::new(0),
        }
    }
}

impl Gate for Meeting {
    fn enter(&self, _worker: u32, job: u32) {
        if job < 2 {
            return;
        }
        self.inside.fetch_add(1, Ordering::SeqCst);
        for _ in 0..MOST_TURNS {
            if self.inside.load(Ordering::SeqCst) >= self.wanted {
                self.met.fetch_add(1, Ordering::SeqCst);
                return;
            }
            yield_now();
        }
    }

    fn claimed(&self, _worker: u32, _entry: u32, _before: u64) {}
}

// How many of the jobs below the root met so many workers at work at once.
fn met_by<R: Threads + Wait + Sync>(rt: &R, alloc: Global, workers: u32) -> Result<u64, Fail>
    requires { (0 < workers) × (workers ≤ 64) }
{
    let gate = Meeting::of(u64::from(workers));
    let _ = answer(rt, alloc, &SIBLINGS, workers, &gate)?;
    Ok(gate.met.load(Ordering::SeqCst))
}

#[test]
fn two_workers_are_at_work_at_once(rt: HostRuntime) -> Result<(), Fail> {
    assert_eq!(rt; met_by(&rt, rt.alloc(), 2)?, 10);
    Ok(())
}

#[test]
fn three_workers_are_at_work_at_once(rt: HostRuntime) -> Result<(), Fail> {
    assert_eq!(rt; met_by(&rt, rt.alloc(), 3)?, 10);
    Ok(())
}

#[test]
fn eight_workers_are_at_work_at_once(rt: HostRuntime) -> Result<(), Fail> {
    assert_eq!(rt; met_by(&rt, rt.alloc(), 8)?, 10);
    Ok(())
}

#[test]
fn an_empty_tree_has_no_winner(rt: HostRuntime) -> Result<(), Fail> {
    let given = Given {
        specs: b"",
        records: b"",
        operands: (b"/", b"/"),
        stored: b"",
        options: VERBOSE,
    };
    let answered = answer(&rt, rt.alloc(), &given, 4, &OpenGate)?;
    assert!(rt; answered.claims == 0 && answered.first_winner == None);
    Ok(())
}
