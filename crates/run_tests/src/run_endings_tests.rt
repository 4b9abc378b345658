use file_roles::FileList;
use input_output::{MemSink, MemStore};
use label_base::{Bytes, Fault, Name, OutOfMemory, PiecedText, Row};
use run_endings::{
    End, Ending, Saved, finish, give_up, lose_dump, outcome, refuse, refuse_words, save,
};
use run_faults::Cause;
use std::alloc::Global;
use std::test::Fail;
use tool_words::{Usage, UsageWhy};

fn sink(alloc: Global) -> MemSink {
    MemSink::new(alloc, 10, Row::new(alloc))
}

#[test]
fn want_of_memory_ends_a_run(rt: HostRuntime) {
    let mut out = sink(rt.alloc());
    assert!(rt; matches!(give_up(&mut out), Cause::OutOfMemory));
    assert!(rt; out.written() == b"relabel: out of memory\n".as_slice());
}

#[test]
fn a_lost_dump_ends_a_run(rt: HostRuntime) {
    let mut out = sink(rt.alloc());
    assert!(rt; matches!(lose_dump(&mut out), Cause::WriteFault));
    assert!(rt; out.written() == b"relabel: write failed\n".as_slice());
}

#[test]
fn a_refusal_ends_a_run(rt: HostRuntime) {
    let mut out = sink(rt.alloc());
    let files = FileList::new(rt.alloc());
    let cause = refuse(rt.alloc(), &files, Cause::Unended { number: 7 }, &mut out);
    assert!(rt; matches!(cause, Cause::Unended { number: 7 }));
    assert!(rt; out.written() == b"relabel: record 7: not ended\n".as_slice());
}

#[test]
fn wrong_words_end_a_run(rt: HostRuntime) {
    let mut out = sink(rt.alloc());
    let wrong = Usage {
        index: 3,
        why: UsageWhy::UnknownOption,
    };
    let cause = refuse_words(rt.alloc(), Fault::Why(wrong), &mut out);
    assert!(rt; matches!(cause, Cause::Usage { index: 3, .. }));
    assert!(rt; out.written() == b"relabel: usage: word 3: unknown option\n".as_slice());
}

fn ending(alloc: Global) -> Result<Ending, OutOfMemory> {
    let mut report = PiecedText::of(alloc, Bytes::copy_of(alloc, b"re")?)?;
    report.push(Bytes::copy_of(alloc, b"port")?)?;
    let name = Name::copy_of(alloc, "dump")?;
    let text = PiecedText::of(alloc, Bytes::copy_of(alloc, b"text")?)?;
    Ok(Ending {
        report,
        end: End::WalkErrors { count: 2 },
        saved: Some(Saved { name, text }),
    })
}

#[test]
fn a_report_ends_a_run(rt: HostRuntime) -> Result<(), Fail> {
    let ending = ending(rt.alloc())?;
    let mut out = sink(rt.alloc());
    assert!(rt; matches!(finish(&ending, &mut out), Cause::WalkErrors { count: 2 }));
    assert!(rt; out.written() == b"report".as_slice());
    Ok(())
}

#[test]
fn a_dump_is_saved_in_its_file(rt: HostRuntime) -> Result<(), Fail> {
    let ending = ending(rt.alloc())?;
    let mut store = MemStore::new(rt.alloc(), Row::new(rt.alloc()));
    assert!(rt; save(rt.alloc(), &ending, &mut store).is_ok());
    assert!(rt; store.file("dump") == Some(b"text".as_slice()));
    Ok(())
}

#[test]
fn a_cause_has_a_status(rt: HostRuntime) {
    assert_eq!(rt; outcome(Cause::ReadFault, false).status, 253);
}
