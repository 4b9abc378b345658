use context_syntax::Label;
use find_records::{
    Format, PathWhy, RawRecord, RecordLimits, RecordWhy, Records, RecordsFault, read_records,
    records_follow_grammar,
};
use input_output::{MemSource, ReadSource};
use label_base::{Bytes, EntryKind, OutOfMemory, Row};
use std::alloc::Global;
use std::test::Fail;

const LIMITS: RecordLimits = RecordLimits {
    records: 2,
    bytes: 5000,
};

// What the bytes give, by a source that has pieces of ten bytes and fails at one call.
fn read_failing(
    alloc: Global,
    format: Format,
    bytes: &[u8],
    failing: u64,
) -> Result<Records, RecordsFault> {
    let Ok(bytes) = Bytes::copy_of(alloc, bytes) else {
        return Err(RecordsFault::OutOfMemory);
    };
    let mut calls = Row::new(alloc);
    if calls.push(failing).is_err() {
        return Err(RecordsFault::OutOfMemory);
    }
    let mut source = MemSource::new(bytes, 10, calls);
    read_records(alloc, &mut source, format, LIMITS)
}

fn read(alloc: Global, bytes: &[u8]) -> Result<Records, RecordsFault> {
    read_failing(alloc, Format::One, bytes, 0)
}

fn refusal(alloc: Global, bytes: &[u8]) -> Option<RecordsFault> {
    read(alloc, bytes).err()
}

fn refused(why: RecordWhy) -> Option<RecordsFault> {
    Some(RecordsFault::Refused { number: 1, why })
}

#[test]
fn reads_records(rt: HostRuntime) -> Result<(), Fail> {
    let bytes = b"f 1 5 system_u:object_r:t:s0 /a b\0U 2 6 ? //c/\0";
    records_follow_grammar(Format::One, LIMITS, bytes);
    let records = read(rt.alloc(), bytes)?;
    assert_eq!(rt; records.len(), 2);
    let first = records.entry(0);
    assert_eq!(rt; first.kind, EntryKind::Regular);
    assert_eq!(rt; first.device, 1);
    assert_eq!(rt; first.inode, 5);
    assert!(rt; matches!(first.label, Label::Is(_)));
    assert_eq!(rt; first.path.as_text(), b"/a b".as_slice());
    let second = records.entry(1);
    assert_eq!(rt; second.kind, EntryKind::Other);
    assert!(rt; matches!(second.label, Label::Absent));
    assert_eq!(rt; second.path.as_text(), b"/c".as_slice());
    Ok(())
}

#[test]
fn records_are_added(rt: HostRuntime) -> Result<(), Fail> {
    let alloc = rt.alloc();
    let mut records = Records::new(alloc);
    let raw = RawRecord {
        kind: EntryKind::Link,
        device: 1,
        inode: 2,
        links: Some(3),
        label: b"?",
        path: b"/a//b",
    };
    records.push(alloc, &raw)?;
    assert_eq!(rt; records.len(), 1);
    assert_eq!(rt; records.entry(0).links, Some(3));
    assert_eq!(rt; records.path(0).as_text(), b"/a/b".as_slice());
    Ok(())
}

#[test]
fn labels_are_kept_once(rt: HostRuntime) -> Result<(), Fail> {
    let bytes = b"f 1 5 a:b:c /a\0f 1 6  /b\0f 1 7 ? /c\0d 1 8 a:b:c /d\0";
    let limits = RecordLimits {
        records: 4,
        bytes: 500,
    };
    let mut source = ReadSource::new(bytes.as_slice());
    let records = read_records(rt.alloc(), &mut source, Format::One, limits)?;
    assert_eq!(rt; records.len(), 4);
    assert!(rt; records.has_same_label(0, 3));
    assert!(rt; records.has_same_label(1, 2));
    assert!(rt; !records.has_same_label(0, 1));
    Ok(())
}

// Whether the records at two places have these paths, once they are laid in the order of the
// places.
fn stand_in_order(alloc: Global, bytes: &[u8], places: [u32; 2], wanted: [&[u8]; 2]) -> bool {
    let Ok(records) = read(alloc, bytes) else {
        return false;
    };
    if places[0] >= records.len() || places[1] >= records.len() {
        return false;
    }
    match records.in_order(alloc, places.as_slice()) {
        Ok(laid) => {
            laid.len() == 2
                && laid.path(0).as_text() == wanted[0]
                && laid.path(1).as_text() == wanted[1]
        }
        Err(_) => false,
    }
}

#[test]
fn lays_records_in_order(rt: HostRuntime) {
    let bytes = b"f 1 5 a:b:c /b\0d 2 6 ? /a\0";
    let (a, b) = (b"/a".as_slice(), b"/b".as_slice());
    assert!(rt; stand_in_order(rt.alloc(), bytes, [1, 0], [a, b]));
    assert!(rt; stand_in_order(rt.alloc(), bytes, [0, 1], [b, a]));
    assert!(rt; stand_in_order(rt.alloc(), bytes, [1, 1], [a, a]));
}

fn two_labels(alloc: Global) -> Result<Row<Label>, OutOfMemory> {
    let mut labels = Row::new(alloc);
    labels.push(Label::Absent)?;
    labels.push(Label::Odd(Bytes::copy_of(alloc, b"?")?))?;
    Ok(labels)
}

// Whether the first of two records gets the second label, and the second none.
fn take_labels(alloc: Global, records: &Records, labels: &Row<Label>) -> bool {
    if records.len() != 2 || labels.len() != 2 {
        return false;
    }
    match records.with_labels(alloc, &[1, 0], labels) {
        Ok(changed) => {
            changed.len() == 2
                && matches!(changed.entry(0).label, Label::Odd(_))
                && matches!(changed.entry(1).label, Label::Absent)
        }
        Err(_) => false,
    }
}

#[test]
fn takes_other_labels(rt: HostRuntime) -> Result<(), Fail> {
    let records = read(
        rt.alloc(),
        b"f 1 5 system_u:object_r:t:s0 /a\0f 2 6 odd /b\0",
    )?;
    let labels = two_labels(rt.alloc())?;
    assert!(rt; take_labels(rt.alloc(), &records, &labels));
    Ok(())
}

#[test]
fn refuses_bad_records(rt: HostRuntime) {
    let alloc = rt.alloc();
    assert_eq!(rt;
        refusal(alloc, b"f 1 5 t /a"),
        Some(RecordsFault::Unended { number: 1 })
    );
    assert_eq!(rt;
        refusal(alloc, b"Q 1 5 t /a\0"),
        refused(RecordWhy::BadType)
    );
    assert_eq!(rt;
        refusal(alloc, b"f 18446744073709551616 5 t /a\0"),
        refused(RecordWhy::BadNumber)
    );
    assert_eq!(rt;
        refusal(alloc, b"f 1 5 /a\0"),
        refused(RecordWhy::MissingField)
    );
    assert_eq!(rt;
        refusal(alloc, b"f 1 5 t a\0"),
        refused(RecordWhy::BadPath(PathWhy::NotAbsolute))
    );
    assert_eq!(rt;
        refusal(alloc, b"f 1 5 t /a/../b\0"),
        refused(RecordWhy::BadPath(PathWhy::DotPart))
    );
    assert_eq!(rt;
        refusal(alloc, b"f 1 5  /a\0f 1 6  /b\0g"),
        Some(RecordsFault::TooMany)
    );
}

#[test]
fn refuses_a_long_path(rt: HostRuntime) -> Result<(), Fail> {
    let mut bytes = Bytes::copy_of(rt.alloc(), b"f 1 5  ")?;
    for _ in 0..2048 {
        bytes.push(b"/a")?;
    }
    bytes.push(b"\0")?;
    assert_eq!(rt;
        refusal(rt.alloc(), bytes.as_slice()),
        refused(RecordWhy::BadPath(PathWhy::PathTooLong))
    );
    Ok(())
}

#[test]
fn tells_a_failed_call(rt: HostRuntime) {
    let bytes = b"f 1 5 system_u:object_r:t:s0 /a\0";
    assert_eq!(rt;
        read_failing(rt.alloc(), Format::One, bytes, 3).err(),
        Some(RecordsFault::ReadFault)
    );
    assert!(rt; read_failing(rt.alloc(), Format::One, bytes, 9).is_ok());
}

#[test]
fn tells_too_many_bytes(rt: HostRuntime) -> Result<(), Fail> {
    let mut bytes = Bytes::new(rt.alloc());
    for _ in 0..501 {
        bytes.push(b"f 1 5  /a\0")?;
    }
    assert_eq!(rt;
        refusal(rt.alloc(), bytes.as_slice()),
        Some(RecordsFault::TooLong)
    );
    Ok(())
}

fn read_counted(alloc: Global, bytes: &[u8]) -> Result<Records, RecordsFault> {
    read_failing(alloc, Format::Two, bytes, 0)
}

// Whether the records have these link counts.
fn have_links(alloc: Global, format: Format, bytes: &[u8], wanted: [Option<u64>; 2]) -> bool {
    match read_failing(alloc, format, bytes, 0) {
        Ok(records) => {
            records.len() == 2
                && records.entry(0).links == wanted[0]
                && records.entry(1).links == wanted[1]
        }
        Err(_) => false,
    }
}

#[test]
fn reads_link_counts(rt: HostRuntime) {
    let bytes = b"d 1 5 4 t /a b\0f 1 6 1 t /c\0";
    assert!(rt; have_links(rt.alloc(), Format::Two, bytes, [Some(4), Some(1)]));
    let bytes = b"d 1 5 t /a b\0f 1 6 t /c\0";
    assert!(rt; have_links(rt.alloc(), Format::One, bytes, [None, None]));
}

#[test]
fn refuses_bad_link_counts(rt: HostRuntime) {
    let alloc = rt.alloc();
    let fields = read_counted(alloc, b"f 1 5 t /a\0");
    assert_eq!(rt; fields.err(), refused(RecordWhy::MissingField));
    let number = read_counted(alloc, b"f 1 5 18446744073709551616 t /a\0");
    assert_eq!(rt; number.err(), refused(RecordWhy::BadNumber));
}

#[test]
fn the_other_format_is_refused(rt: HostRuntime) {
    let alloc = rt.alloc();
    assert_eq!(rt;
        refusal(alloc, b"d 2049 2 5 @root_t /\0"),
        refused(RecordWhy::BadPath(PathWhy::NotAbsolute))
    );
    let other = read_counted(alloc, b"d 2049 2 t /a b\0");
    assert_eq!(rt; other.err(), refused(RecordWhy::BadNumber));
}

// Whether a record keeps its link count under another label.
fn keeps_links(alloc: Global, records: &Records, labels: &Row<Label>) -> bool {
    if records.len() != 1 || labels.len() != 2 {
        return false;
    }
    match records.with_labels(alloc, &[1], labels) {
        Ok(changed) => changed.len() == 1 && changed.entry(0).links == Some(3),
        Err(_) => false,
    }
}

#[test]
fn other_labels_keep_link_counts(rt: HostRuntime) -> Result<(), Fail> {
    let records = read_counted(rt.alloc(), b"f 1 5 3 t /a\0")?;
    let labels = two_labels(rt.alloc())?;
    assert!(rt; keeps_links(rt.alloc(), &records, &labels));
    Ok(())
}
