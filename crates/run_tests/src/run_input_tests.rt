use file_roles::{FileList, FileRole, Part};
use find_records::Format;
use input_output::{MemSource, MemStore};
use label_base::{Bytes, Name, OutOfMemory, Row};
use run_input::{read_entries, read_part};
use std::alloc::Global;
use std::test::Fail;

fn input_of(alloc: Global, records: &[u8]) -> Result<MemSource, OutOfMemory> {
    let bytes = Bytes::copy_of(alloc, records)?;
    Ok(MemSource::new(bytes, 10, Row::new(alloc)))
}

// How many entries are read, or none where they are refused.
fn count_of(alloc: Global, records: Option<Format>, input: &mut MemSource) -> Option<u32> {
    match read_entries(alloc, records, input) {
        Ok(tree) => Some(tree.len()),
        Err(_) => None,
    }
}

// How many entries are read of these records, and how many of their bytes are left.
fn read_by(
    alloc: Global,
    format: Option<Format>,
    records: &[u8],
) -> Result<(Option<u32>, usize), OutOfMemory> {
    let mut input = input_of(alloc, records)?;
    let count = count_of(alloc, format, &mut input);
    Ok((count, input.left().len()))
}

#[test]
fn records_are_read_to_their_end(rt: HostRuntime) -> Result<(), Fail> {
    let records = b"d 1 2 ? /\0f 1 5 ? /a\0";
    assert_eq!(rt;
        read_by(rt.alloc(), Some(Format::One), records)?,
        (Some(2), 0)
    );
    Ok(())
}

#[test]
fn a_tool_without_records_leaves_the_input_alone(rt: HostRuntime) -> Result<(), Fail> {
    assert_eq!(rt; read_by(rt.alloc(), None, b"no records")?, (Some(0), 10));
    Ok(())
}

fn files(alloc: Global) -> Result<FileList, OutOfMemory> {
    let mut files = FileList::new(alloc);
    files.add(FileRole::alone(Part::Base), Name::copy_of(alloc, "fc")?)?;
    Ok(files)
}

// How many bytes the base file has in a store with this file, or none where it is refused.
fn length_in(alloc: Global, name: &str) -> Result<Option<usize>, OutOfMemory> {
    let mut store = MemStore::new(alloc, Row::new(alloc));
    store.put(alloc, name, b"bytes")?;
    match read_part(
        alloc,
        &files(alloc)?,
        FileRole::alone(Part::Base),
        &mut store,
    ) {
        Ok(bytes) => Ok(Some(bytes.len())),
        Err(_) => Ok(None),
    }
}

#[test]
fn a_file_is_read_by_its_role(rt: HostRuntime) -> Result<(), Fail> {
    assert_eq!(rt; length_in(rt.alloc(), "fc")?, Some(5));
    assert_eq!(rt; length_in(rt.alloc(), "other")?, None);
    Ok(())
}
