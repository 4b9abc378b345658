use file_roles::{FileList, FileRole, Part};
use input_output::MemStore;
use label_base::{OutOfMemory, Row};
use policy_files::{add_policy, add_types, read_specifications, read_substitutions, read_types};
use run_faults::Cause;
use std::alloc::Global;
use std::test::Fail;

fn list(alloc: Global) -> Result<FileList, OutOfMemory> {
    let mut list = FileList::new(alloc);
    add_policy(alloc, 0, "fc", &mut list)?;
    add_types(alloc, &mut list)?;
    Ok(list)
}

fn is_named(list: &FileList, part: Part, name: &str) -> bool {
    list.name_of(FileRole::alone(part)) == name
}

#[test]
fn files_stand_beside_the_base_file(rt: HostRuntime) -> Result<(), Fail> {
    let list = list(rt.alloc())?;
    for (part, name) in [
        (Part::Base, "fc"),
        (Part::Homedirs, "fc.homedirs"),
        (Part::Local, "fc.local"),
        (Part::Subs, "fc.subs"),
        (Part::SubsDist, "fc.subs_dist"),
        (
            Part::Customizable,
            "/etc/selinux/targeted/contexts/customizable_types",
        ),
    ] {
        assert!(rt; is_named(&list, part, name), "at {part:?}");
    }
    Ok(())
}

fn store(alloc: Global, name: &str, bytes: &[u8]) -> Result<MemStore, OutOfMemory> {
    let mut store = MemStore::new(alloc, Row::new(alloc));
    store.put(alloc, name, bytes)?;
    Ok(store)
}

// How many specifications a base file has.
fn count_specifications(alloc: Global, specs: &[u8]) -> Result<u32, Cause> {
    let mut store = store(alloc, "fc", specs)?;
    Ok(read_specifications(alloc, &list(alloc)?, 0, &mut store)?.len())
}

#[test]
fn specifications_are_read(rt: HostRuntime) {
    let count = count_specifications(rt.alloc(), b"/srv/.* u:r:srv_t:s0\n/opt u:r:opt_t:s0\n");
    assert!(rt; count.is_ok_and(|count| count == 2));
}

#[test]
fn a_line_is_refused(rt: HostRuntime) {
    let refused = count_specifications(rt.alloc(), b"/srv/.* u:r:srv_t:s0\n/opt\n");
    assert!(rt; matches!(refused, Err(Cause::SpecRefused { line: 2, .. })));
}

// How many lines the first file of substitutions has.
fn count_substitutions(alloc: Global, lines: &[u8]) -> Result<usize, Cause> {
    let mut store = store(alloc, "fc.subs", lines)?;
    Ok(
        read_substitutions(alloc, &list(alloc)?, 0, &mut store)?
            .first
            .lines()
            .len(),
    )
}

#[test]
fn substitutions_are_read(rt: HostRuntime) {
    let count = count_substitutions(rt.alloc(), b"/myweb /run/web\n");
    assert!(rt; count.is_ok_and(|count| count == 1));
}

// Whether a name is among the customizable types of this file.
fn has_type(alloc: Global, types: &[u8], name: &[u8]) -> Result<bool, Cause> {
    let place = "/etc/selinux/targeted/contexts/customizable_types";
    let mut store = store(alloc, place, types)?;
    Ok(read_types(alloc, &list(alloc)?, &mut store)?.has(name))
}

#[test]
fn customizable_types_are_read(rt: HostRuntime) {
    let found = has_type(rt.alloc(), b"public_content_t\n", b"public_content_t");
    assert!(rt; found.is_ok_and(|found| found));
}
