ghost use Rattle.std.specs.Prelude.{◌-◌, ◌<◌};

use input_output::{FileFault, FileStore, Store};
use label_base::{Bytes, OutOfMemory, PiecedText};
use std::alloc::Global;
use std::test::Fail;
use std::{env, fs, process};

fn text(alloc: Global, bytes: &[u8]) -> Result<PiecedText, OutOfMemory> {
    PiecedText::of(alloc, Bytes::copy_of(alloc, bytes)?)
}

#[test]
fn a_file_of_the_system_is_written_and_read(rt: HostRuntime) -> Result<(), Fail> {
    let id = process::id(rt.process());
    let name = format!(in rt.alloc(); "label_base-{id}")?;
    let path = env::temp_dir(&rt)?.join(rt.alloc(), name.as_str())?;
    let mut store = FileStore::new(&rt);
    let mut longer = text(rt.alloc(), b"one")?;
    longer.push(Bytes::copy_of(rt.alloc(), b" and two")?)?;
    store.write_file(rt.alloc(), path.as_str(), &longer)?;
    store.write_file(rt.alloc(), path.as_str(), &text(rt.alloc(), b"three")?)?;
    let read = store.read_file(rt.alloc(), path.as_str(), 5);
    let long = store.read_file(rt.alloc(), path.as_str(), 4).err();
    fs::remove_file(&rt, path.as_str())?;
    assert_eq!(rt; read?.as_slice(), b"three".as_slice());
    assert_eq!(rt; long, Some(FileFault::TooLong));
    Ok(())
}

#[test]
fn a_name_leads_to_another_file(rt: HostRuntime) -> Result<(), Fail> {
    let id = process::id(rt.process());
    let name = format!(in rt.alloc(); "label_base-led-{id}")?;
    let path = env::temp_dir(&rt)?.join(rt.alloc(), name.as_str())?;
    let three = text(rt.alloc(), b"three")?;
    FileStore::new(&rt).write_file(rt.alloc(), path.as_str(), &three)?;
    let mut store = FileStore::redirected(&rt, "/dev/no such file", path.as_str());
    let read = store.read_file(rt.alloc(), "/dev/no such file", 5);
    fs::remove_file(&rt, path.as_str())?;
    assert_eq!(rt; read?.as_slice(), b"three".as_slice());
    let mut plain = FileStore::redirected(&rt, "/dev/no such file", "");
    let absent = plain.read_file(rt.alloc(), "/dev/no such file", 5).err();
    assert_eq!(rt; absent, Some(FileFault::NotThere));
    Ok(())
}

#[test]
fn a_file_that_is_not_there(rt: HostRuntime) {
    let mut store = FileStore::new(&rt);
    let absent = store.read_file(rt.alloc(), "/dev/no such file", 9).err();
    assert_eq!(rt; absent, Some(FileFault::NotThere));
    let below_none = store.read_file(rt.alloc(), "/dev/null/a", 9).err();
    assert_eq!(rt; below_none, Some(FileFault::Failed));
}

#[test]
fn no_file_has_so_long_a_name(rt: HostRuntime) -> Result<(), Fail> {
    let name = "a".repeat(rt.alloc(), 5000)?;
    let mut store = FileStore::new(&rt);
    let absent = store.read_file(rt.alloc(), name.as_str(), 9).err();
    assert_eq!(rt; absent, Some(FileFault::NotThere));
    Ok(())
}
