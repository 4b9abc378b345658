ghost use Rattle.std.specs.Prelude.{Some, Ok, Err};

use input_output::{FileFault, MemStore, SaveFault, Store, SureStore};
use label_base::{Bytes, PiecedText, Row};
use std::test::Fail;

#[test]
fn calls_of_both_kinds_are_counted_together(rt: HostRuntime) -> Result<(), Fail> {
    let mut failing = Row::new(rt.alloc());
    failing.push(2)?;
    let mut store = MemStore::new(rt.alloc(), failing);
    let absent = store.read_file(rt.alloc(), "a", 3).err();
    assert_eq!(rt; absent, Some(FileFault::NotThere));
    let two = PiecedText::of(rt.alloc(), Bytes::copy_of(rt.alloc(), b"two")?)?;
    let refused = store.write_file(rt.alloc(), "a", &two);
    assert_eq!(rt; refused, Err(SaveFault::Failed));
    assert!(rt; store.file("a").is_none());
    store.write_file(rt.alloc(), "a", &two)?;
    assert!(rt; store.file("a") == Some(b"two".as_slice()));
    Ok(())
}

#[test]
fn a_sure_store_keeps_the_last_content(rt: HostRuntime) -> Result<(), Fail> {
    let mut store = SureStore::new(rt.alloc());
    store.put(rt.alloc(), "a", b"one")?;
    let three = PiecedText::of(rt.alloc(), Bytes::copy_of(rt.alloc(), b"three")?)?;
    store.write_file(rt.alloc(), "a", &three)?;
    assert!(rt; store.file("a") == Some(b"three".as_slice()));
    let absent = store.read_file(rt.alloc(), "c", 9).err();
    assert_eq!(rt; absent, Some(FileFault::NotThere));
    let long = store.read_file(rt.alloc(), "a", 4).err();
    assert_eq!(rt; long, Some(FileFault::TooLong));
    Ok(())
}
