use file_paths::{NormPath, add_path};
use std::cmp::Ordering;
use std::test::Fail;

#[test]
fn borrowed_paths(rt: HostRuntime) -> Result<(), Fail> {
    let top = NormPath::read(rt.alloc(), b"/a")?;
    let below = NormPath::read(rt.alloc(), b"/a/b/")?;
    let (top, below) = (top.path(), below.path());
    assert_eq!(rt; below.names(), 2);
    assert!(rt; below.is_at_or_below(&top) && !below.is_same(&top));
    assert_eq!(rt; top.compare(&below), Ordering::Less);
    if below.is_at_or_below(&top) {
        assert_eq!(rt; below.behind(&top).as_text(), b"/b".as_slice());
    }
    Ok(())
}

#[test]
fn texts_of_paths_in_a_row(rt: HostRuntime) -> Result<(), Fail> {
    let mut texts = Vec::new(rt.alloc());
    add_path(rt.alloc(), &mut texts, b"//x/y/")?;
    add_path(rt.alloc(), &mut texts, b"/z")?;
    assert_eq!(rt; texts.as_slice(), b"/x/y/z".as_slice());
    Ok(())
}
