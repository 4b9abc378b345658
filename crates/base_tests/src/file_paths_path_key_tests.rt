use file_paths::{NormPath, PathFault};
use std::alloc::Global;
use std::cmp::Ordering;
use std::test::Fail;

fn compared(alloc: Global, path: &[u8], other: &[u8]) -> Result<Ordering, PathFault> {
    let path = NormPath::read(alloc, path)?;
    let other = NormPath::read(alloc, other)?;
    Ok(path.key().cmp(&other.key()))
}

#[test]
fn order_of_keys(rt: HostRuntime) -> Result<(), Fail> {
    for (path, other, wanted) in [
        (b"/".as_slice(), b"/a".as_slice(), Ordering::Less),
        (b"/a/b", b"/a-b", Ordering::Less),
        (b"/usr/bin", b"/usr/bin", Ordering::Equal),
        (b"/usr/lib/b", b"/usr/lib/a", Ordering::Greater),
        (b"/usr/share/doc/b", b"/usr/share/doc-a", Ordering::Less),
    ] {
        assert_eq!(rt; compared(rt.alloc(), path, other)?, wanted);
    }
    Ok(())
}

#[test]
fn equal_keys(rt: HostRuntime) -> Result<(), Fail> {
    let path = NormPath::read(rt.alloc(), b"/usr/share/doc/a")?;
    let other = NormPath::read(rt.alloc(), b"/usr/share/doc/b")?;
    assert!(rt; path.key() == path.key());
    assert!(rt; path.key() != other.key());
    Ok(())
}
