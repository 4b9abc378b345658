ghost use Rattle.std.specs.Prelude.{◌<◌, Ok, Some, ◌==◌};

use file_paths::{NormPath, PathFault, PathWhy};
use label_base::Fault;
use std::alloc::Global;
use std::test::Fail;

fn fault(alloc: Global, spelled: &[u8]) -> Option<PathFault> {
    NormPath::read(alloc, spelled).err()
}

fn is_spelled(alloc: Global, spelled: &[u8], text: &[u8]) -> Result<bool, PathFault> {
    Ok(NormPath::read(alloc, spelled)?.as_text() == text)
}

fn is_below(alloc: Global, path: &[u8], top: &[u8]) -> Result<bool, PathFault> {
    let top = NormPath::read(alloc, top)?;
    Ok(NormPath::read(alloc, path)?.is_at_or_below(&top))
}

fn usr_bin(alloc: Global) -> Result<NormPath, PathFault> {
    let mut path = NormPath::read(alloc, b"/usr")?.copy(alloc)?;
    path.push_name(b"bin")?;
    Ok(path)
}

#[test]
fn spellings_of_a_path(rt: HostRuntime) -> Result<(), Fail> {
    for (spelled, text) in [
        (b"/".as_slice(), b"/".as_slice()),
        (b"//a/", b"/a"),
        (b"/a//.b/...", b"/a/.b/..."),
        (&[b'/'; 4095], b"/"),
    ] {
        assert!(rt; is_spelled(rt.alloc(), spelled, text)?);
    }
    Ok(())
}

#[test]
fn faults_of_a_path(rt: HostRuntime) {
    let alloc = rt.alloc();
    assert_eq!(rt; fault(alloc, b""), Some(Fault::Why(PathWhy::Empty)));
    assert_eq!(rt;
        fault(alloc, &[b'/'; 4096]),
        Some(Fault::Why(PathWhy::PathTooLong))
    );
    assert_eq!(rt; fault(alloc, b"a\0"), Some(Fault::Why(PathWhy::HasNul)));
    assert_eq!(rt;
        fault(alloc, b"a/.."),
        Some(Fault::Why(PathWhy::NotAbsolute))
    );
    assert_eq!(rt;
        fault(alloc, b"/a/../b"),
        Some(Fault::Why(PathWhy::DotPart))
    );
    assert_eq!(rt; fault(alloc, b"/a/."), Some(Fault::Why(PathWhy::DotPart)));
}

fn fault_or(alloc: Global, spelled: &[u8]) -> Option<Fault<u8>> {
    NormPath::read_or(alloc, spelled, 3).err()
}

#[test]
fn one_reason_for_all_faults(rt: HostRuntime) {
    assert_eq!(rt; fault_or(rt.alloc(), b"/a/."), Some(Fault::Why(3)));
    assert_eq!(rt; fault_or(rt.alloc(), b"/a"), None);
}

#[test]
fn names_of_a_path(rt: HostRuntime) -> Result<(), Fail> {
    let path = usr_bin(rt.alloc())?;
    assert_eq!(rt; path.text(rt.alloc())?.as_slice(), b"/usr/bin".as_slice());
    assert_eq!(rt; path.names(), 2);
    assert_eq!(rt; path.name(1), b"bin".as_slice());
    assert!(rt; path.is_at_or_below(&NormPath::root(rt.alloc())));
    Ok(())
}

#[test]
fn paths_below_others(rt: HostRuntime) -> Result<(), Fail> {
    assert!(rt; is_below(rt.alloc(), b"/usr/bin", b"/usr")?);
    assert!(rt; !is_below(rt.alloc(), b"/usr", b"/usr/bin")?);
    assert!(rt; !is_below(rt.alloc(), b"/usr2", b"/usr")?);
    Ok(())
}

#[test]
fn a_front_replaced(rt: HostRuntime) -> Result<(), Fail> {
    let path = NormPath::read(rt.alloc(), b"/usr/lib64/a/b")?;
    let source = NormPath::read(rt.alloc(), b"/usr/lib64")?;
    let target = NormPath::read(rt.alloc(), b"/lib")?;
    let (path, source, target) = (path.path(), source.path(), target.path());
    assert!(rt; path.is_at_or_below(&source));
    let changed = NormPath::replaced(rt.alloc(), &path, &source, &target)?;
    assert_eq!(rt; changed.as_text(), b"/lib/a/b".as_slice());
    Ok(())
}

#[test]
fn order_of_paths(rt: HostRuntime) -> Result<(), Fail> {
    let child = NormPath::read(rt.alloc(), b"/a/b")?;
    let other = NormPath::read(rt.alloc(), b"/a-b")?;
    assert!(rt; child < other);
    assert!(rt; child != other);
    Ok(())
}
