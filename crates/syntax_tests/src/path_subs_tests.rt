ghost use Rattle.std.specs.Prelude.{◌<◌, ◌^◌, length};

use file_paths::NormPath;
use label_base::{Fault, RefusedLine};
use path_subs::{NoSub, SubFault, SubList, Subs, read_subs, subs_follow_grammar};
use std::test::Fail;

fn subs_of(rt: &HostRuntime, first: &[u8], second: &[u8]) -> Result<Subs, SubFault>
    requires first { length first.now < 2 ^ 32 }
    requires second { length second.now < 2 ^ 32 }
{
    Ok(Subs {
        first: SubList::new(rt.alloc(), read_subs(rt.alloc(), first)?)?,
        second: SubList::new(rt.alloc(), read_subs(rt.alloc(), second)?)?,
    })
}

#[test]
fn reads_lines(rt: HostRuntime) -> Result<(), Fail> {
    subs_follow_grammar(b"/a /b");
    let subs = read_subs(rt.alloc(), b"# subs\n \t\n\t/a/ //b x".as_slice())?;
    assert_eq!(rt; subs.len(), 1);
    let sub = subs.get(0);
    assert_eq!(rt; sub.source.text(rt.alloc())?.as_slice(), b"/a".as_slice());
    assert_eq!(rt; sub.target.text(rt.alloc())?.as_slice(), b"/b".as_slice());
    Ok(())
}

fn refused(number: u32) -> Option<SubFault> {
    Some(Fault::Why(RefusedLine { number, why: NoSub }))
}

#[test]
fn refuses_lines(rt: HostRuntime) {
    for text in ["/a", "/ /b", "a /b", "/a b"] {
        let fault = read_subs(rt.alloc(), text.as_bytes()).err();
        assert_eq!(rt; fault, refused(1), "at {text}");
    }
    let fault = read_subs(rt.alloc(), b"/a /b\n\n/c".as_slice()).err();
    assert_eq!(rt; fault, refused(3));
}

#[test]
fn applies_both_stages(rt: HostRuntime) -> Result<(), Fail> {
    let subs = subs_of(&rt, b"/myweb /run/web", b"/run /run\n/run /var/run")?;
    for (given, want, covered) in [
        ("/run/x", "/var/run/x", true),
        ("/run", "/var/run", true),
        ("/runner", "/runner", false),
        ("/myweb/a", "/var/run/web/a", true),
    ] {
        let path = NormPath::read(rt.alloc(), given.as_bytes())?;
        let changed = subs.apply(rt.alloc(), &path.path())?;
        assert_eq!(rt;
            changed.text(rt.alloc())?.as_slice(),
            want.as_bytes(),
            "at {given}"
        );
        assert_eq!(rt;
            subs.changed(rt.alloc(), &path.path())?.is_some(),
            covered,
            "at {given}"
        );
    }
    Ok(())
}

#[test]
fn knows_plain_paths(rt: HostRuntime) -> Result<(), Fail> {
    let subs = subs_of(&rt, b"/a/b /c", b"/c/d/e /f")?;
    for (given, plain) in [
        ("/", false),
        ("/a", false),
        ("/a/b", false),
        ("/a/b/d", false),
        ("/a/b/d/e", true),
        ("/a/b/x", true),
        ("/c", false),
        ("/c/d/e", true),
        ("/x", true),
    ] {
        let path = NormPath::read(rt.alloc(), given.as_bytes())?;
        assert_eq!(rt; subs.plain_at(&path.path()), plain, "at {given}");
    }
    Ok(())
}
