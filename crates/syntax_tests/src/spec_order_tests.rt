ghost use Rattle.std.specs.Prelude.{◌<◌, ◌^◌, length};

use file_roles::Part;
use label_base::Row;
use spec_order::ordered;
use spec_reader::{Spec, SpecFault, read_specs};
use std::alloc::Global;
use std::test::Fail;

fn specs_of(alloc: Global, part: Part, text: &[u8]) -> Result<Row<Spec>, SpecFault>
    requires { length text.now < 2 ^ 32 }
{
    read_specs(alloc, text, part, 9)
}

// Each of the next three functions reads one file and owns what it reads.
fn ordered_with_local(
    alloc: Global,
    base: Row<Spec>,
    home: Row<Spec>,
    local: &[u8],
) -> Result<Row<Spec>, Fail>
    requires { length local.now < 2 ^ 32 }
{
    let local = specs_of(alloc, Part::Local, local)?;
    Ok(ordered(alloc, base, home, local)?)
}

fn ordered_with_home(
    alloc: Global,
    base: Row<Spec>,
    home: &[u8],
    local: &[u8],
) -> Result<Row<Spec>, Fail>
    requires home { length home.now < 2 ^ 32 }
    requires local { length local.now < 2 ^ 32 }
{
    let home = specs_of(alloc, Part::Homedirs, home)?;
    ordered_with_local(alloc, base, home, local)
}

fn ordered_texts(alloc: Global, base: &[u8], home: &[u8], local: &[u8]) -> Result<Row<Spec>, Fail>
    requires base { length base.now < 2 ^ 32 }
    requires home { length home.now < 2 ^ 32 }
    requires local { length local.now < 2 ^ 32 }
{
    let base = specs_of(alloc, Part::Base, base)?;
    ordered_with_home(alloc, base, home, local)
}

#[test]
fn puts_exact_texts_last(rt: HostRuntime) -> Result<(), Fail> {
    let specs = ordered_texts(
        rt.alloc(),
        b"/etc/foo\\.conf <<none>>\n/etc/.* <<none>>",
        b"/home/[^/]+ -d <<none>>\n/home -d <<none>>",
        b"/usr/bin/.* <<none>>",
    )?;
    assert_eq!(rt; specs.len(), 5);
    for (i, want) in [
        (0, "/etc/.*"),
        (1, "/home/[^/]+"),
        (2, "/usr/bin/.*"),
        (3, "/etc/foo\\.conf"),
        (4, "/home"),
    ] {
        assert_eq!(rt; specs.get(i).text(), want.as_bytes(), "at {i}");
    }
    Ok(())
}
