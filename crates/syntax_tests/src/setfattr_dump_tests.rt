ghost use Rattle.std.specs.Prelude.{◌<◌, ◌^◌, length};

use file_paths::NormPath;
use label_base::{Bytes, Fault, OutOfMemory, RefusedLine};
use setfattr_dump::{
    Attr, DIGEST_KEY, Dump, DumpFault, DumpWhy, LABEL_KEY, add_attr, add_name,
    dumps_follow_grammar, end_section, read_dumps_can_be_written,
};
use std::alloc::Global;
use std::test::Fail;

fn read(rt: &HostRuntime, bytes: &[u8]) -> Result<Dump, DumpFault>
    requires { length bytes.now < 2 ^ 32 }
{
    Dump::read(rt.alloc(), bytes)
}

// The lines of one section with one attribute.
fn section(alloc: Global, name: &NormPath, key: &[u8], value: &[u8]) -> Result<Bytes, OutOfMemory> {
    let mut text = Bytes::new(alloc);
    add_name(alloc, &name.path(), &mut text)?;
    add_attr(key, value, &mut text)?;
    end_section(&mut text)?;
    Ok(text)
}

#[test]
fn a_label_is_a_text(rt: HostRuntime) -> Result<(), Fail> {
    let name = NormPath::read(rt.alloc(), b"/srv/b")?;
    let label = b"unconfined_u:object_r:var_t:s0-s0:c0.c1023";
    let text = section(rt.alloc(), &name, LABEL_KEY, label)?;
    assert_eq!(rt;
        text.as_slice(),
        b"# file: /srv/b\n\
            security.selinux=\"unconfined_u:object_r:var_t:s0-s0:c0.c1023\"\n\n"
            .as_slice()
    );
    Ok(())
}

#[test]
fn a_digest_is_digits(rt: HostRuntime) -> Result<(), Fail> {
    let name = NormPath::read(rt.alloc(), b"/a")?;
    let text = section(rt.alloc(), &name, DIGEST_KEY, b"\x00\x9a\xff")?;
    assert_eq!(rt;
        text.as_slice(),
        b"# file: /a\nsecurity.sehash=0x009aff\n\n".as_slice()
    );
    Ok(())
}

#[test]
fn a_name_makes_no_line(rt: HostRuntime) -> Result<(), Fail> {
    let name = NormPath::read(rt.alloc(), b"/srv/c\nd\\e")?;
    let text = section(rt.alloc(), &name, LABEL_KEY, b"a\"b\\c\n\x7f\xff")?;
    assert_eq!(rt;
        text.as_slice(),
        b"# file: /srv/c\\012d\\134e\n\
            security.selinux=\"a\\042b\\134c\\012\\177\xff\"\n\n"
            .as_slice()
    );
    Ok(())
}

// The text of the first section's name.
fn first_name(dump: &Dump) -> Option<&[u8]> {
    let section = dump.sections.as_slice().first()?;
    Some(section.name.as_text())
}

// The first attribute of the first section.
fn first_attr(dump: &Dump) -> Option<&Attr> {
    let section = dump.sections.as_slice().first()?;
    section.attrs.as_slice().first()
}

fn first_value(dump: &Dump) -> Option<&[u8]> {
    let attr = first_attr(dump)?;
    Some(attr.value.as_slice())
}

// Whether the first section of a text has this name.
fn is_named(alloc: Global, text: &[u8], want: &[u8]) -> Result<bool, DumpFault>
    requires { length text.now < 2 ^ 32 }
{
    let dump = Dump::read(alloc, text)?;
    Ok(first_name(&dump) == Some(want))
}

// Whether the first attribute of a text has this value.
fn is_valued(alloc: Global, text: &[u8], want: &[u8]) -> Result<bool, DumpFault>
    requires { length text.now < 2 ^ 32 }
{
    let dump = Dump::read(alloc, text)?;
    Ok(first_value(&dump) == Some(want))
}

#[test]
fn names_are_read(rt: HostRuntime) -> Result<(), Fail> {
    for (line, want) in [
        ("# file: /srv/c\\012d\\134e", "/srv/c\nd\\e"),
        ("# file: srv//a/", "/srv/a"),
        ("# file: ", "/"),
        ("# file: \\057a", "/a"),
    ] {
        assert!(rt;
            is_named(rt.alloc(), line.as_bytes(), want.as_bytes())?,
            "at {line}"
        );
    }
    Ok(())
}

#[test]
fn values_are_read(rt: HostRuntime) -> Result<(), Fail> {
    for (line, want) in [
        ("# file: a\nk=\"a\\042\\\"\\\\b=\\101\"", "a\"\"\\b=A"),
        ("# file: a\nk=\"\"", ""),
        ("# file: a\nk=0x", ""),
        ("# file: a\nk=0X4a4B", "JK"),
    ] {
        assert!(rt;
            is_valued(rt.alloc(), line.as_bytes(), want.as_bytes())?,
            "at {line}"
        );
    }
    Ok(())
}

#[test]
fn the_first_equals_ends_the_key(rt: HostRuntime) -> Result<(), Fail> {
    let dump = read(&rt, b"# file: a\nuser.a b=\"c=d\"\n")?;
    let key = first_attr(&dump).map(|attr| attr.key.as_slice());
    assert_eq!(rt; key, Some(b"user.a b".as_slice()));
    Ok(())
}

#[test]
fn equal_names_stay_apart(rt: HostRuntime) -> Result<(), Fail> {
    let dump = read(&rt, b"\n# file: /a\nk=\"1\"\n# file: a\n\n\n# file: /b\n")?;
    assert_eq!(rt; dump.sections.len(), 3);
    Ok(())
}

#[test]
fn refuses_lines(rt: HostRuntime) {
    for (text, number, why) in [
        ("k=\"v\"", 1, DumpWhy::NoSection),
        ("# file: a\n\nk", 3, DumpWhy::NoSection),
        ("#file: a", 1, DumpWhy::NoSection),
        ("# file: a\\9", 1, DumpWhy::BadName),
        ("# file: a/../b", 1, DumpWhy::BadName),
        ("# file: a\\000", 1, DumpWhy::BadName),
        ("# file: a\n# comment", 2, DumpWhy::NoValue),
        ("# file: a\n=\"v\"", 2, DumpWhy::NoValue),
        ("# file: a\nk=v", 2, DumpWhy::BadValue),
        ("# file: a\nk=\"", 2, DumpWhy::BadValue),
        ("# file: a\nk=\"v\\\"", 2, DumpWhy::BadValue),
        ("# file: a\nk=\"v\"w\"", 2, DumpWhy::BadValue),
        ("# file: a\nk=\"\\400\"", 2, DumpWhy::BadValue),
        ("# file: a\nk=0x1", 2, DumpWhy::BadValue),
        ("# file: a\nk=0x1g", 2, DumpWhy::BadValue),
        ("# file: a\nk=0sYQ==", 2, DumpWhy::BadValue),
        ("# file: a\nk=", 2, DumpWhy::BadValue),
    ] {
        let fault = read(&rt, text.as_bytes()).err();
        assert_eq!(rt;
            fault,
            Some(Fault::Why(RefusedLine { number, why })),
            "at {text}"
        );
    }
}

// What is read of a text, as it is written.
fn rewritten(alloc: Global, text: &[u8]) -> Result<Bytes, DumpFault>
    requires { length text.now < 2 ^ 32 }
{
    read_dumps_can_be_written(text);
    let dump = Dump::read(alloc, text)?;
    Ok(dump.write(alloc)?)
}

#[test]
fn written_as_it_was_read(rt: HostRuntime) -> Result<(), Fail> {
    dumps_follow_grammar(b"# file: /a\n\n");
    for text in [
        "",
        "# file: /srv/b\nsecurity.selinux=\"unconfined_u:object_r:var_t:s0-s0:c0.c1023\"\n\n",
        "# file: /srv/c\\012d\\134e\nsecurity.selinux=\"system_u:object_r:var_t:s0\"\n\n",
        "# file: /srv\nsecurity.sehash=0x00\n\n# file: /srv/sub\nsecurity.sehash=0xff\n\n",
        "# file: /a\nsecurity.sehash=0x0000\n\n# file: /a/q\nsecurity.selinux=\"u:r:q_t:s0\"\n\n",
        "# file: /\nuser.x=\"\\042\\134\\012\"\nuser.y=\"\"\n\n# file: /\n\n",
    ] {
        let again = rewritten(rt.alloc(), text.as_bytes())?;
        assert_eq!(rt; again.as_slice(), text.as_bytes(), "at {text}");
    }
    Ok(())
}

#[test]
fn written_in_one_spelling(rt: HostRuntime) -> Result<(), Fail> {
    for (text, want) in [
        (
            "# file: srv\nsecurity.sehash=0xAB\n",
            "# file: /srv\nsecurity.sehash=0xab\n\n",
        ),
        (
            "# file: a\nk=0x61\n# file: b",
            "# file: /a\nk=\"a\"\n\n# file: /b\n\n",
        ),
        (
            "\n\n# file: //a/\nk=\"\\\"\\\\\"",
            "# file: /a\nk=\"\\042\\134\"\n\n",
        ),
    ] {
        let again = rewritten(rt.alloc(), text.as_bytes())?;
        assert_eq!(rt; again.as_slice(), want.as_bytes(), "at {text}");
    }
    Ok(())
}
