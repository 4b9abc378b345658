ghost use Rattle.label_base.specs.Escape.{octal_byte};
ghost use Rattle.std.specs.Prelude.{Some};

use label_base::{Bytes, EscapeFault, octal_byte, read_escaped, write_escaped};
use std::test::Fail;

#[test]
fn written_text_reads_back(rt: HostRuntime) -> Result<(), Fail> {
    let bytes = b"a b\\\n\x7f\xff";
    let mut text = Bytes::copy_of(rt.alloc(), b"/")?;
    write_escaped(rt.alloc(), bytes, &mut text)?;
    assert_eq!(rt; text.as_slice(), b"/a b\\134\\012\\177\xff".as_slice());
    let read = read_escaped(rt.alloc(), text.as_slice())?;
    assert_eq!(rt; read.as_slice(), b"/a b\\\n\x7f\xff".as_slice());
    Ok(())
}

#[test]
fn bad_escapes_are_refused(rt: HostRuntime) {
    for text in [b"a\\".as_slice(), b"\\37", b"\\400", b"\\08z", b"\\040\\"] {
        let fault = read_escaped(rt.alloc(), text).err();
        assert_eq!(rt; fault, Some(EscapeFault::BadEscape));
    }
}

#[test]
fn three_digits_are_a_byte(rt: HostRuntime) {
    assert_eq!(rt; octal_byte(b'1', b'3', b'4'), Some(b'\\'));
}
