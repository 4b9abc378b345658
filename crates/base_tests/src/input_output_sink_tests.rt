ghost use Rattle.std.specs.Prelude.{◌<◌};

use input_output::{WriteFailed, WriteSink, write_all, write_text};
use label_base::{Bytes, PiecedText};
use std::test::Fail;

#[test]
fn pieces_are_written_in_order(rt: HostRuntime) -> Result<(), Fail> {
    let mut written = Vec::new(rt.alloc());
    let mut text = PiecedText::of(rt.alloc(), Bytes::copy_of(rt.alloc(), b"abc")?)?;
    text.push(Bytes::copy_of(rt.alloc(), b"de")?)?;
    assert_eq!(rt;
        write_text(&mut WriteSink::new(&mut written), &text),
        Ok(())
    );
    assert_eq!(rt; written.as_slice(), b"abcde".as_slice());
    Ok(())
}

#[test]
fn a_writer_is_a_sink(rt: HostRuntime) {
    let mut written = Vec::new(rt.alloc());
    assert_eq!(rt;
        write_all(&mut WriteSink::new(&mut written), b"abc"),
        Ok(())
    );
    assert_eq!(rt; written.as_slice(), b"abc".as_slice());
}

#[test]
fn a_write_of_no_bytes_is_a_failure(rt: HostRuntime) {
    let mut room = [0; 2];
    let full = write_all(&mut WriteSink::new(room.as_mut_slice()), b"abc");
    assert_eq!(rt; full, Err(WriteFailed));
}
