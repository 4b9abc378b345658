ghost use Rattle.std.specs.Prelude.{◌<◌, ◌-◌};

use input_output::{MemSink, Put, Sink, SureSink, WriteFailed, write_all};
use label_base::Row;
use std::test::Fail;

#[test]
fn a_listed_call_fails_after_a_front(rt: HostRuntime) -> Result<(), Fail> {
    let mut failing = Row::new(rt.alloc());
    failing.push(3)?;
    let mut sink = MemSink::new(rt.alloc(), 2, failing);
    assert_eq!(rt; write_all(&mut sink, b"abcde"), Err(WriteFailed));
    assert_eq!(rt; sink.written(), b"abcd".as_slice());
    write_all(&mut sink, b"ef")?;
    assert_eq!(rt; sink.written(), b"abcdef".as_slice());
    Ok(())
}

#[test]
fn a_sure_sink_takes_pieces(rt: HostRuntime) {
    let mut sink = SureSink::new(2);
    assert_eq!(rt; sink.write(b"abc"), Put::Took(2));
    assert_eq!(rt; write_all(&mut sink, b"abc"), Ok(()));
}
