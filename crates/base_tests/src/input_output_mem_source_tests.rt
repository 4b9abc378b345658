ghost use Rattle.std.specs.Prelude.{◌<◌, ◌-◌, Some};

use input_output::{AllFault, MemSource, Source, SureSource, Take, read_all};
use label_base::{Bytes, Row};
use std::test::Fail;

#[test]
fn a_listed_call_fails_and_loses_nothing(rt: HostRuntime) -> Result<(), Fail> {
    let mut failing = Row::new(rt.alloc());
    failing.push(2)?;
    let mut source = MemSource::new(Bytes::copy_of(rt.alloc(), b"abcde")?, 2, failing);
    let fault = read_all(rt.alloc(), &mut source, 5).err();
    assert_eq!(rt; fault, Some(AllFault::ReadFault));
    assert_eq!(rt; source.left(), b"cde".as_slice());
    let rest = read_all(rt.alloc(), &mut source, 5)?;
    assert_eq!(rt; rest.as_slice(), b"cde".as_slice());
    Ok(())
}

#[test]
fn a_sure_source_gives_all(rt: HostRuntime) -> Result<(), Fail> {
    let mut source = SureSource::new(Bytes::copy_of(rt.alloc(), b"abcde")?, 2);
    let mut room = [0; 4];
    assert_eq!(rt; source.read(&mut room), Take::Got(2));
    assert_eq!(rt; source.left(), b"cde".as_slice());
    let rest = read_all(rt.alloc(), &mut source, 3)?;
    assert_eq!(rt; rest.as_slice(), b"cde".as_slice());
    Ok(())
}
