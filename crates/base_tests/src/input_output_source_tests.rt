use input_output::{AllFault, ReadSource, read_all};
use std::test::Fail;

#[test]
fn a_reader_is_a_source(rt: HostRuntime) -> Result<(), Fail> {
    let all = read_all(rt.alloc(), &mut ReadSource::new(b"abc".as_slice()), 3)?;
    assert_eq!(rt; all.as_slice(), b"abc".as_slice());
    let long = read_all(rt.alloc(), &mut ReadSource::new(b"abc".as_slice()), 2).err();
    assert_eq!(rt; long, Some(AllFault::TooLong));
    Ok(())
}
