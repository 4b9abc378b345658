ghost use Rattle.std.specs.Prelude.{◌<◌};

use label_base::Bytes;
use std::test::Fail;

#[test]
fn bytes_grow_and_compare(rt: HostRuntime) -> Result<(), Fail> {
    let mut bytes = Bytes::with_capacity(rt.alloc(), 3)?;
    bytes.push(b"ab")?;
    let shorter = Bytes::copy_of(rt.alloc(), bytes.as_slice())?;
    bytes.push_byte(b'c')?;
    assert_eq!(rt; bytes.len(), 3);
    assert_eq!(rt; bytes.get(2), b'c');
    assert!(rt; shorter < bytes);
    assert!(rt; shorter != Bytes::new(rt.alloc()));
    Ok(())
}

#[test]
fn more_bytes_than_stand_in_the_value(rt: HostRuntime) -> Result<(), Fail> {
    let mut bytes = Bytes::copy_of(rt.alloc(), b"0123456789abcdef")?;
    bytes.push(b"gh")?;
    assert_eq!(rt; bytes.as_slice(), b"0123456789abcdefgh".as_slice());
    bytes.clear();
    assert!(rt; bytes == Bytes::new(rt.alloc()));
    Ok(())
}

#[test]
fn bytes_of_a_vector(rt: HostRuntime) -> Result<(), Fail> {
    let items = vec![in rt.alloc(); b'a'; 20]?;
    assert_eq!(rt; Bytes::from(items).len(), 20);
    Ok(())
}
