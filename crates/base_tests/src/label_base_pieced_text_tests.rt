use label_base::{Bytes, PiecedText};
use std::test::Fail;

#[test]
fn a_text_of_pieces_is_joined_in_order(rt: HostRuntime) -> Result<(), Fail> {
    let mut text = PiecedText::of(rt.alloc(), Bytes::copy_of(rt.alloc(), b"one, ")?)?;
    text.push(Bytes::new(rt.alloc()))?;
    text.push(Bytes::copy_of(rt.alloc(), b"two")?)?;
    assert_eq!(rt; text.pieces().len(), 3);
    assert_eq!(rt; text.joined(rt.alloc())?.as_slice(), b"one, two".as_slice());
    Ok(())
}
