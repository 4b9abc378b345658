use label_base::{Fault, OutOfMemory};

#[test]
fn a_reason_or_none(rt: HostRuntime) {
    assert_eq!(rt; Fault::Why(7).why(), Some(7));
    assert_eq!(rt; Fault::<u8>::OutOfMemory.why(), None);
}

#[test]
fn another_reason(rt: HostRuntime) {
    assert_eq!(rt; Fault::Why(7).because(true), Fault::Why(true));
    assert_eq!(rt; Fault::<u8>::OutOfMemory.because(true), Fault::OutOfMemory);
}
