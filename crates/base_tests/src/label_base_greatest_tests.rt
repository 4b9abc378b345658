use label_base::greater;

#[test]
fn one_is_greater_than_none(rt: HostRuntime) {
    assert_eq!(rt; greater(Some(2), Some(7)), Some(7));
    assert_eq!(rt; greater(Some(0), None), Some(0));
}
