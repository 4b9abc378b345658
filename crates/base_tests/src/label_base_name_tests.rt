use label_base::Name;
use std::test::Fail;

#[test]
fn a_name_grows(rt: HostRuntime) -> Result<(), Fail> {
    let mut name = Name::new(rt.alloc());
    name.push("ab")?;
    name.push("c")?;
    assert_eq!(rt; name.len(), 3);
    assert_eq!(rt; name.get(2), b'c');
    assert_eq!(rt; Name::copy_of(rt.alloc(), "abc")?.as_str(), name.as_str());
    Ok(())
}
