ghost use Rattle.std.specs.Prelude.{◌<◌, Some};

use label_base::Row;
use std::test::Fail;

#[test]
fn items_come_back_in_order(rt: HostRuntime) -> Result<(), Fail> {
    let mut row = Row::with_capacity(rt.alloc(), 2)?;
    for item in [5u8, 6, 7] {
        row.push(item)?;
    }
    assert_eq!(rt; row.len(), 3);
    assert_eq!(rt; *row.get(1), 6);
    assert_eq!(rt; row.pop(), Some(7));
    assert_eq!(rt; row.as_slice(), [5, 6].as_slice());
    let items = row.into_vec();
    assert_eq!(rt; Row::from(items).as_slice(), [5, 6].as_slice());
    Ok(())
}
