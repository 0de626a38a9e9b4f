// Room that is reserved, and filled.
use crate::ReservedVec;
use std::test::Fail;

#[test]
fn holds_as_many_items_as_reserved(rt: HostRuntime) -> Result<(), Fail> {
    let reserved: ReservedVec<u8, 2> = ReservedVec::new(rt.alloc())?;
    let mut items = reserved.into_vec();
    assert_eq!(rt; items.len(), 0);
    items.push_reserved(7);
    items.push_reserved(8);
    assert_eq!(rt; items.as_slice(), [7, 8].as_slice());
    Ok(())
}
