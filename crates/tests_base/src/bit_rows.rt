use std::test::Fail;
use vw_cell::BitSet;

#[test]
fn bits_are_kept_apart(rt: HostRuntime) -> Result<(), Fail> {
    let mut row = BitSet::new(rt.alloc(), 130)?;
    assert!(rt; !row.put(63, true), "all bits are clear at first");
    assert!(rt; !row.put(64, true), "the next word has bits of its own");
    assert!(rt; !row.put(129, true), "the last bit");
    assert!(rt; row.put(63, false), "a set bit");
    assert!(rt; !row.put(63, false), "a cleared bit");
    assert!(rt; row.put(64, true), "a bit that was left alone");
    Ok(())
}

#[test]
fn ranges_go_over_words(rt: HostRuntime) -> Result<(), Fail> {
    let mut row = BitSet::new(rt.alloc(), 200)?;
    row.put_range(10, 190, true);
    assert_eq!(rt; row.count(0, 200), 180);
    row.put_range(64, 128, false);
    assert_eq!(rt; row.count(0, 200), 116, "a whole word was cleared");
    assert_eq!(rt; row.count(63, 129), 2, "its neighbours were not");
    row.put_range(70, 70, true);
    assert_eq!(rt; row.count(64, 128), 0, "an empty range has no bit");
    Ok(())
}
