//! Counts of versions that a store keeps.
use std::test::Fail;
use world::counts::Counts;

#[test]
fn counts_go_by_shelf_and_path(rt: HostRuntime) -> Result<(), Fail> {
    let mut counts = Counts::new(rt.alloc());
    assert_eq!(rt; counts.get("alpha", "example.com/x"), None);
    counts.keep(rt.alloc(), "alpha", "example.com/x", 4095);
    counts.raise(rt.alloc(), "alpha", "example.com/x");
    counts.raise(rt.alloc(), "alpha", "example.com/y");
    assert_eq!(rt; counts.get("alpha", "example.com/x"), Some(4096));
    assert_eq!(rt; counts.get("alpha", "example.com/y"), None);
    assert_eq!(rt; counts.get("common", "example.com/x"), None);
    Ok(())
}
