//! Scripts of calls, each run on new shelves in memory.
use memory_store::map_shelves::MapShelves;
use std::alloc::Global;
use std::test::Fail;
use test_support::calls::{CALLS, wrong_row_of};

fn wrong_row_of_maps<'a>(alloc: Global, script: &'a str) -> Result<&'a str, Fail> {
    wrong_row_of(alloc, MapShelves::new(alloc)?, script)
}

#[test]
fn maps_answer(rt: HostRuntime) -> Result<(), Fail> {
    for script in CALLS.split("====\n") {
        assert_eq!(rt; wrong_row_of_maps(rt.alloc(), script)?, "");
    }
    Ok(())
}
