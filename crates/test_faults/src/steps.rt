//! Steps: publishes and commands of the registry.
use std::alloc::Global;
use std::test::Fail;
use test_support::calls::wrong_row;
use world::shelves::Shelves;

/// What the files hold at first: a group, two teams and three keys, a version of alpha and one of `common`.
pub const SETUP: &str = "\
group-add|platform = Done
team-add|alpha|platform = Done
team-add|beta = Done
key-add|alpha|alphakey00000001 = Done
key-add|beta|betakey000000001 = Done
key-add|common|commonkey0000001 = Done
PUT A example.com/lib/@v/v1.0.0 | 201 Created | plain | published; | module example.com/lib; | Z
PUT C example.com/x/@v/v1.0.0 | 201 Created | plain | published; | module example.com/x; | X
";

/// The bits of eight steps.
pub const ALL: u8 = 255;

/// Does the steps whose bits are chosen, and returns the bits of those that are answered as they say.
pub fn done<S: Shelves>(
    alloc: Global,
    shelves: &mut S,
    steps: &str,
    chosen: u8,
) -> Result<u8, Fail> {
    let mut done = 0;
    let mut bit = 1u8;
    for step in steps.lines() {
        if chosen & bit != 0 && wrong_row(alloc, shelves, step)? == "" {
            done |= bit;
        }
        bit = bit.wrapping_mul(2);
    }
    Ok(done)
}

/// Does the steps of [`SETUP`] on shelves. Fails if one is not done.
pub fn set_up<S: Shelves>(alloc: Global, shelves: &mut S) -> Result<(), Fail> {
    if wrong_row(alloc, shelves, SETUP)? != "" {
        return Err(Fail::new("the steps before are not done"));
    }
    Ok(())
}
