//! Writes down the world of a store.
use std::alloc::Global;
use std::test::Fail;
use test_support::calls::answered;
use world::shelves::Shelves;

/// Calls whose answers tell the world, as far as the names of the rows go: the keys, what each shelf sees, and for each
/// shelf whether it exists and may be a team's group. The last calls add the shelves that do not exist, and a member of
/// each group.
const CALLS: &str = "\
key|alphakey00000001
key|alphareader00001
key|betakey000000001
key|commonkey0000001
key|gammakey00000001
key|platformkey00001
paths|alpha
versions|alpha|example.com/lib
entry|alpha|example.com/lib|v1.0.0
entry|alpha|example.com/lib|v1.1.0
versions|alpha|example.com/new
entry|alpha|example.com/new|v1.0.0
entry|alpha|example.com/new|v1.1.0
versions|alpha|example.com/x
entry|alpha|example.com/x|v1.0.0
entry|alpha|example.com/x|v1.1.0
paths|beta
versions|beta|example.com/lib
entry|beta|example.com/lib|v1.0.0
entry|beta|example.com/lib|v1.1.0
versions|beta|example.com/new
entry|beta|example.com/new|v1.0.0
entry|beta|example.com/new|v1.1.0
versions|beta|example.com/x
entry|beta|example.com/x|v1.0.0
entry|beta|example.com/x|v1.1.0
paths|gamma
versions|gamma|example.com/lib
entry|gamma|example.com/lib|v1.0.0
entry|gamma|example.com/lib|v1.1.0
versions|gamma|example.com/new
entry|gamma|example.com/new|v1.0.0
entry|gamma|example.com/new|v1.1.0
versions|gamma|example.com/x
entry|gamma|example.com/x|v1.0.0
entry|gamma|example.com/x|v1.1.0
paths|platform
versions|platform|example.com/lib
entry|platform|example.com/lib|v1.0.0
entry|platform|example.com/lib|v1.1.0
versions|platform|example.com/new
entry|platform|example.com/new|v1.0.0
entry|platform|example.com/new|v1.1.0
versions|platform|example.com/x
entry|platform|example.com/x|v1.0.0
entry|platform|example.com/x|v1.1.0
team-add|alpha
team-add|member|alpha
team-add|beta
team-add|member|beta
team-add|gamma
team-add|member|gamma
team-add|platform
team-add|member|platform
team-add|tools
team-add|member|tools
";

/// Writes down the world, and returns 0, as nothing is acknowledged. It changes the store.
pub fn told_by<S: Shelves>(alloc: Global, shelves: &mut S, told: &mut String) -> Result<u8, Fail> {
    for call in CALLS.lines() {
        told.push_str(answered(alloc, shelves, call)?.as_str())?;
        told.push_str("\n")?;
    }
    Ok(0)
}
