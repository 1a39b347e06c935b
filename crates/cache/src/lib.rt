//! What a store keeps from call to call, so that it need not query its tables again.
//!
//! | module | what it keeps | valid until |
//! |---|---|---|
//! | `lists` | the versions of a path that a shelf sees, their latest | the path gets a version, or a team is added |
//! | `absences` | the paths at which a shelf sees no version | the path gets a version, or a team is added |
//! | `missed` | at which paths a shelf looked for a version in vain | the shelf looks there again |
//! | `counts` | how many versions of a path stand on a shelf | the path gets a version there, which raises it |
//! | `groups` | the group of a shelf, or that it has none | forever: the group of a shelf never changes |
//! | `zips` | the zip of the entry at a place | forever: an entry never changes |
//! | `headings` | what a shelf sees of a version, without its zip | any path gets a version, or a team is added |
//! | `keys` | what a key holds | a key is revoked |
//! | `total` | how many versions there are | any path gets a version, which raises it |
//! | `kept` | all of them | |
//!
//! If memory runs out, less is kept. What is kept weighs at most the figures of its kinds: `Caches::bounds`.
#![tactic(auto)]

pub mod absences;
pub mod caches;
pub mod counts;
pub mod groups;
pub mod headings;
pub mod keys;
pub mod lists;
pub mod missed;
pub mod recent;
pub mod total;
pub mod zips;
