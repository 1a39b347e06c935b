//! What holds of worlds by their definitions alone.
ghost use Rattle.world.specs.EntryTest.{EntryTestIsExact};
ghost use Rattle.world.specs.Groups.{EachHasAKind, SeesItsGroup, SeesItselfAndCommon};
ghost use Rattle.world.specs.Part.{PartIsWorld, PartHasTheChain};
ghost use Rattle.world.specs.Places.{PlacesRead, SeenPlacesRead};
ghost use Rattle.world.specs.Profiles.{Profile2KeepsWorlds};
ghost use Rattle.world.specs.Versions.{VersionsAscend};

/// The test of an entry passes exactly those entries that may stand at their place.
pub fn entry_tests()
    ensures { EntryTestIsExact }
{}

/// A shelf is `common`, a group or a team, and sees itself, `common`, and the group that it is a member of. In a world
/// without groups it sees itself and `common`.
pub fn groups()
    ensures kinds { EachHasAKind }
    ensures sight { SeesItsGroup }
    ensures alone { SeesItselfAndCommon }
{}

/// What a shelf sees of a world is a world, and the shelves of that world are exactly those that the shelf sees.
pub fn parts()
    ensures world { PartIsWorld }
    ensures chain { PartHasTheChain }
{}

/// The versions of a path that a shelf sees stand in their list once each, each below the next. (SemVer 2.0.0, section
/// 11.)
pub fn versions_ascend()
    ensures { VersionsAscend }
{}

/// The path and the version of each entry of a world can be read, and so can those of each entry that a shelf sees.
pub fn places_read()
    ensures entries { PlacesRead }
    ensures seen { SeenPlacesRead }
{}

/// Every world whose go.mods the first profile reads is a world of the second.
pub fn profile_2_keeps_worlds()
    ensures { Profile2KeepsWorlds }
{}
