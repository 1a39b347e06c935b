//! What holds of the machine and of every run of it.
ghost use Rattle.machine.specs.Laws.{WorldStays, RunsKeepWorlds, ChainsStay, OnlyChangesChange};
ghost use Rattle.machine.specs.Laws.{BodiesChangeNothing, RunsAreCut, RunsAreJoined};
ghost use Rattle.machine.specs.Immutability.{StaysServed, AcceptedIsServed, RepeatedListChangesNothing};
ghost use Rattle.machine.specs.PathLaws.{VersionsAreSeen, PathsAreSeen, PathsAreTold, ListIsTold, ListIsNotFound};
ghost use Rattle.machine.specs.PathLaws.{LatestIsTheTop, NoneIsLatest, LatestIsTold, LatestIsNotFound};
ghost use Rattle.machine.specs.Isolation.{IsIsolated, PurgedRunsAgree, FaultyRunsAgree, MarksAreAsLong};
ghost use Rattle.machine.specs.Isolation.{MarksAreAtTheirMoment, OnlyOthersGo, PurgeIsTheSame, AgreeIsLow, IsBlind};
ghost use Rattle.machine.specs.Faults.{NeedsAreOwn, UnknownNeedsNothing, NeedsAreAlike, FaultsAreAlike};
ghost use Rattle.machine.specs.Profiles.{ProfileInForceIsTheMachine, Profile2KeepsAnswers};
ghost use Rattle.machine.specs.Ungrouped.{EachIsOfOne, RepliesWithoutGroups, ListsWithoutGroups};
ghost use Rattle.machine.specs.Parts.{PartIsLow, IsBlindThroughout, PartTellsTheSame, OthersAreNotFound};

/// Each event leads from a world to a world.
pub fn soundness()
    ensures event { WorldStays }
    ensures run { RunsKeepWorlds }
{}

/// Runs remove no shelf, and each shelf still sees the same shelves.
pub fn chains()
    ensures { ChainsStay }
{}

/// A shelf gets the replies that it would get without the requests made with keys of shelves that it does not see, from
/// this world or from one that agrees with it on the registry and on what the shelf sees. The worlds after both agree
/// again, so the law also holds of what follows.
pub fn isolation()
    ensures { IsIsolated }
{}

/// A run over all events and a run over the purged list answer the remaining events alike, unless one of these met a
/// fault, and end in worlds that agree. Two runs whose answered events are equal after the purge give the remaining
/// ones equal replies.
pub fn runs_agree()
    ensures purged { PurgedRunsAgree }
    ensures faulty { FaultyRunsAgree }
{}

/// A purge removes exactly the requests whose key belongs, at their moment, to a shelf that the caller's shelf does not
/// see.
pub fn purge()
    ensures length { MarksAreAsLong }
    ensures moment { MarksAreAtTheirMoment }
    ensures others { OnlyOthersGo }
    ensures same { PurgeIsTheSame }
{}

/// A key of a shelf that another shelf sees gets equal replies in all worlds that are the same to that other shelf. Two
/// such worlds agree exactly if they have one registry.
pub fn blindness()
    ensures alike { IsBlind }
    ensures agree { AgreeIsLow }
{}

/// Keys of the shelves that a shelf sees get equal replies from a world and from the part of it that this shelf sees,
/// through whole runs. Any other key gets a not-found reply from the part.
pub fn parts()
    ensures low { PartIsLow }
    ensures throughout { IsBlindThroughout }
    ensures told { PartTellsTheSame }
    ensures others { OthersAreNotFound }
{}

/// Once a GET of one version has found it, each later GET of it with a key that then belongs to the shelf gets an equal
/// reply, or meets a fault.
pub fn immutability()
    ensures { StaysServed }
{}

/// The go.mod, the zip and the time of an accepted publish are served for good to each key of the shelf, unless a
/// request meets a fault.
pub fn acceptance()
    ensures { AcceptedIsServed }
{}

/// An accepted list of publishes changes nothing when it comes again with a key that may then publish to the shelf.
pub fn repetition()
    ensures { RepeatedListChangesNothing }
{}

/// Only a stored publish or a completed registry command changes the world.
pub fn changes()
    ensures others { OnlyChangesChange }
    ensures bodies { BodiesChangeNothing }
{}

/// A run can be cut at any event, and runs that meet can be joined.
pub fn runs()
    ensures cut { RunsAreCut }
    ensures joined { RunsAreJoined }
{}

/// The versions and the paths that a shelf sees are those at which it sees an entry.
pub fn sight()
    ensures versions { VersionsAreSeen }
    ensures paths { PathsAreSeen }
    ensures told { PathsAreTold }
{}

/// The list of a path holds the releases and pre-releases that the shelf sees, each below the next.
pub fn listing()
    ensures told { ListIsTold }
    ensures not_found { ListIsNotFound }
{}

/// The latest version of a path is the highest that the go.mod of the highest does not retract.
pub fn latest_version()
    ensures top { LatestIsTheTop }
    ensures none { NoneIsLatest }
    ensures told { LatestIsTold }
    ensures not_found { LatestIsNotFound }
{}

/// In a world whose go.mods the first profile reads, the second answers each event as the first does and leads to the
/// same world, except that it may give another answer to a publish whose go.mod the first does not read. The machine
/// that reads by the profile in force is the machine of this crate.
pub fn profile_2_keeps_answers()
    ensures in_force { ProfileInForceIsTheMachine }
    ensures answers { Profile2KeepsAnswers }
{}

/// In a world without groups, the machine replies to an event that names no group, and to a list of such events, as a
/// machine that knows no groups. There a shelf sees of each version its own entry if there is one, otherwise that of
/// `common`.
pub fn without_groups()
    ensures worlds { EachIsOfOne }
    ensures event { RepliesWithoutGroups }
    ensures list { ListsWithoutGroups }
{}

/// After its key, a request asks only the shelf that holds it. In all worlds that are the same to a shelf, a request
/// with a key of a shelf that it sees asks the same, in one order; and over stores that refuse the same questions it
/// meets the same fault, unless one of the two met a lack of memory. So a device fault tells nothing of what others
/// keep.
pub fn faults()
    ensures own { NeedsAreOwn }
    ensures unknown { UnknownNeedsNothing }
    ensures alike { NeedsAreAlike }
    ensures faults { FaultsAreAlike }
{}
