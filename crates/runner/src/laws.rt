//! What holds of a store with the part of some teams, stated by the definitions of the layers below alone.
ghost use Rattle.runner.specs.Parts.{TeamsAreToldTheSame, OthersOfTeamsAreNotFound};
ghost use Rattle.runner.specs.Written.{TeamsAreWrittenTheSame, OthersOfTeamsAreWrittenNotFound};

/// A run over the part of some teams replies to requests with keys of the shelves that any of them sees as a run over
/// the whole does; faults are left out. From the part, a request with any other key is not found.
pub fn parts_of_teams()
    ensures own { TeamsAreToldTheSame }
    ensures others { OthersOfTeamsAreNotFound }
{}

/// Two runs, one from a world and one from the part of some teams, write the same texts if they answered the same
/// messages, all with keys of shelves that any of these teams sees; faults are left out. From the part, a message with
/// any other key gets the 404 or the 503.
pub fn parts_of_teams_in_bytes()
    ensures own { TeamsAreWrittenTheSame }
    ensures others { OthersOfTeamsAreWrittenNotFound }
{}
