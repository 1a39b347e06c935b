//! What the callers of a stream get, in bytes; and how long a body may be.
ghost use Rattle.std.specs.Prelude.{◌≡◌, ◌+◌};
ghost use Rattle.framing.specs.Message.{body_limit};
ghost use Rattle.world.specs.World.{gomod_limit, zip_limit};
ghost use Rattle.engine.specs.Accepted.{AcceptedIsWritten};
ghost use Rattle.engine.specs.Calls.{CallsTellAlike, CallsTellAlikeAsFar};
ghost use Rattle.engine.specs.Headline.{CallersAreAnsweredAlike, BytesStayServed, LatestIsWritten};
ghost use Rattle.engine.specs.Parts.{PartWritesTheSame, OthersAreWrittenNotFound};
ghost use Rattle.engine.specs.TwoStores.{TwoAnswersAreAlike};

use world::shelves::Shelves;

/// A caller gets the same bytes whether or not other teams send messages: two runs, one with the others' messages and
/// one without, write the same text for each remaining message. Registry commands may come among the messages, so that
/// keys come and go. The messages that a run answered 503 and the commands that met a fault are left out of it. The
/// runs begin in one world, or in two that agree on the registry and on what the caller's shelf sees, and they end in
/// worlds that agree again.
pub fn isolation()
    ensures { CallersAreAnsweredAlike }
{}

/// Once a GET of a version's `.mod`, `.zip`, `.info` or `-/gosum` by a key of a shelf is answered 200, every later GET
/// of it by a key that then belongs to the shelf gets the same bytes or the 503, whatever comes in between.
pub fn immutability()
    ensures { BytesStayServed }
{}

/// Once a publish by a key of a shelf is answered 201 or 200, every later GET of that version's `.mod`, `.zip`, `.info`
/// or `-/gosum` by a key that then belongs to the shelf gets what the publish handed in or the 503, whatever comes in
/// between.
pub fn acceptance()
    ensures { AcceptedIsWritten }
{}

/// A GET of `@latest` gets the name and the time of the highest version that the key's shelf sees and that the go.mod
/// of the highest does not retract, the 404 if there is none, or the 503.
pub fn latest_version()
    ensures { LatestIsWritten }
{}

/// Isolation also holds between two calls of [`answer_all`](crate::answer_all) over any two stores whose worlds agree
/// on the registry and on what the shelf sees, on honest disks and with known bytes: if the second stream lacks the
/// bytes of other teams' messages, the second call writes what the first writes without the texts for them, and the
/// worlds after both agree again, so that what holds of one stream holds of many. What the shelf sees is taken from any
/// later world, because a command between two streams may make it a member of a group. Both calls have to end well and
/// write no 503, neither for a remaining message nor in place of what is left. However they end, as far as both go they
/// write the same texts for the remaining messages, if none of these is the 503.
pub fn isolation_of_calls<S: Shelves, T: Shelves>()
    ensures whole { (old new : S) (old_too new_too : T)
        → CallsTellAlike (S.shown old) (S.shown new) (T.shown old_too) (T.shown new_too) }
    ensures as_far { (old new : S) (old_too new_too : T)
        → CallsTellAlikeAsFar (S.shown old) (S.shown new) (T.shown old_too) (T.shown new_too) }
{}

/// Two calls of [`answer_one`](crate::answer_one) that read the same known message, over any two stores whose worlds
/// are the same to a shelf, with the key of a shelf that it sees, write the same bytes, return the same status, and
/// leave worlds that are the same to the shelf, if both disks are honest, both calls end well and neither writes a 503.
/// So two databases whose rows of other teams differ in number and in order answer alike.
pub fn isolation_of_one_message<S: Shelves, T: Shelves>()
    ensures { (old new : S) (old_too new_too : T)
        → TwoAnswersAreAlike (S.shown old) (S.shown new) (T.shown old_too) (T.shown new_too) }
{}

/// Two runs, one from a world and one from a team's part of it, write the same texts if they answered the same
/// messages, all with keys of shelves that the team sees; faults are left out. From the part, a message with any other
/// key gets the 404 or the 503.
pub fn parts()
    ensures own { PartWritesTheSame }
    ensures others { OthersAreWrittenNotFound }
{}

/// The longest body is exactly as long as the longest go.mod and the longest zip together.
pub fn body_has_room_for_both_files()
    ensures { body_limit ≡ gomod_limit + zip_limit }
{}
