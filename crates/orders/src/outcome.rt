//! The outcome of an order, and its line.
ghost use Rattle.std.specs.Prelude.{◌≡◌, MatchOption};
ghost use Rattle.orders.specs.Outcome as spec;

use crate::line::text_of_line;
use world::registry::{RegistryReply, StoreFault};

/// The outcome of an order.
#[derive(Clone, Copy, Debug, Drop, PartialEq, Eq)]
pub enum Outcome {
    /// The machine's reply to the registry command; only `Done` changed anything. `Done` also means that a copy was
    /// made, or that all of a catalog was printed.
    RegistryReply(RegistryReply),
    /// A disk failed, the file of a copy can't be opened, or memory ran out, for the order or already for its line.
    /// Nothing was changed.
    Failed(StoreFault),
    /// No copy was made: the file has more than an empty store, is that of the served store, or a log stands alone
    /// beside it.
    NotEmpty,
    /// No copy was made and no catalog printed: another one of these is not over.
    Busy,
    /// No copy was made, or not all of a catalog was printed: the server ends, or the operator has left or takes no
    /// line.
    Ended,
    /// The server ends.
    Stopping,
    /// What came is no order's line, and nothing was done.
    Bad,
}

impl Outcome {
    /// Returns its line, with the end.
    pub fn line(self) -> &'static str
        ensures { result.now ≡ spec.line_of self }
    {
        match self {
            Outcome::RegistryReply(RegistryReply::Done) => "done\n",
            Outcome::RegistryReply(RegistryReply::Name) => "name\n",
            Outcome::RegistryReply(RegistryReply::Taken) => "taken\n",
            Outcome::RegistryReply(RegistryReply::NoTeam) => "no-team\n",
            Outcome::RegistryReply(RegistryReply::NoGroup) => "no-group\n",
            Outcome::RegistryReply(RegistryReply::NoKey) => "no-key\n",
            Outcome::Failed(StoreFault::Device) => "device\n",
            Outcome::Failed(StoreFault::Memory) => "memory\n",
            Outcome::NotEmpty => "not-empty\n",
            Outcome::Busy => "busy\n",
            Outcome::Ended => "ended\n",
            Outcome::Stopping => "stopping\n",
            Outcome::Bad => "bad\n",
        }
    }

    /// Returns the outcome of a word, or None if it is that of none.
    fn of_word(word: &str) -> Option<Outcome>
        ensures { MatchOption result (spec.IsNoWord word.now) (λ outcome. word.now ≡ spec.word_of outcome) }
    {
        match word {
            "done" => Some(Outcome::RegistryReply(RegistryReply::Done)),
            "name" => Some(Outcome::RegistryReply(RegistryReply::Name)),
            "taken" => Some(Outcome::RegistryReply(RegistryReply::Taken)),
            "no-team" => Some(Outcome::RegistryReply(RegistryReply::NoTeam)),
            "no-group" => Some(Outcome::RegistryReply(RegistryReply::NoGroup)),
            "no-key" => Some(Outcome::RegistryReply(RegistryReply::NoKey)),
            "device" => Some(Outcome::Failed(StoreFault::Device)),
            "memory" => Some(Outcome::Failed(StoreFault::Memory)),
            "not-empty" => Some(Outcome::NotEmpty),
            "busy" => Some(Outcome::Busy),
            "ended" => Some(Outcome::Ended),
            "stopping" => Some(Outcome::Stopping),
            "bad" => Some(Outcome::Bad),
            _ => None,
        }
    }
}

/// Returns the outcome whose line the bytes are, with its end, or None if they are that of none.
pub fn read_outcome(got: &[u8]) -> Option<Outcome>
    ensures { MatchOption result (spec.IsNoOutcome got.now) (λ outcome. got.now ≡ spec.line_of outcome) }
{
    let word = text_of_line(got)?;
    Outcome::of_word(word)
}
