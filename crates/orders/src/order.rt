//! The orders of operators.
ghost use Rattle.std.specs.Prelude.{◌≡◌};
ghost use Rattle.orders.specs.Order as spec;
ghost use Rattle.orders.specs.Words.{One, Two, Three, said};

use crate::command::RegistryCommand;
use crate::listing::Listing;
use crate::words::Words;
use world::entry::Right;

/// What an operator orders.
#[derive(Clone, Copy, Drop)]
pub enum Order<'a> {
    /// `stop`: the end of the server.
    Stop,
    /// `ping`: the health of the server.
    Ping,
    /// A list, by its word.
    List(Listing),
    /// `copy PATH`: a copy of the store into the file of a path.
    Copy(&'a str),
    /// `catalog KEY`: the catalog of a key.
    Catalog(&'a str),
    /// `revoke-fingerprint X`: the end of the only key with a fingerprint.
    RevokeByFingerprint(&'a str),
    /// A registry command.
    Registry(RegistryCommand<'a>),
}

/// The most bytes of a line without its end, but for that of a copy.
const LONGEST: usize = 127;

/// The most bytes of the line that orders a copy, without its end: it names a file. No line is longer.
pub const LONGEST_LINE: usize = 4_095;

impl<'a> Order<'a> {
    /// Returns the most bytes that its line may have, without the end.
    pub(crate) fn longest(&self) -> usize
        ensures { result ≡ spec.longest_of (spec.ordered self.now) }
    {
        match self {
            Order::Copy(_) => LONGEST_LINE,
            _ => LONGEST,
        }
    }

    /// Returns the words of its line.
    pub(crate) fn words(&self) -> Words<'a>
        ensures { said result ≡ spec.said_in (spec.ordered self.now) }
    {
        match self {
            Order::Stop => Words::One("stop"),
            Order::Ping => Words::One("ping"),
            Order::List(listing) => Words::One(listing.word()),
            Order::Copy(path) => Words::Two("copy", path),
            Order::Catalog(key) => Words::Two("catalog", key),
            Order::RevokeByFingerprint(fingerprint) => Words::Two(
                "revoke-fingerprint",
                fingerprint,
            ),
            Order::Registry(command) => command_words(command),
        }
    }

    /// Returns the order that has these words, or None if none has them.
    pub(crate) fn of_words(words: Words<'a>) -> Option<Order<'a>>
        ensures { spec.IsOrderOf (said words.entry) result }
    {
        match words {
            Words::One(verb) => of_one(verb),
            Words::Two(verb, first) => of_two(verb, first),
            Words::Three(verb, first, second) => of_three(verb, first, second),
        }
    }
}

/// Returns the order that has this word, or None if none has it.
fn of_one<'a>(verb: &str) -> Option<Order<'a>>
    ensures { spec.IsOrderOf (One verb.now) result }
{
    match verb {
        "stop" => Some(Order::Stop),
        "ping" => Some(Order::Ping),
        _ => match Listing::of_word(verb) {
            Some(listing) => Some(Order::List(listing)),
            None => None,
        },
    }
}

/// Returns the order that has these two words, or None if none has them.
fn of_two<'a>(verb: &str, first: &'a str) -> Option<Order<'a>>
    ensures { spec.IsOrderOf (Two verb.now first.now) result }
{
    match verb {
        "copy" => Some(Order::Copy(first)),
        "catalog" => Some(Order::Catalog(first)),
        "revoke-fingerprint" => Some(Order::RevokeByFingerprint(first)),
        "team-add" => Some(Order::Registry(RegistryCommand::TeamAdd {
            name: first,
            group: None,
        })),
        "group-add" => Some(Order::Registry(RegistryCommand::GroupAdd { name: first })),
        "key-revoke" => Some(Order::Registry(RegistryCommand::KeyRevoke { key: first })),
        "keys-revoke" => Some(Order::Registry(RegistryCommand::KeysRevoke { shelf: first })),
        _ => None,
    }
}

/// Returns the order that has these three words, or None if none has them.
fn of_three<'a>(verb: &str, first: &'a str, second: &'a str) -> Option<Order<'a>>
    ensures { spec.IsOrderOf (Three verb.now first.now second.now) result }
{
    match verb {
        "team-add" => Some(Order::Registry(RegistryCommand::TeamAdd {
            name: first,
            group: Some(second),
        })),
        "key-add" => Some(Order::Registry(RegistryCommand::KeyAdd {
            shelf: first,
            key: second,
            right: Right::Publishes,
        })),
        "reader-add" => Some(Order::Registry(RegistryCommand::KeyAdd {
            shelf: first,
            key: second,
            right: Right::Reads,
        })),
        _ => None,
    }
}

/// Returns the words of the line of a registry command.
fn command_words<'a>(command: &RegistryCommand<'a>) -> Words<'a>
    ensures { said result ≡ spec.said_in_command (spec.commanded command.now) }
{
    match command {
        RegistryCommand::TeamAdd {
            name,
            group: Some(group),
        } => Words::Three("team-add", name, group),
        RegistryCommand::TeamAdd { name, group: None } => Words::Two("team-add", name),
        RegistryCommand::GroupAdd { name } => Words::Two("group-add", name),
        RegistryCommand::KeyAdd { shelf, key, right } => Words::Three(add_word(*right), shelf, key),
        RegistryCommand::KeyRevoke { key } => Words::Two("key-revoke", key),
        RegistryCommand::KeysRevoke { shelf } => Words::Two("keys-revoke", shelf),
    }
}

/// Returns the word that adds a key with this right.
fn add_word(right: Right) -> &'static str
    ensures { result.now ≡ spec.add_word right }
{
    match right {
        Right::Publishes => "key-add",
        Right::Reads => "reader-add",
    }
}
