//! The words on standard error that say why a command was refused.
ghost use Rattle.std.specs.Prelude.{◌≡◌};
ghost use Rattle.commands.specs.Ending as spec;

use engine::Io;
use std::alloc::AllocError;
use std::io;
use store_files::refusal::StoreRefusal;
use world::registry::{RegistryReply, StoreFault};

/// Why a command was refused, with exit status 1.
#[derive(Clone, Copy, Debug, Drop, PartialEq, Eq)]
pub enum CommandRefusal {
    /// The name of a team or a group, or a key, breaks its rule; for `copy`, no line can carry the path
    /// (`orders::Order::has_line`).
    Name,
    /// A shelf of that name, or the key, exists already.
    Taken,
    /// There is no shelf of that name; for `extract`, no team.
    NoTeam,
    /// There is no such key.
    NoKey,
    /// There is no group of that name.
    NoGroup,
    /// A disk failed, a file can't be opened as a store, SQLite has a use for that of a new store beside a database, or
    /// no `serve` can be reached at the socket of `--control`.
    Device,
    /// Memory ran out.
    Memory,
    /// The file has other tables than a store's (for `migrate`, than an older store's), or is no database.
    BadSchema,
    /// For `init`, the file has bytes already; for `extract`, `migrate` and `copy`, the new store has more than
    /// `common`, its file is that of the other store, or a log stands alone beside it.
    NotEmpty,
    /// For `copy` and `catalog`, the server makes another copy or prints another catalog.
    Busy,
    /// For `copy` and `catalog`, the server ended it, because the server ends.
    Ended,
    /// The path or the version is invalid, there is no such key, or its shelf does not see the version.
    NotFound,
    /// A list has another header, or a row that is not UTF-8 or does not have five fields.
    BadRow,
    /// The input, the output or a file failed; `serve` did not get its port or its socket; or no outcome came from a
    /// `serve`.
    Io,
}

impl CommandRefusal {
    /// Returns the word of the refusal on standard error.
    pub fn word(self) -> &'static str
        ensures { result.now ≡ spec.word self }
    {
        match self {
            CommandRefusal::Name => "name",
            CommandRefusal::Taken => "taken",
            CommandRefusal::NoTeam => "no-team",
            CommandRefusal::NoKey => "no-key",
            CommandRefusal::NoGroup => "no-group",
            CommandRefusal::Device => "device",
            CommandRefusal::Memory => "memory",
            CommandRefusal::BadSchema => "bad-schema",
            CommandRefusal::NotEmpty => "not-empty",
            CommandRefusal::Busy => "busy",
            CommandRefusal::Ended => "ended",
            CommandRefusal::NotFound => "not-found",
            CommandRefusal::BadRow => "bad-row",
            CommandRefusal::Io => "io",
        }
    }
}

impl From<io::Error> for CommandRefusal {
    fn from(_: io::Error) -> CommandRefusal {
        CommandRefusal::Io
    }
}

impl From<Io> for CommandRefusal {
    fn from(_: Io) -> CommandRefusal {
        CommandRefusal::Io
    }
}

impl From<AllocError> for CommandRefusal {
    fn from(_: AllocError) -> CommandRefusal {
        CommandRefusal::Memory
    }
}

impl From<StoreRefusal> for CommandRefusal {
    ghost use Rattle.commands.specs.Ending.{unopened};

    ghost from_gives = { λ why refusal. refusal ≡ unopened why };

    fn from(why: StoreRefusal) -> CommandRefusal {
        match why {
            StoreRefusal::Device => CommandRefusal::Device,
            StoreRefusal::Memory => CommandRefusal::Memory,
            StoreRefusal::BadSchema => CommandRefusal::BadSchema,
            StoreRefusal::NotEmpty => CommandRefusal::NotEmpty,
            StoreRefusal::NoTeam => CommandRefusal::NoTeam,
        }
    }
}

/// Returns how a registry command ends with this answer of the store.
pub fn ending(told: Result<RegistryReply, StoreFault>) -> Result<(), CommandRefusal>
    ensures { result ≡ spec.ending told }
{
    match told {
        Ok(RegistryReply::Done) => Ok(()),
        Ok(RegistryReply::Name) => Err(CommandRefusal::Name),
        Ok(RegistryReply::Taken) => Err(CommandRefusal::Taken),
        Ok(RegistryReply::NoTeam) => Err(CommandRefusal::NoTeam),
        Ok(RegistryReply::NoKey) => Err(CommandRefusal::NoKey),
        Ok(RegistryReply::NoGroup) => Err(CommandRefusal::NoGroup),
        Err(StoreFault::Device) => Err(CommandRefusal::Device),
        Err(StoreFault::Memory) => Err(CommandRefusal::Memory),
    }
}
