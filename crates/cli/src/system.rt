//! What runs a command: the files of the system, or any other `Runner`.
ghost use Rattle.std.specs.Prelude.{◌≡◌, []};
ghost use Rattle.commands.specs.RandomBytes.{no_draws};

use commands::action::Outside;
use commands::random_bytes::{RandomBytes, SystemRandomBytes};
use commands::refusal::CommandRefusal;
use commands::sources::{Sources, SystemFiles};
use file_action::host::ActionHost;
use histories::{Hear, Hearing, Tell, Telling};
use network::servers::Servers;
use network::system::SystemServers;
use runner::found::{ClosedFile, OpenedStore};
use runner::host::{Host, SystemHost, SystemOutside};
use runner::system::{SystemOlderFiles, SystemStoreFiles};
use runner::{Command, run};
use socket::{Callers, SystemEntrances, SystemOperator, SystemPeer};
use std::alloc::Global;
use std::io::{IsTerminal, Write};
use std::os::unix::net::UnixStream;
use std::rt::HostRuntime;
use store::files::{PageRoom, is_new_store};
use store_files::files::StoreFiles;

/// Runs commands. A run of the program reaches the files of stores only by it.
pub trait Runner {
    ghost use Rattle.cli.specs.Run.{Ran, RunCauses, Sayings};
    ghost use Rattle.file_action.specs.OnFile.{FlushesAll};

    /// What running a command does.
    ghost ran: { Ran Self };

    /// Why a command ended with `Io`.
    ghost causes: { RunCauses Self };

    /// What it says when it is asked.
    ghost says: { Sayings Self };

    /// Whether a command begins with a new store, because the file is missing or empty and no log is left beside it.
    fn is_new(&self, db: &str) -> bool
        ensures { says.new self.now db.now result };

    /// Whether there is no such file, or it has no bytes, and a log that may be what is left of a store has its name
    /// and `-wal`.
    fn has_lone_log(&self, name: &str) -> bool
        ensures { says.lone_log self.now name.now result };

    /// Whether a person may see standard error, which is a terminal.
    fn is_watched(&self) -> bool
        ensures { says.watched self.now result };

    /// Runs a command and returns whether it was accepted. Fails as [`runner::run`] does.
    fn run<I: Hear, O: Tell>(
        &mut self,
        command: &Command,
        input: &mut I,
        output: &mut O,
    ) -> Result<bool, CommandRefusal>
        ensures runs { ran self.old self.new (I.account input.old) (I.account input.new)
            (O.contents output.old) (O.contents output.new) result command.now }
        // What was printed is flushed.
        ensures flushed { FlushesAll (O.writes output.old) (O.writes output.new) result }
        // If it fails with `Io`, this is why.
        ensures cause { causes self.old self.new (I.account input.old) (I.account input.new)
            (O.contents output.old) (O.contents output.new)
            (record { reads = I.reads input.old; writes = O.writes output.old })
            (record { reads = I.reads input.new; writes = O.writes output.new })
            result command.now };
}

/// The system with its files, its servers and its entrances, and with all that was done to the files of stores, over
/// connections to servers, and with callers, all that was read of other files, and all random bytes.
#[derive(Drop)]
pub struct SystemStores<'a> {
    rt: &'a HostRuntime,
    /// The store of a command.
    pub files: SystemStoreFiles<'a>,
    /// The new store of an `extract` or a `migrate`.
    pub targets: SystemStoreFiles<'a>,
    /// The older store of a `migrate`.
    pub older: SystemOlderFiles<'a>,
    /// The `serve` that gets an order.
    pub servers: SystemServers<'a>,
    /// Where `serve` lets callers in, the files that a publish and an import read, and what gives the random bytes of a
    /// key that is added to a file.
    pub outside: SystemOutside<'a>,
}

impl<'a> SystemStores<'a> {
    /// Returns the system, with empty histories of its stores, its servers, its entrances and the files that are read,
    /// of which no random bytes were drawn.
    pub fn new(rt: &'a HostRuntime) -> SystemStores<'a>
        ensures files { ⟦<SystemStoreFiles<'a> as StoreFiles<OpenedStore, ClosedFile>>⟧.history result.files ≡ [] }
        ensures targets { ⟦<SystemStoreFiles<'a> as StoreFiles<OpenedStore, ClosedFile>>⟧.history result.targets ≡ [] }
        ensures older { ⟦<SystemOlderFiles<'a> as StoreFiles<ClosedFile, ClosedFile>>⟧.history result.older ≡ [] }
        ensures servers { ⟦<SystemServers<'a> as Servers<Hearing<UnixStream>, Telling<UnixStream>>>⟧.history
            result.servers ≡ [] }
        ensures entrances { ⟦<SystemEntrances<'a> as Callers<SystemPeer<'a>, SystemOperator<'a>>>⟧.history
            result.outside.entrances ≡ [] }
        ensures read { ⟦<SystemFiles<'a> as Sources>⟧.history result.outside.files ≡ [] }
        ensures drawn { ⟦<SystemRandomBytes<'a> as RandomBytes>⟧.drawn result.outside.random ≡ no_draws }
    {
        SystemStores {
            rt,
            files: SystemStoreFiles::new(rt, PageRoom::Zip),
            targets: SystemStoreFiles::new(rt, PageRoom::Zip),
            older: SystemOlderFiles::new(rt),
            servers: SystemServers::new(rt),
            outside: Outside {
                entrances: SystemEntrances::new(rt),
                files: SystemFiles::new(rt),
                random: SystemRandomBytes::new(rt),
            },
        }
    }

    /// Returns the allocator of the system.
    pub(crate) fn alloc(&self) -> Global {
        self.rt.alloc()
    }
}

impl<'a> Runner for SystemStores<'a> {
    ghost use Rattle.commands.specs.Connection.{IsAll};
    ghost use Rattle.runner.specs.Cause.{CauseOf};
    ghost use Rattle.runner.specs.Command.{Runs};

    /// The command did what `Runs` says, and between these histories of files, servers, callers and files read nothing
    /// else was done.
    ghost ran = { λ old new. Runs ⟦<SystemHost<'a> as ActionHost<OpenedStore, SystemOutside<'a>>>⟧.acts
        ⟦<SystemHost<'a> as Host<OpenedStore, ClosedFile>>⟧.state_of
        ⟦<SystemHost<'a> as Host<OpenedStore, ClosedFile>>⟧.shown
        (record {
          begins = ⟦<SystemStoreFiles<'a> as StoreFiles<OpenedStore, ClosedFile>>⟧.begins;
          left = ⟦<SystemStoreFiles<'a> as StoreFiles<OpenedStore, ClosedFile>>⟧.left;
          before = ⟦<SystemStoreFiles<'a> as StoreFiles<OpenedStore, ClosedFile>>⟧.history old.files;
          after = ⟦<SystemStoreFiles<'a> as StoreFiles<OpenedStore, ClosedFile>>⟧.history new.files;
        })
        (record {
          begins = ⟦<SystemStoreFiles<'a> as StoreFiles<OpenedStore, ClosedFile>>⟧.begins;
          left = ⟦<SystemStoreFiles<'a> as StoreFiles<OpenedStore, ClosedFile>>⟧.left;
          before = ⟦<SystemStoreFiles<'a> as StoreFiles<OpenedStore, ClosedFile>>⟧.history old.targets;
          after = ⟦<SystemStoreFiles<'a> as StoreFiles<OpenedStore, ClosedFile>>⟧.history new.targets;
        })
        (record {
          begins = ⟦<SystemOlderFiles<'a> as StoreFiles<ClosedFile, ClosedFile>>⟧.begins;
          left = ⟦<SystemOlderFiles<'a> as StoreFiles<ClosedFile, ClosedFile>>⟧.left;
          before = ⟦<SystemOlderFiles<'a> as StoreFiles<ClosedFile, ClosedFile>>⟧.history old.older;
          after = ⟦<SystemOlderFiles<'a> as StoreFiles<ClosedFile, ClosedFile>>⟧.history new.older;
        })
        (λ link passed. IsAll (⟦<Hearing<UnixStream> as Hear>⟧.account link.reader)
        (⟦<Hearing<UnixStream> as Hear>⟧.reads link.reader)
        (⟦<Telling<UnixStream> as Write>⟧.contents link.writer)
        (⟦<Telling<UnixStream> as Tell>⟧.writes link.writer).failed passed)
        (⟦<SystemServers<'a> as Servers<Hearing<UnixStream>, Telling<UnixStream>>>⟧.history old.servers)
        (⟦<SystemServers<'a> as Servers<Hearing<UnixStream>, Telling<UnixStream>>>⟧.history new.servers)
        old.outside new.outside };

    ghost causes = { λ old new. CauseOf ⟦<SystemHost<'a> as ActionHost<OpenedStore, SystemOutside<'a>>>⟧.causes
        (record {
          begins = ⟦<SystemStoreFiles<'a> as StoreFiles<OpenedStore, ClosedFile>>⟧.begins;
          left = ⟦<SystemStoreFiles<'a> as StoreFiles<OpenedStore, ClosedFile>>⟧.left;
          before = ⟦<SystemStoreFiles<'a> as StoreFiles<OpenedStore, ClosedFile>>⟧.history old.files;
          after = ⟦<SystemStoreFiles<'a> as StoreFiles<OpenedStore, ClosedFile>>⟧.history new.files;
        })
        (λ link passed. IsAll (⟦<Hearing<UnixStream> as Hear>⟧.account link.reader)
        (⟦<Hearing<UnixStream> as Hear>⟧.reads link.reader)
        (⟦<Telling<UnixStream> as Write>⟧.contents link.writer)
        (⟦<Telling<UnixStream> as Tell>⟧.writes link.writer).failed passed)
        (⟦<SystemServers<'a> as Servers<Hearing<UnixStream>, Telling<UnixStream>>>⟧.history old.servers)
        (⟦<SystemServers<'a> as Servers<Hearing<UnixStream>, Telling<UnixStream>>>⟧.history new.servers)
        old.outside new.outside };

    /// What it says is not proved: no history has what a file is.
    ghost says = { record { new = λ _ _ _. Unit {0}; lone_log = λ _ _ _. Unit {0}; watched = λ _ _. Unit {0} } };

    fn is_new(&self, db: &str) -> bool {
        is_new_store(self.rt, db)
    }

    fn has_lone_log(&self, name: &str) -> bool {
        SystemHost { rt: self.rt }.has_lone_log_of_name(name)
    }

    fn is_watched(&self) -> bool {
        self.rt.stderr().is_terminal()
    }

    fn run<I: Hear, O: Tell>(
        &mut self,
        command: &Command,
        input: &mut I,
        output: &mut O,
    ) -> Result<bool, CommandRefusal> {
        run(
            &mut SystemHost { rt: self.rt },
            &mut self.files,
            &mut self.targets,
            &mut self.older,
            &mut self.servers,
            &mut self.outside,
            command,
            input,
            output,
        )
    }
}
