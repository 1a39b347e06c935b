//! What a command asks of the system, beside opening and closing the stores of files.
ghost use Rattle.commands.specs.Action.{Acts, of_entrances, of_files, of_random};
ghost use Rattle.file_action.specs.OnFile.{FlushesAll};
ghost use Rattle.runner.specs.Cause.{EndsFor};
ghost use Rattle.runner.specs.Copies.{CountsIn, Makes};
ghost use Rattle.socket.specs.Connections.{both};

use crate::beside::{check_name, has_lone_log, has_lone_log_of_name, sync_log};
use crate::copies::{FileCopies, FileSizes};
use crate::extract::extract_file;
use crate::file_checks::FileChecks;
use crate::found::{ClosedFile, Found, FoundTables, OpenedStore};
use crate::migrate::migrate_file;
use crate::older_files::OlderFiles;
use crate::reserve::SystemReserve;
use crate::system::SystemStoreFiles;
use commands::action::{Action, Outside, act_on};
use commands::files::{is_empty_file, is_missing_or_empty, is_same_file, size_of_file};
use commands::import_progress::ImportProgress;
use commands::moment::SystemWallClock;
use commands::new_key::order_new_at;
use commands::progress::StderrLine;
use commands::random_bytes::{RandomBytes, SystemRandomBytes};
use commands::refusal::CommandRefusal;
use commands::sources::{Sources, SystemFiles};
use control::Operator;
use file_action::host::ActionHost;
use histories::{Hear, Tell, Telling};
use network::servers::Servers;
use socket::{Callers, Entrances, Peer, SystemEntrances, SystemOperator, SystemPeer};
use sqlite::Alter;
use sqlite_trees::store::Store;
use std::alloc::Global;
use std::rt::HostRuntime;
use store::file_name::log_name;
use store::files::PageRoom;
use store::store::SqlShelves;
use store_files::files::StoreFiles;
use store_files::refusal::StoreRefusal;
use world::entry::Right;
use world::shelves::Shelves;

/// The system, as a command sees it whose stores are `S`. A closed store leaves a `C`, and an older store is opened as
/// one.
pub trait Host<S, C>: FileChecks {
    ghost use Rattle.std.specs.Prelude.{◌≡◌, [], OnOk, map as each};
    ghost use Rattle.sqlite.specs.State.{State};
    ghost use Rattle.commands.specs.Connection.{IsAll};
    ghost use Rattle.commands.specs.NewKey.{HasCause, HasNoNewKey, OrdersNew};
    ghost use Rattle.commands.specs.Printed.{FailsUnprinted};
    ghost use Rattle.runner.specs.Extract.{ExtractsFile};
    ghost use Rattle.runner.specs.Migrate.{MigratesFile};
    ghost use Rattle.world.specs.Store.{Shown};

    /// What a store shows.
    ghost shown: { S → Shown };

    /// The tables of an older store.
    ghost state_of: { C → State };

    /// Returns the memory that is allocated from.
    fn alloc(&self) -> Global;

    /// Puts some teams' part of the store of one file into the store of another, each opened by these files. Fails with
    /// the refusals of the store, and with `NotEmpty` if both names lead to one file.
    fn extract<F: StoreFiles<S, C>, G: StoreFiles<S, C>>(
        &mut self,
        files: &mut F,
        targets: &mut G,
        db: &str,
        teams: &[&str],
        to: &str,
    ) -> Result<(), CommandRefusal>
        ensures { ExtractsFile shown shown
            (record { begins = F.begins; left = F.left; before = F.history files.old; after = F.history files.new })
            (record { begins = G.begins; left = G.left; before = G.history targets.old; after = G.history targets.new })
            db.now (each (λ team. team.now) teams.now) to.now result };

    /// Puts what the older store of one file has into the store of another, each opened by these files. Fails with the
    /// refusals of the store, and with `NotEmpty` if both names lead to one file.
    fn migrate<Q: OlderFiles<C>, G: StoreFiles<S, C>>(
        &mut self,
        older: &mut Q,
        targets: &mut G,
        from: &str,
        to: &str,
    ) -> Result<(), CommandRefusal>
        ensures { MigratesFile state_of shown
            (record { begins = Q.begins; left = Q.left; before = Q.history older.old; after = Q.history older.new })
            (record { begins = G.begins; left = G.left; before = G.history targets.old; after = G.history targets.new })
            from.now to.now result };

    /// Makes a key, sends an order to add it to a running `serve`, and prints it. Fails as [`order_new_at`] does.
    fn order_new<R: Hear, U: Tell, V: Servers<R, U>, O: Tell>(
        &mut self,
        servers: &mut V,
        control: &str,
        shelf: &str,
        right: Right,
        output: &mut O,
    ) -> Result<(), CommandRefusal>
        ensures orders { OrdersNew
            (λ link passed. IsAll (R.account link.reader) (R.reads link.reader)
            (U.contents link.writer) (U.writes link.writer).failed passed)
            control.now (V.history servers.old) (V.history servers.new) shelf.entry right
            (O.contents output.old) (O.contents output.new) result }
        // It ends with `Io` only if no key could be made, a call of the output failed, or the order ended so.
        ensures cause { HasCause result (HasNoNewKey
            (λ link passed. IsAll (R.account link.reader) (R.reads link.reader)
            (U.contents link.writer) (U.writes link.writer).failed passed)
            control.now shelf.entry right (V.history servers.old) (V.history servers.new)
            (O.writes output.old) (O.writes output.new)) }
        // If it fails, it printed nothing, unless a call of the output failed.
        ensures whole { FailsUnprinted (O.contents output.old) (O.contents output.new)
            (O.writes output.old) (O.writes output.new) result }
        // What was printed is flushed.
        ensures flushed { OnOk result ((O.writes output.new).unflushed ≡ []) };
}

/// What an action reaches of the system outside of its store and its streams.
pub type SystemOutside<'a> = Outside<SystemEntrances<'a>, SystemFiles<'a>, SystemRandomBytes<'a>>;

/// The system.
#[derive(Drop)]
pub struct SystemHost<'a> {
    pub rt: &'a HostRuntime,
}

impl<'a> SystemHost<'a> {
    /// Whether there is no such file, or it has no bytes, and a log that may be what is left of a store has its name
    /// and `-wal`.
    pub fn has_lone_log_of_name(&self, name: &str) -> bool {
        has_lone_log_of_name(self.rt, name)
    }
}

impl<'a> FileChecks for SystemHost<'a> {
    ghost free = { λ _ _ _. Unit {0} };

    ghost apart = { λ _ _ _. Unit {0} };

    ghost lone_log = { λ _ _ _. Unit {0} };

    ghost synced = { λ _ _ _. Unit {0} };

    fn is_empty(&self, name: &str) -> bool {
        is_empty_file(self.rt, name)
    }

    fn is_missing_or_empty(&self, name: &str) -> bool {
        is_missing_or_empty(self.rt, name)
    }

    fn is_same(&self, name: &str, other: &str) -> bool {
        is_same_file(self.rt, name, other)
    }

    fn check_name(&self, db: &str, to: &str) -> Result<(), StoreRefusal> {
        check_name(self.rt, db, to)
    }

    fn has_lone_log(&self, name: &str) -> bool {
        has_lone_log(self.rt, name)
    }

    fn sync_log(&self, path: &str) -> bool {
        sync_log(self.rt, path)
    }

    fn line(&self, verb: &'static str) -> Option<StderrLine<'_>> {
        let line = StderrLine::on_stderr(self.rt, verb);
        if line.is_shown() { Some(line) } else { None }
    }
}

/// What the system reports may change at any time, so nothing is known of it.
impl<'a> FileSizes for SystemHost<'a> {
    ghost sized = { λ _ _ _. Unit {0} };

    ghost log_sized = { λ _ _ _. Unit {0} };

    fn size(&self, name: &str) -> Option<u64> {
        size_of_file(self.rt, name)
    }

    fn log_size(&self, path: &str) -> Option<u64> {
        match log_name(self.rt, path) {
            Ok(log) => size_of_file(self.rt, log.as_str()),
            Err(_) => None,
        }
    }
}

/// What it reaches outside is where callers come in, the files that a publish and an import read, and what gives the
/// random bytes of a key.
impl<'a> ActionHost<OpenedStore, SystemOutside<'a>> for SystemHost<'a> {
    ghost use Rattle.commands.specs.Action.{Acts, of_entrances, of_files, of_random};
    ghost use Rattle.runner.specs.Cause.{EndsFor};
    ghost use Rattle.file_action.specs.Cause.{causes_within};
    ghost use Rattle.file_action.specs.OnFile.{within};
    ghost use Rattle.runner.specs.Copies.{CountsIn, Makes};
    ghost use Rattle.runner.specs.declared.found.OpenedStore.{OpenedStore};
    ghost use Rattle.socket.specs.Connections.{both};

    ghost acts = { within (λ s. s.shelves) (λ _. Acts
        (record {
          heeded = both ⟦<SystemOperator<'a> as Operator>⟧.came ⟦<SystemOperator<'a> as Operator>⟧.reads;
          told = both ⟦<SystemOperator<'a> as Operator>⟧.written ⟦<SystemOperator<'a> as Operator>⟧.writes;
          heard = both ⟦<SystemPeer<'a> as Peer>⟧.came ⟦<SystemPeer<'a> as Peer>⟧.reads;
          written = both ⟦<SystemPeer<'a> as Peer>⟧.written ⟦<SystemPeer<'a> as Peer>⟧.writes;
          known = ⟦<SystemEntrances<'a> as Callers<SystemPeer<'a>, SystemOperator<'a>>>⟧.known;
          door = of_entrances (both ⟦<SystemEntrances<'a> as Callers<SystemPeer<'a>, SystemOperator<'a>>>⟧.waiting
              ⟦<SystemEntrances<'a> as Callers<SystemPeer<'a>, SystemOperator<'a>>>⟧.history);
          read = of_files ⟦<SystemFiles<'a> as Sources>⟧.history;
          drawn = of_random ⟦<SystemRandomBytes<'a> as RandomBytes>⟧.drawn;
        })
        ⟦<Found as Shelves>⟧.shown
        (Makes ⟦<Found as Shelves>⟧.shown (λ (s : OpenedStore). ⟦<Found as Shelves>⟧.shown s.shelves)
        ⟦<SystemStoreFiles<'a> as StoreFiles<OpenedStore, ClosedFile>>⟧.begins
        ⟦<SystemStoreFiles<'a> as StoreFiles<OpenedStore, ClosedFile>>⟧.left
        ⟦<SystemStoreFiles<'a> as StoreFiles<OpenedStore, ClosedFile>>⟧.history)
        (CountsIn ⟦<Found as Shelves>⟧.shown)) };

    ghost causes = { causes_within (λ s. s.shelves) (λ before after streams streams_new. EndsFor
        ⟦<Found as Shelves>⟧.shown before after
        (record {
          reads = streams.reads;
          writes = streams.writes;
          drawn = ⟦<SystemRandomBytes<'a> as RandomBytes>⟧.drawn before.outside.random;
          files = ⟦<SystemFiles<'a> as Sources>⟧.history before.outside.files;
        })
        (record {
          reads = streams_new.reads;
          writes = streams_new.writes;
          drawn = ⟦<SystemRandomBytes<'a> as RandomBytes>⟧.drawn after.outside.random;
          files = ⟦<SystemFiles<'a> as Sources>⟧.history after.outside.files;
        })) };

    fn act<I: Hear, O: Tell>(
        &mut self,
        name: &str,
        store: &mut OpenedStore,
        outside: &mut SystemOutside<'a>,
        action: &Action,
        input: &mut I,
        output: &mut O,
    ) -> Result<bool, CommandRefusal> {
        act_in(
            self.rt,
            name,
            &mut store.shelves,
            outside,
            action,
            input,
            output,
        )
    }
}

impl<'a> Host<OpenedStore, ClosedFile> for SystemHost<'a> {
    ghost use Rattle.sqlite.specs.Held.{state};

    ghost shown = { λ s. ⟦<Found as Shelves>⟧.shown s.shelves };

    ghost state_of = { λ c. state ⟦<FoundTables as Store>⟧ c.connection };

    fn alloc(&self) -> Global {
        self.rt.alloc()
    }

    fn extract<F, G>(
        &mut self,
        files: &mut F,
        targets: &mut G,
        db: &str,
        teams: &[&str],
        to: &str,
    ) -> Result<(), CommandRefusal>
    where
        F: StoreFiles<OpenedStore, ClosedFile>,
        G: StoreFiles<OpenedStore, ClosedFile>,
    {
        extract_file(self, files, targets, db, teams, to)
    }

    fn migrate<Q, G>(
        &mut self,
        older: &mut Q,
        targets: &mut G,
        from: &str,
        to: &str,
    ) -> Result<(), CommandRefusal>
    where
        Q: OlderFiles<ClosedFile>,
        G: StoreFiles<OpenedStore, ClosedFile>,
    {
        migrate_file(self.rt.alloc(), self, older, targets, from, to)
    }

    fn order_new<R: Hear, U: Tell, V: Servers<R, U>, O: Tell>(
        &mut self,
        servers: &mut V,
        control: &str,
        shelf: &str,
        right: Right,
        output: &mut O,
    ) -> Result<(), CommandRefusal> {
        order_new_at(self.rt, servers, control, shelf, right, output)
    }
}

/// Does an action on the open store of the file of this name, with the clocks and the standard error of the system, and
/// returns whether it was accepted. Fails as [`act_on`] does.
fn act_in<
    'a,
    S: Alter,
    P: Peer + Drop,
    Q: Operator + Drop,
    N: Entrances<P, Q>,
    F: Sources,
    B: RandomBytes,
    I: Hear,
    O: Tell,
>(
    rt: &'a HostRuntime,
    name: &str,
    shelves: &mut SqlShelves<S>,
    outside: &mut Outside<N, F, B>,
    action: &Action,
    input: &mut I,
    output: &mut O,
) -> Result<bool, CommandRefusal>
    ensures acts { Acts
        (record {
          heeded = both Q.came Q.reads;
          told = both Q.written Q.writes;
          heard = both P.came P.reads;
          written = both P.written P.writes;
          known = N.known;
          door = of_entrances (both N.waiting N.history);
          read = of_files F.history;
          drawn = of_random B.drawn;
        })
        ⟦<SqlShelves<S> as Shelves>⟧.shown
        (Makes ⟦<SqlShelves<S> as Shelves>⟧.shown (λ (s : OpenedStore). ⟦<Found as Shelves>⟧.shown s.shelves)
        ⟦<SystemStoreFiles<'a> as StoreFiles<OpenedStore, ClosedFile>>⟧.begins
        ⟦<SystemStoreFiles<'a> as StoreFiles<OpenedStore, ClosedFile>>⟧.left
        ⟦<SystemStoreFiles<'a> as StoreFiles<OpenedStore, ClosedFile>>⟧.history)
        (CountsIn ⟦<SqlShelves<S> as Shelves>⟧.shown)
        (record {
          store = shelves.old;
          outside = outside.old;
          came = I.account input.old;
          written = O.contents output.old;
        })
        (record {
          store = shelves.new;
          outside = outside.new;
          came = I.account input.new;
          written = O.contents output.new;
        })
        result action.now }
    ensures flushed { FlushesAll (O.writes output.old) (O.writes output.new) result }
    ensures cause { EndsFor ⟦<SqlShelves<S> as Shelves>⟧.shown
        (record {
          store = shelves.old;
          outside = outside.old;
          came = I.account input.old;
          written = O.contents output.old;
        })
        (record {
          store = shelves.new;
          outside = outside.new;
          came = I.account input.new;
          written = O.contents output.new;
        })
        (record {
          reads = I.reads input.old;
          writes = O.writes output.old;
          drawn = B.drawn outside.old.random;
          files = F.history outside.old.files;
        })
        (record {
          reads = I.reads input.new;
          writes = O.writes output.new;
          drawn = B.drawn outside.new.random;
          files = F.history outside.new.files;
        })
        result action.now }
{
    let copies = FileCopies {
        clock: rt,
        checks: SystemHost { rt },
        db: name,
        targets: SystemStoreFiles::new(rt, PageRoom::Slice),
    };
    act_on(
        rt.alloc(),
        rt,
        &mut SystemWallClock::new(rt),
        SystemWallClock::new(rt),
        &ImportProgress::on_stderr(rt),
        shelves,
        &copies,
        &mut SystemReserve::new(rt, name),
        outside,
        action,
        input,
        output,
        &mut Telling::new(rt.stderr()),
    )
}
