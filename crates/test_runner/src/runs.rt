//! Commands, one after another, over a file in memory.
use crate::host::MemoryHost;
use crate::no_older::NoOlderFiles;
use commands::action::Action;
use commands::refusal::CommandRefusal;
use file_action::host::ActionHost;
use histories::{Hear, Hearing, Tell, Telling};
use memory_store::map_shelves::MapShelves;
use network::memory::MemoryServers;
use network::servers::Servers;
use orders::{Listing, Order, RegistryCommand};
use runner::host::Host;
use runner::older_files::OlderFiles;
use runner::{Command, run};
use std::alloc::Global;
use std::rt::HostRuntime;
use std::test::Fail;
use store_files::files::StoreFiles;
use store_files::memory::MemoryStoreFiles;
use store_files::record::Record;
use test_support::rows::cell;
use world::entry::Right;

/// A command, its file or socket, what it adds, a key, and the word that it ends by. There is a store, `shelves.db`, a
/// file of bytes, `bytes.db`, and one server, which listens at `serve.socket` and says `taken` to everyone. A command
/// that finds what another left was run on the store that the other closed.
const RUNS: &str = "\
init | other.db | | | device
init | bytes.db | | | not-empty
init | shelves.db | | | done
team-add | other.db | alpha | | device
team-add | shelves.db | alpha | | done
team-add | shelves.db | alpha | | taken
key-add | shelves.db | beta | betakey000000001 | no-team
key-add | shelves.db | alpha | alphakey00000001 | done
key-add | shelves.db | alpha | alphakey00000001 | taken
inventory | shelves.db | | betakey000000001 | no-key
inventory | shelves.db | | alphakey00000001 | done
extract | shelves.db | alpha | | not-empty
migrate | shelves.db | | | device
order | shelves.db | alpha | | device
order | serve.socket | alpha | | taken
copy | shelves.db | | | device
copy | serve.socket | | | io
ping | shelves.db | | | device
ping | serve.socket | | | io
list | shelves.db | | | device
list | serve.socket | | | io
catalog | shelves.db | | alphakey00000001 | device
catalog | serve.socket | | alphakey00000001 | io
stop | shelves.db | | | device
stop | serve.socket | | | io
inventory | shelves.db | | alphakey00000001 | done
";

/// Returns the command of a row.
fn command_of<'a>(row: &'a str, teams: &'a [&'a str]) -> Command<'a> {
    let (db, name, key) = (cell(row, 1), cell(row, 2), cell(row, 3));
    let command = RegistryCommand::TeamAdd { name, group: None };
    let action = match cell(row, 0) {
        "init" => return Command::Init { db },
        "extract" => return Command::Extract {
            db,
            teams,
            to: "new.db",
        },
        "migrate" => return Command::Migrate {
            from: db,
            to: "new.db",
        },
        "order" => return sending(db, Order::Registry(command)),
        "copy" => return sending(db, Order::Copy("new.db")),
        "ping" => return sending(db, Order::Ping),
        "list" => return sending(db, Order::List(Listing::Keys)),
        "catalog" => return sending(db, Order::Catalog(key)),
        "stop" => return sending(db, Order::Stop),
        "team-add" => Action::Register { command },
        "key-add" => Action::Register {
            command: RegistryCommand::KeyAdd {
                shelf: name,
                key,
                right: Right::Publishes,
            },
        },
        _ => Action::Inventory { key },
    };
    Command::OnStore { db, action }
}

/// Returns the command that sends an order.
fn sending<'a>(control: &'a str, order: Order<'a>) -> Command<'a> {
    Command::Send { control, order }
}

/// Returns the word that a command ended by.
fn word_of(told: Result<bool, CommandRefusal>) -> &'static str {
    match told {
        Ok(true) => "done",
        Ok(false) => "not accepted",
        Err(refusal) => refusal.word(),
    }
}

/// Returns the first row that ends by another word, or the empty text.
fn wrong_row<S, C, H, F, G, Q, R, U, V>(
    alloc: Global,
    host: &mut H,
    files: &mut F,
    targets: &mut G,
    older: &mut Q,
    servers: &mut V,
) -> &'static str
where
    H: Host<S, C> + ActionHost<S, ()>,
    F: StoreFiles<S, C>,
    G: StoreFiles<S, C>,
    Q: OlderFiles<C>,
    R: Hear,
    U: Tell,
    V: Servers<R, U>,
{
    for row in RUNS.lines() {
        let mut printed = Vec::<u8>::new(alloc);
        let told = run(
            host,
            files,
            targets,
            older,
            servers,
            &mut (),
            &command_of(row, &[cell(row, 2)]),
            &mut Hearing::new(&b""[..]),
            &mut Telling::new(&mut printed),
        );
        if word_of(told) != cell(row, 4) {
            return row;
        }
    }
    ""
}

#[test]
fn commands_run_on_the_store_that_the_last_one_closed(rt: HostRuntime) -> Result<(), Fail> {
    let mut host = MemoryHost { rt: &rt };
    let Ok(shelves) = MapShelves::new(rt.alloc()) else {
        return Err(Fail::from("no memory"));
    };
    let mut files = MemoryStoreFiles::new("shelves.db", "bytes.db", shelves);
    let Ok(none) = MapShelves::new(rt.alloc()) else {
        return Err(Fail::from("no memory"));
    };
    let mut targets = MemoryStoreFiles::new("new.db", "other.db", none);
    let mut older = NoOlderFiles {
        noted: Record::new(),
    };
    let mut servers = MemoryServers::new(rt.alloc(), "serve.socket", b"taken\n");
    let wrong = wrong_row(
        rt.alloc(),
        &mut host,
        &mut files,
        &mut targets,
        &mut older,
        &mut servers,
    );
    assert!(rt; wrong == "");
    Ok(())
}
