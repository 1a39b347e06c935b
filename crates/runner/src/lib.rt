//! Runs the commands of the program: on the store of a file or of two, or on shelves in memory.
//!
//! | command | what it does |
//! |---|---|
//! | [`Command::Init`] | makes a store with the shelf `common` alone, in a file that has no bytes |
//! | [`Command::AnswerInMemory`] | answers requests from shelves in memory |
//! | [`Command::OnStore`] | opens the store of a file and does an action of `commands` on it |
//! | [`Command::Extract`] | opens the stores of two files and puts some teams' part of the first into the second |
//! | [`Command::Migrate`] | opens the store of a file and puts what a file of an older schema has into it |
//! | [`Command::Send`] | opens no store, sends an order to the `serve` that has one open, and prints what it asks for |
//! | [`Command::OrderNew`] | opens no store, makes a key, sends an order to add it, and prints it |
//!
//! One function opens each store and closes it before it returns: `on_file` for an action, `extract_file` for the store
//! that is extracted from, `migrate_copy` for the copy of an older file, and `extract_to`, `migrate_to` and `copy_to`
//! for a new store. These and [`run`] have no handle of the system: a history has each file that they opened, and the
//! state in which they closed it. `host` and `system` hold one and lend it. Nothing here reads the words of a command
//! line.
#![tactic(auto)]

ghost use Rattle.commands.specs.Connection.{IsAll};
ghost use Rattle.file_action.specs.OnFile.{FlushesAll};
ghost use Rattle.runner.specs.Cause.{CauseOf};
ghost use Rattle.runner.specs.Command.{Runs};

mod beside;
mod copies;
mod copy_line;
mod extract;
pub mod file_checks;
pub mod found;
pub mod host;
pub mod laws;
mod migrate;
mod old_file;
pub mod older_files;
mod open;
mod opening;
mod reserve;
mod slice_pace;
pub mod system;
pub mod temporary_files;

use crate::file_checks::FileChecks;
use crate::host::Host;
use crate::older_files::OlderFiles;
use commands::action::{Action, acceptance};
use commands::memory::answer_in_memory;
use commands::progress::StderrLine;
use commands::refusal::CommandRefusal;
use commands::remote::send_at;
use file_action::host::ActionHost;
use file_action::{init, on_file};
use histories::{Hear, Tell};
use network::servers::Servers;
use orders::Order;
use store_files::files::StoreFiles;
use world::entry::Right;

/// What the words after the name of the program ask for, with the files of its stores.
#[derive(Clone, Copy, Drop)]
pub enum Command<'a> {
    /// `init --db F`: makes a store with the shelf `common` alone, in a file that has no bytes.
    Init {
        db: &'a str,
    },
    /// `answer --mem --team T --key K`: answers the requests on the input from shelves in memory.
    AnswerInMemory {
        team: &'a str,
        key: &'a str,
    },
    /// A command with `--db F`: does an action on the store of a file.
    OnStore {
        db: &'a str,
        action: Action<'a>,
    },
    /// `extract --db F --team A --team B .. --to G`: puts these teams' part of the store of F into that of G.
    Extract {
        db: &'a str,
        teams: &'a [&'a str],
        to: &'a str,
    },
    /// `migrate --from F --to G`: puts what F has, whose tables have an older schema, into the store of G.
    Migrate {
        from: &'a str,
        to: &'a str,
    },
    /// A command with `--control S`, or `copy`, `ping` or `stop`, which have no other form: sends an order to the
    /// `serve` that listens at the socket S, and ends as the reply says. The path of a copy is as that server sees it.
    Send {
        control: &'a str,
        order: Order<'a>,
    },
    /// `key-add --control S --new`: makes a key, orders the `serve` that listens at the socket S to add it, and prints
    /// it.
    OrderNew {
        control: &'a str,
        shelf: &'a str,
        right: Right,
    },
}

/// Runs a command and returns whether it was accepted; only a publish and an import can be done and not accepted. Fails
/// with the refusal of the command.
///
/// By `files` it looks once whether the file of an `init` has bytes, and opens the store of a command; by `targets` it
/// opens the new store of an `extract` or a `migrate`, and by `older` a copy of an older store: each file of the
/// command once, and it closes a store in the state that the command left it in. Neither this function nor `host` does
/// anything else by them. By `servers` it connects to the `serve` of a command with `--control`: once, to the socket of
/// the command, and nothing passes over that connection but the line of the order and its reply, which decides what is
/// printed and how the command ends. `key-add --new` sends a second order if it can't print the key, and a `copy` asks
/// how far it is, over connections of their own. An action is done by `host`, and so are checks. Only an action on the
/// store of a file does anything `outside`, which is where `serve` lets callers in, and a publish and an import read
/// files.
pub fn run<S, C, N, H, F, G, Q, R, U, V, I, W>(
    host: &mut H,
    files: &mut F,
    targets: &mut G,
    older: &mut Q,
    servers: &mut V,
    outside: &mut N,
    command: &Command,
    input: &mut I,
    output: &mut W,
) -> Result<bool, CommandRefusal>
where
    H: Host<S, C> + ActionHost<S, N>,
    F: StoreFiles<S, C>,
    G: StoreFiles<S, C>,
    Q: OlderFiles<C>,
    R: Hear,
    U: Tell,
    V: Servers<R, U>,
    I: Hear,
    W: Tell,
    ensures runs { Runs H.acts H.state_of H.shown
        (record { begins = F.begins; left = F.left; before = F.history files.old; after = F.history files.new })
        (record { begins = G.begins; left = G.left; before = G.history targets.old; after = G.history targets.new })
        (record { begins = Q.begins; left = Q.left; before = Q.history older.old; after = Q.history older.new })
        (λ link passed. IsAll (R.account link.reader) (R.reads link.reader)
        (U.contents link.writer) (U.writes link.writer).failed passed)
        (V.history servers.old) (V.history servers.new) outside.old outside.new
        (I.account input.old) (I.account input.new) (W.contents output.old) (W.contents output.new)
        result command.now }
    // What was printed is flushed.
    ensures flushed { FlushesAll (W.writes output.old) (W.writes output.new) result }
    // If it fails with `Io`, this is why.
    ensures cause { CauseOf H.causes
        (record { begins = F.begins; left = F.left; before = F.history files.old; after = F.history files.new })
        (λ link passed. IsAll (R.account link.reader) (R.reads link.reader)
        (U.contents link.writer) (U.writes link.writer).failed passed)
        (V.history servers.old) (V.history servers.new) outside.old outside.new
        (I.account input.old) (I.account input.new) (W.contents output.old) (W.contents output.new)
        (record { reads = I.reads input.old; writes = W.writes output.old })
        (record { reads = I.reads input.new; writes = W.writes output.new })
        result command.now }
{
    match command {
        Command::Init { db } => init(host, files, outside, db, input, output),
        Command::AnswerInMemory { team, key } => {
            answer_in_memory(host.alloc(), team, key, input, output)?;
            Ok(true)
        }
        Command::OnStore { db, action } => {
            on_file(host, files, outside, db, action, input, output)
        },
        Command::Extract { db, teams, to } => {
            acceptance(host.extract(files, targets, db, teams, to))
        }
        Command::Migrate { from, to } => acceptance(host.migrate(older, targets, from, to)),
        Command::Send { control, order } => {
            let line = line_of(host, order);
            send_at(host.alloc(), servers, control, order, line, output)
        }
        Command::OrderNew {
            control,
            shelf,
            right,
        } => acceptance(host.order_new(servers, control, shelf, *right, output)),
    }
}

/// Returns the line that shows how far an order is: that of a copy, if somebody may see it.
fn line_of<'h, H: FileChecks>(host: &'h H, order: &Order) -> Option<StderrLine<'h>> {
    match order {
        Order::Copy(_) => host.line("copy"),
        _ => None,
    }
}
