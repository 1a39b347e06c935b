//! One whole run of the program.
ghost use Rattle.std.specs.Prelude.{◌≡◌, ◌++◌};
ghost use Rattle.std.specs.IoError.{error_kind};
ghost use Rattle.clap.specs.Values.{kind_of};
ghost use Rattle.commands.specs.Exit.{IsSilent, Says, status_of};
ghost use Rattle.args.specs.Table.{texts};
ghost use Rattle.socket.specs.Connections.{both};
ghost use Rattle.cli.specs.Run.{EndsShown, EndsUnread, Exits, Explains, RefusesWords, SparesOutput, TellsLoneLog};
ghost use Rattle.cli.specs.Run.{TellsNew, TellsOfCopy, Warns, is_absolute, new_store};

use crate::asked::command_of;
use crate::parser_text::print_text;
use crate::system::{Runner, SystemStores};
use crate::version::VERSION;
use args::{matches_of, no_form};
use clap::error::ErrorKind;
use commands::action::Action;
use commands::exit::{Exit, write_warning};
use commands::refusal::CommandRefusal;
use histories::{Hear, Tell};
use orders::Order;
use runner::Command;
use std::alloc::Global;
use std::io::{self, Write};

/// Runs the program by the words after its name and returns the exit status: 0 done, 1 refused or not accepted, 2 bad
/// usage.
///
/// A refusal prints one line `goshelf: <word>` on `errors`; `publish` prints its outcome on `output` instead, and
/// `import` a line for each row. Bad usage prints the parser's text on `errors`. If the store is new, `serve` prints a
/// line there, and so do commands that write to the store if that is a terminal. If a new store is refused because a
/// log stands at its name, a line says so before the refusal. The texts of the parser are tested and
/// not proved.
///
/// The histories of `stores`, which `main` makes, have what was done to files of stores, with servers and with callers,
/// what was read of other files, and nothing else.
pub fn command<'a, I: Hear, O: Tell, E: Tell>(
    stores: &mut SystemStores<'a>,
    words: &[String],
    input: &mut I,
    output: &mut O,
    errors: &mut E,
) -> u8
    ensures { Exits ⟦<SystemStores<'a> as Runner>⟧.ran ⟦<SystemStores<'a> as Runner>⟧.causes
        ⟦<SystemStores<'a> as Runner>⟧.says (texts words.now)
        stores.old stores.new (I.account input.old) (I.account input.new)
        (O.contents output.old) (O.contents output.new)
        (record { reads = I.reads input.old; writes = O.writes output.old })
        (record { reads = I.reads input.new; writes = O.writes output.new })
        (both E.contents E.writes errors.old) (both E.contents E.writes errors.new) result }
{
    command_by(stores.alloc(), stores, words, input, output, errors)
}

/// Runs the program with anything that runs commands, and returns the exit status. It runs one command, or none
/// if it shows the parser's text, for example for `--help`.
pub fn command_by<P: Runner, I: Hear, O: Tell, E: Tell>(
    alloc: Global,
    runner: &mut P,
    words: &[String],
    input: &mut I,
    output: &mut O,
    errors: &mut E,
) -> u8
    ensures { Exits P.ran P.causes P.says (texts words.now) runner.old runner.new
        (I.account input.old) (I.account input.new) (O.contents output.old) (O.contents output.new)
        (record { reads = I.reads input.old; writes = O.writes output.old })
        (record { reads = I.reads input.new; writes = O.writes output.new })
        (both E.contents E.writes errors.old) (both E.contents E.writes errors.new) result }
{
    let matches = match matches_of(alloc, VERSION, words) {
        Ok(matches) => matches,
        Err(error) => return end(show(error, output, errors), errors),
    };
    let Some(command) = command_of(&matches) else {
        return end(show(no_form(alloc, &matches), output, errors), errors);
    };
    warn(runner, &command, errors);
    let told = runner.run(&command, input, output);
    explain(runner, &command, told, errors);
    end(Exit::of_command(told), errors)
}

/// Writes the line that says why a run was refused, if it was, and returns the exit status.
fn end<E: Tell>(ended: Exit, errors: &mut E) -> u8
    ensures says { Says (both E.contents E.writes errors.old) (both E.contents E.writes errors.new) ended }
    ensures status { result ≡ status_of ended }
{
    ended.tell(errors);
    ended.status()
}

/// Writes a line on `errors` if the store of the command is new, as one with a mistyped name is: always if it is
/// served, because it answers 404 to everybody, and otherwise if the command writes to it and somebody sees `errors`.
fn warn<P: Runner, E: Tell>(runner: &P, command: &Command, errors: &mut E)
    ensures { Warns P.says runner.now (both E.contents E.writes errors.old) (both E.contents E.writes errors.new)
        command.now }
{
    match command {
        Command::OnStore {
            db,
            action: Action::Serve { .. },
        } => tell_new(
            runner,
            db,
            b"; without a key, each request gets a 404\n",
            errors,
        ),
        Command::OnStore {
            db,
            action: Action::Register { .. }
            | Action::AddNew { .. }
            | Action::RevokeByFingerprint { .. }
            | Action::Publish { .. }
            | Action::Import { .. },
        } => {
            if runner.is_watched() {
                tell_new(runner, db, b"\n", errors);
            }
        }
        _ => {}
    }
}

/// Writes a line on `errors` if a store is new, and what follows in it. If a write fails, a beginning is written.
fn tell_new<P: Runner, E: Tell>(runner: &P, db: &str, rest: &[u8], errors: &mut E)
    ensures { TellsNew P.says runner.now (both E.contents E.writes errors.old) (both E.contents E.writes errors.new)
        db.now (new_store ++ rest.now) }
{
    if runner.is_new(db) {
        write_warning(
            b"new store: the file of --db is missing or empty",
            rest,
            errors,
        );
    }
}

/// Writes a line on `errors` if a command was refused because a log stands alone at the name of its new store.
fn explain<P: Runner, E: Tell>(
    runner: &P,
    command: &Command,
    told: Result<bool, CommandRefusal>,
    errors: &mut E,
)
    ensures { Explains P.says runner.now (both E.contents E.writes errors.old) (both E.contents E.writes errors.new)
        command.now told }
{
    if told != Err(CommandRefusal::NotEmpty) {
        return;
    }
    match command {
        Command::Extract { to, .. } | Command::Migrate { to, .. } => {
            tell_lone_log(runner, to, errors);
        }
        Command::Send {
            order: Order::Copy(to),
            ..
        } => tell_of_copy(runner, to, errors),
        _ => {}
    }
}

/// Writes a line on `errors` if a log stands alone at the path of a copy, and none if the path is relative: the server
/// takes that from another folder than this process.
fn tell_of_copy<P: Runner, E: Tell>(runner: &P, to: &str, errors: &mut E)
    ensures { TellsOfCopy P.says runner.now (both E.contents E.writes errors.old)
        (both E.contents E.writes errors.new) (is_absolute to.now) to.now }
{
    if to.starts_with('/') {
        tell_lone_log(runner, to, errors);
    }
}

/// Writes a line on `errors` if a log stands alone at the name of a store. If a write fails, a beginning is written.
fn tell_lone_log<P: Runner, E: Tell>(runner: &P, to: &str, errors: &mut E)
    ensures { TellsLoneLog P.says runner.now (both E.contents E.writes errors.old)
        (both E.contents E.writes errors.new) to.now }
{
    if runner.has_lone_log(to) {
        write_warning(
            to.as_bytes(),
            b"-wal is a log without its store: move it away, or name another file\n",
            errors,
        );
    }
}

/// Shows the parser's text, and returns how the run ended: help and the version on the output, and what is wrong with
/// the words on `errors`. If the output fails, the run ends with `goshelf: io`; it ends well once the text is flushed.
fn show<O: Tell, E: Tell>(error: clap::Error, output: &mut O, errors: &mut E) -> Exit
    ensures ends { EndsShown (O.writes output.old) (O.writes output.new) (kind_of error) result }
    ensures output { SparesOutput (kind_of error) (O.contents output.old) (O.contents output.new) }
    ensures silent { IsSilent (both E.contents E.writes errors.old) (both E.contents E.writes errors.new) result }
{
    match error.kind() {
        ErrorKind::OutOfMemory => Exit::Refused(CommandRefusal::Memory),
        ErrorKind::DisplayHelp | ErrorKind::DisplayVersion => match print_text(&error, output) {
            Ok(()) => Exit::Done,
            Err(_) => Exit::Refused(CommandRefusal::Io),
        },
        _ => {
            let _ = write!(errors, "{error}");
            Exit::BadUsage
        }
    }
}

/// Reports that the words could not be read, and returns the exit status. Words that are not UTF-8 are bad usage; if
/// memory ran out, the run ends with `goshelf: memory`.
pub fn words_refused<E: Tell>(error: io::Error, errors: &mut E) -> u8
    ensures { RefusesWords (error_kind error) (both E.contents E.writes errors.old)
        (both E.contents E.writes errors.new) result }
{
    end(show_unread(&error, errors), errors)
}

/// Shows why the words could not be read, if that is not for memory, and returns how the run ended.
fn show_unread<E: Tell>(error: &io::Error, errors: &mut E) -> Exit
    ensures ends { EndsUnread (error_kind error.now) result }
    ensures silent { IsSilent (both E.contents E.writes errors.old) (both E.contents E.writes errors.new) result }
{
    match error.kind() {
        io::ErrorKind::OutOfMemory => Exit::Refused(CommandRefusal::Memory),
        _ => {
            let _ = writeln!(errors, "error: an argument is not text");
            Exit::BadUsage
        }
    }
}
