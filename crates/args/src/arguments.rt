//! The commands with their help, and the parser that is made from them.
ghost use Rattle.std.specs.Prelude.{◌≡◌, IfOk, map};
ghost use Rattle.clap.specs.Words.{app_of, rule_of, shape_of};
ghost use Rattle.args.specs.Table as spec;

use crate::options::{
    ANSWER, CATALOG, COPY, EXTRACT, GROUP_ADD, IMPORT, INIT, INVENTORY, KEY_ADD, KEY_LIST,
    KEY_REVOKE, MIGRATE, OptionRow, PING, PUBLISH, REQUIRES, SERVE, SHELF_LIST, STOP, TEAM_ADD,
    Value,
};
use clap::builder::ValueParser;
use clap::{Arg, ArgAction, Command};
use std::alloc::{AllocError, Global};

/// A command, as help shows it.
#[derive(Clone, Copy, Drop)]
struct CommandRow {
    name: &'static str,
    about: &'static str,
    options: &'static [OptionRow],
    /// The allowed forms, if options replace others; the parser makes the usage of every other command.
    forms: Option<&'static str>,
    /// The text below the options: nothing, or an example.
    example: &'static str,
}

/// The commands that work on one store, in the order of the help.
static STORE_COMMANDS: [CommandRow; 12] = [
    CommandRow {
        name: "init",
        about: "Makes a store with the shelf common alone, in a file that has no bytes",
        options: &INIT,
        forms: None,
        example: "",
    },
    CommandRow {
        name: "team-add",
        about: "Adds a team, with a shelf of its own",
        options: &TEAM_ADD,
        forms: Some(TEAM_ADD_FORMS),
        example: "",
    },
    CommandRow {
        name: "group-add",
        about: "Adds a group, with a shelf of its own",
        options: &GROUP_ADD,
        forms: Some(GROUP_ADD_FORMS),
        example: "",
    },
    CommandRow {
        name: "key-add",
        about: "Adds a key to a shelf",
        options: &KEY_ADD,
        forms: Some(KEY_ADD_FORMS),
        example: "",
    },
    CommandRow {
        name: "key-revoke",
        about: "Revokes a key",
        options: &KEY_REVOKE,
        forms: Some(KEY_REVOKE_FORMS),
        example: "",
    },
    CommandRow {
        name: "key-list",
        about: "Prints a line for each key: its shelf, what it may do, its fingerprint and its SHA-256",
        options: &KEY_LIST,
        forms: Some(KEY_LIST_FORMS),
        example: "",
    },
    CommandRow {
        name: "shelf-list",
        about: "Prints a line for each shelf: its name, what kind it is, and a team's group",
        options: &SHELF_LIST,
        forms: Some(SHELF_LIST_FORMS),
        example: "",
    },
    CommandRow {
        name: "publish",
        about: "Publishes a version of a module from files, and prints the outcome",
        options: &PUBLISH,
        forms: None,
        example: PUBLISH_EXAMPLE,
    },
    CommandRow {
        name: "import",
        about: "Publishes each row of a list, and prints the outcome of each",
        options: &IMPORT,
        forms: None,
        example: IMPORT_EXAMPLE,
    },
    CommandRow {
        name: "inventory",
        about: "Prints each version that the shelf of a key sees, as CSV",
        options: &INVENTORY,
        forms: None,
        example: "",
    },
    CommandRow {
        name: "catalog",
        about: "Prints each version that the shelf of a key sees, as a line of JSON",
        options: &CATALOG,
        forms: Some(CATALOG_FORMS),
        example: "",
    },
    CommandRow {
        name: "requires",
        about: "Prints what the go.mod of a version requires, a line for each path and version",
        options: &REQUIRES,
        forms: None,
        example: "",
    },
];

/// The other commands, in the order of the help.
static OTHER_COMMANDS: [CommandRow; 7] = [
    CommandRow {
        name: "extract",
        about: "Makes a store of the part of one team or more: their shelves, their groups' and common, with their \
            versions and keys",
        options: &EXTRACT,
        forms: None,
        example: "",
    },
    CommandRow {
        name: "migrate",
        about: "Makes a store of a file of an older schema, which other commands refuse as bad-schema",
        options: &MIGRATE,
        forms: None,
        example: "",
    },
    CommandRow {
        name: "answer",
        about: "Answers the HTTP requests on standard input, on standard output",
        options: &ANSWER,
        forms: Some(ANSWER_FORMS),
        example: "",
    },
    CommandRow {
        name: "serve",
        about: "Answers one HTTP request on each connection to 127.0.0.1",
        options: &SERVE,
        forms: Some(SERVE_FORMS),
        example: SERVE_EXAMPLE,
    },
    CommandRow {
        name: "copy",
        about: "Has a running serve copy its store into another file, and serve on meanwhile",
        options: &COPY,
        forms: None,
        example: "",
    },
    CommandRow {
        name: "ping",
        about: "Prints what a running serve counts: connections by status, failures of the store, versions",
        options: &PING,
        forms: None,
        example: "",
    },
    CommandRow {
        name: "stop",
        about: "Has a running serve end, after the request in hand",
        options: &STOP,
        forms: None,
        example: "",
    },
];

/// The two forms of `answer`; those of other commands follow.
/// They are written by hand, because the parser would list `--db`, `--mem`, `--team` and `--key` as all required.
const ANSWER_FORMS: &str =
    "goshelf answer --db <F>\n       goshelf answer --mem --team <T> --key <K>";

const TEAM_ADD_FORMS: &str = "\
goshelf team-add --db <F> --team <T> [--group <G>]
       goshelf team-add --control <S> --team <T> [--group <G>]";

const GROUP_ADD_FORMS: &str =
    "goshelf group-add --db <F> --group <G>\n       goshelf group-add --control <S> --group <G>";

const KEY_ADD_FORMS: &str = "\
goshelf key-add --db <F> --shelf <S> --key <K> [--read-only]
       goshelf key-add --db <F> --shelf <S> --new [--read-only]
       goshelf key-add --control <S> --shelf <S> --key <K> [--read-only]
       goshelf key-add --control <S> --shelf <S> --new [--read-only]";

const KEY_REVOKE_FORMS: &str = "\
goshelf key-revoke --db <F> --key <K>
       goshelf key-revoke --db <F> --fingerprint <X>
       goshelf key-revoke --db <F> --shelf <S> --all
       goshelf key-revoke --control <S> --key <K>
       goshelf key-revoke --control <S> --fingerprint <X>
       goshelf key-revoke --control <S> --shelf <S> --all";

const KEY_LIST_FORMS: &str = "goshelf key-list --db <F>\n       goshelf key-list --control <S>";

const SHELF_LIST_FORMS: &str =
    "goshelf shelf-list --db <F>\n       goshelf shelf-list --control <S>";

const CATALOG_FORMS: &str =
    "goshelf catalog --db <F> --key <K>\n       goshelf catalog --control <S> --key <K>";

const SERVE_FORMS: &str = "\
goshelf serve --db <F> --port <N> [--connections <M>] [--control <S>]
       goshelf serve --db <F> --stdin [--connections <M>] [--control <S>]";

/// An example of a publish.
const PUBLISH_EXAMPLE: &str = "\
Example:
  goshelf publish --db shelves.db --key alphakey00000001 --module example.com/greet \\
      --version v1.0.0 --mod go.mod --zip greet.zip --time 2024-01-31T12:00:00Z";

/// An example of a list and its import.
const IMPORT_EXAMPLE: &str = "\
Example, with a list of two versions, of which the second has no time:
  $ cat list.csv
  path,version,time,mod,zip
  example.com/greet,v1.0.0,2024-01-31T12:00:00Z,go.mod,greet.zip
  example.com/greet,v1.0.1,,go.mod,greet.zip
  $ goshelf import --db shelves.db --key alphakey00000001 --list list.csv
  1 201 published
  2 201 published";

/// An example of a server, and of a go command that uses it.
const SERVE_EXAMPLE: &str = "\
Example, and the go command that asks it with the key K:
  goshelf serve --db shelves.db --port 8080
  GOPROXY=http://127.0.0.1:8080/k/K GONOSUMDB=example.com go get example.com/greet@v1.0.0";

/// Returns the parser of the whole command line. Calls here fail only if memory runs out.
pub fn parser<'a>(alloc: Global, version: &'a str) -> Result<Command<'a>, AllocError>
    ensures { IfOk result (λ made. app_of made ≡ spec.program) }
{
    let program = with_commands(alloc, program(alloc, version)?, store_commands())?;
    with_commands(alloc, program, other_commands())
}

/// Returns the first table. Each table has a function of its own, because the prover reads all texts of a table
/// at once.
fn store_commands() -> &'static [CommandRow]
    ensures { map spec.table_line result.now ≡ spec.store_lines }
{
    STORE_COMMANDS.as_slice()
}

/// Returns the second table.
fn other_commands() -> &'static [CommandRow]
    ensures { map spec.table_line result.now ≡ spec.other_lines }
{
    OTHER_COMMANDS.as_slice()
}

/// Returns the program with the commands of a table.
/// It loops over the table, because a chain of parser calls for each command takes several times as long to prove.
fn with_commands<'a>(
    alloc: Global,
    program: Command<'a>,
    rows: &[CommandRow],
) -> Result<Command<'a>, AllocError>
    ensures { IfOk result (λ made.
        app_of made ≡ spec.with_lines (app_of program.entry) (map spec.table_line rows.now)) }
{
    let mut program = program;
    for row in rows {
        program = program.subcommand(command(alloc, row)?)?;
    }
    Ok(program)
}

/// Returns the program without its commands.
fn program<'a>(alloc: Global, version: &'a str) -> Result<Command<'a>, AllocError>
    ensures { IfOk result (λ made. app_of made ≡ spec.bare_program) }
{
    described(alloc, version)
        .no_binary_name(true)
        .subcommand_required(true)
        .bin_name("goshelf")
}

/// Returns the program, as help shows it.
fn described<'a>(alloc: Global, version: &'a str) -> Command<'a>
    ensures { app_of result ≡ spec.named_program }
{
    Command::new(alloc, "goshelf")
        .about("A private Go module proxy with team shelves")
        .version(version)
}

/// Returns a command without its options, as help shows it. A command with forms shows its help, as bad usage, if no
/// option follows.
fn bare<'a>(alloc: Global, row: &CommandRow) -> Command<'a>
    ensures { app_of result ≡ spec.bare_command (spec.table_line row.now) }
{
    let command = Command::new(alloc, row.name)
        .about(row.about)
        .after_help(row.example);
    match row.forms {
        Some(forms) => command.override_usage(forms).arg_required_else_help(true),
        None => command,
    }
}

/// Returns the command of a name, without its options, or the bare program if no command has the name.
pub fn shown_command<'a>(alloc: Global, name: &str) -> Command<'a> {
    match row_of(store_commands(), name) {
        Some(row) => bare(alloc, row),
        None => match row_of(other_commands(), name) {
            Some(row) => bare(alloc, row),
            None => Command::new(alloc, "goshelf"),
        },
    }
}

/// Returns the row of a command.
fn row_of(rows: &'static [CommandRow], name: &str) -> Option<&'static CommandRow> {
    for row in rows {
        if row.name == name {
            return Some(row);
        }
    }
    None
}

/// Returns a command with its options.
fn command<'a>(alloc: Global, row: &CommandRow) -> Result<Command<'a>, AllocError>
    ensures { IfOk result (λ made. shape_of made ≡ spec.shape_of_line (spec.table_line row.now)) }
{
    let mut command = bare(alloc, row);
    for option in row.options {
        command = command.arg(argument(alloc, option))?;
    }
    Ok(command)
}

/// Returns an option with its value, its help, and whether it is required.
fn argument<'a>(alloc: Global, row: &OptionRow) -> Arg<'a>
    ensures { rule_of result ≡ spec.rule_of_option (spec.option_of row.now) }
{
    let option = Arg::new(alloc, row.name)
        .long(row.name)
        .help(row.help)
        .required(row.is_required);
    match row.value {
        Value::Flag => option.action(ArgAction::SetTrue),
        Value::Text(name) => option.value_name(name),
        Value::Texts(name) => option.value_name(name).action(ArgAction::Append),
        Value::Number(name, most) => option
            .value_name(name)
            .value_parser(ValueParser::unsigned(0, most)),
    }
}
