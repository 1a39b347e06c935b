//! The command that the words of the command line ask for.
ghost use Rattle.std.specs.Prelude.{◌≡◌, ℕ, List, codes, if◌then◌else◌, option_map, map};
ghost use Rattle.clap.specs.Words.{all_of, found_of, first_of, rows_of, subcommand_rows_of};
ghost use Rattle.orders.specs.declared.command.RegistryCommand.{RegistryCommand};
ghost use Rattle.cli.specs.Asks.{AsksAction, AsksCommand, AsksConnections, AsksEntrance, AsksOtherCommand};
ghost use Rattle.cli.specs.Asks.{AsksRegistryCommand};
ghost use Rattle.cli.specs.Asks.{Finds, Lacks};
ghost use Rattle.cli.specs.Asks.{GivenAsks, ReadsNumber, is_by_words, is_flagged};

use clap::ArgMatches;
use clap::parser::ValueSource;
use commands::action::Action;
use commands::publish::{Files, Words};
use commands::report::Named;
use orders::{Listing, Order, RegistryCommand};
use runner::Command;
use socket::ListenOn;
use world::entry::Right;

/// Returns the command that the words ask for, or None if they ask for none. The parser has refused words that lack a
/// required option, so None means that the options fit no form of a command that has two.
pub fn command_of<'m, 'a>(matches: &'m ArgMatches<'a>) -> Option<Command<'m>>
    ensures { Finds result (GivenAsks (subcommand_rows_of matches.now)) }
{
    let (word, options) = matches.subcommand()?;
    command_of_word(word, options)
}

/// Returns the command that has this word and these options.
fn command_of_word<'m, 'a>(word: &str, options: &'m ArgMatches<'a>) -> Option<Command<'m>>
    ensures { Finds result (AsksCommand (rows_of (found_of options.now)) word.now) }
{
    match word {
        "init" => Some(Command::Init {
            db: text(options, "db")?,
        }),
        "answer" => answer_of(options),
        "extract" => Some(Command::Extract {
            db: text(options, "db")?,
            teams: texts(options, "team")?,
            to: text(options, "to")?,
        }),
        "migrate" => Some(Command::Migrate {
            from: text(options, "from")?,
            to: text(options, "to")?,
        }),
        "copy" => Some(Command::Send {
            control: text(options, "control")?,
            order: Order::Copy(text(options, "to")?),
        }),
        "ping" => Some(Command::Send {
            control: text(options, "control")?,
            order: Order::Ping,
        }),
        "key-list" => key_list_of(options),
        "shelf-list" => shelf_list_of(options),
        "catalog" => catalog_of(options),
        "stop" => Some(Command::Send {
            control: text(options, "control")?,
            order: Order::Stop,
        }),
        _ => match registry_command_of(word, options) {
            Some(command) => registering_command(command, options),
            None => other_command(word, options),
        },
    }
}

/// Returns the command of a word and options that name no registry command: an action on the store of a file, or an
/// order to a running server that has a new key or a fingerprint.
fn other_command<'a>(word: &str, options: &ArgMatches<'a>) -> Option<Command<'a>>
    ensures { Finds result (AsksOtherCommand (rows_of (found_of options.now)) word.now) }
{
    match text(options, "db") {
        Some(db) => Some(Command::OnStore {
            db,
            action: action_of(word, options)?,
        }),
        None => match word {
            "key-add" => order_new_of(options),
            "key-revoke" => order_revoke_named_of(options),
            _ => None,
        },
    }
}

/// Returns the command `key-revoke --control S --fingerprint X`, or None if the options are those of another form.
fn order_revoke_named_of<'a>(options: &ArgMatches<'a>) -> Option<Command<'a>>
    requires { Lacks (rows_of (found_of options.now)) (codes "db") }
    ensures { Finds result (AsksOtherCommand (rows_of (found_of options.now)) (codes "key-revoke")) }
{
    match (
        text(options, "control"),
        text(options, "fingerprint"),
        text(options, "shelf"),
        is_flagged(options, "all"),
        text(options, "key"),
    ) {
        (Some(control), Some(fingerprint), None, false, None) => Some(Command::Send {
            control,
            order: Order::RevokeByFingerprint(fingerprint),
        }),
        _ => None,
    }
}

/// Returns the command `key-add --control S --new`, or None if the options are those of another form.
fn order_new_of<'a>(options: &ArgMatches<'a>) -> Option<Command<'a>>
    requires { Lacks (rows_of (found_of options.now)) (codes "db") }
    ensures { Finds result (AsksOtherCommand (rows_of (found_of options.now)) (codes "key-add")) }
{
    match (
        text(options, "control"),
        text(options, "shelf"),
        is_flagged(options, "new"),
        text(options, "key"),
    ) {
        (Some(control), Some(shelf), true, None) => {
            let right = right_of(is_flagged(options, "read-only"));
            Some(Command::OrderNew {
                control,
                shelf,
                right,
            })
        }
        _ => None,
    }
}

/// Returns the command `answer`, which takes a file, or `--mem` with a team and its key. None if the options are those
/// of neither form.
fn answer_of<'a>(options: &ArgMatches<'a>) -> Option<Command<'a>>
    ensures { Finds result (AsksCommand (rows_of (found_of options.now)) (codes "answer")) }
{
    match (
        text(options, "db"),
        is_flagged(options, "mem"),
        text(options, "team"),
        text(options, "key"),
    ) {
        (Some(db), false, None, None) => Some(Command::OnStore {
            db,
            action: Action::Answer,
        }),
        (None, true, Some(team), Some(key)) => Some(Command::AnswerInMemory { team, key }),
        _ => None,
    }
}

/// Returns the command `key-list`: of the running server whose socket the words name, or of the store of a file. None
/// if they name both or neither.
fn key_list_of<'a>(options: &ArgMatches<'a>) -> Option<Command<'a>>
    ensures { Finds result (AsksCommand (rows_of (found_of options.now)) (codes "key-list")) }
{
    match (text(options, "db"), text(options, "control")) {
        (Some(db), None) => Some(Command::OnStore {
            db,
            action: Action::List {
                listing: Listing::Keys,
            },
        }),
        (None, Some(control)) => Some(Command::Send {
            control,
            order: Order::List(Listing::Keys),
        }),
        _ => None,
    }
}

/// Returns the command `shelf-list`: of the running server whose socket the words name, or of the store of a file. None
/// if they name both or neither.
fn shelf_list_of<'a>(options: &ArgMatches<'a>) -> Option<Command<'a>>
    ensures { Finds result (AsksCommand (rows_of (found_of options.now)) (codes "shelf-list")) }
{
    match (text(options, "db"), text(options, "control")) {
        (Some(db), None) => Some(Command::OnStore {
            db,
            action: Action::List {
                listing: Listing::Shelves,
            },
        }),
        (None, Some(control)) => Some(Command::Send {
            control,
            order: Order::List(Listing::Shelves),
        }),
        _ => None,
    }
}

/// Returns the command `catalog`: of the running server whose socket the words name, or of the store of a file. None if
/// they name both or neither.
fn catalog_of<'a>(options: &ArgMatches<'a>) -> Option<Command<'a>>
    ensures { Finds result (AsksCommand (rows_of (found_of options.now)) (codes "catalog")) }
{
    match (
        text(options, "db"),
        text(options, "control"),
        text(options, "key"),
    ) {
        (Some(db), None, Some(key)) => Some(Command::OnStore {
            db,
            action: Action::Catalog { key },
        }),
        (None, Some(control), Some(key)) => Some(Command::Send {
            control,
            order: Order::Catalog(key),
        }),
        _ => None,
    }
}

/// Returns the command that carries out a registry command: on the running server whose socket the words name, or on
/// the store of a file. None if they name both or neither.
fn registering_command<'a>(
    command: RegistryCommand<'a>,
    options: &ArgMatches<'a>,
) -> Option<Command<'a>>
    ensures { (word : List ℕ) → AsksRegistryCommand (rows_of (found_of options.now)) word command.entry
        → Finds result (AsksCommand (rows_of (found_of options.now)) word) }
{
    match (text(options, "db"), text(options, "control")) {
        (Some(db), None) => Some(Command::OnStore {
            db,
            action: Action::Register { command },
        }),
        (None, Some(control)) => Some(Command::Send {
            control,
            order: Order::Registry(command),
        }),
        _ => None,
    }
}

/// Returns the registry command of a word and options, or None for another command.
fn registry_command_of<'a>(word: &str, options: &ArgMatches<'a>) -> Option<RegistryCommand<'a>>
    ensures { Finds result (AsksRegistryCommand (rows_of (found_of options.now)) word.now) }
{
    match word {
        "team-add" => Some(RegistryCommand::TeamAdd {
            name: text(options, "team")?,
            group: text(options, "group"),
        }),
        "group-add" => Some(RegistryCommand::GroupAdd {
            name: text(options, "group")?,
        }),
        "key-add" => key_add_of(options),
        "key-revoke" => key_revoke_of(options),
        _ => None,
    }
}

/// Returns the registry command of `key-add` with a key, or None if a key is to be made or none is named.
fn key_add_of<'a>(options: &ArgMatches<'a>) -> Option<RegistryCommand<'a>>
    ensures { Finds result (AsksRegistryCommand (rows_of (found_of options.now)) (codes "key-add")) }
{
    match (
        text(options, "shelf"),
        text(options, "key"),
        is_flagged(options, "new"),
    ) {
        (Some(shelf), Some(key), false) => Some(RegistryCommand::KeyAdd {
            shelf,
            key,
            right: right_of(is_flagged(options, "read-only")),
        }),
        _ => None,
    }
}

/// Returns the registry command of `key-revoke` with a key, or with a shelf whose keys are all revoked, or None if a
/// fingerprint is named in their place, or nothing.
fn key_revoke_of<'a>(options: &ArgMatches<'a>) -> Option<RegistryCommand<'a>>
    ensures { Finds result (AsksRegistryCommand (rows_of (found_of options.now)) (codes "key-revoke")) }
{
    match (
        text(options, "key"),
        text(options, "fingerprint"),
        text(options, "shelf"),
        is_flagged(options, "all"),
    ) {
        (Some(key), None, None, false) => Some(RegistryCommand::KeyRevoke { key }),
        (None, None, Some(shelf), true) => Some(RegistryCommand::KeysRevoke { shelf }),
        _ => None,
    }
}

/// Returns the right of a key that may only read, or that may publish too.
fn right_of(read_only: bool) -> Right
    ensures { result ≡ (if read_only then Right.Reads else Right.Publishes) }
{
    if read_only {
        Right::Reads
    } else {
        Right::Publishes
    }
}

/// Returns the action of a command that only the store of a file can do, or None for a command that has none.
fn action_of<'a>(word: &str, options: &ArgMatches<'a>) -> Option<Action<'a>>
    ensures { Finds result (AsksAction (rows_of (found_of options.now)) word.now) }
{
    match word {
        "key-add" => add_new_of(options),
        "key-revoke" => revoke_named_of(options),
        "publish" => publish_of(options),
        "import" => Some(Action::Import {
            key: text(options, "key")?,
            list: text(options, "list")?,
        }),
        "inventory" => Some(Action::Inventory {
            key: text(options, "key")?,
        }),
        "requires" => requires_of(options),
        "serve" => serve_of(options),
        _ => None,
    }
}

/// Returns the action of `key-add --new`, or None if the options are those of another form.
fn add_new_of<'a>(options: &ArgMatches<'a>) -> Option<Action<'a>>
    ensures { Finds result (AsksAction (rows_of (found_of options.now)) (codes "key-add")) }
{
    match (
        text(options, "shelf"),
        is_flagged(options, "new"),
        text(options, "key"),
        text(options, "control"),
    ) {
        (Some(shelf), true, None, None) => {
            let right = right_of(is_flagged(options, "read-only"));
            Some(Action::AddNew { shelf, right })
        }
        _ => None,
    }
}

/// Returns the action of `key-revoke` with a fingerprint, or None if the options are those of another form.
fn revoke_named_of<'a>(options: &ArgMatches<'a>) -> Option<Action<'a>>
    ensures { Finds result (AsksAction (rows_of (found_of options.now)) (codes "key-revoke")) }
{
    match (
        text(options, "fingerprint"),
        text(options, "shelf"),
        is_flagged(options, "all"),
        text(options, "key"),
        text(options, "control"),
    ) {
        (Some(fingerprint), None, false, None, None) => Some(Action::RevokeByFingerprint {
            fingerprint,
        }),
        _ => None,
    }
}

/// Returns the action of `publish`.
fn publish_of<'a>(options: &ArgMatches<'a>) -> Option<Action<'a>>
    ensures { Finds result (AsksAction (rows_of (found_of options.now)) (codes "publish")) }
{
    let words = Words {
        key: text(options, "key")?,
        path: text(options, "module")?,
        version: text(options, "version")?,
        time: text(options, "time"),
    };
    let files = Files {
        gomod: text(options, "mod")?,
        zip: text(options, "zip")?,
    };
    Some(Action::Publish { words, files })
}

/// Returns the action of `requires`.
fn requires_of<'a>(options: &ArgMatches<'a>) -> Option<Action<'a>>
    ensures { Finds result (AsksAction (rows_of (found_of options.now)) (codes "requires")) }
{
    let version = Named {
        key: text(options, "key")?,
        path: text(options, "module")?,
        version: text(options, "version")?,
    };
    Some(Action::Requires { version })
}

/// Returns the action of `serve`.
fn serve_of<'a>(options: &ArgMatches<'a>) -> Option<Action<'a>>
    ensures { Finds result (AsksAction (rows_of (found_of options.now)) (codes "serve")) }
{
    Some(Action::Serve {
        entrance: entrance_of(options)?,
        connections: connections_of(options)?,
        control: text(options, "control"),
    })
}

/// Returns where the connections of `serve` come in, or None if both places are named or neither.
fn entrance_of<'a>(options: &ArgMatches<'a>) -> Option<ListenOn>
    ensures { Finds result (AsksEntrance (rows_of (found_of options.now))) }
{
    match (port_of(options)?, is_flagged(options, "stdin")) {
        (Some(port), false) => Some(ListenOn::Port(port)),
        (None, true) => Some(ListenOn::Input),
        _ => None,
    }
}

/// Returns the port if it is given, or None if its text is no port number, which the parser refuses.
fn port_of<'a>(options: &ArgMatches<'a>) -> Option<Option<u16>>
    ensures { ReadsNumber (rows_of (found_of options.now)) (codes "port") 65535 result }
{
    options.try_get_one("port").ok()
}

/// Returns how many connections `serve` answers, or None if that is not a number, which the parser refuses.
fn connections_of<'a>(options: &ArgMatches<'a>) -> Option<u32>
    ensures { Finds result (AsksConnections (rows_of (found_of options.now))) }
{
    match given_connections(options)? {
        Some(connections) => Some(connections),
        None => Some(u32::MAX),
    }
}

/// Returns the number of connections if it is given, or None if its text is not a number.
fn given_connections<'a>(options: &ArgMatches<'a>) -> Option<Option<u32>>
    ensures { ReadsNumber (rows_of (found_of options.now)) (codes "connections") 4294967295 result }
{
    options.try_get_one("connections").ok()
}

/// Returns the text of an option.
fn text<'a>(options: &ArgMatches<'a>, name: &str) -> Option<&'a str>
    ensures { option_map (λ text. text.now) result ≡ first_of name.now (rows_of (found_of options.now)) }
{
    options.get_str(name)
}

/// Returns the texts of an option, one for each time that it is given.
fn texts<'m, 'a>(options: &'m ArgMatches<'a>, name: &str) -> Option<&'m [&'a str]>
    ensures { option_map (λ texts. map (λ text. text.now) texts.now) result
        ≡ all_of name.now (rows_of (found_of options.now)) }
{
    options.get_strs(name)
}

/// Whether the words give a flag.
fn is_flagged<'a>(options: &ArgMatches<'a>, name: &str) -> bool
    ensures { result ≡ is_flagged (rows_of (found_of options.now)) name.now }
{
    is_by_words(options.value_source(name))
}

/// Whether a value comes from the words, and not from a default.
fn is_by_words(source: Option<ValueSource>) -> bool
    ensures { result ≡ is_by_words source }
{
    matches!(source, Some(ValueSource::CommandLine))
}
