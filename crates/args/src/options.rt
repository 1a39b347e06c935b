//! The options of the commands, with their help.

/// An option of a command, as help shows it.
#[derive(Clone, Copy, Drop)]
pub(crate) struct OptionRow {
    pub(crate) name: &'static str,
    pub(crate) value: Value,
    /// Whether the parser refuses the command without it. An option that another can replace is not required.
    pub(crate) is_required: bool,
    pub(crate) help: &'static str,
}

/// The value of an option, with its name in help.
/// A value is taken as it is, even an empty one; one that begins with a dash needs `=`. The parser refuses a number
/// that is too large, with its own error words.
#[derive(Clone, Copy, Drop)]
pub(crate) enum Value {
    /// None: the option is a flag.
    Flag,
    /// A text.
    Text(&'static str),
    /// A text for each time that the option is given.
    Texts(&'static str),
    /// A number from 0 to this limit.
    Number(&'static str, u64),
}

/// The file of the store.
const DB: OptionRow = OptionRow {
    name: "db",
    value: Value::Text("F"),
    is_required: true,
    help: "The file of the store; one that is missing or empty has the shelf common alone",
};

pub(crate) const INIT: [OptionRow; 1] = [DB];

/// The file of the store, for a command that can take a running server instead.
const DB_OR_CONTROL: OptionRow = OptionRow {
    is_required: false,
    ..DB
};

/// The running server, in place of the file of the store.
const CONTROL: OptionRow = OptionRow {
    name: "control",
    value: Value::Text("S"),
    is_required: false,
    help: "In place of --db, the socket of the serve that has the store open",
};

/// A team.
const TEAM: OptionRow = OptionRow {
    name: "team",
    value: Value::Text("T"),
    is_required: true,
    help: "The team: 1 to 32 bytes of a-z, 0-9 and -, the first a letter, not common",
};

pub(crate) const TEAM_ADD: [OptionRow; 4] = [
    DB_OR_CONTROL,
    CONTROL,
    TEAM,
    OptionRow {
        name: "group",
        value: Value::Text("G"),
        is_required: false,
        help: "The group that the team joins, for good; without it, the team is in no group",
    },
];

pub(crate) const GROUP_ADD: [OptionRow; 3] = [
    DB_OR_CONTROL,
    CONTROL,
    OptionRow {
        name: "group",
        value: Value::Text("G"),
        is_required: true,
        help: "The group: 1 to 32 bytes of a-z, 0-9 and -, the first a letter, not common",
    },
];

/// A key.
const KEY: OptionRow = OptionRow {
    name: "key",
    value: Value::Text("K"),
    is_required: true,
    help: "A key that may publish",
};

pub(crate) const KEY_ADD: [OptionRow; 6] = [
    DB_OR_CONTROL,
    CONTROL,
    OptionRow {
        name: "shelf",
        value: Value::Text("S"),
        is_required: true,
        help: "The shelf that the key belongs to: a team, a group, or common",
    },
    OptionRow {
        is_required: false,
        help: "The key: 16 to 64 bytes of a-z and 0-9, which no shelf has",
        ..KEY
    },
    OptionRow {
        name: "new",
        value: Value::Flag,
        is_required: false,
        help: "In place of --key, make a key of 26 random letters and digits, and print it",
    },
    OptionRow {
        name: "read-only",
        value: Value::Flag,
        is_required: false,
        help: "The key may read, and not publish",
    },
];

pub(crate) const KEY_REVOKE: [OptionRow; 6] = [
    DB_OR_CONTROL,
    CONTROL,
    OptionRow {
        is_required: false,
        help: "The key to revoke; its text can be added again",
        ..KEY
    },
    OptionRow {
        name: "fingerprint",
        value: Value::Text("X"),
        is_required: false,
        help: "In place of --key, the fingerprint or the SHA-256 of the key, as key-list prints them",
    },
    OptionRow {
        name: "shelf",
        value: Value::Text("S"),
        is_required: false,
        help: "In place of --key, with --all, the shelf whose keys are revoked",
    },
    OptionRow {
        name: "all",
        value: Value::Flag,
        is_required: false,
        help: "With --shelf, revoke all keys of the shelf",
    },
];

pub(crate) const KEY_LIST: [OptionRow; 2] = [DB_OR_CONTROL, CONTROL];

pub(crate) const SHELF_LIST: [OptionRow; 2] = [DB_OR_CONTROL, CONTROL];

/// The path of a module.
const MODULE: OptionRow = OptionRow {
    name: "module",
    value: Value::Text("P"),
    is_required: true,
    help: "The module path, as its go.mod names it",
};

/// A version.
const VERSION: OptionRow = OptionRow {
    name: "version",
    value: Value::Text("V"),
    is_required: true,
    help: "The version, as v1.0.0",
};

pub(crate) const PUBLISH: [OptionRow; 7] = [
    DB,
    KEY,
    MODULE,
    VERSION,
    OptionRow {
        name: "mod",
        value: Value::Text("FILE"),
        is_required: true,
        help: "The file of the go.mod",
    },
    OptionRow {
        name: "zip",
        value: Value::Text("FILE"),
        is_required: true,
        help: "The file of the zip",
    },
    OptionRow {
        name: "time",
        value: Value::Text("T"),
        is_required: false,
        help: "The time of the version, as 2024-01-31T23:59:59Z",
    },
];

pub(crate) const IMPORT: [OptionRow; 3] = [
    DB,
    KEY,
    OptionRow {
        name: "list",
        value: Value::Text("CSV"),
        is_required: true,
        help: "The file of the list: CSV with the header path,version,time,mod,zip",
    },
];

/// A key of a shelf that is read.
const SHELF_KEY: OptionRow = OptionRow {
    help: "A key of the shelf",
    ..KEY
};

pub(crate) const INVENTORY: [OptionRow; 2] = [DB, SHELF_KEY];

pub(crate) const CATALOG: [OptionRow; 3] = [DB_OR_CONTROL, CONTROL, SHELF_KEY];

pub(crate) const REQUIRES: [OptionRow; 4] = [
    DB,
    OptionRow {
        help: "A key of a shelf that sees the version",
        ..KEY
    },
    MODULE,
    VERSION,
];

/// The file of a new store.
const TO: OptionRow = OptionRow {
    name: "to",
    value: Value::Text("G"),
    is_required: true,
    help: "The file of the new store: missing, empty, or a store with common alone and no key or version",
};

pub(crate) const EXTRACT: [OptionRow; 3] = [
    DB,
    OptionRow {
        name: "team",
        value: Value::Texts("T"),
        is_required: true,
        help: "A team; repeat --team for more; common and groups are not teams",
    },
    TO,
];

pub(crate) const MIGRATE: [OptionRow; 2] = [
    OptionRow {
        name: "from",
        value: Value::Text("F"),
        is_required: true,
        help: "The file of a store of schema 1 or 2, which is only read",
    },
    TO,
];

pub(crate) const ANSWER: [OptionRow; 4] = [
    OptionRow {
        is_required: false,
        ..DB
    },
    OptionRow {
        name: "mem",
        value: Value::Flag,
        is_required: false,
        help: "Keep the shelves in memory, beginning with one team and its key",
    },
    OptionRow {
        is_required: false,
        help: "With --mem, the team: 1 to 32 bytes of a-z, 0-9 and -, the first a letter, not common",
        ..TEAM
    },
    OptionRow {
        is_required: false,
        help: "With --mem, the team's publishing key: 16 to 64 bytes of a-z and 0-9",
        ..KEY
    },
];

pub(crate) const SERVE: [OptionRow; 5] = [
    DB,
    OptionRow {
        name: "port",
        value: Value::Number("N", u16::MAX as u64),
        is_required: false,
        help: "The port, 0 to 65535; 0 lets the system choose, and the port is printed",
    },
    OptionRow {
        name: "stdin",
        value: Value::Flag,
        is_required: false,
        help: "In place of --port, take the connections of the TCP socket that standard input is, which listens \
            already",
    },
    OptionRow {
        name: "connections",
        value: Value::Number("M", u32::MAX as u64),
        is_required: false,
        help: "How many connections to serve, one after another; one that fails counts; 4294967295 at most, and by \
            default",
    },
    OptionRow {
        name: "control",
        value: Value::Text("S"),
        is_required: false,
        help: "A socket to make, for the commands that take --control; only the user who runs serve, and root, may \
            connect to it",
    },
];

pub(crate) const COPY: [OptionRow; 2] = [
    OptionRow {
        is_required: true,
        help: "The socket of the serve whose store is copied",
        ..CONTROL
    },
    OptionRow {
        help: "The file of the copy, as that serve sees it: up to 4,090 bytes and no space; missing, or an empty store",
        ..TO
    },
];

pub(crate) const PING: [OptionRow; 1] = [OptionRow {
    is_required: true,
    help: "The socket of the serve that is asked",
    ..CONTROL
}];

pub(crate) const STOP: [OptionRow; 1] = [OptionRow {
    is_required: true,
    help: "The socket of the serve that is to end",
    ..CONTROL
}];
