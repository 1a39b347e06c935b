//! What the commands of the program do, over any store, any reader and any writer.
//!
//! | command | what it does | where |
//! |---|---|---|
//! | `team-add`, `group-add`, `key-add`, `key-revoke` | does one registry command, as the machine does | [`registry`] |
//! | `key-add --new` | makes a key of random bytes, adds it, and prints it | [`new_key`], [`random_bytes`] |
//! | `key-revoke --fingerprint` | revokes the key that has a fingerprint or a SHA-256 | [`registry`] |
//! | `publish` | asks the machine to publish two files, and prints the line of its outcome | [`publish`] |
//! | `import` | asks the machine to publish each row of a list, with a line for each | [`import`], [`import_file`] |
//! | `inventory` | prints what a shelf sees | [`report`], [`inventory`] |
//! | `catalog` | prints what a shelf sees, each version as a line of JSON | [`report`] |
//! | `requires` | prints what a version requires | [`report`], [`requirements`] |
//! | a list, such as `key-list` | prints its lines | [`report`] |
//! | `answer` | answers the requests of a reader from a store, or from shelves in memory | [`answer`], [`memory`] |
//! | `serve` | prints where it listens, answers a message on each connection, and carries out orders | [`serve`] |
//! | with `--control`; `stop` | sends `serve` an order, and ends as it replies | [`remote`], `order`, `sent_order` |
//! | `copy` | orders `serve` to make a copy, and waits for it | [`remote`], `copy` |
//! | `publish`, `import` | read files, and note each that they read | [`sources`], [`front`], [`memory_files`] |
//! | `copy`, `import` | show on a terminal how far they are | [`progress`], [`copy_progress`], [`import_progress`] |
//!
//! If the output of a command fails, because a call to write or to flush failed, a beginning of its text is printed, or
//! all of it, and it ends with `Io`.
//!
//! [`laws`] has what holds of every inventory, every import and every order that is sent. [`action`] does the action of
//! a command on a store; [`refusal`] has the words that say why a command was refused, and [`exit`] how a run ends: its
//! exit status, and the line of that word. Nothing here opens a store or reads the words of a command line.
#![tactic(auto)]

pub mod action;
pub mod answer;
mod copy;
pub mod copy_progress;
pub mod exit;
pub mod files;
pub mod front;
pub mod import;
pub mod import_file;
pub mod import_line;
pub mod import_list;
pub mod import_progress;
pub mod inventory;
mod inventory_text;
pub mod laws;
pub mod ledger;
pub mod memory;
pub mod memory_files;
pub mod moment;
pub mod new_key;
mod order;
mod printing;
pub mod progress;
pub mod publish;
pub mod random_bytes;
pub mod refusal;
pub mod registry;
pub mod remote;
pub mod report;
pub mod requirements;
mod sent_order;
pub mod serve;
pub mod sources;
