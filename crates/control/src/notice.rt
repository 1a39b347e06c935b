//! The lines that `serve` writes on standard error.
ghost use Rattle.std.specs.Prelude.{◌≡◌, ◌++◌, codes, string_bytes, option_copied, IfOk};
ghost use Rattle.control.specs.Notices as spec;
ghost use Rattle.control.specs.Notices.{Answered, Catalogued, Copied, Ended, Met, Opened, Ordered, Reserved, Uncounted};
ghost use Rattle.keyring.specs.KeyList as keys;

use crate::copies::{CatalogRefusal, CopyRefusal};
use crate::outcome::{outcome_of, outcome_of_catalog, outcome_of_copy};
use crate::plain::{UNTOLD, plain};
use crate::store_call::{StoreCall, two};
use keyring::key_list::fingerprint;
use orders::{Outcome, RegistryCommand};
use std::alloc::{AllocError, Global};
use text::Text;
use world::entry::Right;
use world::registry::{RegistryReply, StoreFault};

/// What a store answered to a registry command.
pub(crate) type Answer = Result<RegistryReply, StoreFault>;

/// A notice, or that memory ran out for it.
pub type Noted = Result<Notice, AllocError>;

/// A line that says what happened, with its end. In the place of a key stands its fingerprint.
#[derive(Drop)]
pub struct Notice {
    text: Text,
    ghost is: { spec.IsNotice text },
}

impl Notice {
    /// The line, with its end.
    pub fn as_str(&self) -> &str
        ensures { result.now ≡ self.now.text }
    {
        self.text.as_str()
    }

    /// Returns the notice of a line.
    fn of(line: String) -> Notice
        requires { spec.IsNotice (string_bytes line) }
        ensures { result.text ≡ string_bytes line }
    {
        Notice {
            text: Text::new(line),
        }
    }
}

/// Says that the store of a file was opened, and how many versions it has, or why they can't be counted. Fails only if
/// memory runs out.
pub fn opened(
    alloc: Global,
    file: &str,
    versions: Result<u64, StoreFault>,
) -> Result<Notice, AllocError>
    ensures { IfOk result (λ notice. notice.text ≡ spec.line_of (spec.opened file.now versions)) }
{
    match versions {
        Ok(number) => opened_with(alloc, file, number),
        Err(fault) => uncounted(alloc, file, fault),
    }
}

/// Says that the store of a file was opened, and how many versions it has. Fails only if memory runs out.
fn opened_with(alloc: Global, file: &str, versions: u64) -> Result<Notice, AllocError>
    ensures { IfOk result (λ notice. notice.text ≡ spec.line_of (Opened file.now versions)) }
{
    let line = format!(in alloc; "opened: {}: {} versions\n", plain(file), versions)?;
    Ok(Notice::of(line))
}

/// Says that the store of a file was opened, and by which fault its versions can't be counted. Fails only if memory
/// runs out.
fn uncounted(alloc: Global, file: &str, fault: StoreFault) -> Result<Notice, AllocError>
    ensures { IfOk result (λ notice. notice.text ≡ spec.line_of (Uncounted file.now fault)) }
{
    let line = outcome_line(alloc, "opened: ", plain(file), Outcome::Failed(fault))?;
    Ok(Notice::of(line))
}

/// Says that the store of a file is no longer served. Fails only if memory runs out.
pub fn ended(alloc: Global, file: &str) -> Result<Notice, AllocError>
    ensures { IfOk result (λ notice. notice.text ≡ spec.line_of (Ended file.now)) }
{
    let line = format!(in alloc; "ended: {}\n", plain(file))?;
    Ok(Notice::of(line))
}

/// Says what came of a registry command that was carried out. It names only shelves that the store then has, as far as
/// its reply says. Fails only if memory runs out.
pub(crate) fn ordered(
    alloc: Global,
    command: &RegistryCommand,
    told: Answer,
) -> Result<Notice, AllocError>
    ensures { IfOk result (λ notice. notice.text ≡ spec.line_of (Ordered command.now told)) }
{
    let words = shown_words(alloc, command, told)?;
    let line = outcome_line(alloc, "order: ", words.as_str(), outcome_of(told))?;
    Ok(Notice::of(line))
}

/// Says what came of a copy. Fails only if memory runs out.
pub(crate) fn copied(
    alloc: Global,
    path: &str,
    told: Result<(), CopyRefusal>,
) -> Result<Notice, AllocError>
    ensures { IfOk result (λ notice. notice.text ≡ spec.line_of (Copied path.now told)) }
{
    let words = two(alloc, "copy ", plain(path))?;
    let line = outcome_line(alloc, "order: ", words.as_str(), outcome_of_copy(told))?;
    Ok(Notice::of(line))
}

/// Says what came of the catalog of a key, with its fingerprint in its place. Fails only if memory runs out.
pub(crate) fn catalogued(
    alloc: Global,
    key: &str,
    told: Result<(), CatalogRefusal>,
) -> Result<Notice, AllocError>
    ensures { IfOk result (λ notice. notice.text ≡ spec.line_of (Catalogued key.now told)) }
{
    let named = fingerprint(alloc, key)?;
    let words = two(alloc, "catalog ", named.as_str())?;
    let line = outcome_line(alloc, "order: ", words.as_str(), outcome_of_catalog(told))?;
    Ok(Notice::of(line))
}

/// Says what an operator was told whose order did nothing. Fails only if memory runs out.
pub(crate) fn answered(alloc: Global, told: Outcome) -> Result<Notice, AllocError>
    ensures { IfOk result (λ notice. notice.text ≡ spec.line_of (Answered told)) }
{
    let line = two(alloc, "order: ", told.line())?;
    Ok(Notice::of(line))
}

/// Says whether all of the room on the disk that is kept for orders is there. Fails only if memory runs out.
pub fn reserved(alloc: Global, has_room: bool) -> Result<Notice, AllocError>
    ensures { IfOk result (λ notice. notice.text ≡ spec.line_of (Reserved (spec.room_told has_room))) }
{
    let line = two(alloc, "reserve: ", room_told(has_room).line())?;
    Ok(Notice::of(line))
}

/// Returns the outcome of keeping room.
fn room_told(has_room: bool) -> Outcome
    ensures { result ≡ spec.room_told has_room }
{
    if has_room {
        Outcome::RegistryReply(RegistryReply::Done)
    } else {
        Outcome::Failed(StoreFault::Device)
    }
}

/// Says which fault a store met, and at what. Fails only if memory runs out.
pub(crate) fn met(
    alloc: Global,
    errand: &StoreCall,
    fault: StoreFault,
) -> Result<Notice, AllocError>
    ensures { IfOk result (λ notice. notice.text ≡ spec.line_of (Met errand.now fault)) }
{
    let words = errand.words(alloc)?;
    let line = outcome_line(alloc, "fault: ", words.as_str(), Outcome::Failed(fault))?;
    Ok(Notice::of(line))
}

/// Returns a line of a word, a text and an outcome. Fails only if memory runs out.
fn outcome_line(alloc: Global, kind: &str, text: &str, told: Outcome) -> Result<String, AllocError>
    ensures { IfOk result (λ line. string_bytes line ≡ spec.outcome_line kind.now text.now told) }
{
    let mut line = String::from_str(alloc, kind)?;
    line.push_str(text)?;
    line.push_str(": ")?;
    line.push_str(told.line())?;
    Ok(line)
}

/// Returns the words of a registry command that got an answer: in the place of a key its fingerprint, and `UNTOLD` in
/// that of a name that the store may not have. Fails only if memory runs out.
fn shown_words(alloc: Global, command: &RegistryCommand, told: Answer) -> Result<String, AllocError>
    ensures { IfOk result (λ words. string_bytes words ≡ spec.shown_words command.now told) }
{
    let has = has_shelf(told);
    match command {
        RegistryCommand::TeamAdd { name, group } => team_words(alloc, name, *group, told),
        RegistryCommand::GroupAdd { name } => two(alloc, "group-add ", name_if(has, name)),
        RegistryCommand::KeyAdd { shelf, key, right } => {
            key_words(alloc, name_if(has, shelf), key, *right)
        }
        RegistryCommand::KeyRevoke { key } => {
            let named = fingerprint(alloc, key)?;
            two(alloc, "key-revoke ", named.as_str())
        }
        RegistryCommand::KeysRevoke { shelf } => two(alloc, "keys-revoke ", name_if(has, shelf)),
    }
}

/// Returns the words of a team that was added, or was not. Fails only if memory runs out.
fn team_words(
    alloc: Global,
    name: &str,
    group: Option<&str>,
    told: Answer,
) -> Result<String, AllocError>
    ensures { IfOk result (λ words. string_bytes words ≡ codes "team-add "
        ++ (spec.name_if (spec.has_shelf told) name.now ++ spec.behind_team told (option_copied group.entry))) }
{
    let mut words = two(alloc, "team-add ", name_if(has_shelf(told), name))?;
    if let Some(group) = group {
        words.push_str(" ")?;
        words.push_str(name_if(has_group(told), group))?;
    }
    Ok(words)
}

/// Returns the words that add a key to a shelf, with its fingerprint in its place. Fails only if memory runs out.
fn key_words(alloc: Global, shelf: &str, key: &str, right: Right) -> Result<String, AllocError>
    ensures { IfOk result (λ words. string_bytes words
        ≡ codes "key-add " ++ (shelf.now ++ (spec.right_words right ++ keys.fingerprint key.now))) }
{
    let named = fingerprint(alloc, key)?;
    let mut words = two(alloc, "key-add ", shelf)?;
    words.push_str(right_words(right))?;
    words.push_str(named.as_str())?;
    Ok(words)
}

/// Returns what stands between a shelf and a key.
fn right_words(right: Right) -> &'static str
    ensures { result.now ≡ spec.right_words right }
{
    match right {
        Right::Reads => " read-only ",
        Right::Publishes => " ",
    }
}

/// Returns a name that the store has, and otherwise `UNTOLD`: it may be a key that somebody typed in its place.
fn name_if(has: bool, name: &str) -> &str
    ensures { result.now ≡ spec.name_if has name.now }
{
    if has { plain(name) } else { UNTOLD }
}

/// Whether the answer to a command says that the store has the shelf that it names.
fn has_shelf(told: Answer) -> bool
    ensures { result ≡ spec.has_shelf told }
{
    matches!(told, Ok(RegistryReply::Done | RegistryReply::Taken))
}

/// Whether it says that the store has the group of the team.
fn has_group(told: Answer) -> bool
    ensures { result ≡ spec.has_group told }
{
    matches!(told, Ok(RegistryReply::Done))
}
