//! The walk over what a key sees: its paths, and the versions of each, with turns of others between two lines.
ghost use Rattle.std.specs.Prelude.{◌≡◌, [], true, List, Option, ℕ, IfOk, IsErrOf, MatchResult, OnOk, map};
ghost use Rattle.std.specs.FinSet as set;
ghost use Rattle.std.specs.Io.KnownBytes.{Keeps};
ghost use Rattle.gomod.specs.Module.{GoModule};
ghost use Rattle.world.specs.Store.{Reads};
ghost use Rattle.world.specs.World.{place_cmp};
ghost use Rattle.interleave.specs.Interleave.{IsAsItWas};
ghost use Rattle.catalog.specs.Catalog.{is_retracted_by, line_at, lines_by, lines_of_path, lines_of_text, lines_seen};
ghost use Rattle.catalog.specs.Meanwhile as spec;
ghost use Rattle.catalog.specs.Printing.{FailsBy, Puts};
ghost use Rattle.catalog.specs.Sight.{facts_in, facts_of};

use crate::between::CatalogEnd;
use crate::line::Marks;
use crate::path::{Account, account_of, add_version, marks};
use crate::print::PrintError;
use crate::turns::Turns;
use engine::write::write_bytes;
use histories::Tell;
use interleave::newcomers::Newcomers;
use keyring::Keyring;
use modpath::ModulePath;
use modver::Version;
use outline::outlines::Outlines;
use std::alloc::Global;
use world::bytes::Bytes;
use world::forms::path_of;
use world::registry::StoreFault;
use world::shelves::Shelves;

/// Prints the lines of a key as the store is at the call, and returns true: exactly one for each version that its shelf
/// sees then. A turn is taken before the first line of each path and after each line. What a turn publishes, adds or
/// takes away changes no line. Returns false if there is no such key. If it fails or is ended, a beginning of the lines
/// is printed.
pub(crate) fn print_lines<S: Outlines + Keyring, O: Tell, T: Turns<S, O>>(
    alloc: Global,
    shelves: &mut S,
    key: &str,
    output: &mut O,
    turns: &mut T,
) -> Result<bool, CatalogEnd>
    // The catalog is of the world that the store stood for at first.
    ensures prints { spec.PrintsLines T.halts (S.shown shelves.old) (S.shown shelves.new) key.now
        (O.contents output.old) (O.contents output.new) result }
    // The store was read and had turns.
    ensures went { T.went turns.old turns.new shelves.old shelves.new }
    ensures ended { IsErrOf result CatalogEnd.Ended → T.ended turns.new }
    ensures fails { spec.FailsOn (O.writes output.old) (O.writes output.new) result }
    // What was printed is flushed.
    ensures flushed { IfOk result (λ is. is ≡ true → (O.writes output.new).unflushed ≡ []) }
{
    let holder = match shelves.key(key) {
        Ok(Some(holder)) => holder,
        Ok(None) => return Ok(false),
        Err(fault) => return Err(unread(fault)),
    };
    match print_all(alloc, shelves, holder.shelf.as_str(), output, turns) {
        Ok(()) => finish(output),
        Err(why) => Err(why),
    }
}

/// Prints the lines of all versions that a shelf sees at the call.
fn print_all<S: Outlines + Keyring, O: Tell, T: Turns<S, O>>(
    alloc: Global,
    shelves: &mut S,
    shelf: &str,
    output: &mut O,
    turns: &mut T,
) -> Result<(), CatalogEnd>
    ensures prints { (news : set.FinSet place_cmp) × spec.PrintsOn (spec.there (S.shown shelves.old) shelf.now)
        (spec.past (S.shown shelves.new) news shelf.now) (O.contents output.old) (O.contents output.new) result
        (λ w. lines_seen w shelf.now) (spec.HaltsOrNone T.halts (λ w. lines_seen w shelf.now)) }
    ensures went { T.went turns.old turns.new shelves.old shelves.new }
    ensures ended { IsErrOf result CatalogEnd.Ended → T.ended turns.new }
    ensures fails { spec.FailsOn (O.writes output.old) (O.writes output.new) result }
{
    let paths = match shelves.paths(shelf) {
        Ok(paths) => paths,
        Err(fault) => return Err(unread(fault)),
    };
    let mut news = Newcomers::new(alloc);
    for text in paths.iter() {
        print_text(
            alloc,
            shelves,
            shelf,
            text.as_str(),
            output,
            &mut news,
            turns,
        )?;
    }
    Ok(())
}

/// Prints the lines of the path that a text is, or none if it is no path.
fn print_text<S: Outlines + Keyring, O: Tell, T: Turns<S, O>>(
    alloc: Global,
    shelves: &mut S,
    shelf: &str,
    text: &str,
    output: &mut O,
    news: &mut Newcomers,
    turns: &mut T,
) -> Result<(), CatalogEnd>
    ensures prints { spec.PrintsOn (spec.past (S.shown shelves.old) news.old shelf.now)
        (spec.past (S.shown shelves.new) news.new shelf.now) (O.contents output.old) (O.contents output.new) result
        (λ w. lines_of_text w shelf.now text.now)
        (spec.HaltsOrNone T.halts (λ w. lines_of_text w shelf.now text.now)) }
    ensures went { T.went turns.old turns.new shelves.old shelves.new }
    ensures ended { IsErrOf result CatalogEnd.Ended → T.ended turns.new }
    ensures fails { spec.FailsOn (O.writes output.old) (O.writes output.new) result }
{
    match path_of(alloc, text) {
        Ok(Some(path)) => print_path(alloc, shelves, shelf, &path, output, news, turns),
        Ok(None) => Ok(()),
        Err(_) => Err(CatalogEnd::PrintError(PrintError::Memory)),
    }
}

/// Prints the lines of a path.
fn print_path<S: Outlines + Keyring, O: Tell, T: Turns<S, O>>(
    alloc: Global,
    shelves: &mut S,
    shelf: &str,
    path: &ModulePath,
    output: &mut O,
    news: &mut Newcomers,
    turns: &mut T,
) -> Result<(), CatalogEnd>
    ensures prints { spec.PrintsOn (spec.past (S.shown shelves.old) news.old shelf.now)
        (spec.past (S.shown shelves.new) news.new shelf.now) (O.contents output.old) (O.contents output.new) result
        (λ w. lines_of_path w shelf.now path.now)
        (spec.HaltsOrNone T.halts (λ w. lines_of_path w shelf.now path.now)) }
    ensures went { T.went turns.old turns.new shelves.old shelves.new }
    ensures ended { IsErrOf result CatalogEnd.Ended → T.ended turns.new }
    ensures fails { spec.FailsOn (O.writes output.old) (O.writes output.new) result }
{
    match read_account(alloc, shelves, shelf, path, news) {
        Ok(account) => {
            let versions = account.versions.as_slice();
            print_account(
                alloc, shelves, shelf, path, versions, &account, output, news, turns,
            )
        }
        Err(fault) => Err(unread(fault)),
    }
}

/// Has a turn taken, and then prints the lines of the versions of a path.
fn print_account<S: Outlines + Keyring, O: Tell, T: Turns<S, O>>(
    alloc: Global,
    shelves: &mut S,
    shelf: &str,
    path: &ModulePath,
    versions: &[Version],
    account: &Account,
    output: &mut O,
    news: &mut Newcomers,
    turns: &mut T,
) -> Result<(), CatalogEnd>
    ensures prints { (m : Option GoModule) → account.now.retracted.items ≡ map (is_retracted_by m) versions.now
        → spec.PrintsOn (spec.past (S.shown shelves.old) news.old shelf.now)
        (spec.past (S.shown shelves.new) news.new shelf.now) (O.contents output.old) (O.contents output.new) result
        (λ w. lines_by w shelf.now path.now m account.now.latest versions.now)
        (spec.HaltsOrLacks T.halts shelf.now path.now versions.now) }
    ensures went { T.went turns.old turns.new shelves.old shelves.new }
    ensures ended { IsErrOf result CatalogEnd.Ended → T.ended turns.new }
    ensures fails { spec.FailsOn (O.writes output.old) (O.writes output.new) result }
{
    match turns.take(shelves, news) {
        Ok(()) => print_versions(
            alloc, shelves, shelf, path, versions, account, output, news, turns,
        ),
        Err(why) => Err(why),
    }
}

/// Prints the lines of the versions of a path.
fn print_versions<S: Outlines + Keyring, O: Tell, T: Turns<S, O>>(
    alloc: Global,
    shelves: &mut S,
    shelf: &str,
    path: &ModulePath,
    versions: &[Version],
    account: &Account,
    output: &mut O,
    news: &mut Newcomers,
    turns: &mut T,
) -> Result<(), CatalogEnd>
    ensures prints { (m : Option GoModule) → account.now.retracted.items ≡ map (is_retracted_by m) versions.now
        → spec.PrintsOn (spec.past (S.shown shelves.old) news.old shelf.now)
        (spec.past (S.shown shelves.new) news.new shelf.now) (O.contents output.old) (O.contents output.new) result
        (λ w. lines_by w shelf.now path.now m account.now.latest versions.now)
        (spec.HaltsOrLacks T.halts shelf.now path.now versions.now) }
    ensures went { T.went turns.old turns.new shelves.old shelves.new }
    ensures ended { IsErrOf result CatalogEnd.Ended → T.ended turns.new }
    ensures fails { spec.FailsOn (O.writes output.old) (O.writes output.new) result }
{
    let mut index = 0;
    for version in versions {
        let marks = marks(account, index, version);
        print_version(
            alloc, shelves, shelf, path, version, marks, output, news, turns,
        )?;
        index += 1;
    }
    Ok(())
}

/// Prints the line of a version, if the shelf saw it, and has a turn taken.
fn print_version<S: Outlines + Keyring, O: Tell, T: Turns<S, O>>(
    alloc: Global,
    shelves: &mut S,
    shelf: &str,
    path: &ModulePath,
    version: &Version,
    marks: Marks,
    output: &mut O,
    news: &mut Newcomers,
    turns: &mut T,
) -> Result<(), CatalogEnd>
    ensures prints { spec.PrintsOn (spec.past (S.shown shelves.old) news.old shelf.now)
        (spec.past (S.shown shelves.new) news.new shelf.now) (O.contents output.old) (O.contents output.new) result
        (λ w. line_at w shelf.now path.now version.now marks)
        (spec.HaltsOrUnseen T.halts shelf.now path.now version.now) }
    ensures went { T.went turns.old turns.new shelves.old shelves.new }
    ensures ended { IsErrOf result CatalogEnd.Ended → T.ended turns.new }
    ensures fails { spec.FailsOn (O.writes output.old) (O.writes output.new) result }
{
    match read_line(alloc, shelves, shelf, path, version, marks, news) {
        Ok(line) => print_line(shelves, line.as_slice(), output, news, turns),
        Err(fault) => Err(unread(fault)),
    }
}

/// Prints a text, begins the time of the next one, and has a turn taken.
fn print_line<S: Shelves, O: Tell, T: Turns<S, O>>(
    shelves: &mut S,
    line: &[u8],
    output: &mut O,
    news: &mut Newcomers,
    turns: &mut T,
) -> Result<(), CatalogEnd>
    ensures prints { (s : List ℕ) → spec.PrintsOn (spec.past (S.shown shelves.old) news.old s)
        (spec.past (S.shown shelves.new) news.new s) (O.contents output.old) (O.contents output.new) result
        (λ _. line.now) (λ _. T.halts) }
    ensures went { T.went turns.old turns.new shelves.old shelves.new }
    ensures ended { IsErrOf result CatalogEnd.Ended → T.ended turns.new }
    ensures fails { spec.FailsOn (O.writes output.old) (O.writes output.new) result }
{
    match put(output, line) {
        Ok(()) => {
            turns.restart(output);
            turns.take(shelves, news)
        }
        Err(why) => Err(CatalogEnd::PrintError(why)),
    }
}

/// Prints a text.
fn put<O: Tell>(output: &mut O, text: &[u8]) -> Result<(), PrintError>
    ensures puts { Puts (O.contents output.old) (O.contents output.new) text.now result }
    ensures fails { FailsBy (O.writes output.old) (O.writes output.new) result }
{
    match write_bytes(output, text) {
        Ok(()) => Ok(()),
        Err(_) => Err(PrintError::Output),
    }
}

/// Returns what a path said before the newcomers. Fails if the store meets a fault or memory runs out.
fn read_account<S: Outlines + Keyring>(
    alloc: Global,
    shelves: &mut S,
    shelf: &str,
    path: &ModulePath,
    news: &Newcomers,
) -> Result<Account, StoreFault>
    ensures reads { Reads (spec.past (S.shown shelves.old) news.now shelf.now)
        (spec.past (S.shown shelves.new) news.now shelf.now) (facts_in result)
        (λ w. facts_of w shelf.now path.now) }
    ensures only { IsAsItWas (S.shown shelves.old) (S.shown shelves.new) }
    ensures flags { IfOk result (λ account. account.retracted.items
        ≡ map (is_retracted_by account.ruling) account.versions) }
{
    account_of(alloc, news, shelves, shelf, path)
}

/// Returns the line of a version, or no text if the shelf saw nothing of it before the newcomers. Fails if the store
/// meets a fault or memory runs out.
fn read_line<S: Outlines + Keyring>(
    alloc: Global,
    shelves: &mut S,
    shelf: &str,
    path: &ModulePath,
    version: &Version,
    marks: Marks,
    news: &Newcomers,
) -> Result<Bytes, StoreFault>
    ensures reads { Reads (spec.past (S.shown shelves.old) news.now shelf.now)
        (spec.past (S.shown shelves.new) news.now shelf.now) result
        (λ w. line_at w shelf.now path.now version.now marks) }
    ensures only { IsAsItWas (S.shown shelves.old) (S.shown shelves.new) }
{
    let mut line = Vec::new(alloc);
    match add_version(alloc, news, shelves, shelf, path, version, marks, &mut line) {
        Ok(()) => Ok(Bytes::new(line)),
        Err(fault) => Err(fault),
    }
}

/// Flushes what was printed, and returns true.
fn finish<O: Tell>(output: &mut O) -> Result<bool, CatalogEnd>
    ensures bytes { Keeps (O.contents output.old) (O.contents output.new) }
    ensures fails { spec.FailsOn (O.writes output.old) (O.writes output.new) result }
    ensures which { MatchResult result (λ is. is ≡ true) (λ e. e ≡ CatalogEnd.PrintError PrintError.Output) }
    ensures flushed { OnOk result ((O.writes output.new).unflushed ≡ []) }
{
    match output.settle() {
        Ok(()) => Ok(true),
        Err(_) => Err(CatalogEnd::PrintError(PrintError::Output)),
    }
}

/// Returns the failure of a fault of the store.
pub(crate) fn unread(fault: StoreFault) -> CatalogEnd
    ensures { result ≡ spec.unread_on fault }
{
    match fault {
        StoreFault::Device => CatalogEnd::PrintError(PrintError::Device),
        StoreFault::Memory => CatalogEnd::PrintError(PrintError::Memory),
    }
}
