//! An action on the store of a file: the store is opened, acted on, and closed as the action left it.
//!
//! This is code over [`store_files::files::StoreFiles`] and [`host::ActionHost`], and has no handle of the system. So
//! the history of the files has all that it did to them.
#![tactic(auto)]

ghost use Rattle.std.specs.Prelude.{◌≡◌};
ghost use Rattle.file_action.specs.Cause.{caused};
ghost use Rattle.file_action.specs.OnFile as spec;
ghost use Rattle.file_action.specs.OnFile.{Inits, ActsOnFile, FlushesAll};

pub mod host;
pub mod refusal;

use crate::host::ActionHost;
use crate::refusal::new_store_refusal;
use commands::action::Action;
use commands::refusal::CommandRefusal;
use histories::{Hear, Tell};
use store_files::files::{StoreFiles, Use};

/// Makes a store with the shelf `common` alone, and returns true. It first looks whether the file has bytes: if so, it
/// fails with `NotEmpty` and opens nothing, and otherwise as `on_file` does. If the file can't be read, opening the
/// store fails with the reason.
pub fn init<S, C, N, H, F, I, W>(
    host: &mut H,
    files: &mut F,
    outside: &mut N,
    name: &str,
    input: &mut I,
    output: &mut W,
) -> Result<bool, CommandRefusal>
where
    H: ActionHost<S, N>,
    F: StoreFiles<S, C>,
    I: Hear,
    W: Tell,
    ensures inits { Inits H.acts
        (record { begins = F.begins; left = F.left; before = F.history files.old; after = F.history files.new })
        name.now outside.old outside.new (I.account input.old) (I.account input.new)
        (W.contents output.old) (W.contents output.new)
        result }
    // What was printed is flushed.
    ensures flushed { FlushesAll (W.writes output.old) (W.writes output.new) result }
    // If it fails with `Io`, the store was opened and `Action::Open` did, for this reason.
    ensures cause { Inits (caused H.causes
        (record { reads = I.reads input.old; writes = W.writes output.old })
        (record { reads = I.reads input.new; writes = W.writes output.new }))
        (record { begins = F.begins; left = F.left; before = F.history files.old; after = F.history files.new })
        name.now outside.old outside.new (I.account input.old) (I.account input.new)
        (W.contents output.old) (W.contents output.new)
        result }
{
    if files.holds_bytes(name) {
        return Err(CommandRefusal::NotEmpty);
    }
    match on_file(host, files, outside, name, &Action::Open, input, output) {
        Ok(done) => Ok(done),
        Err(refusal) => Err(new_store_refusal(refusal)),
    }
}

/// Returns what an action opens its store for. `Use::Reading` if it leaves a store that has no key as it is.
fn use_of(action: &Action) -> Use
    ensures { result ≡ spec.use_of action.now }
{
    match action {
        Action::Inventory { .. }
        | Action::Catalog { .. }
        | Action::Requires { .. }
        | Action::List { .. }
        | Action::Answer => Use::Reading,
        _ => Use::Writing,
    }
}

/// Opens the store of a file, does an action on it, closes it in the state that the action left it in, and returns
/// whether the action was accepted. If there is no file and the action only reads, none is left. If the store can't be
/// opened, it fails with that refusal, reads and writes nothing, and does nothing `outside`; otherwise it fails as the
/// action does.
pub fn on_file<S, C, N, H, F, I, W>(
    host: &mut H,
    files: &mut F,
    outside: &mut N,
    name: &str,
    action: &Action,
    input: &mut I,
    output: &mut W,
) -> Result<bool, CommandRefusal>
where
    H: ActionHost<S, N>,
    F: StoreFiles<S, C>,
    I: Hear,
    W: Tell,
    ensures acts { ActsOnFile H.acts
        (record { begins = F.begins; left = F.left; before = F.history files.old; after = F.history files.new })
        name.now outside.old outside.new (I.account input.old) (I.account input.new)
        (W.contents output.old) (W.contents output.new)
        action.now result }
    // What was printed is flushed.
    ensures flushed { FlushesAll (W.writes output.old) (W.writes output.new) result }
    // If it fails with `Io`, the store was opened and the action did, for this reason.
    ensures cause { ActsOnFile (caused H.causes
        (record { reads = I.reads input.old; writes = W.writes output.old })
        (record { reads = I.reads input.new; writes = W.writes output.new }))
        (record { begins = F.begins; left = F.left; before = F.history files.old; after = F.history files.new })
        name.now outside.old outside.new (I.account input.old) (I.account input.new)
        (W.contents output.old) (W.contents output.new)
        action.now result }
{
    let mut file = files.open(name, use_of(action))?;
    let told = host.act(name, &mut file.store, outside, action, input, output);
    files.close(file);
    told
}
