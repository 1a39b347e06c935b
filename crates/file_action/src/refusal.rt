//! Why a command that makes a store in a file is refused.
ghost use Rattle.std.specs.Prelude.{◌≡◌};
ghost use Rattle.file_action.specs.Refusal as spec;

use commands::refusal::CommandRefusal;

/// Returns the refusal of a file that a new store is made in: `NotEmpty` in place of `BadSchema`, because other tables
/// are bytes too.
pub fn new_store_refusal(refusal: CommandRefusal) -> CommandRefusal
    ensures { result ≡ spec.new_store_refusal refusal }
{
    match refusal {
        CommandRefusal::BadSchema => CommandRefusal::NotEmpty,
        other => other,
    }
}
