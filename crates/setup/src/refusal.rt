//! Why tables cannot be read or made.

ghost use Rattle.std.specs.Prelude.{◌≡◌, ◌≢◌};
ghost use Rattle.store_files.specs.Refusal.{IsOfOpening};

use sqlite::{Error, ErrorCode};
use store_files::refusal::StoreRefusal;

/// Returns the refusal for tables that cannot be read or made: `Memory` if memory ran out, and otherwise `Device`.
pub fn open_refusal(error: Error) -> StoreRefusal
    ensures named { result ≢ StoreRefusal.BadSchema }
    ensures opening { IsOfOpening result }
    ensures memory { error ≡ Error.SqliteFailure ErrorCode.OutOfMemory → result ≡ StoreRefusal.Memory }
{
    match error {
        Error::SqliteFailure(ErrorCode::OutOfMemory) => StoreRefusal::Memory,
        _ => StoreRefusal::Device,
    }
}
