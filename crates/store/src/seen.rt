//! What is seen of a version, with its zip and without its shelf.

ghost use Rattle.std.specs.Prelude.{◌≡◌, option_map};
ghost use Rattle.statements.specs.Reading.{entry_with};

use outline::seen::SeenHeading;
use world::bytes::Bytes;
use world::entry::{Entry, Heading, Seen};

/// Returns what is seen of a version without the shelf that its entry stands on.
pub(crate) fn heading_in(seen: Option<SeenHeading>) -> Option<Heading>
    ensures { result ≡ option_map (λ it. it.heading) seen }
{
    match seen {
        Some(seen) => Some(seen.heading),
        None => None,
    }
}

/// Returns what is seen of a version, with its zip.
pub(crate) fn with_zip(seen: SeenHeading, zip: Bytes) -> Seen
    ensures { result ≡ record { shelf = seen.shelf; entry = entry_with seen.heading zip } }
{
    Seen {
        shelf: seen.shelf,
        entry: Entry {
            gomod: seen.heading.gomod,
            zip,
            time: seen.heading.time,
        },
    }
}
