//! Writing what happened to a store that is served.
ghost use Rattle.std.specs.Prelude.{◌≡◌, [], ◌∷◌, None};
ghost use Rattle.socket.specs.Connections.{both};
ghost use Rattle.control.specs.Noted as spec;
ghost use Rattle.control.specs.Noted.{AreOf, AreUnheld};
ghost use Rattle.control.specs.Notices.{IsNotice, WritesLines, WritesNotices};

use crate::faults::RecentFaults;
use crate::monitored_store::{Loan, MonitoredStore};
use crate::notice::Noted;
use engine::write::write_bytes;
use histories::{ClockFace, Tell};
use std::alloc::Global;
use world::shelves::Shelves;

/// The line that says that memory ran out for another, or for the counts of a shelf.
const LOST: &str = "lost: memory\n";

/// Writes a notice and flushes it, or `LOST` if memory ran out for it. A failed write leaves out what follows of the
/// line.
pub fn tell<E: Tell>(notice: Noted, errors: &mut E)
    ensures notes { WritesNotices (E.contents errors.old) (E.contents errors.new) }
    // Its line is written and flushed, unless a call to write or to flush failed.
    ensures tells { WritesLines (λ lines. lines ≡ spec.noted_line notice ∷ [])
        (both E.contents E.writes errors.old) (both E.contents E.writes errors.new) }
{
    write(noted_line(&notice), errors);
}

/// Writes what is noted, if something is.
pub(crate) fn tell_if<E: Tell>(noted: Option<Noted>, errors: &mut E)
    ensures notes { WritesNotices (E.contents errors.old) (E.contents errors.new) }
    ensures tells { WritesLines (AreOf noted)
        (both E.contents E.writes errors.old) (both E.contents E.writes errors.new) }
{
    let Some(noted) = noted else {
        return;
    };
    tell(noted, errors);
}

/// Writes what a store noted, if it did, and the store forgets it. The same is written once a minute at most.
pub(crate) fn tell_next<C: ClockFace, N: Loan, S: Shelves, E: Tell>(
    alloc: Global,
    clock: &C,
    watched: &mut MonitoredStore<'_, N, S>,
    faults: &mut RecentFaults,
    errors: &mut E,
)
    ensures same { watched.new.inner ≡ watched.old.inner }
    ensures counts { watched.new.traffic ≡ watched.old.traffic }
    ensures held { watched.new.is_held ≡ watched.old.is_held }
    ensures forgets { watched.new.notice ≡ None }
    ensures notes { WritesNotices (E.contents errors.old) (E.contents errors.new) }
    ensures tells { WritesLines (AreUnheld faults.old faults.new watched.old.notice)
        (both E.contents E.writes errors.old) (both E.contents E.writes errors.new) }
{
    let Some(noted) = watched.take() else {
        return;
    };
    let now = clock.now().ok();
    if !faults.admits(alloc, now, noted_line(&noted)) {
        return;
    }
    tell(noted, errors);
}

/// Returns the line of a notice, or `LOST` if memory ran out for it.
fn noted_line(noted: &Noted) -> &str
    ensures value { result.now ≡ spec.noted_line noted.now }
    ensures notice { IsNotice result.now }
{
    match noted {
        Ok(notice) => notice.as_str(),
        Err(_) => LOST,
    }
}

/// Writes a line and flushes it. Errors are ignored.
fn write<E: Tell>(line: &str, errors: &mut E)
    requires { IsNotice line.now }
    ensures notes { WritesNotices (E.contents errors.old) (E.contents errors.new) }
    ensures tells { WritesLines (λ lines. lines ≡ line.now ∷ [])
        (both E.contents E.writes errors.old) (both E.contents E.writes errors.new) }
{
    let _ = write_bytes(errors, line.as_bytes());
    let _ = errors.settle();
}
