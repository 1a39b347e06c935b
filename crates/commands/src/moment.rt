//! The clock of the system, as a calendar.
ghost use Rattle.std.specs.Prelude.{◌≡◌, []};

use control::WallClock;
use jiff::Timestamp;
use modver::{TimeText, read_time};
use std::rt::HostRuntime;
use store_files::record::Record;

/// The clock of the system.
#[derive(Drop)]
pub struct SystemWallClock<'a> {
    rt: &'a HostRuntime,
    noted: Record<Option<TimeText>>,
}

impl<'a> SystemWallClock<'a> {
    /// Returns the clock of the system, which was not read so far.
    pub fn new(rt: &'a HostRuntime) -> SystemWallClock<'a>
        ensures { ⟦<SystemWallClock<'a> as WallClock>⟧.shown result ≡ [] }
    {
        SystemWallClock {
            rt,
            noted: Record::new(),
        }
    }
}

impl<'a> WallClock for SystemWallClock<'a> {
    ghost use Rattle.std.specs.Prelude.{map};

    ghost shown = { λ c. map (λ noted. noted.1) c.noted.deeds };

    fn time_now(&mut self) -> Option<TimeText> {
        let time = system_time(self.rt);
        self.noted.note(b"", &time);
        time
    }
}

/// Returns the system clock's time in UTC, to the second. None if the clock can't be read, its year does not have four
/// digits, or memory runs out.
fn system_time(rt: &HostRuntime) -> Option<TimeText> {
    let Ok(now) = Timestamp::now(rt) else {
        return None;
    };
    let Ok(second) = Timestamp::from_second(now.as_second()) else {
        return None;
    };
    let Ok(text) = format!(in rt.alloc(); "{second}") else {
        return None;
    };
    match read_time(text.as_str()) {
        Ok(time) => Some(time),
        Err(_) => None,
    }
}
