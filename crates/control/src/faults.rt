//! The faults that were told in the last minute.
ghost use Rattle.std.specs.Prelude.{◌≡◌, [], bytes_eq};
ghost use Rattle.std.specs.List.{list_any};
ghost use Rattle.control.specs.Faults as spec;

use std::alloc::Global;
use std::time::Instant;
use text::Text;

/// The seconds in which a fault is not told again.
const PAUSE: u64 = 60;

/// The most faults that are told in such a time, so that a disk that fails for good fills no log.
const MOST: usize = 20;

/// A fault that was told.
#[derive(Drop)]
pub(crate) struct Fault {
    line: Text,
    /// When it was told, if the clock could be read then.
    at: Option<Instant>,
}

/// The faults that were told in the last minute.
#[derive(Drop)]
pub(crate) struct RecentFaults {
    told: Vec<Fault>,
}

impl RecentFaults {
    /// Returns the faults of a server that begins: none.
    pub(crate) fn new(alloc: Global) -> RecentFaults
        ensures { result.told.items ≡ [] }
    {
        RecentFaults {
            told: Vec::new(alloc),
        }
    }

    /// Returns whether the line of a fault is to be written at this reading of the clock, and remembers it: not if it
    /// was in the last minute, or if `MOST` lines were. While the clock can't be read, no minute ends. If memory runs
    /// out, it is not remembered.
    pub(crate) fn admits(&mut self, alloc: Global, now: Option<Instant>, line: &str) -> bool
        ensures { spec.Admits now self.old self.new line.now result }
    {
        self.forget(now);
        if self.told.len() >= MOST {
            return false;
        }
        if has(&self.told, line) {
            return false;
        }
        self.remember(alloc, line, now);
        true
    }

    /// Forgets the faults that were told longer ago than `PAUSE`, and those that were told when the clock could not be
    /// read.
    fn forget(&mut self, now: Option<Instant>)
        ensures { self.new.told.items ≡ spec.remembered now self.old.told.items }
    {
        let Some(now) = now else {
            return;
        };
        self.told.retain(|fault| is_recent(fault.at, now));
    }

    /// Remembers a fault that is told now, if memory does not run out.
    fn remember(&mut self, alloc: Global, line: &str, now: Option<Instant>)
        ensures { spec.Remembers self.old.told.items self.new.told.items line.now now }
    {
        if let Ok(line) = Text::copy_of(alloc, line) {
            let _ = self.told.push(Fault { line, at: now });
        }
    }
}

/// Whether what was told then was told in the last minute.
fn is_recent(at: Option<Instant>, now: Instant) -> bool
    ensures { result ≡ spec.is_recent now at }
{
    match at {
        Some(at) => now.duration_since(at).as_secs() < PAUSE,
        None => false,
    }
}

/// Whether one of the faults has this line.
fn has(told: &[Fault], line: &str) -> bool
    ensures { result ≡ list_any (λ fault. bytes_eq fault.line line.now) told.now }
{
    told.iter().any(|fault| fault.line.as_str() == line)
}
