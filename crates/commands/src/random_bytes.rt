//! Random bytes, and what gives them.
ghost use Rattle.std.specs.Prelude.{◌≡◌};
ghost use Rattle.histories.specs.Counted.{times};
ghost use Rattle.commands.specs.RandomBytes.{no_draws};

use crate::ledger::Ledger;
use histories::Count;
use std::io;
use std::random::RandomSource;
use std::rt::HostRuntime;

/// How many random bytes are drawn at once. Practically always, enough of them give a letter of a key.
pub const RANDOM_BYTES: usize = 64;

/// A source of random bytes, which records what it gave.
pub trait RandomBytes {
    ghost use Rattle.commands.specs.RandomBytes.{Draws, Drawn};

    /// What was drawn from it so far, and how often it failed.
    ghost drawn: { Self → Drawn };

    /// Returns some bytes that nobody can guess. Fails if there are none.
    fn draw(&mut self) -> io::Result<[u8; RANDOM_BYTES]>
        ensures { Draws (drawn self.old) (drawn self.new) result };
}

/// The randomness of the system.
#[derive(Drop)]
pub struct SystemRandomBytes<'a> {
    rt: &'a HostRuntime,
    given: Ledger,
    failed: Count,
}

impl<'a> SystemRandomBytes<'a> {
    /// Returns the randomness of the system, of which nothing was drawn so far.
    pub fn new(rt: &'a HostRuntime) -> SystemRandomBytes<'a>
        ensures { ⟦<SystemRandomBytes<'a> as RandomBytes>⟧.drawn result ≡ no_draws }
    {
        SystemRandomBytes {
            rt,
            given: Ledger::new(),
            failed: Count::new(),
        }
    }
}

impl<'a> RandomBytes for SystemRandomBytes<'a> {
    ghost drawn = { λ r. record { given = r.given.entries; failed = times r.failed } };

    fn draw(&mut self) -> io::Result<[u8; RANDOM_BYTES]> {
        let mut bytes = [0; RANDOM_BYTES];
        match self.rt.fill_bytes(&mut bytes) {
            Ok(()) => {
                self.given.note(&bytes);
                Ok(bytes)
            }
            Err(e) => {
                self.failed.one_more();
                Err(e)
            }
        }
    }
}
