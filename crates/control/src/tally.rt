//! What was answered since a server began.
ghost use Rattle.std.specs.Prelude.{◌≡◌, [], string_bytes, IfOk};
ghost use Rattle.control.specs.Health as spec;
ghost use Rattle.control.specs.Health.{AreBelow, counts_text, tally_of, with_one};

use engine::Io;
use modver::TimeText;
use std::alloc::{AllocError, Global};

/// How the connections of peers were answered since a server began.
#[derive(Clone, Copy, Drop)]
pub struct Tally {
    /// When the server began.
    pub since: TimeText,
    /// The connections that were taken.
    pub connections: u64,
    /// Those with a status from 200 to 299.
    pub succeeded: u64,
    /// Those with a status from 400 to 499.
    pub refused: u64,
    /// Those with a status from 500 to 599.
    pub failed: u64,
    /// Those on which no status was written whole: the peer sent nothing, or no whole request, or did not take the
    /// reply.
    pub unanswered: u64,
}

impl Tally {
    /// The tally of a server that begins.
    pub(crate) fn new(since: TimeText) -> Tally
        ensures { result ≡ tally_of since [] }
    {
        Tally {
            since,
            connections: 0,
            succeeded: 0,
            refused: 0,
            failed: 0,
            unanswered: 0,
        }
    }

    /// Counts a connection by what became of it.
    pub(crate) fn count(&mut self, answered: Result<Option<u16>, Io>)
        requires { AreBelow 4_294_967_295 self.old }
        ensures { self.new ≡ with_one self.old answered }
    {
        self.connections += 1;
        self.succeeded += one_if(is_of_class(2, answered));
        self.refused += one_if(is_of_class(4, answered));
        self.failed += one_if(is_of_class(5, answered));
        self.unanswered += one_if(is_unanswered(answered));
    }

    /// The counts as text. It fails only if memory runs out.
    pub(crate) fn counts(&self, alloc: Global) -> Result<String, AllocError>
        ensures { IfOk result (λ text. string_bytes text ≡ counts_text self.now) }
    {
        let text = format!(in alloc;
            "connections={} 2xx={} 4xx={} 5xx={} unanswered={}",
            self.connections, self.succeeded, self.refused, self.failed, self.unanswered,
        )?;
        Ok(text)
    }
}

fn one_if(holds: bool) -> u64
    ensures { result ≡ spec.one_if holds }
{
    if holds { 1 } else { 0 }
}

/// Whether the status of a connection begins with this digit.
fn is_of_class(class: u16, answered: Result<Option<u16>, Io>) -> bool
    ensures { result ≡ spec.is_of_class class answered }
{
    match answered {
        Ok(Some(status)) => status / 100 == class,
        Ok(None) => false,
        Err(_) => false,
    }
}

/// Whether no status was written whole.
fn is_unanswered(answered: Result<Option<u16>, Io>) -> bool
    ensures { result ≡ spec.is_unanswered answered }
{
    match answered {
        Ok(Some(_)) => false,
        Ok(None) => true,
        Err(_) => true,
    }
}
