//! A list that only proofs read of what the system was asked.
ghost use Rattle.std.specs.Prelude.{◌≡◌, List, [], ◌++◌};
ghost use Rattle.std.specs.Borrow.{ftrue};
ghost use Rattle.histories.specs.declared.ask.Ask.{Ask};

use crate::ask::Ask;
use std::marker::{Model, PhantomData};

/// What the system was asked and what it refused, the last first. It takes no memory, and its methods do nothing at run
/// time.
#[derive(Drop)]
pub struct Asks {
    marker: PhantomData<u8>,
    pub ghost asks: { List Ask },
}

impl Model for Asks {
    ghost also_owns = { λ _. ftrue };
}

impl Asks {
    /// Returns the empty list.
    pub fn new() -> Asks
        ensures { result.asks ≡ [] }
    {
        Asks {
            marker: PhantomData,
        }
    }

    /// Notes that the system was asked this, or refused it, the last first.
    pub fn note(&mut self, _asks: &[Ask])
        ensures { self.new.asks ≡ _asks.now ++ self.old.asks }
    {}
}
