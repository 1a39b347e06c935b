//! What an action on the store of a file asks of the system.
use commands::action::Action;
use commands::refusal::CommandRefusal;
use histories::{Hear, Tell};

/// The system, as far as an action on a file needs it. The stores of its files are `S`, and `N` is what it reaches
/// outside of them, such as entrances where callers come in, and files that are read.
pub trait ActionHost<S, N> {
    ghost use Rattle.file_action.specs.Cause.{Causes};
    ghost use Rattle.file_action.specs.OnFile.{Deeds, FlushesAll};

    /// What doing an action does.
    ghost acts: { Deeds S N };

    /// Why an action ended with `Io`, and what else is known of how it ended.
    ghost causes: { Causes S N };

    /// Does an action on the open store of the file of this name, and returns whether it was accepted. Fails as the
    /// action does.
    fn act<I: Hear, O: Tell>(
        &mut self,
        name: &str,
        shelves: &mut S,
        outside: &mut N,
        action: &Action,
        input: &mut I,
        output: &mut O,
    ) -> Result<bool, CommandRefusal>
        ensures does { acts name.now
            (record {
              store = shelves.old;
              outside = outside.old;
              came = I.account input.old;
              written = O.contents output.old;
            })
            (record {
              store = shelves.new;
              outside = outside.new;
              came = I.account input.new;
              written = O.contents output.new;
            })
            result action.now }
        // What was printed is flushed.
        ensures flushed { FlushesAll (O.writes output.old) (O.writes output.new) result }
        // If it fails with `Io`, this is why.
        ensures cause { causes
            (record {
              store = shelves.old;
              outside = outside.old;
              came = I.account input.old;
              written = O.contents output.old;
            })
            (record {
              store = shelves.new;
              outside = outside.new;
              came = I.account input.new;
              written = O.contents output.new;
            })
            (record { reads = I.reads input.old; writes = O.writes output.old })
            (record { reads = I.reads input.new; writes = O.writes output.new })
            result action.now };
}
