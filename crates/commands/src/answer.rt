//! `answer`: the requests on the input, answered on the output.
ghost use Rattle.std.specs.Prelude.{◌≡◌, [], Err, OnErr, OnOk};
ghost use Rattle.engine.specs.Served.{ServesAllHeard};
ghost use Rattle.commands.specs.Opening.{AnswersAll, Breaks};

use crate::refusal::CommandRefusal;
use engine::answer_all;
use histories::{Hear, Tell};
use std::alloc::Global;
use world::shelves::Shelves;

/// Answers the requests of the input from a store. `Io` if the input or the output fails.
pub fn answer_input<S: Shelves, I: Hear, O: Tell>(
    alloc: Global,
    shelves: &mut S,
    input: &mut I,
    output: &mut O,
) -> Result<(), CommandRefusal>
    ensures answers { AnswersAll (S.shown shelves.old) (S.shown shelves.new)
        (I.account input.old) (I.account input.new) (O.contents output.old) (O.contents output.new) result }
    // It fails only if a call of the input or of the output failed, or if no read is left.
    ensures cause { OnErr result (Breaks (λ failure. ServesAllHeard (S.shown shelves.old) (S.shown shelves.new)
        (I.account input.old) (I.account input.new) (O.contents output.old) (O.contents output.new) (Err failure))
        (I.reads input.old) (I.reads input.new) (O.writes output.old) (O.writes output.new)) }
    // What was written is flushed.
    ensures flushed { OnOk result ((O.writes output.new).unflushed ≡ []) }
{
    match answer_all(alloc, input, output, shelves) {
        Ok(()) => Ok(()),
        Err(_) => Err(CommandRefusal::Io),
    }
}
