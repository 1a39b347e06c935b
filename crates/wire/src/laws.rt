//! Laws of messages, streams and targets, over the definitions alone. The functions do nothing when they run: their
//! contracts are the laws.
ghost use Rattle.std.specs.Prelude.{◌≡◌, ℕ, List};
ghost use Rattle.wire.specs.Target.{Asks, IsTextThroughout, ReadsTarget, target_of};
ghost use Rattle.wire.specs.declared.resource.Target.{Target};

pub use framing::laws::{
    a_message_may_be_taken_out, a_stream_is_made_of_messages, messages_make_a_stream,
    no_message_begins_another, one_stream,
};

/// The computed reading of a message is a reading that the rules give the message.
pub fn a_target_is_read_as_it_is()
    ensures { (method text : List ℕ) → ReadsTarget method text (target_of method text) }
{}

/// A message has at most one reading.
pub fn a_target_has_one_reading()
    ensures { (method text : List ℕ) (a b : Target) → ReadsTarget method text a → ReadsTarget method text b → a ≡ b }
{}

/// A target that can be read is text, and decodes to text: all others are unreadable.
pub fn a_readable_target_is_text()
    ensures { (method text : List ℕ) (asked : Target) → Asks method text asked → IsTextThroughout text }
{}
