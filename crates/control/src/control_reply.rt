//! What is written to an operator.
ghost use Rattle.std.specs.Prelude.{◌≡◌};
ghost use Rattle.control.specs.ControlReply.{bytes_told};

use orders::Outcome;
use text::Text;
use world::bytes::Bytes;

/// What is written to an operator.
#[derive(Drop)]
pub enum ControlReply {
    /// What came of an order.
    Outcome(Outcome),
    /// The lines of the health that a ping asks for, with their ends.
    Health(Text),
    /// A list that was asked for, with its last line.
    List(Bytes),
}

impl ControlReply {
    /// The line, with its end, or the lines.
    pub fn bytes(&self) -> &[u8]
        ensures { result.now ≡ bytes_told self.now }
    {
        match self {
            ControlReply::Outcome(outcome) => outcome.line().as_bytes(),
            ControlReply::Health(line) => line.as_str().as_bytes(),
            ControlReply::List(lines) => lines.as_slice(),
        }
    }
}
