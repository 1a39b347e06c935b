//! Which order a line has.
ghost use Rattle.std.specs.Prelude.{MatchOption};
ghost use Rattle.orders.specs.Order as spec;

use crate::line::text_of_line;
use crate::order::Order;
use crate::words::Words;

/// Returns the order whose line the bytes are, with its end, or None if they are that of none. It does not check the
/// rules of names and keys: the store does, when the order is handled.
pub fn read_order(got: &[u8]) -> Option<Order<'_>>
    ensures { MatchOption result (spec.IsNoOrder got.now) (λ order. spec.IsLineOf got.now (spec.ordered order)) }
{
    let text = text_of_line(got)?;
    let words = Words::of(text)?;
    let order = Order::of_words(words)?;
    if text.len() > order.longest() {
        return None;
    }
    Some(order)
}
