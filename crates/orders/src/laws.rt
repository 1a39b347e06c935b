//! What lines mean.
ghost use Rattle.orders.specs.Laws.{OneOrderALine, OneOutcomeALine, RoundTrip};

/// A line orders one thing: two orders with the same line are equal, wherever their texts lie.
pub fn line_orders_one_thing()
    ensures { OneOrderALine }
{}

/// [`read_order`](crate::read_order) reads an order from the line that [`Order::write`](crate::Order::write) made of
/// it.
pub fn written_is_read()
    ensures { RoundTrip }
{}

/// Each outcome has a line of its own.
pub fn outcome_has_a_line_of_its_own()
    ensures { OneOutcomeALine }
{}
