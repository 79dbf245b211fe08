//! What the order of the streams comes to, computed.

ghost use Rattle.test_passes.specs.Orders.{TakesTurns};

/// The items of four stretches come into this order.
pub fn take_turns()
    ensures { TakesTurns }
{}
