//! Facts about the definitions. Each function does nothing; its contract states the fact.

ghost use Rattle.resp_net.specs.Ways.{VisitsAddUp};

/// Successive visits of a [`Way`](crate::way::Way) forward what one visit of all their bytes would
/// forward: the bytes written, followed by the bytes that wait, are the bytes read, in order.
pub fn visits_add_up()
    ensures { VisitsAddUp }
{}
