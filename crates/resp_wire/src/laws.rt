//! Laws of worlds. Each law is the contract of a function whose body calls other laws.

ghost use Rattle.resp_session.specs.WorldLaws.{TheOrderOnlyGrows};
ghost use Rattle.resp_wire.specs.WorldOrders.{WhatIsShownHasOneOrder, WhatIsShownWasRun};

use resp_session::laws;

/// There is one order of all commands that explains what a world shows: the store, the versions and
/// the replies follow from it. The commands of each client in this order are a prefix of the
/// commands that the client sent.
pub fn what_a_world_shows_has_one_order()
    ensures { WhatIsShownHasOneOrder }
{
    laws::a_world_has_one_order();
}

/// The commands that were run stay first in the order when more are run, and a reply that is shown
/// belongs to a command that was run. So a command that is sent after a reply was shown comes after
/// the command of that reply.
pub fn what_a_world_shows_goes_on()
    ensures only_grows { TheOrderOnlyGrows }
    ensures holds_what_is_shown { WhatIsShownWasRun }
{
    laws::the_order_goes_on();
}
