//! Laws of the events of values. Each law is the contract of a function whose body is empty or
//! calls other laws.

ghost use Rattle.resp_decode.specs.Laws.{ASpellingIsReadAsItsValue, ASpellingIsRefusedForMemoryAlone, EqualEventsGiveEqualValues, EventsAreTheSameElsewhere, WhatIsBuiltIsNoHeavier};

use resp_value::laws as grammar;

/// Two texts with equal events have equal values. So a listener that receives the events knows the
/// value.
pub fn equal_events_give_equal_values()
    ensures { EqualEventsGiveEqualValues }
{}

/// If a text begins elsewhere, its events are the same, at shifted places.
pub fn events_are_the_same_elsewhere()
    ensures { EventsAreTheSameElsewhere }
{}

/// Three for each finished node and each open aggregate, and one for each byte of content, are
/// together never more than the number of bytes read.
pub fn what_is_built_is_no_heavier()
    ensures { WhatIsBuiltIsNoHeavier }
{}

/// If the input is an encoding of one value, such as the text that `encode` writes, `decode_all`
/// returns this value alone. It then fails only when out of memory.
pub fn a_spelling_is_read_as_its_value()
    ensures read { ASpellingIsReadAsItsValue }
    ensures not_refused { ASpellingIsRefusedForMemoryAlone }
{
    grammar::no_spelling_begins_another();
    grammar::no_spelling_is_empty();
}
