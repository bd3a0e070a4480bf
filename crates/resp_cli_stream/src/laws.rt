//! A fact about the text of events. The function has an empty body; its contract states the fact.

ghost use Rattle.resp_cli_stream.specs.Laws.{EventsAreShownAsTheirValue};

/// The text of a value's events, which `show` writes as they arrive, is the text of the value.
pub fn events_are_shown_as_their_value()
    ensures { EventsAreShownAsTheirValue }
{}
