//! Laws of fronts: what may follow a front, the least number of bytes that completes it, and its
//! events. Each law is the contract of a function with an empty body.

ghost use Rattle.resp_fronts.specs.EventExamples.{AnArray, AnAttribute, AStreamedArray, AVerbatimString, ABigNumber, ABigZero, AStreamedString};
ghost use Rattle.resp_fronts.specs.Laws.{WhatMayFollowContinues, WhatContinuesMayFollow, LeastCompletionSplits, ViableWhereLeastFits, AFirstByteHasItsCause, EventsDueSplit};

/// A front together with anything that may follow it is the text of a tree within the rules.
pub fn compose()
    ensures { WhatMayFollowContinues }
{}

/// If a front and a continuation together are the text of a tree within the rules, the continuation
/// may follow the front. This holds because no other tree begins with the front.
pub fn determine()
    ensures { WhatContinuesMayFollow }
{}

/// The length of the least completion of a front is the length that the unfinished value needs plus
/// the length that the open aggregates around it still need.
pub fn follow_least()
    ensures { LeastCompletionSplits }
{}

/// A front is viable under every rule if and only if the front and its least completion together
/// are within the limit `total`.
pub fn viable_in_all()
    ensures { ViableWhereLeastFits }
{}

/// If `first_byte_refusal` names a rule for a first byte, this rule is the cause of the error. If
/// it names no rule, the byte is viable under every rule except the limit `total`.
pub fn first_byte()
    ensures { AFirstByteHasItsCause }
{}

/// While the innermost value of a front is unfinished, the events of the front are the events of
/// the parts that the open aggregates have received, followed by the events of the innermost value.
pub fn events_due()
    ensures { EventsDueSplit }
{}

/// Seven trees with their events, worked out by hand. Each event has the index of the byte after
/// which it is given.
pub fn trees_and_their_events()
    ensures array { AnArray }
    ensures attribute { AnAttribute }
    ensures streamed_array { AStreamedArray }
    ensures verbatim { AVerbatimString }
    ensures big { ABigNumber }
    ensures big_zero { ABigZero }
    ensures chunks { AStreamedString }
{}
