//! Laws of the definitions of sessions and worlds. Each law is the contract of a function whose
//! body is empty or calls other laws.

ghost use Rattle.std.specs.Prelude.{◌≡◌, ◌-◌, ◌^◌, [], ◌∷◌, ◌++◌, Some, codes, length, true, false};
ghost use Rattle.resp_value.specs.Words.{command_of};
ghost use Rattle.resp_session.specs.Answers.{after_values};
ghost use Rattle.resp_session.specs.AnswerLaws.{ACommandIsItsWords, AnswersGoOn, AnswersEnd, AnswersAreAdded, ATextHasOneAnswer, AnswersAreOfTheCut, WhatComesIsWholeTexts};
ghost use Rattle.resp_session.specs.Examples.{new_session, answers_to, set_a, get_a, AnInlineCommandIsRefused, get_before_set, hello_in_two, hello_in_three, push_after_hello, clients_of, replies_to, pushes_to, RefusesEventFor, IsOfNobody, get_after_set, more_pushes, dropped_before_set, push_of_one, annotated, annotated_with, HasNumberAfter, HasNoNumberAfter};
ghost use Rattle.resp_session.specs.Worlds.{Push, Drop, Send, ToServer};
ghost use Rattle.resp_value.specs.declared.cause.Cause.TheVariants.{NotInVersion};
ghost use Rattle.resp_session.specs.ReadingLaws.{ReadingsGoOn, ReadingsStay, ATextHasOneReading, ARestHasOneClientFault, HearingGoesOn, NothingMayGoOn};
ghost use Rattle.resp_session.specs.Replies.{simple_string, error, bulk_string, natural, null, hello_reply};
ghost use Rattle.resp_session.specs.Requests.{is_unsent};
ghost use Rattle.resp_session.specs.Reading.{version_after};
ghost use Rattle.resp_value.specs.Data.{scalar, aggregate, more, none, Array, BulkError};
ghost use Rattle.resp_value.specs.declared.version.Version.TheVariants.{Two, Three};
ghost use Rattle.resp_session.specs.WorldLaws.{AWorldHasOneOrder, ARunIsCut, TheOrderOnlyGrows, ShownRepliesAreOfTheOrder, WhatIsShownWasSent, WhatArrivesIsCommands, EachMessageIsWritten, WhatIsWrittenIsRead, WhatIsShownIsRead, WhatIsReadIsShown, WhatIsLeftMayGoOn, NoClientMeetsAFault, AChangeIsOfOneConnection};
ghost use Rattle.resp_session.specs.Fitting.{EffectsFit, NumbersAreShort};
ghost use Rattle.resp_session.specs.Connections.{push_message};
ghost use Rattle.resp_session.specs.Pushed.{PushesAreOfEvents, ShownPushesAreOfEvents, RequestsThatFitAreSent, PushesThatFitAreSent, APushHappens};
ghost use Rattle.resp_session.specs.Serving.{ArrivalsGoOn, ArrivalsStay, WhatArrivesIsAnswered, WhatHasComeWasSent};

use resp_value::laws as grammar;

/// A value is a command if and only if it is an array of the words, each as a bulk string.
pub fn a_command_is_its_words()
    ensures { ACommandIsItsWords }
{}

/// The response to a text up to some rest, and the response to the rest and more bytes, are
/// together the response to the whole text, if the session is not closing after the first of them.
pub fn answers_go_on()
    ensures { AnswersGoOn }
{}

/// A session that is closing sends no more replies.
pub fn answers_end()
    ensures { AnswersEnd }
{
    grammar::fronts_of_spellings_are_viable();
}

/// The response to a text does not depend on the output written or the commands run before.
pub fn answers_are_added()
    ensures { AnswersAreAdded }
{}

/// A text has at most one response. If the text can be cut into values and a rest, the response to
/// the text is the response to the values and the rest.
pub fn a_text_has_one_answer()
    ensures one_answer { ATextHasOneAnswer }
    ensures of_the_cut { AnswersAreOfTheCut }
{
    grammar::no_spelling_begins_another();
    grammar::fronts_of_viable_texts_are_viable();
    grammar::a_viable_text_has_no_cause();
    grammar::a_rest_has_one_fault();
}

/// The bytes received of texts that were sent are a number of whole texts and a viable rest that
/// does not begin with a value.
pub fn what_comes_is_whole_texts()
    ensures { WhatComesIsWholeTexts }
{
    grammar::no_spelling_begins_another();
    grammar::no_spelling_is_empty();
    grammar::fronts_of_spellings_are_viable();
    grammar::the_empty_text_is_viable();
}

/// Reading a text and then more bytes after it gives the same as reading both at once.
pub fn readings_go_on()
    ensures { ReadingsGoOn }
{}

/// The values that were read stay the same, whichever requests are made later. So the version in
/// which a value is read is fixed, even in the middle of a pipeline.
pub fn readings_stay()
    ensures { ReadingsStay }
{
    grammar::a_push_begins_with_its_byte();
    grammar::fronts_of_spellings_are_viable();
    grammar::later_type_bytes_want_version_three();
}

/// There is at most one way to read a text into values and a viable rest.
pub fn a_text_has_one_reading()
    ensures { ATextHasOneReading }
{
    grammar::no_spelling_begins_another();
}

/// A viable rest has no fault, and any other rest has at most one.
pub fn a_rest_has_one_client_fault()
    ensures { ARestHasOneClientFault }
{
    grammar::fronts_of_viable_texts_are_viable();
    grammar::a_viable_text_has_no_cause();
    grammar::a_rest_has_one_fault();
}

/// A client that has received no byte of a value may receive any value.
pub fn nothing_may_go_on()
    ensures { NothingMayGoOn }
{
    grammar::no_spelling_is_empty();
    grammar::the_empty_text_is_viable();
}

/// The replies in a list of values, and then in further values, are numbered without a gap. Pushes
/// have no number.
pub fn hearing_goes_on()
    ensures { HearingGoesOn }
{}

/// Whatever happens, there is one order of all commands that explains the store, the versions and
/// the replies. Each command belongs to a client of the world and runs on the state that all
/// commands before it left. The commands of each client in this order are a prefix of the commands
/// that the client sent.
pub fn a_world_has_one_order()
    ensures { AWorldHasOneOrder }
{}

/// The commands that were run stay first in the order when more are run, and a reply that is shown
/// belongs to a command that was run. So a command that is sent after a reply was shown comes after
/// the command of that reply.
pub fn the_order_goes_on()
    ensures cut_anywhere { ARunIsCut }
    ensures only_grows { TheOrderOnlyGrows }
    ensures holds_what_is_shown { ShownRepliesAreOfTheOrder }
{}

/// The messages shown to a client are a prefix of those that its session has sent, for replies and
/// for pushes separately.
pub fn what_is_shown_was_sent()
    ensures { WhatIsShownWasSent }
{}

/// The pushes that a session has sent are, in order, those of the push events that were neither
/// refused nor for a client that does not exist. The pushes shown to the client are a prefix of
/// them.
pub fn pushes_are_of_events()
    ensures sent { PushesAreOfEvents }
    ensures shown { ShownPushesAreOfEvents }
{}

/// A request is never refused if it is within the limits and a command number is left. A push
/// within the limits is never refused in a session of version 3.
pub fn what_fits_is_sent()
    ensures requests { RequestsThatFitAreSent }
    ensures pushes { PushesThatFitAreSent }
    // A push after HELLO 3 happens.
    ensures a_push { APushHappens }
{}

/// The bytes received by a session of a world are a number of whole commands and a viable rest that
/// does not begin with a value. So no session of a world reports a fault.
pub fn what_arrives_is_commands()
    ensures { WhatArrivesIsCommands }
{
    what_comes_is_whole_texts();
    grammar::canonical_text_spells_what_fits();
}

/// A session or client of a world receives no more bytes than were sent to it, and sending more
/// does not change the bytes that were received.
pub fn what_has_come_was_sent()
    ensures was_sent { WhatHasComeWasSent }
    ensures stays { ArrivalsStay }
{}

/// An event of one connection leaves the other connections as they are.
pub fn a_change_is_of_one_connection()
    ensures { AChangeIsOfOneConnection }
{}

/// Receiving bytes in two parts has the same effect as receiving them together.
pub fn arrivals_go_on()
    ensures { ArrivalsGoOn }
{}

/// The effect of bytes received in a world is the session's response to them.
pub fn what_arrives_is_answered()
    ensures { WhatArrivesIsAnswered }
{
    what_comes_is_whole_texts();
    a_text_has_one_answer();
    grammar::a_text_has_one_cut();
    grammar::no_spelling_begins_another();
    grammar::canonical_text_spells_what_fits();
}

/// A command whose words are within the limits, run on a store within the limits, leaves a reply
/// and a store within the limits, if the session's number is below 2^63. So a server that reads and
/// stores within its limits writes within them.
pub fn effects_fit()
    ensures { EffectsFit }
{}

/// The reply to a number below 2^63 has at most 22 bytes. So room for it can be reserved before the
/// number is known.
pub fn numbers_are_short()
    ensures { NumbersAreShort }
{}

/// All messages of a session are within the limits, in a world of fewer than 2^63 clients.
pub fn each_message_is_written()
    ensures { EachMessageIsWritten }
{
    effects_fit();
    grammar::canonical_text_spells_what_fits();
}

/// The client reads all messages of its session back, in a world of fewer than 2^63 clients. Each
/// message is read in the version in which it was written, or in version 3 if it was written in
/// version 2.
pub fn what_is_written_is_read()
    ensures { WhatIsWrittenIsRead }
{
    each_message_is_written();
    readings_go_on();
    readings_stay();
    grammar::canonical_text_spells_what_fits();
    grammar::version_three_spells_what_two_does();
}

/// The bytes received by a client of a world of fewer than 2^63 clients are the messages that were
/// received whole, and a viable rest. So no such client reports a fault, however it reads.
pub fn what_is_shown_is_read()
    ensures read { WhatIsShownIsRead }
    ensures nothing_else { WhatIsReadIsShown }
    ensures goes_on { WhatIsLeftMayGoOn }
    ensures no_fault { NoClientMeetsAFault }
{
    a_text_has_one_reading();
    each_message_is_written();
    what_is_written_is_read();
    a_rest_has_one_client_fault();
    grammar::no_spelling_begins_another();
    grammar::no_spelling_is_empty();
    grammar::fronts_of_spellings_are_viable();
    grammar::the_empty_text_is_viable();
    grammar::a_push_begins_with_its_byte();
}

/// The replies of a new session with number 1 to commands, and to values that are not commands.
pub fn commands_and_their_replies()
    // Empty arrays and nulls are ignored.
    ensures nothing_is_asked { answers_to (command_of [] ∷ null ∷ []) ≡ [] }
    // A key that is named twice is removed and counted once.
    ensures set_del_get { answers_to (command_of set_a ∷
        command_of (codes "DEL" ∷ codes "a" ∷ codes "a" ∷ []) ∷ command_of get_a ∷ [])
        ≡ codes "+OK\r\n:1\r\n$-1\r\n" }
    ensures get_alone { answers_to (command_of (codes "GET" ∷ []) ∷ [])
        ≡ codes "-ERR wrong number of arguments for 'get' command\r\n" }
    ensures unknown { answers_to (command_of (codes "INCR" ∷ codes "a" ∷ []) ∷ [])
        ≡ codes "-ERR unknown command\r\n" }
    ensures echoes { answers_to (command_of (codes "ECHO" ∷ codes "a" ∷ []) ∷
        command_of (codes "ping" ∷ codes "b" ∷ []) ∷ []) ≡ codes "$1\r\na\r\n$1\r\nb\r\n" }
    // A value that is not a command closes the session, and the values after it get no reply.
    ensures no_command { answers_to (natural 1 ∷ command_of (codes "PING" ∷ []) ∷ [])
        ≡ codes "-ERR Protocol error: NotCommand at byte 0\r\n" }
    ensures closes { (after_values 1 new_session (natural 1 ∷ [])).closing ≡ true }
{}

/// The replies of a new session to commands with too few or too many words.
pub fn wrong_numbers_of_words()
    ensures ping { answers_to (command_of (codes "PING" ∷ codes "a" ∷ codes "b" ∷ []) ∷ [])
        ≡ codes "-ERR wrong number of arguments for 'ping' command\r\n" }
    ensures get_of_two { answers_to (command_of (codes "GET" ∷ codes "a" ∷ codes "b" ∷ []) ∷ [])
        ≡ codes "-ERR wrong number of arguments for 'get' command\r\n" }
    ensures echo { answers_to (command_of (codes "ECHO" ∷ []) ∷ [])
        ≡ codes "-ERR wrong number of arguments for 'echo' command\r\n" }
    ensures echo_of_two { answers_to (command_of (codes "ECHO" ∷ codes "a" ∷ codes "b" ∷ []) ∷ [])
        ≡ codes "-ERR wrong number of arguments for 'echo' command\r\n" }
    ensures set { answers_to (command_of (codes "SET" ∷ codes "a" ∷ []) ∷ [])
        ≡ codes "-ERR wrong number of arguments for 'set' command\r\n" }
    ensures set_alone { answers_to (command_of (codes "SET" ∷ []) ∷ [])
        ≡ codes "-ERR wrong number of arguments for 'set' command\r\n" }
    ensures del { answers_to (command_of (codes "DEL" ∷ []) ∷ [])
        ≡ codes "-ERR wrong number of arguments for 'del' command\r\n" }
    // SET accepts at most one option.
    ensures set_of_five { answers_to (command_of (codes "SET" ∷ codes "a" ∷ codes "1" ∷
        codes "NX" ∷ codes "XX" ∷ []) ∷ []) ≡ codes "-ERR syntax error\r\n" }
    ensures set_of_six { answers_to (command_of (codes "SET" ∷ codes "a" ∷ codes "1" ∷
        codes "NX" ∷ codes "EX" ∷ codes "9" ∷ []) ∷ command_of get_a ∷ [])
        ≡ codes "-ERR syntax error\r\n$-1\r\n" }
    // HELLO accepts no option, so a word after the version is a syntax error.
    ensures hello_of_five { answers_to (command_of (codes "HELLO" ∷ codes "3" ∷ codes "AUTH" ∷
        codes "a" ∷ codes "b" ∷ []) ∷ command_of get_a ∷ [])
        ≡ codes "-ERR syntax error\r\n$-1\r\n" }
    // DEL removes and counts both of two keys that exist.
    ensures del_of_two { answers_to (command_of set_a ∷
        command_of (codes "SET" ∷ codes "b" ∷ codes "2" ∷ []) ∷
        command_of (codes "DEL" ∷ codes "b" ∷ codes "a" ∷ []) ∷ [])
        ≡ codes "+OK\r\n+OK\r\n:2\r\n" }
{}

/// The commands that a client does not send, in upper, lower or mixed case.
pub fn commands_that_are_not_sent()
    ensures no_word { is_unsent [] ≡ true }
    ensures hello { is_unsent (codes "Hello" ∷ codes "3" ∷ []) ≡ true }
    ensures reset { is_unsent (codes "RESET" ∷ []) ≡ true }
    ensures monitor { is_unsent (codes "monitor" ∷ []) ≡ true }
    ensures sync { is_unsent (codes "SYNC" ∷ []) ≡ true }
    ensures psync { is_unsent (codes "psync" ∷ codes "?" ∷ codes "-1" ∷ []) ≡ true }
    ensures unsubscribe { is_unsent (codes "UNSUBSCRIBE" ∷ []) ≡ true }
    ensures psubscribe { is_unsent (codes "PSubscribe" ∷ codes "a" ∷ []) ≡ true }
    ensures punsubscribe { is_unsent (codes "PUNSUBSCRIBE" ∷ []) ≡ true }
    ensures ssubscribe { is_unsent (codes "ssubscribe" ∷ codes "a" ∷ []) ≡ true }
    ensures sunsubscribe { is_unsent (codes "SUNSUBSCRIBE" ∷ []) ≡ true }
    ensures subscribe { is_unsent (codes "SubScribe" ∷ codes "a" ∷ []) ≡ true }
    ensures client_reply { is_unsent (codes "client" ∷ codes "REPLY" ∷ codes "off" ∷ []) ≡ true }
    ensures client_id { is_unsent (codes "client" ∷ codes "id" ∷ []) ≡ false }
    ensures client_alone { is_unsent (codes "CLIENT" ∷ []) ≡ false }
    ensures another_name { is_unsent (codes "resets" ∷ []) ≡ false }
    ensures another_word { is_unsent (codes "get" ∷ codes "reset" ∷ []) ≡ false }
{}

/// A client that has queued 0 to 2^63 - 1 commands has a number left for another command, and a
/// client that has queued 2^63 commands has no number left.
pub fn numbers_of_commands()
    ensures last { HasNumberAfter (2 ^ 63 - 1) }
    ensures none_left { HasNoNumberAfter (2 ^ 63) }
{}

/// The version of a client after the replies to its HELLO 3, and after other replies.
pub fn versions_after_replies()
    ensures map { version_after Two (Some Three) (hello_reply Three 1) ≡ Three }
    ensures error { version_after Two (Some Three) (error (codes "NOPROTO")) ≡ Two }
    ensures bulk_error { version_after Two (Some Three) (scalar (BulkError (codes "no"))) ≡ Two }
    ensures error_after_attribute { version_after Two (Some Three)
        (annotated (error (codes "NOPROTO"))) ≡ Two }
    ensures line_after_attribute { version_after Two (Some Three)
        (annotated (simple_string (codes "OK"))) ≡ Three }
    ensures error_after_two_attributes { version_after Two (Some Three)
        (annotated (annotated (error (codes "NOPROTO")))) ≡ Two }
    ensures bulk_error_after_attribute { version_after Two (Some Three)
        (annotated (scalar (BulkError (codes "no")))) ≡ Two }
    // An error inside an attribute or inside an array is not an error reply.
    ensures error_in_attribute { version_after Two (Some Three)
        (annotated_with (error (codes "no")) (simple_string (codes "OK"))) ≡ Three }
    ensures error_after_pair { version_after Two (Some Three)
        (annotated_with (simple_string (codes "OK")) (error (codes "no"))) ≡ Two }
    ensures error_in_array { version_after Two (Some Three)
        (aggregate Array (more (error (codes "no")) none)) ≡ Three }
    // A refused HELLO leaves version 3 too, and a HELLO without a version changes neither version.
    ensures refused_in_three { version_after Three (Some Two) (error (codes "NOPROTO")) ≡ Three }
    ensures back_to_two { version_after Three (Some Two) (hello_reply Two 1) ≡ Two }
    ensures asks_nothing { version_after Two None (hello_reply Three 1) ≡ Two }
    ensures asks_nothing_in_three { version_after Three None (hello_reply Two 1) ≡ Three }
{}

/// The reply of a new session to an inline command.
pub fn an_inline_command_is_refused()
    ensures { AnInlineCommandIsRefused }
{
    grammar::no_spelling_is_empty();
    grammar::fronts_of_spellings_are_viable();
    grammar::the_empty_text_is_viable();
    grammar::no_other_byte_begins_a_tree();
}

/// The replies of a new session with number 1 to HELLO.
pub fn greetings_and_their_replies()
    // A map in version 3, and an array in version 2.
    ensures hello_three { answers_to (command_of (codes "HELLO" ∷ codes "3" ∷ []) ∷
        command_of (codes "PING" ∷ []) ∷ []) ≡ hello_in_three ++ codes "+PONG\r\n" }
    ensures hello_two { answers_to (command_of (codes "hello" ∷ codes "2" ∷ []) ∷ []) ≡
        hello_in_two }
    ensures length_in_three { length hello_in_three ≡ 148 }
    ensures length_in_two { length hello_in_two ≡ 149 }
    // HELLO without a version changes nothing. HELLO with an unknown version is an error.
    ensures hello_alone { answers_to (command_of (codes "HELLO" ∷ []) ∷ command_of get_a ∷ []) ≡
        hello_in_two ++ codes "$-1\r\n" }
    ensures hello_four { answers_to (command_of (codes "HELLO" ∷ codes "4" ∷ []) ∷
        command_of get_a ∷ []) ≡ codes "-NOPROTO unsupported protocol version\r\n$-1\r\n" }
    ensures hello_option { answers_to
        (command_of (codes "hello" ∷ codes "3" ∷ codes "x" ∷ []) ∷ [])
        ≡ codes "-ERR syntax error\r\n" }
    // A refused HELLO leaves version 3, as HELLO without a version does.
    ensures four_in_three { answers_to (command_of (codes "HELLO" ∷ codes "3" ∷ []) ∷
        command_of (codes "HELLO" ∷ codes "4" ∷ []) ∷ command_of get_a ∷ []) ≡
        hello_in_three ++ codes "-NOPROTO unsupported protocol version\r\n_\r\n" }
    ensures option_in_three { answers_to (command_of (codes "HELLO" ∷ codes "3" ∷ []) ∷
        command_of (codes "HELLO" ∷ codes "2" ∷ codes "x" ∷ []) ∷ command_of get_a ∷ []) ≡
        hello_in_three ++ codes "-ERR syntax error\r\n_\r\n" }
    ensures alone_in_three { answers_to (command_of (codes "HELLO" ∷ codes "3" ∷ []) ∷
        command_of (codes "HELLO" ∷ []) ∷ command_of get_a ∷ []) ≡
        hello_in_three ++ hello_in_three ++ codes "_\r\n" }
    ensures back_to_two { answers_to (command_of (codes "HELLO" ∷ codes "3" ∷ []) ∷
        command_of (codes "HELLO" ∷ codes "2" ∷ []) ∷ command_of get_a ∷ []) ≡
        hello_in_three ++ hello_in_two ++ codes "$-1\r\n" }
    // No other command changes the version.
    ensures others_in_three { answers_to (command_of (codes "HELLO" ∷ codes "3" ∷ []) ∷
        command_of (codes "PING" ∷ []) ∷ command_of get_a ∷
        command_of (codes "ECHO" ∷ codes "b" ∷ []) ∷ command_of get_a ∷
        command_of (codes "INCR" ∷ []) ∷ command_of get_a ∷
        command_of set_a ∷ command_of (codes "SET" ∷ codes "a" ∷ codes "2" ∷ codes "NX" ∷ []) ∷
        command_of get_a ∷ command_of (codes "DEL" ∷ codes "a" ∷ []) ∷ command_of get_a ∷ []) ≡
        hello_in_three ++ codes "+PONG\r\n_\r\n$1\r\nb\r\n_\r\n-ERR unknown command\r\n_\r\n" ++
        codes "+OK\r\n_\r\n$1\r\n1\r\n:1\r\n_\r\n" }
    // A null is written in the version that HELLO set.
    ensures null_in_three { answers_to (command_of (codes "HELLO" ∷ codes "3" ∷ []) ∷
        command_of get_a ∷ []) ≡ hello_in_three ++ codes "_\r\n" }
{}

/// The replies of a new session to SET with a condition.
pub fn conditions_and_their_replies()
    ensures conditions { answers_to (
        command_of (codes "SET" ∷ codes "a" ∷ codes "1" ∷ codes "NX" ∷ []) ∷
        command_of (codes "SET" ∷ codes "a" ∷ codes "2" ∷ codes "nx" ∷ []) ∷
        command_of get_a ∷
        command_of (codes "SET" ∷ codes "b" ∷ codes "1" ∷ codes "XX" ∷ []) ∷
        command_of (codes "SET" ∷ codes "a" ∷ codes "3" ∷ codes "XX" ∷ []) ∷
        command_of get_a ∷ []) ≡ codes "+OK\r\n$-1\r\n$1\r\n1\r\n$-1\r\n+OK\r\n$1\r\n3\r\n" }
    ensures another_option { answers_to
        (command_of (codes "SET" ∷ codes "a" ∷ codes "1" ∷ codes "EX" ∷ []) ∷ [])
        ≡ codes "-ERR syntax error\r\n" }
    // A key that is set again keeps its place.
    ensures order_of_keys { (after_values 1 new_session (command_of set_a ∷
        command_of (codes "SET" ∷ codes "b" ∷ codes "2" ∷ []) ∷
        command_of (codes "SET" ∷ codes "a" ∷ codes "3" ∷ []) ∷ [])).store
        ≡ (codes "a", codes "3") ∷ (codes "b", codes "2") ∷ [] }
{}

/// Events, and the state that a world shows after them.
pub fn events_and_what_they_show()
    ensures order { clients_of get_before_set ≡ 2 ∷ 1 ∷ [] }
    ensures to_the_first { replies_to get_before_set 1 ≡ simple_string (codes "OK") ∷ [] }
    ensures to_the_second { replies_to get_before_set 2 ≡ null ∷ [] }
    ensures store { get_before_set.store ≡ (codes "a", codes "1") ∷ [] }
    ensures greeting { length (replies_to push_after_hello 1) ≡ 1 }
    ensures push { pushes_to push_after_hello 1 ≡
        (push_message (bulk_string (codes "x") ∷ [])).value ∷ [] }
    // One client reads the key that another client has set.
    ensures one_store { replies_to get_after_set 2 ≡ bulk_string (codes "1") ∷ [] }
    // Pushes are shown in the order in which they were sent, each after it was received whole.
    ensures more_pushes { pushes_to more_pushes 1 ≡
        push_of_one (codes "x") ∷ push_of_one (codes "y") ∷ [] }
    // A client that was dropped never returns, and its waiting bytes are lost.
    ensures waiting_is_lost { IsOfNobody dropped_before_set (ToServer 1 27) }
    ensures dropped_for_good { IsOfNobody dropped_before_set (Send 1 get_a) }
    // A push is refused in version 2. An event for a client that does not exist has no effect.
    ensures refused_push { RefusesEventFor get_before_set (Push 2 (bulk_string (codes "x") ∷ []))
        NotInVersion }
    ensures nobody { IsOfNobody get_before_set (Drop 3) }
{}
