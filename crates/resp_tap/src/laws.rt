//! Facts about the definitions. Each function does nothing; its contract states the fact.

ghost use Rattle.resp_tap.specs.KeptLaws.{EnoughIsKept, KeptPartsTellTheSame, KeptWordsTellTheSame};
ghost use Rattle.resp_tap.specs.SecretLaws.{SecretsAreRedactedSo};
ghost use Rattle.resp_tap.specs.Streams.{CountsReplies, TellsTheConnection};
ghost use Rattle.resp_tap.specs.TimeLaws.{DatesAreToldSo, PrintsAsPlayed, TimesAreToldSo};

use resp_value::laws as grammar;

/// Worked examples of times of day: hours, minutes, and seconds with six decimals.
pub fn times_are_told_so()
    ensures { TimesAreToldSo }
{}

/// Worked examples of dates with times of day, of leap years, and of the last time that is printed.
pub fn dates_are_told_so()
    ensures { DatesAreToldSo }
{}

/// Without a time, replies and pushes of which all bytes are printed are printed as `resp loop` prints
/// those of its clients.
pub fn without_times_lines_are_those_of_loop()
    ensures { PrintsAsPlayed }
{}

/// Worked examples of commands as they are printed without their secret words.
pub fn secrets_are_redacted_so()
    ensures { SecretsAreRedactedSo }
{}

/// However the bytes of both sides are cut into pieces, [`watch`](crate::watch::watch) reports the
/// commands of the client, numbered from 1, and the replies and pushes of the server, each reply with
/// the number of the command that it belongs to.
pub fn pieces_tell_the_connection()
    ensures { TellsTheConnection }
{
    grammar::version_three_spells_what_two_does();
}

/// If each command has exactly one reply, the nth value that is not a push is the reply to the nth
/// command.
pub fn replies_are_counted()
    ensures { CountsReplies }
{}

/// The kept part of a value is an error exactly if the value is one, and has the same number of
/// levels. So a filter, the counts and the name of a connection follow the whole values.
pub fn kept_parts_tell_the_same()
    ensures { KeptPartsTellTheSame }
{}

/// The kept part of a command and the whole command agree on how the server replies, which words are
/// secret and which name the connection gets. A filter for which enough is kept decides the same.
pub fn kept_words_tell_the_same()
    ensures { KeptWordsTellTheSame }
{}

/// A tap that is made for a filter keeps enough of each word for what is shown, and for the filter.
pub fn enough_is_kept()
    ensures { EnoughIsKept }
{}
