//! Laws of the commands of many clients on several lines. Each law is the contract of a function with
//! an empty body, so the check of that function proves it.

ghost use Rattle.resp_board.specs.Laws.{AClientAloneGetsAll, APartWaitsOnce, AReplyIsItsOwnersAlone, ATicketFindsItsCommand, AnAnswerStays, EachReplyIsGiven, LinesKeepEachClientsOrder, OneLineIsAConnection, OneLineIsAZip, OthersAnswersChangeNothing};
ghost use Rattle.resp_board.specs.Wholes.{TheServerIsAskedWholeCommands};

/// After any events, a part of a command that waits has no reply, and it waits once, on one line.
pub fn a_part_waits_once()
    ensures { APartWaitsOnce }
{}

/// After any events, the next event changes no reply to a part of a command.
pub fn an_answer_stays()
    ensures { AnAnswerStays }
{}

/// The reply to a part of a command, found by its client and by the number of the command among the
/// client's commands, changes this reply and no reply of another client.
pub fn a_ticket_finds_its_command()
    ensures { ATicketFindsItsCommand }
{}

/// If two runs differ only in the replies to the commands of others, the same bytes are due to a
/// client. Commands may go to any lines, lines may be lost, and commands may be split and moved.
pub fn others_answers_change_nothing()
    ensures { OthersAnswersChangeNothing }
{}

/// After any events, a reply to another client's command gives a client nothing, and another reply
/// instead of it changes nothing for the client, whatever happens later.
pub fn a_reply_is_its_owners_alone()
    ensures { AReplyIsItsOwnersAlone }
{}

/// After any events, a client gets the reply to its command after the answers to its earlier
/// commands, and before those to its later ones.
pub fn each_reply_is_given()
    ensures { EachReplyIsGiven }
{}

/// A client whose commands all go to one line sees a connection whose server replies to one command
/// after another, whatever happens on other lines.
pub fn one_line_is_a_connection()
    ensures { OneLineIsAConnection }
{}

/// If the commands of a client all go to one line, and each reply of its server is awaited, the nth
/// reply of this line belongs to the nth command that went there.
pub fn one_line_is_a_zip()
    ensures { OneLineIsAZip }
{}

/// A client that is alone on a line gets all replies of its server, byte by byte.
pub fn a_client_alone_gets_all()
    ensures { AClientAloneGetsAll }
{}

/// While a line keeps its connection, the commands of each client on it, followed by those that are
/// held for it on another line, are those that the client sent to the two, in their order. The client
/// sends to the line only while none of its commands is held for it, and commands that are held go to
/// the line alone.
pub fn lines_keep_each_clients_order()
    ensures { LinesKeepEachClientsOrder }
{}

/// If the texts that clients send are spellings of values, the bytes for each line are spellings of
/// values, whole and in order.
pub fn the_server_is_asked_whole_commands()
    ensures { TheServerIsAskedWholeCommands }
{}
