//! The texts that parts make together, and what runs of calls mean. Each law is the contract of a function that does nothing.

ghost use Rattle.std.specs.Prelude.{◌≡◌, [], ◌∷◌, codes};
ghost use Rattle.resp_c.specs.CommandKinds.{hello_three, hello_two, kind_of_command, not_paired, one_reply, subscribing};
ghost use Rattle.resp_c.specs.Pairs.{TheEventsShowARefusal};
ghost use Rattle.resp_c.specs.Runs.{CallsReadAsAClient};
ghost use Rattle.resp_c.specs.Writes.{AHeadAndItsMembersAreTheText, AHeadAndItsWordsAreTheCommand};

/// The head of an aggregate and the texts of its members together are its canonical text. The head
/// of an array and each word as a bulk string together are the text of a command.
pub fn parts_make_texts()
    ensures aggregate { AHeadAndItsMembersAreTheText }
    ensures command { AHeadAndItsWordsAreTheCommand }
{}

/// The calls that `resp_pairing_step` makes read values as a client does: each value is read in the
/// version in which the client reads it, and each reply has the number of its command.
pub fn calls_read_as_a_client()
    ensures { CallsReadAsAClient }
{}

/// The events of a reply have shown at its end whether it is an error, with or without attributes
/// in front of it.
pub fn events_show_a_refusal()
    ensures { TheEventsShowARefusal }
{}

/// How a server replies to some commands, given their words.
pub fn kinds_of_commands()
    ensures get { kind_of_command (codes "get" ∷ codes "subscribe" ∷ []) ≡ one_reply }
    ensures no_word { kind_of_command [] ≡ not_paired }
    ensures hello { kind_of_command (codes "HELLO" ∷ []) ≡ one_reply }
    ensures hello_2 { kind_of_command (codes "hello" ∷ codes "2" ∷ []) ≡ hello_two }
    ensures hello_3 { kind_of_command (codes "Hello" ∷ codes "3" ∷ codes "AUTH" ∷ codes "a" ∷
        codes "b" ∷ []) ≡ hello_three }
    ensures hello_4 { kind_of_command (codes "HELLO" ∷ codes "4" ∷ []) ≡ one_reply }
    ensures subscribe { kind_of_command (codes "SubScribe" ∷ codes "a" ∷ []) ≡ subscribing }
    ensures sunsubscribe { kind_of_command (codes "SUNSUBSCRIBE" ∷ []) ≡ subscribing }
    ensures monitor { kind_of_command (codes "MONITOR" ∷ []) ≡ not_paired }
    ensures psync { kind_of_command (codes "psync" ∷ codes "?" ∷ codes "-1" ∷ []) ≡ not_paired }
    ensures reset { kind_of_command (codes "reset" ∷ []) ≡ not_paired }
    ensures client_reply { kind_of_command (codes "client" ∷ codes "REPLY" ∷ codes "off" ∷ [])
        ≡ not_paired }
    ensures client_id { kind_of_command (codes "client" ∷ codes "id" ∷ []) ≡ one_reply }
{}
