//! The error replies to commands.

ghost use Rattle.std.specs.Prelude.{◌≡◌};
ghost use Rattle.resp_value.specs.Canonical.{canonical_text};
ghost use Rattle.resp_value.specs.declared.version.Version.TheVariants.{Two};
ghost use Rattle.resp_session.specs.Replies.{error};
ghost use Rattle.resp_server.specs.Refusals.{refusal_text};
ghost use Rattle.resp_server.specs.declared.refusal.Refusal.TheVariants.{WrongNumber};

/// A command or subcommand in the error reply to a wrong number of words.
#[derive(Clone, Copy, Debug, PartialEq, Eq)]
pub(crate) enum Verb {
    /// PING.
    Ping,
    /// ECHO.
    Echo,
    /// GET.
    Get,
    /// SET.
    Set,
    /// DEL.
    Del,
    /// HELLO.
    Hello,
    /// EXISTS.
    Exists,
    /// SELECT.
    Select,
    /// DBSIZE.
    DbSize,
    /// CLIENT.
    Client,
    /// CLIENT SETNAME.
    SetName,
    /// CLIENT GETNAME.
    GetName,
    /// CLIENT ID.
    Id,
    /// CLIENT SETINFO.
    SetInfo,
}

/// Why a command gets an error.
#[derive(Clone, Copy, Debug, PartialEq, Eq)]
pub(crate) enum Refusal {
    /// It has too few or too many words.
    WrongNumber(Verb),
    /// It has an unknown option.
    Syntax,
    /// HELLO requests an unknown version.
    NoProtocol,
    /// Its name is unknown.
    UnknownCommand,
    /// A number is not the decimal text of a 64-bit integer.
    NoInteger,
    /// The number of a database is not an integer of 32 bits.
    FarIndex,
    /// No database has this number.
    NoDatabase,
    /// A name of a client has a byte that is not printable, or a space.
    BadName,
    /// A user other than `default` gives a password.
    WrongPassword,
}

impl Refusal {
    /// Returns the line of the reply.
    pub(crate) fn line(self) -> &'static [u8]
        ensures { result.now ≡ canonical_text Two (error (refusal_text self)) }
    {
        match self {
            Refusal::WrongNumber(verb) => wrong_number(verb),
            Refusal::Syntax => b"-ERR syntax error\r\n",
            Refusal::NoProtocol => b"-NOPROTO unsupported protocol version\r\n",
            Refusal::UnknownCommand => b"-ERR unknown command\r\n",
            Refusal::NoInteger => b"-ERR value is not an integer or out of range\r\n",
            Refusal::FarIndex =>
                b"-ERR value is out of range, value must between -2147483648 and 2147483647\r\n",
            Refusal::NoDatabase => b"-ERR DB index is out of range\r\n",
            Refusal::BadName =>
                b"-ERR Client names cannot contain spaces, newlines or special characters.\r\n",
            Refusal::WrongPassword =>
                b"-WRONGPASS invalid username-password pair or user is disabled.\r\n",
        }
    }
}

/// Returns the line of the reply to a command with too few or too many words.
fn wrong_number(verb: Verb) -> &'static [u8]
    ensures { result.now ≡ canonical_text Two (error (refusal_text (WrongNumber verb))) }
{
    match verb {
        Verb::Ping => b"-ERR wrong number of arguments for 'ping' command\r\n",
        Verb::Echo => b"-ERR wrong number of arguments for 'echo' command\r\n",
        Verb::Get => b"-ERR wrong number of arguments for 'get' command\r\n",
        Verb::Set => b"-ERR wrong number of arguments for 'set' command\r\n",
        Verb::Del => b"-ERR wrong number of arguments for 'del' command\r\n",
        Verb::Hello => b"-ERR wrong number of arguments for 'hello' command\r\n",
        Verb::Exists => b"-ERR wrong number of arguments for 'exists' command\r\n",
        Verb::Select => b"-ERR wrong number of arguments for 'select' command\r\n",
        Verb::DbSize => b"-ERR wrong number of arguments for 'dbsize' command\r\n",
        Verb::Client => b"-ERR wrong number of arguments for 'client' command\r\n",
        Verb::SetName => b"-ERR wrong number of arguments for 'client|setname' command\r\n",
        Verb::GetName => b"-ERR wrong number of arguments for 'client|getname' command\r\n",
        Verb::Id => b"-ERR wrong number of arguments for 'client|id' command\r\n",
        Verb::SetInfo => b"-ERR wrong number of arguments for 'client|setinfo' command\r\n",
    }
}
