//! The subcommands of the program with their options and their help.

ghost use Rattle.resp_cli_args.specs.Program.{IsProgram, bare_app};
ghost use Rattle.resp_cli_args.specs.Tables.{with_subcommands};

use crate::parameter::Parameter;
use crate::parser::{Subcommand, Texts};
use crate::tables::{
    asking, limits, printing, reading, replying, script, serving, sharing, showing, versions,
    watching, words,
};

/// No parameters.
const NONE: &[Parameter] = &[];

/// Returns the subcommands.
pub(crate) fn subcommands() -> [Subcommand; 8]
    ensures { IsProgram (with_subcommands bare_app result) }
{
    let limits = limits();
    let versions = versions();
    let shown = [versions, limits, showing()];
    let stream = [versions, limits, reading()];
    [
        Subcommand {
            texts: &SHOW,
            parameters: shown,
        },
        Subcommand {
            texts: &CHECK,
            parameters: stream,
        },
        Subcommand {
            texts: &CANON,
            parameters: stream,
        },
        Subcommand {
            texts: &LOOP,
            parameters: [script(), NONE, NONE],
        },
        Subcommand {
            texts: &SERVE,
            parameters: [serving(), limits, NONE],
        },
        Subcommand {
            texts: &TAP,
            parameters: [watching(), printing(), limits],
        },
        Subcommand {
            texts: &PROXY,
            parameters: [replying(), sharing(), limits],
        },
        Subcommand {
            texts: &ASK,
            parameters: [asking(), limits, words()],
        },
    ]
}

/// The texts of `show`.
const SHOW: Texts = Texts {
    name: "show",
    about: "Prints each value of a stream as lines of text",
    after_help: STREAM_HELP,
};

/// The texts of `check`.
const CHECK: Texts = Texts {
    name: "check",
    about: "Reads a stream and prints the number of its values and bytes",
    after_help: STREAM_HELP,
};

/// The texts of `canon`.
const CANON: Texts = Texts {
    name: "canon",
    about: "Writes the canonical text of each value of a stream",
    after_help: STREAM_HELP,
};

/// The texts of `loop`.
const LOOP: Texts = Texts {
    name: "loop",
    about: "Plays a script of clients of one server",
    after_help: LOOP_HELP,
};

/// The texts of `serve`.
const SERVE: Texts = Texts {
    name: "serve",
    about: "Serves PING, ECHO, GET, SET, DEL and HELLO to many clients at once",
    after_help: SERVE_HELP,
};

/// The texts of `tap`.
const TAP: Texts = Texts {
    name: "tap",
    about: "Forwards connections to a server and prints the traffic",
    after_help: TAP_HELP,
};

/// The texts of `proxy`.
const PROXY: Texts = Texts {
    name: "proxy",
    about: "Shares one connection to a server among many clients",
    after_help: PROXY_HELP,
};

/// The texts of `ask`.
const ASK: Texts = Texts {
    name: "ask",
    about: "Sends commands to a server and prints the replies",
    after_help: ASK_HELP,
};

/// The end of the help of `show`, `check` and `canon`.
const STREAM_HELP: &str = r"Examples:
  printf '*2\r\n:1\r\n+two\r\n' | resp show
  resp show -3 --explain replies.resp
  resp check replies.resp
  resp canon -3 <replies.resp >canonical.resp

Exit status:
  0  All input was read
  1  The input contains an error
  2  Usage error
  3  The file can't be opened, a read or a write failed, or memory is out";

/// The end of the help of `loop`.
const LOOP_HELP: &str = r"Examples:
  printf 'clients 1\nsend 1 PING\nflush\n' | resp loop
  resp loop --explain script.txt

Exit status:
  0  The script was played
  1  A line of the script is wrong
  2  Usage error
  3  The file can't be opened, a connection, a read or a write failed,
     or memory is out";

/// The end of the help of `serve`.
const SERVE_HELP: &str = r"Examples:
  resp serve 127.0.0.1:6380
  resp serve --max-clients 100 --total 1M 127.0.0.1:0
  resp serve --test-server 6379

The server runs until it is stopped. With port 0 the system chooses the port.
SIGTERM ends it at once. If it is started with SIGTERM blocked, as by
`env --block-signal=TERM`, each client gets the replies to its commands first.

Exit status:
  0  All clients are closed, after a blocked SIGTERM
  2  Usage error
  3  Listening, a read or a write failed, or memory is out";

/// The end of the help of `tap`.
const TAP_HELP: &str = r"Examples:
  resp tap 127.0.0.1:6380 127.0.0.1:6379
  resp tap --time 127.0.0.1:6380 127.0.0.1:6379 >traffic.txt
  resp tap --slower 10ms --command get,mget 6380 redis.internal:6379
  resp tap --stats-every 10s 6380 6379
  resp tap --record traffic.pcap 6380 6379
  resp tap --replay traffic.pcap --errors
  resp tap --json 6380 6379 | jq 'select(.micros > 1000)'

Clients connect to LISTEN instead of SERVER. All commands and replies are
printed, or those that pass all of --errors, --slower, --command, --key and
--client. In a command, (redacted) is printed in place of a password. The
program runs until it is stopped. If a write fails, it prints nothing more,
accepts no client, and ends when the last connection closes. SIGTERM ends it at
once. If it is started with SIGTERM blocked, as by `env --block-signal=TERM`,
each client gets the replies to its commands first.

Exit status:
  0  All clients are closed, after a blocked SIGTERM; a person has ended it with
     Ctrl-D; or the whole file of --replay was read
  1  The file of --replay is no capture, or is cut off
  2  Usage error
  3  Listening or a write failed, or memory is out";

/// The end of the help of `ask`.
const ASK_HELP: &str = r#"Examples:
  resp ask redis.internal:6379 GET a
  resp ask -3 6379 HGETALL h
  printf 'SET a "1 2"\nGET a\n' | resp ask 6379
  resp ask --count 6379 <commands.txt

Without WORD, commands are read from standard input, one a line. Words are
separated by spaces and may be quoted, as in redis-cli. With --raw, each
command is an array of bulk strings, as clients send it. If the environment has
RESP_PASSWORD, AUTH is sent first, with the name of --user if it is given.

Exit status:
  0  All replies were received, and no reply is an error
  1  A reply is an error, or a command or a reply is wrong
  2  Usage error
  3  The connection, a read or a write failed, or memory is out"#;

/// The end of the help of `proxy`.
const PROXY_HELP: &str = r"Examples:
  resp proxy 127.0.0.1:6380 127.0.0.1:6379
  resp proxy --max-clients 10000 6380 redis.internal:6379
  resp proxy --check 6380 redis.internal:6379

Clients connect to LISTEN instead of SERVER. They share one connection to the
server for each version, database and user that HELLO, SELECT and AUTH ask for.
A client that sends a command such as MULTI or SUBSCRIBE gets a connection of
its own from this command on. If the environment has RESP_PASSWORD, AUTH is sent
first. SIGTERM ends the program at once. If the program is started with SIGTERM
blocked, as by `env --block-signal=TERM`, each client gets the replies to its
commands first. With --drain the end of standard input does the same.

With --check no client is served. The server is asked for its commands, and the
table says what the proxy would do with each of them.

Exit status:
  0  All clients are closed, after a blocked SIGTERM or with --drain; with
     --check: the proxy knows all commands of the server
  1  With --check: the proxy does not know a command of the server, or the
     server rejected AUTH or COMMAND
  2  Usage error
  3  Listening, connecting or a write failed, or memory is out";
