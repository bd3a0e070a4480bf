//! The tables of the options of the subcommands.

ghost use Rattle.std.specs.Prelude.{◌≡◌, map};
ghost use Rattle.clap.specs.declared.builder.value_parser.ValueParser.{ValueParser};
ghost use Rattle.resp_cli_args.specs.Program.{TakesVersions, asking_options, clients_option, limit_options, loop_options, printing_options, reading_options, replying_options, server_and_words, serving_options, sharing_options, showing_options, version_options, watching_options};
ghost use Rattle.resp_cli_args.specs.Tables.{parameter_rule};

use crate::options::STANDARD_INPUT;
use crate::parameter::Form::{Between, LastBeforeRest, OneOf, Rest, ShortFlag, Text, Word};
use crate::parameter::{PLAIN, Parameter};

/// The greatest limit of items, and the greatest number of a client.
const MOST_ITEMS: i64 = 1_099_511_627_776;

/// `--color`: when text is printed in color.
const COLOR: Parameter = Parameter {
    name: "color",
    form: Text,
    value_names: &["WHEN"],
    help: "Prints in color: auto, always or never\n[default: auto, which is on a terminal]",
    ..PLAIN
};

/// `--utf8`: whether printable characters are printed as they are.
const UTF8: Parameter = Parameter {
    name: "utf8",
    help: "Prints printable UTF-8 without escapes",
    ..PLAIN
};

/// `--json`: whether values are printed as JSON.
const JSON: Parameter = Parameter {
    name: "json",
    help: "Prints each value as a line of JSON",
    ..PLAIN
};

/// `--doubles`: whether doubles are accepted.
const DOUBLES: Parameter = Parameter {
    name: "doubles",
    help: "Accepts RESP3 doubles",
    ..PLAIN
};

/// `--piece`: the most bytes of a read.
const PIECE: Parameter = Parameter {
    name: "piece",
    heading: LIMITS_OF_VALUES,
    form: Text,
    value_names: &["N"],
    defaults: &["4K"],
    help: "Maximum bytes of a read, 1 to 64K",
    ..PLAIN
};

/// `--explain`: whether errors of a stream are explained.
const EXPLAIN: Parameter = Parameter {
    name: "explain",
    help: "Says where in the input an error is, and why;\nthe default if standard error is a terminal",
    ..PLAIN
};

/// `--no-explain`: whether nothing is explained.
const NO_EXPLAIN: Parameter = Parameter {
    name: "no-explain",
    help: "Does not explain errors",
    ..PLAIN
};

/// The input file.
const FILE: Parameter = Parameter {
    name: "file",
    form: Word,
    value_names: &["FILE"],
    defaults: &[STANDARD_INPUT],
    help: "Input file, or - for standard input",
    ..PLAIN
};

/// The heading of the options that bound connections.
const CONNECTIONS: &str = "Connections";

/// The heading of the options that bound what is held for clients and servers.
const BUFFERS: &str = "Buffers";

/// The heading of the options that limit values.
const LIMITS_OF_VALUES: &str = "Limits";

/// `--max-clients`: the most clients at once.
const CLIENTS: Parameter = Parameter {
    name: "max-clients",
    heading: CONNECTIONS,
    form: Between(1, 65_536),
    value_names: &["N"],
    help: "Maximum clients at once, 1 to 65536\n[default: as many as ulimit -n allows]",
    ..PLAIN
};

/// `--client-buffer`: the bytes waiting for a client at which its commands wait.
const CLIENT_BUFFER: Parameter = Parameter {
    name: "client-buffer",
    heading: BUFFERS,
    form: Text,
    value_names: &["N"],
    defaults: &["1M"],
    help: "Pauses a client while more bytes than this wait\nfor it, 1 to 1024G",
    ..PLAIN
};

/// `--drain-timeout`: the time after which a service that drains closes the clients that are still open.
const DRAIN_TIMEOUT: Parameter = Parameter {
    name: "drain-timeout",
    form: Text,
    value_names: &["TIME"],
    defaults: &["30s"],
    help: "At the end, closes the clients that are left\nafter this time, 1ms to 24h or 0",
    ..PLAIN
};

/// The address to listen on of `tap` and `proxy`.
const LISTEN: Parameter = Parameter {
    name: "listen",
    form: Word,
    value_names: &["LISTEN"],
    help: "Address to listen on: IP:PORT, PORT or PATH",
    ..PLAIN
};

/// The address of the server.
const SERVER: Parameter = Parameter {
    name: "server",
    form: Word,
    value_names: &["SERVER"],
    is_required: true,
    help: "Address of the server: HOST, HOST:PORT, PORT or PATH",
    ..PLAIN
};

/// The options for the version of the protocol.
pub(crate) fn versions() -> &'static [Parameter]
    ensures { (versions : ValueParser) × TakesVersions versions
        × (map parameter_rule result.now ≡ version_options versions) }
{
    VERSIONS
}

/// The parameters of [`versions`].
const VERSIONS: &[Parameter] = &[
    Parameter {
        name: "proto",
        form: OneOf(&["2", "3"]),
        value_names: &["VERSION"],
        defaults: &["2"],
        help: "Protocol version",
        ..PLAIN
    },
    Parameter {
        name: "two",
        form: ShortFlag('2'),
        help: "Protocol version 2, even with -3",
        ..PLAIN
    },
    Parameter {
        name: "three",
        form: ShortFlag('3'),
        help: "Protocol version 3 with doubles",
        ..PLAIN
    },
];

/// The options that limit values.
pub(crate) fn limits() -> &'static [Parameter]
    ensures { map parameter_rule result.now ≡ limit_options }
{
    LIMITS
}

/// The parameters of [`limits`].
const LIMITS: &[Parameter] = &[
    Parameter {
        name: "depth",
        heading: LIMITS_OF_VALUES,
        form: Between(4, 128),
        value_names: &["N"],
        defaults: &["32"],
        help: "Maximum nesting of aggregates, 4 to 128",
        ..PLAIN
    },
    Parameter {
        name: "length",
        heading: LIMITS_OF_VALUES,
        form: Text,
        value_names: &["N"],
        defaults: &["512M"],
        help: "Maximum bytes of a string or line, 64 to 1G",
        ..PLAIN
    },
    Parameter {
        name: "total",
        heading: LIMITS_OF_VALUES,
        form: Text,
        value_names: &["N"],
        defaults: &["1G"],
        help: "Maximum bytes of a value, 256 to 1024G",
        ..PLAIN
    },
    Parameter {
        name: "items",
        heading: LIMITS_OF_VALUES,
        form: Between(16, MOST_ITEMS),
        value_names: &["N"],
        defaults: &["1099511627776"],
        hides_defaults: true,
        help: "Maximum members or pairs of an aggregate,\n16 to 1099511627776 [default: no limit]",
        ..PLAIN
    },
    Parameter {
        name: "no-streamed",
        heading: LIMITS_OF_VALUES,
        help: "Rejects streamed strings and aggregates",
        ..PLAIN
    },
];

/// The options of `show` after the limits, and the file.
pub(crate) fn showing() -> &'static [Parameter]
    ensures { map parameter_rule result.now ≡ showing_options }
{
    SHOWING
}

/// The parameters of [`showing`].
const SHOWING: &[Parameter] = &[DOUBLES, PIECE, COLOR, UTF8, JSON, EXPLAIN, NO_EXPLAIN, FILE];

/// The options of `check` and `canon` after the limits, and the file.
pub(crate) fn reading() -> &'static [Parameter]
    ensures { map parameter_rule result.now ≡ reading_options }
{
    READING
}

/// The parameters of [`reading`].
const READING: &[Parameter] = &[DOUBLES, PIECE, EXPLAIN, NO_EXPLAIN, FILE];

/// The options of `loop`, and the file.
pub(crate) fn script() -> &'static [Parameter]
    ensures { map parameter_rule result.now ≡ loop_options }
{
    SCRIPT
}

/// The parameters of [`script`].
const SCRIPT: &[Parameter] = &[
    Parameter {
        name: "explain",
        help: "Says why a line of the script is wrong;\nthe default if standard error is a terminal",
        ..PLAIN
    },
    NO_EXPLAIN,
    FILE,
];

/// The options of `serve` before the limits, and the address.
pub(crate) fn serving() -> &'static [Parameter]
    ensures { map parameter_rule result.now ≡ serving_options }
{
    SERVING
}

/// The parameters of [`serving`].
const SERVING: &[Parameter] = &[
    Parameter {
        name: "test-server",
        help: "Also serves inline commands, QUIT, SELECT, CLIENT,\nEXISTS, DBSIZE, FLUSHDB and FLUSHALL, in 16 databases",
        ..PLAIN
    },
    Parameter {
        name: "torture",
        form: Between(0, MOST_ITEMS),
        value_names: &["SEED"],
        defaults: &["0"],
        hides_defaults: true,
        help: "Replies in other valid encodings and in pieces, which\nSEED decides, to test a client",
        ..PLAIN
    },
    CLIENTS,
    CLIENT_BUFFER,
    Parameter {
        heading: CONNECTIONS,
        ..DRAIN_TIMEOUT
    },
    Parameter {
        name: "address",
        form: Word,
        value_names: &["ADDRESS"],
        is_required: true,
        help: "Address to listen on: IP:PORT, PORT or PATH",
        ..PLAIN
    },
];

/// The heading of the options of `tap` that choose commands.
const FILTERS: &str = "Filters";

/// The options of `tap` that say what is printed.
pub(crate) fn watching() -> &'static [Parameter]
    ensures { map parameter_rule result.now ≡ watching_options }
{
    WATCHING
}

/// The parameters of [`watching`].
const WATCHING: &[Parameter] = &[
    Parameter {
        name: "stats",
        help: "Prints a table of commands when the last connection\ncloses, and not the commands",
        ..PLAIN
    },
    Parameter {
        name: "stats-every",
        form: Text,
        value_names: &["TIME"],
        defaults: &["0"],
        hides_defaults: true,
        help: "As --stats, and prints the table this often too,\n1s to 24h",
        ..PLAIN
    },
    Parameter {
        name: "time",
        help: "Prints the time in UTC, and how long each reply took",
        ..PLAIN
    },
    Parameter {
        name: "date",
        help: "As --time, with the date too",
        ..PLAIN
    },
    Parameter {
        name: "connections",
        help: "Prints when clients connect and from where, and the\nnames that they give to their connections",
        ..PLAIN
    },
    Parameter {
        name: "json",
        help: "Prints each command and reply as a line of JSON",
        ..PLAIN
    },
    COLOR,
    UTF8,
    Parameter {
        name: "shown",
        form: Text,
        value_names: &["N"],
        defaults: &["1K"],
        help: "Maximum bytes printed of each text,\n32 to 1024G",
        ..PLAIN
    },
    Parameter {
        name: "show-passwords",
        help: "Prints the passwords in commands",
        ..PLAIN
    },
    Parameter {
        name: "errors",
        heading: FILTERS,
        help: "Prints only commands whose reply is an error",
        ..PLAIN
    },
    Parameter {
        name: "slower",
        heading: FILTERS,
        form: Text,
        value_names: &["TIME"],
        help: "Prints only commands that wait longer for their reply,\nsuch as 10ms, 1s or 500us",
        ..PLAIN
    },
    Parameter {
        name: "command",
        heading: FILTERS,
        form: Text,
        value_names: &["NAMES"],
        help: "Prints only commands with these names, with a comma\nbetween two of them",
        ..PLAIN
    },
    Parameter {
        name: "key",
        heading: FILTERS,
        form: Text,
        value_names: &["GLOB"],
        help: "Prints only commands with a key that this glob\nmatches, such as 'user:*'",
        ..PLAIN
    },
    Parameter {
        name: "client",
        heading: FILTERS,
        form: Between(0, MOST_ITEMS),
        value_names: &["N"],
        defaults: &["0"],
        hides_defaults: true,
        help: "Prints only the lines about client N",
        ..PLAIN
    },
];

/// The heading of the options of `tap` about captures.
const CAPTURES: &str = "Captures";

/// The other options of `tap`, and the addresses.
pub(crate) fn printing() -> &'static [Parameter]
    ensures { map parameter_rule result.now ≡ printing_options }
{
    PRINTING
}

/// The parameters of [`printing`].
const PRINTING: &[Parameter] = &[
    Parameter {
        name: "record",
        heading: CAPTURES,
        form: Text,
        value_names: &["FILE"],
        help: "Writes the traffic to a capture (pcap) for --replay, with\nall passwords",
        ..PLAIN
    },
    Parameter {
        name: "replay",
        heading: CAPTURES,
        form: Text,
        value_names: &["FILE"],
        help: "Reads the traffic in a capture (pcap, pcapng) in place of\nLISTEN and SERVER; - is standard input",
        ..PLAIN
    },
    Parameter {
        name: "port",
        heading: CAPTURES,
        form: Between(0, 65_535),
        value_names: &["N"],
        defaults: &["0"],
        hides_defaults: true,
        help: "Port of the server in the capture, for connections of\nwhich it has no beginning",
        ..PLAIN
    },
    CLIENTS,
    Parameter {
        heading: CONNECTIONS,
        ..DRAIN_TIMEOUT
    },
    Parameter {
        name: "no-inline",
        heading: CONNECTIONS,
        help: "Reads no inline commands, such as the line PING",
        ..PLAIN
    },
    Parameter {
        name: "exit-with-output",
        heading: CONNECTIONS,
        help: "Ends at once if the output fails",
        ..PLAIN
    },
    Parameter {
        name: "keep-going",
        heading: CONNECTIONS,
        help: "Accepts clients after the output has failed",
        ..PLAIN
    },
    Parameter {
        name: "cut",
        heading: CONNECTIONS,
        form: Text,
        value_names: &["CUT"],
        help: "Cuts the replies into pieces of at most CUT bytes,\nor of random sizes with random:SEED",
        ..PLAIN
    },
    LISTEN,
    Parameter {
        is_required: false,
        ..SERVER
    },
];

/// The heading of the options of `proxy` that serve no client.
const CHECKS: &str = "Check a server";

/// The options of `proxy` about its commands and its end, and the addresses.
pub(crate) fn replying() -> &'static [Parameter]
    ensures { map parameter_rule result.now ≡ replying_options }
{
    REPLYING
}

/// The parameters of [`replying`].
const REPLYING: &[Parameter] = &[
    Parameter {
        name: "server-timeout",
        form: Text,
        value_names: &["TIME"],
        defaults: &["10s"],
        help: "Closes the connection to the server after this\ntime without a reply, 1ms to 1h",
        ..PLAIN
    },
    Parameter {
        name: "report",
        form: Text,
        value_names: &["TIME"],
        defaults: &["0"],
        hides_defaults: true,
        help: "Prints a line with numbers this often, 1s to 24h",
        ..PLAIN
    },
    Parameter {
        name: "drain",
        help: "Ends when standard input ends; each client gets\nthe replies to its commands first",
        ..PLAIN
    },
    DRAIN_TIMEOUT,
    Parameter {
        name: "local-ping",
        help: "Replies to PING without the server",
        ..PLAIN
    },
    Parameter {
        name: "also",
        form: Text,
        value_names: &["NAMES"],
        help: "Also sends these commands of modules, such as\nJSON.GET,JSON.SET; each must have one reply",
        ..PLAIN
    },
    Parameter {
        name: "learn",
        help: "At each connection asks the server for commands,\nand also sends those that read or write",
        ..PLAIN
    },
    Parameter {
        name: "no-inline",
        help: "Rejects inline commands, such as the line PING",
        ..PLAIN
    },
    Parameter {
        name: "check-every",
        form: Between(0, 1_000_000_000),
        value_names: &["N"],
        defaults: &["0"],
        hides_defaults: true,
        help: "Checks by an ECHO after every N commands that\nreplies are in step, 1 to 1000000000",
        ..PLAIN
    },
    Parameter {
        name: "check",
        heading: CHECKS,
        help: "Serves no client; prints what the proxy would do with the\ncommands of the server",
        ..PLAIN
    },
    Parameter {
        name: "all",
        heading: CHECKS,
        help: "With --check: prints a line for each command",
        ..PLAIN
    },
    Parameter {
        is_required: true,
        ..LISTEN
    },
    SERVER,
];

/// The options of `proxy` that bound its connections and its buffers.
pub(crate) fn sharing() -> &'static [Parameter]
    ensures { map parameter_rule result.now ≡ sharing_options }
{
    SHARING
}

/// The parameters of [`sharing`].
const SHARING: &[Parameter] = &[
    CLIENTS,
    Parameter {
        name: "max-dedicated",
        heading: CONNECTIONS,
        form: Between(0, 65_536),
        value_names: &["N"],
        defaults: &["1000"],
        help: "Maximum clients with a connection of their own,\n0 to 65536",
        ..PLAIN
    },
    Parameter {
        name: "max-shared",
        heading: CONNECTIONS,
        form: Between(1, 256),
        value_names: &["N"],
        defaults: &["16"],
        help: "Maximum connections that clients share, one for each\nversion, database and user, 1 to 256",
        ..PLAIN
    },
    Parameter {
        name: "pipeline",
        heading: CONNECTIONS,
        form: Between(1, 1_048_576),
        value_names: &["N"],
        defaults: &["1024"],
        help: "Maximum commands of a client that wait for replies,\n1 to 1048576",
        ..PLAIN
    },
    CLIENT_BUFFER,
    Parameter {
        name: "client-buffer-limit",
        heading: BUFFERS,
        form: Text,
        value_names: &["N"],
        defaults: &["1G"],
        help: "Closes a client for which more bytes than this\nwait, 1 to 1024G",
        ..PLAIN
    },
    Parameter {
        name: "server-buffer",
        heading: BUFFERS,
        form: Text,
        value_names: &["N"],
        defaults: &["1M"],
        help: "Pauses clients while more bytes than this wait\nfor the server, 1 to 1024G",
        ..PLAIN
    },
];

/// The options of `ask` before the limits.
pub(crate) fn asking() -> &'static [Parameter]
    ensures { map parameter_rule result.now ≡ asking_options }
{
    ASKING
}

/// The parameters of [`asking`].
const ASKING: &[Parameter] = &[
    Parameter {
        name: "three",
        form: ShortFlag('3'),
        help: "Sends HELLO 3 first, and accepts doubles",
        ..PLAIN
    },
    Parameter {
        name: "user",
        form: Text,
        value_names: &["NAME"],
        help: "Name of the user whose password is in\nRESP_PASSWORD",
        ..PLAIN
    },
    Parameter {
        name: "window",
        form: Between(1, 65_536),
        value_names: &["N"],
        defaults: &["1000"],
        help: "Maximum commands that wait for a reply,\n1 to 65536",
        ..PLAIN
    },
    Parameter {
        name: "timeout",
        form: Text,
        value_names: &["TIME"],
        defaults: &["0"],
        hides_defaults: true,
        help: "Ends if the server sends nothing for this time,\n1ms to 24h [default: waits]",
        ..PLAIN
    },
    Parameter {
        name: "raw",
        help: "Reads commands from standard input as RESP, and not\nas lines",
        ..PLAIN
    },
    Parameter {
        name: "count",
        help: "Prints only the numbers of replies and errors, and\nthe time",
        ..PLAIN
    },
    COLOR,
    UTF8,
    JSON,
];

/// The address of the server of `ask`, and the words of a command.
pub(crate) fn words() -> &'static [Parameter]
    ensures { map parameter_rule result.now ≡ server_and_words }
{
    WORDS
}

/// The parameters of [`words`].
const WORDS: &[Parameter] = &[
    Parameter {
        form: LastBeforeRest,
        ..SERVER
    },
    Parameter {
        name: "words",
        form: Rest,
        value_names: &["WORD"],
        help: "Command with its arguments",
        ..PLAIN
    },
];
