//! The causes of errors, each with a number and a name.

ghost use Rattle.std.specs.Prelude.{◌≡◌};

/// The first limit that a value to be encoded exceeds. The limits are checked in this order.
#[derive(Clone, Copy, Debug, PartialEq, Eq)]
pub enum Limit {
    /// It has more aggregates inside one another than the limit `depth` allows.
    Depth,
    /// It has a content of more bytes than the limit `length` allows.
    Length,
    /// It has an aggregate of more members or pairs than the limit `items` allows.
    Items,
    /// Its canonical text has more bytes than the limit `total` allows.
    Total,
}

/// The cause of an error.
#[derive(Clone, Copy, Debug, PartialEq, Eq)]
pub enum Cause {
    /// The bytes begin no value of any version.
    Syntax,
    /// A double was received, or is to be encoded, and the limits do not allow doubles.
    Double,
    /// A form of version 3 was received while version 2 is read.
    Version,
    /// A push was received inside another value.
    NestedPush,
    /// An integer is outside the range of a signed 64-bit integer.
    Range,
    /// The value exceeds the limit `depth`.
    Depth,
    /// A content exceeds the limit `length`.
    Length,
    /// The value cannot end within the limit `total`.
    Total,
    /// The input ended inside a value.
    Truncated,
    /// An allocation failed.
    OutOfMemory,
    /// A streamed form was received, and the limits do not allow streamed forms.
    Streamed,
    /// An aggregate exceeds the limit `items`.
    Items,
    /// A value other than a push was received while no command waits for a reply.
    Unasked,
    /// A command exceeds the client's limits.
    TooLarge,
    /// A command has no word, or its name is one that the client does not send.
    BadCommand,
    /// The client has used all its command numbers.
    TooMany,
    /// As many sessions are open as possible, or all ids have been used.
    TooManySessions,
    /// No session has this id.
    NoSession,
    /// The session is closing and accepts no more output.
    Closing,
    /// The value to be encoded holds a type that the version does not have.
    NotInVersion,
    /// The value to be encoded holds a push inside another value.
    PushBelowTop,
    /// The value to be encoded exceeds a limit.
    OverLimits(Limit),
    /// The reader failed.
    Read,
    /// The writer failed, or wrote no byte.
    Write,
    /// The given number of reads and writes has been used.
    TooManyTurns,
    /// The reader ended while a command waits for its reply.
    Ended,
    /// The text of a line contains CR or LF.
    BadLine,
    /// A text is not an optional sign followed by one or more digits.
    BadDigits,
    /// The version cannot be changed in the middle of a value.
    Busy,
    /// A limit is outside its range.
    BadLimits,
}

impl Cause {
    ghost use Rattle.resp_value.specs.Causes.{number_of, name_of};

    /// Returns the number of the cause: 1 to 10, 12 and 13 for input, 20 to 24 for a client, 30 to
    /// 32 for a server, 40 to 42 for encoding, 50 to 53 for devices, 60 to 63 for arguments. Each
    /// cause has its own number. `OverLimits` has one number for all limits.
    pub fn number(self) -> u32
        ensures { result ≡ number_of self }
    {
        match self {
            Cause::Syntax => 1,
            Cause::Double => 2,
            Cause::Version => 3,
            Cause::NestedPush => 4,
            Cause::Range => 5,
            Cause::Depth => 6,
            Cause::Length => 7,
            Cause::Total => 8,
            Cause::Truncated => 9,
            Cause::OutOfMemory => 10,
            Cause::Streamed => 12,
            Cause::Items => 13,
            Cause::Unasked => 20,
            Cause::TooLarge => 21,
            Cause::BadCommand => 22,
            Cause::TooMany => 24,
            Cause::TooManySessions => 30,
            Cause::NoSession => 31,
            Cause::Closing => 32,
            Cause::NotInVersion => 40,
            Cause::PushBelowTop => 41,
            Cause::OverLimits(_) => 42,
            Cause::Read => 50,
            Cause::Write => 51,
            Cause::TooManyTurns => 52,
            Cause::Ended => 53,
            Cause::BadLine => 60,
            Cause::BadDigits => 61,
            Cause::Busy => 62,
            Cause::BadLimits => 63,
        }
    }

    /// Returns the name of the cause, as the program prints it and as error replies contain it.
    /// `NestedPush` and `PushBelowTop` share a name.
    pub fn name(self) -> &'static str
        ensures { result.now ≡ name_of self }
    {
        match self {
            Cause::Syntax => "Syntax",
            Cause::Double => "Double",
            Cause::Version => "Version",
            Cause::NestedPush | Cause::PushBelowTop => "NestedPush",
            Cause::Range => "Range",
            Cause::Depth => "Depth",
            Cause::Length => "Length",
            Cause::Total => "Total",
            Cause::Truncated => "Truncated",
            Cause::OutOfMemory => "OutOfMemory",
            Cause::Streamed => "Streamed",
            Cause::Items => "Items",
            Cause::Unasked => "Unasked",
            Cause::TooLarge => "TooLarge",
            Cause::BadCommand => "BadCommand",
            Cause::TooMany => "TooMany",
            Cause::TooManySessions => "TooManySessions",
            Cause::NoSession => "NoSession",
            Cause::Closing => "Closing",
            Cause::NotInVersion => "NotInVersion",
            Cause::OverLimits(_) => "OverLimits",
            Cause::Read => "Read",
            Cause::Write => "Write",
            Cause::TooManyTurns => "TooManyTurns",
            Cause::Ended => "Ended",
            Cause::BadLine => "BadLine",
            Cause::BadDigits => "BadDigits",
            Cause::Busy => "Busy",
            Cause::BadLimits => "BadLimits",
        }
    }
}
