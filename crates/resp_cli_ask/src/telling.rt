//! How replies and pushes are printed and counted.

/// The text for a reply.
#[derive(Clone, Copy, Debug, PartialEq, Eq)]
pub enum ReplyForm {
    /// The lines of the reply, as `resp show` prints a value.
    Alone,
    /// As `Alone`, but a bulk or verbatim string that consists of lines, such as the reply to INFO,
    /// is printed as it is.
    Lined,
    /// A line with the number of the reply, and its lines on level 1.
    Numbered,
    /// A line of JSON, as `resp show --json` prints a value.
    Json,
    /// Nothing.
    Counted,
}

/// How replies and pushes are printed, and how many replies were errors.
#[derive(Clone, Copy, Debug, PartialEq, Eq)]
pub struct Telling {
    /// The text for a reply.
    pub form: ReplyForm,
    /// The number of commands of the client that are not numbered, such as HELLO. The reply to the
    /// next one has the number 1.
    pub before: u64,
    /// The number of replies that were errors, at most `u64::MAX`.
    pub errors: u64,
}
