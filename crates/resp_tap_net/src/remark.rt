//! The lines about connections of clients, apart from those about their ends.

/// A line about a client's connection. Some have a text, such as an address.
#[derive(Clone, Copy)]
pub(crate) enum Remark {
    /// The client is connected from the address in the text.
    ConnectedFrom,
    /// The client is connected, and its address is not known.
    Connected,
    /// There is no memory for the client.
    NotConnected,
    /// No connection to the server could be opened, for the reason in the text.
    Failed,
    /// The client is one more than `--max-clients` allows.
    Rejected,
    /// The capture does not have the beginning of the connection.
    InTheMiddle,
    /// Bytes are missing in the capture. The text says how many.
    Missing,
}

impl Remark {
    /// Returns the bytes between the number of the client and the text.
    pub(crate) fn front(self) -> &'static [u8] {
        match self {
            Remark::ConnectedFrom => b" connected from ",
            Remark::Connected => b" connected",
            Remark::NotConnected => b" not connected",
            Remark::Failed | Remark::Missing => b": ",
            Remark::Rejected => b": rejected by --max-clients",
            Remark::InTheMiddle => b": the capture begins in the middle of the connection",
        }
    }

    /// Returns the member of the line of JSON that says its kind.
    pub(crate) fn kind(self) -> &'static [u8] {
        match self {
            Remark::ConnectedFrom | Remark::Connected => b",\"kind\":\"connected\"",
            Remark::NotConnected | Remark::Failed => b",\"kind\":\"not_connected\"",
            Remark::Rejected => b",\"kind\":\"rejected\"",
            Remark::InTheMiddle => b",\"kind\":\"in_the_middle\"",
            Remark::Missing => b",\"kind\":\"missing\"",
        }
    }

    /// Returns the name of the JSON member that has the text of the line.
    pub(crate) fn member(self) -> &'static [u8] {
        match self {
            Remark::ConnectedFrom => b",\"from\":",
            Remark::Failed => b",\"error\":",
            _ => b",\"text\":",
        }
    }
}
