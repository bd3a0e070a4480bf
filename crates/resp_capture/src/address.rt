//! Addresses of the ends of a connection.

/// An address of version 4 or version 6 of the internet protocol, as a number.
#[derive(Clone, Copy, Debug, PartialEq, Eq, PartialOrd, Ord)]
pub enum IpAddress {
    /// The four bytes.
    Four(u32),
    /// The sixteen bytes, in two halves.
    Six { high: u64, low: u64 },
}

/// An end of a connection.
#[derive(Clone, Copy, Debug, PartialEq, Eq, PartialOrd, Ord)]
pub struct Endpoint {
    pub address: IpAddress,
    pub port: u16,
}
