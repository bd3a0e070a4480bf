//! The versions of the protocol.

/// A version of the protocol (Redis serialization protocol specification, "RESP versions"). An
/// encoding that is valid in version 2 is valid in version 3 too, and has the same value there.
#[derive(Clone, Copy, Debug, PartialEq, Eq)]
pub enum Version {
    /// RESP2, the version in which a connection begins.
    Two,
    /// RESP3, which a client requests with HELLO.
    Three,
}
