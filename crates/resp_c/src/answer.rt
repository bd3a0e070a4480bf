//! The error numbers of [`include/resp.h`](../../../include/resp.h) that are not numbers of a
//! [`Cause`](resp_value::cause::Cause).

/// The error number of a version other than 2 and 3.
pub(crate) const BAD_VERSION: u32 = 64;

/// The error number of a buffer that is shorter than a text.
pub(crate) const NO_ROOM: u32 = 65;

/// The error number of an unknown kind of aggregate.
pub(crate) const BAD_KIND: u32 = 66;

/// The error number of a HELLO while another HELLO waits.
pub(crate) const HELLO_WAITS: u32 = 67;

/// The error number of a command that does not have exactly one reply, or that changes the version
/// in another way than HELLO.
pub(crate) const UNPAIRED: u32 = 68;

/// The error number of a command whose replies are pushes, while another such command waits.
pub(crate) const PUSHES_WAIT: u32 = 69;

/// The error number of a complete reply that is not plain.
pub(crate) const NOT_PLAIN: u32 = 70;
