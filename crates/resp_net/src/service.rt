//! Services: how connections of a loop are made, visited and closed.

use crate::stream::Stream;
use mio::{Registry, Token};
use std::io;
use std::time::Duration;

/// The token of the socket of a service itself.
pub const OWN_SOCKET: Token = Token(usize::MAX);

/// The token of standard input.
pub const INPUT: Token = Token(usize::MAX - 1);

/// The maximum number of sockets of a service besides its first.
pub const FURTHER: usize = 255;

/// Returns the token of the socket of a service with this number. The token of number 0 is
/// [`OWN_SOCKET`].
pub fn token_of(number: usize) -> Token {
    if number == 0 {
        OWN_SOCKET
    } else {
        Token((usize::MAX - 1).saturating_sub(number))
    }
}

/// Returns the number of a socket of a service besides its first, given its token.
pub(crate) fn number_of(token: usize) -> Option<usize> {
    let number = (usize::MAX - 1).saturating_sub(token);
    if number == 0 || number > FURTHER {
        None
    } else {
        Some(number)
    }
}

/// When a connection is visited next.
#[derive(Clone, Copy, Debug, PartialEq, Eq)]
pub enum Next {
    /// When one of its sockets is ready.
    Wait,
    /// After the other connections were visited.
    Again,
    /// Never: it is closed.
    Close,
}

/// The place of one connection, and the tokens of its sockets.
#[derive(Clone, Copy)]
pub struct Tokens {
    pub place: usize,
    pub client: Token,
    pub server: Token,
}

/// A service for the clients of a loop. `C` is its state for each connection.
pub trait Service<C> {
    /// Returns the connection of an accepted client, after registering its sockets under these
    /// tokens.
    ///
    /// # Errors
    ///
    /// An error of the system, or of kind `OutOfMemory`. The client's socket is closed.
    fn admit(&mut self, client: Stream, registry: &Registry, tokens: Tokens) -> io::Result<C>;

    /// Notes that an accepted client was closed at once, because an allocation failed.
    fn lose(&mut self);

    /// Notes that an accepted client was closed at once, because the maximum number of connections
    /// is open.
    fn reject(&mut self);

    /// Notes that a wait has ended, before connections are visited.
    fn begin_turn(&mut self) {}

    /// Notes that a socket of a connection is ready. `is_at_end` says whether its input may have
    /// ended. The visit follows at once, or in its turn if the connection is queued.
    fn note_ready(&mut self, connection: &mut C, is_at_end: bool);

    /// Reads and writes the sockets of a connection, and says when to do so again. A further socket
    /// of the connection is registered in the registry.
    fn visit(&mut self, connection: &mut C, registry: &Registry) -> Next;

    /// Closes a connection.
    fn close(&mut self, connection: C);

    /// Returns whether connections are accepted. Once this is false, it has to stay false, and the
    /// loop ends when the last connection is closed and [`Service::may_end`] returns true.
    fn accepts(&self) -> bool;

    /// Returns whether the loop may end once the last connection is closed.
    fn may_end(&self) -> bool {
        true
    }

    /// Returns the longest time of the next wait, if the service has work that is not about a
    /// connection.
    fn patience(&self) -> Option<Duration>;

    /// Does that work, after connections were visited. A socket of the service itself is registered
    /// under a token of [`token_of`].
    ///
    /// # Errors
    ///
    /// An error that ends the loop.
    fn work(&mut self, registry: &Registry) -> io::Result<()>;

    /// Notes that the socket of the service itself with this number is ready. `is_at_end` says
    /// whether its input may have ended.
    fn ready(&mut self, _number: usize, _is_at_end: bool) {}

    /// Notes that standard input is ready. `is_at_end` says whether it has ended.
    fn input_ready(&mut self, _is_at_end: bool) {}

    /// Returns the place of the next connection that is to be visited although its sockets are not
    /// ready.
    fn next_due(&mut self) -> Option<usize> {
        None
    }
}

/// Returns the shorter of two times, or the only one.
pub fn shorter(one: Option<Duration>, other: Option<Duration>) -> Option<Duration> {
    match (one, other) {
        (Some(one), Some(other)) => Some(one.min(other)),
        (Some(time), None) | (None, Some(time)) => Some(time),
        (None, None) => None,
    }
}
