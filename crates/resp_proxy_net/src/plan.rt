//! What a client that needs another connection wants.

use bytes::BytesMut;
use resp_line::{InlineCommand, InlineError, begins_line, next_inline};
use resp_proxy::{Client, Setting, Wish, WishCommand, is_client_name, next_wish, no_more};
use resp_value::limits::Limits;
use std::alloc::{AllocError, Global};

/// The reply to a command that moves a client to a setting.
#[derive(Clone, Copy)]
enum Kind {
    /// That of AUTH and SELECT.
    Okay,
    /// That of RESET.
    Reset,
    /// That of HELLO.
    Hello,
}

/// The setting that the next command of a client asks for.
#[derive(Drop)]
pub(crate) struct Plan {
    /// The setting, or `None` if only the server knows what the command asks for.
    pub(crate) setting: Option<Setting>,
    /// Whether the command has a password, which the server has to accept.
    pub(crate) has_password: bool,
    /// The number of bytes of the command.
    pub(crate) used: usize,
    /// Whether the client stays in its current setting if it gets no connection.
    pub(crate) goes_on: bool,
    kind: Kind,
    /// The name that the command gives the client.
    name: Option<Vec<u8>>,
}

impl Plan {
    /// Returns the plan of a client that leaves this setting, or `None` if it needs a connection of its
    /// own.
    ///
    /// # Errors
    ///
    /// `AllocError` if an allocation fails.
    pub(crate) fn of(
        alloc: Global,
        client: &Client,
        setting: &Setting,
        limits: &Limits,
    ) -> Result<Option<Plan>, AllocError> {
        let text = client.rest();
        if let Some(line) = line_of(alloc, text, limits)? {
            return match next_wish(line.array.as_slice(), limits) {
                Some(asking) => Plan::by(alloc, asking, line.used, setting),
                None => Ok(None),
            };
        }
        match next_wish(text, limits) {
            Some(asking) => {
                let used = text.len().saturating_sub(asking.rest.len());
                Plan::by(alloc, asking, used, setting)
            }
            None => Ok(None),
        }
    }

    /// Returns the plan for a command of this many bytes with this request.
    fn by(
        alloc: Global,
        asking: WishCommand<'_>,
        used: usize,
        setting: &Setting,
    ) -> Result<Option<Plan>, AllocError> {
        let goes_on = goes_on(asking.wish);
        let (kind, has_password, name) = match asking.wish {
            Wish::Other => return Ok(None),
            Wish::Hello(_, account, name) => (Kind::Hello, account.is_some(), name),
            Wish::Auth(_) => (Kind::Okay, true, None),
            Wish::Reset => (Kind::Reset, false, Some(b"".as_slice())),
            Wish::Select(_) | Wish::Unclear => (Kind::Okay, false, None),
        };
        let mut plan = Plan {
            setting: setting.after(alloc, asking.wish)?,
            has_password,
            used,
            goes_on,
            kind,
            name: None,
        };
        if let Some(name) = name {
            if !is_client_name(name) {
                // The server says what is wrong.
                plan.setting = None;
            }
            plan.name = Some(name.to_vec(alloc)?);
        }
        Ok(Some(plan))
    }

    /// Gives the client its name, and returns the reply to the command. `hello` is the reply to HELLO
    /// over the connection that it shares from now on.
    ///
    /// # Errors
    ///
    /// `AllocError` if an allocation fails.
    pub(crate) fn carry_out(
        self,
        alloc: Global,
        client: &mut Client,
        setting: &Setting,
        hello: &[u8],
    ) -> Result<Vec<u8>, AllocError> {
        let Plan {
            setting: wanted,
            kind,
            name,
            ..
        } = self;
        drop(wanted);
        if let Some(name) = name {
            client.set_name(name);
        }
        match kind {
            Kind::Okay => b"+OK\r\n".to_vec(alloc),
            Kind::Reset => b"+RESET\r\n".to_vec(alloc),
            Kind::Hello => client.hello(alloc, setting.version, hello),
        }
    }
}

/// Why a client gets no connection of its own.
#[derive(Drop)]
pub(crate) struct OwnRefusal {
    /// The reply to the command that needs one.
    pub(crate) reply: Vec<u8>,
    /// The number of bytes of the command.
    pub(crate) used: usize,
    /// Whether the client stays in its current setting.
    pub(crate) goes_on: bool,
}

impl OwnRefusal {
    /// Returns the refusal of the command with which the bytes of a client begin, or `None` if they begin
    /// with no command.
    ///
    /// # Errors
    ///
    /// `AllocError` if an allocation fails.
    pub(crate) fn of(
        alloc: Global,
        text: &[u8],
        limits: &Limits,
    ) -> Result<Option<OwnRefusal>, AllocError> {
        if let Some(line) = line_of(alloc, text, limits)? {
            return match next_wish(line.array.as_slice(), limits) {
                Some(asking) => Ok(Some(OwnRefusal::by(alloc, asking, line.used)?)),
                None => Ok(None),
            };
        }
        match next_wish(text, limits) {
            Some(asking) => {
                let used = text.len().saturating_sub(asking.rest.len());
                Ok(Some(OwnRefusal::by(alloc, asking, used)?))
            }
            None => Ok(None),
        }
    }

    /// Returns the refusal of a command of this many bytes with this request.
    fn by(alloc: Global, asking: WishCommand<'_>, used: usize) -> Result<OwnRefusal, AllocError> {
        Ok(OwnRefusal {
            reply: no_more(alloc, asking.name, asking.first)?,
            used,
            goes_on: goes_on(asking.wish),
        })
    }
}

/// Returns whether a client stays in its current setting if it gets no connection. It does so if it
/// has asked for another version of the protocol, because it learns from the reply that its version
/// is unchanged. After any other command, its next commands would run in the wrong database, as the
/// wrong user or outside a transaction.
fn goes_on(wish: Wish<'_>) -> bool {
    matches!(wish, Wish::Hello(_, None, _))
}

/// A line with which the bytes of a client begin.
#[derive(Drop)]
struct FirstLine {
    /// Its words as an array.
    array: BytesMut,
    /// The number of its bytes.
    used: usize,
}

/// Returns the line with which the bytes of a client begin, if they begin with one that has words.
fn line_of(alloc: Global, text: &[u8], limits: &Limits) -> Result<Option<FirstLine>, AllocError> {
    if !begins_line(text) {
        return Ok(None);
    }
    match next_inline(alloc, limits, &mut Vec::new(alloc), text) {
        Ok(Some(command)) => Ok(with_words(command)),
        Err(InlineError::OutOfMemory) => Err(AllocError),
        Ok(None) | Err(_) => Ok(None),
    }
}

/// Returns the line of an inline command, if it has words.
fn with_words(command: InlineCommand) -> Option<FirstLine> {
    let InlineCommand { used, text, .. } = command;
    match text {
        Some(array) => Some(FirstLine { array, used }),
        None => None,
    }
}
