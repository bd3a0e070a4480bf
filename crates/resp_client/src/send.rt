//! Queueing commands.

ghost use Rattle.std.specs.Prelude.{◌≡◌, ◌⊎◌, ◌+◌, ◌<◌, ◌≤◌, ◌^◌, length, take, OnOk, OnErr, IfOk, IfErr, IsErrOf};
ghost use Rattle.resp_value.specs.Commands.{words_of};
ghost use Rattle.resp_session.specs.Requests.{FitsRequest, HasBytes, Hello, request_text};
ghost use Rattle.resp_session.specs.Requests as request;
ghost use Rattle.resp_client.specs.Steps.{send_error};

use crate::client::Client;
use crate::names::is_unsent;
use crate::send_error::SendError;
use resp_encode::{EncodeError, check_words, encode_words};
use resp_value::command::Command;
use resp_value::laws as grammar;
use resp_value::limits::Limits;
use resp_value::version::Version;

/// The greatest number of commands that a client queues.
const MOST_COMMANDS: u64 = 9_223_372_036_854_775_808;

/// Returns the client's error for an error of the encoder.
fn send_error(error: EncodeError) -> SendError
    ensures { result ≡ send_error error }
{
    match error {
        EncodeError::OutOfMemory => SendError::OutOfMemory,
        _ => SendError::TooLarge,
    }
}

/// Returns the text of HELLO with the requested version.
fn hello_text(asked: Option<Version>) -> &'static [u8]
    ensures { result.now ≡ request_text (Hello asked) }
{
    match asked {
        None => b"*1\r\n$5\r\nHELLO\r\n",
        Some(Version::Two) => b"*2\r\n$5\r\nHELLO\r\n$1\r\n2\r\n",
        Some(Version::Three) => b"*2\r\n$5\r\nHELLO\r\n$1\r\n3\r\n",
    }
}

/// States that HELLO is within any limits.
fn hello_fits(limits: &Limits, asked: Option<Version>)
    ensures { FitsRequest limits.now (Hello asked) }
{
    limits.are_in_range();
}

impl Client {
    ghost use Rattle.resp_client.specs.Clients.{queued, state_of, with_ask, with_request};
    ghost use Rattle.resp_client.specs.Hearing.{KeepsReading};
    ghost use Rattle.resp_client.specs.Sending.{AnswersRequest};

    /// Queues a command and returns the number that its reply will have.
    ///
    /// # Errors
    ///
    /// The first of `BadCommand`, `TooLarge`, `TooMany` and `OutOfMemory` that applies, as
    /// [`SendError`] describes. Then nothing is changed.
    ///
    /// # Examples
    ///
    /// A pipeline, from [example_client](../../example_client/src/main.rt):
    ///
    /// ```rust
    /// let mut client = Client::new(alloc, &Limits::standard());
    /// client.hello(Some(Version::Three))?;
    /// client.send(&command(alloc, b"INCR", b"a")?)?;
    /// client.send(&command(alloc, b"GET", b"b")?)?;
    /// // Write client.out() to the server.
    /// let length = client.out().len();
    /// client.sent(length);
    /// ```
    pub fn send(&mut self, command: &Command) -> Result<u64, SendError>
        ensures answer { AnswersRequest (state_of self.old) (request.Command (words_of command.now))
            result }
        ensures queued { OnOk result (state_of self.new ≡
            with_request (request.Command (words_of command.now)) (state_of self.old)) }
        ensures unchanged { OnErr result (state_of self.new ≡ state_of self.old) }
        ensures same_reading { KeepsReading self.old self.new }
        ensures bytes { OnOk result (HasBytes (request.Command (words_of command.now))) }
    {
        let words = command.words();
        if is_unsent(words) {
            return Err(SendError::BadCommand);
        }
        if self.queued() == MOST_COMMANDS {
            return Err(match check_words(&self.limits, words) {
                Ok(()) => SendError::TooMany,
                Err(error) => send_error(error),
            });
        }
        let length = self.out.len();
        if let Err(error) = encode_words(&self.limits, words, &mut self.out) {
            return Err(send_error(error));
        }
        self.wait_for(None, length)
    }

    /// Queues HELLO, with the requested version if there is one, and returns the number that its
    /// reply will have. The client switches to this version when the reply arrives, unless the
    /// reply is an error.
    ///
    /// # Errors
    ///
    /// `TooMany` if no command number is left, otherwise `OutOfMemory` if an allocation fails. Then
    /// nothing is changed.
    ///
    /// # Examples
    ///
    /// From [samples](../../samples/src/pipelining.rt):
    ///
    /// ```rust
    /// let mut client = Client::new(alloc, &Limits::standard());
    /// client.hello(Some(Version::Three))?;
    /// client.feed(b"%1\r\n+proto\r\n:3\r\n")?;
    /// println!(rt; "{:?}", client.version())?;
    /// ```
    ///
    /// This prints `Three`.
    pub fn hello(&mut self, asked: Option<Version>) -> Result<u64, SendError>
        ensures answer { AnswersRequest (state_of self.old) (Hello asked) result }
        ensures queued { OnOk result (state_of self.new ≡
            with_request (Hello asked) (state_of self.old)) }
        ensures unchanged { OnErr result (state_of self.new ≡ state_of self.old) }
        ensures same_reading { KeepsReading self.old self.new }
    {
        hello_fits(&self.limits, asked);
        if self.queued() == MOST_COMMANDS {
            return Err(SendError::TooMany);
        }
        let length = self.out.len();
        if self.out.extend_from_slice(hello_text(asked)).is_err() {
            return Err(SendError::OutOfMemory);
        }
        self.wait_for(asked, length)
    }

    /// Expects the reply to a command that is sent in another way than through [`Client::out`], and
    /// returns the number that its reply will have. The command may be HELLO, with the version that
    /// it requests, or any other command with exactly one reply.
    ///
    /// # Errors
    ///
    /// `TooMany` if no command number is left, otherwise `OutOfMemory` if an allocation fails. Then
    /// nothing is changed.
    ///
    /// # Examples
    ///
    /// From [samples](../../samples/src/pipelining.rt):
    ///
    /// ```rust
    /// let mut client = Client::new(alloc, &Limits::standard());
    /// let number = client.expect(None)?;
    /// println!(rt; "{number}, {} bytes to write", client.out().len())?;
    /// println!(rt; "{:?}", client.feed(b":8\r\n")?.what)?;
    /// ```
    ///
    /// This prints `1, 0 bytes to write` and `Reply { number: 1, value: Int(8) }`.
    pub fn expect(&mut self, asked: Option<Version>) -> Result<u64, SendError>
        ensures number { IfOk result (λ number. number ≡ queued (state_of self.old) + 1) }
        ensures waits { OnOk result (state_of self.new ≡ with_ask asked (state_of self.old)) }
        ensures number_left { OnOk result (queued (state_of self.old) < 2 ^ 63) }
        ensures too_many { IsErrOf result SendError.TooMany →
            2 ^ 63 ≤ queued (state_of self.old) }
        ensures refusal { IfErr result (λ error.
            (error ≡ SendError.TooMany) ⊎ (error ≡ SendError.OutOfMemory)) }
        ensures unchanged { OnErr result (state_of self.new ≡ state_of self.old) }
        ensures same_reading { KeepsReading self.old self.new }
    {
        if self.queued() == MOST_COMMANDS {
            return Err(SendError::TooMany);
        }
        let length = self.out.len();
        self.wait_for(asked, length)
    }

    /// Returns the number of commands that were queued.
    fn queued(&self) -> u64
        ensures { result ≡ queued (state_of self.now) }
    {
        self.answered + self.asks.len() as u64
    }

    /// Records the command whose text begins after `length` bytes of the queue. If that fails,
    /// removes the text from the queue.
    fn wait_for(&mut self, asked: Option<Version>, length: usize) -> Result<u64, SendError>
        requires { queued (state_of self.old) < 2 ^ 63 }
        ensures waits { OnOk result (state_of self.new ≡ with_ask asked (state_of self.old)) }
        ensures number { IfOk result (λ number. number ≡ queued (state_of self.old) + 1) }
        ensures taken_away { OnErr result (state_of self.new ≡ record (state_of self.old) {
          out = take length (state_of self.old).out;
        }) }
        ensures memory { IfErr result (λ error. error ≡ SendError.OutOfMemory) }
        ensures same_reading { KeepsReading self.old self.new }
    {
        grammar::later_type_bytes_want_version_three();
        // The contract of the decoder's `taken` states here that the bytes read are viable.
        let _taken = self.decoder.taken();
        if self.asks.push_back(asked).is_err() {
            self.out.truncate(length);
            return Err(SendError::OutOfMemory);
        }
        Ok(self.queued())
    }
}
