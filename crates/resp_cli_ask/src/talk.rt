//! A client with its connection, which sends the commands of an input.

ghost use Rattle.std.specs.Prelude.{◌≡◌, IfOk, map, option_map};
ghost use Rattle.resp_value.specs.Commands.{words_of};
ghost use Rattle.resp_value.specs.Words.{texts_of};
ghost use Rattle.resp_cli_ask.specs.Talks.{auth_words};

use crate::ask::ask_command;
use crate::commands::{CommandInput, CommandPlace};
use crate::error::ExchangeError;
use crate::exchange::exchange;
use crate::failure::{Failure, refused};
use crate::hear::hear_until;
use crate::telling::{ReplyForm, Telling};
use resp_client::{Client, SendError};
use resp_io::device::{MemorySink, Sink, Source};
use resp_io::live::LiveSink;
use resp_print::text::write_text;
use resp_value::command::Command;
use resp_value::limits::Limits;
use resp_value::version::Version;
use std::alloc::{AllocError, Global};

/// The maximum number of bytes of one read of replies.
const PIECE: usize = 16_384;

/// The maximum number of bytes of the text of a reply to AUTH or HELLO.
const MOST_GREETING: usize = 1_048_576;

/// Queued commands are written once they have this many bytes. They have at most twice as many,
/// except for the text of one long command, which is written only if no other command waits.
const BATCH: usize = 16_384;

/// The maximum number of bytes in the input of a command that is written together with others. The
/// command is sent as less than four times as many bytes.
const TOGETHER: usize = 4_096;

/// The maximum number of input pieces.
const MOST_PIECES: u64 = 4_000_000_000_000;

/// The commands that are sent before all others.
#[derive(Clone, Copy, Debug)]
pub struct Greeting<'a> {
    /// The name of the user for AUTH, if one is given.
    pub user: Option<&'a str>,
    /// The password for AUTH. AUTH is not sent without a password.
    pub password: Option<&'a str>,
    /// Whether HELLO 3 is sent.
    pub is_three: bool,
    /// How a reply that is an error is printed.
    pub form: ReplyForm,
}

/// A client and its connection.
#[derive(Drop)]
pub struct Talk<'a, R, W> {
    client: Client,
    telling: Telling,
    reader: &'a mut R,
    writer: &'a mut W,
}

impl<'a, R: Source, W: Sink> Talk<'a, R, W> {
    /// Returns a client that has sent nothing.
    pub fn new(alloc: Global, limits: &Limits, reader: &'a mut R, writer: &'a mut W) -> Self {
        Talk {
            client: Client::new(alloc, limits),
            telling: Telling {
                form: ReplyForm::Alone,
                before: 0,
                errors: 0,
            },
            reader,
            writer,
        }
    }

    /// Returns the number of replies that were errors.
    pub fn errors(&self) -> u64 {
        self.telling.errors
    }

    /// Returns the number of replies, without those to AUTH and HELLO.
    pub fn replies(&self) -> u64 {
        self.client.answered().saturating_sub(self.telling.before)
    }

    /// Returns the number of the next reply, from 1.
    pub fn next_reply(&self) -> u64 {
        self.replies().saturating_add(1)
    }

    /// Starts to number replies, and to print them in this form.
    pub fn begin(&mut self, form: ReplyForm) {
        self.telling.form = form;
        self.telling.before = self.client.answered();
    }

    /// Sends AUTH if there is a password, and HELLO 3 if the greeting asks for it. Returns whether
    /// the server accepted them. A reply that is an error is printed.
    ///
    /// # Errors
    ///
    /// The errors of [`Talk::send_words`].
    pub fn greet<O: Sink>(
        &mut self,
        alloc: Global,
        greeting: &Greeting<'_>,
        output: &mut O,
    ) -> Result<bool, Failure> {
        self.telling.form = greeting.form;
        if let Some(password) = greeting.password {
            let command = auth(alloc, greeting.user, password)?;
            if !self.send_quietly(alloc, &command, output)? {
                return Ok(false);
            }
        }
        if greeting.is_three {
            return self.hello(alloc, output);
        }
        Ok(true)
    }

    /// Sends a command whose reply is printed only if it is an error. Returns false after an
    /// error.
    fn send_quietly<O: Sink>(
        &mut self,
        alloc: Global,
        command: &Command,
        output: &mut O,
    ) -> Result<bool, Failure> {
        let mut text = MemorySink::new(alloc, MOST_GREETING, MOST_GREETING)?;
        self.send(command, &mut text)?;
        self.accept(&text, output)
    }

    /// Sends HELLO 3, whose reply is printed only if it is an error. Returns false after an
    /// error.
    fn hello<O: Sink>(&mut self, alloc: Global, output: &mut O) -> Result<bool, Failure> {
        let mut text = MemorySink::new(alloc, MOST_GREETING, MOST_GREETING)?;
        if self.client.hello(Some(Version::Three)).is_err() {
            return Err(Failure::Ask(ExchangeError::Memory));
        }
        self.exchange(0, &mut text)?;
        self.accept(&text, output)
    }

    /// Prints the text of a reply that is an error. Returns whether there was no error.
    fn accept<O: Sink>(&self, text: &MemorySink, output: &mut O) -> Result<bool, Failure> {
        if self.telling.errors == 0 {
            return Ok(true);
        }
        match write_text(output, text.bytes()) {
            Ok(()) => Ok(false),
            Err(_) => Err(Failure::Output),
        }
    }

    /// Sends the command with these words and prints its reply.
    pub fn send_words<O: Sink>(
        &mut self,
        alloc: Global,
        words: Vec<Vec<u8>>,
        output: &mut O,
    ) -> Result<(), Failure> {
        let command = command_of(words)?;
        match self.send(&command, output) {
            Err(ExchangeError::Refused(error)) => Err(refused(
                alloc,
                CommandPlace::Words,
                &command,
                error,
            )?),
            Err(error) => Err(Failure::Ask(error)),
            Ok(()) => Ok(()),
        }
    }

    /// Sends a command and prints its reply.
    fn send<O: Sink>(&mut self, command: &Command, output: &mut O) -> Result<(), ExchangeError> {
        ask_command(
            self.reader,
            self.writer,
            &mut self.client,
            command,
            &mut self.telling,
            output,
            &mut [0; PIECE],
        )
    }

    /// Writes the commands that are queued, and prints replies until at most `left` commands wait.
    fn exchange<O: Sink>(&mut self, left: u64, output: &mut O) -> Result<(), ExchangeError> {
        exchange(
            self.reader,
            self.writer,
            &mut self.client,
            left,
            &mut self.telling,
            output,
            &mut [0; PIECE],
        )
    }

    /// Sends the commands of an input and prints the replies. At most `window` commands wait for a
    /// reply. Before it waits for input, the replies to all commands have been printed.
    pub fn send_input<C: CommandInput, I: Source, O: LiveSink>(
        &mut self,
        alloc: Global,
        commands: &mut C,
        input: &mut I,
        window: u64,
        output: &mut O,
    ) -> Result<(), Failure> {
        for _piece in 0..MOST_PIECES {
            let sent = self.send_held(alloc, commands, window, output);
            self.exchange(0, output)?;
            sent?;
            if output.flush().is_err() {
                return Err(Failure::Output);
            }
            if !commands.fill(input)? {
                return Ok(());
            }
        }
        Err(Failure::Ask(ExchangeError::TooManyTurns))
    }

    /// Sends the commands that were read completely. The last of them may still wait.
    fn send_held<C: CommandInput, O: Sink>(
        &mut self,
        alloc: Global,
        commands: &mut C,
        window: u64,
        output: &mut O,
    ) -> Result<(), Failure> {
        let most = (window / 2).max(1);
        let mut queued: u64 = 0;
        for _command in 0..u64::MAX {
            let Some(given) = commands.next(alloc)? else {
                return Ok(());
            };
            if queued > 0 && given.length > TOGETHER {
                self.write_batch(queued, window, output)?;
                queued = 0;
            }
            self.queue(alloc, given.place, &given.command)?;
            queued = queued.saturating_add(1);
            if queued >= most || self.client.out().len() >= BATCH {
                self.write_batch(queued, window, output)?;
                queued = 0;
            }
        }
        Ok(())
    }

    /// Queues a command.
    fn queue(
        &mut self,
        alloc: Global,
        place: CommandPlace,
        command: &Command,
    ) -> Result<(), Failure> {
        match self.client.send(command) {
            Ok(_) => Ok(()),
            Err(SendError::OutOfMemory) => Err(Failure::Ask(ExchangeError::Memory)),
            Err(error) => Err(refused(alloc, place, command, error)?),
        }
    }

    /// Writes the `queued` commands that are queued, and prints replies until the commands before
    /// them have their replies.
    fn write_batch<O: Sink>(
        &mut self,
        queued: u64,
        window: u64,
        output: &mut O,
    ) -> Result<(), ExchangeError> {
        // A write of more bytes ends only if the server reads, so nothing else is in flight.
        if window == 1 || self.client.out().len() > 2 * BATCH {
            hear_until(
                self.reader,
                &mut self.client,
                queued,
                &mut self.telling,
                output,
                &mut [0; PIECE],
            )?;
        }
        self.exchange(queued, output)
    }
}

/// Returns the command AUTH.
fn auth(alloc: Global, user: Option<&str>, password: &str) -> Result<Command, Failure>
    ensures { IfOk result (λ command. words_of command ≡
        auth_words (option_map (λ name. name.now) user.entry) password.now) }
{
    match user {
        Some(user) => command_of(bytes_of(alloc, &["AUTH", user, password])?),
        None => command_of(bytes_of(alloc, &["AUTH", password])?),
    }
}

/// Returns the command with these words. There is at least one word.
fn command_of(words: Vec<Vec<u8>>) -> Result<Command, Failure>
    ensures { IfOk result (λ command. words_of command ≡ texts_of words.items) }
{
    match Command::new(words) {
        Ok(command) => Ok(command),
        Err(_) => Err(Failure::Ask(ExchangeError::Refused(SendError::BadCommand))),
    }
}

/// Copies words.
pub fn bytes_of(alloc: Global, words: &[&str]) -> Result<Vec<Vec<u8>>, AllocError>
    ensures { IfOk result (λ copies. texts_of copies.items ≡ map (λ word. word.now) words.now) }
{
    let mut copies = Vec::new(alloc);
    for word in words {
        copies.push(Vec::from_slice(alloc, word.as_bytes())?)?;
    }
    Ok(copies)
}
