//! The client and its state.

ghost use Rattle.std.specs.Prelude.{◌≡◌, ◌↔◌, ◌+◌, ◌≤◌, ◌^◌, [], None, Some, length};
ghost use Rattle.resp_client.specs.Standing.{TakesOrStands};

use bytes::BytesMut;
use resp_decode::decoder::Decoder;
use resp_scan::event::Fault;
use resp_value::limits::Limits;
use resp_value::version::Version;
use std::alloc::Global;
use std::collections::VecDeque;

/// The client's end of a connection. It queues commands (Redis serialization protocol
/// specification, "Sending commands to a Redis server") and matches each reply to its command.
/// Commands are numbered 1, 2, 3 and so on.
///
/// The client begins in version 2. When the reply to a HELLO with a version arrives and is not an
/// error, the client switches to that version.
#[derive(Drop)]
pub struct Client {
    pub(crate) limits: Limits,
    pub(crate) version: Version,
    /// For each command that waits, the version that it requests if it is a HELLO with a version.
    pub(crate) asks: VecDeque<Option<Version>>,
    /// The number of commands that have a reply.
    pub(crate) answered: u64,
    pub(crate) out: BytesMut,
    pub(crate) decoder: Decoder,
    /// The fault, if there was one.
    pub(crate) fault: Option<Fault>,
    ghost in_range: { answered + length asks.items ≤ 2 ^ 63 },
    /// The bytes read are a prefix of a value, or there was a fault.
    pub ghost reading: { ∥ TakesOrStands limits (record { version = version; asks = asks.items })
        decoder fault ∥₁ },
}

impl Client {
    ghost use Rattle.resp_client.specs.Clients.{new_state, state_of, without_front};
    ghost use Rattle.resp_client.specs.Hearing.{HasFault, HasTaken, HasTakenSome, KeepsReading, WhereTaken};
    ghost use Rattle.resp_scan.specs.declared.event.Fault.{Fault};

    /// Creates a client in version 2 with an empty queue, which writes and reads within these
    /// limits. Does not allocate.
    pub fn new(alloc: Global, limits: &Limits) -> Client
        ensures nothing_sent { state_of result ≡ new_state limits.now }
        ensures nothing_taken { HasTaken result [] }
    {
        Client {
            limits: *limits,
            version: Version::Two,
            asks: VecDeque::new(alloc),
            answered: 0,
            out: BytesMut::new(alloc),
            decoder: Decoder::new(alloc, Version::Two, limits),
            fault: None,
        }
    }

    /// Returns the bytes to be written: the texts of the queued commands that have not been removed
    /// by [`Client::sent`].
    pub fn out(&self) -> &[u8]
        ensures { result.now ≡ (state_of self.now).out }
    {
        self.out.as_slice()
    }

    /// Removes the first `count` bytes of [`Client::out`] after they were written. `count` is at
    /// most the length of [`Client::out`]. Does not copy the other bytes.
    ///
    /// # Examples
    ///
    /// From [samples](../../samples/src/pipelining.rt):
    ///
    /// ```rust
    /// client.send(&Command::new(vec![in alloc; b"PING".to_vec(alloc)?]?)?)?;
    /// // The socket accepted only the first four bytes.
    /// let written = client.out().len().min(4);
    /// client.sent(written);
    /// println!(rt; "{}", client.out().escape_ascii())?;
    /// ```
    ///
    /// This prints `$4\r\nPING\r\n`.
    pub fn sent(&mut self, count: usize)
        requires { count ≤ length (state_of self.old).out }
        ensures dropped { state_of self.new ≡ without_front count (state_of self.old) }
        ensures same_reading { KeepsReading self.old self.new }
    {
        self.out.advance(count);
    }

    /// Returns the number of queued commands that have no reply yet.
    pub fn waiting(&self) -> u64
        ensures { result ≡ length (state_of self.now).waiting.asks }
    {
        self.asks.len() as u64
    }

    /// Returns the number of queued commands that have a reply.
    pub fn answered(&self) -> u64
        ensures { result ≡ (state_of self.now).answered }
    {
        self.answered
    }

    /// Returns the client's version: 2 until a HELLO with a version has a reply that is not an
    /// error, and then the version of that HELLO.
    pub fn version(&self) -> Version
        ensures { result ≡ (state_of self.now).waiting.version }
    {
        self.version
    }

    /// Returns the number of bytes read of the current reply or push, 0 between two. A rejected
    /// byte does not count. After a fault it is the number of bytes before the fault.
    pub fn taken(&self) -> u64
        ensures length_of_front { WhereTaken self.now (λ front. result ≡ length front) }
        ensures at_a_fault { (fault : Fault) → HasFault self.now fault → result ≡ fault.at }
        ensures at_most_total { result ≤ (state_of self.now).limits.total }
    {
        match self.fault {
            Some(fault) => fault.at,
            None => self.decoder.taken(),
        }
    }

    /// Returns the fault, if there was one. Every later [`Client::feed`] returns it.
    pub fn fault(&self) -> Option<Fault>
        ensures the_fault { (fault : Fault) → HasFault self.now fault ↔ (result ≡ Some fault) }
        ensures none_while_reading { WhereTaken self.now (λ front. result ≡ None) }
        ensures reads_where_none { result ≡ None → HasTakenSome self.now }
    {
        self.fault
    }
}
