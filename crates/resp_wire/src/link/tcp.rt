//! A link over TCP.

ghost use Rattle.std.specs.Prelude.{◌≡◌, ◌+◌, ◌<◌, ◌≤◌, None, length, is_err, true, IfErr, IfOk, IsErrOf, OnOk};
ghost use Rattle.resp_io.specs.Devices.{HasRisen, failures_after};
ghost use Rattle.resp_wire.specs.Links.{IsOutOfTurns, StopsPassing, StopsReceiving, is_of_link};
ghost use Rattle.resp_wire.specs.TcpLinks.{UsesBothEnds, receiving_end, sending_end};
ghost use Rattle.resp_io.specs.Turns.{Spends, SpendsAtMost};

use super::{Carried, Direction, Link, LinkFault};
use resp_io::device::{Device, Sink, Source};
use resp_io::{Halt, read_some, write_text};
use resp_value::cause::Cause;
use std::io;
use std::net::{Net, TcpListener, TcpStream};

/// The number of reads and writes that one carry may make.
const TURNS: u64 = 65_536;

/// Both ends of a TCP connection of this machine to itself, in one thread. The link compares the
/// bytes received with the bytes sent, so a carry that succeeds delivers exactly the bytes sent.
///
/// A carry makes at most 65,536 reads and writes. It fails with `TooManyTurns` if these are used
/// up, with `Write` if a write fails or writes no byte, and with `Read` if a read fails, if the
/// input ends before the whole piece was received, or if the bytes received differ from the bytes
/// written.
#[derive(Debug, Drop)]
pub struct TcpLink {
    client_end: Device<TcpStream>,
    server_end: Device<TcpStream>,
    failures: u64,
}

impl TcpLink {
    /// Connects to 127.0.0.1, at a port that the system chooses.
    ///
    /// # Errors
    ///
    /// The error of the call that failed, for example if no descriptor or no port is left.
    pub fn connect(net: &impl Net<Listener = TcpListener, Stream = TcpStream>) -> io::Result<Self>
        ensures unused { IfOk result (λ link. link.client_end.calls + link.server_end.calls ≡ 0) }
        ensures none_failed { IfOk result (λ link. link.failures ≡ 0) }
    {
        let listener = TcpListener::bind(net, ("127.0.0.1", 0))?;
        let client_end = TcpStream::connect(net, listener.local_addr()?)?;
        let (server_end, _) = listener.accept()?;
        client_end.set_nodelay(true)?;
        server_end.set_nodelay(true)?;
        Ok(TcpLink {
            client_end: Device::new(client_end),
            server_end: Device::new(server_end),
            failures: 0,
        })
    }
}

impl TcpLink {
    /// Writes a piece at one end, and reads it at the other.
    fn pass_along(
        &mut self,
        direction: Direction,
        piece: &[u8],
        into: &mut [u8],
    ) -> Result<(), Cause>
        ensures refusal { IfErr result (λ cause. is_of_link cause ≡ true) }
        ensures write_failed { IsErrOf result Cause.Write →
            HasRisen (sending_end direction self.old).failures
            (sending_end direction self.new).failures }
        ensures used { OnOk result (0 < length piece.now → 0 < length into.old →
            UsesBothEnds self.old self.new) }
        ensures turns { SpendsAtMost (sending_end direction self.old).calls
            (sending_end direction self.new).calls (receiving_end direction self.old).calls
            (receiving_end direction self.new).calls TURNS (IsErrOf result Cause.TooManyTurns) }
        ensures calls { self.new.client_end.calls + self.new.server_end.calls ≤
            self.old.client_end.calls + self.old.server_end.calls + TURNS }
        ensures same_failures { self.new.failures ≡ self.old.failures }
    {
        if direction == Direction::ToServer {
            return pass(&mut self.client_end, &mut self.server_end, piece, into);
        }
        pass(&mut self.server_end, &mut self.client_end, piece, into)
    }
}

impl Link for TcpLink {
    ghost is_honest = { λ _. Unit {0} };

    ghost traffic = { λ _. None };

    ghost failures = { λ link. link.failures };

    ghost calls = { λ link. link.client_end.calls + link.server_end.calls };

    fn carry(&mut self, direction: Direction, piece: &[u8], into: &mut [u8]) -> Carried
        requires same_length { length piece.now ≡ length into.old }
        requires short { length piece.now ≤ 1_024 }
        ensures carried { OnOk result (into.new ≡ piece.now) }
        ensures cause { IfErr result (λ fault. is_of_link fault.cause ≡ true) }

        // A piece that is not empty is written at the end of its sender and read at the other end.
        // A failed write is one of the sender's end.
        ensures used { OnOk result (0 < length piece.now → UsesBothEnds self.old self.new) }
        ensures write_failed { IfErr result (λ fault. fault.cause ≡ Cause.Write →
            HasRisen (sending_end direction self.old).failures
            (sending_end direction self.new).failures) }
        ensures turns { SpendsAtMost (sending_end direction self.old).calls
            (sending_end direction self.new).calls (receiving_end direction self.old).calls
            (receiving_end direction self.new).calls TURNS (IsOutOfTurns result) }

        ensures failures { self.new.failures ≡
            failures_after (is_err result) self.old.failures }
        ensures calls { self.new.client_end.calls + self.new.server_end.calls ≤
            self.old.client_end.calls + self.old.server_end.calls + 65_536 }
    {
        let passed = match self.pass_along(direction, piece, into) {
            Ok(()) => compare(piece, into),
            Err(cause) => Err(LinkFault { cause }),
        };
        if passed.is_err() {
            self.failures = self.failures.saturating_add(1);
        }
        passed
    }
}

/// Checks that the bytes received are those that were written. Fails with `Read` if they are not.
fn compare(written: &[u8], came: &[u8]) -> Carried
    ensures same { OnOk result (came.now ≡ written.now) }
    ensures refusal { IfErr result (λ fault. fault.cause ≡ Cause.Read) }
{
    if came != written {
        return Err(LinkFault { cause: Cause::Read });
    }
    Ok(())
}

/// Writes a piece at one end, and reads at the other end as many bytes as there is room for.
fn pass<W: Sink, R: Source>(
    from: &mut W,
    to: &mut R,
    piece: &[u8],
    into: &mut [u8],
) -> Result<(), Cause>
    ensures refusal { IfErr result (StopsPassing (W.failures from.old) (W.failures from.new)
        (R.failures to.old) (R.failures to.new) (R.remaining to.old) (R.remaining to.new)) }
    ensures turns { SpendsAtMost (W.calls from.old) (W.calls from.new) (R.calls to.old)
        (R.calls to.new) TURNS (IsErrOf result Cause.TooManyTurns) }
    ensures used { OnOk result (0 < length piece.now → 0 < length into.old →
        HasRisen (W.calls from.old) (W.calls from.new) ×
        HasRisen (R.calls to.old) (R.calls to.new)) }
    ensures calls { W.calls from.new + R.calls to.new ≤ W.calls from.old + R.calls to.old + TURNS }
{
    let mut turns = TURNS;
    match write_text(from, piece, &mut turns).end {
        Ok(()) => receive(to, into, &mut turns),
        Err(Halt::Failed) => Err(Cause::Write),
        Err(Halt::NoTurn) => Err(Cause::TooManyTurns),
    }
}

/// Reads as many bytes as there is room for.
#[tactic(auto, using(resp_io::proofs::Turning::spends_more))]
fn receive<R: Source>(to: &mut R, into: &mut [u8], turns: &mut u64) -> Result<(), Cause>
    ensures refusal { IfErr result (StopsReceiving (R.failures to.old) (R.failures to.new)
        (R.remaining to.old) (R.remaining to.new) turns.new) }
    ensures turns { Spends (R.calls to.old) (R.calls to.new) turns.old turns.new }
    ensures onward { OnOk result (0 < length into.old → turns.new < turns.old) }
{
    let mut count = 0;
    while count < into.len() {
        match read_some(to, &mut into[count..], turns) {
            Ok(0) | Err(Halt::Failed) => return Err(Cause::Read),
            Ok(more) => count += more,
            Err(Halt::NoTurn) => return Err(Cause::TooManyTurns),
        }
    }
    Ok(())
}
