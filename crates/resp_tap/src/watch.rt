//! Reads the traffic of a connection, piece by piece, and prints or counts it.

ghost use Rattle.std.specs.Prelude.{◌≡◌, ◌<◌, ◌≤◌, List, length};
ghost use Rattle.resp_tap.specs.Times.{stamp_of, waited_of};
ghost use Rattle.resp_tap.specs.Watches.{KeepsOther, SeesFirst, WatchesAll};
ghost use Rattle.resp_tap.specs.declared.seen.Seen.{Seen};

use crate::moment::Moment;
use crate::print::Printing;
use crate::seen::{Seen, Step};
use crate::stamp::Stamp;
use crate::tap::Tap;
use resp_io::device::Sink;
use resp_print::print_error::PrintError;

/// The side of a connection that sends bytes.
#[derive(Clone, Copy, Debug, PartialEq, Eq)]
pub enum Side {
    Client,
    Server,
}

/// How the results in a piece are printed, and the moment at which the piece arrived.
#[derive(Clone, Copy)]
pub struct Given<N> {
    pub printing: Printing,
    pub now: N,
}

/// The result of [`Watching::watch_some`].
#[derive(Clone, Copy, Debug, PartialEq, Eq)]
pub struct Watched {
    /// The number of bytes read from the front of the piece.
    pub used: usize,
    /// The result of printing, with the errors of [`write_seen`].
    pub printed: Result<(), PrintError>,
}

/// A tap whose results are printed or counted.
pub trait Watching {
    ghost use Rattle.resp_tap.specs.Watches.{KeepsOther, StepOn};
    ghost use Rattle.resp_tap.specs.declared.seen.Seen.{Seen};
    ghost use Rattle.resp_tap.specs.declared.tap.Tap.{Tap};
    ghost use Rattle.resp_tap.specs.declared.watch.Side.{Side};

    /// How results are printed, with the moment at which a piece arrived: a [`Given`] with a
    /// [`Moment`], or with an `Option<Moment>` if the tap prints no time without it.
    type Given: Copy;

    /// What the taps of all connections share, such as counts.
    type Shared;

    /// What a step changes.
    ghost State: { Type 0 };

    /// The state of a tap, and of what it shares.
    ghost state: { Self → Self.Shared → State };

    /// The tap of the commands and replies.
    ghost tap_in: { Self → Tap };

    /// The first result in a piece of this side is read, and printed or counted.
    ghost watches: { Self.Given → Side → StepOn State };

    /// Reads bytes that one side sent, until there is a result or the piece ends, and prints or
    /// counts the result.
    ///
    /// The call reads at least one byte of a piece that is not empty. Call it again with the rest of
    /// the piece.
    ///
    /// # Errors
    ///
    /// [`Watched::printed`] has the error of printing. The tap has read the bytes in any case.
    fn watch_some<W: Sink>(
        &mut self,
        shared: &mut Self::Shared,
        given: Self::Given,
        side: Side,
        piece: &[u8],
        writer: &mut W,
    ) -> Watched
        ensures watches { (what : Seen) × watches given side (state self.old shared.old)
            (state self.new shared.new) piece.now result what (W.written writer.old)
            (W.written writer.new) (W.failures writer.old) (W.failures writer.new) }
        ensures other_side { KeepsOther side (tap_in self.old) (tap_in self.new) }
        ensures within_piece { result.used ≤ length piece.now }
        ensures uses_bytes { 0 < length piece.now → 0 < result.used };
}

/// Reads a piece that one side sent, and prints or counts all commands, replies and pushes in it, as
/// [`Watching::watch_some`] does. `shared` is what the taps of all connections share: the counts of a
/// [`CountedTap`](crate::CountedTap), and `()` for other taps.
///
/// # Errors
///
/// The first error of printing. The tap has read the whole piece, and has tried to print all of its
/// results.
///
/// # Examples
///
/// From [samples](../../samples/src/tapping.rt):
///
/// ```rust
/// let mut tap = Tap::new(alloc, &Limits::standard(), ShownPart::all());
/// let mut text = MemorySink::new(alloc, 4_096, 4_096)?;
/// let printing = Printing {
///     client: 1,
///     shows_passwords: false,
/// };
/// let given = Given { printing, now: None };
/// let get = b"*2\r\n$3\r\nGET\r\n$4\r\nhits\r\n";
/// watch(&mut tap, &mut (), given, Side::Client, get, &mut text)?;
/// watch(&mut tap, &mut (), given, Side::Server, b":7\r\n", &mut text)?;
/// print!(rt; "{}", str::from_utf8(text.bytes())?)?;
/// ```
///
/// This prints:
///
/// ```text
/// client 1 command 1
///   "GET" "hits"
/// client 1 reply 1
///   int 7
/// ```
#[tactic(auto, using(crate::proofs::PieceLemmas::keeps_on, crate::proofs::PieceLemmas::watched_more, crate::proofs::PieceLemmas::watched_all))]
pub fn watch<T: Watching, W: Sink>(
    tap: &mut T,
    shared: &mut T::Shared,
    given: T::Given,
    side: Side,
    piece: &[u8],
    writer: &mut W,
) -> Result<(), PrintError>
    ensures watches { (all : List Seen) × WatchesAll (T.watches given side) all
        (T.state tap.old shared.old) (T.state tap.new shared.new) piece.now (W.written writer.old)
        (W.written writer.new) (W.failures writer.old) (W.failures writer.new) result }
    ensures other_side { KeepsOther side (T.tap_in tap.old) (T.tap_in tap.new) }
{
    let mut rest = piece;
    let mut printed = Ok(());
    while !rest.is_empty() {
        let watched = tap.watch_some(shared, given, side, rest, writer);
        printed = printed.and(watched.printed);
        // At least one byte was read.
        rest = &rest[watched.used..];
    }
    printed
}

/// Reads bytes that one side sent, until there is a result or the piece ends.
pub(crate) fn step(tap: &mut Tap, side: Side, piece: &[u8], now: Option<Moment>) -> Step
    ensures sees { SeesFirst side now tap.old tap.new piece.now result.used result.seen }
    ensures other_side { KeepsOther side tap.old tap.new }
    ensures within_piece { result.used ≤ length piece.now }
    ensures uses_bytes { 0 < length piece.now → 0 < result.used }
{
    match side {
        Side::Client => tap.from_client(piece, now),
        Side::Server => tap.from_server(piece),
    }
}

/// Returns how long the command sent at `asked` waited, if `seen` is its reply.
pub(crate) fn waited_of(now: Moment, asked: Option<u64>, seen: &Seen) -> Option<u64>
    ensures { result ≡ waited_of now asked seen.now }
{
    match (asked, seen) {
        (Some(asked), Seen::Reply { .. }) => Some(now.steady.saturating_sub(asked)),
        _ => None,
    }
}

/// Returns the stamp of a result, if a moment is given.
pub(crate) fn stamp_of(now: Option<Moment>, asked: Option<u64>, seen: &Seen) -> Option<Stamp>
    ensures { result ≡ stamp_of now asked seen.now }
{
    now.map(|now| Stamp {
        utc: now.utc,
        waited: waited_of(now, asked, seen),
    })
}
