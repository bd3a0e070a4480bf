//! The end of one side of a connection, and the command or reply that it cuts off.

ghost use Rattle.std.specs.Prelude.{◌≡◌, ◌+◌, ℕ, List, length, None, false, true};
ghost use Rattle.resp_print.specs.Written.{WritesText};
ghost use Rattle.resp_tap.specs.Ends.{CutsCommand, CutsOff, after_name, before_name, cut_end, cut_of, end_text, ended_words, named_line};
ghost use Rattle.resp_tap.specs.Taps.{tap_state};
ghost use Rattle.resp_tap.specs.Watching.{WhereAnswered, WhereRequested, place_of_value};
ghost use Rattle.resp_tap.specs.declared.seen.Place.TheVariants as place;

use crate::print::place_segment;
use crate::seen::Place;
use crate::segment::{Segment, write_segments};
use crate::stamp::Stamp;
use crate::tap::Tap;
use crate::watch::Side;
use resp_io::device::{DeviceFault, Sink};

/// An incomplete command, reply or value.
#[derive(Clone, Copy, Debug, PartialEq, Eq)]
pub struct Cut {
    /// The command, reply or value.
    pub place: Place,
    /// The number of its bytes that were received.
    pub bytes: u64,
}

/// Returns the incomplete part with this number of bytes, if it has any.
fn cut_at(place: Place, bytes: u64) -> Option<Cut>
    ensures { (front : List ℕ) → bytes ≡ length front → result ≡ cut_of place front }
{
    if bytes == 0 {
        return None;
    }
    Some(Cut { place, bytes })
}

impl Tap {
    /// Returns the command of which the client has sent a part, if its bytes are still read.
    pub fn incomplete_command(&self) -> Option<Cut>
        ensures read { (tap_state self.now).reads_commands ≡ true →
            WhereRequested self.now (λ front.
            result ≡ cut_of (place.Command ((tap_state self.now).commands + 1)) front) }
        ensures unread { (tap_state self.now).reads_commands ≡ false → result ≡ None }
    {
        if !self.requests.is_reading() {
            return None;
        }
        cut_at(
            Place::Command(self.commands.saturating_add(1)),
            self.requests.taken(),
        )
    }

    /// Returns the reply or value of which the server has sent a part, if its bytes are
    /// still read.
    pub fn incomplete_reply(&self) -> Option<Cut>
        ensures read { (tap_state self.now).reads_replies ≡ true → WhereAnswered self.now (λ front.
            result ≡ cut_of (place_of_value (tap_state self.now)) front) }
        ensures unread { (tap_state self.now).reads_replies ≡ false → result ≡ None }
    {
        if !self.values.is_reading() {
            return None;
        }
        cut_at(self.line.place(), self.values.taken())
    }

    /// Returns the command, reply or value of which one side has sent only a part. `held` has the
    /// bytes of an incomplete line that the client has sent.
    pub(crate) fn cut(&self, side: Side, held: &[u8]) -> Option<Cut>
        ensures { CutsOff side held.now self.now result }
    {
        match side {
            Side::Client => self.cut_command(held),
            Side::Server => self.incomplete_reply(),
        }
    }

    /// Returns the command of which the client has sent a part: these bytes of a line, or bytes of an
    /// array.
    fn cut_command(&self, held: &[u8]) -> Option<Cut>
        ensures { CutsCommand held.now self.now result }
    {
        if held.is_empty() || !self.requests.is_reading() {
            return self.incomplete_command();
        }
        cut_at(
            Place::Command(self.commands.saturating_add(1)),
            held.len() as u64,
        )
    }
}

/// Returns the words about the side that has ended.
fn ended_words(side: Side) -> &'static [u8]
    ensures { result.now ≡ ended_words side }
{
    match side {
        Side::Client => b" closed",
        Side::Server => b": the server closed the connection",
    }
}

/// Returns the parenthesis before the name of a connection, if it has one.
fn before_name(name: &[u8]) -> &'static [u8]
    ensures { result.now ≡ before_name name.now }
{
    if name.is_empty() { b"" } else { b" (" }
}

/// Returns the parenthesis after the name of a connection, if it has one.
fn after_name(name: &[u8]) -> &'static [u8]
    ensures { result.now ≡ after_name name.now }
{
    if name.is_empty() { b"" } else { b")" }
}

/// Writes a line about a client's connection with its name, such as `client 1 (worker) gone`. A
/// connection without a name has an empty one.
///
/// # Errors
///
/// `DeviceFault` if a write fails. The first part of the line was written.
pub fn write_named_line<'a, W: Sink>(
    client: u64,
    name: &'a [u8],
    what: &'a [u8],
    stamp: Option<Stamp>,
    writer: &mut W,
) -> Result<(), DeviceFault>
    ensures { WritesText (W.written writer.old) (W.written writer.new) (W.failures writer.old)
        (W.failures writer.new) result (named_line client name.now what.now stamp) }
{
    write_segments(
        &[
            Segment::Number(b"client ", client),
            Segment::Text(before_name(name)),
            Segment::Text(name),
            Segment::Text(after_name(name)),
            Segment::Text(what),
            Segment::Ending(stamp),
        ],
        writer,
    )
}

/// Writes the line about the side of a client's connection that has ended, and the incomplete
/// command or reply of that side, if there is one. A connection without a name has an empty one.
///
/// # Errors
///
/// `DeviceFault` if a write fails. The first part of the line was written.
pub fn write_end<W: Sink>(
    client: u64,
    name: &[u8],
    side: Side,
    cut: Option<Cut>,
    stamp: Option<Stamp>,
    writer: &mut W,
) -> Result<(), DeviceFault>
    ensures { WritesText (W.written writer.old) (W.written writer.new) (W.failures writer.old)
        (W.failures writer.new) result (end_text client name.now side cut stamp) }
{
    match cut {
        None => write_named_line(client, name, ended_words(side), stamp, writer),
        Some(cut) => write_cut_end(client, name, side, cut, stamp, writer),
    }
}

/// Writes the line about a side that has ended inside a command or a reply.
fn write_cut_end<W: Sink>(
    client: u64,
    name: &[u8],
    side: Side,
    cut: Cut,
    stamp: Option<Stamp>,
    writer: &mut W,
) -> Result<(), DeviceFault>
    ensures { WritesText (W.written writer.old) (W.written writer.new) (W.failures writer.old)
        (W.failures writer.new) result (cut_end client name.now side cut stamp) }
{
    write_segments(
        &[
            Segment::Number(b"client ", client),
            Segment::Text(before_name(name)),
            Segment::Text(name),
            Segment::Text(after_name(name)),
            Segment::Text(ended_words(side)),
            Segment::Text(b" in "),
            place_segment(cut.place),
            Segment::Number(b", after ", cut.bytes),
            Segment::Text(b" bytes"),
            Segment::Ending(stamp),
        ],
        writer,
    )
}
