//! One direction of a forwarded connection.

ghost use Rattle.std.specs.Prelude.{◌≡◌, ◌≢◌, ◌⊎◌, ◌||◌, ◌↔◌, ◌<◌, ◌≤◌, [], IsTrue, Some, false, length, take, true};

use crate::non_blocking::{Input, Output};
use crate::service::Next;
use crate::stream::Stream;
use crate::way::{Visited, Way};
use resp_io::device::Device;
use std::alloc::Global;
use std::marker::Model;
use std::net::Shutdown;

/// The maximum number of bytes of one read.
pub const PIECE: usize = 16_384;

/// The maximum number of pieces that are forwarded in each direction before other connections are
/// visited.
pub const TURNS: usize = 16;

/// The result of visiting a lane, or of a write.
#[derive(Clone, Copy, Debug, PartialEq, Eq)]
pub enum Progress {
    /// The next visit would block, or nothing is left to do.
    Waits,
    /// More bytes may be ready.
    MayGoOn,
    /// A socket or an allocation failed.
    Failed,
}

/// One direction of a connection.
#[derive(Drop)]
pub struct Lane {
    way: Way,
    /// Whether the sending side has ended, and the other side was told.
    has_ended: bool,
}

impl Model for Lane {
    ghost use Rattle.resp_net.specs.Lanes.{LaneState};

    ghost Value = { LaneState };

    ghost view = { λ l. record { waiting = l.way.waiting; has_ended = l.has_ended } };
}

/// What a visit of a lane has done.
#[derive(Clone, Copy)]
pub struct Forwarded {
    /// The number of bytes that were read, which are the first of the buffer.
    pub count: usize,
    /// The number of bytes that were written.
    pub written: usize,
    /// Whether the sending side has ended in this visit.
    pub has_ended: bool,
    pub progress: Progress,
}

impl Lane {
    ghost use Rattle.resp_net.specs.Lanes.{Forwards};

    /// Returns a lane that has forwarded nothing. Does not allocate.
    pub fn new(alloc: Global) -> Lane
        ensures { result ≡ record { waiting = []; has_ended = false } }
    {
        Lane {
            way: Way::new(alloc),
            has_ended: false,
        }
    }

    /// Returns whether the sending side has ended.
    pub fn has_ended(&self) -> bool
        ensures { result ≡ self.now.has_ended }
    {
        self.has_ended
    }

    /// Returns whether bytes that were read wait to be written.
    pub fn waits(&self) -> bool
        ensures { IsTrue result ↔ (0 < length self.now.waiting) }
    {
        self.way.waits()
    }

    /// Ends the lane. The receiving side is told that no more bytes come.
    pub fn end(&mut self, to: &Stream)
        ensures { self.new ≡ record self.old { has_ended = true } }
    {
        if !self.has_ended {
            self.has_ended = true;
            let _ = to.shutdown(Shutdown::Write);
        }
    }

    /// Ends the lane if `ends` is true.
    fn end_if(&mut self, ends: bool, to: &Stream)
        ensures { self.new ≡ record self.old { has_ended = self.old.has_ended || ends } }
    {
        if ends {
            self.end(to);
        }
    }

    /// Visits the lane once, with at most one read into the buffer and one write. `is_at_end` says whether
    /// the input may have ended. The receiving side is told of the end once no bytes wait.
    pub fn visit(
        &mut self,
        from: &Stream,
        to: &Stream,
        is_at_end: bool,
        buffer: &mut [u8],
    ) -> Forwarded
        requires { 0 < length buffer.old }
        ensures forwards { result.progress ≢ Progress.Failed →
            Forwards (take result.count buffer.new) self.old self.new }
        ensures within_buffer { result.count ≤ length buffer.new }
        ensures nothing_read { 0 < length self.old.waiting → result.count ≡ 0 }
        ensures ended { self.old.has_ended ≡ true → (self.new ≡ self.old) × (result.count ≡ 0) }
        ensures told { self.new.has_ended ≡ true → self.old.has_ended ≡ false →
            self.old.waiting ≡ [] }
    {
        self.visit_within(from, to, is_at_end, usize::MAX, buffer)
    }

    /// Visits the lane as [`Lane::visit`] does, and writes at most `most` bytes. If `most` is 0, it writes at
    /// most one byte.
    pub fn visit_within(
        &mut self,
        from: &Stream,
        to: &Stream,
        is_at_end: bool,
        most: usize,
        buffer: &mut [u8],
    ) -> Forwarded
        requires { 0 < length buffer.old }
        ensures forwards { result.progress ≢ Progress.Failed →
            Forwards (take result.count buffer.new) self.old self.new }
        ensures within_buffer { result.count ≤ length buffer.new }
        ensures nothing_read { 0 < length self.old.waiting → result.count ≡ 0 }
        ensures ended { self.old.has_ended ≡ true → (self.new ≡ self.old) × (result.count ≡ 0) }
        ensures told { self.new.has_ended ≡ true → self.old.has_ended ≡ false →
            self.old.waiting ≡ [] }
    {
        if self.has_ended {
            return Forwarded {
                count: 0,
                written: 0,
                has_ended: false,
                progress: Progress::Waits,
            };
        }
        let mut reader = Device::new(Input::new(from, is_at_end));
        let mut writer = Device::new(Output::within(most, to));
        let (count, visited) = self.way.visit(&mut reader, &mut writer, buffer);
        self.end_if(visited == Visited::Ended, to);
        let would_wait = reader.into_inner().would_wait();
        let writer = writer.into_inner();
        Forwarded {
            count,
            written: writer.written(),
            has_ended: self.has_ended,
            progress: progress_after(visited, would_wait, &writer),
        }
    }
}

/// Returns the result of a visit of a lane. `would_wait` says whether the next read would block.
fn progress_after<W>(visited: Visited, would_wait: bool, writer: &Output<W>) -> Progress
    ensures lost { visited ≡ Visited.OutOfMemory → result ≡ Progress.Failed }
{
    match visited {
        Visited::Onward | Visited::NotRead if would_wait => Progress::Waits,
        Visited::Onward => Progress::MayGoOn,
        Visited::NotRead | Visited::OutOfMemory => Progress::Failed,
        Visited::NotWritten => after_write(writer),
        Visited::Ended => Progress::Waits,
    }
}

/// Returns the result of a write after which bytes wait.
pub fn after_write<W>(writer: &Output<W>) -> Progress
    ensures failed { (result ≡ Progress.Failed) ↔ (writer.now.has_failed ≡ true) }
    ensures waits { result ≡ Progress.Waits → writer.now.would_wait ≡ true }
{
    if writer.has_failed() {
        Progress::Failed
    } else if writer.would_wait() {
        Progress::Waits
    } else {
        Progress::MayGoOn
    }
}

/// Returns when a connection is visited next after a visit of both lanes, or `None` if it is visited again
/// at once. `have_ended` says whether both sides have ended.
pub fn next_of(one: Progress, other: Progress, have_ended: bool) -> Option<Next>
    ensures failed { (one ≡ Progress.Failed) ⊎ (other ≡ Progress.Failed) →
        result ≡ Some Next.Close }
    ensures closes { result ≡ Some Next.Close → (one ≡ Progress.Failed) ⊎
        (other ≡ Progress.Failed) ⊎ (have_ended ≡ true) }
    ensures waits { result ≡ Some Next.Wait → (one ≡ Progress.Waits) ×
        (other ≡ Progress.Waits) × (have_ended ≡ false) }
{
    match (one, other) {
        (Progress::Failed, _) | (_, Progress::Failed) => Some(Next::Close),
        (Progress::Waits, Progress::Waits) if have_ended => Some(Next::Close),
        (Progress::Waits, Progress::Waits) => Some(Next::Wait),
        _ => None,
    }
}
