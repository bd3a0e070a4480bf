//! The least number of bytes that complete the current value.

ghost use Rattle.resp_scan.specs.Machine.Heads.{first_needed, head_needed};
ghost use Rattle.std.specs.Prelude.{◌≡◌, ◌≤◌, ◌<◌, ◌^◌};

use crate::machine::{Head, Machine, State};

impl Machine {
    ghost use Rattle.resp_scan.specs.Machine.Fields.{place_of};
    ghost use Rattle.resp_scan.specs.Machine.Sound.{IsSound, needed, token_needed};

    /// Returns the least number of bytes that complete the current value: those of the token and
    /// those of the open aggregates.
    #[inline]
    pub(crate) fn needed(&self) -> u64
        requires { IsSound (place_of self.now) }
        ensures { result ≡ needed (place_of self.now) }
    {
        self.frames_need + self.token_needed()
    }

    /// Returns the least number of bytes that complete the token.
    #[tactic(auto, using(crate::proofs::Soundness::Places::needs_fit))]
    fn token_needed(&self) -> u64
        requires { IsSound (place_of self.now) }
        ensures { result ≡ token_needed (place_of self.now).token self.now.limits.depth
            (place_of self.now).frames }
    {
        match self.state {
            State::Start => { if self.frames.is_empty() { 3 } else { 0 } }
            State::Boundary | State::TextEnd | State::Failed => 0,
            State::Line | State::Int | State::BigZeros | State::BigDigit | State::Big => 2,
            State::Double => self.stage.needs() + 2,
            State::LineLf | State::IntLf | State::BigZeroLf => 1,
            State::IntSign | State::IntFirst | State::BigSign | State::BigFirst => 3,
            State::NullOne | State::Bool => 3,
            State::NullCr | State::BoolCr => 2,
            State::NullLf | State::BoolLf => 1,
            State::BulkHead => 4,
            State::ArrayHead => { if self.is_full() { 4 } else { 3 } }
            State::HeadFirst => first_needed(self.head),
            State::HeadMore => needed_after(self.head, self.count),
            State::HeadLf => needed_after(self.head, self.count) - 1,
            State::FormatFirst | State::Content => self.count + 2,
            State::FormatSecond => self.count + 1,
            State::FormatThird => self.count,
            State::FormatColon => self.count - 1,
            State::ContentCr | State::CloseCr => 2,
            State::ContentLf | State::CloseLf => 1,
            State::StreamCr | State::ChunkCr => 6,
            State::StreamLf | State::ChunkLf | State::OpenCr => 5,
            State::Chunk | State::OpenLf => 4,
            State::ChunkContent => self.count + 6,
        }
    }
}

/// Returns the least number of bytes that complete a value after its type byte, or a streamed
/// string after the `;` of a chunk.
#[inline]
pub(crate) fn first_needed(head: Head) -> u64
    ensures few { result < 10 }
    ensures needed { result ≡ first_needed head }
{
    match head {
        Head::Bulk => 4,
        Head::BulkError => 5,
        Head::Verbatim => 9,
        Head::Attr => 6,
        Head::Chunk { .. } | Head::Array | Head::Set | Head::Map | Head::Push => 3,
    }
}

/// Returns the least number of bytes that complete a value, or a streamed string, after the digits
/// of this number in a head.
#[inline]
pub(crate) fn needed_after(head: Head, number: u64) -> u64
    requires { number < 2 ^ 44 }
    ensures more { number ≤ result }
    ensures few { result < 2 ^ 48 }
    ensures needed { result ≡ head_needed head number }
{
    match head {
        Head::Bulk | Head::BulkError => number + 4,
        Head::Verbatim => {
            if number == 0 {
                9
            } else if number < 4 {
                number * 10 + 5
            } else {
                number + 4
            }
        }
        Head::Chunk { .. } => { if number == 0 { 2 } else { number + 8 } }
        Head::Array | Head::Set | Head::Push => number * 3 + 2,
        Head::Map => number * 6 + 2,
        Head::Attr => number * 6 + 5,
    }
}
