//! Streamed strings: chunks of counted content, ended by an empty chunk.

ghost use Rattle.std.specs.Prelude.{◌≡◌, ◌≤◌, ◌<◌, ◌-◌, length, drop};

use crate::machine::{Advance, EventTag, Head, Machine, State};
use resp_value::cause::Cause;

impl Machine {
    ghost use Rattle.resp_scan.specs.Machine.Fields.{place_of, out_of, Reads};
    ghost use Rattle.resp_scan.specs.Machine.Scan.{scan, Gave};
    ghost use Rattle.resp_scan.specs.Machine.Tokens.{at, at_boundary, TextEnd, AtStreamCr, AtStreamLf, AtChunk, InChunk, AtChunkCr, AtChunkLf};
    ghost use Rattle.resp_scan.specs.Machine.Heads.{chunk_at};

    /// Reads the CR after `$?`.
    #[inline]
    pub(crate) fn stream_cr(&mut self, piece: &[u8], i: usize) -> Advance
        requires { i ≤ length piece.now }
        ensures { Reads self.old self.new AtStreamCr piece.now i result }
    {
        if i == piece.len() {
            return self.rest(State::StreamCr, piece);
        }
        if piece[i] != b'\r' {
            return self.fail(i, Cause::Syntax);
        }
        self.stream_lf(piece, i + 1)
    }

    /// Reads the LF of the head `$?`. The text begins, and the limit `length` is the room for all
    /// its chunks.
    #[inline]
    pub(crate) fn stream_lf(&mut self, piece: &[u8], i: usize) -> Advance
        requires { i ≤ length piece.now }
        ensures { Reads self.old self.new AtStreamLf piece.now i result }
    {
        if i == piece.len() {
            return self.rest(State::StreamLf, piece);
        }
        if piece[i] != b'\n' {
            return self.fail(i, Cause::Syntax);
        }
        self.state = State::Chunk;
        self.room = self.limits.length();
        self.gives(i + 1, EventTag::Bulk)
    }

    /// Reads the beginning of a chunk, in a string for which the limit `length` leaves `room`
    /// bytes.
    #[inline]
    pub(crate) fn chunk(&mut self, piece: &[u8], i: usize) -> Advance
        requires { i ≤ length piece.now }
        ensures { Reads self.old self.new (AtChunk self.old.room) piece.now i result }
    {
        if i == piece.len() {
            return self.rest(State::Chunk, piece);
        }
        if piece[i] != b';' {
            return self.fail(i, Cause::Syntax);
        }
        let room = self.room;
        self.head_first(piece, i + 1, Head::Chunk { room })
    }

    /// Begins the content after the head of a chunk, or ends the text if the chunk is empty.
    #[inline]
    pub(crate) fn chunk_begins(&mut self, piece: &[u8], i: usize, count: u64, room: u64) -> Advance
        requires within { i ≤ length piece.now }
        requires room { count ≤ room }
        ensures ends { count ≡ 0 → out_of result self.new ≡
            Gave i TextEnd (at_boundary (place_of self.old)) }
        ensures begins { 0 < count → out_of result self.new ≡
            scan i (at (place_of self.old) (InChunk (room - count) count)) (drop i piece.now) }
    {
        if count == 0 {
            return self.at_boundary(i, EventTag::TextEnd);
        }
        self.room = room - count;
        self.count = count;
        self.chunk_content(piece, i)
    }

    /// Reads the content of a chunk, of which `count` bytes are still to come.
    #[inline]
    pub(crate) fn chunk_content(&mut self, piece: &[u8], i: usize) -> Advance
        requires within { i ≤ length piece.now }
        requires some { 0 < self.old.count }
        ensures { Reads self.old self.new (InChunk self.old.room self.old.count)
            piece.now i result }
    {
        if i == piece.len() {
            return self.rest(State::ChunkContent, piece);
        }
        let run = ((piece.len() - i) as u64).min(self.count);
        self.part_start = i;
        self.chunk_rests(self.count - run);
        self.gives(i + run as usize, EventTag::ChunkPart)
    }

    /// Stores that `count` bytes of a chunk are still to come.
    #[inline]
    fn chunk_rests(&mut self, count: u64)
        ensures start { self.new.part_start ≡ self.old.part_start }
        ensures place { place_of self.new ≡ chunk_at self.old.room count (place_of self.old) }
    {
        self.count = count;
        self.state = if count == 0 {
            State::ChunkCr
        } else {
            State::ChunkContent
        };
    }

    /// Reads the CR after the content of a chunk.
    #[inline]
    pub(crate) fn chunk_cr(&mut self, piece: &[u8]) -> Advance
        ensures { out_of result self.new ≡
            scan 0 (at (place_of self.old) (AtChunkCr self.old.room)) piece.now }
    {
        if piece.is_empty() {
            return self.rest(State::ChunkCr, piece);
        }
        if piece[0] != b'\r' {
            return self.fail(0, Cause::Syntax);
        }
        self.chunk_lf(piece, 1)
    }

    /// Reads the LF after the content of a chunk. The next chunk begins after it.
    #[inline]
    pub(crate) fn chunk_lf(&mut self, piece: &[u8], i: usize) -> Advance
        requires { i ≤ length piece.now }
        ensures { Reads self.old self.new (AtChunkLf self.old.room) piece.now i result }
    {
        if i == piece.len() {
            return self.rest(State::ChunkLf, piece);
        }
        if piece[i] != b'\n' {
            return self.fail(i, Cause::Syntax);
        }
        self.chunk(piece, i + 1)
    }
}
