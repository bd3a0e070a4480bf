//! Doubles: the content of their lines, byte by byte.

ghost use Rattle.std.specs.Prelude.{◌≡◌, ◌<◌, ◌≤◌, length, get_or, None};
ghost use Rattle.resp_value.specs.DoubleStages.{stage_after};
ghost use Rattle.resp_scan.specs.Machine.Runs.{double_run};

use crate::machine::{Advance, EventTag, Machine, State};
use resp_value::cause::Cause;
use resp_value::double_stage::DoubleStage;

/// The bytes of a double at the beginning of a piece: their number, the stage after them, and the
/// number of bytes that the limit `length` leaves after them.
#[derive(Clone, Copy)]
pub(crate) struct DoubleRun {
    pub count: usize,
    pub stage: DoubleStage,
    pub room: u64,
}

impl Machine {
    ghost use Rattle.resp_scan.specs.Machine.Fields.{place_of, out_of};
    ghost use Rattle.resp_scan.specs.Machine.Scan.{scan};
    ghost use Rattle.resp_scan.specs.Machine.Tokens.{at, InDouble};

    /// Reads the content of a double, at the beginning of the piece.
    pub(crate) fn double(&mut self, piece: &[u8]) -> Advance
        requires { self.old.state ≡ State.Double }
        ensures { out_of result self.new ≡
            scan 0 (at (place_of self.old) (InDouble self.old.stage self.old.room)) piece.now }
    {
        if piece.is_empty() {
            return self.rest(State::Double, piece);
        }
        let run = double_run(self.stage, self.room, self.total_room(), piece);
        if run.count > 0 {
            self.stage = run.stage;
            self.room = run.room;
            return self.gives(run.count, EventTag::Part);
        }
        match self.stage.after(piece[0]) {
            None => self.double_ends(piece),
            Some(next) => {
                if self.room <= next.needs() {
                    self.fail(0, Cause::Length)
                } else {
                    self.fail(0, Cause::Total)
                }
            }
        }
    }

    /// Reads the CR of a double, or rejects a byte that no double has there.
    fn double_ends(&mut self, piece: &[u8]) -> Advance
        requires some { 0 < length piece.now }
        requires state { self.old.state ≡ State.Double }
        requires stops { stage_after self.old.stage (get_or piece.now 0 0) ≡ None }
        ensures { out_of result self.new ≡
            scan 0 (at (place_of self.old) (InDouble self.old.stage self.old.room)) piece.now }
    {
        if piece[0] == b'\r' && self.stage.needs() == 0 {
            self.line_lf(piece, 1)
        } else {
            self.fail(0, Cause::Syntax)
        }
    }
}

/// Returns the bytes of a double at the beginning of the piece, from this stage on. The limit
/// `length` leaves `room` bytes for them, and the limit `total` leaves `total` bytes for them and
/// for the CR LF.
pub(crate) fn double_run(stage: DoubleStage, room: u64, total: u64, piece: &[u8]) -> DoubleRun
    ensures run { result ≡ double_run 0 total room stage piece.now }
    ensures within { result.count ≤ length piece.now }
{
    let mut stage = stage;
    let mut room = room;
    for i in 0..piece.len() {
        match stage.after(piece[i]) {
            None => return DoubleRun {
                count: i,
                stage,
                room,
            },
            Some(next) => {
                let needs = next.needs();
                if room <= needs || i as u64 + 1 + (needs + 2) > total {
                    return DoubleRun {
                        count: i,
                        stage,
                        room,
                    };
                }
                stage = next;
                room -= 1;
            }
        }
    }
    DoubleRun {
        count: piece.len(),
        stage,
        room,
    }
}
