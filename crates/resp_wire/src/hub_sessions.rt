//! The sessions of a hub.

ghost use Rattle.resp_wire.specs.HubSessions.{CutsSession, IsKnown, ServesSession, TakesBytes, WritesSession, has_session, is_closing_at, waiting_at};

use crate::sessions::Sessions;
use resp_io::Halt;
use resp_io::device::Sink;
use resp_server::Hub;
use resp_session::laws;
use std::alloc::AllocError;
use std::hash::BuildHasher;

/// A client is the id of its session.
impl<S: BuildHasher> Sessions<u64> for Hub<S> {
    ghost has = { has_session };

    ghost knows = { IsKnown };

    ghost closing = { is_closing_at };

    ghost waiting = { waiting_at };

    ghost has_served = { ServesSession };

    ghost has_cut_short = { CutsSession };

    ghost takes = { TakesBytes };

    ghost writes = { WritesSession };

    fn find(&self, client: &u64) -> Option<bool> {
        match self.is_closing(*client) {
            Ok(closing) => Some(closing),
            Err(_) => None,
        }
    }

    fn give(&mut self, client: &mut u64, piece: &[u8], held: usize) -> Result<usize, AllocError> {
        laws::answers_go_on();
        laws::answers_are_added();
        match self.bytes_within(*client, piece, held) {
            Ok(taken) => Ok(taken.used),
            // The session is there, so an allocation failed.
            Err(_) => Err(AllocError),
        }
    }

    fn send<W: Sink>(
        &mut self,
        client: &mut u64,
        writer: &mut W,
        turns: &mut u64,
    ) -> Result<bool, Halt> {
        let Ok(sent) = self.write_out(*client, writer, turns) else {
            // The session is there.
            return Ok(true);
        };
        match sent.end {
            Ok(()) => Ok(sent.closing),
            Err(halt) => Err(halt),
        }
    }
}
