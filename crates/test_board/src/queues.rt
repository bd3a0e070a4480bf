//! Lines whose connections are lost now and then, compared with lists of commands.

use crate::draw::Draw;
use resp_board::{ClientId, Queue, Ticket};
use std::alloc::{AllocError, Global};

/// A command of the present connection: its number, and where its bytes begin and end.
#[derive(Clone, Copy)]
struct Placed {
    number: u64,
    begin: usize,
    end: usize,
}

/// Runs this many events of one line, and returns how often it and the lists disagreed, and how many
/// connections were lost.
pub(crate) fn run(alloc: Global, seed: u64, events: u64) -> Result<(u64, u64), AllocError> {
    let mut draw = Draw::new(seed);
    let mut queue = Queue::new(alloc);
    let mut commands: Vec<Placed> = Vec::new(alloc);
    let mut bytes: Vec<u8> = Vec::new(alloc);
    let (mut answered, mut sent, mut wrong, mut lost) = (0, 0, 0, 0);
    for event in 0..events {
        match draw.below(16) {
            0..6 => {
                let text = &b"a command of some length"[..draw.below(25) as usize];
                queue.push(ticket(event), text)?;
                let begin = bytes.len();
                bytes.extend_from_slice(text)?;
                let end = bytes.len();
                commands
                    .push(Placed {
                        number: event,
                        begin,
                        end,
                    })
                    .map_err(|_| AllocError)?;
            }
            6..11 => {
                let count = draw.below(queue.unsent().len() as u64 + 1) as usize;
                queue.sent(count);
                sent += count;
            }
            11..15 => {
                let due = begun(&commands, answered, sent) > 0;
                if queue.pop().is_some() != due {
                    wrong += 1;
                }
                answered += usize::from(due);
            }
            _ => {
                while queue.pop().is_some() {
                    answered += 1;
                }
                queue.reconnect();
                let mut left = Vec::new(alloc);
                let mut rest = Vec::new(alloc);
                for placed in commands.iter().skip(answered) {
                    let begin = rest.len();
                    rest.extend_from_slice(&bytes[placed.begin..placed.end])?;
                    let end = rest.len();
                    left.push(Placed {
                        number: placed.number,
                        begin,
                        end,
                    })
                    .map_err(|_| AllocError)?;
                }
                commands = left;
                bytes = rest;
                answered = 0;
                sent = 0;
                lost += 1;
            }
        }
        let first = commands.get(answered).map(|placed| ticket(placed.number));
        let agree = queue.unsent() == &bytes[sent..]
            && queue.begun() == begun(&commands, answered, sent)
            && queue.first() == first;
        wrong += u64::from(!agree);
    }
    Ok((wrong, lost))
}

/// Returns how many commands without a reply had a byte sent: those before the last of them that
/// begins within the bytes that were sent, with it.
fn begun(commands: &[Placed], answered: usize, sent: usize) -> usize {
    let mut count = 0;
    for (at, placed) in commands.iter().enumerate().skip(answered) {
        if placed.begin < sent && placed.begin < placed.end {
            count = at + 1 - answered;
        }
    }
    count
}

fn ticket(number: u64) -> Ticket {
    Ticket {
        client: ClientId {
            place: 0,
            number: 1,
        },
        number,
        part: 0,
    }
}
