//! Parts that test the desk of a client, the commands of a line, and a board. After a failed allocation the
//! promised state remains, and the same call succeeds when it is made again.

use crate::outcome::Outcome;
use resp_board::{
    Board, Bounds, ClientId, Desk, DeskError, LineId, OpenError, OwnError, Queue, ReplyError,
    Ticket,
};
use std::alloc::Global;

/// Three answers arrive, the last one first.
pub(crate) fn of_desk(alloc: Global) -> Outcome {
    let mut desk = Desk::new(alloc);
    for _ in 0..3 {
        if desk.ask().is_err() {
            return Outcome::Wrong;
        }
    }
    for (number, before) in [(2, b"".as_slice()), (1, b""), (0, b"")] {
        if desk.answer(number, b"answer;").is_err() {
            let stands = desk.out() == before && desk.waiting() == 3;
            return Outcome::refused(stands && desk.answer(number, b"answer;").is_ok());
        }
    }
    Outcome::of(desk.out() == b"answer;answer;answer;".as_slice() && desk.waiting() == 0)
}

/// An answer of the proxy itself waits for the answer to the command before it.
pub(crate) fn of_own_desk(alloc: Global) -> Outcome {
    let mut desk = Desk::new(alloc);
    if desk.ask().is_err() {
        return Outcome::Wrong;
    }
    match desk.own(b"own;") {
        Ok(()) => {}
        Err(DeskError::OutOfMemory) => {
            let stands = desk.out().is_empty() && desk.waiting() == 1;
            return Outcome::refused(stands && desk.own(b"own;").is_ok());
        }
        Err(DeskError::TooMany) => return Outcome::Wrong,
    }
    if desk.answer(0, b"answer;").is_err() {
        let stands = desk.out().is_empty() && desk.waiting() == 2;
        return Outcome::refused(stands && desk.answer(0, b"answer;").is_ok());
    }
    Outcome::of(desk.out() == b"answer;own;".as_slice() && desk.waiting() == 0)
}

/// Commands are queued, a part of their bytes is sent, and the connection is lost.
pub(crate) fn of_queue(alloc: Global) -> Outcome {
    let mut queue = Queue::new(alloc);
    for number in 0..9 {
        let before = queue.unsent().len();
        let ticket = Ticket {
            client: ClientId {
                place: 0,
                number: 1,
            },
            number,
            part: 0,
        };
        if queue.push(ticket, b"command;").is_err() {
            let stands = queue.unsent().len() == before && queue.begun() == 0;
            return Outcome::refused(stands && queue.push(ticket, b"command;").is_ok());
        }
    }
    queue.sent(9);
    let begun = queue.begun();
    while queue.pop().is_some() {}
    queue.reconnect();
    Outcome::of(begun == 2 && queue.begun() == 0 && queue.unsent().len() == 56)
}

/// The commands of a line are moved behind those of another, one byte of which was sent.
pub(crate) fn of_queue_release(alloc: Global) -> Outcome {
    let mut from = Queue::new(alloc);
    let mut to = Queue::new(alloc);
    let client = ClientId {
        place: 0,
        number: 1,
    };
    for number in 0..3 {
        let ticket = Ticket {
            client,
            number,
            part: 0,
        };
        if from.push(ticket, b"later;").is_err() || to.push(ticket, b"first;").is_err() {
            return Outcome::refused(true);
        }
    }
    to.sent(1);
    if from.release(&mut to).is_err() {
        let stands = from.unsent() == b"later;later;later;".as_slice()
            && from.waiting() == 3
            && to.unsent() == b"irst;first;first;".as_slice()
            && to.waiting() == 3;
        return Outcome::refused(stands && from.release(&mut to).is_ok());
    }
    Outcome::of(
        to.unsent() == b"irst;first;first;later;later;later;".as_slice()
            && to.waiting() == 6
            && to.begun() == 1
            && from.unsent().is_empty()
            && from.waiting() == 0,
    )
}

/// A board with a client and a line, and the ids of both.
fn joined(alloc: Global) -> Option<(Board, ClientId, LineId)> {
    let mut board = Board::new(alloc, Bounds::standard());
    let who = board.open().ok()?;
    let line = board.open_line().ok()?;
    Some((board, who, line))
}

/// A client and a line are opened.
pub(crate) fn of_board_open(alloc: Global) -> Outcome {
    let mut board = Board::new(alloc, Bounds::standard());
    let first = match board.open() {
        Ok(first) => first,
        Err(OpenError::OutOfMemory) => return Outcome::refused(board.open().is_ok()),
        Err(OpenError::TooMany) => return Outcome::Wrong,
    };
    let Ok(line) = board.open_line() else {
        let stands = board.to_client(first) == Some(b"".as_slice());
        return Outcome::refused(stands && board.open_line().is_ok());
    };
    Outcome::of(first.number == 1 && line.place == 0)
}

/// A client's commands are queued.
pub(crate) fn of_board_ask(alloc: Global) -> Outcome {
    let Some((mut board, who, line)) = joined(alloc) else {
        return Outcome::refused(true);
    };
    for before in 0..9 {
        if board.ask(who, line, b"command;").is_err() {
            let stands = board.waiting(line) == before && board.to_server(line).len() == before * 8;
            return Outcome::refused(stands && board.ask(who, line, b"command;").is_ok());
        }
    }
    Outcome::of(board.waiting(line) == 9)
}

/// An answer of the proxy itself waits behind a command of its client.
pub(crate) fn of_board_own(alloc: Global) -> Outcome {
    let mut board = Board::new(alloc, Bounds::standard());
    let (Ok(who), Ok(line)) = (board.open(), board.open_line()) else {
        return Outcome::OutOfMemory;
    };
    if board.ask(who, line, b"command;").is_err() {
        return Outcome::OutOfMemory;
    }
    for text in [b"=1;".as_slice(), b"=2;"] {
        let before = board.waiting_of(who);
        match board.own(who, text) {
            Ok(()) => {}
            Err(OwnError::OutOfMemory) => {
                let stands = board.waiting_of(who) == before && has(&board, who, b"");
                return Outcome::refused(stands && board.own(who, text).is_ok());
            }
            Err(_) => return Outcome::Wrong,
        }
    }
    board.sent(line, 1);
    match board.reply(line, b"+1;") {
        Ok(owner) => Outcome::of(owner == who && has(&board, who, b"+1;=1;=2;")),
        Err(_) => Outcome::refused(has(&board, who, b"")),
    }
}

/// Returns whether these bytes wait for a client.
fn has(board: &Board, who: ClientId, bytes: &[u8]) -> bool {
    board.to_client(who) == Some(bytes)
}

/// A command has a reply, and a reply of the proxy itself follows it.
pub(crate) fn of_board_reply(alloc: Global) -> Outcome {
    let Some((mut board, who, line)) = joined(alloc) else {
        return Outcome::refused(true);
    };
    if board.ask(who, line, b"command;").is_err() {
        return Outcome::refused(board.ask(who, line, b"command;").is_ok());
    }
    if board.own(who, b"own;").is_err() {
        let stands = board.to_client(who) == Some(b"".as_slice()) && board.waiting(line) == 1;
        return Outcome::refused(stands && board.own(who, b"own;").is_ok());
    }
    board.sent(line, 8);
    if board.reply(line, b"reply;") == Err(ReplyError::OutOfMemory) {
        let stands = board.begun(line) == 1 && board.to_client(who) == Some(b"".as_slice());
        return Outcome::refused(stands && board.reply(line, b"reply;") == Ok(who));
    }
    Outcome::of(board.to_client(who) == Some(b"reply;own;".as_slice()))
}

/// A line is lost, and then fails.
pub(crate) fn of_board_lose(alloc: Global) -> Outcome {
    let Some((mut board, who, line)) = joined(alloc) else {
        return Outcome::refused(true);
    };
    for _ in 0..3 {
        if board.ask(who, line, b"command;").is_err() {
            return Outcome::refused(true);
        }
    }
    board.sent(line, 9);
    if board.lose(line, b"lost;").is_err() {
        let stands = board.begun(line) > 0 && board.next_client(line) == Some(who);
        return Outcome::refused(stands && board.lose(line, b"lost;").is_ok());
    }
    let left = board.waiting(line) == 1 && board.to_server(line) == b"command;".as_slice();
    if board.fail(line, b"failed;").is_err() {
        return Outcome::refused(left && board.fail(line, b"failed;").is_ok());
    }
    Outcome::of(left && board.to_client(who) == Some(b"lost;lost;failed;".as_slice()))
}

/// The commands of a line are moved behind those of another.
pub(crate) fn of_board_release(alloc: Global) -> Outcome {
    let Some((mut board, who, line)) = joined(alloc) else {
        return Outcome::refused(true);
    };
    let Ok(other) = board.open_line() else {
        return Outcome::refused(true);
    };
    for (place, text) in [(line, b"first;"), (other, b"third;"), (other, b"last!;")] {
        if board.ask(who, place, text).is_err() {
            return Outcome::refused(true);
        }
    }
    board.sent(line, 2);
    if board.release(other, line).is_err() {
        let stands = board.to_server(line) == b"rst;".as_slice()
            && board.to_server(other) == b"third;last!;".as_slice()
            && board.waiting(other) == 2;
        return Outcome::refused(stands && board.release(other, line).is_ok());
    }
    Outcome::of(
        board.to_server(line) == b"rst;third;last!;".as_slice()
            && board.begun(line) == 1
            && board.waiting(line) == 3
            && board.waiting(other) == 0
            && board.to_server(other).is_empty(),
    )
}
